//! Why a request is refused.

ghost use Rattle.std.specs.Prelude.{◌≡◌};
ghost use Rattle.fam_model.specs.Directory as words;
ghost use Rattle.fam_model.specs.Rows.{region_owner, item_owner};
ghost use Rattle.fam_model.specs.declared.request.Request.TheVariants as request;

use crate::directory::Directory;
use fam_base::{FamError, ItemId, Mode, Need, RegionId, Who, allowed, good_name};
use fam_model::{ItemRow, RegionRow, Request};
use fam_rows::{MAX_ITEMS, MAX_REGION_SIZE, MAX_REGIONS, MAX_TOTAL_SIZE, NUMBER_END};

/// Who owns a region.
fn owner_of_region(row: &RegionRow) -> Who
    ensures { result ≡ region_owner row.now }
{
    Who {
        uid: row.uid,
        gid: row.gid,
    }
}

/// Who owns an item.
fn owner_of_item(row: &ItemRow) -> Who
    ensures { result ≡ item_owner row.now }
{
    Who {
        uid: row.uid,
        gid: row.gid,
    }
}

/// Whether the caller is not the owner.
fn is_other(owner: Who, who: Who) -> bool
    ensures { result ≡ words.is_other owner who }
{
    who.uid != owner.uid
}

impl Directory {
    /// The first refusal of a new region.
    fn creation_refusal(&self, who: Who, name: &[u8], size: u64, mode: Mode) -> Option<FamError>
        ensures { result ≡ words.refusal self.now.rows who (request.CreateRegion name.now size mode) }
    {
        if !good_name(name) {
            return Some(FamError::BadName);
        }
        if size > MAX_REGION_SIZE {
            return Some(FamError::TooLarge);
        }
        if self.region_named(name).is_some() {
            return Some(FamError::Exists);
        }
        if self.region_count() >= MAX_REGIONS
            || size > MAX_TOTAL_SIZE
            || self.total_size() > MAX_TOTAL_SIZE - size
            || self.next_region() >= NUMBER_END
        {
            return Some(FamError::NoSpace);
        }
        None
    }

    /// The first refusal of a change of a region that its owner alone may make.
    fn region_refusal(&self, who: Who, number: RegionId) -> Option<FamError>
        ensures { result ≡ words.refusal self.now.rows who (request.DestroyRegion number) }
    {
        match self.region(number) {
            None => Some(FamError::Absent),
            Some(row) if is_other(owner_of_region(row), who) => Some(FamError::NoPermission),
            Some(_) => None,
        }
    }

    /// The first refusal of a change of an item that its owner alone may make.
    fn item_refusal(&self, who: Who, number: ItemId) -> Option<FamError>
        ensures { result ≡ words.refusal self.now.rows who (request.Deallocate number) }
    {
        match self.item(number) {
            None => Some(FamError::Absent),
            Some(row) if is_other(owner_of_item(row), who) => Some(FamError::NoPermission),
            Some(_) => None,
        }
    }

    /// The first refusal of a region's new size.
    fn resize_refusal(&self, who: Who, number: RegionId, size: u64) -> Option<FamError>
        ensures { result ≡ words.refusal self.now.rows who (request.ResizeRegion number size) }
    {
        if size > MAX_REGION_SIZE {
            return Some(FamError::TooLarge);
        }
        let Some(row) = self.region(number) else {
            return Some(FamError::Absent);
        };
        if is_other(owner_of_region(row), who) {
            return Some(FamError::NoPermission);
        }
        if self.cuts_item(number, size) {
            return Some(FamError::InUse);
        }
        let others = self.total_size().saturating_sub(row.size);
        if size > MAX_TOTAL_SIZE || others > MAX_TOTAL_SIZE - size {
            return Some(FamError::NoSpace);
        }
        None
    }

    /// The first refusal of a look-up of a region.
    pub(crate) fn region_name_refusal(&self, who: Who, name: &[u8]) -> Option<FamError>
        ensures { result ≡ words.refusal self.now.rows who (request.LookupRegion name.now) }
    {
        if !good_name(name) {
            return Some(FamError::BadName);
        }
        match self.region_named(name) {
            None => Some(FamError::Absent),
            Some(_) => None,
        }
    }

    /// The first refusal of a look-up of an item.
    pub(crate) fn item_name_refusal(&self, who: Who, name: &[u8], region: &[u8]) -> Option<FamError>
        ensures { result ≡ words.refusal self.now.rows who (request.Lookup name.now region.now) }
    {
        if !good_name(name) || !good_name(region) {
            return Some(FamError::BadName);
        }
        let Some(row) = self.region_named(region) else {
            return Some(FamError::Absent);
        };
        match self.item_named(row.number, name) {
            None => Some(FamError::Absent),
            Some(_) => None,
        }
    }

    /// The first refusal of a new item.
    fn allocation_refusal(
        &self,
        who: Who,
        name: &[u8],
        size: u64,
        mode: Mode,
        number: RegionId,
    ) -> Option<FamError>
        ensures { result ≡ words.refusal self.now.rows who (request.Allocate name.now size mode number) }
    {
        if !good_name(name) {
            return Some(FamError::BadName);
        }
        if size > MAX_REGION_SIZE {
            return Some(FamError::TooLarge);
        }
        let Some(row) = self.region(number) else {
            return Some(FamError::Absent);
        };
        if self.item_named(number, name).is_some() {
            return Some(FamError::Exists);
        }
        if !allowed(owner_of_region(row), row.mode, who, Need::Write) {
            return Some(FamError::NoPermission);
        }
        if self.item_count() >= MAX_ITEMS
            || self.has_no_gap(number, size)
            || self.next_item() >= NUMBER_END
        {
            return Some(FamError::NoSpace);
        }
        None
    }

    /// The first refusal of a request that holds; none where the request is served.
    pub fn refusal(&self, who: Who, request: &Request) -> Option<FamError>
        ensures { result ≡ words.refusal self.now.rows who request.now }
    {
        match request {
            Request::CreateRegion { name, size, mode } => {
                self.creation_refusal(who, name.as_slice(), *size, *mode)
            }
            Request::DestroyRegion { region } => self.region_refusal(who, *region),
            Request::ResizeRegion { region, size } => self.resize_refusal(who, *region, *size),
            Request::SetRegionMode { region, .. } => self.region_refusal(who, *region),
            Request::LookupRegion { name } => self.region_name_refusal(who, name.as_slice()),
            Request::StatRegion { region } => match self.region(*region) {
                None => Some(FamError::Absent),
                Some(_) => None,
            },
            Request::Allocate {
                name,
                size,
                mode,
                region,
            } => self.allocation_refusal(who, name.as_slice(), *size, *mode, *region),
            Request::Deallocate { item } => self.item_refusal(who, *item),
            Request::SetItemMode { item, .. } => self.item_refusal(who, *item),
            Request::Lookup { name, region } => {
                self.item_name_refusal(who, name.as_slice(), region.as_slice())
            }
            Request::Stat { item } => match self.item(*item) {
                None => Some(FamError::Absent),
                Some(_) => None,
            },
        }
    }
}
