//! What is found, and what a request changes.

ghost use Rattle.std.specs.Prelude.{◌≡◌, ◌<◌, ◌≤◌, true, IfOk, IsTrue};
ghost use Rattle.fam_base.specs.declared.naming.Who.{Who as AnyWho};
ghost use Rattle.fam_model.specs.Directory as words;
ghost use Rattle.fam_model.specs.Directory.{refusal, first_choice, item_info, region_info};
ghost use Rattle.fam_model.specs.Lawful.{is_lawful_change};
ghost use Rattle.fam_model.specs.Limits.{nobody};
ghost use Rattle.fam_model.specs.Rows.{region_of, item_of};
ghost use Rattle.fam_model.specs.declared.request.Request.TheVariants as request;
ghost use Rattle.fam_rows.specs.Laws.{asked_mode};
ghost use Rattle.fam_rows.specs.Located.{located_at};
ghost use Rattle.fam_directory.specs.Answers.{IsFound, IsMade, makes_change, region_found};

use crate::copying::{copy_item, copy_region};
use crate::directory::Directory;
use fam_base::{Descriptor, FamError, ItemId, NoMemory, RegionId, Sequence, Who, good_name};
use fam_model::{Change, ItemInfo, ItemRow, RegionInfo, RegionRow, Reply, Request};
use fam_rows::descriptor;
use std::alloc::Global;

/// A region's row without its number.
fn info_of_region(alloc: Global, row: &RegionRow) -> Result<RegionInfo, NoMemory>
    ensures { IfOk result (λ info. info ≡ region_info row.now) }
{
    let name = Sequence::of(alloc, row.name.as_slice())?;
    Ok(RegionInfo {
        name,
        size: row.size,
        uid: row.uid,
        gid: row.gid,
        mode: row.mode,
    })
}

/// An item's row without its number.
fn info_of_item(alloc: Global, row: &ItemRow) -> Result<ItemInfo, NoMemory>
    ensures { IfOk result (λ info. info ≡ item_info row.now) }
{
    let name = Sequence::of(alloc, row.name.as_slice())?;
    Ok(ItemInfo {
        name,
        region: row.region,
        base: row.base,
        size: row.size,
        uid: row.uid,
        gid: row.gid,
        mode: row.mode,
    })
}

impl Directory {
    /// The descriptor of the item of that name in the region of that name, if both are there.
    fn located(&self, name: &[u8], region: &[u8]) -> Option<Descriptor>
        ensures { result ≡ located_at self.now.rows name.now region.now }
    {
        let row = self.region_named(region)?;
        let item = self.item_named(row.number, name)?;
        Some(descriptor(item))
    }

    /// The reply to a look-up or a stat that is not refused; no other request has one.
    pub fn found(&self, request: &Request) -> Result<Option<Reply>, NoMemory>
        ensures { IfOk result (λ reply. reply ≡ words.found self.now.rows request.now) }
    {
        match request {
            Request::LookupRegion { name } => match self.region_named(name.as_slice()) {
                None => Ok(None),
                Some(row) => Ok(Some(Reply::Region(row.number))),
            },
            Request::StatRegion { region } => match self.region(*region) {
                None => Ok(None),
                Some(row) => Ok(Some(Reply::RegionStat(info_of_region(self.alloc(), row)?))),
            },
            Request::Lookup { name, region } => {
                match self.located(name.as_slice(), region.as_slice()) {
                    None => Ok(None),
                    Some(descriptor) => Ok(Some(Reply::Item(descriptor))),
                }
            }
            Request::Stat { item } => match self.item(*item) {
                None => Ok(None),
                Some(row) => Ok(Some(Reply::ItemStat(info_of_item(self.alloc(), row)?))),
            },
            _ => Ok(None),
        }
    }

    /// Where the item of a name lies, in the region of a name.
    pub fn lookup(&self, name: &[u8], region: &[u8]) -> Result<Descriptor, FamError>
        ensures { (who : AnyWho) → IsFound (refusal self.now.rows who (request.Lookup name.now region.now)) (located_at self.now.rows name.now region.now) result }
    {
        if !good_name(name) || !good_name(region) {
            return Err(FamError::BadName);
        }
        let Some(row) = self.region_named(region) else {
            return Err(FamError::Absent);
        };
        match self.item_named(row.number, name) {
            None => Err(FamError::Absent),
            Some(item) => Ok(descriptor(item)),
        }
    }

    /// The number of the region of a name.
    pub fn lookup_region(&self, name: &[u8]) -> Result<RegionId, FamError>
        ensures { (who : AnyWho) → IsFound (refusal self.now.rows who (request.LookupRegion name.now)) (region_found self.now.rows name.now) result }
    {
        if !good_name(name) {
            return Err(FamError::BadName);
        }
        match self.region_named(name) {
            None => Err(FamError::Absent),
            Some(row) => Ok(row.number),
        }
    }

    /// A copy of an item's row.
    pub fn stat(&self, item: ItemId) -> Result<ItemRow, FamError>
        ensures { (who : AnyWho) → IsMade (refusal self.now.rows who (request.Stat item)) (item_of self.now.rows item.0) result }
    {
        match self.item(item) {
            None => Err(FamError::Absent),
            Some(row) => match copy_item(self.alloc(), row) {
                Ok(copy) => Ok(copy),
                Err(_) => Err(FamError::Memory),
            },
        }
    }

    /// A copy of a region's row.
    pub fn stat_region(&self, region: RegionId) -> Result<RegionRow, FamError>
        ensures { (who : AnyWho) → IsMade (refusal self.now.rows who (request.StatRegion region)) (region_of self.now.rows region.0) result }
    {
        match self.region(region) {
            None => Err(FamError::Absent),
            Some(row) => match copy_region(self.alloc(), row) {
                Ok(copy) => Ok(copy),
                Err(_) => Err(FamError::Memory),
            },
        }
    }

    /// The change that serves a request, with the least base for a new item; or the first refusal. The change of a user who is
    /// somebody is lawful.
    pub fn check(&self, who: Who, request: &Request) -> Result<Change, FamError>
        requires { makes_change request.now ≡ true }
        ensures made { IsMade (refusal self.now.rows who request.now) (first_choice self.now.rows who request.now) result }
        ensures lawful { who.uid < nobody → asked_mode request.now ≤ 511 → IfOk result (λ change. IsTrue (is_lawful_change self.now.rows change)) }
    {
        let _items = &self.items;
        self.chosen(who, request)
    }

    /// The change that serves a request, or the first refusal.
    fn chosen(&self, who: Who, request: &Request) -> Result<Change, FamError>
        requires { makes_change request.now ≡ true }
        ensures { IsMade (refusal self.now.rows who request.now) (first_choice self.now.rows who request.now) result }
    {
        if let Some(error) = self.refusal(who, request) {
            return Err(error);
        }
        let Some(base) = self.first_base(request) else {
            return Err(FamError::Memory);
        };
        match self.change_at(who, request, base) {
            Ok(Some(change)) => Ok(change),
            Ok(None) => Err(FamError::Memory),
            Err(_) => Err(FamError::Memory),
        }
    }

    /// Whether a new item of a request may lie at `base`; other requests have none.
    pub fn may_lie(&self, request: &Request, base: u64) -> bool
        ensures { result ≡ words.may_lie self.now.rows request.now base }
    {
        match request {
            Request::Allocate { size, region, .. } => self.fits(*region, *size, base),
            _ => true,
        }
    }

    /// The least base at which a new item of a request fits; 0 for other requests.
    pub fn first_base(&self, request: &Request) -> Option<u64>
        ensures { result ≡ words.first_base self.now.rows request.now }
    {
        match request {
            Request::Allocate { size, region, .. } => self.least_base(*region, *size),
            _ => Some(0),
        }
    }

    /// The change that serves a request of this caller, with a new item at `base`; a look-up and a stat have none.
    pub fn change_at(
        &self,
        who: Who,
        request: &Request,
        base: u64,
    ) -> Result<Option<Change>, NoMemory>
        ensures { IfOk result (λ change. change ≡ words.change_at self.now.rows who request.now base) }
    {
        let change = match request {
            Request::CreateRegion { name, size, mode } => Change::CreateRegion {
                region: RegionId(self.next_region()),
                uid: who.uid,
                gid: who.gid,
                mode: *mode,
                size: *size,
                name: Sequence::of(self.alloc(), name.as_slice())?,
            },
            Request::DestroyRegion { region } => Change::DestroyRegion { region: *region },
            Request::ResizeRegion { region, size } => Change::ResizeRegion {
                region: *region,
                size: *size,
            },
            Request::SetRegionMode { region, mode } => Change::SetRegionMode {
                region: *region,
                mode: *mode,
            },
            Request::Allocate {
                name,
                size,
                mode,
                region,
            } => Change::Allocate {
                item: ItemId(self.next_item()),
                region: *region,
                base,
                size: *size,
                uid: who.uid,
                gid: who.gid,
                mode: *mode,
                name: Sequence::of(self.alloc(), name.as_slice())?,
            },
            Request::Deallocate { item } => Change::Deallocate { item: *item },
            Request::SetItemMode { item, mode } => Change::SetItemMode {
                item: *item,
                mode: *mode,
            },
            Request::LookupRegion { .. }
            | Request::StatRegion { .. }
            | Request::Lookup { .. }
            | Request::Stat { .. } => return Ok(None),
        };
        Ok(Some(change))
    }
}
