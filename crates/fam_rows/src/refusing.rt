//! Why a request is refused.

ghost use Rattle.std.specs.Prelude.{◌≡◌};
ghost use Rattle.fam_model.specs.Directory as words;
ghost use Rattle.fam_model.specs.Rows.{IsLawful, region_owner, item_owner};
ghost use Rattle.fam_model.specs.Rows as row_words;
ghost use Rattle.fam_model.specs.declared.request.Request.TheVariants as request;

use crate::limits::{MAX_ITEMS, MAX_REGION_SIZE, MAX_REGIONS, MAX_TOTAL_SIZE, NUMBER_END};
use crate::room::{ends_by, has_no_gap};
use crate::search::{item, item_named, region, region_named};
use fam_base::{FamError, ItemId, Mode, Need, RegionId, Who, allowed, good_name};
use fam_model::{ItemRow, RegionRow, Request, Rows};

/// The sizes of all regions together.
pub(crate) fn total_size(rows: &Rows) -> u64
    requires { IsLawful rows.now }
    ensures { result ≡ row_words.total_size rows.now }
{
    rows.regions.as_slice().iter().map(|row| row.size).sum()
}

/// Whether some item of the region has room past the new size.
pub(crate) fn cuts_item(rows: &Rows, row: &RegionRow, size: u64) -> bool
    ensures { result ≡ words.cuts_item rows.now row.now size }
{
    let mut items = rows
        .items
        .as_slice()
        .iter()
        .filter(|item| item.region.0 == row.number.0);
    items.any(|item| !ends_by(item.base, item.size, size))
}

/// Who owns a region.
fn owner_of_region(row: &RegionRow) -> Who
    ensures { result ≡ region_owner row.now }
{
    Who {
        uid: row.uid,
        gid: row.gid,
    }
}

/// Who owns an item.
fn owner_of_item(row: &ItemRow) -> Who
    ensures { result ≡ item_owner row.now }
{
    Who {
        uid: row.uid,
        gid: row.gid,
    }
}

/// Whether the caller is not the owner.
fn is_other(owner: Who, who: Who) -> bool
    ensures { result ≡ words.is_other owner who }
{
    who.uid != owner.uid
}

/// The first refusal of a new region.
fn creation_refusal(rows: &Rows, who: Who, name: &[u8], size: u64, mode: Mode) -> Option<FamError>
    requires { IsLawful rows.now }
    ensures { result ≡ words.refusal rows.now who (request.CreateRegion name.now size mode) }
{
    if !good_name(name) {
        return Some(FamError::BadName);
    }
    if size > MAX_REGION_SIZE {
        return Some(FamError::TooLarge);
    }
    if region_named(rows, name).is_some() {
        return Some(FamError::Exists);
    }
    if rows.regions.len() >= MAX_REGIONS
        || total_size(rows) + size > MAX_TOTAL_SIZE
        || rows.next_region >= NUMBER_END
    {
        return Some(FamError::NoSpace);
    }
    None
}

/// The first refusal of a change of a region that its owner alone may make.
fn region_refusal(rows: &Rows, who: Who, number: RegionId) -> Option<FamError>
    requires { IsLawful rows.now }
    ensures { result ≡ words.refusal rows.now who (request.DestroyRegion number) }
{
    match region(rows, number) {
        None => Some(FamError::Absent),
        Some(row) if is_other(owner_of_region(row), who) => Some(FamError::NoPermission),
        Some(_) => None,
    }
}

/// The first refusal of a change of an item that its owner alone may make.
fn item_refusal(rows: &Rows, who: Who, number: ItemId) -> Option<FamError>
    requires { IsLawful rows.now }
    ensures { result ≡ words.refusal rows.now who (request.Deallocate number) }
{
    match item(rows, number) {
        None => Some(FamError::Absent),
        Some(row) if is_other(owner_of_item(row), who) => Some(FamError::NoPermission),
        Some(_) => None,
    }
}

/// The first refusal of a region's new size.
fn resize_refusal(rows: &Rows, who: Who, number: RegionId, size: u64) -> Option<FamError>
    requires { IsLawful rows.now }
    ensures { result ≡ words.refusal rows.now who (request.ResizeRegion number size) }
{
    if size > MAX_REGION_SIZE {
        return Some(FamError::TooLarge);
    }
    let Some(row) = region(rows, number) else {
        return Some(FamError::Absent);
    };
    if is_other(owner_of_region(row), who) {
        return Some(FamError::NoPermission);
    }
    if cuts_item(rows, row, size) {
        return Some(FamError::InUse);
    }
    if total_size(rows).saturating_sub(row.size) + size > MAX_TOTAL_SIZE {
        return Some(FamError::NoSpace);
    }
    None
}

/// The first refusal of a look-up of a region.
fn region_name_refusal(rows: &Rows, who: Who, name: &[u8]) -> Option<FamError>
    ensures { result ≡ words.refusal rows.now who (request.LookupRegion name.now) }
{
    if !good_name(name) {
        return Some(FamError::BadName);
    }
    match region_named(rows, name) {
        None => Some(FamError::Absent),
        Some(_) => None,
    }
}

/// The first refusal of a look-up of an item.
fn item_name_refusal(rows: &Rows, who: Who, name: &[u8], region: &[u8]) -> Option<FamError>
    ensures { result ≡ words.refusal rows.now who (request.Lookup name.now region.now) }
{
    if !good_name(name) || !good_name(region) {
        return Some(FamError::BadName);
    }
    let Some(row) = region_named(rows, region) else {
        return Some(FamError::Absent);
    };
    match item_named(rows, row.number, name) {
        None => Some(FamError::Absent),
        Some(_) => None,
    }
}

/// The first refusal of a new item.
fn allocation_refusal(
    rows: &Rows,
    who: Who,
    name: &[u8],
    size: u64,
    mode: Mode,
    number: RegionId,
) -> Option<FamError>
    requires { IsLawful rows.now }
    ensures { result ≡ words.refusal rows.now who (request.Allocate name.now size mode number) }
{
    if !good_name(name) {
        return Some(FamError::BadName);
    }
    if size > MAX_REGION_SIZE {
        return Some(FamError::TooLarge);
    }
    let Some(row) = region(rows, number) else {
        return Some(FamError::Absent);
    };
    if item_named(rows, number, name).is_some() {
        return Some(FamError::Exists);
    }
    if !allowed(owner_of_region(row), row.mode, who, Need::Write) {
        return Some(FamError::NoPermission);
    }
    if rows.items.len() >= MAX_ITEMS
        || has_no_gap(rows, row, size)
        || rows.next_item >= NUMBER_END
    {
        return Some(FamError::NoSpace);
    }
    None
}

/// The first refusal of a request that holds; none where the request is served.
pub fn refusal(rows: &Rows, who: Who, request: &Request) -> Option<FamError>
    requires { IsLawful rows.now }
    ensures { result ≡ words.refusal rows.now who request.now }
{
    match request {
        Request::CreateRegion { name, size, mode } => {
            creation_refusal(rows, who, name.as_slice(), *size, *mode)
        }
        Request::DestroyRegion { region } => region_refusal(rows, who, *region),
        Request::ResizeRegion { region, size } => resize_refusal(rows, who, *region, *size),
        Request::SetRegionMode { region, .. } => region_refusal(rows, who, *region),
        Request::LookupRegion { name } => region_name_refusal(rows, who, name.as_slice()),
        Request::StatRegion { region: number } => match region(rows, *number) {
            None => Some(FamError::Absent),
            Some(_) => None,
        },
        Request::Allocate {
            name,
            size,
            mode,
            region,
        } => { allocation_refusal(rows, who, name.as_slice(), *size, *mode, *region) }
        Request::Deallocate { item } => item_refusal(rows, who, *item),
        Request::SetItemMode { item, .. } => item_refusal(rows, who, *item),
        Request::Lookup { name, region } => {
            item_name_refusal(rows, who, name.as_slice(), region.as_slice())
        }
        Request::Stat { item: number } => match item(rows, *number) {
            None => Some(FamError::Absent),
            Some(_) => None,
        },
    }
}
