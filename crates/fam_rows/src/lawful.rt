//! Which changes are lawful, as a journal may hold them.

ghost use Rattle.std.specs.Prelude.{◌≡◌};
ghost use Rattle.fam_model.specs.Lawful as words;
ghost use Rattle.fam_model.specs.Rows.{IsLawful};
ghost use Rattle.fam_rows.specs.Located.{may_place};
ghost use Rattle.fam_model.specs.declared.change.Change.TheVariants as change;

use crate::limits::{MAX_ITEMS, MAX_REGION_SIZE, MAX_REGIONS, MAX_TOTAL_SIZE, NOBODY, NUMBER_END};
use crate::refusing::{cuts_item, total_size};
use crate::room::fits;
use crate::search::{item, item_named, region, region_named};
use fam_base::{ItemId, Mode, RegionId, good_name};
use fam_model::{Change, Rows};

/// What a new row may have, whatever the others are.
fn is_good_row(uid: u32, mode: Mode, size: u64, name: &[u8]) -> bool
    ensures { result ≡ words.is_good_row uid mode size name.now }
{
    uid < NOBODY && mode.bits() <= 511 && size <= MAX_REGION_SIZE && good_name(name)
}

/// Whether a number is the next one, and none of those that are never given.
fn is_next_number(number: u64, next: u64) -> bool
    ensures { result ≡ words.is_next_number number next }
{
    number == next && number < NUMBER_END
}

/// Whether a region is there and is not the common one.
fn is_own_region(rows: &Rows, number: RegionId) -> bool
    requires { IsLawful rows.now }
    ensures { result ≡ words.is_lawful_change rows.now (change.DestroyRegion number) }
{
    number.0 != 0 && region(rows, number).is_some()
}

/// Whether an item is there and is not the common one.
fn is_own_item(rows: &Rows, number: ItemId) -> bool
    requires { IsLawful rows.now }
    ensures { result ≡ words.is_lawful_change rows.now (change.Deallocate number) }
{
    number.0 != 0 && item(rows, number).is_some()
}

/// Whether a region may have this size.
fn is_lawful_size(rows: &Rows, number: RegionId, size: u64) -> bool
    requires { IsLawful rows.now }
    ensures { result ≡ words.is_lawful_change rows.now (change.ResizeRegion number size) }
{
    if number.0 == 0 || size > MAX_REGION_SIZE {
        return false;
    }
    match region(rows, number) {
        None => false,
        Some(row) => {
            !cuts_item(rows, row, size)
                && total_size(rows).saturating_sub(row.size) + size <= MAX_TOTAL_SIZE
        }
    }
}

/// Whether a new item of `n` bytes may lie at `base` of a region.
fn is_free_place(rows: &Rows, number: RegionId, n: u64, base: u64) -> bool
    requires { IsLawful rows.now }
    ensures { result ≡ may_place rows.now number.0 n base }
{
    match region(rows, number) {
        None => false,
        Some(row) => fits(rows, row, n, base),
    }
}

/// Whether a change leads from lawful rows to lawful rows, gives no number twice, and leaves the common rows alone.
pub fn is_lawful_change(rows: &Rows, change: &Change) -> bool
    requires { IsLawful rows.now }
    ensures { result ≡ words.is_lawful_change rows.now change.now }
{
    match change {
        Change::CreateRegion {
            region,
            uid,
            mode,
            size,
            name,
            ..
        } => {
            is_next_number(region.0, rows.next_region)
                && is_good_row(*uid, *mode, *size, name.as_slice())
                && region_named(rows, name.as_slice()).is_none()
                && rows.regions.len() < MAX_REGIONS
                && total_size(rows) + *size <= MAX_TOTAL_SIZE
        }
        Change::DestroyRegion { region } => is_own_region(rows, *region),
        Change::ResizeRegion { region, size } => is_lawful_size(rows, *region, *size),
        Change::Allocate {
            item,
            region,
            base,
            size,
            uid,
            mode,
            name,
            ..
        } => {
            is_next_number(item.0, rows.next_item)
                && is_good_row(*uid, *mode, *size, name.as_slice())
                && item_named(rows, *region, name.as_slice()).is_none()
                && rows.items.len() < MAX_ITEMS
                && is_free_place(rows, *region, *size, *base)
        }
        Change::Deallocate { item } => is_own_item(rows, *item),
        Change::SetItemMode { item, mode } => {
            item.0 != 0 && mode.bits() <= 511 && is_own_item(rows, *item)
        }
        Change::SetRegionMode { region, mode } => {
            region.0 != 0 && mode.bits() <= 511 && is_own_region(rows, *region)
        }
        Change::Skip {
            next_region,
            next_item,
        } => {
            rows.next_region <= *next_region
                && *next_region <= NUMBER_END
                && rows.next_item <= *next_item
                && *next_item <= NUMBER_END
        }
    }
}
