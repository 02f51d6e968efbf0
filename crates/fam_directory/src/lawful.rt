//! Which changes are lawful.

ghost use Rattle.std.specs.Prelude.{◌≡◌};
ghost use Rattle.fam_model.specs.Lawful as words;
ghost use Rattle.fam_model.specs.declared.change.Change.TheVariants as change;

use crate::directory::Directory;
use fam_base::{ItemId, Mode, RegionId, good_name};
use fam_model::Change;
use fam_rows::{MAX_ITEMS, MAX_REGION_SIZE, MAX_REGIONS, MAX_TOTAL_SIZE, NOBODY, NUMBER_END};

/// What a new row may have, whatever the others are.
fn is_good_row(uid: u32, mode: Mode, size: u64, name: &[u8]) -> bool
    ensures { result ≡ words.is_good_row uid mode size name.now }
{
    uid < NOBODY && mode.bits() <= 511 && size <= MAX_REGION_SIZE && good_name(name)
}

/// Whether a number is the next one, and none of those that are never given.
fn is_next_number(number: u64, next: u64) -> bool
    ensures { result ≡ words.is_next_number number next }
{
    number == next && number < NUMBER_END
}

impl Directory {
    /// Whether a region is there and is not the common one.
    fn is_own_region(&self, number: RegionId) -> bool
        ensures { result ≡ words.is_lawful_change self.now.rows (change.DestroyRegion number) }
    {
        number.0 != 0 && self.region(number).is_some()
    }

    /// Whether an item is there and is not the common one.
    fn is_own_item(&self, number: ItemId) -> bool
        ensures { result ≡ words.is_lawful_change self.now.rows (change.Deallocate number) }
    {
        number.0 != 0 && self.item(number).is_some()
    }

    /// Whether a region may have this size.
    fn is_lawful_size(&self, number: RegionId, size: u64) -> bool
        ensures { result ≡ words.is_lawful_change self.now.rows (change.ResizeRegion number size) }
    {
        if number.0 == 0 || size > MAX_REGION_SIZE {
            return false;
        }
        let others = match self.region(number) {
            None => return false,
            Some(row) => self.total_size().saturating_sub(row.size),
        };
        !self.cuts_item(number, size) && size <= MAX_TOTAL_SIZE && others <= MAX_TOTAL_SIZE - size
    }

    /// Whether a change leads from these rows to lawful rows, gives no number twice, and leaves the common rows alone.
    pub fn is_lawful_change(&self, change: &Change) -> bool
        ensures { result ≡ words.is_lawful_change self.now.rows change.now }
    {
        match change {
            Change::CreateRegion {
                region,
                uid,
                mode,
                size,
                name,
                ..
            } => {
                is_next_number(region.0, self.next_region())
                    && is_good_row(*uid, *mode, *size, name.as_slice())
                    && self.region_named(name.as_slice()).is_none()
                    && self.region_count() < MAX_REGIONS
                    && *size <= MAX_TOTAL_SIZE
                    && self.total_size() <= MAX_TOTAL_SIZE - *size
            }
            Change::DestroyRegion { region } => self.is_own_region(*region),
            Change::ResizeRegion { region, size } => self.is_lawful_size(*region, *size),
            Change::Allocate {
                item,
                region,
                base,
                size,
                uid,
                mode,
                name,
                ..
            } => {
                is_next_number(item.0, self.next_item())
                    && is_good_row(*uid, *mode, *size, name.as_slice())
                    && self.item_named(*region, name.as_slice()).is_none()
                    && self.item_count() < MAX_ITEMS
                    && self.fits(*region, *size, *base)
            }
            Change::Deallocate { item } => self.is_own_item(*item),
            Change::SetItemMode { item, mode } => {
                item.0 != 0 && mode.bits() <= 511 && self.is_own_item(*item)
            }
            Change::SetRegionMode { region, mode } => {
                region.0 != 0 && mode.bits() <= 511 && self.is_own_region(*region)
            }
            Change::Skip {
                next_region,
                next_item,
            } => {
                self.next_region() <= *next_region
                    && *next_region <= NUMBER_END
                    && self.next_item() <= *next_item
                    && *next_item <= NUMBER_END
            }
        }
    }
}
