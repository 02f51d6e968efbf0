//! Rows by their numbers and names.

ghost use Rattle.std.specs.Prelude.{◌≡◌, ◌<◌, IfSome, length};
ghost use Rattle.std.specs.Option.{option_copied};
ghost use Rattle.fam_model.specs.Lists.{place_of};
ghost use Rattle.fam_model.specs.Rows as words;
ghost use Rattle.fam_model.specs.Rows.{IsLawful, region_number, item_number};

use fam_base::{ItemId, RegionId};
use fam_model::{ItemRow, RegionRow, Rows};

/// The place of the region of that number.
pub(crate) fn place_of_region(rows: &Rows, number: RegionId) -> Option<usize>
    requires { IsLawful rows.now }
    ensures place { result ≡ place_of region_number number.0 rows.now.regions }
    ensures within { IfSome result (λ k. k < length rows.now.regions) }
{
    let regions = rows.regions.as_slice();
    regions
        .binary_search_by_key(&number.0, |row| row.number.0)
        .ok()
}

/// The place of the item of that number.
pub(crate) fn place_of_item(rows: &Rows, number: ItemId) -> Option<usize>
    requires { IsLawful rows.now }
    ensures place { result ≡ place_of item_number number.0 rows.now.items }
    ensures within { IfSome result (λ k. k < length rows.now.items) }
{
    let items = rows.items.as_slice();
    items
        .binary_search_by_key(&number.0, |row| row.number.0)
        .ok()
}

/// The region of that number.
pub fn region(rows: &Rows, number: RegionId) -> Option<&RegionRow>
    requires { IsLawful rows.now }
    ensures { option_copied result ≡ words.region_of rows.now number.0 }
{
    match place_of_region(rows, number) {
        Some(place) => rows.regions.get(place),
        None => None,
    }
}

/// The item of that number.
pub fn item(rows: &Rows, number: ItemId) -> Option<&ItemRow>
    requires { IsLawful rows.now }
    ensures { option_copied result ≡ words.item_of rows.now number.0 }
{
    match place_of_item(rows, number) {
        Some(place) => rows.items.get(place),
        None => None,
    }
}

/// The region of that name.
pub fn region_named<'a>(rows: &'a Rows, name: &[u8]) -> Option<&'a RegionRow>
    ensures { option_copied result ≡ words.region_named rows.now name.now }
{
    let mut regions = rows.regions.as_slice().iter();
    regions.find(|row| row.name.as_slice() == name)
}

/// The item of that name in a region.
pub fn item_named<'a>(rows: &'a Rows, region: RegionId, name: &[u8]) -> Option<&'a ItemRow>
    ensures { option_copied result ≡ words.item_named rows.now region.0 name.now }
{
    let items = rows.items.as_slice().iter();
    items
        .filter(|row| row.region.0 == region.0)
        .find(|row| row.name.as_slice() == name)
}
