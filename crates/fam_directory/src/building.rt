//! The directory of given rows, and the rows of a directory.

ghost use Rattle.std.specs.Prelude.{◌≡◌, ◌≢◌, ◌+◌, ◌<◌, ◌≤◌, ℕ, List, [], ◌∷◌, ◌++◌, true, None, Some, IfOk, OnOk, map, All, AllPairs, if◌then◌else◌};
ghost use Rattle.std.specs.Str.{bytes_eq};
ghost use Rattle.std.specs.List.Sorted.{IsStrictlyIncreasing};
ghost use Rattle.fam_model.specs.Limits.{number_end};
ghost use Rattle.fam_model.specs.Lists.{is_some_and};
ghost use Rattle.fam_model.specs.Rows as row_words;
ghost use Rattle.fam_model.specs.Rows.{IsLawful, fits, item_named, item_number, region_of};
ghost use Rattle.fam_directory.specs.Index.{IsIndexOf, number_of, rows_of, without_items};
ghost use Rattle.fam_directory.specs.Names.{named};
ghost use Rattle.fam_directory.specs.Index.{named_in};

use crate::copying::{copy_item, copy_region};
use crate::directory::Directory;
use crate::items::Items;
use crate::names::Names;
use crate::region::Region;
use crate::searching::place_there;
use fam_base::{NoMemory, Sequence};
use fam_model::{ItemRow, RegionRow, Rows};
use std::alloc::Global;

impl Directory {
    /// The directory of these rows.
    pub fn of_rows(alloc: Global, rows: &Rows) -> Result<Directory, NoMemory>
        requires { IsLawful rows.now }
        ensures { IfOk result (λ directory. directory.rows ≡ rows.now) }
    {
        let mut regions = empty_regions(alloc, rows)?;
        let items = add_items(alloc, &mut regions, rows)?;
        let names = names_of(alloc, rows.regions.as_slice())?;
        Ok(Directory {
            alloc,
            regions,
            items,
            next_region: rows.next_region,
            total: total_of(rows),
            names,
            coming: None,
        })
    }

    /// A copy of all rows.
    pub fn rows(&self) -> Result<Rows, NoMemory>
        ensures rows { IfOk result (λ rows. rows ≡ self.now.rows) }
        ensures lawful { IfOk result (λ rows. IsLawful rows) }
    {
        let regions = region_rows(self.alloc, self.regions.as_slice())?;
        let items = self.items.copies(self.alloc)?;
        Ok(Rows {
            regions,
            items,
            next_region: self.next_region,
            next_item: self.items.next(),
        })
    }
}

/// The sizes of all regions together.
fn total_of(rows: &Rows) -> u64
    requires { IsLawful rows.now }
    ensures { result ≡ row_words.total_size rows.now }
{
    rows.regions.as_slice().iter().map(|row| row.size).sum()
}

/// Copies of the rows of regions.
fn region_rows(alloc: Global, regions: &[Region]) -> Result<Sequence<RegionRow>, NoMemory>
    ensures { IfOk result (λ rows. rows ≡ map (λ region. region.row) regions.now) }
{
    let mut rows = Sequence::new(alloc);
    for region in regions {
        rows.push(copy_region(alloc, &region.row)?)?;
    }
    Ok(rows)
}

/// The numbers of regions by their names.
fn names_of(alloc: Global, regions: &[RegionRow]) -> Result<Names, NoMemory>
    requires { AllPairs (λ a b. a.name ≢ b.name) regions.now }
    ensures { IfOk result (λ names. (name : List ℕ) → named name names ≡ named_in name regions.now) }
{
    let mut names = Names::new(alloc);
    for row in regions {
        add_name(alloc, &mut names, row)?;
    }
    Ok(names)
}

/// Adds the name of a region.
fn add_name(alloc: Global, names: &mut Names, row: &RegionRow) -> Result<(), NoMemory>
    requires { named row.now.name names.old ≡ None }
    ensures { OnOk result ((name : List ℕ) → named name names.new ≡ (if bytes_eq row.now.name name then Some row.now.number.0 else named name names.old)) }
{
    let key = Sequence::of(alloc, row.name.as_slice())?;
    names.reserve()?;
    names.add(key, row.number.0);
    Ok(())
}

/// The regions, with no items.
fn empty_regions(alloc: Global, rows: &Rows) -> Result<Vec<Region>, NoMemory>
    requires { IsLawful rows.now }
    ensures rows { IfOk result (λ regions. map (λ region. region.row) regions.items ≡ rows.now.regions) }
    ensures indexes { IfOk result (λ regions. All (IsIndexOf (without_items rows.now)) regions.items) }
{
    let mut regions = Vec::new(alloc);
    for row in rows.regions.as_slice() {
        let copy = copy_region(alloc, row)?;
        regions.push(Region::new(alloc, copy))?;
    }
    Ok(regions)
}

/// Adds all items to the indexes of their regions, and gives copies of their rows.
fn add_items(alloc: Global, regions: &mut Vec<Region>, rows: &Rows) -> Result<Items, NoMemory>
    requires lawful { IsLawful rows.now }
    requires rows { map (λ region. region.row) regions.old.items ≡ rows.now.regions }
    requires indexes { All (IsIndexOf (without_items rows.now)) regions.old.items }
    ensures items { IfOk result (λ items. items.rows ≡ rows.now.items) }
    ensures next { IfOk result (λ items. items.next ≡ rows.now.next_item) }
    ensures rows { OnOk result (map (λ region. region.row) regions.new.items ≡ rows.now.regions) }
    ensures indexes { OnOk result (All (IsIndexOf rows.now) regions.new.items) }
{
    let mut items = Items::new(alloc);
    for item in rows.items.as_slice() {
        add_item(alloc, regions, &mut items, item)?;
    }
    items.pass(rows.next_item);
    Ok(items)
}

/// Adds an item to the index of its region, and a copy of its row to the items.
fn add_item(
    alloc: Global,
    regions: &mut Vec<Region>,
    items: &mut Items,
    item: &ItemRow,
) -> Result<(), NoMemory>
    requires rise { IsStrictlyIncreasing (map number_of regions.old.items) }
    requires indexes { All (IsIndexOf (rows_of regions.old.items items.old.rows 0 0)) regions.old.items }
    requires absent { item_named (rows_of regions.old.items items.old.rows 0 0) item.now.region.0 item.now.name ≡ None }
    requires fits { is_some_and (region_of (rows_of regions.old.items items.old.rows 0 0) item.now.region.0) (λ row. fits (rows_of regions.old.items items.old.rows 0 0) row item.now.size item.now.base) ≡ true }
    requires next { items.old.next ≤ item_number item.now }
    requires bound { item_number item.now < number_end }
    ensures items { OnOk result (items.new.rows ≡ items.old.rows ++ item.now ∷ []) }
    ensures next { OnOk result (items.new.next ≡ item_number item.now + 1) }
    ensures rows { OnOk result (map (λ region. region.row) regions.new.items ≡ map (λ region. region.row) regions.old.items) }
    ensures indexes { OnOk result (All (IsIndexOf (rows_of regions.new.items items.new.rows 0 0)) regions.new.items) }
{
    let key = Sequence::of(alloc, item.name.as_slice())?;
    let copy = copy_item(alloc, item)?;
    let place = place_there(regions.as_slice(), item.region);
    regions[place].insert(key, item.number, item.base, item.size)?;
    items.insert(copy)?;
    Ok(())
}
