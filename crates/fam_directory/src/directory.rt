//! The directory.

ghost use Rattle.std.specs.Prelude.{◌≡◌, length};
ghost use Rattle.std.specs.Option.{option_copied, option_map};
ghost use Rattle.fam_model.specs.Directory as words;
ghost use Rattle.fam_model.specs.Lists.{is_some_and};
ghost use Rattle.fam_model.specs.Rows as row_words;
ghost use Rattle.fam_model.specs.Rows.{IsLawful};
ghost use Rattle.fam_directory.specs.Answers.{least_in};
ghost use Rattle.fam_directory.specs.Index.{IsEntry};

use crate::items::Items;
use crate::names::Names;
use crate::region::{Coming, Region};
use crate::searching::place_of_region;
use fam_base::{ItemId, RegionId};
use fam_model::{ItemRow, RegionRow};
use std::alloc::Global;
use std::marker::Model;

/// The rows of the directory. Contracts see them as plain rows, with the name for which memory is held.
#[derive(Drop)]
pub struct Directory {
    pub(crate) alloc: Global,
    pub(crate) regions: Vec<Region>,
    pub(crate) items: Items,
    pub(crate) next_region: u64,
    pub(crate) total: u64,
    pub(crate) names: Names,
    pub(crate) coming: Option<Coming>,
}

impl Model for Directory {
    ghost use Rattle.std.specs.Option.{option_map};
    ghost use Rattle.fam_directory.specs.Index.{IsAwaited, IsIndexed, Listing, new_name, rows_of};

    ghost Value = { Listing };

    ghost view = { λ d. record { rows = rows_of d.regions.items d.items.rows d.next_region d.items.next; coming = option_map new_name d.coming } };

    ghost invariant = { λ d. record { indexed : IsIndexed (rows_of d.regions.items d.items.rows d.next_region d.items.next) d.regions.items d.names d.total; awaited : IsAwaited d.regions d.items d.names d.coming } };
}

impl Directory {
    /// Where memory is taken.
    pub(crate) fn alloc(&self) -> Global {
        self.alloc
    }

    /// The rows are lawful.
    pub fn rows_are_lawful(&self)
        ensures { IsLawful self.now.rows }
    {
        let _items = &self.items;
    }

    /// A region with its index.
    fn entry(&self, number: RegionId) -> Option<&Region>
        ensures entry { IsEntry self.now.rows number.0 (option_copied result) }
        ensures lawful { IsLawful self.now.rows }
    {
        match place_of_region(self.regions.as_slice(), number) {
            Some(place) => Some(&self.regions[place]),
            None => None,
        }
    }

    /// The row of a region.
    pub fn region(&self, number: RegionId) -> Option<&RegionRow>
        ensures { option_copied result ≡ row_words.region_of self.now.rows number.0 }
    {
        match self.entry(number) {
            Some(region) => Some(&region.row),
            None => None,
        }
    }

    /// The row of an item.
    pub fn item(&self, number: ItemId) -> Option<&ItemRow>
        ensures { option_copied result ≡ row_words.item_of self.now.rows number.0 }
    {
        self.items.find(number)
    }

    /// The number of the region of a name.
    fn number_named(&self, name: &[u8]) -> Option<u64>
        ensures number { result ≡ option_map row_words.region_number (row_words.region_named self.now.rows name.now) }
        ensures lawful { IsLawful self.now.rows }
    {
        self.names.find(name)
    }

    /// The number of the item of a name in a region.
    fn item_number_named(&self, region: RegionId, name: &[u8]) -> Option<u64>
        ensures number { result ≡ option_map row_words.item_number (row_words.item_named self.now.rows region.0 name.now) }
        ensures lawful { IsLawful self.now.rows }
    {
        match self.entry(region) {
            Some(region) => region.items.find(name),
            None => None,
        }
    }

    /// The row of the region of a name.
    pub fn region_named(&self, name: &[u8]) -> Option<&RegionRow>
        ensures { option_copied result ≡ row_words.region_named self.now.rows name.now }
    {
        match self.number_named(name) {
            Some(number) => self.region(RegionId(number)),
            None => None,
        }
    }

    /// The row of the item of a name in a region.
    pub fn item_named(&self, region: RegionId, name: &[u8]) -> Option<&ItemRow>
        ensures { option_copied result ≡ row_words.item_named self.now.rows region.0 name.now }
    {
        match self.item_number_named(region, name) {
            Some(number) => self.item(ItemId(number)),
            None => None,
        }
    }

    /// The least base at which a new item of `n` bytes fits in a region.
    pub fn least_base(&self, region: RegionId, n: u64) -> Option<u64>
        ensures { result ≡ least_in self.now.rows region.0 n }
    {
        match self.entry(region) {
            Some(region) => region.room.least_base(n),
            None => None,
        }
    }

    /// Whether `n` bytes fit nowhere in a region that is there.
    pub fn has_no_gap(&self, region: RegionId, n: u64) -> bool
        ensures { result ≡ is_some_and (row_words.region_of self.now.rows region.0) (λ row. row_words.no_gap self.now.rows row n) }
    {
        match self.entry(region) {
            Some(region) => region.room.least_base(n).is_none(),
            None => false,
        }
    }

    /// Whether `n` bytes may lie at a base of a region that is there.
    pub fn fits(&self, region: RegionId, n: u64, base: u64) -> bool
        ensures { result ≡ is_some_and (row_words.region_of self.now.rows region.0) (λ row. row_words.fits self.now.rows row n base) }
    {
        match self.entry(region) {
            Some(region) => region.room.fits(n, base),
            None => false,
        }
    }

    /// Whether some item of a region has room past a size.
    pub fn cuts_item(&self, region: RegionId, size: u64) -> bool
        ensures { result ≡ is_some_and (row_words.region_of self.now.rows region.0) (λ row. words.cuts_item self.now.rows row size) }
    {
        match self.entry(region) {
            Some(region) => region.room.ends_past(size),
            None => false,
        }
    }

    /// How many regions there are.
    pub fn region_count(&self) -> usize
        ensures { result ≡ length self.now.rows.regions }
    {
        self.regions.len()
    }

    /// How many items there are.
    pub fn item_count(&self) -> usize
        ensures { result ≡ length self.now.rows.items }
    {
        self.items.len()
    }

    /// The number of the next region.
    pub fn next_region(&self) -> u64
        ensures { result ≡ self.now.rows.next_region }
    {
        self.next_region
    }

    /// The number of the next item.
    pub fn next_item(&self) -> u64
        ensures { result ≡ self.now.rows.next_item }
    {
        self.items.next()
    }

    /// The sizes of all regions together.
    pub fn total_size(&self) -> u64
        ensures { result ≡ row_words.total_size self.now.rows }
    {
        self.total
    }
}
