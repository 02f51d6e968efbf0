//! All rows, one after another.

ghost use Rattle.std.specs.Prelude.{◌≡◌, [], ◌∷◌, IfNone, IfSome};
ghost use Rattle.std.specs.Iterator.{YieldsFirstRef, item_count};
ghost use Rattle.fam_directory.specs.Slots.{rows_in};

use crate::directory::Directory;
use crate::region::Region;
use crate::slots::Slot;
use fam_model::{ItemRow, RegionRow};
use std::marker::Model;

/// The rows of regions, in order of number.
#[derive(Drop)]
pub struct RegionRows<'a> {
    regions: &'a [Region],
}

impl<'a> Model for RegionRows<'a> {
    ghost use Rattle.std.specs.Prelude.{List, map};
    ghost use Rattle.fam_model.specs.declared.rows.RegionRow.{RegionRow as AnyRow};

    ghost Value = { List AnyRow };

    ghost view = { λ r. map (λ region. region.row) r.regions.now };
}

impl<'a> Iterator for RegionRows<'a> {
    type Item = &'a RegionRow;

    ghost next_gives = { YieldsFirstRef (λ rows. rows) };

    ghost remaining = { item_count (λ rows. rows) };

    fn next(&mut self) -> Option<&'a RegionRow> {
        let (region, others) = self.regions.split_first()?;
        self.regions = others;
        Some(&region.row)
    }
}

/// The rows of items, in order of number.
#[derive(Drop)]
pub struct ItemRows<'a> {
    slots: &'a [Slot],
}

impl<'a> Model for ItemRows<'a> {
    ghost use Rattle.std.specs.Prelude.{List};
    ghost use Rattle.fam_model.specs.declared.rows.ItemRow.{ItemRow as AnyRow};
    ghost use Rattle.fam_directory.specs.Slots.{rows_in};

    ghost Value = { List AnyRow };

    ghost view = { λ r. rows_in r.slots.now };
}

/// The first row in slots, and the slots behind it.
fn first_row<'a>(slots: &'a [Slot]) -> Option<(&'a ItemRow, &'a [Slot])>
    ensures found { IfSome result (λ first. rows_in slots.now ≡ first.0.now ∷ rows_in first.1.now) }
    ensures nothing { IfNone result (rows_in slots.now ≡ []) }
{
    for (at, slot) in slots.iter().enumerate() {
        if let Some(row) = &slot.row {
            return Some((row, &slots[at + 1..]));
        }
    }
    None
}

impl<'a> Iterator for ItemRows<'a> {
    type Item = &'a ItemRow;

    ghost next_gives = { YieldsFirstRef (λ rows. rows) };

    ghost remaining = { item_count (λ rows. rows) };

    fn next(&mut self) -> Option<&'a ItemRow> {
        match first_row(self.slots) {
            Some((row, others)) => {
                self.slots = others;
                Some(row)
            }
            None => None,
        }
    }
}

impl<'a> ItemRows<'a> {
    /// The rows in slots.
    pub(crate) fn new(slots: &'a [Slot]) -> ItemRows<'a>
        ensures { result ≡ rows_in slots.now }
    {
        ItemRows { slots }
    }
}

impl Directory {
    /// The rows of all regions, in order of number.
    pub fn regions(&self) -> RegionRows<'_>
        ensures { result ≡ self.now.rows.regions }
    {
        RegionRows {
            regions: self.regions.as_slice(),
        }
    }

    /// The rows of all items, in order of number.
    pub fn items(&self) -> ItemRows<'_>
        ensures { result ≡ self.now.rows.items }
    {
        self.items.iter()
    }
}
