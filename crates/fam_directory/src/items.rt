//! The rows of items.

ghost use Rattle.std.specs.Prelude.{◌≡◌, ◌==◌, ◌+◌, ◌<◌, ◌≤◌, ◌++◌, [], ◌∷◌, true, length, not, filter, map, AllPairs, IfOk, OnOk};
ghost use Rattle.std.specs.Option.{option_copied};
ghost use Rattle.fam_model.specs.Limits.{number_end};
ghost use Rattle.fam_model.specs.Lists.{change_number, drop_number, find_number, is_some_and};
ghost use Rattle.fam_model.specs.Rows.{item_number};
ghost use Rattle.fam_directory.specs.Slots.{is_item_of, with_mode, without_numbers};

use crate::listing::ItemRows;
use crate::names::Names;
use crate::slots::{Slot, close_slots, empty_slot, row_at, row_copies, set_mode_at};
use fam_base::{ItemId, Mode, NoMemory, RegionId, Sequence};
use fam_model::ItemRow;
use std::alloc::Global;
use std::marker::Model;

/// Rows in order of number. A new one has the number `next` or a later one.
#[derive(Drop)]
pub(crate) struct Items {
    slots: Vec<Slot>,
    count: usize,
    next: u64,
}

impl Model for Items {
    ghost use Rattle.std.specs.Prelude.{nat_lt};
    ghost use Rattle.std.specs.Vec.{vec_len, vec_capacity};
    ghost use Rattle.fam_directory.specs.Slots.{AreSlots, ItemList, rows_in};

    ghost Value = { ItemList };

    ghost view = { λ i. record { rows = rows_in i.slots.items; next = i.next; is_ready = nat_lt (vec_len i.slots) (vec_capacity i.slots) } };

    ghost invariant = { λ i. AreSlots i.slots.items i.count i.next };
}

impl Items {
    /// No rows.
    pub(crate) fn new(alloc: Global) -> Items
        ensures rows { result.rows ≡ [] }
        ensures next { result.next ≡ 0 }
    {
        Items {
            slots: Vec::new(alloc),
            count: 0,
            next: 0,
        }
    }

    /// How many rows there are.
    pub(crate) fn len(&self) -> usize
        ensures { result ≡ length self.now.rows }
    {
        self.count
    }

    /// The number of the next row.
    pub(crate) fn next(&self) -> u64
        ensures { result ≡ self.now.next }
    {
        self.next
    }

    /// The row of a number.
    pub(crate) fn find(&self, number: ItemId) -> Option<&ItemRow>
        ensures { option_copied result ≡ find_number item_number number.0 self.now.rows }
    {
        row_at(self.slots.as_slice(), number.0)
    }

    /// All rows, one after another.
    pub(crate) fn iter(&self) -> ItemRows<'_>
        ensures { result ≡ self.now.rows }
    {
        ItemRows::new(self.slots.as_slice())
    }

    /// Copies of all rows.
    pub(crate) fn copies(&self, alloc: Global) -> Result<Sequence<ItemRow>, NoMemory>
        ensures { IfOk result (λ rows. rows ≡ self.now.rows) }
    {
        row_copies(alloc, self.slots.as_slice())
    }

    /// Afterwards one more row takes no memory.
    pub(crate) fn reserve(&mut self) -> Result<(), NoMemory>
        ensures rows { self.new.rows ≡ self.old.rows }
        ensures next { self.new.next ≡ self.old.next }
        ensures ready { OnOk result (self.new.is_ready ≡ true) }
    {
        self.slots.reserve(1)?;
        Ok(())
    }

    /// Adds a row.
    pub(crate) fn push(&mut self, row: ItemRow)
        requires ready { self.old.is_ready ≡ true }
        requires next { self.old.next ≤ item_number row }
        requires bound { item_number row < number_end }
        ensures rows { self.new.rows ≡ self.old.rows ++ row ∷ [] }
        ensures next { self.new.next ≡ item_number row + 1 }
    {
        let number = row.number.0;
        let slot = Slot {
            number,
            row: Some(row),
        };
        match self.slots.push(slot) {
            Ok(()) => {}
            Err(_) => {}
        }
        self.count += 1;
        self.next = number + 1;
    }

    /// Takes memory, and then adds a row.
    pub(crate) fn insert(&mut self, row: ItemRow) -> Result<(), NoMemory>
        requires next { self.old.next ≤ item_number row }
        requires bound { item_number row < number_end }
        ensures rows { OnOk result (self.new.rows ≡ self.old.rows ++ row ∷ []) }
        ensures next { OnOk result (self.new.next ≡ item_number row + 1) }
    {
        self.reserve()?;
        self.push(row);
        Ok(())
    }

    /// Passes over numbers.
    pub(crate) fn pass(&mut self, next: u64)
        requires { self.old.next ≤ next }
        ensures rows { self.new.rows ≡ self.old.rows }
        ensures next { self.new.next ≡ next }
    {
        self.next = next;
    }

    /// Takes the row of a number out, if there is one.
    pub(crate) fn remove(&mut self, number: ItemId) -> Option<ItemRow>
        ensures row { result ≡ find_number item_number number.0 self.old.rows }
        ensures rows { self.new.rows ≡ drop_number item_number number.0 self.old.rows }
        ensures next { self.new.next ≡ self.old.next }
    {
        let row = empty_slot(&mut self.slots, number.0);
        self.count -= usize::from(row.is_some());
        close_slots(&mut self.slots, self.count);
        row
    }

    /// Gives the row of a number another mode.
    pub(crate) fn set_mode(&mut self, number: ItemId, mode: Mode)
        ensures rows { self.new.rows ≡ change_number item_number number.0 (with_mode mode) self.old.rows }
        ensures next { self.new.next ≡ self.old.next }
    {
        set_mode_at(&mut self.slots, number.0, mode);
    }

    /// Whether the row of a number is an item of a region.
    fn is_in(&self, number: u64, region: RegionId) -> bool
        ensures there { result ≡ is_some_and (find_number item_number number self.now.rows) (λ item. item.region.0 == region.0) }
        ensures rise { AllPairs (λ a b. item_number a < item_number b) self.now.rows }
    {
        match row_at(self.slots.as_slice(), number) {
            Some(row) => row.region.0 == region.0,
            None => false,
        }
    }

    /// Takes the row of a number out, if it is an item of a region.
    fn remove_from(&mut self, number: u64, region: RegionId)
        ensures rows { self.new.rows ≡ filter (λ item. not (is_item_of region.0 number item)) self.old.rows }
        ensures next { self.new.next ≡ self.old.next }
    {
        if self.is_in(number, region) {
            self.remove(ItemId(number));
        }
    }

    /// Takes the items of a region out that have the numbers of some names.
    pub(crate) fn remove_named(&mut self, names: &Names, region: RegionId)
        ensures rows { self.new.rows ≡ without_numbers region.0 (map (λ entry. entry.number) names.now.entries) self.old.rows }
        ensures next { self.new.next ≡ self.old.next }
    {
        for at in 0..names.len() {
            let number = names.number_at(at);
            self.remove_from(number, region);
        }
    }
}
