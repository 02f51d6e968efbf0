//! Rows in slots, in order of number. A row that goes leaves its slot empty.

ghost use Rattle.std.specs.Prelude.{◌≡◌, ℕ, ◌<◌, ◌++◌, All, IfSome, IfOk, OnOk, length};
ghost use Rattle.std.specs.Option.{option_copied, option_map, option_to_list};
ghost use Rattle.fam_model.specs.Lists.{change_number, drop_number, find_number, place_of};
ghost use Rattle.fam_model.specs.Rows.{item_number};
ghost use Rattle.fam_directory.specs.Slots.{AreNumbered, IsBelow, rows_in, slot_number, with_mode};

use crate::copying::copy_item;
use fam_base::{Mode, NoMemory, Sequence};
use fam_model::ItemRow;
use std::alloc::Global;

/// A row under its number, or the place that it left.
#[derive(Drop)]
pub(crate) struct Slot {
    pub(crate) number: u64,
    pub(crate) row: Option<ItemRow>,
}

/// The place of the slot of a number.
fn place_of_slot(slots: &[Slot], number: u64) -> Option<usize>
    requires { AreNumbered slots.now }
    ensures place { result ≡ place_of slot_number number slots.now }
    ensures within { IfSome result (λ k. k < length slots.now) }
{
    slots.binary_search_by_key(&number, |slot| slot.number).ok()
}

/// The row of a number.
pub(crate) fn row_at(slots: &[Slot], number: u64) -> Option<&ItemRow>
    requires { AreNumbered slots.now }
    ensures { option_copied result ≡ find_number item_number number (rows_in slots.now) }
{
    match place_of_slot(slots, number) {
        Some(place) => slots[place].row.as_ref(),
        None => None,
    }
}

/// Takes the row of a number out of its slot.
pub(crate) fn empty_slot(slots: &mut Vec<Slot>, number: u64) -> Option<ItemRow>
    requires { AreNumbered slots.old.items }
    ensures row { result ≡ find_number item_number number (rows_in slots.old.items) }
    ensures rows { rows_in slots.new.items ≡ drop_number item_number number (rows_in slots.old.items) }
    ensures numbered { AreNumbered slots.new.items }
    ensures below { (next : ℕ) → All (IsBelow next) slots.old.items → All (IsBelow next) slots.new.items }
{
    match place_of_slot(slots.as_slice(), number) {
        Some(place) => slots[place].row.take(),
        None => None,
    }
}

/// Gives the row of a slot another mode.
fn set_row_mode(row: &mut Option<ItemRow>, mode: Mode)
    ensures { row.new ≡ option_map (with_mode mode) row.old }
{
    if let Some(row) = row {
        row.mode = mode;
    }
}

/// Gives the row of a number another mode.
pub(crate) fn set_mode_at(slots: &mut Vec<Slot>, number: u64, mode: Mode)
    requires { AreNumbered slots.old.items }
    ensures rows { rows_in slots.new.items ≡ change_number item_number number (with_mode mode) (rows_in slots.old.items) }
    ensures numbered { AreNumbered slots.new.items }
    ensures below { (next : ℕ) → All (IsBelow next) slots.old.items → All (IsBelow next) slots.new.items }
{
    match place_of_slot(slots.as_slice(), number) {
        Some(place) => set_row_mode(&mut slots[place].row, mode),
        None => {}
    }
}

/// Takes the empty slots out, once they are more than the rows. So a walk over the slots costs no more than twice the rows that went
/// since the last one.
pub(crate) fn close_slots(slots: &mut Vec<Slot>, count: usize)
    requires { AreNumbered slots.old.items }
    ensures rows { rows_in slots.new.items ≡ rows_in slots.old.items }
    ensures numbered { AreNumbered slots.new.items }
    ensures below { (next : ℕ) → All (IsBelow next) slots.old.items → All (IsBelow next) slots.new.items }
{
    if slots.len() / 2 > count {
        slots.retain(|slot| slot.row.is_some());
    }
}

/// Copies of the rows.
pub(crate) fn row_copies(alloc: Global, slots: &[Slot]) -> Result<Sequence<ItemRow>, NoMemory>
    ensures { IfOk result (λ rows. rows ≡ rows_in slots.now) }
{
    let mut rows = Sequence::new(alloc);
    for slot in slots {
        push_copy(alloc, &mut rows, slot)?;
    }
    Ok(rows)
}

/// Puts a copy of the row of a slot at the end, if there is one.
fn push_copy(alloc: Global, rows: &mut Sequence<ItemRow>, slot: &Slot) -> Result<(), NoMemory>
    ensures { OnOk result (rows.new ≡ rows.old ++ option_to_list slot.now.row) }
{
    match &slot.row {
        None => Ok(()),
        Some(row) => {
            rows.push(copy_item(alloc, row)?)?;
            Ok(())
        }
    }
}
