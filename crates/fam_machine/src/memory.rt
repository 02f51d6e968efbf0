//! The bytes of items, in order of number.

ghost use Rattle.std.specs.Prelude.{◌≡◌, [], ◌+◌, ◌-◌, ◌≤◌, length, map, take, filter, replicate, is_some, IsTrue, IfOk, OnOk, OnErr};
ghost use Rattle.std.specs.Option.{option_copied, option_map};
ghost use Rattle.std.specs.List.Sorted.{IsStrictlyIncreasing};
ghost use Rattle.fam_model.specs.Lists.{drop_number, find_number, place_of};
ghost use Rattle.fam_model.specs.declared.rows.Rows.{Rows};
ghost use Rattle.fam_machine.specs.Sound as sound;
ghost use Rattle.fam_model.specs.PieceStep as steps;
ghost use Rattle.fam_model.specs.Atomic.{bytes_after};
ghost use Rattle.fam_machine.specs.Sound.{is_sound_kind, IsMemoryOf, IsSoundAtomic, zero_bytes};
ghost use Rattle.fam_model.specs.Directory as directory;
ghost use Rattle.fam_model.specs.Lawful.{is_lawful_change};
ghost use Rattle.fam_model.specs.Opened as opening;
ghost use Rattle.fam_model.specs.Rows.{IsLawful, item_of};

use fam_base::{Bytes, ItemId, NoMemory, Sequence};
use fam_directory::IndexedRows;
use fam_model::{Change, Op, PieceKind, PlanPiece, Rows, Width};
use std::alloc::Global;
use std::mem;

/// The bytes of each item that is there.
pub type Memory = Sequence<(ItemId, Bytes)>;

/// Where the bytes of an item stand.
fn place(memory: &Memory, item: ItemId) -> Option<usize>
    requires { IsStrictlyIncreasing (map steps.entry_number memory.now) }
    ensures { result ≡ place_of steps.entry_number item.0 memory.now }
{
    memory
        .as_slice()
        .binary_search_by_key(&item.0, |entry| entry.0.0)
        .ok()
}

/// The bytes of an item.
pub fn bytes_of(memory: &Memory, item: ItemId) -> Option<&Bytes>
    requires { IsStrictlyIncreasing (map steps.entry_number memory.now) }
    ensures { option_copied result ≡ option_map (λ entry. entry.1) (find_number steps.entry_number item.0 memory.now) }
{
    match place(memory, item) {
        Some(at) => Some(&memory.at(at).1),
        None => None,
    }
}

/// The bytes that a piece finds.
pub fn bytes_found<'a>(memory: &'a Memory, piece: &PlanPiece) -> &'a [u8]
    requires rising { IsStrictlyIncreasing (map steps.entry_number memory.now) }
    requires inside { piece.now.offset + piece.now.n ≤ length (steps.item_bytes memory.now piece.now.item.0) }
    ensures { result.now ≡ steps.bytes_found memory.now piece.now }
{
    let bytes = match bytes_of(memory, piece.item) {
        Some(bytes) => bytes.as_slice(),
        None => &[],
    };
    &bytes[piece.offset as usize..(piece.offset + piece.n) as usize]
}

/// Puts bytes into a list from an offset on.
fn overwrite(alloc: Global, bytes: &mut Bytes, offset: usize, new: &[u8])
    requires { offset + length new.now ≤ length bytes.old }
    ensures { bytes.new ≡ steps.overwritten offset new.now bytes.old }
{
    let mut room = mem::replace(bytes, Sequence::new(alloc)).into_vec();
    room[offset..offset + new.len()].copy_from_slice(new);
    *bytes = Sequence::from_vec(room);
}

/// Puts bytes where a piece lies.
pub fn write(alloc: Global, memory: &mut Memory, piece: &PlanPiece, bytes: &[u8])
    requires rising { IsStrictlyIncreasing (map steps.entry_number memory.old) }
    requires inside { piece.now.offset + length bytes.now ≤ length (steps.item_bytes memory.old piece.now.item.0) }
    ensures { memory.new ≡ steps.with_bytes memory.old piece.now bytes.now }
{
    if let Some(at) = place(memory, piece.item) {
        let entry = memory.at_mut(at);
        overwrite(alloc, &mut entry.1, piece.offset as usize, bytes);
    }
}

/// The effect of a piece that is served.
pub fn serve(alloc: Global, memory: &mut Memory, piece: &PlanPiece)
    requires rising { IsStrictlyIncreasing (map steps.entry_number memory.old) }
    requires inside { piece.now.offset + piece.now.n ≤ length (steps.item_bytes memory.old piece.now.item.0) }
    requires kind { IsTrue (is_sound_kind piece.now.kind piece.now.n) }
    requires few { length piece.now.bytes ≤ piece.now.n }
    ensures { memory.new ≡ steps.memory_by_kind piece.now.kind memory.old piece.now }
{
    match piece.kind {
        PieceKind::Read => {}
        PieceKind::Write => write(alloc, memory, piece, piece.bytes.as_slice()),
        PieceKind::Atomic { op, width, a, b } => {
            apply_atomic(alloc, memory, piece, op, width, a, b)
        }
    }
}

/// The effect of an atomic.
fn apply_atomic(
    alloc: Global,
    memory: &mut Memory,
    piece: &PlanPiece,
    op: Op,
    width: Width,
    a: i128,
    b: i128,
)
    requires rising { IsStrictlyIncreasing (map steps.entry_number memory.old) }
    requires inside { piece.now.offset + piece.now.n ≤ length (steps.item_bytes memory.old piece.now.item.0) }
    requires atomic { IsSoundAtomic op width a b piece.now.n }
    ensures { memory.new ≡ steps.with_bytes memory.old piece.now (bytes_after op width a b (steps.bytes_found memory.old piece.now)) }
{
    let mut room = [0u8; 16];
    let into = &mut room[..word_ops::width_bytes(width)];
    let _old = word_ops::apply(op, width, bytes_found(memory, piece), a, b, into);
    write(alloc, memory, piece, into);
}

/// Drops the bytes of items that are not there.
fn drop_gone(alloc: Global, memory: &mut Memory, rows: &IndexedRows)
    ensures { memory.new ≡ filter (λ entry. is_some (item_of rows.now entry.0.0)) memory.old }
{
    let mut entries = mem::replace(memory, Sequence::new(alloc)).into_vec();
    entries.retain(|entry| rows.item(entry.0).is_some());
    *memory = Sequence::from_vec(entries);
}

/// Drops the bytes of an item.
fn drop_entry(alloc: Global, memory: &mut Memory, item: ItemId)
    requires { IsStrictlyIncreasing (map steps.entry_number memory.old) }
    ensures { memory.new ≡ drop_number steps.entry_number item.0 memory.old }
{
    if let Some(at) = place(memory, item) {
        let mut entries = mem::replace(memory, Sequence::new(alloc)).into_vec();
        let _gone = entries.remove(at);
        *memory = Sequence::from_vec(entries);
    }
}

/// The item that a change takes away.
fn taken_item(change: &Change) -> Option<ItemId>
    ensures { result ≡ sound.taken_item change.now }
{
    match change {
        Change::Deallocate { item } => Some(*item),
        _ => None,
    }
}

/// Whether a change takes away all items of a region.
fn takes_region(change: &Change) -> bool
    ensures { result ≡ sound.takes_region change.now }
{
    matches!(change, Change::DestroyRegion { .. })
}

/// Drops the bytes of the items that a change took away. It made none.
fn drop_taken(alloc: Global, memory: &mut Memory, rows: &IndexedRows, change: &Change)
    requires follows { (old : Rows) × IsLawful old × IsMemoryOf old.items memory.old × (rows.now ≡ directory.after old change.now) }
    requires makes_none { directory.new_bytes change.now ≡ [] }
    ensures { memory.new ≡ filter (λ entry. is_some (item_of rows.now entry.0.0)) memory.old }
{
    match taken_item(change) {
        Some(item) => drop_entry(alloc, memory, item),
        None if takes_region(change) => drop_gone(alloc, memory, rows),
        None => {}
    }
}

/// Drops the last entry.
fn drop_last(alloc: Global, memory: &mut Memory)
    ensures { memory.new ≡ take (length memory.old - 1) memory.old }
{
    let mut entries = mem::replace(memory, Sequence::new(alloc)).into_vec();
    entries.truncate(entries.len().saturating_sub(1));
    *memory = Sequence::from_vec(entries);
}

/// The number and the size of the item that a change makes.
fn new_item(change: &Change) -> Option<(ItemId, u64)>
    ensures { directory.new_bytes change.now ≡ zero_bytes result }
{
    match change {
        Change::Allocate { item, size, .. } => Some((*item, *size)),
        _ => None,
    }
}

/// So many zero bytes.
fn zeros(alloc: Global, size: u64) -> Result<Bytes, NoMemory>
    ensures { IfOk result (λ bytes. bytes ≡ replicate size 0) }
{
    Ok(Sequence::from_vec(vec![in alloc; 0u8; size as usize]?))
}

/// Zero bytes for each item.
pub fn zero_memory(alloc: Global, rows: &Rows) -> Result<Memory, NoMemory>
    ensures { IfOk result (λ memory. memory ≡ opening.zero_memory rows.now.items) }
{
    let mut memory = Sequence::new(alloc);
    for row in rows.items.as_slice() {
        memory.push((row.number, zeros(alloc, row.size)?))?;
    }
    Ok(memory)
}

/// Makes a lawful change of the directory and of memory. Where memory is wanting both stay as they are.
pub fn change(
    alloc: Global,
    rows: &mut IndexedRows,
    memory: &mut Memory,
    change: Change,
) -> Result<(), NoMemory>
    requires lawful { IsLawful rows.old }
    requires lawful_change { IsTrue (is_lawful_change rows.old change) }
    requires filled { IsMemoryOf rows.old.items memory.old }
    ensures rows { OnOk result (rows.new ≡ directory.after rows.old change) }
    ensures memory { OnOk result (memory.new ≡ directory.memory_after rows.old change memory.old) }
    ensures rows_stay { OnErr result (rows.new ≡ rows.old) }
    ensures memory_stays { OnErr result (memory.new ≡ memory.old) }
{
    match new_item(&change) {
        Some((item, size)) => {
            memory.push((item, zeros(alloc, size)?))?;
            let result = rows.apply(&change);
            if result.is_err() {
                drop_last(alloc, memory);
            }
            result
        }
        None => {
            rows.apply(&change)?;
            drop_taken(alloc, memory, rows, &change);
            Ok(())
        }
    }
}
