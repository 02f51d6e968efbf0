//! What a pass knows, and the rule of the cell.
use crate::object::Object;
use atomic_table::TableRule;
use fam_base::Stamp;
use std::alloc::Global;
use std::collections::LinkedList;
use std::marker::PhantomData;
use std::snapshot::Snapshot;

#[derive(Drop)]
pub struct Entry<C: Drop, R: Drop> {
    pub stamp: Stamp,
    pub pass: u64,
    pub call: C,
    pub reply: R,
}

/// The object, with the entries since the last cut.
#[derive(Drop)]
pub struct Store<O: Drop, C: Drop, R: Drop> {
    pub object: O,
    pub entries: Vec<Entry<C, R>, Global>,
    pub stamp: Stamp,
    pub cut: u64,
}

/// A pass that was joined to another: its number, the entries that name it, and what it had seen. No value of it is made.
#[derive(Drop)]
pub struct Part<C: Drop, R: Drop> {
    pub number: u64,
    pub entries: LinkedList<Entry<C, R>, Global>,
    pub seen: LinkedList<Entry<C, R>, Global>,
    pub looks: u64,
    pub missed: u64,
}

/// What a seat knows. No value of it is made.
pub struct View<O, C: Drop, R: Drop> {
    /// The history, as far as it was seen.
    pub seen: LinkedList<Entry<C, R>, Global>,
    /// The number that its entries name now, and these.
    pub number: u64,
    pub mine: LinkedList<Entry<C, R>, Global>,
    /// The passes that were joined to it.
    pub past: LinkedList<Part<C, R>, Global>,
    /// The numbers and the owners that are its own.
    pub numbers: LinkedList<u64, Global>,
    pub owners: LinkedList<u32, Global>,
    pub looks: u64,
    pub missed: u64,
    pub holds: bool,
    /// It was not joined to another.
    pub live: bool,
    /// It has no number yet.
    pub fresh: bool,
    /// It is the first, which made so many others and gave them these owners.
    pub leads: bool,
    pub made: u64,
    pub given: LinkedList<u32, Global>,
    /// The length of the history at the last cut, and the object then, where it is the first or holds.
    pub cut: u64,
    pub base: Option<O>,
    /// How many entries there may be between two cuts, and the object that the cell was made with.
    pub limit: u64,
    pub origin: Option<O>,
}

pub type Slot<O> = Option<Store<O, <O as Object>::Call, <O as Object>::Reply>>;

pub type ViewOf<O> = View<O, <O as Object>::Call, <O as Object>::Reply>;

pub struct Turn<O> {
    object: PhantomData<O>,
}

/// What the table is told when it is made.
#[derive(Drop)]
pub struct Opening<O: Drop> {
    pub limit: u64,
    pub origin: Snapshot<O>,
}

impl<O: Object> TableRule<
    Option<Store<O, O::Call, O::Reply>>,
    View<O, O::Call, O::Reply>,
    Opening<O>,
> for Turn<O> {
    ghost use Rattle.turn_cell.specs.Turn.{Turned, starting};

    ghost holds = { λ key. Turned O.meaning O.gives O.held_back O.owner key.limit key.origin.value };

    ghost first = { λ key. starting key.origin.value key.limit };
}
