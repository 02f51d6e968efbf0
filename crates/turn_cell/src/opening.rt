//! A new cell.
ghost use Rattle.std.specs.Prelude.{◌≡◌, ◌≤◌, [], ◌∷◌, Some, MatchResult, IfErr, length};
ghost use Rattle.turn_cell.specs.Turn.{starting};
ghost use Rattle.turn_cell.specs.Words.{IsPassOf, IsNew, limit_of, origin_of, view_of};

use crate::cell::{Cell, Pass};
use crate::object::Object;
use crate::view::{Opening, Slot, Store};
use atomic_table::{Refused, Table};
use fam_base::{NoMemory, Stamp};
use std::alloc::{AllocFailed, Global};
use std::snapshot::Snapshot;

fn object_of<O: Object>(slot: Slot<O>) -> O
    requires { (x : _) × (slot ≡ Some x) }
    ensures { (x : _) → slot ≡ Some x → result ≡ x.object }
{
    let Some(store) = slot else { unreachable!() };
    let Store {
        object,
        entries: _entries,
        stamp: _,
        cut: _,
    } = store;
    object
}

impl<O: Object> Store<O, O::Call, O::Reply> {
    fn new(alloc: Global, object: O) -> Result<Store<O, O::Call, O::Reply>, (O, NoMemory)>
        ensures { MatchResult result (IsNew O.meaning O.held_back object) (λ r. r.0 ≡ object) }
    {
        let mut entries = Vec::new(alloc);
        if entries.reserve(object.reserved() as usize).is_err() {
            return Err((object, NoMemory));
        }
        Ok(Store {
            object,
            entries,
            stamp: Stamp(0),
            cut: 0,
        })
    }
}

fn slots_of<O: Object>(
    alloc: Global,
    store: Store<O, O::Call, O::Reply>,
) -> Result<Vec<Slot<O>, Global>, (O, NoMemory)>
    ensures { MatchResult result (λ v. v.items ≡ Some store ∷ []) (λ r. r.0 ≡ store.object) }
{
    let mut slots = Vec::new(alloc);
    if let Err(failed) = slots.push(Some(store)) {
        let AllocFailed { value } = failed;
        return Err((object_of::<O>(value), NoMemory));
    }
    Ok(slots)
}

impl<O: Object> Cell<O> {
    /// A cell with an empty history, and its first pass.
    pub fn new(alloc: Global, object: O, limit: u64) -> Result<(Cell<O>, Pass<O>), (O, NoMemory)>
        requires reserved { O.held_back (O.meaning object) ≤ limit }
        requires limit { limit ≤ 262144 }
        ensures { MatchResult result (λ r. IsPassOf r.0 r.1 × (limit_of r.0 ≡ limit) × (origin_of r.0 ≡ object) × (view_of r.1 ≡ starting object limit)) (λ r. r.0 ≡ object) }
    {
        let about = Opening {
            limit,
            origin: Snapshot::of(&object),
        };
        let slots = slots_of::<O>(alloc, Store::new(alloc, object)?)?;
        match Table::new(alloc, &[0, 1], slots, &about) {
            Ok((table, seat)) => Ok((
                Cell { table, limit },
                Pass {
                    seat,
                    number: 0,
                    count: 1,
                    first: true,
                    made: 0,
                },
            )),
            Err(Refused { mut slots }) => {
                let slot = slots.pop().unwrap();
                Err((object_of::<O>(slot), NoMemory))
            }
        }
    }
}
