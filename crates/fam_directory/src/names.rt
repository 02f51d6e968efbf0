//! Names in an `indexmap`, each with a number.

ghost use Rattle.std.specs.Prelude.{◌≡◌, ◌<◌, ℕ, List, true, None, Some, OnOk, length, map, slice_get, if◌then◌else◌};
ghost use Rattle.std.specs.Str.{bytes_eq};
ghost use Rattle.fam_directory.specs.Names.{named};

use fam_base::{Bytes, NoMemory};
use indexmap::IndexMap;
use std::alloc::Global;
use std::marker::Model;

/// Names and their numbers.
#[derive(Drop)]
pub(crate) struct Names {
    map: IndexMap<Vec<u8>, u64>,
}

impl Model for Names {
    ghost use Rattle.std.specs.Prelude.{nat_lt};
    ghost use Rattle.indexmap.specs.IndexMap.{spare};
    ghost use Rattle.fam_directory.specs.Names.{NameMap, entries_of};

    ghost Value = { NameMap };

    ghost view = { λ n. record { entries = entries_of n.map.entries; is_ready = nat_lt 0 (spare n.map) } };
}

impl Names {
    /// No names.
    pub(crate) fn new(alloc: Global) -> Names
        ensures { (name : List ℕ) → named name result ≡ None }
    {
        Names {
            map: IndexMap::new(alloc),
        }
    }

    /// The number of a name, if the name is there.
    pub(crate) fn find(&self, name: &[u8]) -> Option<u64>
        ensures { result ≡ named name.now self.now }
    {
        self.map.get(name).copied()
    }

    /// How many names there are.
    pub(crate) fn len(&self) -> usize
        ensures { result ≡ length self.now.entries }
    {
        self.map.len()
    }

    /// The number of one of the names.
    pub(crate) fn number_at(&self, at: usize) -> u64
        requires { at < length self.now.entries }
        ensures { slice_get (map (λ entry. entry.number) self.now.entries) at ≡ Some result }
    {
        match self.map.get_index(at) {
            Some((_, number)) => *number,
            None => 0,
        }
    }

    /// Afterwards one more name takes no memory.
    pub(crate) fn reserve(&mut self) -> Result<(), NoMemory>
        ensures names { (name : List ℕ) → named name self.new ≡ named name self.old }
        ensures ready { OnOk result (self.new.is_ready ≡ true) }
    {
        self.map.reserve(1)?;
        Ok(())
    }

    /// Adds a name that is not there.
    pub(crate) fn add(&mut self, name: Bytes, number: u64)
        requires ready { self.old.is_ready ≡ true }
        requires absent { named name self.old ≡ None }
        ensures { (other : List ℕ) → named other self.new ≡ (if bytes_eq name other then Some number else named other self.old) }
    {
        match self.map.insert(name.into_vec(), number) {
            Ok(_) => {}
            Err(_) => {}
        }
    }

    /// Takes a name out.
    pub(crate) fn remove(&mut self, name: &[u8])
        ensures { (other : List ℕ) → named other self.new ≡ (if bytes_eq name.now other then None else named other self.old) }
    {
        self.map.swap_remove(name);
    }
}
