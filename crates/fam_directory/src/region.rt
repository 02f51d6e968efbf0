//! A region with its index.

ghost use Rattle.std.specs.Prelude.{◌≡◌, ℕ, List, [], true, false, None, Some, OnOk, IfOk, is_some, if◌then◌else◌, ◌≤◌};
ghost use Rattle.std.specs.Str.{bytes_eq};
ghost use Rattle.fam_model.specs.Limits.{max_region_size};
ghost use Rattle.fam_directory.specs.Names.{named};
ghost use Rattle.region_alloc.specs.declared.extent.Extent.{Extent as Room};
ghost use Rattle.region_alloc.specs.Gaps.{Holds, space_with};
ghost use Rattle.region_alloc.specs.Space.{has_place, has_room, is_cut_at, with_room, without_room};

use crate::names::Names;
use fam_base::{Bytes, ItemId, NoMemory, RegionId, Sequence};
use fam_model::RegionRow;
use region_alloc::Extents;
use std::alloc::Global;

/// A region's row, the numbers of its items by their names, and their room.
#[derive(Drop)]
pub(crate) struct Region {
    pub(crate) row: RegionRow,
    pub(crate) items: Names,
    pub(crate) room: Extents,
}

/// The name of a new row: that of an item in a region, or else of a region. One copy goes into the row, and one into the index.
#[derive(Drop)]
pub(crate) struct Coming {
    pub(crate) region: Option<RegionId>,
    pub(crate) name: Bytes,
    pub(crate) key: Bytes,
}

impl Coming {
    /// Copies a name.
    pub(crate) fn new(
        alloc: Global,
        region: Option<RegionId>,
        name: &[u8],
    ) -> Result<Coming, NoMemory>
        ensures region { IfOk result (λ coming. coming.region ≡ region) }
        ensures name { IfOk result (λ coming. coming.name ≡ name.now) }
        ensures key { IfOk result (λ coming. coming.key ≡ name.now) }
    {
        let row = Sequence::of(alloc, name)?;
        let key = Sequence::of(alloc, name)?;
        Ok(Coming {
            region,
            name: row,
            key,
        })
    }
}

/// Takes what is held for a new row.
pub(crate) fn take_coming(alloc: Global, coming: &mut Option<Coming>) -> Coming
    requires { is_some coming.old ≡ true }
    ensures { coming.old ≡ Some result }
{
    match coming.take() {
        Some(held) => held,
        None => Coming {
            region: None,
            name: Sequence::new(alloc),
            key: Sequence::new(alloc),
        },
    }
}

impl Region {
    /// A region with no items.
    pub(crate) fn new(alloc: Global, row: RegionRow) -> Region
        requires { row.size ≤ max_region_size }
        ensures row { result.row ≡ row }
        ensures names { (name : List ℕ) → named name result.items ≡ None }
        ensures size { result.room.size ≡ row.size }
        ensures rooms { Holds result.room [] }
    {
        let room = Extents::new(alloc, row.size);
        Region {
            row,
            items: Names::new(alloc),
            room,
        }
    }

    /// Afterwards one more item takes no memory.
    pub(crate) fn reserve(&mut self) -> Result<(), NoMemory>
        ensures row { self.new.row ≡ self.old.row }
        ensures names { (name : List ℕ) → named name self.new.items ≡ named name self.old.items }
        ensures size { self.new.room.size ≡ self.old.room.size }
        ensures rooms { (rooms : List Room) → Holds self.old.room rooms → Holds self.new.room rooms }
        ensures named { OnOk result (self.new.items.is_ready ≡ true) }
        ensures placed { OnOk result (self.new.room.is_ready ≡ true) }
    {
        self.items.reserve()?;
        self.room.reserve()?;
        Ok(())
    }

    /// Adds an item at a base.
    pub(crate) fn add(&mut self, key: Bytes, number: ItemId, base: u64, size: u64)
        requires named { self.old.items.is_ready ≡ true }
        requires placed { self.old.room.is_ready ≡ true }
        requires absent { named key self.old.items ≡ None }
        requires fits { (rooms : List Room) × Holds self.old.room rooms × (has_place (space_with self.old.room rooms) size base ≡ true) }
        ensures row { self.new.row ≡ self.old.row }
        ensures names { (name : List ℕ) → named name self.new.items ≡ (if bytes_eq key name then Some number.0 else named name self.old.items) }
        ensures size { self.new.room.size ≡ self.old.room.size }
        ensures rooms { (rooms : List Room) → Holds self.old.room rooms → has_place (space_with self.old.room rooms) size base ≡ true → Holds self.new.room (with_room base size rooms) }
    {
        self.items.add(key, number.0);
        self.room.take(base, size);
    }

    /// Takes memory, and then adds an item at a base.
    pub(crate) fn insert(
        &mut self,
        key: Bytes,
        number: ItemId,
        base: u64,
        size: u64,
    ) -> Result<(), NoMemory>
        requires absent { named key self.old.items ≡ None }
        requires fits { (rooms : List Room) × Holds self.old.room rooms × (has_place (space_with self.old.room rooms) size base ≡ true) }
        ensures row { OnOk result (self.new.row ≡ self.old.row) }
        ensures names { OnOk result ((name : List ℕ) → named name self.new.items ≡ (if bytes_eq key name then Some number.0 else named name self.old.items)) }
        ensures size { OnOk result (self.new.room.size ≡ self.old.room.size) }
        ensures rooms { (rooms : List Room) → Holds self.old.room rooms → has_place (space_with self.old.room rooms) size base ≡ true → OnOk result (Holds self.new.room (with_room base size rooms)) }
    {
        self.reserve()?;
        self.add(key, number, base, size);
        Ok(())
    }

    /// Takes the item of a name out, which lies at a base and has so many bytes.
    pub(crate) fn remove(&mut self, name: &[u8], base: u64, size: u64)
        requires { (rooms : List Room) × Holds self.old.room rooms × (has_room base size rooms ≡ true) }
        ensures row { self.new.row ≡ self.old.row }
        ensures names { (other : List ℕ) → named other self.new.items ≡ (if bytes_eq name.now other then None else named other self.old.items) }
        ensures size { self.new.room.size ≡ self.old.room.size }
        ensures rooms { (rooms : List Room) → Holds self.old.room rooms → has_room base size rooms ≡ true → Holds self.new.room (without_room base rooms) }
    {
        self.items.remove(name);
        self.room.free(base, size);
    }

    /// Gives the region another size.
    pub(crate) fn resize(&mut self, size: u64)
        requires limit { size ≤ max_region_size }
        requires uncut { (rooms : List Room) × Holds self.old.room rooms × (is_cut_at size rooms ≡ false) }
        ensures row { self.new.row ≡ record self.old.row { size = size } }
        ensures names { self.new.items ≡ self.old.items }
        ensures size { self.new.room.size ≡ size }
        ensures rooms { (rooms : List Room) → Holds self.old.room rooms → Holds self.new.room rooms }
    {
        self.row.size = size;
        match self.room.resize(size) {
            Ok(()) => {}
            Err(_) => {}
        }
    }
}
