//! The rooms of one region.

ghost use Rattle.std.specs.Prelude.{◌≡◌, ◌≤◌, true, List, [], IfOk, OnOk, OnErr, is_err};
ghost use Rattle.std.specs.Result.{result_ok};
ghost use Rattle.fam_model.specs.Limits.{max_region_size};
ghost use Rattle.region_alloc.specs.declared.extent.Extent.{Extent as Room};
ghost use Rattle.region_alloc.specs.Gaps.{Holds, space_with};
ghost use Rattle.region_alloc.specs.Space.{has_place, has_no_place, has_room, is_cut_at, least_place, with_room, without_room};

use crate::extent::{Extent, InUse, NoSpace};
use crate::ranges::{cut_room, first_base, free_room, lies_in_gap, room_of};
use fam_base::NoMemory;
use std::alloc::Global;
use std::marker::Model;

/// The free ranges in front of the rooms of a region, in order of base; where the last room ends, and how many rooms there are. The
/// rooms themselves are not kept.
#[derive(Debug, Drop)]
pub struct Extents {
    size: u64,
    gaps: Vec<Extent>,
    end: u64,
    count: usize,
}

impl Model for Extents {
    ghost use Rattle.std.specs.Vec.{vec_capacity};
    ghost use Rattle.region_alloc.specs.Gaps.{FreeRanges, IsKept, ranges_of};

    ghost Value = { FreeRanges };

    ghost view = { λ e. ranges_of e.size e.gaps.items e.end e.count (vec_capacity e.gaps) };

    ghost invariant = { λ e. IsKept (ranges_of e.size e.gaps.items e.end e.count (vec_capacity e.gaps)) (vec_capacity e.gaps) };
}

impl Extents {
    /// A region of this size with no rooms.
    pub fn new(alloc: Global, size: u64) -> Extents
        requires { size ≤ max_region_size }
        ensures size { result.size ≡ size }
        ensures rooms { Holds result [] }
    {
        Extents {
            size,
            gaps: Vec::new(alloc),
            end: 0,
            count: 0,
        }
    }

    /// Afterwards one more room takes no memory. To give a room back never takes any.
    pub fn reserve(&mut self) -> Result<(), NoMemory>
        ensures size { self.new.size ≡ self.old.size }
        ensures rooms { (rooms : List Room) → Holds self.old rooms → Holds self.new rooms }
        ensures ready { OnOk result (self.new.is_ready ≡ true) }
    {
        let wanted = self.count + 1;
        let spare = wanted.saturating_sub(self.gaps.len());
        self.gaps.reserve(spare)?;
        Ok(())
    }

    /// Takes room for `n` bytes at the least base that fits.
    pub fn place(&mut self, n: u64) -> Result<u64, NoSpace>
        requires { self.old.is_ready ≡ true }
        ensures base { (rooms : List Room) → Holds self.old rooms → result_ok result ≡ least_place (space_with self.old rooms) n }
        ensures nowhere { (rooms : List Room) → Holds self.old rooms → is_err result ≡ has_no_place (space_with self.old rooms) n }
        ensures size { self.new.size ≡ self.old.size }
        ensures rooms { (rooms : List Room) → Holds self.old rooms → IfOk result (λ base. Holds self.new (with_room base n rooms)) }
        ensures full { OnErr result (self.new ≡ self.old) }
    {
        let _size = &self.size;
        match self.least_base(n) {
            None => Err(NoSpace),
            Some(base) => {
                self.take(base, n);
                Ok(base)
            }
        }
    }

    /// The least base at which `n` bytes fit, if there is one.
    pub fn least_base(&self, n: u64) -> Option<u64>
        ensures { (rooms : List Room) → Holds self.now rooms → result ≡ least_place (space_with self.now rooms) n }
    {
        if n > self.size {
            return None;
        }
        let want = room_of(n);
        let base = first_base(self.gaps.as_slice(), self.end, want);
        if want > self.size - base {
            return None;
        }
        Some(base)
    }

    /// Whether `n` bytes may lie at a base.
    pub fn fits(&self, n: u64, base: u64) -> bool
        ensures { (rooms : List Room) → Holds self.now rooms → result ≡ has_place (space_with self.now rooms) n base }
    {
        if base % 64 != 0 || n > self.size {
            return false;
        }
        let length = room_of(n);
        if length > self.size || base > self.size - length {
            return false;
        }
        base >= self.end || lies_in_gap(self.gaps.as_slice(), base, length)
    }

    /// Takes room for `n` bytes at a base that fits.
    pub fn take(&mut self, base: u64, n: u64)
        requires ready { self.old.is_ready ≡ true }
        requires fits { (rooms : List Room) × Holds self.old rooms × (has_place (space_with self.old rooms) n base ≡ true) }
        ensures size { self.new.size ≡ self.old.size }
        ensures rooms { (rooms : List Room) → Holds self.old rooms → has_place (space_with self.old rooms) n base ≡ true → Holds self.new (with_room base n rooms) }
    {
        let end = self.end;
        let room = Extent {
            base,
            length: room_of(n),
        };
        self.end = cut_room(&mut self.gaps, end, room);
        self.count += 1;
    }

    /// Gives the room of `n` bytes at a base back.
    pub fn free(&mut self, base: u64, n: u64)
        requires { (rooms : List Room) × Holds self.old rooms × (has_room base n rooms ≡ true) }
        ensures size { self.new.size ≡ self.old.size }
        ensures rooms { (rooms : List Room) → Holds self.old rooms → has_room base n rooms ≡ true → Holds self.new (without_room base rooms) }
        ensures ready { self.old.is_ready ≡ true → self.new.is_ready ≡ true }
    {
        let end = self.end;
        let room = Extent {
            base,
            length: room_of(n),
        };
        self.end = free_room(&mut self.gaps, end, room);
        self.count -= 1;
    }

    /// Gives the region another size.
    pub fn resize(&mut self, size: u64) -> Result<(), InUse>
        requires { size ≤ max_region_size }
        ensures in_use { (rooms : List Room) → Holds self.old rooms → is_err result ≡ is_cut_at size rooms }
        ensures size { OnOk result (self.new.size ≡ size) }
        ensures rooms { (rooms : List Room) → Holds self.old rooms → Holds self.new rooms }
        ensures ready { self.new.is_ready ≡ self.old.is_ready }
        ensures kept { OnErr result (self.new ≡ self.old) }
    {
        if self.ends_past(size) {
            return Err(InUse);
        }
        self.size = size;
        Ok(())
    }

    /// Whether some room ends past a size.
    pub fn ends_past(&self, size: u64) -> bool
        ensures { (rooms : List Room) → Holds self.now rooms → result ≡ is_cut_at size rooms }
    {
        self.end > size
    }
}
