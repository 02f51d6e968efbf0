//! The rows of every region.

ghost use Rattle.std.specs.Prelude.{◌≡◌, ◌↔◌, ◌+◌, ◌≤◌, length, take, [], slice_range, IsTrue, IsOk, OnOk, OnErr};
ghost use Rattle.std.specs.FinMap as map;
ghost use Rattle.stripe_store.specs.Rows.{Reaches, overwritten, zeros, grown};

use crate::rows::Rows;
use fam_base::{NoMemory, RegionId};
use std::alloc::Global;
use std::collections::BTreeMap;
use std::marker::Model;

/// The bytes of a stripe. Contracts see the rows of each region that has any rows, each row a list of bytes.
#[derive(Debug, Drop)]
pub struct Store {
    alloc: Global,
    regions: BTreeMap<RegionId, Rows>,
}

impl Model for Store {
    ghost use Rattle.stripe_store.specs.Kept.{Kept, coded_kept, kept_of};

    ghost Value = { Kept };

    ghost coded = { coded_kept };

    ghost view = { λ s. kept_of s.regions.entries };
}

impl Store {
    ghost use Rattle.stripe_store.specs.Kept.{rows_of, row_of, with_rows, with_row};

    /// No region has rows.
    pub fn new(alloc: Global) -> Store
        ensures { result ≡ map.empty }
    {
        Store {
            alloc,
            regions: BTreeMap::new(alloc),
        }
    }

    /// Adds rows of `unit` zero bytes each until the region has at least `rows` rows. The rows that
    /// were there stay as they were, and after an error everything is as before. Where there are
    /// enough rows already, no memory is needed.
    pub fn grow(&mut self, region: RegionId, rows: u64, unit: u32) -> Result<(), NoMemory>
        ensures ok { OnOk result (self.new ≡ with_rows self.old region.0 (grown (rows_of self.old region.0) rows unit)) }
        ensures err { OnErr result (self.new ≡ self.old) }
        ensures enough { rows ≤ length (rows_of self.old region.0) → IsOk result }
    {
        if let Some(there) = self.regions.get_mut(&region) {
            return there.grow(self.alloc, rows, unit);
        }
        if rows == 0 {
            return Ok(());
        }
        let fresh = Rows::zeroed(self.alloc, rows, unit)?;
        match self.regions.insert(region, fresh) {
            Ok(_) => Ok(()),
            Err(_) => Err(NoMemory),
        }
    }

    /// The region keeps at most its first `rows` rows.
    pub fn shrink(&mut self, region: RegionId, rows: u64)
        ensures { self.new ≡ with_rows self.old region.0 (take rows (rows_of self.old region.0)) }
    {
        if let Some(there) = self.regions.get_mut(&region) {
            there.shrink(rows);
        }
    }

    /// The region has no rows any more.
    pub fn drop_region(&mut self, region: RegionId)
        ensures { self.new ≡ with_rows self.old region.0 [] }
    {
        self.regions.remove(&region);
    }

    /// Whether `n` bytes from byte `at` on lie inside a row of the region.
    pub fn reaches(&self, region: RegionId, row: u64, at: u32, n: u32) -> bool
        ensures { IsTrue result ↔ Reaches (rows_of self.now region.0) row at n }
    {
        match self.regions.get(&region) {
            Some(there) => there.reaches(row, at, n),
            None => false,
        }
    }

    /// Fills `into` with the bytes of a row from byte `at` on.
    pub fn read(&self, region: RegionId, row: u64, at: u32, into: &mut [u8])
        requires { Reaches (rows_of self.now region.0) row at (length into.old) }
        ensures { into.new ≡ slice_range (row_of self.now region.0 row) at (at + length into.old) }
    {
        if let Some(there) = self.regions.get(&region) {
            there.read(row, at, into);
        }
    }

    /// Puts the bytes of `from` into a row, from byte `at` on.
    pub fn write(&mut self, region: RegionId, row: u64, at: u32, from: &[u8])
        requires { Reaches (rows_of self.old region.0) row at (length from.now) }
        ensures { self.new ≡ with_row self.old region.0 row (overwritten (row_of self.old region.0 row) at from.now) }
    {
        if let Some(there) = self.regions.get_mut(&region) {
            there.write(row, at, from);
        }
    }

    /// Puts `n` zeros into a row, from byte `at` on.
    pub fn zero(&mut self, region: RegionId, row: u64, at: u32, n: u32)
        requires { Reaches (rows_of self.old region.0) row at n }
        ensures { self.new ≡ with_row self.old region.0 row (overwritten (row_of self.old region.0 row) at (zeros n)) }
    {
        if let Some(there) = self.regions.get_mut(&region) {
            there.zero(row, at, n);
        }
    }
}
