//! The rows of one region.

ghost use Rattle.std.specs.Prelude.{◌≡◌, ◌↔◌, ◌+◌, ◌≤◌, length, take, replicate, slice_range, slice_set, IsTrue, IsOk, IfOk, OnOk, OnErr};
ghost use Rattle.stripe_store.specs.Rows.{bytes_of, Reaches, overwritten, zeros, grown};

use crate::row::Row;
use fam_base::NoMemory;
use std::alloc::Global;
use std::marker::Model;

/// The rows of a region, in order.
#[derive(Debug, Drop)]
pub(crate) struct Rows {
    rows: Vec<Row>,
}

impl Model for Rows {
    ghost use Rattle.std.specs.Prelude.{List, ℕ};

    ghost Value = { List (List ℕ) };

    ghost view = { λ r. r.rows.items };
}

/// So many rows of `unit` zeros each.
fn zero_rows(alloc: Global, count: usize, unit: usize) -> Result<Vec<Row>, NoMemory>
    ensures { IfOk result (λ rows. rows.items ≡ replicate count (zeros unit)) }
{
    let Ok(mut rows) = Vec::with_capacity(alloc, count) else {
        return Err(NoMemory);
    };
    for _ in 0..count {
        let row = Row::zeroed(alloc, unit)?;
        if rows.push(row).is_err() {
            return Err(NoMemory);
        }
    }
    Ok(rows)
}

impl Rows {
    /// So many rows of `unit` zeros each.
    pub(crate) fn zeroed(alloc: Global, count: u64, unit: u32) -> Result<Rows, NoMemory>
        ensures { IfOk result (λ rows. rows ≡ replicate count (zeros unit)) }
    {
        let rows = zero_rows(alloc, count as usize, unit as usize)?;
        Ok(Rows { rows })
    }

    /// Whether `n` bytes from `at` on lie inside a row.
    pub(crate) fn reaches(&self, row: u64, at: u32, n: u32) -> bool
        ensures { IsTrue result ↔ Reaches self.now row at n }
    {
        match self.rows.get(row as usize) {
            Some(bytes) => at as usize + n as usize <= bytes.len(),
            None => false,
        }
    }

    /// Adds rows of `unit` zeros until there are at least `count` rows. It takes memory only for those.
    pub(crate) fn grow(&mut self, alloc: Global, count: u64, unit: u32) -> Result<(), NoMemory>
        ensures ok { OnOk result (self.new ≡ grown self.old count unit) }
        ensures err { OnErr result (self.new ≡ self.old) }
        ensures enough { count ≤ length self.old → IsOk result }
    {
        let missing = (count as usize).saturating_sub(self.rows.len());
        if missing == 0 {
            return Ok(());
        }
        let mut added = zero_rows(alloc, missing, unit as usize)?;
        match self.rows.append(&mut added) {
            Ok(()) => Ok(()),
            Err(_) => Err(NoMemory),
        }
    }

    /// Keeps at most the first `count` rows.
    pub(crate) fn shrink(&mut self, count: u64)
        ensures { self.new ≡ take count self.old }
    {
        self.rows.truncate(count as usize);
    }

    /// Fills `into` with the bytes of a row from `at` on.
    pub(crate) fn read(&self, row: u64, at: u32, into: &mut [u8])
        requires { Reaches self.now row at (length into.old) }
        ensures { into.new ≡ slice_range (bytes_of self.now row) at (at + length into.old) }
    {
        self.rows[row as usize].read(at as usize, into);
    }

    /// Puts the bytes of `from` into a row at `at` and the places after it.
    pub(crate) fn write(&mut self, row: u64, at: u32, from: &[u8])
        requires { Reaches self.old row at (length from.now) }
        ensures { self.new ≡ slice_set self.old row (overwritten (bytes_of self.old row) at from.now) }
    {
        self.rows[row as usize].write(at as usize, from);
    }

    /// Puts `n` zeros into a row at `at` and the places after it.
    pub(crate) fn zero(&mut self, row: u64, at: u32, n: u32)
        requires { Reaches self.old row at n }
        ensures { self.new ≡ slice_set self.old row (overwritten (bytes_of self.old row) at (zeros n)) }
    {
        self.rows[row as usize].zero(at as usize, n as usize);
    }
}
