//! One row of a region.

ghost use Rattle.std.specs.Prelude.{◌≡◌, ◌+◌, ◌≤◌, length, slice_range, IfOk};
ghost use Rattle.stripe_store.specs.Rows.{overwritten, zeros};

use fam_base::NoMemory;
use std::alloc::Global;
use std::marker::Model;

/// The bytes of a row.
#[derive(Debug, Drop)]
pub(crate) struct Row {
    bytes: Vec<u8>,
}

impl Model for Row {
    ghost use Rattle.std.specs.Prelude.{List, ℕ};

    ghost Value = { List ℕ };

    ghost view = { λ r. r.bytes.items };
}

impl Row {
    /// A row of so many zeros.
    pub(crate) fn zeroed(alloc: Global, unit: usize) -> Result<Row, NoMemory>
        ensures { IfOk result (λ row. row ≡ zeros unit) }
    {
        match vec![in alloc; 0u8; unit] {
            Ok(bytes) => Ok(Row { bytes }),
            Err(_) => Err(NoMemory),
        }
    }

    /// How many bytes there are.
    pub(crate) fn len(&self) -> usize
        ensures { result ≡ length self.now }
    {
        self.bytes.len()
    }

    /// Fills `into` with the bytes from `at` on.
    pub(crate) fn read(&self, at: usize, into: &mut [u8])
        requires { at + length into.old ≤ length self.now }
        ensures { into.new ≡ slice_range self.now at (at + length into.old) }
    {
        into.copy_from_slice(&self.bytes[at..at + into.len()]);
    }

    /// Puts the bytes of `from` at `at` and the places after it.
    pub(crate) fn write(&mut self, at: usize, from: &[u8])
        requires { at + length from.now ≤ length self.old }
        ensures { self.new ≡ overwritten self.old at from.now }
    {
        self.bytes[at..at + from.len()].copy_from_slice(from);
    }

    /// Puts `n` zeros at `at` and the places after it.
    pub(crate) fn zero(&mut self, at: usize, n: usize)
        requires { at + n ≤ length self.old }
        ensures { self.new ≡ overwritten self.old at (zeros n) }
    {
        self.bytes[at..at + n].fill(0);
    }
}
