//! std's readers as sources.

ghost use Rattle.std.specs.Prelude.{◌≡◌, ◌<◌, None, length, take, IfOk, OnErr};
ghost use Rattle.std.specs.Io.{ReadsAtMost};
ghost use Rattle.std.specs.Io.KnownBytes.{Consumes, IsAtEnd, Keeps};

use crate::source::Source;
use fam_base::Failed;
use std::io;
use std::io::{ErrorKind, Read};

/// Reads from one of std's readers. It tells what is left where the reader does.
#[derive(Drop)]
pub struct Reader<R> {
    /// The reader.
    pub inner: R,
    /// How often a read has failed. It stays at the last number.
    pub faults: u64,
}

impl<R> Reader<R> {
    /// A reader of which no read failed yet.
    pub fn new(inner: R) -> Reader<R>
        ensures { result ≡ record { inner = inner; faults = 0 } }
    {
        Reader { inner, faults: 0 }
    }
}

impl<R: Read> Source for Reader<R> {
    ghost source = { λ r. record { taken = None; left = R.remaining r.inner; faults = r.faults } };

    fn read(&mut self, into: &mut [u8]) -> Result<usize, Failed> {
        match read_once(&mut self.inner, into) {
            Ok(count) => Ok(count),
            Err(_) => {
                self.faults = self.faults.saturating_add(1);
                Err(Failed)
            }
        }
    }

    fn read_faults(&self) -> u64 {
        self.faults
    }
}

/// One read, again where a signal interrupts it.
#[tactic(auto, using(crate::proofs::Again::again))]
fn read_once<R: Read>(reader: &mut R, into: &mut [u8]) -> io::Result<usize>
    ensures bound { ReadsAtMost result into.new }
    ensures bytes { IfOk result (λ n.
        Consumes (R.remaining reader.old) (R.remaining reader.new) (take n into.new)) }
    ensures end { IfOk result (λ n.
        n ≡ 0 → 0 < length into.old → IsAtEnd (R.remaining reader.new)) }
    ensures lost { OnErr result (Keeps (R.remaining reader.old) (R.remaining reader.new)) }
{
    for _ in 0..u64::MAX {
        match reader.read(into) {
            Ok(count) => return Ok(count),
            Err(error) => {
                if error.kind() != ErrorKind::Interrupted {
                    return Err(error);
                }
            }
        }
    }
    Err(ErrorKind::Interrupted.into())
}
