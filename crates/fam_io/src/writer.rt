//! std's writers as sinks.

ghost use Rattle.std.specs.Prelude.{◌≡◌, ◌<◌, length, take, IfOk, OnErr};
ghost use Rattle.std.specs.Io.{WritesAtMost};
ghost use Rattle.std.specs.Io.KnownBytes.{Appends, Keeps};
ghost use Rattle.fam_base.specs.Causes.{HasCause};

use crate::sink::Sink;
use fam_base::Failed;
use std::io;
use std::io::{ErrorKind, Write};

/// Writes to one of std's writers. It tells what was written where the writer does.
#[derive(Drop)]
pub struct Writer<W> {
    /// The writer.
    pub inner: W,
    /// How often a write or a flush has failed. It stays at the last number.
    pub faults: u64,
}

impl<W> Writer<W> {
    /// A writer of which no write failed yet.
    pub fn new(inner: W) -> Writer<W>
        ensures { result ≡ record { inner = inner; faults = 0 } }
    {
        Writer { inner, faults: 0 }
    }
}

impl<W: Write> Writer<W> {
    /// Hands on what the writer holds back.
    pub fn flush(&mut self) -> Result<(), Failed>
        ensures bytes { Keeps (W.contents self.old.inner) (W.contents self.new.inner) }
        ensures cause { HasCause self.old.faults self.new.faults result }
    {
        match self.inner.flush() {
            Ok(()) => Ok(()),
            Err(_) => {
                self.faults = self.faults.saturating_add(1);
                Err(Failed)
            }
        }
    }
}

impl<W: Write> Sink for Writer<W> {
    ghost sink = { λ w. record { written = W.contents w.inner; faults = w.faults } };

    fn write(&mut self, from: &[u8]) -> Result<usize, Failed> {
        match write_once(&mut self.inner, from) {
            Ok(count) => Ok(count),
            Err(_) => {
                self.faults = self.faults.saturating_add(1);
                Err(Failed)
            }
        }
    }

    fn write_faults(&self) -> u64 {
        self.faults
    }
}

/// One write, again where a signal interrupts it. 0 bytes of a piece that is not empty are an
/// error.
#[tactic(auto, using(crate::proofs::Again::again))]
fn write_once<W: Write>(writer: &mut W, from: &[u8]) -> io::Result<usize>
    ensures bound { WritesAtMost result from.now }
    ensures some { IfOk result (λ n. 0 < length from.now → 0 < n) }
    ensures bytes { IfOk result (λ n.
        Appends (W.contents writer.old) (W.contents writer.new) (take n from.now)) }
    ensures lost { OnErr result (Keeps (W.contents writer.old) (W.contents writer.new)) }
{
    for _ in 0..u64::MAX {
        match writer.write(from) {
            Ok(0) if !from.is_empty() => return Err(ErrorKind::WriteZero.into()),
            Ok(count) => return Ok(count),
            Err(error) => {
                if error.kind() != ErrorKind::Interrupted {
                    return Err(error);
                }
            }
        }
    }
    Err(ErrorKind::Interrupted.into())
}
