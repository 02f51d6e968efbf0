//! A sink in memory.

ghost use Rattle.std.specs.Prelude.{◌≡◌, length, [], IsErr, OnOk, IfOk, OnErr, IsTrue};
ghost use Rattle.fam_base.specs.Causes.{HasCause};
ghost use Rattle.fam_io.specs.Calls.{fails_next};
ghost use Rattle.fam_io.specs.Memory.{MemorySink, after_write, after_failed_write, told_sink};

use crate::calls::Calls;
use crate::sink::Sink;
use fam_base::{Bytes, Failed, Places};
use std::alloc::Global;
use std::marker::Model;

/// Keeps what is written to it. Some of its writes fail. A write that fails adds nothing.
#[derive(Debug, Drop)]
pub struct MemSink {
    bytes: Vec<u8>,
    writes: Calls,
}

impl Model for MemSink {
    ghost use Rattle.fam_io.specs.Memory.{MemorySink};

    ghost Value = { MemorySink };

    ghost view = { λ s. record {
      written = s.bytes.items;
      failing = s.writes.failing;
      calls = s.writes.made;
      faults = s.writes.faults;
    } };
}

impl MemSink {
    /// Nothing yet. The writes that the list numbers fail, counted from 1.
    pub fn new(alloc: Global, failing: Places) -> MemSink
        ensures { result ≡ record { written = []; failing = failing; calls = 0; faults = 0 } }
    {
        MemSink {
            bytes: Vec::new(alloc),
            writes: Calls::new(failing),
        }
    }

    /// What was written.
    pub fn written(&self) -> &[u8]
        ensures { result.now ≡ self.now.written }
    {
        self.bytes.as_slice()
    }

    /// What was written, alone.
    pub fn into_written(self) -> Bytes
        ensures { result ≡ self.written }
    {
        let MemSink { bytes, writes: _ } = self;
        Bytes::from_vec(bytes)
    }
}

impl Sink for MemSink {
    ghost sink = { told_sink };

    /// Takes all of the piece. Besides the writes that the list numbers, one fails where memory is
    /// wanting.
    fn write(&mut self, from: &[u8]) -> Result<usize, Failed>
        ensures fails { IsTrue (fails_next self.old.failing self.old.calls) → IsErr result }
        ensures bytes { IfOk result (λ n. n ≡ length from.now) }
        ensures written { OnOk result (self.new ≡ after_write self.old from.now) }
        ensures failed { OnErr result (self.new ≡ after_failed_write self.old) }
        ensures cause { HasCause self.old.faults self.new.faults result }
    {
        if self.writes.fails_next() {
            return Err(self.writes.fault());
        }
        match self.bytes.extend_from_slice(from) {
            Ok(()) => Ok(from.len()),
            Err(_) => Err(self.writes.fault()),
        }
    }

    fn write_faults(&self) -> u64
        ensures { result ≡ self.now.faults }
    {
        self.writes.faults
    }
}
