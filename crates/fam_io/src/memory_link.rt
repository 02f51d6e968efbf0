//! A link in memory.

ghost use Rattle.std.specs.Prelude.{◌≡◌, ◌++◌, min, take, drop, length, [], is_err, IsErr, OnOk, IfOk, OnErr, IsTrue};
ghost use Rattle.fam_base.specs.Causes.{HasCause};
ghost use Rattle.fam_io.specs.Calls.{fails_next, piece_of};
ghost use Rattle.fam_io.specs.Memory.{after_read, after_failed_read, after_write, after_failed_write, told_source, told_sink};

use crate::link::Link;
use crate::memory_sink::MemSink;
use crate::memory_source::MemSource;
use crate::sink::Sink;
use crate::source::Source;
use fam_base::{Bytes, Failed, Places};
use std::alloc::Global;

/// A source and a sink in memory, whose reads may come in pieces.
#[derive(Debug, Drop)]
pub struct MemLink {
    /// What is read of it.
    pub input: MemSource,
    /// How many bytes each read may give; one that fails has its number too. A 0 counts as 1, the last
    /// number is for all later reads, and an empty list sets no bound.
    pub pieces: Places,
    /// What is written to it.
    pub output: MemSink,
}

impl MemLink {
    /// This input, and no output yet. The reads and the writes that the lists number fail, counted
    /// from 1.
    pub fn new(
        alloc: Global,
        input: Bytes,
        pieces: Places,
        failing_reads: Places,
        failing_writes: Places,
    ) -> MemLink
        ensures input { result.input
            ≡ record { taken = []; left = input; failing = failing_reads; calls = 0; faults = 0 } }
        ensures pieces { result.pieces ≡ pieces }
        ensures output { result.output
            ≡ record { written = []; failing = failing_writes; calls = 0; faults = 0 } }
    {
        MemLink {
            input: MemSource::new(input, failing_reads),
            pieces,
            output: MemSink::new(alloc, failing_writes),
        }
    }

    /// How many bytes the next read may give.
    fn piece(&self) -> usize
        ensures { result ≡ piece_of self.now.pieces self.now.input.calls }
    {
        let pieces = self.pieces.as_slice();
        if pieces.is_empty() {
            return usize::MAX;
        }
        let last = (pieces.len() - 1) as u64;
        let place = self.input.calls().min(last) as usize;
        (pieces[place] as usize).max(1)
    }
}

impl Source for MemLink {
    ghost source = { λ link. told_source link.input };

    ghost sink_beside = { λ link. told_sink link.output };

    /// Gives as many bytes as there is room, as are left and as the next piece has.
    /// Only the reads that the list numbers fail.
    fn read(&mut self, into: &mut [u8]) -> Result<usize, Failed>
        ensures fails { is_err result ≡ fails_next self.old.input.failing self.old.input.calls }
        ensures count { IfOk result (λ n. n ≡ min (piece_of self.old.pieces self.old.input.calls)
            (min (length into.old) (length self.old.input.left))) }
        ensures given { IfOk result (λ n.
            into.new ≡ take n self.old.input.left ++ drop n into.old) }
        ensures read { IfOk result (λ n.
            self.new ≡ record self.old { input = after_read self.old.input n }) }
        ensures failed { OnErr result
            (self.new ≡ record self.old { input = after_failed_read self.old.input }) }
        ensures untouched { OnErr result (into.new ≡ into.old) }
        ensures cause { HasCause self.old.input.faults self.new.input.faults result }
    {
        let most = self.piece();
        self.input.read_at_most(into, most)
    }

    fn read_faults(&self) -> u64
        ensures { result ≡ self.now.input.faults }
    {
        self.input.read_faults()
    }
}

impl Sink for MemLink {
    ghost sink = { λ link. told_sink link.output };

    ghost source_beside = { λ link. told_source link.input };

    /// Takes all of the piece. Besides the writes that the list numbers, one fails where memory is
    /// wanting.
    fn write(&mut self, from: &[u8]) -> Result<usize, Failed>
        ensures fails { IsTrue (fails_next self.old.output.failing self.old.output.calls)
            → IsErr result }
        ensures bytes { IfOk result (λ n. n ≡ length from.now) }
        ensures written { OnOk result
            (self.new ≡ record self.old { output = after_write self.old.output from.now }) }
        ensures failed { OnErr result
            (self.new ≡ record self.old { output = after_failed_write self.old.output }) }
        ensures cause { HasCause self.old.output.faults self.new.output.faults result }
    {
        self.output.write(from)
    }

    fn write_faults(&self) -> u64
        ensures { result ≡ self.now.output.faults }
    {
        self.output.write_faults()
    }
}

impl Link for MemLink {
    ghost use Rattle.std.specs.Prelude.{refl};

    ghost same_sink = { λ link. refl };

    ghost same_source = { λ link. refl };
}
