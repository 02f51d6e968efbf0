//! A source in memory.

ghost use Rattle.std.specs.Prelude.{◌≡◌, ◌++◌, min, take, drop, length, is_err, [], IfOk, OnErr};
ghost use Rattle.fam_base.specs.Causes.{HasCause};
ghost use Rattle.fam_io.specs.Calls.{fails_next};
ghost use Rattle.fam_io.specs.Memory.{MemorySource, after_read, after_failed_read, told_source};

use crate::calls::Calls;
use crate::source::Source;
use fam_base::{Bytes, Failed, Places};
use std::marker::Model;

/// Bytes in memory, some of whose reads fail. A read that fails moves nothing.
#[derive(Debug, Drop)]
pub struct MemSource {
    bytes: Bytes,
    at: usize,
    reads: Calls,
}

impl Model for MemSource {
    ghost use Rattle.std.specs.Prelude.{◌≤◌, length, take, drop};
    ghost use Rattle.fam_io.specs.Memory.{MemorySource};

    ghost Value = { MemorySource };

    ghost view = { λ s. record {
      taken = take s.at s.bytes;
      left = drop s.at s.bytes;
      failing = s.reads.failing;
      calls = s.reads.made;
      faults = s.reads.faults;
    } };

    ghost invariant = { λ s. s.at ≤ length s.bytes };
}

impl MemSource {
    /// These bytes. The reads that the list numbers fail, counted from 1.
    pub fn new(bytes: Bytes, failing: Places) -> MemSource
        ensures { result
            ≡ record { taken = []; left = bytes; failing = failing; calls = 0; faults = 0 } }
    {
        MemSource {
            bytes,
            at: 0,
            reads: Calls::new(failing),
        }
    }

    /// What is left.
    pub fn left(&self) -> &[u8]
        ensures { result.now ≡ self.now.left }
    {
        &self.bytes.as_slice()[self.at..]
    }

    /// What was read.
    pub fn taken(&self) -> &[u8]
        ensures { result.now ≡ self.now.taken }
    {
        &self.bytes.as_slice()[..self.at]
    }

    /// How many reads were made.
    pub fn calls(&self) -> u64
        ensures { result ≡ self.now.calls }
    {
        self.reads.made
    }

    /// Gives as many bytes as there is room, as are left and as are allowed.
    pub fn read_at_most(&mut self, into: &mut [u8], most: usize) -> Result<usize, Failed>
        ensures fails { is_err result ≡ fails_next self.old.failing self.old.calls }
        ensures count { IfOk result (λ n.
            n ≡ min most (min (length into.old) (length self.old.left))) }
        ensures given { IfOk result (λ n. into.new ≡ take n self.old.left ++ drop n into.old) }
        ensures read { IfOk result (λ n. self.new ≡ after_read self.old n) }
        ensures failed { OnErr result (self.new ≡ after_failed_read self.old) }
        ensures untouched { OnErr result (into.new ≡ into.old) }
        ensures cause { HasCause self.old.faults self.new.faults result }
    {
        if self.reads.fails_next() {
            return Err(self.reads.fault());
        }
        let left = &self.bytes.as_slice()[self.at..];
        let count = most.min(into.len()).min(left.len());
        into[..count].copy_from_slice(&left[..count]);
        self.at += count;
        Ok(count)
    }
}

impl Source for MemSource {
    ghost source = { told_source };

    /// Gives as many bytes as there is room and as are left. Only the reads that the list numbers
    /// fail.
    fn read(&mut self, into: &mut [u8]) -> Result<usize, Failed>
        ensures fails { is_err result ≡ fails_next self.old.failing self.old.calls }
        ensures count { IfOk result (λ n. n ≡ min (length into.old) (length self.old.left)) }
        ensures given { IfOk result (λ n. into.new ≡ take n self.old.left ++ drop n into.old) }
        ensures read { IfOk result (λ n. self.new ≡ after_read self.old n) }
        ensures failed { OnErr result (self.new ≡ after_failed_read self.old) }
        ensures cause { HasCause self.old.faults self.new.faults result }
        ensures untouched { OnErr result (into.new ≡ into.old) }
    {
        let most = into.len();
        self.read_at_most(into, most)
    }

    fn read_faults(&self) -> u64
        ensures { result ≡ self.now.faults }
    {
        self.reads.faults
    }
}
