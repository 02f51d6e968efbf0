//! A disk in memory, some of whose calls fail.

ghost use Rattle.std.specs.Prelude.{◌≡◌, ◌+◌, ◌≤◌, ◌∷◌, ◌++◌, ◌⊎◌, [], ℕ, List, length, take, drop, unwrap_or, is_ok, if◌then◌else◌, true, false, IsErr, IsTrue, OnOk, OnErr, IfOk, refl};
ghost use Rattle.fam_base.specs.Causes.{HasCause, Rose};
ghost use Rattle.fam_disk.specs.Calls.{counted, fails_next};
ghost use Rattle.fam_disk.specs.Crash.{IsKept, IsSynced, IsTorn, Passes, written};
ghost use Rattle.fam_disk.specs.Replay.{content_after, content_by};
ghost use Rattle.fam_disk.specs.declared.call.DiskCall.TheVariants.{Asked, Wrote, Synced};

use crate::call::DiskCall;
use crate::calls::{AllCalls, Calls};
use crate::disk::Disk;
use crate::overwriting::overwrite;
use fam_base::{Bytes, Failed, Places, Sequence};
use std::alloc::Global;

/// A disk in memory. It keeps what it had at first and each call, so that it can give each image.
#[derive(Debug, Drop)]
pub struct MemDisk {
    pub(crate) alloc: Global,
    pub(crate) first: Bytes,
    present: Option<Bytes>,
    pub(crate) calls: Sequence<DiskCall>,
    counts: AllCalls,
    faults: u64,
    ghost replayed: { unwrap_or present first ≡ content_after calls first },
}

impl MemDisk {
    ghost use Rattle.fam_disk.specs.Memory.{NewDisk, memory_content, memory_state};

    /// A disk with these bytes. The reads, the writes and the syncs that the lists number fail, counted
    /// from 1.
    pub fn new(
        alloc: Global,
        bytes: Bytes,
        failing_reads: Places,
        failing_writes: Places,
        failing_syncs: Places,
    ) -> MemDisk
        ensures { NewDisk bytes failing_reads failing_writes failing_syncs result }
    {
        MemDisk {
            alloc,
            first: bytes,
            present: None,
            calls: Sequence::new(alloc),
            counts: AllCalls {
                reads: Calls::new(failing_reads),
                writes: Calls::new(failing_writes),
                syncs: Calls::new(failing_syncs),
            },
            faults: 0,
        }
    }

    /// What the disk reads.
    pub fn bytes(&self) -> &[u8]
        ensures { result.now ≡ memory_content self.now }
    {
        match &self.present {
            Some(bytes) => bytes.as_slice(),
            None => self.first.as_slice(),
        }
    }

    /// The present moment: how many calls it keeps.
    pub fn moment(&self) -> u64
        ensures { result ≡ (memory_state self.now).moment }
    {
        self.calls.len() as u64
    }
}

impl MemDisk {
    ghost use Rattle.fam_disk.specs.Memory.{IsSameDisk, memory_content};

    /// Counts a fault.
    fn fault(&mut self) -> Failed
        ensures same { IsSameDisk self.old self.new }
        ensures rose { Rose self.old.faults self.new.faults }
        ensures later { self.old.faults ≤ self.new.faults }
    {
        self.faults = self.faults.saturating_add(1);
        Failed
    }

    /// Keeps a call that leaves what the disk reads.
    fn note(&mut self, call: DiskCall) -> Result<(), Failed>
        requires { (content : List ℕ) → content_by call content ≡ content }
        ensures first { self.new.first ≡ self.old.first }
        ensures content { memory_content self.new ≡ memory_content self.old }
        ensures counts { self.new.counts ≡ self.old.counts }
        ensures ok { OnOk result (self.new.calls ≡ self.old.calls ++ call ∷ []) }
        ensures err { OnErr result (self.new.calls ≡ self.old.calls) }
        ensures later { self.old.faults ≤ self.new.faults }
        ensures rose { OnErr result (Rose self.old.faults self.new.faults) }
    {
        match self.calls.push(call) {
            Ok(()) => Ok(()),
            Err(_) => Err(self.fault()),
        }
    }

    fn copy(&mut self, from: &[u8]) -> Result<Bytes, Failed>
        ensures same { IsSameDisk self.old self.new }
        ensures ok { IfOk result (λ copy. copy ≡ from.now) }
        ensures later { self.old.faults ≤ self.new.faults }
        ensures rose { OnErr result (Rose self.old.faults self.new.faults) }
    {
        match Bytes::of(self.alloc, from) {
            Ok(copy) => Ok(copy),
            Err(_) => Err(self.fault()),
        }
    }

    /// What the disk reads once these bytes are written.
    fn overwritten(&mut self, at: u64, from: &[u8]) -> Result<Bytes, Failed>
        ensures same { IsSameDisk self.old self.new }
        ensures ok { IfOk result (λ next. next ≡ written at from.now (memory_content self.old)) }
        ensures later { self.old.faults ≤ self.new.faults }
        ensures rose { OnErr result (Rose self.old.faults self.new.faults) }
    {
        match Vec::from_slice(self.alloc, self.bytes()) {
            Ok(mut next) => match overwrite(&mut next, at as usize, from) {
                Ok(()) => Ok(Bytes::from_vec(next)),
                Err(_) => Err(self.fault()),
            },
            Err(_) => Err(self.fault()),
        }
    }
}

impl MemDisk {
    ghost use Rattle.fam_disk.specs.Memory.{IsSameDisk, memory_content};

    /// Keeps a write that is served, and what the disk reads then.
    fn replace(&mut self, at: u64, bytes: Bytes, next: Bytes) -> Result<(), Failed>
        requires { next ≡ written at bytes (memory_content self.old) }
        ensures first { self.new.first ≡ self.old.first }
        ensures content { OnOk result (memory_content self.new ≡ next) }
        ensures counts { self.new.counts ≡ self.old.counts }
        ensures ok { OnOk result (self.new.calls ≡ self.old.calls ++ Wrote at bytes true ∷ []) }
        ensures err { OnErr result (IsSameDisk self.old self.new) }
        ensures later { self.old.faults ≤ self.new.faults }
        ensures rose { OnErr result (Rose self.old.faults self.new.faults) }
    {
        let call = DiskCall::Wrote {
            at,
            bytes,
            served: true,
        };
        match self.calls.push(call) {
            Ok(()) => {
                self.present = Some(next);
                Ok(())
            }
            Err(_) => Err(self.fault()),
        }
    }
}

impl Disk for MemDisk {
    ghost use Rattle.fam_disk.specs.Memory.{KeepsCall, memory_content, memory_reads_image, memory_state};

    ghost state = { memory_state };

    ghost tells_content = { λ disk t image left. refl };

    ghost reads_image = { memory_reads_image };

    fn len(&mut self) -> Result<u64, Failed>
        ensures length { IfOk result (λ n. n ≡ length (memory_content self.old)) }
        ensures content { memory_content self.new ≡ memory_content self.old }
        ensures crash { Passes IsKept (memory_state self.old) (memory_state self.new) }
        ensures syncs { (memory_state self.new).syncs ≡ (memory_state self.old).syncs }
        ensures cause { HasCause self.old.faults self.new.faults result }
        ensures counts { self.new.counts ≡ self.old.counts }
        ensures first { self.new.first ≡ self.old.first }
        ensures call { KeepsCall Asked Asked self.old.calls self.new.calls result }
    {
        self.note(DiskCall::Asked)?;
        Ok(self.bytes().len() as u64)
    }

    /// Besides the reads that the list numbers, one fails where memory is wanting.
    fn read(&mut self, at: u64, into: &mut [u8]) -> Result<(), Failed>
        requires { at + length into.old ≤ length (memory_content self.old) }
        ensures bytes { OnOk result (into.new ≡ take (length into.old) (drop at (memory_content self.old))) }
        ensures content { memory_content self.new ≡ memory_content self.old }
        ensures crash { Passes IsKept (memory_state self.old) (memory_state self.new) }
        ensures syncs { (memory_state self.new).syncs ≡ (memory_state self.old).syncs }
        ensures cause { HasCause self.old.faults self.new.faults result }
        ensures fails { IsTrue (fails_next self.old.counts.reads) → IsErr result }
        ensures counts { self.new.counts ≡ record self.old.counts { reads = counted self.old.counts.reads } }
        ensures first { self.new.first ≡ self.old.first }
        ensures call { KeepsCall Asked Asked self.old.calls self.new.calls result }
        ensures untouched { OnErr result (into.new ≡ into.old) }
    {
        let fails = self.counts.reads.fails_next();
        self.note(DiskCall::Asked)?;
        if fails {
            return Err(self.fault());
        }
        let at = at as usize;
        into.copy_from_slice(&self.bytes()[at..at + into.len()]);
        Ok(())
    }

    /// Besides the writes that the list numbers, one fails where memory is wanting. A write that fails
    /// leaves what the disk reads.
    fn write_at(&mut self, at: u64, from: &[u8]) -> Result<(), Failed>
        ensures written { OnOk result (memory_content self.new ≡ written at from.now (memory_content self.old)) }
        ensures failed { OnErr result (memory_content self.new ≡ memory_content self.old) }
        ensures crash { Passes (IsTorn at (length from.now)) (memory_state self.old) (memory_state self.new) }
        ensures syncs { (memory_state self.new).syncs ≡ (memory_state self.old).syncs }
        ensures cause { HasCause self.old.faults self.new.faults result }
        ensures fails { IsTrue (fails_next self.old.counts.writes) → IsErr result }
        ensures counts { self.new.counts ≡ record self.old.counts { writes = counted self.old.counts.writes } }
        ensures first { self.new.first ≡ self.old.first }
        ensures call { KeepsCall (Wrote at from.now true) (Wrote at from.now false) self.old.calls self.new.calls result }
    {
        let fails = self.counts.writes.fails_next();
        let bytes = self.copy(from)?;
        if fails {
            self.note(DiskCall::Wrote {
                at,
                bytes,
                served: false,
            })?;
            return Err(self.fault());
        }
        let next = self.overwritten(at, from)?;
        self.replace(at, bytes, next)?;
        Ok(())
    }

    /// Besides the syncs that the list numbers, one fails where memory is wanting.
    fn sync(&mut self) -> Result<(), Failed>
        ensures synced { OnOk result (IsSynced (memory_state self.new)) }
        ensures content { memory_content self.new ≡ memory_content self.old }
        ensures crash { Passes IsKept (memory_state self.old) (memory_state self.new) }
        ensures syncs { (memory_state self.new).syncs
            ≡ (if is_ok result then (memory_state self.old).syncs ++ (memory_state self.new).moment ∷ [] else (memory_state self.old).syncs) }
        ensures cause { HasCause self.old.faults self.new.faults result }
        ensures fails { IsTrue (fails_next self.old.counts.syncs) → IsErr result }
        ensures counts { self.new.counts ≡ record self.old.counts { syncs = counted self.old.counts.syncs } }
        ensures first { self.new.first ≡ self.old.first }
        ensures call { KeepsCall Synced Asked self.old.calls self.new.calls result }
    {
        if self.counts.syncs.fails_next() {
            self.note(DiskCall::Asked)?;
            return Err(self.fault());
        }
        self.note(DiskCall::Synced)?;
        Ok(())
    }

    fn disk_faults(&self) -> u64 {
        self.faults
    }
}
