//! A journal in memory beside the rows of its changes, for the tests.

ghost use Rattle.std.specs.Prelude.{◌≡◌, ◌≤◌, ◌^◌, IfOk};
ghost use Rattle.fam_model.specs.Journal.{rows_of};
ghost use Rattle.fam_model.specs.Rows.{IsLawful};
ghost use Rattle.meta_codec.specs.Body.{HasBody};
ghost use Rattle.meta_journal.specs.State.{acknowledged, IsSound};

use crate::journal::Journal;
use crate::short_form::short_form;
use crate::starting::OpenFault;
use fam_base::{Bytes, FamError, NoMemory, Places};
use fam_disk::MemDisk;
use fam_model::{Change, Rows};
use fam_rows::{apply, is_lawful_change};
use std::alloc::Global;
use std::process::Abort;

/// A disk with these bytes, some of whose reads, writes and syncs fail, counted from 1.
pub(crate) fn failing_disk(
    alloc: Global,
    bytes: &[u8],
    reads: &[u64],
    writes: &[u64],
    syncs: &[u64],
) -> Result<MemDisk, NoMemory> {
    Ok(MemDisk::new(
        alloc,
        Bytes::of(alloc, bytes)?,
        Places::of(alloc, reads)?,
        Places::of(alloc, writes)?,
        Places::of(alloc, syncs)?,
    ))
}

/// A disk with these bytes, none of whose calls fails.
pub(crate) fn disk_of(alloc: Global, bytes: &[u8]) -> Result<MemDisk, NoMemory> {
    failing_disk(alloc, bytes, &[], &[], &[])
}

/// A copy of bytes with one of them changed.
pub(crate) fn with_byte(
    alloc: Global,
    bytes: &[u8],
    at: usize,
    byte: u8,
) -> Result<Bytes, NoMemory> {
    let mut copy = Vec::from_slice(alloc, bytes)?;
    if let Some(place) = copy.get_mut(at) {
        *place = byte;
    }
    Ok(Bytes::from_vec(copy))
}

/// A journal, and the rows that its changes make.
#[derive(Drop)]
pub(crate) struct Kept {
    pub(crate) journal: Journal<MemDisk>,
    pub(crate) rows: Rows,
}

impl Kept {
    /// Opens the journal of a disk.
    pub(crate) fn open(
        alloc: Global,
        disk: MemDisk,
        limit: u64,
    ) -> Result<Kept, (MemDisk, OpenFault)>
        requires low { 17 ≤ limit }
        requires high { limit ≤ 2 ^ 24 }
        ensures sound { IfOk result (λ kept. IsSound kept.journal) }
        ensures same { IfOk result (λ kept. rows_of (acknowledged kept.journal) ≡ kept.rows) }
        ensures lawful { IfOk result (λ kept. IsLawful kept.rows) }
    {
        match Journal::open_on(alloc, disk, limit) {
            Ok((journal, rows)) => Ok(Kept { journal, rows }),
            Err(refused) => Err(refused),
        }
    }

    /// Appends a change, and makes it in the rows.
    pub(crate) fn play(
        &mut self,
        rt: &impl Abort,
        alloc: Global,
        change: Change,
    ) -> Result<(), FamError>
        requires sound { IsSound self.old.journal }
        requires same { rows_of (acknowledged self.old.journal) ≡ self.old.rows }
        requires lawful { IsLawful self.old.rows }
        requires body { HasBody change }
        ensures sound { IsSound self.new.journal }
        ensures same { rows_of (acknowledged self.new.journal) ≡ self.new.rows }
        ensures lawful { IsLawful self.new.rows }
    {
        let is_lawful = is_lawful_change(&self.rows, &change);
        assert!(rt; is_lawful);
        self.journal.reserve_with(&change, &self.rows)?;
        self.journal.append(&change)?;
        let made = apply(alloc, &mut self.rows, change);
        assert!(rt; made.is_ok());
        Ok(())
    }

    /// Closes what is in doubt.
    pub(crate) fn settle(&mut self) -> Result<(), FamError>
        requires sound { IsSound self.old.journal }
        requires same { rows_of (acknowledged self.old.journal) ≡ self.old.rows }
        ensures sound { IsSound self.new.journal }
        ensures same { rows_of (acknowledged self.new.journal) ≡ self.new.rows }
        ensures rows { self.new.rows ≡ self.old.rows }
    {
        self.journal.settle()
    }

    /// Gives the disk back.
    pub(crate) fn close(self) -> MemDisk {
        let Kept { journal, .. } = self;
        journal.close()
    }

    /// The short form of its rows, by which rows are compared.
    pub(crate) fn form(&self, alloc: Global) -> Result<Bytes, NoMemory>
        requires { IsLawful self.now.rows }
    {
        short_form(alloc, &self.rows)
    }
}
