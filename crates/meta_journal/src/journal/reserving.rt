//! Taking the memory for an append.

ghost use Rattle.std.specs.Prelude.{◌≡◌, IsSome, IsTrue, IfErr, IfOk, OnOk, OnErr, Err, Some};
ghost use Rattle.fam_model.specs.Journal.{rows_of};
ghost use Rattle.fam_model.specs.Lawful.{is_lawful_change};
ghost use Rattle.fam_model.specs.Rows.{IsLawful};
ghost use Rattle.meta_codec.specs.Body.{HasBody};

use crate::journal::Journal;
use crate::record::{copy_of_change, push_record, record_length};
use crate::reserve::{Reserve, Reserved};
use crate::short_form::short_form;
use fam_base::{Bytes, FamError, NoMemory};
use fam_disk::Disk;
use fam_model::{Change, Rows};
use std::alloc::Global;

/// A change whose append needs no more memory.
fn reserved(alloc: Global, change: &Change) -> Result<Reserved, NoMemory>
    requires { HasBody change.now }
    ensures { IfOk result (λ reserved. reserved.change ≡ change.now) }
{
    let mut bytes = Vec::new(alloc);
    push_record(alloc, &mut bytes, change)?;
    bytes.push(0)?;
    Ok(Reserved {
        change: copy_of_change(alloc, change)?,
        bytes: Bytes::from_vec(bytes),
    })
}

impl<D: Disk> Journal<D> {
    ghost use Rattle.meta_journal.specs.State.{acknowledged, has_room, IsForm, IsSound, IsReserved, IsUntouched, IsRefusal, Keeps};
    ghost use Rattle.meta_journal.specs.Image.{IsAddable};
    ghost use Rattle.fam_base.specs.declared.error.FamError.TheVariants.{Memory};
    ghost use Rattle.fam_model.specs.declared.rows.Rows.{Rows};

    /// Whether a change fits into the area in use.
    pub fn fits(&self, change: &Change) -> bool
        requires { HasBody change.now }
        ensures { result ≡ has_room self.now.limit self.now.used change.now }
    {
        self.used + record_length(change) + 1 <= self.limit
    }

    /// Takes the memory for the append of a change that fits.
    pub fn reserve(&mut self, change: &Change) -> Result<(), FamError>
        requires addable { IsSome (D.state self.old.disk).content → IsAddable (acknowledged self.old) change.now }
        requires has_body { HasBody change.now }
        requires fits { IsTrue (has_room self.old.limit self.old.used change.now) }
        ensures same { IsUntouched self.old self.new }
        ensures sound { IsSound self.old → IsSound self.new }
        ensures acknowledged { acknowledged self.new ≡ acknowledged self.old }
        ensures ok { OnOk result (IsReserved self.new change.now (rows_of (acknowledged self.old))) }
        ensures memory { OnErr result (result ≡ Err Memory) }
    {
        match self.keep(change, None) {
            Ok(()) => Ok(()),
            Err(_) => Err(FamError::Memory),
        }
    }

    /// Takes the memory for the append of a change to a journal of these rows, which may have to be shortened first.
    pub fn reserve_with(&mut self, change: &Change, rows: &Rows) -> Result<(), FamError>
        requires rows { IsSome (D.state self.old.disk).content → rows_of (acknowledged self.old) ≡ rows.now }
        requires lawful { IsLawful rows.now }
        requires addable { IsTrue (is_lawful_change rows.now change.now) }
        requires has_body { HasBody change.now }
        ensures same { IsUntouched self.old self.new }
        ensures sound { IsSound self.old → IsSound self.new }
        ensures acknowledged { acknowledged self.new ≡ acknowledged self.old }
        ensures ok { OnOk result (IsReserved self.new change.now rows.now) }
        ensures refused { IfErr result (IsRefusal self.old.limit self.old.used rows.now change.now) }
    {
        if self.fits(change) {
            return match self.keep(change, None) {
                Ok(()) => Ok(()),
                Err(_) => Err(FamError::Memory),
            };
        }
        let Ok(form) = short_form(self.alloc, rows) else {
            return Err(FamError::Memory);
        };
        let used = 15 + form.len() as u64;
        let need = record_length(change);
        if self.limit < used + need + 1 {
            return Err(FamError::JournalFull { used, need });
        }
        match self.keep(change, Some(form)) {
            Ok(()) => Ok(()),
            Err(_) => Err(FamError::Memory),
        }
    }

    /// Keeps a copy of the change, its record, and the short form that is to be written first, if one is.
    fn keep(&mut self, change: &Change, short: Option<Bytes>) -> Result<(), NoMemory>
        requires { HasBody change.now }
        ensures same { IsUntouched self.old self.new }
        ensures kept { OnOk result (Keeps self.new.reserve change.now short) }
    {
        let record = reserved(self.alloc, change)?;
        self.reserve = Some(Reserve { record, short });
        Ok(())
    }
}
