//! Appending a change.

ghost use Rattle.std.specs.Prelude.{◌≡◌, ◌+◌, ◌≤◌, ◌++◌, [], ◌∷◌, IsSome, OnOk, OnErr, Err, ◌⊎◌};
ghost use Rattle.fam_base.specs.Causes.{HasCause};
ghost use Rattle.fam_disk.specs.Crash.{Leaves, LeavesOnly};
ghost use Rattle.fam_model.specs.declared.rows.Rows.{Rows};
ghost use Rattle.fam_model.specs.Directory.{after};
ghost use Rattle.fam_model.specs.Journal.{record_length, rows_of, short};

use crate::journal::Journal;
use crate::reserve::Reserve;
use fam_base::{Bytes, Failed, FamError};
use fam_disk::Disk;
use fam_model::Change;

impl<D: Disk> Journal<D> {
    ghost use Rattle.meta_journal.specs.Syncs.{KeepsSyncs};
    ghost use Rattle.meta_journal.specs.State.{acknowledged, IsSound, MayGoOn, changes_behind, place_behind, HasRowsInDoubt, HasRowsOrAfter};
    ghost use Rattle.meta_journal.specs.Image.{IsAddable};
    ghost use Rattle.meta_journal.specs.Reading.{HasRows};
    ghost use Rattle.meta_journal.specs.declared.doubt.Doubt.TheVariants.{Nothing, OfChange, OfArea};

    /// Goes over to the other area where there is a short form to write.
    fn make_room(&mut self, form: &Option<Bytes>) -> Result<(), Failed>
        requires sound { IsSound self.old }
        requires settled { self.old.doubt ≡ Nothing }
        requires form { MayGoOn self.old form.now }
        ensures sound { IsSound self.new }
        ensures same_rows { rows_of (acknowledged self.new) ≡ rows_of (acknowledged self.old) }
        ensures any_moment { LeavesOnly (HasRows self.old.limit (rows_of (acknowledged self.old)))
            (D.state self.old.disk) (D.state self.new.disk) }
        ensures limit { self.new.limit ≡ self.old.limit }
        ensures used { OnOk result (self.new.used ≡ place_behind form.now self.old.used) }
        ensures kept { OnErr result (self.new.used ≡ self.old.used) }
        ensures shortened { OnOk result (IsSome (D.state self.old.disk).content
            → acknowledged self.new ≡ changes_behind form.now (acknowledged self.old)) }
        ensures acknowledged { OnErr result (acknowledged self.new ≡ acknowledged self.old) }
        ensures settled { OnOk result (self.new.doubt ≡ Nothing) }
        ensures in_doubt { OnErr result ((self.new.doubt ≡ Nothing) ⊎ ((self.new.doubt ≡ OfArea) × IsSome form.now)) }
        ensures syncs { KeepsSyncs (D.state self.old.disk) (D.state self.new.disk) }
        ensures cause { HasCause (D.state self.old.disk).faults (D.state self.new.disk).faults result }
    {
        match form {
            None => Ok(()),
            Some(form) => self.switch(form.as_slice()),
        }
    }

    /// Settles the doubt, makes room, and adds the record.
    fn append_reserved(&mut self, reserve: Reserve) -> Result<(), Failed>
        requires sound { IsSound self.old }
        requires form { MayGoOn self.old reserve.short }
        requires addable { IsSome (D.state self.old.disk).content → IsAddable (acknowledged self.old) reserve.record.change }
        requires room { place_behind reserve.short self.old.used + record_length reserve.record.change + 1 ≤ self.old.limit }
        ensures sound { IsSound self.new }
        ensures any_moment { LeavesOnly (λ image. HasRowsInDoubt self.old.limit (acknowledged self.old) self.old.doubt image
            ⊎ HasRowsOrAfter self.old.limit (acknowledged self.old) reserve.record.change image)
            (D.state self.old.disk) (D.state self.new.disk) }
        ensures limit { self.new.limit ≡ self.old.limit }
        ensures used { OnOk result (self.new.used ≡ place_behind reserve.short self.old.used + record_length reserve.record.change) }
        ensures kept { OnErr result ((self.new.used ≡ self.old.used) ⊎ (self.new.used ≡ place_behind reserve.short self.old.used)) }
        ensures appended { OnOk result (IsSome (D.state self.old.disk).content
            → acknowledged self.new ≡ changes_behind reserve.short (acknowledged self.old) ++ reserve.record.change ∷ []) }
        ensures acknowledged { OnErr result (IsSome (D.state self.old.disk).content
            → (acknowledged self.new ≡ acknowledged self.old) ⊎ (acknowledged self.new ≡ changes_behind reserve.short (acknowledged self.old))) }
        ensures same_rows { OnErr result (rows_of (acknowledged self.new) ≡ rows_of (acknowledged self.old)) }
        ensures settled { OnOk result (self.new.doubt ≡ Nothing) }
        ensures in_doubt { OnErr result ((self.new.doubt ≡ self.old.doubt) ⊎ (self.new.doubt ≡ Nothing)
            ⊎ (self.new.doubt ≡ OfChange reserve.record.change) ⊎ ((self.new.doubt ≡ OfArea) × IsSome reserve.short)) }
        ensures not_yet { OnErr result ((self.new.doubt ≡ OfChange reserve.record.change)
            ⊎ LeavesOnly (HasRowsInDoubt self.old.limit (acknowledged self.old) self.old.doubt) (D.state self.old.disk) (D.state self.new.disk)) }
        ensures syncs { KeepsSyncs (D.state self.old.disk) (D.state self.new.disk) }
        ensures cause { HasCause (D.state self.old.disk).faults (D.state self.new.disk).faults result }
    {
        let Reserve { record, short } = reserve;
        self.settle_doubt()?;
        self.make_room(&short)?;
        self.add(record)?;
        Ok(())
    }
}

impl<D: Disk> Journal<D> {
    ghost use Rattle.meta_journal.specs.Syncs.{KeepsSyncs};
    ghost use Rattle.meta_journal.specs.State.{acknowledged, IsSound, IsReserved, HasRowsInDoubt, MayHold, MayDoubt, has_room, kept_changes, kept_place};
    ghost use Rattle.meta_journal.specs.Reading.{HasRows};
    ghost use Rattle.meta_journal.specs.declared.doubt.Doubt.TheVariants.{Nothing, OfChange};
    ghost use Rattle.fam_base.specs.declared.error.FamError.TheVariants.{DiskFault};

    /// Appends the change for which memory was reserved. From `Ok` on each crash leaves it.
    pub fn append(&mut self, change: &Change) -> Result<(), FamError>
        requires sound { IsSound self.old }
        requires reserved { (rows : Rows) × IsReserved self.old change.now rows }
        ensures sound { IsSound self.new }
        // Each crash leaves the acknowledged changes alone, of which this change is the last.
        ensures settled { OnOk result (self.new.doubt ≡ Nothing) }
        ensures images { OnOk result (Leaves (D.state self.new.disk) (D.state self.new.disk).moment
            (HasRows self.new.limit (rows_of (acknowledged self.new)))) }
        ensures appended { OnOk result (IsSome (D.state self.old.disk).content
            → acknowledged self.new ≡ kept_changes self.old.limit self.old.used (acknowledged self.old) change.now ++ change.now ∷ []) }
        ensures rows { OnOk result (IsSome (D.state self.old.disk).content
            → rows_of (acknowledged self.new) ≡ after (rows_of (acknowledged self.old)) change.now) }
        // A crash at any moment of the call leaves the acknowledged changes, then at most the doubt that stood before,
        // or this change.
        ensures any_moment { LeavesOnly (MayHold self.old.limit (acknowledged self.old) self.old.doubt change.now)
            (D.state self.old.disk) (D.state self.new.disk) }
        // After a failure the acknowledged changes are as they were, or the short form of their rows.
        ensures kept { OnErr result (IsSome (D.state self.old.disk).content
            → (acknowledged self.new ≡ acknowledged self.old)
            ⊎ (acknowledged self.new ≡ kept_changes self.old.limit self.old.used (acknowledged self.old) change.now)) }
        ensures same_rows { OnErr result (rows_of (acknowledged self.new) ≡ rows_of (acknowledged self.old)) }
        ensures in_doubt { OnErr result (MayDoubt self.old.doubt (has_room self.old.limit self.old.used change.now) change.now self.new.doubt) }
        ensures limit { self.new.limit ≡ self.old.limit }
        ensures used { (rows : Rows) → IsReserved self.old change.now rows → OnOk result
            (self.new.used ≡ kept_place self.old.limit self.old.used rows change.now + record_length change.now) }
        ensures used_after_failure { (rows : Rows) → IsReserved self.old change.now rows → OnErr result
            ((self.new.used ≡ self.old.used) ⊎ (self.new.used ≡ kept_place self.old.limit self.old.used rows change.now)) }
        ensures failed { OnErr result (result ≡ Err DiskFault) }
        // A failure that leaves this change not in doubt was met before its gate was touched.
        ensures not_yet { OnErr result ((self.new.doubt ≡ OfChange change.now)
            ⊎ LeavesOnly (HasRowsInDoubt self.old.limit (acknowledged self.old) self.old.doubt) (D.state self.old.disk) (D.state self.new.disk)) }
        ensures syncs { KeepsSyncs (D.state self.old.disk) (D.state self.new.disk) }
        ensures cause { HasCause (D.state self.old.disk).faults (D.state self.new.disk).faults result }
    {
        let Some(reserve) = self.reserve.take() else {
            unreachable!()
        };
        match self.append_reserved(reserve) {
            Ok(()) => Ok(()),
            Err(Failed) => Err(FamError::DiskFault),
        }
    }
}
