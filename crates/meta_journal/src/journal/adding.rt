//! Adding a record.

ghost use Rattle.std.specs.Prelude.{◌≡◌, ◌+◌, ◌≤◌, ◌++◌, [], ◌∷◌, OnOk, OnErr, IsSome, ◌⊎◌};
ghost use Rattle.fam_base.specs.Causes.{HasCause};
ghost use Rattle.fam_disk.specs.Crash.{LeavesOnly};
ghost use Rattle.fam_model.specs.Journal.{record_length, rows_of};

use crate::area::disk_place;
use crate::doubt::Doubt;
use crate::journal::Journal;
use crate::reserve::Reserved;
use fam_base::Failed;
use fam_disk::{Disk, write_synced};

impl<D: Disk> Journal<D> {
    ghost use Rattle.meta_journal.specs.Syncs.{KeepsSyncs};
    ghost use Rattle.meta_journal.specs.State.{acknowledged, IsSound, HasRowsOrAfter};
    ghost use Rattle.meta_journal.specs.Image.{IsAddable};
    ghost use Rattle.meta_journal.specs.Reading.{HasRows};
    ghost use Rattle.meta_journal.specs.declared.doubt.Doubt.TheVariants.{Nothing, OfChange};

    /// Writes a record behind the closed gate, then opens the gate.
    pub(crate) fn add(&mut self, reserved: Reserved) -> Result<(), Failed>
        requires sound { IsSound self.old }
        requires settled { self.old.doubt ≡ Nothing }
        requires addable { IsSome (D.state self.old.disk).content → IsAddable (acknowledged self.old) reserved.change }
        requires room { self.old.used + record_length reserved.change + 1 ≤ self.old.limit }
        ensures sound { IsSound self.new }
        ensures any_moment { LeavesOnly (HasRowsOrAfter self.old.limit (acknowledged self.old) reserved.change)
            (D.state self.old.disk) (D.state self.new.disk) }
        ensures limit { self.new.limit ≡ self.old.limit }
        ensures used { OnOk result (self.new.used ≡ self.old.used + record_length reserved.change) }
        ensures kept { OnErr result (self.new.used ≡ self.old.used) }
        ensures appended { OnOk result (IsSome (D.state self.old.disk).content
            → acknowledged self.new ≡ acknowledged self.old ++ reserved.change ∷ []) }
        ensures acknowledged { OnErr result (acknowledged self.new ≡ acknowledged self.old) }
        ensures settled { OnOk result (self.new.doubt ≡ Nothing) }
        ensures in_doubt { OnErr result ((self.new.doubt ≡ Nothing) ⊎ (self.new.doubt ≡ OfChange reserved.change)) }
        // A failure that leaves this change not in doubt was met before its gate was touched.
        ensures not_yet { OnErr result ((self.new.doubt ≡ OfChange reserved.change)
            ⊎ LeavesOnly (HasRows self.old.limit (rows_of (acknowledged self.old))) (D.state self.old.disk) (D.state self.new.disk)) }
        ensures syncs { KeepsSyncs (D.state self.old.disk) (D.state self.new.disk) }
        ensures cause { HasCause (D.state self.old.disk).faults (D.state self.new.disk).faults result }
    {
        let gate = disk_place(self.limit, self.area, self.used);
        let need = reserved.bytes.len() as u64;
        write_synced(&mut self.disk, gate + 1, reserved.bytes.as_slice())?;
        self.doubt = Doubt::OfChange(reserved.change);
        write_synced(&mut self.disk, gate, &[1])?;
        self.doubt = Doubt::Nothing;
        self.used += need;
        Ok(())
    }
}
