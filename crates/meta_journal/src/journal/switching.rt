//! Going over to the other area.

ghost use Rattle.std.specs.Prelude.{◌≡◌, ◌+◌, ◌<◌, ◌≤◌, length, OnOk, OnErr, IsSome, ◌⊎◌};
ghost use Rattle.std.specs.Option.{ForSome};
ghost use Rattle.fam_base.specs.Causes.{HasCause};
ghost use Rattle.fam_disk.specs.Crash.{LeavesOnly};
ghost use Rattle.fam_model.specs.Journal.{rows_of, short};

use crate::area::{area_start, byte_of, other_of};
use crate::doubt::Doubt;
use crate::journal::Journal;
use fam_base::Failed;
use fam_disk::{Disk, write_synced};

impl<D: Disk> Journal<D> {
    ghost use Rattle.meta_journal.specs.Syncs.{KeepsSyncs};
    ghost use Rattle.meta_journal.specs.State.{acknowledged, IsSound, IsSameJournal};
    ghost use Rattle.meta_journal.specs.Reading.{HasRows};
    ghost use Rattle.meta_journal.specs.Image.{other_area};
    ghost use Rattle.meta_journal.specs.Layout.{area_start as start_of};
    ghost use Rattle.meta_journal.specs.Short.{Restores, short_bytes};
    ghost use Rattle.meta_journal.specs.declared.doubt.Doubt.TheVariants.{Nothing, OfArea};

    /// Fills the disk with zeros up to the other area. At most the room of one record is missing.
    pub(crate) fn reach_other(&mut self) -> Result<(), Failed>
        requires sound { IsSound self.old }
        requires settled { self.old.doubt ≡ Nothing }
        requires near { self.old.limit ≤ self.old.used + 128 }
        ensures same { IsSameJournal self.old self.new }
        ensures settled { self.new.doubt ≡ Nothing }
        ensures sound { IsSound self.new }
        ensures acknowledged { acknowledged self.new ≡ acknowledged self.old }
        ensures any_moment { LeavesOnly (HasRows self.old.limit (rows_of (acknowledged self.old)))
            (D.state self.old.disk) (D.state self.new.disk) }
        ensures reached { OnOk result (ForSome (D.state self.new.disk).content (λ bytes.
            start_of self.new.limit (other_area self.new.area) ≤ length bytes)) }
        ensures syncs { KeepsSyncs (D.state self.old.disk) (D.state self.new.disk) }
        ensures cause { HasCause (D.state self.old.disk).faults (D.state self.new.disk).faults result }
    {
        let start = area_start(self.limit, other_of(self.area));
        let end = self.disk.len()?;
        if end < start {
            let missing = (start - end).min(128) as usize;
            self.disk.write_at(end, &[0; 128][..missing])?;
        }
        Ok(())
    }

    /// Writes the short form into the other area, and goes over to it.
    pub(crate) fn go_over(&mut self, form: &[u8]) -> Result<(), Failed>
        requires sound { IsSound self.old }
        requires settled { self.old.doubt ≡ Nothing }
        requires form { IsSome (D.state self.old.disk).content → form.now ≡ short_bytes (rows_of (acknowledged self.old)) }
        requires restores { IsSome (D.state self.old.disk).content
            → Restores (rows_of (acknowledged self.old)) (short (rows_of (acknowledged self.old))) }
        requires some { 1 ≤ length form.now }
        requires room { 15 + length form.now < self.old.limit }
        requires reached { ForSome (D.state self.old.disk).content (λ bytes.
            start_of self.old.limit (other_area self.old.area) ≤ length bytes) }
        ensures sound { IsSound self.new }
        ensures same_rows { rows_of (acknowledged self.new) ≡ rows_of (acknowledged self.old) }
        ensures any_moment { LeavesOnly (HasRows self.old.limit (rows_of (acknowledged self.old)))
            (D.state self.old.disk) (D.state self.new.disk) }
        ensures limit { self.new.limit ≡ self.old.limit }
        ensures used { OnOk result (self.new.used ≡ 15 + length form.now) }
        ensures kept { OnErr result (self.new.used ≡ self.old.used) }
        ensures shortened { OnOk result (IsSome (D.state self.old.disk).content
            → acknowledged self.new ≡ short (rows_of (acknowledged self.old))) }
        ensures acknowledged { OnErr result (acknowledged self.new ≡ acknowledged self.old) }
        ensures settled { OnOk result (self.new.doubt ≡ Nothing) }
        ensures in_doubt { OnErr result ((self.new.doubt ≡ Nothing) ⊎ (self.new.doubt ≡ OfArea)) }
        ensures syncs { KeepsSyncs (D.state self.old.disk) (D.state self.new.disk) }
        ensures cause { HasCause (D.state self.old.disk).faults (D.state self.new.disk).faults result }
    {
        let other = other_of(self.area);
        write_synced(&mut self.disk, area_start(self.limit, other), form)?;
        self.doubt = Doubt::OfArea;
        write_synced(&mut self.disk, 8, &[byte_of(other)])?;
        self.doubt = Doubt::Nothing;
        self.area = other;
        self.used = 15 + form.len() as u64;
        Ok(())
    }

    /// Goes over to the other area, whose records then make the same rows.
    pub(crate) fn switch(&mut self, form: &[u8]) -> Result<(), Failed>
        requires sound { IsSound self.old }
        requires settled { self.old.doubt ≡ Nothing }
        requires near { self.old.limit ≤ self.old.used + 128 }
        requires form { IsSome (D.state self.old.disk).content → form.now ≡ short_bytes (rows_of (acknowledged self.old)) }
        requires restores { IsSome (D.state self.old.disk).content
            → Restores (rows_of (acknowledged self.old)) (short (rows_of (acknowledged self.old))) }
        requires some { 1 ≤ length form.now }
        requires room { 15 + length form.now < self.old.limit }
        ensures sound { IsSound self.new }
        ensures same_rows { rows_of (acknowledged self.new) ≡ rows_of (acknowledged self.old) }
        ensures any_moment { LeavesOnly (HasRows self.old.limit (rows_of (acknowledged self.old)))
            (D.state self.old.disk) (D.state self.new.disk) }
        ensures limit { self.new.limit ≡ self.old.limit }
        ensures used { OnOk result (self.new.used ≡ 15 + length form.now) }
        ensures kept { OnErr result (self.new.used ≡ self.old.used) }
        ensures shortened { OnOk result (IsSome (D.state self.old.disk).content
            → acknowledged self.new ≡ short (rows_of (acknowledged self.old))) }
        ensures acknowledged { OnErr result (acknowledged self.new ≡ acknowledged self.old) }
        ensures settled { OnOk result (self.new.doubt ≡ Nothing) }
        ensures in_doubt { OnErr result ((self.new.doubt ≡ Nothing) ⊎ (self.new.doubt ≡ OfArea)) }
        ensures syncs { KeepsSyncs (D.state self.old.disk) (D.state self.new.disk) }
        ensures cause { HasCause (D.state self.old.disk).faults (D.state self.new.disk).faults result }
    {
        self.reach_other()?;
        self.go_over(form)?;
        Ok(())
    }
}
