//! The keeper.

ghost use Rattle.std.specs.Prelude.{◌≡◌, Some, None, true, false, IsTrue};
ghost use Rattle.std.specs.Option.{option_map};
ghost use Rattle.fam_model.specs.Lawful.{is_lawful_change};

use crate::appending::append;
use crate::kept::Kept;
use fam_base::NoMemory;
use fam_directory::IndexedRows;
use fam_disk::Disk;
use fam_model::Change;
use meta_journal::Journal;

/// A journal on a disk, or none: then changes end with the run.
#[derive(Drop)]
pub struct Keeper<D: Disk> {
    pub(crate) journal: Option<Journal<D>>,
    /// Memory was wanting behind a change that was kept, so the service may lack it.
    pub(crate) stopped: bool,
}

impl<D: Disk> Keeper<D> {
    ghost use Rattle.fam_keeper.specs.Keeping as keeping;
    ghost use Rattle.fam_model.specs.declared.rows.Rows.{Rows};

    /// Keeps nothing.
    pub fn nothing() -> Keeper<D>
        ensures journal { result.journal ≡ None }
        ensures goes_on { result.stopped ≡ false }
    {
        Keeper {
            journal: None,
            stopped: false,
        }
    }

    /// Keeps changes in a journal.
    pub fn of(journal: Journal<D>) -> Keeper<D>
        ensures journal { result.journal ≡ Some journal }
        ensures goes_on { result.stopped ≡ false }
    {
        Keeper {
            journal: Some(journal),
            stopped: false,
        }
    }

    /// Whether nothing more is kept.
    pub fn is_stopped(&self) -> bool
        ensures { result ≡ self.now.stopped }
    {
        self.stopped
    }

    /// Keeps nothing more: memory was wanting behind a change that was kept.
    pub fn stop(&mut self)
        ensures journal { self.new.journal ≡ self.old.journal }
        ensures stopped { self.new.stopped ≡ true }
    {
        self.stopped = true;
    }

    /// Keeps a lawful change of these rows. From `Served` on each crash leaves it.
    pub fn keep(&mut self, rows: &IndexedRows, change: &Change) -> Result<Kept, NoMemory>
        requires kept { keeping.HasKeptIn self.old.journal rows.now }
        requires goes_on { self.old.stopped ≡ false }
        requires lawful_change { IsTrue (is_lawful_change rows.now change.now) }
        ensures { keeping.IsTaken rows.now change.now self.old self.new result }
    {
        match &mut self.journal {
            None => Ok(Kept::Served),
            Some(journal) => append(journal, rows, change),
        }
    }

    /// A crash leaves what was kept, or this and the change in doubt. Says so, and does nothing.
    pub fn leaves_what_was_kept(&self)
        ensures { (rows : Rows) → keeping.HasKeptIn self.now.journal rows → keeping.LeavesRows (keeping.IsInDoubt rows (keeping.doubt_of self.now)) self.now self.now }
    {}

    /// Closes what is in doubt, so that each crash leaves what was kept alone. Where the disk fails the doubt stays.
    pub fn settle(&mut self)
        requires { (rows : Rows) × keeping.HasKeptIn self.old.journal rows }
        ensures { (rows : Rows) → keeping.HasKeptIn self.old.journal rows → keeping.IsSettled rows self.old self.new }
    {
        match &mut self.journal {
            None => {}
            Some(journal) => {
                let _settled = journal.settle();
            }
        }
    }

    /// Gives the disk back, if there is one.
    pub fn close(self) -> Option<D>
        ensures { result ≡ option_map (λ journal. journal.disk) self.journal }
    {
        match self.journal {
            Some(journal) => Some(journal.close()),
            None => None,
        }
    }
}
