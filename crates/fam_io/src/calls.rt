//! Calls that are counted, and which of them fail.

ghost use Rattle.std.specs.Prelude.{◌≡◌, ◌≤◌};
ghost use Rattle.fam_base.specs.Causes.{Rose};
ghost use Rattle.fam_io.specs.Calls.{next_number, fails_next};

use fam_base::{Failed, Places};

/// The calls of one kind: which fail, how many were made, and how many failed.
#[derive(Debug, Drop)]
pub(crate) struct Calls {
    pub(crate) failing: Places,
    pub(crate) made: u64,
    pub(crate) faults: u64,
}

impl Calls {
    /// No call yet. Those that the list numbers are to fail, counted from 1.
    pub(crate) fn new(failing: Places) -> Calls
        ensures { result ≡ record { failing = failing; made = 0; faults = 0 } }
    {
        Calls {
            failing,
            made: 0,
            faults: 0,
        }
    }

    /// Counts one more call, and says whether it is to fail.
    pub(crate) fn fails_next(&mut self) -> bool
        ensures fails { result ≡ fails_next self.old.failing self.old.made }
        ensures counted { self.new ≡ record self.old { made = next_number self.old.made } }
        ensures faults { self.new.faults ≡ self.old.faults }
    {
        self.made = self.made.saturating_add(1);
        let made = self.made;
        self.failing.as_slice().iter().any(|call| *call == made)
    }

    /// Counts one more fault.
    pub(crate) fn fault(&mut self) -> Failed
        ensures counted { self.new ≡ record self.old { faults = next_number self.old.faults } }
        ensures later { self.old.faults ≤ self.new.faults }
        ensures rose { Rose self.old.faults self.new.faults }
    {
        self.faults = self.faults.saturating_add(1);
        Failed
    }
}
