//! Calls that are counted, and which of them fail.

ghost use Rattle.std.specs.Prelude.{◌≡◌};
ghost use Rattle.fam_disk.specs.Calls.{counted, fails_next};

use fam_base::Places;

/// The calls of one kind: which are to fail, counted from 1, and how many were made.
#[derive(Debug, Drop)]
pub(crate) struct Calls {
    pub(crate) failing: Places,
    pub(crate) made: u64,
}

impl Calls {
    /// No call yet.
    pub(crate) fn new(failing: Places) -> Calls
        ensures { result ≡ record { failing = failing; made = 0 } }
    {
        Calls { failing, made: 0 }
    }

    /// Counts one more call, and says whether it is to fail.
    pub(crate) fn fails_next(&mut self) -> bool
        ensures fails { result ≡ fails_next self.old }
        ensures counted { self.new ≡ counted self.old }
    {
        self.made = self.made.saturating_add(1);
        let made = self.made;
        self.failing.as_slice().iter().any(|call| *call == made)
    }
}

/// The calls of each kind.
#[derive(Debug, Drop)]
pub(crate) struct AllCalls {
    pub(crate) reads: Calls,
    pub(crate) writes: Calls,
    pub(crate) syncs: Calls,
}
