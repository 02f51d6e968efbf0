//! Laws of tidy states, each the contract of a function that does nothing.

ghost use Rattle.fam_ready.specs.Laws.{OpenedListsAreEmpty, OpenedStatesAreTidy, StepsKeepStatesTidy};

/// The state in which a run begins is tidy.
pub fn opened_states_are_tidy()
    ensures { OpenedStatesAreTidy }
{}

/// A step leads from a tidy state to a tidy one.
pub fn steps_keep_states_tidy()
    ensures { StepsKeepStatesTidy }
{}

/// In the state in which a run begins no piece may come.
pub fn opened_lists_are_empty()
    ensures { OpenedListsAreEmpty }
{}
