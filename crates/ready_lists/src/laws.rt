//! Laws of the lists, each the contract of a function that does nothing.

ghost use Rattle.ready_lists.specs.Laws.{ReadyListsAreSorted, SortedListsAreReady};

/// The schedule's list for a stripe is in order, and has just the pieces that may come there.
pub fn ready_lists_are_sorted()
    ensures { ReadyListsAreSorted }
{}

/// A list in order of just the pieces that may come on a stripe is the schedule's list.
pub fn sorted_lists_are_ready()
    ensures { SortedListsAreReady }
{}
