//! What next events are, as the contract of a function that does nothing.

ghost use Rattle.fam_turns.specs.Turns.{IsScheduledEvent};

/// The next event of a program is that of its schedule, where the call is the next one of its text.
pub fn next_events_are_scheduled()
    ensures { IsScheduledEvent }
{}
