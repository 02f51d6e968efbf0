//! Laws of the schedule, each the contract of a function that does nothing.

ghost use Rattle.fam_schedule.specs.Laws.{ScheduledHistoriesAreRuns, UnrefusedEventsAreDue, StopsWhereNobodyMayAct, WholeRunsHaveEnded};
ghost use Rattle.fam_schedule.specs.Worked.{PiecesComeInAnyOrder, FencesOrder, ContextsReply, CrashesHappen};

/// A history that the schedule gives is one legal run of its script, over a disk that failed at least as often as it
/// refused a change.
pub fn scheduled_histories_are_runs()
    ensures { ScheduledHistoriesAreRuns }
{}

/// Where the disk refused nothing, each event is the one that is due.
pub fn unrefused_events_are_due()
    ensures { UnrefusedEventsAreDue }
{}

/// The schedule stops only where nobody may act.
pub fn stops_where_nobody_may_act()
    ensures { StopsWhereNobodyMayAct }
{}

/// Where the schedule of a lawful script stops, every program has left or crashed, and no piece is left.
pub fn whole_runs_have_ended()
    ensures { WholeRunsHaveEnded }
{}

/// Pieces of calls that nothing orders come in any order.
pub fn pieces_come_in_any_order()
    ensures { PiecesComeInAnyOrder }
{}

/// Pieces behind a fence come after those before it.
pub fn fences_order()
    ensures { FencesOrder }
{}

/// What calls on contexts and copies are answered.
pub fn contexts_reply()
    ensures { ContextsReply }
{}

/// What becomes of a program that crashes, and of those that wait at the barrier.
pub fn crashes_happen()
    ensures { CrashesHappen }
{}
