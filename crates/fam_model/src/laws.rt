//! Laws of the definitions, each the contract of a function that does nothing.

ghost use Rattle.fam_model.specs.Laws.{RulesAreSteps, HistoriesGoOn, TestsAreEquality, PartsAreWhole, CutsAreExact};
ghost use Rattle.fam_model.specs.Examples.{AtomicExamples, LayoutExamples, BudgetExamples, JournalExamples, ServedExamples, PartExamples, ProgramExamples};
ghost use Rattle.fam_model.specs.NearMisses.{NearMissesBreakRules};
ghost use Rattle.fam_model.specs.Worked.{WorkedHistoriesAreLegal};

/// An event breaks a rule exactly where it has no next state.
pub fn rules_are_steps()
    ensures { RulesAreSteps }
{}

/// A history goes on from where its front leads.
pub fn histories_go_on()
    ensures { HistoriesGoOn }
{}

/// Calls, replies and answers that are taken for the same are the same.
pub fn tests_are_equality()
    ensures { TestsAreEquality }
{}

/// The parts of a history are all of it, and a history whose refusals are earned is legal.
pub fn parts_are_whole()
    ensures { PartsAreWhole }
{}

/// Parts cover their range once, in order, and meet exactly where units begin.
pub fn cuts_are_exact()
    ensures { CutsAreExact }
{}

/// Histories that show what the machine may do.
pub fn worked_histories_are_legal()
    ensures { WorkedHistoriesAreLegal }
{}

/// Histories that show what the machine may not do, and the rules that they break.
pub fn near_misses_break_rules()
    ensures { NearMissesBreakRules }
{}

/// New values of atomics.
pub fn atomic_examples()
    ensures { AtomicExamples }
{}

/// How ranges are cut, where they lie, and what room they take.
pub fn layout_examples()
    ensures { LayoutExamples }
{}

/// Where a budget ends.
pub fn budget_examples()
    ensures { BudgetExamples }
{}

/// Lengths of records, and the shortest journal of rows.
pub fn journal_examples()
    ensures { JournalExamples }
{}

/// The changes of a history.
pub fn served_examples()
    ensures { ServedExamples }
{}

/// Where a history is cut, and which refusals are earned.
pub fn part_examples()
    ensures { PartExamples }
{}

/// The next calls of programs.
pub fn program_examples()
    ensures { ProgramExamples }
{}
