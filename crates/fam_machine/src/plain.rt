//! Events that change one program alone.

ghost use Rattle.std.specs.Prelude.{◌≡◌, ◌<◌, true, length, IsTrue};
ghost use Rattle.fam_model.specs.ContextStep as steps;
ghost use Rattle.fam_model.specs.IssueStep.{issue_step};
ghost use Rattle.fam_model.specs.Limits.{number_end};
ghost use Rattle.fam_model.specs.Lists.{is_some_and};
ghost use Rattle.fam_model.specs.PieceStep.{lose_step};
ghost use Rattle.fam_model.specs.Rows.{IsLawful};
ghost use Rattle.fam_model.specs.Rules as rules_of_events;
ghost use Rattle.fam_model.specs.Shape.{is_shaped};
ghost use Rattle.fam_model.specs.Turn as turns;
ghost use Rattle.fam_machine.specs.Effects.{Steps, Takes};
ghost use Rattle.fam_machine.specs.Sound.{HoldsSound, IsSound};
ghost use Rattle.fam_machine.specs.Views as views;
ghost use Rattle.fam_machine.specs.Views.{state_of, turn_at, effect_at, rule_at, is_plain, makes_call};

use crate::contexts::{fence, open};
use crate::error::StepError;
use crate::issue::{issue_data, issue_other};
use crate::parts::Parts;
use crate::refused::refused;
use fam_directory::IndexedRows;
use fam_layout::Layout;
use fam_model::{Call, Reply, Started, What};
use fam_program::Program;
use std::alloc::Global;

/// A quiet.
pub fn quiet(program: &mut Program, context: u8, given: &Reply) -> Result<(), StepError>
    requires number { program.old.state.next_call < number_end }
    requires idle { IsTrue (turns.is_idle program.old.state.started) }
    ensures { Steps (steps.quiet_step program.old.state context given.now) 8 program.old program.new result }
{
    if program.quiet_with(context, given) {
        Ok(())
    } else {
        Err(StepError::Illegal(8))
    }
}

/// Closes a context.
pub fn close(program: &mut Program, context: u8, given: &Reply) -> Result<(), StepError>
    requires number { program.old.state.next_call < number_end }
    requires idle { IsTrue (turns.is_idle program.old.state.started) }
    ensures { Steps (steps.close_step program.old.state context given.now) 8 program.old program.new result }
{
    if program.close_with(context, given) {
        Ok(())
    } else {
        Err(StepError::Illegal(8))
    }
}

/// A piece of a crashed program is lost.
pub fn lose(program: &mut Program, call: u64, piece: u32) -> Result<(), StepError>
    ensures { Steps (lose_step program.old.state call piece) 11 program.old program.new result }
{
    if program.has_crashed() && program.is_left(call, piece) {
        program.lose(call, piece);
        Ok(())
    } else {
        Err(StepError::Illegal(11))
    }
}

/// Waits for a copy.
pub fn wait(program: &mut Program, context: u8, named: u64, given: &Reply) -> Result<(), StepError>
    requires number { program.old.state.next_call < number_end }
    requires idle { IsTrue (turns.is_idle program.old.state.started) }
    ensures { Steps (steps.wait_step program.old.state context named given.now) 9 program.old program.new result }
{
    if program.wait_with(context, named, given) {
        Ok(())
    } else {
        Err(StepError::Illegal(9))
    }
}

/// The rule that stands over answers: those of barriers have one of their own.
fn answer_rule(started: Started) -> u8
    ensures { result ≡ rules_of_events.answer_rule started }
{
    match started {
        Started::Barrier { .. } => 10,
        _ => 6,
    }
}

/// An answer.
pub fn answer(program: &mut Program, round: u64, given: &Reply) -> Result<(), StepError>
    ensures { Steps (steps.answer_step program.old.state.started round program.old.state given.now) (rules_of_events.answer_rule program.old.state.started) program.old program.new result }
{
    let rule = answer_rule(program.started());
    if program.answer_with(round, given) {
        Ok(())
    } else {
        Err(StepError::Illegal(rule))
    }
}

/// The issue of a call.
fn issue(
    alloc: Global,
    layout: &Layout,
    rows: &IndexedRows,
    program: &mut Program,
    asked: &Call,
    given: &Reply,
) -> Result<(), StepError>
    requires number { program.old.state.next_call < number_end }
    requires shaped { is_shaped asked.now ≡ true }
    requires holds { HoldsSound rows.now program.old.state }
    ensures { Steps (issue_step layout.now program.old.state asked.now given.now) 3 program.old program.new result }
{
    match asked {
        Call::Data {
            context,
            op,
            blocking,
        } => issue_data(alloc, layout, program, *context, op, *blocking, given),
        _ => issue_other(program, asked, given),
    }
}

/// The step of an event that changes one program alone.
pub fn plain_step(
    alloc: Global,
    layout: &Layout,
    rows: &IndexedRows,
    round: u64,
    program: &mut Program,
    call: u64,
    what: &What,
) -> Result<(), StepError>
    requires lawful { IsLawful rows.now }
    requires kind { is_plain what.now ≡ true }
    requires number { makes_call what.now ≡ true → program.old.state.next_call < number_end }
    requires idle { makes_call what.now ≡ true → IsTrue (turns.is_idle program.old.state.started) }
    requires shaped { makes_call what.now ≡ true → is_some_and (turns.call_made what.now) is_shaped ≡ true }
    requires holds { HoldsSound rows.now program.old.state }
    ensures { Steps (views.plain_step layout.now rows.now round program.old.state call what.now) (rules_of_events.rule_of program.old.state call what.now) program.old program.new result }
{
    match what {
        What::Issue { call: asked, reply } => issue(alloc, layout, rows, program, asked, reply),
        What::Answer { reply } => answer(program, round, reply),
        What::OpenContext { context } => open(program, *context),
        What::CloseContext { context, reply } => close(program, *context, reply),
        What::Fence { context } => fence(program, *context),
        What::Quiet { context, reply } => quiet(program, *context, reply),
        What::Wait {
            context,
            named,
            reply,
        } => wait(program, *context, *named, reply),
        What::Lose { piece } => lose(program, call, *piece),
        What::Refused {
            call: asked,
            error,
            doubt,
        } => refused(alloc, rows, round, program, asked, *error, *doubt),
        _ => unreachable!(),
    }
}

/// An event that changes one program alone.
pub fn plain(
    alloc: Global,
    parts: &mut Parts,
    pe: usize,
    call: u64,
    what: &What,
) -> Result<(), StepError>
    requires there { pe < length parts.old.programs }
    requires sound { IsSound (state_of parts.old) }
    requires turn { IsTrue (turn_at (state_of parts.old) pe call what.now) }
    requires kind { is_plain what.now ≡ true }
    ensures { Takes (effect_at (state_of parts.old) pe call what.now) (rule_at (state_of parts.old) pe call what.now) parts.old parts.new result }
{
    plain_step(
        alloc,
        &parts.layout,
        &parts.rows,
        parts.round,
        parts.programs.at_mut(pe),
        call,
        what,
    )
}
