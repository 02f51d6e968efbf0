//! The event that a step is for.

ghost use Rattle.std.specs.Prelude.{◌≡◌, false, IfOk};
ghost use Rattle.fam_model.specs.Programs.{program_of};
ghost use Rattle.fam_model.specs.Text.{is_crash};
ghost use Rattle.fam_turns.specs.Turns.{event_with};
ghost use Rattle.fam_steps.specs.Steps as steps;
ghost use Rattle.fam_steps.specs.declared.step.Step.TheVariants as asked;

use crate::step::Step;
use fam_base::{NoMemory, PeId, copy_of};
use fam_machine::Machine;
use fam_model::{Call, Event, Started, What};
use fam_turns::{may_act, next_what};
use std::alloc::Global;

/// Whether a program has something started.
fn has_started(machine: &Machine, pe: PeId) -> bool
    ensures { result ≡ steps.has_started machine.now pe.0 }
{
    match machine.program(pe.0) {
        Some(program) => !matches!(program.started(), Started::Nothing),
        None => false,
    }
}

/// The next event of a program, where this is its next call.
pub fn next_event(
    alloc: Global,
    machine: &Machine,
    pe: PeId,
    wanted: &Option<Call>,
) -> Result<Option<Event>, NoMemory>
    ensures { IfOk result (λ event. event ≡ event_with machine.now pe.0 wanted.now) }
{
    let layout = machine.layout();
    let Some(program) = machine.program(pe.0) else {
        return Ok(None);
    };
    if !may_act(program, machine.round(), wanted) {
        return Ok(None);
    }
    match next_what(alloc, layout, machine.rows(), program, wanted)? {
        Some(next) => Ok(Some(Event {
            pe,
            call: next.call,
            what: next.what,
        })),
        None => Ok(None),
    }
}

/// The crash of a program. It may come while something is started.
fn crash_event(machine: &Machine, pe: PeId) -> Option<Event>
    ensures { steps.IsFound machine.now (asked.Call pe steps.crash) result }
{
    let program = machine.program(pe.0)?;
    let call = program.next_call();
    if !program.is_in_turn(call, &What::Crash) {
        return None;
    }
    Some(Event {
        pe,
        call,
        what: What::Crash,
    })
}

/// The first event of a call that is no crash.
fn first_event(
    alloc: Global,
    machine: &Machine,
    pe: PeId,
    call: &Call,
) -> Result<Option<Event>, NoMemory>
    requires { is_crash call.now ≡ false }
    ensures { IfOk result (λ event. steps.IsFound machine.now (asked.Call pe call.now) event) }
{
    if has_started(machine, pe) {
        return Ok(None);
    }
    let wanted = Some(copy_of(call)?);
    next_event(alloc, machine, pe, &wanted)
}

/// The first event of a call.
fn call_event(
    alloc: Global,
    machine: &Machine,
    pe: PeId,
    call: &Call,
) -> Result<Option<Event>, NoMemory>
    ensures { IfOk result (λ event. steps.IsFound machine.now (asked.Call pe call.now) event) }
{
    match call {
        Call::Crash => Ok(crash_event(machine, pe)),
        _ => first_event(alloc, machine, pe, call),
    }
}

/// The answer of what a program has started.
fn answer_event(alloc: Global, machine: &Machine, pe: PeId) -> Result<Option<Event>, NoMemory>
    ensures { IfOk result (λ event. steps.IsFound machine.now (asked.Answer pe) event) }
{
    next_event(alloc, machine, pe, &None)
}

/// A piece, answered as it is due.
fn piece_event(
    machine: &Machine,
    pe: PeId,
    call: u64,
    piece: u32,
) -> Result<Option<Event>, NoMemory>
    ensures { IfOk result (λ event. steps.IsFound machine.now (asked.Piece pe call piece) event) }
{
    match machine.due_answer(pe.0, call, piece)? {
        Some(answer) => Ok(Some(Event {
            pe,
            call,
            what: What::Piece { piece, answer },
        })),
        None => Ok(None),
    }
}

/// The loss of a piece.
fn loss(machine: &Machine, pe: PeId, call: u64, piece: u32) -> Option<Event>
    ensures { steps.IsFound machine.now (asked.Lose pe call piece) result }
{
    let program = machine.program(pe.0)?;
    if !program.has_crashed() || !program.is_left(call, piece) {
        return None;
    }
    Some(Event {
        pe,
        call,
        what: What::Lose { piece },
    })
}

/// The event that a step is for. None exactly where no event of its shape may come.
pub fn due_event(alloc: Global, machine: &Machine, wanted: &Step) -> Result<Option<Event>, NoMemory>
    ensures { IfOk result (λ event. steps.IsFound machine.now wanted.now event) }
{
    match wanted {
        Step::Call { pe, call } => call_event(alloc, machine, *pe, call),
        Step::Answer { pe } => answer_event(alloc, machine, *pe),
        Step::Piece { pe, call, piece } => piece_event(machine, *pe, *call, *piece),
        Step::Lose { pe, call, piece } => Ok(loss(machine, *pe, *call, *piece)),
    }
}
