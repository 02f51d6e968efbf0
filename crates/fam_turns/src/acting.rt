//! Whether the next event of a program may come.

ghost use Rattle.std.specs.Prelude.{◌≡◌, ◌&&◌, true};
ghost use Rattle.fam_model.specs.Programs as programs;
ghost use Rattle.fam_model.specs.Shape.{is_shaped};
ghost use Rattle.fam_model.specs.Turn as turns;
ghost use Rattle.fam_model.specs.declared.state.Started.TheVariants as begun;
ghost use Rattle.fam_turns.specs.Turns as words;

use crate::telling::{has_none_left, open_context};
use fam_model::{Call, Reply, Started, What};
use fam_program::Program;

/// Whether the program runs, where this call is started: an answer of it stands in its turn then.
fn is_running(program: &Program, call: u64) -> bool
    requires { turns.answers_started program.now.state.started call ≡ true }
    ensures { result ≡ programs.is_running program.now.state.standing }
{
    let reply = Reply::Passed;
    program.is_in_turn(call, &What::Answer { reply })
}

/// Whether a running program with nothing started has a number for this call, and it is well-formed.
fn may_make(program: &Program, call: &Call) -> bool
    requires { program.now.state.started ≡ begun.Nothing }
    ensures { result ≡ (programs.is_running program.now.state.standing && (turns.is_next program.now.state program.now.state.next_call && is_shaped call.now)) }
{
    program.is_in_turn(program.next_call(), &What::Leave) && call.shaped()
}

/// Whether the context is open, and some piece of it is left.
fn is_busy(program: &Program, context: u8) -> bool
    ensures { result ≡ words.is_busy program.now.state context }
{
    match open_context(program, context) {
        Some(there) => there.is_pending(),
        None => false,
    }
}

/// Whether the context is open and has a copy of that call that was not reported, of which some piece is left.
#[tactic(auto, using(crate::proofs::Contexts::copying_is))]
fn is_copying(program: &Program, context: u8, named: u64) -> bool
    ensures { result ≡ words.is_copying program.now.state context named }
{
    if !program.has_copy(context, named) {
        return false;
    }
    match open_context(program, context) {
        Some(there) => !has_none_left(there, named),
        None => false,
    }
}

/// Whether the first event of a call may come at its turn. A refusal may always come, since it is an event too.
fn may_begin(program: &Program, round: u64, call: &Call) -> bool
    ensures { result ≡ words.may_begin round program.now.state call.now }
{
    match call {
        Call::CloseContext { context } => *context == 0 || !is_busy(program, *context),
        Call::CopyWait { context, call } => !is_copying(program, *context, *call),
        Call::Quiet { context } => !is_busy(program, *context),
        Call::Barrier => program.may_arrive(round),
        Call::Leave => !program.has_pending(),
        _ => true,
    }
}

/// Whether no piece is left of the started operation.
#[tactic(auto, using(crate::proofs::Contexts::finish_is))]
fn may_finish(program: &Program, call: u64) -> bool
    requires { program.now.state.started ≡ begun.Operation call }
    ensures { result ≡ words.may_finish program.now.state call }
{
    // With the user comes what holds of the program: the started operation was not told.
    let _who = program.who();
    let Some(at) = program.context_of(call) else {
        return false;
    };
    match program.context(at) {
        Some(there) => has_none_left(there, call),
        None => false,
    }
}

/// Whether what is started may be answered, or else the call may be made and begin.
fn is_able(program: &Program, round: u64, asked: &Option<Call>) -> bool
    ensures { result ≡ words.may_act round program.now.state asked.now }
{
    match program.started() {
        Started::Nothing => match asked {
            Some(call) => may_make(program, call) && may_begin(program, round, call),
            None => false,
        },
        Started::Operation { call } => is_running(program, call) && may_finish(program, call),
        Started::Barrier { call } => is_running(program, call) && program.has_passed(round),
    }
}

/// Whether the next event of a program may come now, if this is the next call of its text: the answer of what is
/// started, or else the first event of the call. No event is made for this, and no plan.
pub fn may_act(program: &Program, round: u64, asked: &Option<Call>) -> bool
    ensures value { result ≡ words.may_act round program.now.state asked.now }
    ensures event { words.TellsEvent round program.now.state asked.now result }
{
    is_able(program, round, asked)
}
