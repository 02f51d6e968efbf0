//! The next event of a program.

ghost use Rattle.std.specs.Prelude.{◌≡◌, Some, IfOk};
ghost use Rattle.std.specs.Option.{option_map};
ghost use Rattle.fam_machine.specs.Sound.{HoldsSound};
ghost use Rattle.fam_model.specs.Operations as operations;
ghost use Rattle.fam_model.specs.Programs as programs;
ghost use Rattle.fam_model.specs.declared.call.Call.TheVariants as call;
ghost use Rattle.fam_model.specs.declared.event.What.TheVariants as what;
ghost use Rattle.fam_model.specs.declared.state.Started.TheVariants as begun;
ghost use Rattle.fam_schedule.specs.Schedule.{begins, first_event};
ghost use Rattle.fam_turns.specs.Turns as words;

use crate::asking::meta_reply;
use crate::refusing::refusal;
use crate::telling::{copy_result, report_of, result_of};
use fam_base::{NoMemory, copy_of};
use fam_directory::IndexedRows;
use fam_layout::Layout;
use fam_model::{Call, MetaCall, Reply, Started, What};
use fam_program::Program;
use std::alloc::Global;

/// What of an event is the program's own: its call's number, and what happens.
#[derive(Drop)]
pub struct Next {
    pub call: u64,
    pub what: What,
}

/// The issue of a call with this reply.
fn issue(asked: &Call, reply: Reply) -> Result<What, NoMemory>
    ensures { IfOk result (λ made. made ≡ what.Issue asked.now reply) }
{
    let call = copy_of(asked)?;
    Ok(What::Issue { call, reply })
}

/// The event by which a call on the directory begins.
#[tactic(auto, using(crate::proofs::Replying::meta_begins))]
fn ask(
    alloc: Global,
    rows: &IndexedRows,
    program: &Program,
    asked: &MetaCall,
) -> Result<Option<What>, NoMemory>
    ensures { IfOk result (λ made. made ≡ begins rows.now program.now.state (call.Meta asked.now)) }
{
    match meta_reply(alloc, rows, program, asked)? {
        Some(reply) => {
            let call = copy_of(asked)?;
            Ok(Some(What::Meta { call, reply }))
        }
        None => Ok(None),
    }
}

/// The event by which a call begins that is not refused at once.
fn begins(
    alloc: Global,
    rows: &IndexedRows,
    program: &Program,
    asked: &Call,
) -> Result<Option<What>, NoMemory>
    ensures { IfOk result (λ made. made ≡ begins rows.now program.now.state asked.now) }
{
    match asked {
        Call::Meta(asked) => ask(alloc, rows, program, asked),
        Call::Data { .. } => Ok(Some(issue(asked, Reply::Issued)?)),
        Call::OpenContext { context } => Ok(Some(What::OpenContext { context: *context })),
        Call::CloseContext { context } => close(program, *context),
        Call::CopyWait { context, call } => wait(program, *context, *call),
        Call::Fence { context } => Ok(Some(What::Fence { context: *context })),
        Call::Quiet { context } => quiet(program, *context),
        Call::Barrier => Ok(Some(What::Arrive)),
        Call::Leave => Ok(Some(What::Leave)),
        Call::Crash => Ok(Some(What::Crash)),
    }
}

/// The closing of a context with its report; none where it is not open.
fn close(program: &Program, context: u8) -> Result<Option<What>, NoMemory>
    ensures { IfOk result (λ made. made ≡ option_map (λ there. what.CloseContext context (operations.report there)) (programs.open_context program.now.state context)) }
{
    match report_of(program, context)? {
        Some(reply) => Ok(Some(What::CloseContext { context, reply })),
        None => Ok(None),
    }
}

/// A quiet of a context with its report; none where it is not open.
fn quiet(program: &Program, context: u8) -> Result<Option<What>, NoMemory>
    ensures { IfOk result (λ made. made ≡ option_map (λ there. what.Quiet context (operations.report there)) (programs.open_context program.now.state context)) }
{
    match report_of(program, context)? {
        Some(reply) => Ok(Some(What::Quiet { context, reply })),
        None => Ok(None),
    }
}

/// The wait for a copy with its result; none where there is no such copy.
fn wait(program: &Program, context: u8, named: u64) -> Result<Option<What>, NoMemory>
    ensures { IfOk result (λ made. made ≡ option_map (λ operation. what.Wait context named (operations.result operation)) (programs.unreported_copy program.now.state context named)) }
{
    match copy_result(program, context, named)? {
        Some(reply) => Ok(Some(What::Wait {
            context,
            named,
            reply,
        })),
        None => Ok(None),
    }
}

/// The first event of a call: it is refused at once, or it begins.
fn first_event(
    alloc: Global,
    layout: &Layout,
    rows: &IndexedRows,
    program: &Program,
    asked: &Call,
) -> Result<Option<What>, NoMemory>
    requires { HoldsSound rows.now program.now.state }
    ensures { IfOk result (λ made. made ≡ first_event layout.now rows.now program.now.state asked.now) }
{
    match refusal(alloc, layout, rows, program, asked)? {
        Some(error) => Ok(Some(issue(asked, Reply::Error(error))?)),
        None => begins(alloc, rows, program, asked),
    }
}

/// What happens next, where nothing is started.
fn next_call(
    alloc: Global,
    layout: &Layout,
    rows: &IndexedRows,
    program: &Program,
    asked: &Call,
) -> Result<Option<Next>, NoMemory>
    requires { HoldsSound rows.now program.now.state }
    ensures { IfOk result (λ next. next ≡ words.next_by layout.now rows.now program.now.state begun.Nothing (Some asked.now)) }
{
    match first_event(alloc, layout, rows, program, asked)? {
        Some(what) => Ok(Some(Next {
            call: program.next_call(),
            what,
        })),
        None => Ok(None),
    }
}

/// The answer of a call.
fn answer(call: u64, reply: Reply) -> Next
    ensures { result ≡ words.answer_of call reply }
{
    Next {
        call,
        what: What::Answer { reply },
    }
}

/// What a program does next, if this is the next call of its text, whether or not it may come now: it is the
/// answer of what is started, or else the first event of the call. None where there is neither.
pub fn next_what(
    alloc: Global,
    layout: &Layout,
    rows: &IndexedRows,
    program: &Program,
    asked: &Option<Call>,
) -> Result<Option<Next>, NoMemory>
    requires { HoldsSound rows.now program.now.state }
    ensures { IfOk result (λ next. next ≡ words.next_of layout.now rows.now program.now.state asked.now) }
{
    match program.started() {
        Started::Nothing => match asked {
            Some(asked) => next_call(alloc, layout, rows, program, asked),
            None => Ok(None),
        },
        Started::Operation { call } => match result_of(program, call)? {
            Some(reply) => Ok(Some(answer(call, reply))),
            None => Ok(None),
        },
        Started::Barrier { call } => Ok(Some(answer(call, Reply::Passed))),
    }
}
