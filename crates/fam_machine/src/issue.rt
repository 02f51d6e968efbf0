//! The issue of calls.

ghost use Rattle.std.specs.Prelude.{◌≡◌, ◌<◌, true, false, IfOk, Some, None};
ghost use Rattle.fam_model.specs.Directory.{first_case};
ghost use Rattle.fam_model.specs.Issue as words;
ghost use Rattle.fam_model.specs.IssueStep as steps;
ghost use Rattle.fam_model.specs.Limits.{number_end};
ghost use Rattle.fam_model.specs.Lists.{when};
ghost use Rattle.fam_model.specs.Programs.{counted};
ghost use Rattle.fam_model.specs.Same.{same_reply};
ghost use Rattle.fam_model.specs.Shape.{is_shaped_data};
ghost use Rattle.fam_model.specs.declared.call.Call.TheVariants as call;
ghost use Rattle.fam_model.specs.declared.reply.Reply.TheVariants as reply;
ghost use Rattle.fam_program.specs.Steps.{is_no_data};
ghost use Rattle.fam_machine.specs.Effects.{Steps};
ghost use Rattle.fam_machine.specs.Issuing.{Decides, Knows, is_memory};
ghost use Rattle.fam_machine.specs.declared.issue.Decision.TheVariants as decision;
ghost use Rattle.fam_model.specs.declared.service.Service.{Service};

use crate::error::StepError;
use fam_base::{FamError, NoMemory};
use fam_layout::{Layout, Plan};
use fam_model::{Call, DataOp, Reply};
use fam_program::Program;
use std::alloc::Global;

/// What becomes of a data call.
#[derive(Drop)]
pub enum Decision {
    Refused(FamError),
    Accepted(Plan),
}

/// A refusal, but for want of memory.
fn refusal(error: FamError) -> Result<Decision, NoMemory>
    ensures value { IfOk result (λ made. made ≡ decision.Refused error) }
    ensures not_memory { IfOk result (λ made. is_memory error ≡ false) }
{
    match error {
        FamError::Memory => Err(NoMemory),
        _ => Ok(Decision::Refused(error)),
    }
}

/// Whether a data call is refused, or its plan.
fn decide(
    alloc: Global,
    layout: &Layout,
    program: &Program,
    context: u8,
    op: &DataOp,
) -> Result<Decision, NoMemory>
    requires { Knows program.now.state op.now }
    ensures { IfOk result (Decides layout.now program.now.state context op.now) }
{
    if !program.is_open(context) {
        return Ok(Decision::Refused(FamError::BadHandle));
    }
    let Some((from, to)) = program.targets(op) else {
        return Ok(Decision::Refused(FamError::BadHandle));
    };
    match fam_vector::plan(alloc, layout, op, from, to) {
        Err(error) => refusal(error),
        Ok(plan) => {
            if program.is_over_budget(op, plan.pieces.len() as u64) {
                Ok(Decision::Refused(FamError::Budget))
            } else {
                Ok(Decision::Accepted(plan))
            }
        }
    }
}

/// A refused call takes its number alone.
fn refuse(program: &mut Program, error: FamError, given: &Reply) -> Result<(), StepError>
    requires { program.old.state.next_call < number_end }
    ensures { Steps (when (same_reply given.now (reply.Error error)) (counted program.old.state)) 3 program.old program.new result }
{
    if *given == Reply::Error(error) {
        program.refuse();
        Ok(())
    } else {
        Err(StepError::Illegal(3))
    }
}

/// The issue of a data call.
pub fn issue_data(
    alloc: Global,
    layout: &Layout,
    program: &mut Program,
    context: u8,
    op: &DataOp,
    blocking: bool,
    given: &Reply,
) -> Result<(), StepError>
    requires number { program.old.state.next_call < number_end }
    requires known { Knows program.old.state op.now }
    requires shaped { is_shaped_data op.now blocking ≡ true }
    ensures { Steps (steps.issue_step layout.now program.old.state (call.Data context op.now blocking) given.now) 3 program.old program.new result }
{
    match decide(alloc, layout, program, context, op)? {
        Decision::Refused(error) => refuse(program, error, given),
        Decision::Accepted(plan) => {
            if *given != Reply::Issued {
                return Err(StepError::Illegal(3));
            }
            match program.issue(context, op, blocking, plan) {
                Ok(()) => Ok(()),
                Err(_) => Err(StepError::Memory),
            }
        }
    }
}

/// The issue of any other call: it is refused at once, or has no such event.
pub fn issue_other(program: &mut Program, asked: &Call, given: &Reply) -> Result<(), StepError>
    requires number { program.old.state.next_call < number_end }
    requires kind { is_no_data asked.now ≡ true }
    ensures { (service : Service) → Steps (steps.issue_step service program.old.state asked.now given.now) 3 program.old program.new result }
{
    match program.refusal(asked) {
        Some(error) => refuse(program, error, given),
        None => Err(StepError::Illegal(3)),
    }
}
