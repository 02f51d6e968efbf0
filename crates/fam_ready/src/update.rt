//! The lists after an event.

ghost use Rattle.std.specs.Prelude.{◌≡◌, OnOk, Some};
ghost use Rattle.fam_model.specs.declared.state.State.{State};
ghost use Rattle.fam_model.specs.Limits.{service_limits};
ghost use Rattle.fam_model.specs.Programs.{program_of};
ghost use Rattle.fam_model.specs.Step.{step};
ghost use Rattle.fam_ready.specs.Ready.{KeepsReady};
ghost use Rattle.fam_ready.specs.Telling.{Follows, FollowsIssue, FollowsPiece};

use crate::release::freed;
use crate::renew::{renew, renew_between, renew_operation};
use fam_base::NoMemory;
use fam_model::{Event, Reply, What};
use fam_program::Program;
use ready_lists::ReadyLists;

/// After the issue of a call: the pieces of its operation that may come are put in.
fn follow_issue(
    lists: &mut ReadyLists,
    pe: u32,
    program: &Program,
    call: u64,
) -> Result<(), NoMemory>
    ensures { OnOk result (FollowsIssue program.now.state pe call lists.old lists.new) }
{
    let Some(place) = program.context_of(call) else {
        return Ok(());
    };
    let Some(context) = program.context(place) else {
        return Ok(());
    };
    let Some(at) = context.place_of(call) else {
        return Ok(());
    };
    let operations = context.operations();
    renew_operation(lists, pe, context, &operations[at])
}

/// After a piece was answered or lost: it is taken out, the write of a copy's read may come, and so may the
/// operations that only this one's epoch held back.
fn follow_piece(
    lists: &mut ReadyLists,
    pe: u32,
    program: &Program,
    call: u64,
    piece: u32,
) -> Result<(), NoMemory>
    ensures { OnOk result (FollowsPiece program.now.state pe call piece lists.old lists.new) }
{
    let Some(place) = program.context_of(call) else {
        return Ok(());
    };
    let Some(context) = program.context(place) else {
        return Ok(());
    };
    let Some(at) = context.place_of(call) else {
        return Ok(());
    };
    let operations = context.operations();
    let operation = &operations[at];
    renew(lists, pe, context, operation, piece as usize)?;
    renew(lists, pe, context, operation, piece as usize + 1)?;
    let (from, to) = freed(context, operation.epoch);
    renew_between(lists, pe, context, from, to)
}

/// Asks again what the event may have changed.
fn ask_again(lists: &mut ReadyLists, program: &Program, event: &Event) -> Result<(), NoMemory>
    ensures { OnOk result (Follows event.now.what program.now.state event.now.pe.0 event.now.call lists.old lists.new) }
{
    let pe = event.pe.0;
    match &event.what {
        What::Issue {
            reply: Reply::Issued,
            ..
        } => follow_issue(lists, pe, program, event.call),
        What::Piece { piece, .. } => follow_piece(lists, pe, program, event.call, *piece),
        What::Lose { piece } => follow_piece(lists, pe, program, event.call, *piece),
        _ => Ok(()),
    }
}

/// Keeps the lists right over an event: `program` is the event's program after it. After want of memory nothing
/// is said of them.
///
/// Just the pieces are asked whose turn the event may have changed: those of an issued call, and of a piece that
/// came or was lost itself, the one after it, and the operations of the next epoch where the last of an epoch
/// was answered.
pub fn follow(lists: &mut ReadyLists, program: &Program, event: &Event) -> Result<(), NoMemory>
    ensures { OnOk result (KeepsReady event.now program.now.state lists.old lists.new) }
{
    ask_again(lists, program, event)
}
