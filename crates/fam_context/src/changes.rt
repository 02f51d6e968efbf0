//! How calls change an operation and the flags of its pieces.

ghost use Rattle.std.specs.Prelude.{◌≡◌, ◌<◌, ◌≤◌, ◌^◌, ◌++◌, ◌∷◌, ◌||◌, [], false, IsFalse, length, map, take, replicate, slice_get, IsTrue, IfOk, OnOk, OnErr};
ghost use Rattle.fam_model.specs.IssueStep.{left_piece};
ghost use Rattle.fam_model.specs.Lists.{is_some_and, change_place};
ghost use Rattle.fam_model.specs.PieceStep.{is_copy_read};
ghost use Rattle.fam_context.specs.Effects.{handed_over, may_answer, with_bytes, with_pieces, planned_operation, with_collected, with_lost, with_one_more};
ghost use Rattle.fam_context.specs.Sides.{AreTold, IsSideOf, IsFresh, held_only, told_side};
ghost use Rattle.fam_model.specs.Operations as operations;
ghost use Rattle.fam_model.specs.Operations.{as_reported, is_copy};

use crate::results::reply;
use crate::side::{Side, room_for, set_flag, set_mark};
use crate::tracked::Pending;
use crate::words::is_copy_read;
use fam_base::{Bytes, NoMemory, Sequence};
use fam_layout::Plan;
use fam_model::{Context, Mark, MarkedPiece, Operation, PieceAnswer, PlanPiece, Reply};
use std::alloc::Global;

/// These pieces, all left.
pub(crate) fn all_left(
    alloc: Global,
    pieces: Sequence<PlanPiece>,
) -> Result<Sequence<MarkedPiece>, NoMemory>
    ensures { IfOk result (λ left. left ≡ map left_piece pieces) }
{
    let left = pieces.into_vec().into_iter().map(|piece| MarkedPiece {
        piece,
        mark: Mark::Left,
    });
    match left.collect(alloc) {
        Ok(items) => Ok(Sequence::from_vec(items)),
        Err(_) => Err(NoMemory),
    }
}

/// So many pieces, none of them out.
pub(crate) fn none_out(alloc: Global, count: usize) -> Result<Sequence<bool>, NoMemory>
    ensures { IfOk result (λ flags. flags ≡ replicate count false) }
{
    match vec![in alloc; false; count] {
        Ok(items) => Ok(Sequence::from_vec(items)),
        Err(_) => Err(NoMemory),
    }
}

/// Other bytes for a piece, if it is there.
fn give(operation: &mut Operation, side: &Side, j: usize, bytes: Bytes)
    requires { IsSideOf operation.old side.now }
    ensures operation { operation.new ≡ with_bytes j bytes operation.old }
    ensures kept { IsSideOf operation.new side.now }
{
    if j < operation.pieces.len() {
        operation.pieces.at_mut(j).piece.bytes = bytes;
    }
}

/// The read of a copy is answered: the write after it has its bytes, or is gone.
fn hand_over(
    alloc: Global,
    operation: &mut Operation,
    side: &mut Side,
    j: usize,
    answer: PieceAnswer,
)
    requires kept { IsSideOf operation.old side.old }
    requires number { j < 2 ^ 32 }
    ensures operation { operation.new ≡ with_pieces (handed_over j answer) operation.old }
    ensures flags { side.new.flags ≡ side.old.flags }
    ensures kept { IsSideOf operation.new side.new }
{
    match answer {
        PieceAnswer::Ok => {
            set_mark(operation, side, j, Mark::Answered(PieceAnswer::Ok));
            give(operation, side, j + 1, Bytes::new(alloc));
        }
        PieceAnswer::Data(bytes) => {
            set_mark(operation, side, j, Mark::Answered(PieceAnswer::Ok));
            give(operation, side, j + 1, bytes);
        }
        PieceAnswer::Refused(error) => {
            set_mark(
                operation,
                side,
                j,
                Mark::Answered(PieceAnswer::Refused(error)),
            );
            let write = j + 1;
            set_mark(operation, side, write, Mark::Gone);
        }
    }
}

/// Whether the piece is there and is the read of a copy.
fn reads_for_a_write(operation: &Operation, j: usize) -> bool
    ensures { result ≡ is_some_and (slice_get operation.now.pieces j) (λ p. is_copy_read operation.now p.piece) }
{
    match operation.pieces.get(j) {
        Some(marked) => is_copy_read(operation.kind, marked.piece.kind),
        None => false,
    }
}

/// Piece `j` is answered, if it is there, and not out. The bytes of a copy's read go to its write.
pub(crate) fn collect(
    alloc: Global,
    operation: &mut Operation,
    side: &mut Side,
    j: usize,
    answer: PieceAnswer,
)
    requires kept { IsSideOf operation.old side.old }
    requires number { j < 2 ^ 32 }
    requires answer { IsTrue (may_answer operation.old j answer) }
    ensures operation { operation.new ≡ with_collected operation.old j answer }
    ensures flags { side.new.flags ≡ change_place j (λ _. false) side.old.flags }
    ensures kept { IsSideOf operation.new side.new }
{
    set_flag(operation, side, j, false);
    if reads_for_a_write(operation, j) {
        hand_over(alloc, operation, side, j, answer);
    } else {
        set_mark(operation, side, j, Mark::Answered(answer));
    }
}

/// Piece `j` is lost, if it is there, and not out. With a copy's read its write is lost.
pub(crate) fn lose(operation: &mut Operation, side: &mut Side, j: usize)
    requires kept { IsSideOf operation.old side.old }
    requires number { j < 2 ^ 32 }
    ensures operation { operation.new ≡ with_lost operation.old j }
    ensures flags { side.new.flags ≡ change_place j (λ _. false) side.old.flags }
    ensures kept { IsSideOf operation.new side.new }
{
    let goes_on = reads_for_a_write(operation, j);
    set_flag(operation, side, j, false);
    set_mark(operation, side, j, Mark::Gone);
    if goes_on {
        set_mark(operation, side, j + 1, Mark::Gone);
    }
}

/// The result of the operation was told.
pub(crate) fn tell(operation: &mut Operation, side: &mut Side)
    requires { IsSideOf operation.old side.old }
    ensures operation { operation.new ≡ as_reported operation.old }
    ensures flags { side.new.flags ≡ side.old.flags }
    ensures kept { IsSideOf operation.new side.new }
{
    operation.reported = true;
    side.counts.done = 0;
}

/// The operation of a plan, with all its pieces left.
pub(crate) fn planned(
    alloc: Global,
    call: u64,
    epoch: u64,
    plan: Plan,
    blocking: bool,
) -> Result<Operation, NoMemory>
    ensures { IfOk result (λ operation. operation ≡ planned_operation call epoch plan blocking) }
{
    let Plan { kind, pieces } = plan;
    let pieces = all_left(alloc, pieces)?;
    Ok(Operation {
        call,
        epoch,
        kind,
        blocking,
        reported: false,
        pieces,
    })
}

/// The result of a blocking operation or a copy, which is then told.
pub(crate) fn give_result(alloc: Global, operation: &mut Operation, side: &mut Side) -> Reply
    requires kept { IsSideOf operation.old side.old }
    requires untold { IsFalse operation.old.reported }
    requires answered { IsTrue (operation.old.blocking || is_copy operation.old.kind) }
    ensures reply { result ≡ operations.result operation.old }
    ensures operation { operation.new ≡ as_reported operation.old }
    ensures flags { side.new.flags ≡ side.old.flags }
    ensures kept { IsSideOf operation.new side.new }
{
    let room = std::mem::replace(&mut side.room, Vec::new(alloc));
    let reply = reply(operation, room);
    operation.reported = true;
    side.counts.done = 0;
    reply
}

/// What is kept beside a new operation of so many pieces.
pub(crate) fn fresh(alloc: Global, operation: &Operation, count: usize) -> Result<Side, NoMemory>
    requires fresh { IsFresh operation.now count }
    requires few { count < 2 ^ 32 }
    ensures flags { IfOk result (λ side. side.flags ≡ replicate count false) }
    ensures kept { IfOk result (λ side. IsSideOf operation.now side) }
    ensures counts { IfOk result (λ side. side.counts ≡ held_only count) }
{
    let flags = none_out(alloc, count)?;
    let room = room_for(alloc, operation)?;
    Ok(Side {
        flags,
        counts: Pending {
            held: count as u64,
            out: 0,
            done: 0,
        },
        room,
    })
}

/// Adds an operation and what is kept beside it. After want of memory both lists are as they were.
pub(crate) fn add(
    context: &mut Context,
    sides: &mut Vec<Side>,
    operation: Operation,
    side: Side,
) -> Result<(), NoMemory>
    ensures context_ok { OnOk result (context.new ≡ with_one_more context.old operation) }
    ensures sides_ok { OnOk result (sides.new.items ≡ sides.old.items ++ side ∷ []) }
    ensures context_err { OnErr result (context.new ≡ context.old) }
    ensures sides_err { OnErr result (sides.new.items ≡ sides.old.items) }
{
    if sides.push(side).is_err() {
        return Err(NoMemory);
    }
    if context.operations.push(operation).is_err() {
        sides.pop();
        return Err(NoMemory);
    }
    Ok(())
}

/// Marks all these as reported, where those before a place are.
pub(crate) fn report_all(operations: &mut Sequence<Operation>, told: usize)
    requires { AreTold operations.old told }
    ensures { operations.new ≡ map as_reported operations.old }
{
    for at in told..operations.len() {
        operations.at_mut(at).reported = true;
    }
}

/// None of the pieces counts as done any more, where those before a place do not.
pub(crate) fn tell_each(sides: &mut Vec<Side>, told: usize)
    requires within { told ≤ length sides.old.items }
    requires before { take told sides.old.items ≡ map told_side (take told sides.old.items) }
    ensures { sides.new.items ≡ map told_side sides.old.items }
{
    tell_all(sides.as_mut_slice(), told);
}

/// The same of a slice.
fn tell_all(sides: &mut [Side], told: usize)
    requires within { told ≤ length sides.old }
    requires before { take told sides.old ≡ map told_side (take told sides.old) }
    ensures { sides.new ≡ map told_side sides.old }
{
    for at in told..sides.len() {
        sides[at].counts.done = 0;
    }
}
