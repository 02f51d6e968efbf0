//! Pieces of a context that are asked again.

ghost use Rattle.std.specs.Prelude.{◌≡◌, ◌<◌, ◌≤◌, ◌^◌, length, slice_get, OnOk, Some};
ghost use Rattle.fam_model.specs.Programs.{operation_of};
ghost use Rattle.fam_ready.specs.Telling.{Tells, is_between, is_call, is_piece};

use fam_base::NoMemory;
use fam_context::Context;
use fam_model::Operation;
use ready_lists::{PieceAt, ReadyLists};

/// A piece that may come stands in the list of its stripe from now on, and one that may not does not. A piece
/// of no stripe is left out.
pub(crate) fn renew(
    lists: &mut ReadyLists,
    pe: u32,
    context: &Context,
    operation: &Operation,
    piece: usize,
) -> Result<(), NoMemory>
    requires there { operation_of context.now.context operation.now.call ≡ Some operation.now }
    requires numbers { length operation.now.pieces < 2 ^ 32 }
    ensures { OnOk result (Tells context.now.context pe (is_piece operation.now.call piece) lists.old lists.new) }
{
    let Some(marked) = operation.pieces.get(piece) else {
        return Ok(());
    };
    let stripe = marked.piece.place.stripe as usize;
    if stripe >= lists.stripes() {
        return Ok(());
    }
    let at = PieceAt {
        pe,
        call: operation.call,
        piece: piece as u32,
    };
    if context.may_come(at.call, at.piece) {
        lists.insert(stripe, at)
    } else {
        lists.remove(stripe, at);
        Ok(())
    }
}

/// The same for all pieces of the operation.
pub(crate) fn renew_operation(
    lists: &mut ReadyLists,
    pe: u32,
    context: &Context,
    operation: &Operation,
) -> Result<(), NoMemory>
    requires there { operation_of context.now.context operation.now.call ≡ Some operation.now }
    requires numbers { length operation.now.pieces < 2 ^ 32 }
    ensures { OnOk result (Tells context.now.context pe (is_call operation.now.call) lists.old lists.new) }
{
    for piece in 0..operation.pieces.len() {
        renew(lists, pe, context, operation, piece)?;
    }
    Ok(())
}

/// The same for all pieces of the operations from one place to before another.
pub(crate) fn renew_between(
    lists: &mut ReadyLists,
    pe: u32,
    context: &Context,
    from: usize,
    to: usize,
) -> Result<(), NoMemory>
    requires order { from ≤ to }
    requires within { to ≤ length context.now.context.operations }
    ensures { OnOk result (Tells context.now.context pe (is_between context.now.context from to) lists.old lists.new) }
{
    let operations = context.operations();
    for place in from..to {
        renew_operation(lists, pe, context, &operations[place])?;
    }
    Ok(())
}
