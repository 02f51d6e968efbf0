//! The words of the definitions on operations and contexts.

ghost use Rattle.std.specs.Prelude.{◌≡◌, ◌&&◌, map, nat_lt, slice_get};
ghost use Rattle.std.specs.List.{list_all, position_or_len};
ghost use Rattle.std.specs.Option.{option_copied};
ghost use Rattle.fam_model.specs.Lists.{place_of, is_some_and};
ghost use Rattle.fam_model.specs.Operations as operations;
ghost use Rattle.fam_model.specs.PieceStep.{is_read};
ghost use Rattle.fam_model.specs.Programs.{call_number, has_operation, operation_of};
ghost use Rattle.fam_context.specs.Effects.{gives_bytes, is_answer_of, may_answer};
ghost use Rattle.fam_context.specs.Order.{AreInOrder, frame_of, are_in_turn, is_planned_in_turn};

use fam_layout::Plan;
use fam_model::{
    Context, Mark, MarkedPiece, Operation, PieceAnswer, PieceKind, PlanKind, PlanPiece,
};

/// The place of the operation of a call.
pub(crate) fn place_of(context: &Context, call: u64) -> Option<usize>
    requires { AreInOrder context.now.epoch (map frame_of context.now.operations) }
    ensures { result ≡ place_of call_number call context.now.operations }
{
    let operations = context.operations.as_slice();
    operations
        .binary_search_by_key(&call, |operation| operation.call)
        .ok()
}

pub(crate) fn find(context: &Context, call: u64) -> Option<&Operation>
    requires { AreInOrder context.now.epoch (map frame_of context.now.operations) }
    ensures { option_copied result ≡ operation_of context.now call }
{
    match place_of(context, call) {
        Some(at) => context.operations.get(at),
        None => None,
    }
}

pub(crate) fn has_operation(context: &Context, call: u64) -> bool
    requires { AreInOrder context.now.epoch (map frame_of context.now.operations) }
    ensures { result ≡ has_operation context.now call }
{
    place_of(context, call).is_some()
}

pub(crate) fn is_left(piece: &MarkedPiece) -> bool
    ensures { result ≡ operations.is_left piece.now }
{
    match piece.mark {
        Mark::Left => true,
        _ => false,
    }
}

pub(crate) fn has_left(operation: &Operation) -> bool
    ensures { result ≡ operations.has_left operation.now }
{
    operation
        .pieces
        .as_slice()
        .iter()
        .any(|piece| is_left(piece))
}

/// Whether some piece is left: `first` is the place of the first operation with one.
pub(crate) fn is_pending(context: &Context, first: usize) -> bool
    requires { first ≡ position_or_len operations.has_left context.now.operations }
    ensures { result ≡ operations.is_pending context.now }
{
    first < context.operations.len()
}

fn is_served(mark: &Mark) -> bool
    ensures { result ≡ operations.is_served mark.now }
{
    match mark {
        Mark::Answered(PieceAnswer::Refused(_)) => false,
        Mark::Answered(_) => true,
        _ => false,
    }
}

pub(crate) fn is_copy(kind: PlanKind) -> bool
    ensures { result ≡ operations.is_copy kind }
{
    match kind {
        PlanKind::Copy => true,
        _ => false,
    }
}

/// Whether no fence holds the operation back: `first` is the place of the first one with a piece left.
pub(crate) fn is_past_fences(context: &Context, first: usize, operation: &Operation) -> bool
    requires order { AreInOrder context.now.epoch (map frame_of context.now.operations) }
    requires reached { first ≡ position_or_len operations.has_left context.now.operations }
    ensures { result ≡ operations.is_past_fences context.now operation.now }
{
    match context.operations.get(first) {
        Some(earliest) => operation.epoch <= earliest.epoch,
        None => true,
    }
}

fn has_its_bytes(operation: &Operation, j: usize) -> bool
    ensures { result ≡ operations.has_its_bytes operation.now j }
{
    if is_copy(operation.kind) && j % 2 == 1 {
        match operation.pieces.get(j - 1) {
            Some(read) => is_served(&read.mark),
            None => false,
        }
    } else {
        true
    }
}

pub(crate) fn has_left_at(operation: &Operation, j: usize) -> bool
    ensures { result ≡ is_some_and (slice_get operation.now.pieces j) operations.is_left }
{
    match operation.pieces.get(j) {
        Some(piece) => is_left(piece),
        None => false,
    }
}

#[tactic(auto, unfolding(fam_model::specs::Operations::may_come))]
pub(crate) fn may_come(context: &Context, first: usize, operation: &Operation, j: usize) -> bool
    requires order { AreInOrder context.now.epoch (map frame_of context.now.operations) }
    requires reached { first ≡ position_or_len operations.has_left context.now.operations }
    ensures { result ≡ operations.may_come context.now operation.now j }
{
    has_left_at(operation, j)
        && is_past_fences(context, first, operation)
        && has_its_bytes(operation, j)
}

pub(crate) fn is_copy_read(plan: PlanKind, kind: PieceKind) -> bool
    ensures { result ≡ (operations.is_copy plan && is_read kind) }
{
    match kind {
        PieceKind::Read => is_copy(plan),
        _ => false,
    }
}

pub(crate) fn are_before(context: &Context, call: u64) -> bool
    ensures { result ≡ list_all (λ operation. nat_lt operation.call call) context.now.operations }
{
    context
        .operations
        .as_slice()
        .iter()
        .all(|operation| operation.call < call)
}

fn is_read(kind: PieceKind) -> bool
    ensures { result ≡ is_read kind }
{
    match kind {
        PieceKind::Read => true,
        _ => false,
    }
}

/// Whether the pieces are a read and a write in turn.
fn are_in_turn(pieces: &[PlanPiece]) -> bool
    ensures { result ≡ are_in_turn (map (λ p. is_read p.kind) pieces.now) }
{
    let mut rest = pieces;
    while let [first, second, others @ ..] = rest {
        if !is_read(first.kind) || is_read(second.kind) {
            return false;
        }
        rest = others;
    }
    rest.is_empty()
}

pub(crate) fn is_in_turn(plan: &Plan) -> bool
    ensures { result ≡ is_planned_in_turn plan.now }
{
    !is_copy(plan.kind) || are_in_turn(plan.pieces.as_slice())
}

fn gives_bytes(plan: PlanKind, kind: PieceKind) -> bool
    ensures { result ≡ gives_bytes plan kind }
{
    match (plan, kind) {
        (_, PieceKind::Read) => true,
        (PlanKind::Fetch, PieceKind::Atomic { .. }) => true,
        _ => false,
    }
}

fn is_answer_of(plan: PlanKind, piece: &PlanPiece, answer: &PieceAnswer) -> bool
    ensures { result ≡ is_answer_of plan piece.now answer.now }
{
    match answer {
        PieceAnswer::Ok => !gives_bytes(plan, piece.kind),
        PieceAnswer::Data(bytes) => {
            gives_bytes(plan, piece.kind) && bytes.len() as u64 == piece.n
        }
        PieceAnswer::Refused(_) => true,
    }
}

pub(crate) fn may_answer(operation: &Operation, j: usize, answer: &PieceAnswer) -> bool
    ensures { result ≡ may_answer operation.now j answer.now }
{
    match operation.pieces.get(j) {
        Some(p) => is_left(p) && is_answer_of(operation.kind, &p.piece, answer),
        None => false,
    }
}
