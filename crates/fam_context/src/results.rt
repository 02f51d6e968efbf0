//! What is told of operations: their results and reports.

ghost use Rattle.std.specs.Prelude.{◌≡◌, ◌+◌, ◌≤◌, ◌++◌, true, length, take, drop, slice_index, IfOk};
ghost use Rattle.fam_context.specs.Sides.{is_get, needed, AreTold};
ghost use Rattle.std.specs.List.{flat_map};
ghost use Rattle.std.specs.Option.{option_copied};
ghost use Rattle.std.specs.Int.{w32, w64, w128, from_le_bytes};
ghost use Rattle.fam_model.specs.Atomic.{number_of_bytes};
ghost use Rattle.fam_model.specs.Operations as operations;
ghost use Rattle.fam_model.specs.Same.{same_answer, same_reply};
ghost use Rattle.fam_context.specs.Results.{same_bytes, first_refusal, same_result, same_results, result_of, results_of, past};

use fam_base::{Bytes, FamError, NoMemory, Sequence};
use fam_model::{
    Context, Mark, MarkedPiece, OpResult, Operation, PieceAnswer, PieceKind, PlanKind, Reply, Width,
};
use std::alloc::Global;

fn refusal_in(mark: &Mark) -> Option<FamError>
    ensures { result ≡ operations.refusal_in mark.now }
{
    match mark {
        Mark::Answered(PieceAnswer::Refused(error)) => Some(*error),
        _ => None,
    }
}

fn first_refusal(operation: &Operation) -> Option<FamError>
    ensures { result ≡ first_refusal operation.now }
{
    for piece in operation.pieces.as_slice() {
        if let Some(error) = refusal_in(&piece.mark) {
            return Some(error);
        }
    }
    None
}

pub(crate) fn bytes_in(mark: &Mark) -> &[u8]
    ensures { result.now ≡ operations.bytes_in mark.now }
{
    match mark {
        Mark::Answered(PieceAnswer::Data(bytes)) => bytes.as_slice(),
        _ => &[],
    }
}

/// Whether these are the bytes that the pieces were answered with, in order.
fn are_bytes_of(bytes: &[u8], pieces: &[MarkedPiece]) -> bool
    ensures { result ≡ same_bytes bytes.now (flat_map (λ p. operations.bytes_in p.mark) pieces.now) }
{
    let mut rest = bytes;
    for piece in pieces {
        let Some(others) = rest.strip_prefix(bytes_in(&piece.mark)) else {
            return false;
        };
        rest = others;
    }
    rest.is_empty()
}

/// A byte, or 0 past their end.
fn byte(bytes: &[u8], at: usize) -> u8
    ensures { result ≡ slice_index bytes.now at }
{
    if at < bytes.len() { bytes[at] } else { 0 }
}

fn four(bytes: &[u8]) -> u32
    ensures { result ≡ from_le_bytes w32 bytes.now }
{
    u32::from_le_bytes([
        byte(bytes, 0),
        byte(bytes, 1),
        byte(bytes, 2),
        byte(bytes, 3),
    ])
}

fn eight(bytes: &[u8]) -> u64
    ensures { result ≡ from_le_bytes w64 bytes.now }
{
    u64::from_le_bytes([
        byte(bytes, 0),
        byte(bytes, 1),
        byte(bytes, 2),
        byte(bytes, 3),
        byte(bytes, 4),
        byte(bytes, 5),
        byte(bytes, 6),
        byte(bytes, 7),
    ])
}

fn sixteen(bytes: &[u8]) -> u128
    ensures { result ≡ from_le_bytes w128 bytes.now }
{
    u128::from_le_bytes([
        byte(bytes, 0),
        byte(bytes, 1),
        byte(bytes, 2),
        byte(bytes, 3),
        byte(bytes, 4),
        byte(bytes, 5),
        byte(bytes, 6),
        byte(bytes, 7),
        byte(bytes, 8),
        byte(bytes, 9),
        byte(bytes, 10),
        byte(bytes, 11),
        byte(bytes, 12),
        byte(bytes, 13),
        byte(bytes, 14),
        byte(bytes, 15),
    ])
}

/// The number that little-endian bytes stand for.
fn number_of_bytes(width: Width, bytes: &[u8]) -> i128
    ensures { result ≡ number_of_bytes width bytes.now }
{
    match width {
        Width::I32 => i128::from(four(bytes).cast_signed()),
        Width::U32 | Width::F32 => i128::from(four(bytes)),
        Width::I64 => i128::from(eight(bytes).cast_signed()),
        Width::U64 | Width::F64 => i128::from(eight(bytes)),
        Width::I128 => sixteen(bytes).cast_signed(),
    }
}

/// The old value that the first piece found.
fn old_number(pieces: &[MarkedPiece]) -> i128
    ensures { result ≡ operations.old_number pieces.now }
{
    match pieces {
        [first, ..] => match first.piece.kind {
            PieceKind::Atomic { width, .. } => number_of_bytes(width, bytes_in(&first.mark)),
            _ => 0,
        },
        [] => 0,
    }
}

fn is_served_result(operation: &Operation, given: &Reply) -> bool
    ensures { result ≡ same_reply given.now (operations.served_result operation.now.kind operation.now) }
{
    match (operation.kind, given) {
        (PlanKind::Put | PlanKind::Copy, Reply::Done) => true,
        (PlanKind::Get, Reply::Bytes(bytes)) => {
            are_bytes_of(bytes.as_slice(), operation.pieces.as_slice())
        }
        (PlanKind::Fetch, Reply::Value(number)) => *number
            == old_number(operation.pieces.as_slice()),
        _ => false,
    }
}

/// Whether this is the result of the operation.
#[tactic(auto, using(crate::proofs::Telling::result_by_first))]
pub(crate) fn is_result(operation: &Operation, given: &Reply) -> bool
    ensures { result ≡ same_reply given.now (operations.result operation.now) }
{
    match first_refusal(operation) {
        Some(error) => *given == Reply::Error(error),
        None => is_served_result(operation, given),
    }
}

fn is_served_outcome(operation: &Operation, given: &PieceAnswer) -> bool
    ensures { result ≡ same_answer given.now (operations.served_outcome operation.now.kind operation.now) }
{
    match (operation.kind, given) {
        (PlanKind::Get, PieceAnswer::Data(bytes)) => {
            are_bytes_of(bytes.as_slice(), operation.pieces.as_slice())
        }
        (PlanKind::Get, _) => false,
        (_, PieceAnswer::Ok) => true,
        _ => false,
    }
}

/// Whether this is what a report says of the operation.
fn is_outcome(operation: &Operation, given: &PieceAnswer) -> bool
    ensures { result ≡ same_answer given.now (operations.outcome operation.now) }
{
    match first_refusal(operation) {
        Some(error) => *given == PieceAnswer::Refused(error),
        None => is_served_outcome(operation, given),
    }
}

fn is_unreported(operation: &Operation) -> bool
    ensures { result ≡ operations.is_unreported operation.now }
{
    !operation.blocking && !operation.reported
}

fn is_result_of(operation: &Operation, given: &OpResult) -> bool
    ensures { result ≡ same_result given.now (result_of operation.now) }
{
    given.call == operation.call && is_outcome(operation, &given.answer)
}

/// The results after that of an operation, where its own comes first. All of them where a report passes the
/// operation over.
fn past<'a>(operation: &Operation, results: &'a [OpResult]) -> Option<&'a [OpResult]>
    ensures { option_copied result ≡ past operation.now results.now }
{
    if !is_unreported(operation) {
        return Some(results);
    }
    match results {
        [first, others @ ..] => {
            if is_result_of(operation, first) {
                Some(others)
            } else {
                None
            }
        }
        [] => None,
    }
}

/// Whether these are the results that a report tells.
fn are_results_of(given: &[OpResult], all: &[Operation]) -> bool
    ensures { result ≡ same_results given.now (results_of all.now) }
{
    let mut rest = given;
    for operation in all {
        let Some(others) = past(operation, rest) else {
            return false;
        };
        rest = others;
    }
    rest.is_empty()
}

/// The operations from a place on before which all were told: a report is of them alone.
pub(crate) fn untold(all: &[Operation], told: usize) -> &[Operation]
    requires { AreTold all.now told }
    ensures { results_of result.now ≡ results_of all.now }
{
    &all[told..]
}

/// Whether this is the report of the context.
pub(crate) fn is_report(context: &Context, told: usize, given: &Reply) -> bool
    requires { AreTold context.now.operations told }
    ensures { result ≡ same_reply given.now (operations.report context.now) }
{
    match given {
        Reply::Report(results) => {
            let untold = untold(context.operations.as_slice(), told);
            are_results_of(results.as_slice(), untold)
        }
        _ => false,
    }
}

/// The bytes of an operation in the order of its pieces.
fn all_bytes(alloc: Global, pieces: &[MarkedPiece]) -> Result<Bytes, NoMemory>
    ensures { IfOk result (λ bytes. bytes ≡ flat_map (λ p. operations.bytes_in p.mark) pieces.now) }
{
    let mut bytes = Vec::new(alloc);
    for piece in pieces {
        if bytes.extend_from_slice(bytes_in(&piece.mark)).is_err() {
            return Err(NoMemory);
        }
    }
    Ok(Bytes::from_vec(bytes))
}

/// What a report says of an operation.
#[tactic(auto, using(crate::proofs::Telling::outcome_by_first))]
fn outcome(alloc: Global, operation: &Operation) -> Result<PieceAnswer, NoMemory>
    ensures { IfOk result (λ answer. answer ≡ operations.outcome operation.now) }
{
    if let Some(error) = first_refusal(operation) {
        return Ok(PieceAnswer::Refused(error));
    }
    match operation.kind {
        PlanKind::Get => {
            let bytes = all_bytes(alloc, operation.pieces.as_slice())?;
            Ok(PieceAnswer::Data(bytes))
        }
        _ => Ok(PieceAnswer::Ok),
    }
}

/// What a report says of these operations.
pub(crate) fn results_of(alloc: Global, all: &[Operation]) -> Result<Sequence<OpResult>, NoMemory>
    ensures { IfOk result (λ told. told ≡ results_of all.now) }
{
    let mut told = Sequence::new(alloc);
    for operation in all {
        if is_unreported(operation) {
            let answer = outcome(alloc, operation)?;
            told.push(OpResult {
                call: operation.call,
                answer,
            })?;
        }
    }
    Ok(told)
}

/// The result of an operation.
#[tactic(auto, using(crate::proofs::Telling::result_by_first))]
pub(crate) fn result(alloc: Global, operation: &Operation) -> Result<Reply, NoMemory>
    ensures { IfOk result (λ reply. reply ≡ operations.result operation.now) }
{
    if let Some(error) = first_refusal(operation) {
        return Ok(Reply::Error(error));
    }
    match operation.kind {
        PlanKind::Put | PlanKind::Copy => Ok(Reply::Done),
        PlanKind::Get => {
            let bytes = all_bytes(alloc, operation.pieces.as_slice())?;
            Ok(Reply::Bytes(bytes))
        }
        PlanKind::Fetch => Ok(Reply::Value(old_number(operation.pieces.as_slice()))),
    }
}

/// Writes a part into the room from a place on.
fn put(room: &mut Vec<u8>, at: usize, part: &[u8])
    requires { at + length part.now ≤ length room.old.items }
    ensures { room.new.items ≡ take at room.old.items ++ part.now ++ drop (at + length part.now) room.old.items }
{
    room[at..at + part.len()].copy_from_slice(part);
}

/// The bytes of pieces in order, in the room that was made for them.
fn fill(mut room: Vec<u8>, pieces: &[MarkedPiece]) -> Bytes
    requires { needed pieces.now ≤ length room.items }
    ensures { result ≡ flat_map (λ p. operations.bytes_in p.mark) pieces.now }
{
    let mut at = 0;
    for piece in pieces {
        let part = bytes_in(&piece.mark);
        put(&mut room, at, part);
        at += part.len();
    }
    room.truncate(at);
    Bytes::from_vec(room)
}

/// The result of an operation, with room for its bytes if it is a get.
#[tactic(auto, using(crate::proofs::Telling::result_by_first))]
pub(crate) fn reply(operation: &Operation, room: Vec<u8>) -> Reply
    requires { is_get operation.now.kind ≡ true → needed operation.now.pieces ≤ length room.items }
    ensures { result ≡ operations.result operation.now }
{
    if let Some(error) = first_refusal(operation) {
        return Reply::Error(error);
    }
    match operation.kind {
        PlanKind::Put | PlanKind::Copy => Reply::Done,
        PlanKind::Get => Reply::Bytes(fill(room, operation.pieces.as_slice())),
        PlanKind::Fetch => Reply::Value(old_number(operation.pieces.as_slice())),
    }
}
