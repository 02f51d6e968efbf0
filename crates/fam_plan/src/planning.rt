//! The plan of a get, a put or an atomic.

ghost use Rattle.std.specs.Prelude.{◌≡◌, ◌+◌, ◌≤◌, ◌^◌, [], ◌∷◌, length, IsTrue, IfOk, MatchResult, None};
ghost use Rattle.fam_layout.specs.Plans.{IsPlanned, plan_refusal};
ghost use Rattle.fam_model.specs.Pieces as cutting;
ghost use Rattle.fam_plan.specs.Single.{is_single};

use crate::piece::{piece_at, reads, writes};
use crate::refusal::{refusal, width_bytes};
use fam_base::{Bytes, Descriptor, FamError, NoMemory, Sequence};
use fam_layout::{Layout, Plan};
use fam_model::{DataOp, Part, PieceKind, PlanKind, PlanPiece};
use std::alloc::Global;

/// What an operation gives back.
pub fn kind_of(op: &DataOp) -> PlanKind
    ensures { result ≡ cutting.plan_kind op.now }
{
    match op {
        DataOp::Get { .. } | DataOp::Gather { .. } | DataOp::GatherIndex { .. } => PlanKind::Get,
        DataOp::Copy { .. } => PlanKind::Copy,
        DataOp::Atomic { op, .. } if op.is_fetching() => PlanKind::Fetch,
        _ => PlanKind::Put,
    }
}

fn get_pieces(
    alloc: Global,
    layout: &Layout,
    from: Descriptor,
    offset: u64,
    count: u64,
) -> Result<Sequence<PlanPiece>, NoMemory>
    requires within { offset + count ≤ from.size }
    requires small { from.base + from.size ≤ 2 ^ 26 }
    ensures { IfOk result (λ pieces. pieces ≡ cutting.reads layout.now from (cutting.part offset count ∷ [])) }
{
    let parts = layout.cuts(alloc, from.base, offset, count)?;
    reads(alloc, layout, from, &parts)
}

fn put_pieces(
    alloc: Global,
    layout: &Layout,
    from: Descriptor,
    offset: u64,
    bytes: &Bytes,
) -> Result<Sequence<PlanPiece>, NoMemory>
    requires within { offset + length bytes.now ≤ from.size }
    requires small { from.base + from.size ≤ 2 ^ 26 }
    ensures { IfOk result (λ pieces. pieces ≡ cutting.writes layout.now from (cutting.part offset (length bytes.now) ∷ []) bytes.now) }
{
    let parts = layout.cuts(alloc, from.base, offset, bytes.len() as u64)?;
    writes(alloc, layout, from, &parts, bytes.as_slice())
}

/// The one piece of an atomic.
fn atomic_pieces(
    alloc: Global,
    layout: &Layout,
    from: Descriptor,
    kind: PieceKind,
    part: Part,
) -> Result<Sequence<PlanPiece>, NoMemory>
    requires within { part.offset + part.n ≤ from.size }
    requires small { from.base + from.size ≤ 2 ^ 26 }
    ensures { IfOk result (λ pieces. pieces ≡ cutting.piece_at layout.now from kind part [] ∷ []) }
{
    let mut pieces = Sequence::new(alloc);
    let none = Sequence::new(alloc);
    pieces.push(piece_at(layout, from, kind, part, none))?;
    Ok(pieces)
}

/// The pieces of an operation that is not refused.
fn pieces(
    alloc: Global,
    layout: &Layout,
    op: &DataOp,
    from: Descriptor,
) -> Result<Sequence<PlanPiece>, NoMemory>
    requires single { IsTrue (is_single op.now) }
    requires allowed { plan_refusal op.now from from ≡ None }
    requires small { from.base + from.size ≤ 2 ^ 26 }
    ensures { IfOk result (λ pieces. pieces ≡ cutting.pieces layout.now op.now from from) }
{
    match op {
        DataOp::Get { offset, count, .. } => get_pieces(alloc, layout, from, *offset, *count),
        DataOp::Put { offset, bytes, .. } => put_pieces(alloc, layout, from, *offset, bytes),
        DataOp::Atomic {
            offset,
            width,
            op,
            a,
            b,
            ..
        } => {
            let kind = PieceKind::Atomic {
                op: *op,
                width: *width,
                a: *a,
                b: *b,
            };
            let part = Part {
                offset: *offset,
                n: width_bytes(*width),
            };
            atomic_pieces(alloc, layout, from, kind, part)
        }
        _ => unreachable!(),
    }
}

/// The plan of these pieces, or want of memory.
pub fn with_pieces(
    kind: PlanKind,
    pieces: Result<Sequence<PlanPiece>, NoMemory>,
) -> Result<Plan, FamError>
    ensures { MatchResult pieces (λ some. result ≡ Ok (record { kind = kind; pieces = some })) (λ _. result ≡ Err FamError.Memory) }
{
    match pieces {
        Ok(pieces) => Ok(Plan { kind, pieces }),
        Err(_) => Err(FamError::Memory),
    }
}

/// The plan of a get, a put or an atomic on the item of a descriptor, or the first refusal, or want of memory.
/// The second descriptor is that of a copy, and not looked at.
pub fn plan(
    alloc: Global,
    layout: &Layout,
    op: &DataOp,
    from: Descriptor,
    to: Descriptor,
) -> Result<Plan, FamError>
    requires single { IsTrue (is_single op.now) }
    requires small { from.base + from.size ≤ 2 ^ 26 }
    ensures { IsPlanned layout.now op.now from to result }
{
    match refusal(op, from) {
        Some(error) => Err(error),
        None => with_pieces(kind_of(op), pieces(alloc, layout, op, from)),
    }
}
