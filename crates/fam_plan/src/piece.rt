//! Pieces of parts.

ghost use Rattle.std.specs.Prelude.{◌≡◌, ◌+◌, ◌≤◌, ◌<◌, ◌^◌, map, false, IfOk};
ghost use Rattle.fam_model.specs.Issue.{ends_past};
ghost use Rattle.fam_model.specs.Pieces as cutting;

use fam_base::{Bytes, Descriptor, Need, NoMemory, Sequence};
use fam_layout::{Layout, Ranges};
use fam_model::{Op, Part, PieceKind, PlanPiece};
use std::alloc::Global;

fn need_of(kind: PieceKind) -> Need
    ensures { result ≡ cutting.need_of kind }
{
    match kind {
        PieceKind::Read => Need::Read,
        PieceKind::Write => Need::Write,
        PieceKind::Atomic { op, .. } => need_of_op(op),
    }
}

fn need_of_op(op: Op) -> Need
    ensures { result ≡ cutting.need_of_op op }
{
    match op {
        Op::Fetch => Need::Read,
        _ => {
            if op.is_fetching() {
                Need::Both
            } else {
                Need::Write
            }
        }
    }
}

/// The piece of this kind for a part of an item. It takes no memory.
pub fn piece_at(
    layout: &Layout,
    target: Descriptor,
    kind: PieceKind,
    part: Part,
    bytes: Bytes,
) -> PlanPiece
    requires { target.base + part.offset < 2 ^ 64 }
    ensures { result ≡ cutting.piece_at layout.now target kind part bytes }
{
    PlanPiece {
        item: target.item,
        need: need_of(kind),
        kind,
        offset: part.offset,
        n: part.n,
        place: layout.place(target.region, target.base + part.offset),
        bytes,
    }
}

/// Reads of these parts of an item.
pub fn reads(
    alloc: Global,
    layout: &Layout,
    target: Descriptor,
    parts: &Ranges,
) -> Result<Sequence<PlanPiece>, NoMemory>
    requires within { ends_past target.size parts.now ≡ false }
    requires small { target.base + target.size ≤ 2 ^ 26 }
    ensures { IfOk result (λ pieces. pieces ≡ map (cutting.read_piece layout.now target) parts.now) }
{
    let mut pieces = Sequence::new(alloc);
    for part in parts.as_slice() {
        let none = Sequence::new(alloc);
        pieces.push(piece_at(layout, target, PieceKind::Read, *part, none))?;
    }
    Ok(pieces)
}

/// Writes of these bytes to these parts of an item, each part taking its bytes in turn.
pub fn writes(
    alloc: Global,
    layout: &Layout,
    target: Descriptor,
    parts: &Ranges,
    bytes: &[u8],
) -> Result<Sequence<PlanPiece>, NoMemory>
    requires within { ends_past target.size parts.now ≡ false }
    requires small { target.base + target.size ≤ 2 ^ 26 }
    ensures { IfOk result (λ pieces. pieces ≡ cutting.dealt layout.now target parts.now bytes.now) }
{
    let mut pieces = Sequence::new(alloc);
    let mut rest = bytes;
    for part in parts.as_slice() {
        let (own, later) = rest.split_at(rest.len().min(part.n as usize));
        let own = Bytes::of(alloc, own)?;
        pieces.push(piece_at(layout, target, PieceKind::Write, *part, own))?;
        rest = later;
    }
    Ok(pieces)
}
