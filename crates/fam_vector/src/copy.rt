//! The pieces of a copy.

ghost use Rattle.std.specs.Prelude.{◌≡◌, ◌+◌, ◌≤◌, ◌^◌, false, IfOk};
ghost use Rattle.fam_model.specs.Issue.{ends_past};
ghost use Rattle.fam_model.specs.Pieces as cutting;
ghost use Rattle.fam_vector.specs.Vector.{copied};

use fam_base::{Descriptor, NoMemory, Sequence};
use fam_layout::{Layout, Ranges};
use fam_model::{Part, PieceKind, PlanPiece};
use fam_plan::piece_at;
use std::alloc::Global;

/// One side of a copy: an item, and where the copied bytes begin in it.
#[derive(Clone, Copy)]
pub struct Side {
    pub item: Descriptor,
    pub offset: u64,
}

/// A read and a write for each part. Offsets of parts count from the first byte that is copied.
fn copied_parts(
    alloc: Global,
    layout: &Layout,
    from: Side,
    to: Side,
    count: u64,
    parts: &Ranges,
) -> Result<Sequence<PlanPiece>, NoMemory>
    requires within { ends_past count parts.now ≡ false }
    requires source { from.item.base + from.offset + count ≤ 2 ^ 26 }
    requires target { to.item.base + to.offset + count ≤ 2 ^ 26 }
    ensures { IfOk result (λ pieces. pieces ≡ copied layout.now from.item from.offset to.item to.offset parts.now) }
{
    let mut pieces = Sequence::new(alloc);
    for part in parts.as_slice() {
        let source = Part {
            offset: from.offset + part.offset,
            n: part.n,
        };
        let none = Sequence::new(alloc);
        pieces.push(piece_at(layout, from.item, PieceKind::Read, source, none))?;
        let target = Part {
            offset: to.offset + part.offset,
            n: part.n,
        };
        let none = Sequence::new(alloc);
        pieces.push(piece_at(layout, to.item, PieceKind::Write, target, none))?;
    }
    Ok(pieces)
}

/// A read and a write for each part, cut where a unit of either side begins.
pub fn copy_pieces(
    alloc: Global,
    layout: &Layout,
    from: Side,
    to: Side,
    count: u64,
) -> Result<Sequence<PlanPiece>, NoMemory>
    requires source { from.item.base + from.offset + count ≤ 2 ^ 26 }
    requires target { to.item.base + to.offset + count ≤ 2 ^ 26 }
    ensures { IfOk result (λ pieces. pieces ≡ cutting.copies layout.now from.item from.offset to.item to.offset count) }
{
    let source = from.item.base + from.offset;
    let target = to.item.base + to.offset;
    let parts = layout.shared_cuts(alloc, source, target, count)?;
    copied_parts(alloc, layout, from, to, count, &parts)
}
