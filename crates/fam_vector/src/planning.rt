//! The plan of an operation.

ghost use Rattle.std.specs.Prelude.{◌≡◌, ◌+◌, ◌≤◌, ◌^◌, false, IsTrue, IfOk, None};
ghost use Rattle.fam_layout.specs.Plans.{IsPlanned, plan_refusal};
ghost use Rattle.fam_model.specs.Issue.{ends_past};
ghost use Rattle.fam_model.specs.Pieces as cutting;
ghost use Rattle.fam_plan.specs.Single.{is_single};
ghost use Rattle.fam_vector.specs.Vector.{is_spread};

use crate::copy::{Side, copy_pieces};
use crate::element::{Strided, indexed_cuts, strided_cuts};
use crate::refusal::refusal;
use fam_base::{Descriptor, FamError, NoMemory, Sequence};
use fam_layout::{Layout, Plan, Ranges};
use fam_model::{DataOp, PlanPiece};
use fam_plan::{kind_of, reads, with_pieces, writes};
use std::alloc::Global;

/// The elements of a gather or a scatter that is not refused, each cut where units begin.
fn cuts_of(
    alloc: Global,
    layout: &Layout,
    op: &DataOp,
    from: Descriptor,
) -> Result<Ranges, NoMemory>
    requires spread { IsTrue (is_spread op.now) }
    requires within { ends_past from.size (cutting.elements op.now) ≡ false }
    requires small { from.base + from.size ≤ 2 ^ 26 }
    ensures { IfOk result (λ ranges. ranges ≡ cutting.all_cuts layout.now.unit from.base (cutting.elements op.now)) }
{
    match op {
        DataOp::Gather {
            first,
            stride,
            size,
            count,
            ..
        }
        | DataOp::Scatter {
            first,
            stride,
            size,
            count,
            ..
        } => {
            let elements = Strided {
                first: *first,
                stride: *stride,
                size: *size,
                count: *count,
            };
            strided_cuts(alloc, layout, from, elements)
        }
        DataOp::GatherIndex { size, places, .. } | DataOp::ScatterIndex { size, places, .. } => {
            indexed_cuts(alloc, layout, from, *size, places.as_slice())
        }
        _ => unreachable!(),
    }
}

/// The pieces of an operation that is not refused.
fn pieces(
    alloc: Global,
    layout: &Layout,
    op: &DataOp,
    from: Descriptor,
    to: Descriptor,
) -> Result<Sequence<PlanPiece>, NoMemory>
    requires several { is_single op.now ≡ false }
    requires allowed { plan_refusal op.now from to ≡ None }
    requires source { from.base + from.size ≤ 2 ^ 26 }
    requires target { to.base + to.size ≤ 2 ^ 26 }
    ensures { IfOk result (λ pieces. pieces ≡ cutting.pieces layout.now op.now from to) }
{
    match op {
        DataOp::Gather { .. } | DataOp::GatherIndex { .. } => {
            let parts = cuts_of(alloc, layout, op, from)?;
            reads(alloc, layout, from, &parts)
        }
        DataOp::Scatter { bytes, .. } | DataOp::ScatterIndex { bytes, .. } => {
            let parts = cuts_of(alloc, layout, op, from)?;
            writes(alloc, layout, from, &parts, bytes.as_slice())
        }
        DataOp::Copy {
            from_offset,
            to_offset,
            count,
            ..
        } => {
            let source = Side {
                item: from,
                offset: *from_offset,
            };
            let target = Side {
                item: to,
                offset: *to_offset,
            };
            copy_pieces(alloc, layout, source, target, *count)
        }
        _ => unreachable!(),
    }
}

/// The plan of a gather, a scatter or a copy.
fn plan_several(
    alloc: Global,
    layout: &Layout,
    op: &DataOp,
    from: Descriptor,
    to: Descriptor,
) -> Result<Plan, FamError>
    requires several { is_single op.now ≡ false }
    requires source { from.base + from.size ≤ 2 ^ 26 }
    requires target { to.base + to.size ≤ 2 ^ 26 }
    ensures { IsPlanned layout.now op.now from to result }
{
    match refusal(op, from, to) {
        Some(error) => Err(error),
        None => with_pieces(kind_of(op), pieces(alloc, layout, op, from, to)),
    }
}

/// The plan of an operation on the item of a descriptor, or the first refusal, or want of memory. A copy goes
/// from this item to that of the second descriptor, which no other operation looks at.
pub fn plan(
    alloc: Global,
    layout: &Layout,
    op: &DataOp,
    from: Descriptor,
    to: Descriptor,
) -> Result<Plan, FamError>
    requires source { from.base + from.size ≤ 2 ^ 26 }
    requires target { to.base + to.size ≤ 2 ^ 26 }
    ensures { IsPlanned layout.now op.now from to result }
{
    match op {
        DataOp::Get { .. } | DataOp::Put { .. } | DataOp::Atomic { .. } => {
            fam_plan::plan(alloc, layout, op, from, to)
        }
        _ => plan_several(alloc, layout, op, from, to),
    }
}
