//! Pieces, fences, copies and reports of one context.

use crate::{Context, Pending};
use fam_base::{Bytes, FamError, ItemId, Need, Sequence};
use fam_layout::Plan;
use fam_model::{OpResult, PieceAnswer, PieceKind, Place, PlanKind, PlanPiece, Reply};
use std::alloc::Global;
use std::process::Abort;
use std::test::Fail;

/// A piece of two bytes on a stripe.
fn piece(alloc: Global, kind: PieceKind, need: Need, offset: u64, stripe: u32) -> PlanPiece {
    PlanPiece {
        item: ItemId(1),
        need,
        kind,
        offset,
        n: 2,
        place: Place {
            stripe,
            row: 0,
            at: 0,
        },
        bytes: Bytes::new(alloc),
    }
}

/// A plan of pieces of two bytes, each on the stripe of its number. In a copy every second one writes.
fn plan(alloc: Global, kind: PlanKind, count: u32) -> Result<Plan, Fail> {
    let mut pieces = Sequence::new(alloc);
    for j in 0..count {
        let (does, need) = match kind {
            PlanKind::Get => (PieceKind::Read, Need::Read),
            PlanKind::Copy if j % 2 == 0 => (PieceKind::Read, Need::Read),
            _ => (PieceKind::Write, Need::Write),
        };
        pieces.push(piece(alloc, does, need, u64::from(j), j))?;
    }
    Ok(Plan { kind, pieces })
}

/// Issues an operation of so many pieces.
fn issue(
    rt: &impl Abort,
    alloc: Global,
    context: &mut Context,
    call: u64,
    kind: PlanKind,
    count: u32,
    blocking: bool,
) -> Result<(), Fail> {
    let plan = plan(alloc, kind, count)?;
    assert!(rt; context.may_issue(call, &plan), "{call}");
    context.issue(call, plan, blocking)?;
    Ok(())
}

/// Answers a piece that may come.
fn collect(rt: &impl Abort, context: &mut Context, call: u64, piece: u32, answer: PieceAnswer) {
    assert!(rt; context.may_come(call, piece), "{call} {piece}");
    assert!(rt; context.may_collect(call, piece, &answer), "{call} {piece}");
    context.collected(call, piece, answer);
}

/// Two bytes as an answer.
fn data(alloc: Global, bytes: &[u8]) -> Result<PieceAnswer, Fail> {
    Ok(PieceAnswer::Data(Bytes::of(alloc, bytes)?))
}

#[test]
fn a_fence_holds_back_what_follows(rt: HostRuntime) -> Result<(), Fail> {
    let alloc = rt.alloc();
    let mut context = Context::new(alloc);
    issue(&rt, alloc, &mut context, 3, PlanKind::Put, 2, false)?;
    assert!(&rt; context.epoch() < 9);
    context.fence();
    issue(&rt, alloc, &mut context, 5, PlanKind::Put, 2, false)?;
    for (call, piece, may) in [(3, 0, true), (3, 1, true), (5, 0, false), (5, 1, false)] {
        assert_eq!(&rt; context.may_come(call, piece), may, "{call} {piece}");
    }
    assert!(&rt; context.next_on(1) == Some((3, 1)));
    collect(&rt, &mut context, 3, 1, PieceAnswer::Ok);
    assert!(&rt; context.next_on(1).is_none());
    assert!(&rt; context.may_post(3, 0));
    context.posted(3, 0);
    assert_eq!(&rt;
        context.pending(),
        Pending {
            held: 2,
            out: 1,
            done: 1
        }
    );
    collect(&rt, &mut context, 3, 0, PieceAnswer::Ok);
    assert!(&rt; context.next_on(1) == Some((5, 1)));
    Ok(())
}

/// Answers all, later calls first, and reports in order of call. Blocking calls are not reported.
#[test]
fn reports_in_order_of_call(rt: HostRuntime) -> Result<(), Fail> {
    let alloc = rt.alloc();
    let mut context = Context::new(alloc);
    issue(&rt, alloc, &mut context, 1, PlanKind::Put, 1, false)?;
    issue(&rt, alloc, &mut context, 2, PlanKind::Put, 1, true)?;
    issue(&rt, alloc, &mut context, 4, PlanKind::Get, 1, false)?;
    collect(&rt, &mut context, 4, 0, data(alloc, &[7, 8])?);
    collect(&rt, &mut context, 2, 0, PieceAnswer::Ok);
    collect(
        &rt,
        &mut context,
        1,
        0,
        PieceAnswer::Refused(FamError::Absent),
    );
    assert!(&rt; !context.is_pending());
    let mut want = Sequence::new(alloc);
    want.push(OpResult {
        call: 1,
        answer: PieceAnswer::Refused(FamError::Absent),
    })?;
    want.push(OpResult {
        call: 4,
        answer: data(alloc, &[7, 8])?,
    })?;
    let reply = context.report()?;
    assert!(&rt; reply == Reply::Report(want));
    assert_eq!(&rt;
        context.pending(),
        Pending {
            held: 0,
            out: 0,
            done: 0
        }
    );
    Ok(())
}

/// Each report tells what was issued since the one before, and what was answered by itself is in none.
#[test]
fn reports_each_call_once(rt: HostRuntime) -> Result<(), Fail> {
    let alloc = rt.alloc();
    let mut context = Context::new(alloc);
    for call in [0u64, 1, 2] {
        issue(&rt, alloc, &mut context, 3 * call, PlanKind::Put, 1, false)?;
        issue(
            &rt,
            alloc,
            &mut context,
            3 * call + 1,
            PlanKind::Put,
            1,
            true,
        )?;
        collect(&rt, &mut context, 3 * call, 0, PieceAnswer::Ok);
        collect(&rt, &mut context, 3 * call + 1, 0, PieceAnswer::Ok);
        assert!(&rt; context.may_tell(3 * call + 1));
        assert!(&rt; context.answer(3 * call + 1) == Reply::Done);
        let mut want = Sequence::new(alloc);
        want.push(OpResult {
            call: 3 * call,
            answer: PieceAnswer::Ok,
        })?;
        let want = Reply::Report(want);
        assert!(&rt; context.report_is(&want));
        assert!(&rt; context.report_of()? == want);
        assert!(&rt; !context.is_pending());
        assert!(&rt; context.report()? == want);
    }
    assert!(&rt; context.report_of()? == Reply::Report(Sequence::new(alloc)));
    Ok(())
}

#[test]
fn a_get_comes_in_order_of_its_pieces(rt: HostRuntime) -> Result<(), Fail> {
    let alloc = rt.alloc();
    let mut context = Context::new(alloc);
    issue(&rt, alloc, &mut context, 0, PlanKind::Get, 4, true)?;
    for (piece, bytes) in [(2, [4, 5]), (0, [0, 1]), (3, [6, 7]), (1, [2, 3])] {
        collect(&rt, &mut context, 0, piece, data(alloc, &bytes)?);
    }
    assert_eq!(&rt; context.left(0), Some(0));
    assert!(&rt; context.may_tell(0));
    let reply = context.answer(0);
    assert!(&rt; reply == Reply::Bytes(Bytes::of(alloc, &[0, 1, 2, 3, 4, 5, 6, 7])?));
    assert!(&rt; context.left(0).is_none());
    Ok(())
}

/// A copy of two parts, of which the second read is refused: its write is gone.
#[test]
fn a_write_of_a_copy_follows_its_read(rt: HostRuntime) -> Result<(), Fail> {
    let alloc = rt.alloc();
    let mut context = Context::new(alloc);
    issue(&rt, alloc, &mut context, 0, PlanKind::Copy, 4, false)?;
    assert!(&rt; context.is_copy(0));
    for (piece, may) in [(0, true), (1, false), (2, true), (3, false)] {
        assert_eq!(&rt; context.may_come(0, piece), may, "{piece}");
    }
    collect(&rt, &mut context, 0, 0, data(alloc, &[7, 8])?);
    collect(
        &rt,
        &mut context,
        0,
        2,
        PieceAnswer::Refused(FamError::NoPermission),
    );
    assert_eq!(&rt; context.left(0), Some(1));
    assert!(&rt; !context.is_left(0, 3));
    collect(&rt, &mut context, 0, 1, PieceAnswer::Ok);
    assert!(&rt; context.may_tell(0));
    let reply = context.answer(0);
    assert!(&rt; reply == Reply::Error(FamError::NoPermission));
    assert!(&rt; !context.is_copy(0));
    assert!(&rt; !context.may_tell(0));
    Ok(())
}
