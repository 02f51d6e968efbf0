//! Programs from their start on.

ghost use Rattle.std.specs.Prelude.{◌≡◌};
ghost use Rattle.fam_model.specs.Turn.{is_idle};

use crate::Program;
use fam_base::{Bytes, FamError, ItemId, Need, NoMemory, RegionId, Sequence, Who};
use fam_layout::Plan;
use fam_model::{
    Call, DataOp, MetaCall, OpResult, PieceAnswer, PieceKind, Place, PlanKind, PlanPiece, Reply,
    Started, What,
};
use std::alloc::Global;
use std::process::Abort;

const ANY: Who = Who { uid: 1, gid: 1 };

/// A put of one byte at the front of the common item, on context 0.
fn put(rt: &impl Abort, alloc: Global, program: &mut Program, byte: u8) -> Result<(), NoMemory> {
    let op = DataOp::Put {
        item: 0,
        offset: 0,
        bytes: Bytes::of(alloc, &[byte])?,
    };
    let mut pieces = Sequence::new(alloc);
    pieces.push(PlanPiece {
        item: ItemId(0),
        need: Need::Write,
        kind: PieceKind::Write,
        offset: 0,
        n: 1,
        place: Place {
            stripe: 0,
            row: 0,
            at: 0,
        },
        bytes: Bytes::of(alloc, &[byte])?,
    })?;
    let count = pieces.len() as u64;
    assert!(rt; program.is_open(0));
    assert!(rt; program.next_call() < 100);
    assert!(rt; !program.is_over_budget(&op, count));
    let plan = Plan {
        kind: PlanKind::Put,
        pieces,
    };
    program.issue(0, &op, false, plan)
}

/// Piece 0 of a call is done.
fn done(rt: &impl Abort, program: &mut Program, call: u64) {
    let answer = PieceAnswer::Ok;
    assert!(rt; program.may_come(call, 0));
    assert!(rt; program.may_collect(call, 0, &answer));
    program.collected(call, 0, answer);
}

fn is_idle(program: &Program) -> bool
    ensures { result ≡ is_idle program.now.state.started }
{
    matches!(program.started(), Started::Nothing)
}

#[test]
fn a_fence_holds_the_later_put_back(rt: HostRuntime) -> Result<(), NoMemory> {
    let alloc = rt.alloc();
    let mut program = Program::new(alloc, ANY, true)?;
    put(&rt, alloc, &mut program, 1)?;
    assert!(rt; program.is_open(0));
    assert!(rt; program.next_call() < 100);
    program.fence(0);
    put(&rt, alloc, &mut program, 2)?;
    assert_eq!(rt; program.next_call(), 3);
    assert!(rt; !program.may_come(2, 0));
    assert_eq!(rt; program.context_of(2), Some(0));
    assert!(rt; program.has_pending());
    done(&rt, &mut program, 0);
    done(&rt, &mut program, 2);
    assert!(rt; !program.has_pending());
    assert!(rt; !program.may_come(2, 0));

    let mut results = Sequence::new(alloc);
    for call in [0, 2] {
        results.push(OpResult {
            call,
            answer: PieceAnswer::Ok,
        })?;
    }
    assert!(rt; program.next_call() < 100);
    assert!(rt; is_idle(&program));
    assert!(rt; !program.quiet_with(0, &Reply::Done));
    assert!(rt; program.next_call() < 100);
    assert!(rt; is_idle(&program));
    assert!(rt; program.quiet_with(0, &Reply::Report(results)));
    assert_eq!(rt; program.next_call(), 4);
    assert!(rt; program.may_quiet_with(0, &Reply::Report(Sequence::new(alloc))));
    Ok(())
}

#[test]
fn contexts_open_and_close(rt: HostRuntime) -> Result<(), NoMemory> {
    let alloc = rt.alloc();
    let mut program = Program::new(alloc, ANY, true)?;
    assert_eq!(rt;
        program.refusal(&Call::OpenContext { context: 0 }),
        Some(FamError::Exists)
    );
    assert_eq!(rt;
        program.refusal(&Call::CloseContext { context: 0 }),
        Some(FamError::Unsupported)
    );
    assert_eq!(rt;
        program.refusal(&Call::Quiet { context: 3 }),
        Some(FamError::BadHandle)
    );
    assert!(rt; program.next_call() < 100);
    assert!(rt; !program.is_open(3));
    program.open(3);
    assert_eq!(rt; program.refusal(&Call::Quiet { context: 3 }), None);
    let nothing = Reply::Report(Sequence::new(alloc));
    assert!(rt; program.next_call() < 100);
    assert!(rt; is_idle(&program));
    assert!(rt; !program.close_with(0, &nothing));
    assert!(rt; program.next_call() < 100);
    assert!(rt; is_idle(&program));
    assert!(rt; program.close_with(3, &nothing));
    assert!(rt; !program.is_open(3));
    assert_eq!(rt; program.next_call(), 2);
    Ok(())
}

#[test]
fn budgets_end(rt: HostRuntime) -> Result<(), NoMemory> {
    let program = Program::new(rt.alloc(), ANY, true)?;
    for (count, pieces, over) in [
        (1, 1, false),
        (4_194_304, 65_536, false),
        (4_194_305, 1, true),
        (1, 65_537, true),
        (0, 0, false),
    ] {
        let op = DataOp::Get {
            item: 0,
            offset: 0,
            count,
        };
        assert_eq!(rt;
            program.is_over_budget(&op, pieces),
            over,
            "{count} {pieces}"
        );
    }
    Ok(())
}

#[test]
fn slots_are_filled_by_what_is_told(rt: HostRuntime) -> Result<(), NoMemory> {
    let alloc = rt.alloc();
    let mut program = Program::new(alloc, ANY, true)?;
    let call = MetaCall::LookupRegion {
        slot: 5,
        name: Bytes::of(alloc, b"x")?,
    };
    let stat = MetaCall::StatRegion { slot: 5 };
    assert!(rt; program.request_of(alloc, &stat)?.is_none());
    assert!(rt; program.next_call() < 100);
    program.fill(&call, &Reply::Error(FamError::Absent));
    assert!(rt; !program.has_request(&stat));
    assert!(rt; program.next_call() < 100);
    program.fill(&call, &Reply::Region(RegionId(7)));
    assert!(rt; program.has_request(&stat));
    assert!(rt; program.request_of(alloc, &stat)?.is_some());
    assert!(rt; program.next_call() < 100);
    program.refuse();
    assert_eq!(rt; program.next_call(), 3);
    Ok(())
}

#[test]
fn barriers_pass_and_programs_end(rt: HostRuntime) -> Result<(), NoMemory> {
    let mut program = Program::new(rt.alloc(), ANY, true)?;
    assert!(rt; program.is_in_turn(0, &What::Arrive));
    assert!(rt; !program.is_in_turn(1, &What::Arrive));
    assert!(rt; program.next_call() < 100);
    assert!(rt; program.may_arrive(4));
    program.arrive(4);
    assert!(rt; !program.may_arrive(4));
    assert!(rt; !program.answer_with(4, &Reply::Passed));
    assert!(rt; !program.is_in_turn(1, &What::Leave));
    assert!(rt; program.answer_with(5, &Reply::Passed));
    assert!(rt; program.is_in_turn(1, &What::Leave));
    assert!(rt; program.next_call() < 100);
    assert!(rt; !program.has_pending());
    program.leave();
    assert!(rt; !program.is_member());
    assert!(rt; !program.is_in_turn(2, &What::Crash));
    Ok(())
}
