//! Two puts with a fence between them, from issue to end.

use crate::follow;
use fam_base::{Bytes, ItemId, Need, NoMemory, PeId, Sequence, Who};
use fam_layout::Plan;
use fam_model::{
    Call, DataOp, Event, PieceAnswer, PieceKind, Place, PlanKind, PlanPiece, Reply, What,
};
use fam_program::Program;
use ready_lists::ReadyLists;
use std::alloc::Global;
use std::process::Abort;

/// Tells the lists of an event of program 0.
fn tell(lists: &mut ReadyLists, program: &Program, call: u64, what: What) -> Result<(), NoMemory> {
    let event = Event {
        pe: PeId(0),
        call,
        what,
    };
    follow(lists, program, &event)
}

/// A put of one byte on stripe 1, on context 0.
fn put(
    rt: &impl Abort,
    alloc: Global,
    lists: &mut ReadyLists,
    program: &mut Program,
    call: u64,
) -> Result<(), NoMemory> {
    let op = DataOp::Put {
        item: 0,
        offset: 0,
        bytes: Bytes::of(alloc, &[7])?,
    };
    let mut pieces = Sequence::new(alloc);
    pieces.push(PlanPiece {
        item: ItemId(0),
        need: Need::Write,
        kind: PieceKind::Write,
        offset: 0,
        n: 1,
        place: Place {
            stripe: 1,
            row: 0,
            at: 0,
        },
        bytes: Bytes::of(alloc, &[7])?,
    })?;
    let count = pieces.len() as u64;
    assert!(rt; program.is_open(0));
    assert!(rt; program.next_call() < 100);
    assert!(rt; !program.is_over_budget(&op, count));
    let plan = Plan {
        kind: PlanKind::Put,
        pieces,
    };
    program.issue(0, &op, false, plan)?;
    let issued = What::Issue {
        call: Call::Data {
            context: 0,
            op,
            blocking: false,
        },
        reply: Reply::Issued,
    };
    tell(lists, program, call, issued)
}

/// Piece 0 of a call is done.
fn done(
    rt: &impl Abort,
    lists: &mut ReadyLists,
    program: &mut Program,
    call: u64,
) -> Result<(), NoMemory> {
    let answer = PieceAnswer::Ok;
    assert!(rt; program.may_collect(call, 0, &answer));
    program.collected(call, 0, answer);
    let came = What::Piece {
        piece: 0,
        answer: PieceAnswer::Ok,
    };
    tell(lists, program, call, came)
}

/// The only piece that may come is that of the call, on stripe 1; with no call there is none.
fn comes(rt: &impl Abort, lists: &ReadyLists, call: Option<u64>) -> bool {
    assert!(rt; lists.stripes() == 2);
    if lists.count(0) != 0 {
        return false;
    }
    match call {
        Some(call) => lists.count(1) == 1 && lists.at(1, 0).call == call,
        None => lists.count(1) == 0,
    }
}

#[test]
fn a_fence_holds_the_later_put_back(rt: HostRuntime) -> Result<(), NoMemory> {
    let alloc = rt.alloc();
    let mut program = Program::new(alloc, Who { uid: 1, gid: 1 }, true)?;
    let mut lists = ReadyLists::new(alloc, 2)?;
    put(&rt, alloc, &mut lists, &mut program, 0)?;
    assert!(rt; comes(&rt, &lists, Some(0)));
    assert!(rt; program.is_open(0));
    assert!(rt; program.next_call() < 100);
    program.fence(0);
    tell(&mut lists, &program, 1, What::Fence { context: 0 })?;
    put(&rt, alloc, &mut lists, &mut program, 2)?;
    assert!(rt; comes(&rt, &lists, Some(0)));
    done(&rt, &mut lists, &mut program, 0)?;
    assert!(rt; comes(&rt, &lists, Some(2)));
    done(&rt, &mut lists, &mut program, 2)?;
    assert!(rt; comes(&rt, &lists, None));
    Ok(())
}
