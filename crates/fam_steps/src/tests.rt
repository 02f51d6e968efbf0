//! The service, asked step by step.

use crate::{Core, CoreFault, Step};
use fam_base::{Bytes, PeId, Who};
use fam_disk::MemDisk;
use fam_keeper::Keeper;
use fam_model::{Call, DataOp, Event, PieceAnswer, Reply, Service, What};
use fam_rows::common_rows;
use std::alloc::Global;
use std::test::Fail;

const PE: PeId = PeId(0);

/// What is asked.
#[derive(Clone, Copy, Debug)]
enum Ask {
    Put,
    Quiet,
    Leave,
    Crash,
    Answer,
    Piece(u32),
    Lose(u32),
}

/// What comes of it.
#[derive(Clone, Copy, Debug, PartialEq, Eq)]
enum Shown {
    NotEnabled,
    NoMemory,
    Issued,
    Moved,
    Lost,
    Answered,
    Crashed,
    Else,
}

fn asked_for(alloc: Global, ask: Ask) -> Result<Step, Fail> {
    Ok(match ask {
        Ask::Put => Step::Call {
            pe: PE,
            call: Call::Data {
                context: 0,
                op: DataOp::Put {
                    item: 0,
                    offset: 62,
                    bytes: Bytes::of(alloc, &[1, 2, 3, 4])?,
                },
                blocking: true,
            },
        },
        Ask::Quiet => Step::Call {
            pe: PE,
            call: Call::Quiet { context: 0 },
        },
        Ask::Leave => Step::Call {
            pe: PE,
            call: Call::Leave,
        },
        Ask::Crash => Step::Call {
            pe: PE,
            call: Call::Crash,
        },
        Ask::Answer => Step::Answer { pe: PE },
        Ask::Piece(piece) => Step::Piece {
            pe: PE,
            call: 0,
            piece,
        },
        Ask::Lose(piece) => Step::Lose {
            pe: PE,
            call: 0,
            piece,
        },
    })
}

fn what_came(answer: &Result<Event, CoreFault>) -> Shown {
    match answer {
        Err(CoreFault::NotEnabled) => Shown::NotEnabled,
        Err(CoreFault::Memory) => Shown::NoMemory,
        Ok(event) => match &event.what {
            What::Issue {
                reply: Reply::Issued,
                ..
            } => Shown::Issued,
            What::Piece {
                answer: PieceAnswer::Ok,
                ..
            } => Shown::Moved,
            What::Answer { reply: Reply::Done } => Shown::Answered,
            What::Lose { .. } => Shown::Lost,
            What::Crash => Shown::Crashed,
            _ => Shown::Else,
        },
    }
}

/// A put of two pieces. It is answered once both have come, and nothing else comes before. A crash leaves a piece to be
/// lost.
const ROWS: [(Ask, Shown); 14] = [
    (Ask::Answer, Shown::NotEnabled),
    (Ask::Piece(0), Shown::NotEnabled),
    (Ask::Put, Shown::Issued),
    (Ask::Quiet, Shown::NotEnabled),
    (Ask::Leave, Shown::NotEnabled),
    (Ask::Lose(0), Shown::NotEnabled),
    (Ask::Piece(1), Shown::Moved),
    (Ask::Piece(1), Shown::NotEnabled),
    (Ask::Answer, Shown::NotEnabled),
    (Ask::Crash, Shown::Crashed),
    (Ask::Crash, Shown::NotEnabled),
    (Ask::Answer, Shown::NotEnabled),
    (Ask::Lose(0), Shown::Lost),
    (Ask::Piece(0), Shown::NotEnabled),
];

#[test]
fn makes_what_may_come_and_refuses_the_rest(rt: HostRuntime) -> Result<(), Fail> {
    let alloc = rt.alloc();
    let Some(service) = Service::of(1, 2, 64) else {
        return Err(Fail::new("no service"));
    };
    let rows = common_rows(alloc)?;
    let whos = [Who { uid: 5, gid: 5 }];
    let mut core = Core::new(alloc, service, &whos, rows)?;
    let mut keeper = Keeper::<MemDisk>::nothing();
    for (ask, wanted) in ROWS {
        let asked = asked_for(alloc, ask)?;
        let before = core.history().len();
        let result = core.apply(&mut keeper, &asked);
        let came = what_came(&result);
        assert_eq!(rt; came, wanted);
        assert_eq!(rt; core.history().len() > before, result.is_ok());
    }
    Ok(())
}

/// A program goes on by its calls alone.
#[test]
fn goes_on_by_turns(rt: HostRuntime) -> Result<(), Fail> {
    let alloc = rt.alloc();
    let Some(service) = Service::of(1, 1, 64) else {
        return Err(Fail::new("no service"));
    };
    let rows = common_rows(alloc)?;
    let whos = [Who { uid: 5, gid: 5 }];
    let mut core = Core::new(alloc, service, &whos, rows)?;
    let mut keeper = Keeper::<MemDisk>::nothing();
    let leaves = Some(Call::Leave);
    assert_eq!(rt;
        core.go_on(&mut keeper, PE, &None),
        Err(CoreFault::NotEnabled)
    );
    assert_eq!(rt; core.go_on(&mut keeper, PE, &leaves), Ok(()));
    assert!(rt; core.last().is_some());
    assert_eq!(rt;
        core.go_on(&mut keeper, PE, &leaves),
        Err(CoreFault::NotEnabled)
    );
    assert_eq!(rt; core.into_history().len(), 1);
    Ok(())
}
