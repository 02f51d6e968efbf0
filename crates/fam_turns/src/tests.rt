//! Programs that act by turns on the memory machine.

use crate::{Next, may_act, next_events_are_scheduled, next_what};
use fam_base::{Bytes, FamError, Mode, NoMemory, PeId, Who};
use fam_machine::{Machine, StepError};
use fam_model::{Call, DataOp, Event, MetaCall, Op, PieceAnswer, Reply, Service, What, Width};
use std::alloc::Global;
use std::test::Fail;

/// What a program is asked, or what is answered to one of its pieces.
#[derive(Clone, Copy, Debug)]
enum Ask {
    Nothing,
    Absent,
    Empty,
    Region,
    Item,
    Put { context: u8, item: u8, offset: u64 },
    Get,
    Atomic { offset: u64 },
    Copy,
    Open(u8),
    Close(u8),
    Fence(u8),
    Quiet(u8),
    Wait(u64),
    Barrier,
    Leave,
    Crash,
    Served(u64, u32),
    Found(u64, u32),
}

/// What comes of it.
#[derive(Clone, Copy, Debug, PartialEq, Eq)]
enum Shown {
    /// There is no next event.
    Nothing,
    /// The next event may not come.
    Waits,
    /// What may come and what the machine takes differ.
    Wrong,
    Refused(FamError),
    Issued,
    Begun,
    Failed(FamError),
    Region(u64),
    Item(u64),
    Bytes(usize),
    Done,
    Passed,
    Report(usize),
    Piece,
}

type Row = (u32, Ask, Shown);

/// Three programs on two stripes, of which the last is no member of the barrier.
#[derive(Drop)]
struct Play {
    alloc: Global,
    machine: Machine,
}

fn told(reply: &Reply) -> Shown {
    match reply {
        Reply::Error(error) => Shown::Failed(*error),
        Reply::Region(region) => Shown::Region(region.0),
        Reply::Item(descriptor) => Shown::Item(descriptor.base),
        Reply::Bytes(bytes) => Shown::Bytes(bytes.len()),
        Reply::Done => Shown::Done,
        Reply::Passed => Shown::Passed,
        Reply::Report(results) => Shown::Report(results.len()),
        _ => Shown::Wrong,
    }
}

fn shown_by(what: &What) -> Shown {
    match what {
        What::Issue { reply, .. } => match reply {
            Reply::Error(error) => Shown::Refused(*error),
            _ => Shown::Issued,
        },
        What::Meta { reply, .. }
        | What::Answer { reply }
        | What::CloseContext { reply, .. }
        | What::Quiet { reply, .. }
        | What::Wait { reply, .. } => told(reply),
        What::OpenContext { .. } | What::Fence { .. } | What::Arrive | What::Leave | What::Crash =>
            Shown::Begun,
        _ => Shown::Wrong,
    }
}

fn data(context: u8, op: DataOp, blocking: bool) -> Call {
    Call::Data {
        context,
        op,
        blocking,
    }
}

fn meta_of(alloc: Global, ask: Ask) -> Result<Option<MetaCall>, NoMemory> {
    let Some(mode) = Mode::of(448) else {
        return Ok(None);
    };
    let name = Bytes::of(alloc, b"a")?;
    Ok(match ask {
        Ask::Absent => Some(MetaCall::LookupRegion { slot: 1, name }),
        Ask::Empty => Some(MetaCall::StatRegion { slot: 5 }),
        Ask::Region => Some(MetaCall::CreateRegion {
            slot: 1,
            name,
            size: 4096,
            mode,
        }),
        Ask::Item => Some(MetaCall::Allocate {
            slot: 1,
            name,
            size: 64,
            mode,
            region: 1,
        }),
        _ => None,
    })
}

fn data_of(alloc: Global, ask: Ask) -> Result<Option<Call>, NoMemory> {
    Ok(match ask {
        Ask::Put {
            context,
            item,
            offset,
        } => {
            let bytes = Bytes::of(alloc, b"ab")?;
            let op = DataOp::Put {
                item,
                offset,
                bytes,
            };
            Some(data(context, op, false))
        }
        Ask::Get => {
            let op = DataOp::Get {
                item: 0,
                offset: 0,
                count: 2,
            };
            Some(data(0, op, true))
        }
        Ask::Copy => {
            let op = DataOp::Copy {
                from: 0,
                from_offset: 0,
                to: 1,
                to_offset: 0,
                count: 2,
            };
            Some(data(0, op, false))
        }
        Ask::Atomic { offset } => {
            let op = DataOp::Atomic {
                item: 0,
                offset,
                width: Width::U32,
                op: Op::Add,
                a: 1,
                b: 0,
            };
            Some(data(0, op, false))
        }
        _ => None,
    })
}

fn plain_of(ask: Ask) -> Option<Call> {
    match ask {
        Ask::Open(context) => Some(Call::OpenContext { context }),
        Ask::Close(context) => Some(Call::CloseContext { context }),
        Ask::Fence(context) => Some(Call::Fence { context }),
        Ask::Quiet(context) => Some(Call::Quiet { context }),
        Ask::Wait(call) => Some(Call::CopyWait { context: 0, call }),
        Ask::Barrier => Some(Call::Barrier),
        Ask::Leave => Some(Call::Leave),
        Ask::Crash => Some(Call::Crash),
        _ => None,
    }
}

fn call_of(alloc: Global, ask: Ask) -> Result<Option<Call>, NoMemory> {
    if let Some(asked) = meta_of(alloc, ask)? {
        return Ok(Some(Call::Meta(asked)));
    }
    match data_of(alloc, ask)? {
        Some(asked) => Ok(Some(asked)),
        None => Ok(plain_of(ask)),
    }
}

/// What a program does next, and whether it may.
fn next_at(
    alloc: Global,
    machine: &Machine,
    pe: u32,
    asked: &Option<Call>,
) -> Result<Option<(Next, bool)>, NoMemory> {
    let layout = machine.layout();
    let Some(program) = machine.program(pe) else {
        return Ok(None);
    };
    let may = may_act(program, machine.round(), asked);
    match next_what(alloc, layout, machine.rows(), program, asked)? {
        Some(next) => Ok(Some((next, may))),
        None => Ok(None),
    }
}

impl Play {
    fn new(alloc: Global) -> Result<Play, NoMemory> {
        let who = Who { uid: 5, gid: 5 };
        let service = Service {
            servers: 1,
            stripes: 2,
            unit: 64,
        };
        let rows = fam_rows::common_rows(alloc)?;
        Ok(Play {
            alloc,
            machine: Machine::opened(alloc, rows, service, &[who, who, who], 2)?,
        })
    }

    /// The machine takes an event just where it may come.
    fn take(&mut self, event: &Event, may: bool, shown: Shown) -> Result<Shown, NoMemory> {
        match self.machine.step(event) {
            Ok(()) => Ok(if may { shown } else { Shown::Wrong }),
            Err(StepError::Illegal(_)) => Ok(if may { Shown::Wrong } else { Shown::Waits }),
            Err(StepError::Memory) => Err(NoMemory),
        }
    }

    /// A piece is answered.
    fn answer(
        &mut self,
        pe: u32,
        call: u64,
        piece: u32,
        answer: PieceAnswer,
    ) -> Result<Shown, NoMemory> {
        let event = Event {
            pe: PeId(pe),
            call,
            what: What::Piece { piece, answer },
        };
        self.take(&event, true, Shown::Piece)
    }

    /// The next event of a program, if it may come.
    fn act(&mut self, pe: u32, asked: &Option<Call>) -> Result<Shown, NoMemory> {
        match next_at(self.alloc, &self.machine, pe, asked)? {
            Some((next, may)) => {
                let shown = shown_by(&next.what);
                let event = Event {
                    pe: PeId(pe),
                    call: next.call,
                    what: next.what,
                };
                self.take(&event, may, shown)
            }
            None => Ok(Shown::Nothing),
        }
    }

    fn add(&mut self, pe: u32, ask: Ask) -> Result<Shown, NoMemory> {
        match ask {
            Ask::Served(call, piece) => self.answer(pe, call, piece, PieceAnswer::Ok),
            Ask::Found(call, piece) => {
                let bytes = Bytes::of(self.alloc, b"ab")?;
                self.answer(pe, call, piece, PieceAnswer::Data(bytes))
            }
            _ => {
                let asked = call_of(self.alloc, ask)?;
                self.act(pe, &asked)
            }
        }
    }
}

/// The first row that goes otherwise, and how.
fn first_other(alloc: Global, rows: &[Row]) -> Result<Option<(usize, Shown)>, NoMemory> {
    let mut play = Play::new(alloc)?;
    for (at, (pe, ask, wanted)) in rows.iter().enumerate() {
        let shown = play.add(*pe, *ask)?;
        if shown != *wanted {
            return Ok(Some((at, shown)));
        }
    }
    Ok(None)
}

#[test]
fn calls_begin_or_are_refused(rt: HostRuntime) -> Result<(), Fail> {
    let rows = [
        (0, Ask::Absent, Shown::Failed(FamError::Absent)),
        (0, Ask::Empty, Shown::Refused(FamError::BadHandle)),
        (0, Ask::Region, Shown::Region(1)),
        (0, Ask::Item, Shown::Item(0)),
        (
            0,
            Ask::Atomic { offset: 4098 },
            Shown::Refused(FamError::Unaligned),
        ),
        (
            0,
            Ask::Atomic { offset: 4096 },
            Shown::Refused(FamError::Range),
        ),
        (0, Ask::Open(0), Shown::Refused(FamError::Exists)),
        (0, Ask::Open(1), Shown::Begun),
        (0, Ask::Fence(1), Shown::Begun),
        (0, Ask::Close(1), Shown::Report(0)),
        (
            0,
            Ask::Put {
                context: 1,
                item: 0,
                offset: 9999,
            },
            Shown::Refused(FamError::BadHandle),
        ),
        // a context that there is not is no well-formed call
        (0, Ask::Quiet(9), Shown::Waits),
    ];
    assert_eq!(rt; first_other(rt.alloc(), &rows)?, None);
    Ok(())
}

#[test]
fn what_is_left_is_waited_for(rt: HostRuntime) -> Result<(), Fail> {
    let rows = [
        (
            0,
            Ask::Put {
                context: 0,
                item: 0,
                offset: 0,
            },
            Shown::Issued,
        ),
        (0, Ask::Quiet(0), Shown::Waits),
        (0, Ask::Leave, Shown::Waits),
        (0, Ask::Close(0), Shown::Refused(FamError::Unsupported)),
        (0, Ask::Served(0, 0), Shown::Piece),
        (0, Ask::Quiet(0), Shown::Report(1)),
        (0, Ask::Get, Shown::Issued),
        (0, Ask::Nothing, Shown::Waits),
        (0, Ask::Found(3, 0), Shown::Piece),
        (0, Ask::Nothing, Shown::Bytes(2)),
        (0, Ask::Region, Shown::Region(1)),
        (0, Ask::Item, Shown::Item(0)),
        (0, Ask::Copy, Shown::Issued),
        (0, Ask::Wait(6), Shown::Waits),
        (0, Ask::Served(6, 0), Shown::Piece),
        (0, Ask::Wait(6), Shown::Waits),
        (0, Ask::Served(6, 1), Shown::Piece),
        (0, Ask::Wait(6), Shown::Done),
        (0, Ask::Wait(6), Shown::Refused(FamError::BadHandle)),
    ];
    assert_eq!(rt; first_other(rt.alloc(), &rows)?, None);
    Ok(())
}

#[test]
fn programs_meet_and_end(rt: HostRuntime) -> Result<(), Fail> {
    next_events_are_scheduled();
    let rows = [
        (0, Ask::Nothing, Shown::Nothing),
        (0, Ask::Barrier, Shown::Begun),
        (0, Ask::Barrier, Shown::Waits),
        (2, Ask::Barrier, Shown::Waits),
        (1, Ask::Barrier, Shown::Begun),
        (0, Ask::Nothing, Shown::Passed),
        (1, Ask::Nothing, Shown::Passed),
        (1, Ask::Barrier, Shown::Begun),
        (1, Ask::Nothing, Shown::Waits),
        (0, Ask::Crash, Shown::Begun),
        (0, Ask::Open(1), Shown::Waits),
        (1, Ask::Nothing, Shown::Passed),
        (1, Ask::Leave, Shown::Begun),
        (1, Ask::Leave, Shown::Waits),
    ];
    assert_eq!(rt; first_other(rt.alloc(), &rows)?, None);
    Ok(())
}
