mod pieces;
mod rules;

use crate::{Machine, StepError};
use fam_base::{
    Bytes, Descriptor, FamError, ItemId, Mode, NoMemory, PeId, RegionId, Sequence, Who,
};
use fam_model::{
    Call, DataOp, Event, MetaCall, Op, OpResult, PieceAnswer, Reply, Service, What, Width,
};
use std::alloc::Global;
use std::test::Fail;

/// A machine of two programs on two stripes, and the first event that it refused, with the rule told.
#[derive(Drop)]
struct Play {
    alloc: Global,
    machine: Machine,
    place: u64,
    broken: Option<(u64, u8)>,
}

impl Play {
    fn new(alloc: Global) -> Result<Play, NoMemory> {
        let whos = [Who { uid: 5, gid: 5 }, Who { uid: 6, gid: 6 }];
        let service = Service {
            servers: 1,
            stripes: 2,
            unit: 64,
        };
        let rows = fam_rows::common_rows(alloc)?;
        Ok(Play {
            alloc,
            machine: Machine::opened(alloc, rows, service, &whos, 2)?,
            place: 0,
            broken: None,
        })
    }

    /// One event more, unless one was refused.
    fn add(&mut self, pe: u32, call: u64, what: What) -> Result<(), NoMemory> {
        if self.broken.is_some() {
            return Ok(());
        }
        let event = Event {
            pe: PeId(pe),
            call,
            what,
        };
        match self.machine.step(&event) {
            Ok(()) => self.place = self.place.saturating_add(1),
            Err(StepError::Illegal(rule)) => self.broken = Some((self.place, rule)),
            Err(StepError::Memory) => return Err(NoMemory),
        }
        Ok(())
    }

    /// The issue of a data call of program 0.
    fn issue(&mut self, call: u64, op: DataOp, blocking: bool) -> Result<(), NoMemory> {
        let call_made = Call::Data {
            context: 0,
            op,
            blocking,
        };
        self.add(
            0,
            call,
            What::Issue {
                call: call_made,
                reply: Reply::Issued,
            },
        )
    }

    fn put(&mut self, call: u64, item: u8, offset: u64, bytes: &[u8]) -> Result<(), NoMemory> {
        let bytes = Bytes::of(self.alloc, bytes)?;
        let op = DataOp::Put {
            item,
            offset,
            bytes,
        };
        self.issue(call, op, false)
    }

    fn get(&mut self, call: u64, item: u8, offset: u64, count: u64) -> Result<(), NoMemory> {
        let op = DataOp::Get {
            item,
            offset,
            count,
        };
        self.issue(call, op, false)
    }

    fn served(&mut self, call: u64, piece: u32) -> Result<(), NoMemory> {
        let answer = PieceAnswer::Ok;
        self.add(0, call, What::Piece { piece, answer })
    }

    fn found(&mut self, call: u64, piece: u32, bytes: &[u8]) -> Result<(), NoMemory> {
        let answer = PieceAnswer::Data(Bytes::of(self.alloc, bytes)?);
        self.add(0, call, What::Piece { piece, answer })
    }

    fn refused(&mut self, call: u64, piece: u32, error: FamError) -> Result<(), NoMemory> {
        let answer = PieceAnswer::Refused(error);
        self.add(0, call, What::Piece { piece, answer })
    }

    /// Region 1 in slot 1.
    fn region(&mut self, call: u64, size: u64) -> Result<(), NoMemory> {
        let Some(mode) = Mode::of(448) else {
            return Ok(());
        };
        let name = Bytes::of(self.alloc, b"a")?;
        let asked = MetaCall::CreateRegion {
            slot: 1,
            name,
            size,
            mode,
        };
        let reply = Reply::Region(RegionId(1));
        self.add(0, call, What::Meta { call: asked, reply })
    }

    /// An item of 64 bytes of region 1 in a slot, by its number and base.
    fn item(
        &mut self,
        call: u64,
        slot: u8,
        name: &[u8],
        number: u64,
        base: u64,
    ) -> Result<(), NoMemory> {
        self.sized_item(call, slot, name, (number, base, 64))
    }

    /// An item of region 1 in a slot, by its number, base and size.
    fn sized_item(
        &mut self,
        call: u64,
        slot: u8,
        name: &[u8],
        place: (u64, u64, u64),
    ) -> Result<(), NoMemory> {
        let (number, base, size) = place;
        let Some(mode) = Mode::of(384) else {
            return Ok(());
        };
        let asked = MetaCall::Allocate {
            slot,
            name: Bytes::of(self.alloc, name)?,
            size,
            mode,
            region: 1,
        };
        let reply = Reply::Item(Descriptor {
            item: ItemId(number),
            region: RegionId(1),
            base,
            size,
        });
        self.add(0, call, What::Meta { call: asked, reply })
    }

    /// The item of slot 1 is closed to all.
    fn shut(&mut self, call: u64) -> Result<(), NoMemory> {
        let Some(mode) = Mode::of(0) else {
            return Ok(());
        };
        let asked = MetaCall::SetItemMode { slot: 1, mode };
        let reply = Reply::Done;
        self.add(0, call, What::Meta { call: asked, reply })
    }

    /// A quiet that reports these calls as done.
    fn quiet(&mut self, call: u64, done: &[u64]) -> Result<(), NoMemory> {
        let mut results = Sequence::new(self.alloc);
        for named in done {
            results.push(OpResult {
                call: *named,
                answer: PieceAnswer::Ok,
            })?;
        }
        self.report(call, results)
    }

    /// A quiet that reports one call, which was refused.
    fn quiet_refused(&mut self, call: u64, named: u64, error: FamError) -> Result<(), NoMemory> {
        let mut results = Sequence::new(self.alloc);
        results.push(OpResult {
            call: named,
            answer: PieceAnswer::Refused(error),
        })?;
        self.report(call, results)
    }

    fn report(&mut self, call: u64, results: Sequence<OpResult>) -> Result<(), NoMemory> {
        let reply = Reply::Report(results);
        self.add(0, call, What::Quiet { context: 0, reply })
    }

    /// Waits for a copy that is done.
    fn wait(&mut self, call: u64, named: u64) -> Result<(), NoMemory> {
        let reply = Reply::Done;
        self.add(
            0,
            call,
            What::Wait {
                context: 0,
                named,
                reply,
            },
        )
    }

    fn fence(&mut self, call: u64) -> Result<(), NoMemory> {
        self.add(0, call, What::Fence { context: 0 })
    }

    /// A copy in the common item to one byte further on.
    fn copy(&mut self, call: u64, count: u64) -> Result<(), NoMemory> {
        let op = DataOp::Copy {
            from: 0,
            from_offset: 0,
            to: 0,
            to_offset: 1,
            count,
        };
        self.issue(call, op, false)
    }

    /// An atomic: a set, or one that gives the old number.
    fn atomic(
        &mut self,
        call: u64,
        width: Width,
        op: Op,
        a: i128,
        b: i128,
    ) -> Result<(), NoMemory> {
        let blocking = !matches!(op, Op::Set);
        let op = DataOp::Atomic {
            item: 0,
            offset: 16,
            width,
            op,
            a,
            b,
        };
        self.issue(call, op, blocking)
    }

    fn answer(&mut self, call: u64, reply: Reply) -> Result<(), NoMemory> {
        self.add(0, call, What::Answer { reply })
    }

    /// A call that would be served is refused.
    fn full(
        &mut self,
        call: u64,
        asked: Call,
        error: FamError,
        doubt: bool,
    ) -> Result<(), NoMemory> {
        self.add(
            0,
            call,
            What::Refused {
                call: asked,
                error,
                doubt,
            },
        )
    }
}

/// A put on two stripes, a fence, and a put whose piece comes in its turn or too soon.
fn fenced(alloc: Global, first: u64, second: u64) -> Result<Option<(u64, u8)>, NoMemory> {
    let mut play = Play::new(alloc)?;
    play.put(0, 0, 0, &[1])?;
    play.fence(1)?;
    play.put(2, 0, 64, &[2])?;
    play.served(first, 0)?;
    play.served(second, 0)?;
    play.quiet(3, &[0, 2])?;
    Ok(play.broken)
}

#[test]
fn no_piece_passes_a_fence(rt: HostRuntime) -> Result<(), Fail> {
    assert_eq!(rt; fenced(rt.alloc(), 0, 2)?, None);
    assert_eq!(rt; fenced(rt.alloc(), 2, 0)?, Some((3, 4)));
    Ok(())
}

/// A copy that overlaps itself: what it read is written, whatever was put there since.
fn copied(alloc: Global, last: u8) -> Result<Option<(u64, u8)>, NoMemory> {
    let mut play = Play::new(alloc)?;
    play.put(0, 0, 0, &[1, 2])?;
    play.served(0, 0)?;
    play.copy(1, 2)?;
    play.served(1, 0)?;
    play.put(2, 0, 0, &[9, 9])?;
    play.served(2, 0)?;
    play.served(1, 1)?;
    play.wait(3, 1)?;
    play.get(4, 0, 0, 3)?;
    play.found(4, 0, &[9, 1, last])?;
    Ok(play.broken)
}

#[test]
fn a_copy_writes_what_it_read(rt: HostRuntime) -> Result<(), Fail> {
    assert_eq!(rt; copied(rt.alloc(), 2)?, None);
    assert_eq!(rt; copied(rt.alloc(), 9)?, Some((9, 5)));
    Ok(())
}

/// An item whose mode changes between the pieces of a put, whose first byte is then read as this.
fn torn(alloc: Global, first: u8) -> Result<Option<(u64, u8)>, NoMemory> {
    let mut play = Play::new(alloc)?;
    play.region(0, 4096)?;
    play.item(1, 1, b"x", 1, 0)?;
    play.item(2, 2, b"y", 2, 64)?;
    play.put(3, 1, 0, &[1])?;
    play.shut(4)?;
    play.refused(3, 0, FamError::NoPermission)?;
    play.put(5, 2, 0, &[7])?;
    play.served(5, 0)?;
    play.add(
        0,
        6,
        What::Meta {
            call: MetaCall::Deallocate { slot: 2 },
            reply: Reply::Done,
        },
    )?;
    play.item(7, 3, b"z", 3, 64)?;
    play.get(8, 3, 0, 1)?;
    play.found(8, 0, &[first])?;
    Ok(play.broken)
}

#[test]
fn refused_pieces_change_nothing_and_new_items_are_zero(rt: HostRuntime) -> Result<(), Fail> {
    assert_eq!(rt; torn(rt.alloc(), 0)?, None);
    assert_eq!(rt; torn(rt.alloc(), 7)?, Some((11, 5)));
    Ok(())
}

/// A barrier at which program 1 arrives, crashes, or does neither, before program 0 passes.
fn passed(alloc: Global, other: Option<What>) -> Result<Option<(u64, u8)>, NoMemory> {
    let mut play = Play::new(alloc)?;
    play.add(0, 0, What::Arrive)?;
    if let Some(what) = other {
        play.add(1, 0, what)?;
    }
    play.answer(0, Reply::Passed)?;
    play.add(0, 1, What::Leave)?;
    Ok(play.broken)
}

#[test]
fn a_barrier_waits_for_its_members(rt: HostRuntime) -> Result<(), Fail> {
    assert_eq!(rt; passed(rt.alloc(), Some(What::Arrive))?, None);
    assert_eq!(rt; passed(rt.alloc(), Some(What::Crash))?, None);
    assert_eq!(rt; passed(rt.alloc(), None)?, Some((1, 10)));
    Ok(())
}

#[test]
fn the_common_item_is_there(rt: HostRuntime) -> Result<(), Fail> {
    let play = Play::new(rt.alloc())?;
    assert_eq!(rt; play.machine.rows().next_item(), 1);
    assert_eq!(rt;
        play.machine.item(ItemId(0)).map(|bytes| bytes.len()),
        Some(4096)
    );
    assert!(rt; play.machine.item(ItemId(1)).is_none());
    Ok(())
}
