use super::{event_text, reply_line_text, text_of};
use fam_base::{Bytes, Descriptor, FamError, ItemId, Mode, NoMemory, PeId, RegionId, Sequence};
use fam_model::{
    Call, DataOp, Event, ItemRow, MetaCall, Op, OpResult, PieceAnswer, RegionInfo, RegionRow,
    Reply, ReplyLine, Report, Rows, What, Width,
};
use std::alloc::Global;
use std::test::Fail;

fn bytes(alloc: Global, from: &[u8]) -> Result<Bytes, NoMemory> {
    Sequence::of(alloc, from)
}

fn mode() -> Result<Mode, &'static str> {
    Mode::of(0o700).ok_or("no mode")
}

fn line(call: u64, reply: Reply) -> ReplyLine {
    ReplyLine {
        pe: PeId(0),
        call,
        reply,
    }
}

fn event(call: u64, what: What) -> Event {
    Event {
        pe: PeId(0),
        call,
        what,
    }
}

fn told(alloc: Global, reply: Reply) -> Result<Vec<u8>, NoMemory> {
    reply_line_text(alloc, &line(0, reply), 0)
}

fn happened(alloc: Global, call: u64, what: What) -> Result<Vec<u8>, NoMemory> {
    event_text(alloc, &event(call, what), 64)
}

fn issued(call: Call) -> What {
    What::Issue {
        call,
        reply: Reply::Issued,
    }
}

fn put(alloc: Global) -> Result<Call, NoMemory> {
    Ok(Call::Data {
        context: 0,
        op: DataOp::Put {
            item: 0,
            offset: 0,
            bytes: bytes(alloc, &[1, 2, 3, 4])?,
        },
        blocking: true,
    })
}

fn get() -> Call {
    Call::Data {
        context: 0,
        op: DataOp::Get {
            item: 0,
            offset: 0,
            count: 4,
        },
        blocking: true,
    }
}

fn replies(alloc: Global) -> Result<Sequence<ReplyLine>, NoMemory> {
    let mut replies = Sequence::new(alloc);
    replies.push(line(0, Reply::Done))?;
    replies.push(line(1, Reply::Bytes(bytes(alloc, &[1, 2, 3, 4])?)))?;
    replies.push(line(2, Reply::Left))?;
    Ok(replies)
}

fn region(alloc: Global, number: u64, name: &[u8]) -> Result<RegionRow, Fail> {
    Ok(RegionRow {
        number: RegionId(number),
        uid: 5,
        gid: 5,
        mode: mode()?,
        size: 4096,
        name: bytes(alloc, name)?,
    })
}

fn item(alloc: Global, number: u64, name: &[u8]) -> Result<ItemRow, Fail> {
    Ok(ItemRow {
        number: ItemId(number),
        region: RegionId(0),
        base: 0,
        size: 256,
        uid: 5,
        gid: 6,
        mode: mode()?,
        name: bytes(alloc, name)?,
    })
}

fn rows(alloc: Global) -> Result<Rows, Fail> {
    let mut regions = Sequence::new(alloc);
    regions.push(region(alloc, 0, b"common")?)?;
    let mut items = Sequence::new(alloc);
    items.push(item(alloc, 0, b"common")?)?;
    Ok(Rows {
        regions,
        items,
        next_region: 1,
        next_item: 1,
    })
}

fn history(alloc: Global) -> Result<Sequence<Event>, NoMemory> {
    let read = &[1, 2, 3, 4];
    let mut history = Sequence::new(alloc);
    history.push(event(0, issued(put(alloc)?)))?;
    history.push(event(
        0,
        What::Piece {
            piece: 0,
            answer: PieceAnswer::Ok,
        },
    ))?;
    history.push(event(0, What::Answer { reply: Reply::Done }))?;
    history.push(event(1, issued(get())))?;
    history.push(event(
        1,
        What::Piece {
            piece: 0,
            answer: PieceAnswer::Data(bytes(alloc, read)?),
        },
    ))?;
    history.push(event(
        1,
        What::Answer {
            reply: Reply::Bytes(bytes(alloc, read)?),
        },
    ))?;
    history.push(event(2, What::Leave))?;
    Ok(history)
}

#[test]
fn prints_a_report(rt: HostRuntime) -> Result<(), Fail> {
    let alloc = rt.alloc();
    let report = Report {
        replies: replies(alloc)?,
        rows: rows(alloc)?,
        history: history(alloc)?,
    };
    let expected = "replies\n0.0 ok\n0.1 ok 01020304\n0.2 left\nopening 1 1\nevents 7\n\
        0.0 issue put c0 i0 0 01020304 : issued\n0.0 piece 0 : ok\n0.0 answer : ok\n\
        0.1 issue get c0 i0 0 4 : issued\n0.1 piece 0 : ok 01020304\n0.1 answer : ok 01020304\n\
        0.2 leave\ndone\n";
    assert_eq!(rt; text_of(alloc, &report)?.as_slice(), expected.as_bytes());
    Ok(())
}

#[test]
fn prints_the_opening(rt: HostRuntime) -> Result<(), Fail> {
    let alloc = rt.alloc();
    let mut rows = rows(alloc)?;
    rows.regions.push(region(alloc, 1, b"a")?)?;
    rows.items.push(item(alloc, 1, b"b")?)?;
    rows.next_region = 2;
    rows.next_item = 2;
    let report = Report {
        replies: Sequence::new(alloc),
        rows,
        history: Sequence::new(alloc),
    };
    let expected = "replies\nopening 2 2\nregion 1 5 5 700 4096 a\nitem 1 0 0 256 5 6 700 b\n\
        events 0\ndone\n";
    assert_eq!(rt; text_of(alloc, &report)?.as_slice(), expected.as_bytes());
    Ok(())
}

fn region_stat(alloc: Global) -> Result<Reply, Fail> {
    Ok(Reply::RegionStat(RegionInfo {
        name: bytes(alloc, b"a")?,
        size: 192,
        uid: 5,
        gid: 5,
        mode: mode()?,
    }))
}

fn results(alloc: Global) -> Result<Reply, NoMemory> {
    let mut results = Sequence::new(alloc);
    results.push(OpResult {
        call: 0,
        answer: PieceAnswer::Ok,
    })?;
    results.push(OpResult {
        call: 1,
        answer: PieceAnswer::Data(bytes(alloc, &[0, 0, 3, 4])?),
    })?;
    results.push(OpResult {
        call: 2,
        answer: PieceAnswer::Refused(FamError::NoPermission),
    })?;
    Ok(Reply::Report(results))
}

fn descriptor() -> Descriptor {
    Descriptor {
        item: ItemId(1),
        region: RegionId(1),
        base: 0,
        size: 256,
    }
}

#[test]
fn prints_replies(rt: HostRuntime) -> Result<(), Fail> {
    let alloc = rt.alloc();
    let full = FamError::HistoryFull {
        used: 262_144,
        need: 1,
    };
    assert_eq!(rt;
        told(alloc, Reply::Bytes(Sequence::new(alloc)))?.as_slice(),
        b"0.0 ok -".as_slice()
    );
    assert_eq!(rt;
        told(alloc, Reply::Value(-1))?.as_slice(),
        b"0.0 value -1".as_slice()
    );
    assert_eq!(rt;
        told(alloc, Reply::Item(descriptor()))?.as_slice(),
        b"0.0 item 1 1 0 256".as_slice()
    );
    assert_eq!(rt;
        told(alloc, Reply::Error(full))?.as_slice(),
        b"0.0 error HistoryFull 262144 1".as_slice()
    );
    assert_eq!(rt;
        told(alloc, region_stat(alloc)?)?.as_slice(),
        b"0.0 region-stat a 192 5 5 700".as_slice()
    );
    assert_eq!(rt;
        told(alloc, results(alloc)?)?.as_slice(),
        b"0.0 report 0=ok 1=ok/00000304 2=error/NoPermission".as_slice()
    );
    Ok(())
}

fn refused(alloc: Global) -> Result<What, Fail> {
    Ok(What::Refused {
        call: Call::Meta(MetaCall::CreateRegion {
            slot: 1,
            name: bytes(alloc, b"a")?,
            size: 4096,
            mode: mode()?,
        }),
        error: FamError::DiskFault,
        doubt: true,
    })
}

fn atomic() -> Call {
    Call::Data {
        context: 0,
        op: DataOp::Atomic {
            item: 0,
            offset: 8,
            width: Width::I64,
            op: Op::Set,
            a: -1,
            b: 0,
        },
        blocking: false,
    }
}

fn scatter_index(alloc: Global) -> Result<Call, NoMemory> {
    Ok(Call::Data {
        context: 0,
        op: DataOp::ScatterIndex {
            item: 0,
            size: 1,
            places: Sequence::of(alloc, &[5, 5])?,
            bytes: bytes(alloc, &[7, 8])?,
        },
        blocking: true,
    })
}

#[test]
fn prints_events(rt: HostRuntime) -> Result<(), Fail> {
    let alloc = rt.alloc();
    assert_eq!(rt;
        happened(alloc, 2, What::Lose { piece: 0 })?.as_slice(),
        b"0.2 lose 0".as_slice()
    );
    assert_eq!(rt;
        happened(alloc, 0, refused(alloc)?)?.as_slice(),
        b"0.0 refused region r1 a 4096 700 : error DiskFault 1".as_slice()
    );
    assert_eq!(rt;
        happened(alloc, 1, issued(atomic()))?.as_slice(),
        b"0.1 issue atomic c0 i0 8 i64 set -1 : issued".as_slice()
    );
    assert_eq!(rt;
        happened(alloc, 1, issued(scatter_index(alloc)?))?.as_slice(),
        b"0.1 issue scatter-index c0 i0 1 5,5 0708 : issued".as_slice()
    );
    Ok(())
}
