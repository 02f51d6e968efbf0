//! Reports that are judged.

use crate::{Verdict, audit};
use fam_base::{Bytes, FamError, NoMemory, PeId, Sequence};
use fam_model::{Call, DataOp, Event, MetaCall, PieceAnswer, Reply, ReplyLine, Report, What};
use fam_rows::common_rows;
use fam_script::parse;
use std::alloc::Global;
use std::test::Fail;

/// Something that happens to the only program.
#[derive(Clone, Copy)]
enum Tag {
    Nothing,
    Stat,
    Put,
    PutWaits,
    PutRefused,
    Piece(u32),
    Absent,
    Answer,
    Open,
    Quiet,
    Wait,
    Arrive,
    Leave,
    Barrier,
}

/// A put of one byte.
fn put(alloc: Global, blocking: bool) -> Result<Call, NoMemory> {
    let bytes = Bytes::of(alloc, &[1])?;
    let op = DataOp::Put {
        item: 0,
        offset: 0,
        bytes,
    };
    Ok(Call::Data {
        context: 0,
        op,
        blocking,
    })
}

fn issue(call: Call, reply: Reply) -> What {
    What::Issue { call, reply }
}

fn stat() -> What {
    What::Meta {
        call: MetaCall::StatRegion { slot: 0 },
        reply: Reply::Done,
    }
}

fn happened(alloc: Global, tag: Tag) -> Result<What, NoMemory> {
    match tag {
        Tag::Stat => Ok(stat()),
        Tag::Put => Ok(issue(put(alloc, false)?, Reply::Issued)),
        Tag::PutWaits => Ok(issue(put(alloc, true)?, Reply::Issued)),
        Tag::PutRefused => Ok(issue(put(alloc, false)?, Reply::Error(FamError::Absent))),
        Tag::Piece(piece) => Ok(What::Piece {
            piece,
            answer: PieceAnswer::Ok,
        }),
        Tag::Absent => Ok(What::Piece {
            piece: 0,
            answer: PieceAnswer::Refused(FamError::Absent),
        }),
        Tag::Answer => Ok(What::Answer { reply: Reply::Done }),
        Tag::Open => Ok(What::OpenContext { context: 0 }),
        Tag::Quiet => Ok(What::Quiet {
            context: 0,
            reply: Reply::Report(Sequence::new(alloc)),
        }),
        Tag::Wait => Ok(What::Wait {
            context: 0,
            named: 0,
            reply: Reply::Done,
        }),
        Tag::Arrive => Ok(What::Arrive),
        Tag::Leave | Tag::Nothing => Ok(What::Leave),
        Tag::Barrier => Ok(What::Refused {
            call: Call::Barrier,
            error: FamError::DiskFault,
            doubt: false,
        }),
    }
}

fn add(alloc: Global, history: &mut Sequence<Event>, tag: Tag, call: u64) -> Result<(), NoMemory> {
    if let Tag::Nothing = tag {
        return Ok(());
    }
    let what = happened(alloc, tag)?;
    history.push(Event {
        pe: PeId(0),
        call,
        what,
    })
}

/// So many lines that tell of a leaving.
fn left(alloc: Global, count: u64) -> Result<Sequence<ReplyLine>, NoMemory> {
    let mut lines = Sequence::new(alloc);
    for call in 0..count {
        lines.push(ReplyLine {
            pe: PeId(0),
            call,
            reply: Reply::Left,
        })?;
    }
    Ok(lines)
}

/// The verdict on two events and some lines, where the only program has these statements.
fn judged(
    alloc: Global,
    statements: &str,
    first: (Tag, u64),
    second: (Tag, u64),
    lines: u64,
) -> Result<Verdict, Fail> {
    let text = format!(in alloc; "service 1 1 64\npe 5 5\n{statements}end\nstop\n")?;
    let script = parse(alloc, text.as_bytes())?;
    let mut history = Sequence::new(alloc);
    add(alloc, &mut history, first.0, first.1)?;
    add(alloc, &mut history, second.0, second.1)?;
    let report = Report {
        replies: left(alloc, lines)?,
        rows: common_rows(alloc)?,
        history,
    };
    Ok(audit(alloc, &script, &report)?)
}

const PUT: &str = "put-nb c0 i0 0 01\n";

#[test]
fn tells_each_rule(rt: HostRuntime) -> Result<(), Fail> {
    for (rule, statements, first, second, line) in [
        (1u8, "fence c0\n", (Tag::Quiet, 0), (Tag::Nothing, 0), 9),
        (2, "stat-region r0\n", (Tag::Stat, 0), (Tag::Nothing, 0), 9),
        (3, PUT, (Tag::PutRefused, 0), (Tag::Nothing, 0), 9),
        (4, PUT, (Tag::Put, 0), (Tag::Piece(1), 0), 10),
        (5, PUT, (Tag::Put, 0), (Tag::Absent, 0), 10),
        (
            6,
            "put c0 i0 0 01\n",
            (Tag::PutWaits, 0),
            (Tag::Answer, 0),
            10,
        ),
        (7, "open c0\n", (Tag::Open, 0), (Tag::Nothing, 0), 9),
        (
            8,
            "put-nb c0 i0 0 01\nquiet c0\n",
            (Tag::Put, 0),
            (Tag::Quiet, 1),
            11,
        ),
        (9, "copy-wait c0 0\n", (Tag::Wait, 0), (Tag::Nothing, 0), 9),
        (10, "barrier\n", (Tag::Arrive, 0), (Tag::Answer, 0), 10),
        (11, PUT, (Tag::Put, 0), (Tag::Leave, 1), 10),
        (12, "barrier\n", (Tag::Barrier, 0), (Tag::Nothing, 0), 9),
        (13, "", (Tag::Leave, 0), (Tag::Nothing, 0), 6),
        (14, "", (Tag::Nothing, 0), (Tag::Nothing, 0), 8),
    ] {
        let verdict = judged(rt.alloc(), statements, first, second, 0)?;
        assert_eq!(rt; verdict, Verdict::Illegal { line, rule });
    }
    Ok(())
}

#[test]
fn compares_the_reply_lines(rt: HostRuntime) -> Result<(), Fail> {
    let leaving = (Tag::Leave, 0);
    let nothing = (Tag::Nothing, 0);
    let right = judged(rt.alloc(), "", leaving, nothing, 1)?;
    assert_eq!(rt; right, Verdict::Legal(1));
    let too_many = judged(rt.alloc(), "", leaving, nothing, 2)?;
    assert_eq!(rt; too_many, Verdict::Illegal { line: 7, rule: 13 });
    Ok(())
}

const PUT_AND_GET: &[u8] =
    b"service 1 1 64\npe 5 5\nput c0 i0 0 01020304\nget c0 i0 0 4\nend\nstop\n";

fn event(history: &mut Sequence<Event>, call: u64, what: What) -> Result<(), NoMemory> {
    history.push(Event {
        pe: PeId(0),
        call,
        what,
    })
}

fn line(lines: &mut Sequence<ReplyLine>, call: u64, reply: Reply) -> Result<(), NoMemory> {
    lines.push(ReplyLine {
        pe: PeId(0),
        call,
        reply,
    })
}

fn waited(op: DataOp) -> What {
    let call = Call::Data {
        context: 0,
        op,
        blocking: true,
    };
    issue(call, Reply::Issued)
}

fn put_four(alloc: Global) -> Result<What, NoMemory> {
    let bytes = Bytes::of(alloc, &[1, 2, 3, 4])?;
    Ok(waited(DataOp::Put {
        item: 0,
        offset: 0,
        bytes,
    }))
}

fn get_four() -> What {
    waited(DataOp::Get {
        item: 0,
        offset: 0,
        count: 4,
    })
}

/// The events of a put and a get that finds these bytes.
fn put_and_get(alloc: Global, found: &[u8]) -> Result<Sequence<Event>, NoMemory> {
    let mut history = Sequence::new(alloc);
    event(&mut history, 0, put_four(alloc)?)?;
    event(&mut history, 0, happened(alloc, Tag::Piece(0))?)?;
    event(&mut history, 0, happened(alloc, Tag::Answer)?)?;
    event(&mut history, 1, get_four())?;
    let answer = PieceAnswer::Data(Bytes::of(alloc, found)?);
    event(&mut history, 1, What::Piece { piece: 0, answer })?;
    let reply = Reply::Bytes(Bytes::of(alloc, &[1, 2, 3, 4])?);
    event(&mut history, 1, What::Answer { reply })?;
    event(&mut history, 2, What::Leave)?;
    Ok(history)
}

fn put_and_got(alloc: Global) -> Result<Sequence<ReplyLine>, NoMemory> {
    let mut lines = Sequence::new(alloc);
    line(&mut lines, 0, Reply::Done)?;
    line(
        &mut lines,
        1,
        Reply::Bytes(Bytes::of(alloc, &[1, 2, 3, 4])?),
    )?;
    line(&mut lines, 2, Reply::Left)?;
    Ok(lines)
}

#[test]
fn judges_a_put_and_a_get(rt: HostRuntime) -> Result<(), Fail> {
    let script = parse(rt.alloc(), PUT_AND_GET)?;
    for (last, want) in [
        (4u8, Verdict::Legal(7)),
        (5, Verdict::Illegal { line: 17, rule: 5 }),
    ] {
        let report = Report {
            replies: put_and_got(rt.alloc())?,
            rows: common_rows(rt.alloc())?,
            history: put_and_get(rt.alloc(), &[1, 2, 3, last])?,
        };
        assert_eq!(rt; audit(rt.alloc(), &script, &report)?, want);
    }
    Ok(())
}
