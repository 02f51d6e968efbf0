use crate::{ReportFault, read};
use fam_base::NoMemory;
use fam_model::{Reply, What};
use fam_text::text_of;
use std::alloc::{AllocError, Global};
use std::test::Fail;

/// The report of a program that puts four bytes and gets them.
const REPORT: [&str; 14] = [
    "replies",
    "0.0 ok",
    "0.1 ok 01020304",
    "0.2 left",
    "opening 1 1",
    "events 7",
    "0.0 issue put c0 i0 0 01020304 : issued",
    "0.0 piece 0 : ok",
    "0.0 answer : ok",
    "0.1 issue get c0 i0 0 4 : issued",
    "0.1 piece 0 : ok 01020304",
    "0.1 answer : ok 01020304",
    "0.2 leave",
    "done",
];

/// A report whose opening has rows of its own.
const OPENING: [&str; 8] = [
    "replies",
    "opening 3 3",
    "region 1 5 5 700 4096 a",
    "region 2 5 4294967295 700 128 b",
    "item 1 1 0 256 5 6 600 x",
    "item 2 1 256 64 5 6 600 y",
    "events 0",
    "done",
];

fn push_line(text: &mut Vec<u8>, line: &str) -> Result<(), AllocError> {
    text.extend_from_slice(line.as_bytes())?;
    text.push(b'\n')?;
    Ok(())
}

/// The lines, with one of them so many times.
fn repeated(
    alloc: Global,
    lines: &[&str],
    number: usize,
    times: usize,
) -> Result<Vec<u8>, AllocError> {
    let mut text = Vec::new(alloc);
    for (place, line) in lines.iter().enumerate() {
        let copies = if place + 1 == number { times } else { 1 };
        for _ in 0..copies {
            push_line(&mut text, line)?;
        }
    }
    Ok(text)
}

/// The lines, with another one in place of one of them.
fn changed(
    alloc: Global,
    lines: &[&str],
    number: usize,
    other: &str,
) -> Result<Vec<u8>, AllocError> {
    let mut text = Vec::new(alloc);
    for (place, line) in lines.iter().enumerate() {
        let shown = if place + 1 == number { other } else { *line };
        push_line(&mut text, shown)?;
    }
    Ok(text)
}

/// The bad line, and 0 for a report.
fn bad_line(alloc: Global, text: &[u8]) -> Result<u64, NoMemory> {
    match read(alloc, text) {
        Ok(_) => Ok(0),
        Err(ReportFault::BadLine(line)) => Ok(line),
        Err(ReportFault::Memory) => Err(NoMemory),
    }
}

#[test]
fn reads_what_is_printed(rt: HostRuntime) -> Result<(), Fail> {
    let alloc = rt.alloc();
    let text = repeated(alloc, &REPORT, 1, 1)?;
    let report = read(alloc, text.as_slice())?;
    assert_eq!(rt; report.replies.len(), 3);
    assert_eq!(rt; report.history.len(), 7);
    assert_eq!(rt; report.rows.next_item, 1);
    let left = report.replies.get(2).ok_or("no reply")?;
    assert!(rt; left.call == 2 && matches!(&left.reply, Reply::Left));
    let last = report.history.get(6).ok_or("no event")?;
    assert!(rt; last.call == 2 && matches!(&last.what, What::Leave));
    assert_eq!(rt; text_of(alloc, &report)?.as_slice(), text.as_slice());
    Ok(())
}

#[test]
fn tells_lines_left_out_and_doubled(rt: HostRuntime) -> Result<(), Fail> {
    let alloc = rt.alloc();
    for (line, left_out, doubled) in [
        (1usize, 1u64, 2u64),
        (2, 0, 0),
        (3, 0, 0),
        (4, 0, 0),
        (5, 5, 6),
        (6, 6, 7),
        (7, 13, 14),
        (8, 13, 14),
        (9, 13, 14),
        (10, 13, 14),
        (11, 13, 14),
        (12, 13, 14),
        (13, 13, 14),
        (14, 14, 15),
    ] {
        let short = repeated(alloc, &REPORT, line, 0)?;
        assert_eq!(rt; bad_line(alloc, short.as_slice())?, left_out, "{line}");
        let long = repeated(alloc, &REPORT, line, 2)?;
        assert_eq!(rt; bad_line(alloc, long.as_slice())?, doubled, "{line}");
    }
    Ok(())
}

#[test]
fn tells_changed_words(rt: HostRuntime) -> Result<(), Fail> {
    let alloc = rt.alloc();
    for (line, other, bad) in [
        (1usize, "reply", 1u64),
        (2, "00.0 ok", 2),
        (2, "0.0 okay", 2),
        (2, "4294967296.0 ok", 2),
        (2, "4294967295.18446744073709551615 ok", 0),
        (3, "0.1 ok 0A", 3),
        (3, "0.1 value -0", 3),
        (4, "0.2 left ", 4),
        (5, "opening 0 1", 5),
        (5, "opening 1 01", 5),
        (6, "event 7", 6),
        (6, "events 6", 13),
        (6, "events 8", 14),
        (7, "0.0 issued put c0 i0 0 01020304 : issued", 7),
        (7, "0.0 issue put c8 i0 0 01020304 : issued", 7),
        (7, "0.0 issue put c0 i16 0 01020304 : issued", 7),
        (7, "0.0 issue put c0 i0 0 01020304 ; issued", 7),
        (7, "0.0 issue put c0 i0 0 01020304 : ok", 7),
        (7, "0.0 meta lookup i0 : : : error Absent", 0),
        (7, "0.0 meta put c0 i0 0 01020304 : ok", 7),
        (7, "0.0 refused destroy r1 : error DiskFault 1", 0),
        (7, "0.0 refused destroy r1 : error DiskFault", 7),
        (7, "0.0 refused destroy r1 : error Absent 1", 7),
        (8, "0.0 piece 0 : issued", 8),
        (9, "0.0 answer ok", 9),
        (10, "0.1 issue get c0 i0 0 04 : issued", 10),
        (11, "0.1 piece 4294967296 : ok 01020304", 11),
        (12, "0.1 answer : report 0=ok 1=ok/- 2=error/Range", 0),
        (12, "0.1 answer : report 0=ok/error", 12),
        (13, "0.2 leave 0", 13),
        (14, "stop", 14),
        (14, "done\n", 15),
    ] {
        let text = changed(alloc, &REPORT, line, other)?;
        assert_eq!(rt; bad_line(alloc, text.as_slice())?, bad, "{other}");
    }
    Ok(())
}

#[test]
fn tells_unlawful_openings(rt: HostRuntime) -> Result<(), Fail> {
    let alloc = rt.alloc();
    for (line, other, bad) in [
        (1usize, "replies", 0u64),
        (3, "region 0 5 5 700 4096 a", 3),
        (3, "region 3 5 5 700 4096 a", 3),
        (3, "region 1 4294967295 5 700 4096 a", 3),
        (3, "region 1 5 5 800 4096 a", 3),
        (3, "region 1 5 5 700 67108865 a", 3),
        (3, "region 1 5 5 700 4096 :", 3),
        (4, "region 1 5 5 700 128 b", 4),
        (4, "region 2 5 5 700 128 a", 4),
        (5, "item 1 3 0 256 5 6 600 x", 5),
        (5, "item 1 1 32 256 5 6 600 x", 5),
        (5, "item 1 1 0 4097 5 6 600 x", 5),
        (6, "item 2 1 192 64 5 6 600 y", 6),
        (6, "item 2 1 256 64 5 6 600 x", 6),
        (6, "region 2 5 5 700 128 c", 6),
    ] {
        let text = changed(alloc, &OPENING, line, other)?;
        assert_eq!(rt; bad_line(alloc, text.as_slice())?, bad, "{other}");
    }
    Ok(())
}

#[test]
fn tells_where_the_text_ends(rt: HostRuntime) -> Result<(), Fail> {
    let alloc = rt.alloc();
    for (text, bad) in [
        ("", 1u64),
        ("replies", 1),
        ("replies\n", 2),
        ("replies\nopening 1 1\nevents 0\ndone", 4),
        ("replies\nopening 1 1\nevents 0\ndone\n", 0),
        ("replies\nopening 1 1\nevents 0\ndone\nx", 5),
    ] {
        assert_eq!(rt; bad_line(alloc, text.as_bytes())?, bad, "{text}");
    }
    Ok(())
}
