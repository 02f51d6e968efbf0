//! Reports that are judged, seen from outside.

mod openings;
mod rules;

use crate::audit::audit_main;
use fam_base::{Bytes, Places};
use fam_io::{MemSink, MemSource};
use std::alloc::Global;
use std::process::Abort;
use std::test::Fail;

/// A script of two statements, and its report.
const INPUT: [&str; 20] = [
    "service 1 1 64",
    "pe 5 5",
    "put c0 i0 0 01020304",
    "get c0 i0 0 4",
    "end",
    "stop",
    "replies",
    "0.0 ok",
    "0.1 ok 01020304",
    "0.2 left",
    "opening 1 1",
    "events 7",
    "0.0 issue put c0 i0 0 01020304 : issued",
    "0.0 piece 0 : ok",
    "0.0 answer : ok",
    "0.1 issue get c0 i0 0 4 : issued",
    "0.1 piece 0 : ok 01020304",
    "0.1 answer : ok 01020304",
    "0.2 leave",
    "done",
];

/// What a command leaves.
#[derive(Drop)]
struct Left {
    status: u8,
    output: Bytes,
}

/// Judges an input by the command of these words, where these reads and writes fail.
fn audited(
    alloc: Global,
    line: &str,
    input: &[u8],
    failing_reads: &[u64],
    failing_writes: &[u64],
) -> Result<Left, Fail> {
    let mut words = Vec::new(alloc);
    for word in line.split(' ') {
        words.push(String::from_str(alloc, word)?)?;
    }
    let mut source = MemSource::new(Bytes::of(alloc, input)?, Places::of(alloc, failing_reads)?);
    let mut sink = MemSink::new(alloc, Places::of(alloc, failing_writes)?);
    let status = audit_main(alloc, &words, &mut source, &mut sink);
    Ok(Left {
        status,
        output: Bytes::of(alloc, sink.written())?,
    })
}

/// The status with which a line is told.
fn status_of(told: &str) -> u8 {
    if told.starts_with("legal") {
        0
    } else if told.starts_with("illegal") {
        8
    } else {
        3
    }
}

/// Judges an input, and compares what is told.
fn check(rt: &impl Abort, alloc: Global, input: &[u8], told: &str) -> Result<(), Fail> {
    let left = audited(alloc, "audit", input, &[], &[])?;
    assert_eq!(rt; left.output.as_slice(), told.as_bytes(), "{told}");
    assert_eq!(rt; left.status, status_of(told), "{told}");
    Ok(())
}

fn push_line(text: &mut Vec<u8>, line: &str) -> Result<(), Fail> {
    text.extend_from_slice(line.as_bytes())?;
    text.push(b'\n')?;
    Ok(())
}

/// A line so many times.
fn push_lines(text: &mut Vec<u8>, line: &str, copies: usize) -> Result<(), Fail> {
    for _ in 0..copies {
        push_line(text, line)?;
    }
    Ok(())
}

/// The input with another line in place of one of its lines.
fn changed(alloc: Global, number: usize, other: &str) -> Result<Vec<u8>, Fail> {
    let mut text = Vec::new(alloc);
    for (place, line) in INPUT.iter().enumerate() {
        let shown = if place + 1 == number { other } else { *line };
        push_line(&mut text, shown)?;
    }
    Ok(text)
}

/// The input with one of its lines so many times, and that number of events.
fn repeated(alloc: Global, number: usize, times: usize, events: &str) -> Result<Vec<u8>, Fail> {
    let mut text = Vec::new(alloc);
    for (place, line) in INPUT.iter().enumerate() {
        let copies = if place + 1 == number { times } else { 1 };
        let shown = if place == 11 { events } else { *line };
        push_lines(&mut text, shown, copies)?;
    }
    Ok(text)
}

#[test]
fn judges_a_put_and_a_get(rt: HostRuntime) -> Result<(), Fail> {
    let right = repeated(rt.alloc(), 1, 1, "events 7")?;
    check(&rt, rt.alloc(), right.as_slice(), "legal 7\n")?;
    let wrong = changed(rt.alloc(), 17, "0.1 piece 0 : ok 01020305")?;
    check(&rt, rt.alloc(), wrong.as_slice(), "illegal 17 5\n")
}

#[test]
fn tells_lines_left_out_and_doubled(rt: HostRuntime) -> Result<(), Fail> {
    let table: [(usize, &str, &str); 20] = [
        (1, "bad line 1\n", "bad line 2\n"),
        (2, "bad line 2\n", "bad line 3\n"),
        (3, "illegal 12 1\n", "illegal 17 1\n"),
        (4, "illegal 15 1\n", "illegal 20 1\n"),
        (5, "bad line 5\n", "bad line 6\n"),
        (6, "bad line 6\n", "illegal 7 15\n"),
        (7, "illegal 7 15\n", "illegal 8 15\n"),
        (8, "illegal 8 13\n", "illegal 9 13\n"),
        (9, "illegal 9 13\n", "illegal 10 13\n"),
        (10, "illegal 10 13\n", "illegal 11 13\n"),
        (11, "illegal 11 15\n", "illegal 12 15\n"),
        (12, "illegal 12 15\n", "illegal 13 15\n"),
        (13, "illegal 19 15\n", "illegal 20 15\n"),
        (14, "illegal 19 15\n", "illegal 20 15\n"),
        (15, "illegal 19 15\n", "illegal 20 15\n"),
        (16, "illegal 19 15\n", "illegal 20 15\n"),
        (17, "illegal 19 15\n", "illegal 20 15\n"),
        (18, "illegal 19 15\n", "illegal 20 15\n"),
        (19, "illegal 19 15\n", "illegal 20 15\n"),
        (20, "illegal 20 15\n", "illegal 21 15\n"),
    ];
    for (number, left_out, doubled) in table {
        let short = repeated(rt.alloc(), number, 0, "events 7")?;
        check(&rt, rt.alloc(), short.as_slice(), left_out)?;
        let long = repeated(rt.alloc(), number, 2, "events 7")?;
        check(&rt, rt.alloc(), long.as_slice(), doubled)?;
    }
    Ok(())
}

/// The same of events, where their number is the right one.
#[test]
fn tells_events_left_out_and_doubled(rt: HostRuntime) -> Result<(), Fail> {
    let table: [(usize, &str, &str); 7] = [
        (13, "illegal 13 4\n", "illegal 14 1\n"),
        (14, "illegal 14 6\n", "illegal 15 4\n"),
        (15, "illegal 15 1\n", "illegal 16 6\n"),
        (16, "illegal 16 4\n", "illegal 17 1\n"),
        (17, "illegal 17 6\n", "illegal 18 4\n"),
        (18, "illegal 18 1\n", "illegal 19 6\n"),
        (19, "illegal 19 14\n", "illegal 20 1\n"),
    ];
    for (number, left_out, doubled) in table {
        let short = repeated(rt.alloc(), number, 0, "events 6")?;
        check(&rt, rt.alloc(), short.as_slice(), left_out)?;
        let long = repeated(rt.alloc(), number, 2, "events 8")?;
        check(&rt, rt.alloc(), long.as_slice(), doubled)?;
    }
    Ok(())
}

/// Changes lines, each by its number, and compares what is told.
fn check_changed(
    rt: &impl Abort,
    alloc: Global,
    table: &[(usize, &str, &str)],
) -> Result<(), Fail> {
    for (number, other, told) in table {
        let input = changed(alloc, *number, other)?;
        check(rt, alloc, input.as_slice(), told)?;
    }
    Ok(())
}

/// What is done to a word of a line.
#[derive(Clone, Copy)]
enum Edit {
    Spoilt,
    LeftOut,
    Doubled,
}

fn push_word(text: &mut String, word: &str) -> Result<(), Fail> {
    if !text.is_empty() {
        text.push(' ')?;
    }
    text.push_str(word)?;
    Ok(())
}

/// A line with one of its words changed.
fn edited(alloc: Global, line: &str, at: usize, edit: Edit) -> Result<String, Fail> {
    let mut text = String::new(alloc);
    for (place, word) in line.split(' ').enumerate() {
        match edit {
            Edit::Spoilt if place == at => push_word(&mut text, "x")?,
            Edit::LeftOut if place == at => {}
            Edit::Doubled if place == at => {
                push_word(&mut text, word)?;
                push_word(&mut text, word)?;
            }
            _ => push_word(&mut text, word)?,
        }
    }
    Ok(text)
}

/// The rule that a line of the report breaks with one of its words changed: it has another form, but where just bytes are
/// missing.
fn rule_of(number: usize, at: usize, edit: Edit) -> u8 {
    match (edit, number, at) {
        (Edit::LeftOut, 9, 2) => 13,
        (Edit::LeftOut, 17, 5) => 5,
        (Edit::LeftOut, 18, 4) => 6,
        _ => 15,
    }
}

/// Changes each word of a line in turn: that very line is told.
fn check_each_word(
    rt: &impl Abort,
    alloc: Global,
    number: usize,
    line: &str,
    edit: Edit,
) -> Result<(), Fail> {
    for at in 0..line.split(' ').count() {
        let other = edited(alloc, line, at, edit)?;
        let input = changed(alloc, number, other.as_str())?;
        let told = if number <= 6 {
            format!(in alloc; "bad line {number}\n")?
        } else {
            format!(in alloc; "illegal {number} {}\n", rule_of(number, at, edit))?
        };
        check(rt, alloc, input.as_slice(), told.as_str())?;
    }
    Ok(())
}

#[test]
fn tells_the_line_of_each_word(rt: HostRuntime) -> Result<(), Fail> {
    for edit in [Edit::Spoilt, Edit::LeftOut, Edit::Doubled] {
        for (place, line) in INPUT.iter().enumerate() {
            check_each_word(&rt, rt.alloc(), place + 1, line, edit)?;
        }
    }
    Ok(())
}

#[test]
fn tells_changed_words_of_replies(rt: HostRuntime) -> Result<(), Fail> {
    let table: [(usize, &str, &str); 19] = [
        (6, "Stop", "bad line 6\n"),
        (7, "reply", "illegal 7 15\n"),
        (8, "1.0 ok", "illegal 8 13\n"),
        (8, "0.1 ok", "illegal 8 13\n"),
        (8, "0.0 passed", "illegal 8 13\n"),
        (8, "0.0 okay", "illegal 8 15\n"),
        (9, "0.2 ok 01020304", "illegal 9 13\n"),
        (9, "0.1 issued 01020304", "illegal 9 15\n"),
        (9, "0.1 ok 01020305", "illegal 9 13\n"),
        (9, "0.1 ok 0102030", "illegal 9 15\n"),
        (10, "0.3 left", "illegal 10 13\n"),
        (9, "0.1 passed", "illegal 9 13\n"),
        (10, "0.2 crashed", "illegal 10 13\n"),
        (10, "1.0 left", "illegal 10 13\n"),
        (10, "0.2 right", "illegal 10 15\n"),
        (11, "closing 1 1", "illegal 11 15\n"),
        (11, "opening 0 1", "illegal 11 15\n"),
        (11, "opening 1 01", "illegal 11 15\n"),
        (11, "opening 2 3", "legal 7\n"),
    ];
    check_changed(&rt, rt.alloc(), &table)
}

#[test]
fn tells_changed_words_of_a_put(rt: HostRuntime) -> Result<(), Fail> {
    let table: [(usize, &str, &str); 16] = [
        (12, "event 7", "illegal 12 15\n"),
        (12, "events 6", "illegal 19 15\n"),
        (12, "events 8", "illegal 20 15\n"),
        (
            13,
            "1.0 issue put c0 i0 0 01020304 : issued",
            "illegal 13 1\n",
        ),
        (
            13,
            "0.1 issue put c0 i0 0 01020304 : issued",
            "illegal 13 1\n",
        ),
        (
            13,
            "0.0 meta put c0 i0 0 01020304 : issued",
            "illegal 13 15\n",
        ),
        (
            13,
            "0.0 issue put-nb c0 i0 0 01020304 : issued",
            "illegal 13 1\n",
        ),
        (
            13,
            "0.0 issue put c1 i0 0 01020304 : issued",
            "illegal 13 1\n",
        ),
        (
            13,
            "0.0 issue put c0 i1 0 01020304 : issued",
            "illegal 13 1\n",
        ),
        (
            13,
            "0.0 issue put c0 i16 0 01020304 : issued",
            "illegal 13 15\n",
        ),
        (
            13,
            "0.0 issue put c0 i0 1 01020304 : issued",
            "illegal 13 1\n",
        ),
        (
            13,
            "0.0 issue put c0 i0 0 01020305 : issued",
            "illegal 13 1\n",
        ),
        (
            13,
            "0.0 issue put c0 i0 0 0102030F : issued",
            "illegal 13 15\n",
        ),
        (
            13,
            "0.0 issue put c0 i0 0 01020304 - issued",
            "illegal 13 15\n",
        ),
        (13, "0.0 issue put c0 i0 0 01020304 : ok", "illegal 13 15\n"),
        (
            13,
            "0.0 issue put c0 i0 0 01020304 : error Absent",
            "illegal 13 3\n",
        ),
    ];
    check_changed(&rt, rt.alloc(), &table)
}

#[test]
fn tells_changed_words_of_a_piece(rt: HostRuntime) -> Result<(), Fail> {
    let table: [(usize, &str, &str); 16] = [
        (14, "1.0 piece 0 : ok", "illegal 14 1\n"),
        (14, "0.1 piece 0 : ok", "illegal 14 4\n"),
        (14, "0.0 peace 0 : ok", "illegal 14 15\n"),
        (14, "0.0 piece 1 : ok", "illegal 14 4\n"),
        (14, "0.0 piece 00 : ok", "illegal 14 15\n"),
        (14, "0.0 piece 0 = ok", "illegal 14 15\n"),
        (14, "0.0 piece 0 : issued", "illegal 14 15\n"),
        (14, "0.0 piece 0 : ok 01", "illegal 14 5\n"),
        (14, "0.0 piece 0 : error Absent", "illegal 14 5\n"),
        (14, "0.0 piece 0 : error Memory", "illegal 15 6\n"),
        (15, "1.0 answer : ok", "illegal 15 1\n"),
        (15, "0.1 answer : ok", "illegal 15 1\n"),
        (15, "0.0 answers : ok", "illegal 15 15\n"),
        (15, "0.0 answer ; ok", "illegal 15 15\n"),
        (15, "0.0 answer : issued", "illegal 15 6\n"),
        (15, "0.0 lose 0", "illegal 15 11\n"),
    ];
    check_changed(&rt, rt.alloc(), &table)
}

#[test]
fn tells_changed_words_of_a_get(rt: HostRuntime) -> Result<(), Fail> {
    let table: [(usize, &str, &str); 26] = [
        (16, "0.2 issue get c0 i0 0 4 : issued", "illegal 16 1\n"),
        (16, "0.1 issue get-nb c0 i0 0 4 : issued", "illegal 16 1\n"),
        (16, "0.1 meta get c0 i0 0 4 : issued", "illegal 16 15\n"),
        (16, "0.1 issue get c1 i0 0 4 : issued", "illegal 16 1\n"),
        (16, "0.1 issue get c0 i1 0 4 : issued", "illegal 16 1\n"),
        (16, "0.1 issue get c0 i0 4 4 : issued", "illegal 16 1\n"),
        (16, "0.1 issue get c0 i0 0 5 : issued", "illegal 16 1\n"),
        (16, "0.1 issue get c0 i0 0 4 = issued", "illegal 16 15\n"),
        (16, "0.1 issue get c0 i0 0 04 : issued", "illegal 16 15\n"),
        (
            16,
            "0.1 issue get c0 i0 0 4 : error Range",
            "illegal 16 3\n",
        ),
        (17, "0.0 piece 0 : ok 01020304", "illegal 17 4\n"),
        (17, "0.1 piece 1 : ok 01020304", "illegal 17 4\n"),
        (17, "0.1 piece 0 : ok 010203", "illegal 17 5\n"),
        (17, "0.1 piece 0 : ok", "illegal 17 5\n"),
        (17, "0.1 lose 0 : ok 01020304", "illegal 17 15\n"),
        (17, "0.1 piece 0 = ok 01020304", "illegal 17 15\n"),
        (17, "0.1 piece 0 : OK 01020304", "illegal 17 15\n"),
        (18, "0.0 answer : ok 01020304", "illegal 18 1\n"),
        (18, "0.1 answer = ok 01020304", "illegal 18 15\n"),
        (18, "0.1 answer : ok 01020305", "illegal 18 6\n"),
        (18, "0.1 answer : value 1", "illegal 18 6\n"),
        (19, "0.3 leave", "illegal 19 1\n"),
        (19, "0.2 crash", "illegal 19 1\n"),
        (19, "0.2 leave ", "illegal 19 15\n"),
        (20, "stop", "illegal 20 15\n"),
        (20, "done ", "illegal 20 15\n"),
    ];
    check_changed(&rt, rt.alloc(), &table)
}

/// A leaving whose reply is told like this, and these events.
fn check_told(
    rt: &impl Abort,
    alloc: Global,
    reply: &str,
    events: &str,
    told: &str,
) -> Result<(), Fail> {
    let input = format!(in alloc;
        "service 1 1 64\npe 5 5\nend\nstop\nreplies\n0.0 {reply}\nopening 1 1\n{events}done\n"
    )?;
    check(rt, alloc, input.as_bytes(), told)
}

/// The text comes first, then the events, then the end, then the reply lines.
#[test]
fn tells_what_comes_first(rt: HostRuntime) -> Result<(), Fail> {
    let table: [(&str, &str, &str); 6] = [
        ("left", "events 1\n0.0 leave\n", "legal 1\n"),
        ("ok", "events 1\n0.0 leave\n", "illegal 6 13\n"),
        ("ok", "events 0\n", "illegal 9 14\n"),
        ("ok", "events 1\n0.1 leave\n", "illegal 9 1\n"),
        ("okay", "events 1\n0.1 leave\n", "illegal 6 15\n"),
        ("ok", "events 2\n0.1 leave\n0.0 left\n", "illegal 10 15\n"),
    ];
    for (reply, events, told) in table {
        check_told(&rt, rt.alloc(), reply, events, told)?;
    }
    Ok(())
}

/// Where the script ends, and the report begins.
#[test]
fn tells_a_script_from_its_report(rt: HostRuntime) -> Result<(), Fail> {
    let table: [(&str, &str); 8] = [
        ("", "bad line 1\n"),
        ("stop\n", "bad line 1\n"),
        ("service 1 1 64\n", "bad line 2\n"),
        ("service 1 1 64\nstop", "bad line 2\n"),
        ("service 1 1 64\nstop\n", "illegal 3 15\n"),
        ("service 1 1 64\nstop\nreplies\n", "illegal 4 15\n"),
        ("service 1 1 64\nstop\nreplies", "illegal 3 15\n"),
        (
            "service 1 1 100\nstop\nreplies\nopening 1 1\nevents 0\ndone\n",
            "bad line 1\n",
        ),
    ];
    for (input, told) in table {
        check(&rt, rt.alloc(), input.as_bytes(), told)?;
    }
    Ok(())
}

/// A run that no schedule plays: the item does not lie at the least base, a piece found no memory, and a change was refused.
const MADE_UP: &[u8] = b"service 1 1 64
pe 5 5
region r1 a 128 700
alloc i1 x 64 600 r1
put c0 i1 0 01
region r2 b 64 700
end
stop
replies
0.0 region 1
0.1 item 1 1 64 64
0.2 error Memory
0.3 error DiskFault
0.4 left
opening 1 1
events 7
0.0 meta region r1 a 128 700 : region 1
0.1 meta alloc i1 x 64 600 r1 : item 1 1 64 64
0.2 issue put c0 i1 0 01 : issued
0.2 piece 0 : error Memory
0.2 answer : error Memory
0.3 refused region r2 b 64 700 : error DiskFault 1
0.4 leave
done
";

#[test]
fn judges_what_no_schedule_plays(rt: HostRuntime) -> Result<(), Fail> {
    check(&rt, rt.alloc(), MADE_UP, "legal 7\n")
}

#[test]
fn tells_of_words_and_faults(rt: HostRuntime) -> Result<(), Fail> {
    // The words, the reads and the writes that fail, the status and the output.
    let table: [(&str, &[u64], &[u64], u8, &str); 7] = [
        ("audit", &[], &[], 0, "legal 7\n"),
        ("audits", &[], &[], 2, "bad words\n"),
        ("audit audit", &[], &[], 2, "bad words\n"),
        ("audit", &[1], &[], 4, "read fault\n"),
        ("audit", &[], &[1], 5, ""),
        // A line of refusal that cannot be written changes no status.
        ("audits", &[], &[1], 2, ""),
        ("audit", &[1], &[1], 4, ""),
    ];
    for (line, failing_reads, failing_writes, status, told) in table {
        let left = audited(rt.alloc(), line, MADE_UP, failing_reads, failing_writes)?;
        assert_eq!(rt; left.status, status, "{line}");
        assert_eq!(rt; left.output.as_slice(), told.as_bytes(), "{line}");
    }
    Ok(())
}

#[test]
fn refuses_what_is_too_long(rt: HostRuntime) -> Result<(), Fail> {
    let long = vec![in rt.alloc(); b'#'; 16_777_217]?;
    let left = audited(rt.alloc(), "audit", &long, &[], &[])?;
    assert_eq!(rt; left.status, 10);
    assert_eq!(rt; left.output.as_slice(), b"too long\n".as_slice());
    Ok(())
}
