//! Statements with each of their words wrong in turn.

use super::{ScriptFault, parse};
use std::alloc::{AllocError, Global};
use std::test::Fail;

/// Statements of the directory and of contexts.
const CHANGES: [&str; 13] = [
    "region r1 a 64 700",
    "destroy r1",
    "resize r1 64",
    "chmod-region r1 700",
    "lookup-region r1 a",
    "stat-region r1",
    "alloc i1 a 64 700 r1",
    "dealloc i1",
    "chmod i1 700",
    "lookup i1 a b",
    "stat i1",
    "open c1",
    "close c1",
];

/// Statements that move bytes.
const MOVES: [&str; 14] = [
    "get c0 i0 0 4",
    "put c0 i0 0 0a0b",
    "gather c0 i0 0 8 4 2",
    "scatter c0 i0 0 8 1 2 0a0b",
    "gather-index c0 i0 4 0,8",
    "scatter-index c0 i0 1 0,8 0a0b",
    "get-nb c0 i0 0 4",
    "put-nb c0 i0 0 -",
    "gather-nb c0 i0 0 8 4 2",
    "scatter-nb c0 i0 0 8 1 2 0a0b",
    "gather-index-nb c0 i0 4 -",
    "scatter-index-nb c0 i0 1 0,8 0a0b",
    "copy c0 i0 0 i1 0 4",
    "copy-wait c0 0",
];

/// All others that are one line.
const OTHERS: [&str; 9] = [
    "atomic c0 i0 0 i32 add 1",
    "atomic c0 i0 0 u64 fetch",
    "atomic c0 i0 0 i64 cas 1 2",
    "fence c0",
    "quiet c0",
    "barrier",
    "crash",
    "spin c0 i0 0 i32 1 65536",
    "spin c0 i0 0 u32 0 1",
];

/// The line with another word at a place.
fn line_with(alloc: Global, line: &str, place: usize, other: &str) -> Result<String, AllocError> {
    let mut text = String::new(alloc);
    let mut at = 0usize;
    for word in line.split(' ') {
        if at > 0 {
            text.push(' ')?;
        }
        text.push_str(if at == place { other } else { word })?;
        at = at.saturating_add(1);
    }
    Ok(text)
}

/// The bad line of a script whose third line is this one, and 0 where it has none.
fn bad_line(alloc: Global, line: &str) -> Result<u64, AllocError> {
    let text = format!(in alloc; "service 1 1 64\npe 5 5\n{line}\nend\nstop\n")?;
    match parse(alloc, text.as_bytes()) {
        Ok(_) => Ok(0),
        Err(ScriptFault::BadLine(n)) => Ok(n),
        Err(ScriptFault::Memory) => Err(AllocError),
    }
}

/// Whether the third line is the bad one with another word at this place.
fn is_refused(alloc: Global, line: &str, place: usize, other: &str) -> Result<bool, AllocError> {
    let text = line_with(alloc, line, place, other)?;
    Ok(bad_line(alloc, text.as_str())? == 3)
}

/// Whether a word is of digits alone.
fn is_number(word: &str) -> bool {
    word.as_bytes().iter().all(|byte| byte.is_ascii_digit())
}

/// Whether a number with a leading zero, and one that is too large, are refused in a word's place.
fn number_counts(alloc: Global, line: &str, place: usize, word: &str) -> Result<bool, AllocError> {
    if !is_number(word) {
        return Ok(true);
    }
    let longer = format!(in alloc; "0{word}")?;
    let zero = is_refused(alloc, line, place, longer.as_str())?;
    let large = is_refused(alloc, line, place, "18446744073709551616")?;
    Ok(zero && large)
}

/// Whether the line is a statement, and is none with any of its words wrong, or with one word more.
fn each_word_counts(alloc: Global, line: &str) -> Result<bool, AllocError> {
    let longer = format!(in alloc; "{line} 0")?;
    let mut counts = bad_line(alloc, line)? == 0 && bad_line(alloc, longer.as_str())? == 3;
    let mut place = 0usize;
    for word in line.split(' ') {
        let empty = is_refused(alloc, line, place, "")?;
        let other = is_refused(alloc, line, place, "\u{7f}")?;
        let number = number_counts(alloc, line, place, word)?;
        counts = counts && empty && other && number;
        place = place.saturating_add(1);
    }
    Ok(counts)
}

#[test]
fn refuses_each_word_of_a_change(rt: HostRuntime) -> Result<(), Fail> {
    for line in CHANGES {
        assert!(rt; each_word_counts(rt.alloc(), line)?, "{line}");
    }
    Ok(())
}

#[test]
fn refuses_each_word_of_a_move(rt: HostRuntime) -> Result<(), Fail> {
    for line in MOVES {
        assert!(rt; each_word_counts(rt.alloc(), line)?, "{line}");
    }
    Ok(())
}

#[test]
fn refuses_each_word_of_the_others(rt: HostRuntime) -> Result<(), Fail> {
    for line in OTHERS {
        assert!(rt; each_word_counts(rt.alloc(), line)?, "{line}");
    }
    Ok(())
}

#[test]
fn reads_names_of_1_to_64_bytes_in_each_statement(rt: HostRuntime) -> Result<(), Fail> {
    let most = "n".repeat(rt.alloc(), 64)?;
    let more = "n".repeat(rt.alloc(), 65)?;
    for (line, place) in [
        ("region r1 a 64 700", 2),
        ("lookup-region r1 a", 2),
        ("alloc i1 a 64 700 r1", 2),
        ("lookup i1 a b", 2),
        ("lookup i1 a b", 3),
    ] {
        let text = line_with(rt.alloc(), line, place, most.as_str())?;
        assert_eq!(rt; bad_line(rt.alloc(), text.as_str())?, 0, "{line}");
        assert!(rt;
            is_refused(rt.alloc(), line, place, more.as_str())?,
            "{line}"
        );
    }
    Ok(())
}
