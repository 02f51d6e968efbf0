//! Scripts that are made and tried, seen from outside.

use crate::command::fam_main;
use crate::tests::empty_disk;
use fam_base::{Bytes, Places};
use fam_io::{MemSink, MemSource};
use std::alloc::Global;
use std::process::Abort;
use std::test::Fail;

const MADE: &str = "service 2 2 64
pe 1 1
region r1 g0 8192 700
alloc i1 d0 4096 600 r1
quiet c0
put-nb c0 i1 1032 3f3f3f3f3f3f3f3f
put c0 i1 816 e9
quiet c0
end
stop
";

/// What a command leaves that reads no input.
#[derive(Drop)]
struct Left {
    status: u8,
    output: Bytes,
}

/// Runs the command of these words, where these writes fail.
fn run(alloc: Global, line: &str, failing_writes: &[u64]) -> Result<Left, Fail> {
    let mut words = Vec::new(alloc);
    for word in line.split(' ') {
        words.push(String::from_str(alloc, word)?)?;
    }
    let mut input = MemSource::new(Bytes::of(alloc, &[])?, Places::of(alloc, &[])?);
    let mut output = MemSink::new(alloc, Places::of(alloc, failing_writes)?);
    let outcome = fam_main(alloc, &words, &mut input, &mut output, empty_disk(alloc)?);
    Ok(Left {
        status: outcome.status,
        output: Bytes::of(alloc, output.written())?,
    })
}

fn check(rt: &impl Abort, alloc: Global, line: &str, status: u8, output: &str) -> Result<(), Fail> {
    let left = run(alloc, line, &[])?;
    assert_eq!(rt; left.status, status, "{line}");
    assert_eq!(rt; left.output.as_slice(), output.as_bytes(), "{line}");
    Ok(())
}

#[test]
fn makes_and_tries_the_script_of_a_seed(rt: HostRuntime) -> Result<(), Fail> {
    let table: [(&str, u8, &str); 13] = [
        ("make 42 1 3", 0, MADE),
        (
            "trial 42 1 3",
            0,
            "trial 42 1 3 events 10 ok 7 refused 0 sum 3731509\n",
        ),
        ("make", 2, "bad words\n"),
        ("make 42 1", 2, "bad words\n"),
        ("make 42 0 3", 2, "bad words\n"),
        ("make 42 65 3", 2, "bad words\n"),
        ("make 42 1 4001", 2, "bad words\n"),
        ("make 042 1 3", 2, "bad words\n"),
        ("make 18446744073709551616 1 3", 2, "bad words\n"),
        ("trial 42 1 3 3", 2, "bad words\n"),
        ("trial x 1 3", 2, "bad words\n"),
        ("trial 42 01 3", 2, "bad words\n"),
        ("trials 42 1 3", 2, "bad words\n"),
    ];
    for (line, status, output) in table {
        check(&rt, rt.alloc(), line, status, output)?;
    }
    Ok(())
}

/// A trial goes the same way each time, and serves each program.
#[test]
fn tries_the_same_way_each_time(rt: HostRuntime) -> Result<(), Fail> {
    for line in ["trial 7 8 200", "trial 1 16 2000"] {
        let first = run(rt.alloc(), line, &[])?;
        let second = run(rt.alloc(), line, &[])?;
        assert_eq!(rt; first.status, 0);
        assert!(rt; first.output.as_slice().starts_with(line.as_bytes()));
        assert_eq!(rt; first.output.as_slice(), second.output.as_slice());
    }
    Ok(())
}

#[test]
fn tells_of_a_failing_sink(rt: HostRuntime) -> Result<(), Fail> {
    for line in ["make 42 1 3", "trial 42 1 3"] {
        let left = run(rt.alloc(), line, &[1])?;
        assert_eq!(rt; left.status, 5);
        assert_eq!(rt; left.output.len(), 0);
    }
    Ok(())
}
