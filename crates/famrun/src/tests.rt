//! What the program does, seen from outside.

use crate::command::{HELP, VERSION, fam_main};
use fam_base::{Bytes, Places};
use fam_disk::MemDisk;
use fam_io::{MemSink, MemSource};
use fam_model::{Event, Reply, What};
use std::alloc::Global;
use std::process::Abort;
use std::test::Fail;

/// A run of the program.
#[derive(Drop)]
struct Run<'a> {
    words: &'a [&'a str],
    input: &'a [u8],
    failing_reads: &'a [u64],
    failing_writes: &'a [u64],
    status: u8,
    output: &'a [u8],
}

/// A run of `sim 0` in which no call of the outside fails.
fn sim<'a>(input: &'a [u8], status: u8, output: &'a [u8]) -> Run<'a> {
    Run {
        words: &["sim", "0"],
        input,
        failing_reads: &[],
        failing_writes: &[],
        status,
        output,
    }
}

/// Words as the program gets them.
pub fn strings(alloc: Global, words: &[&str]) -> Result<Vec<String>, Fail> {
    let mut all = Vec::new(alloc);
    for word in words {
        all.push(String::from_str(alloc, word)?)?;
    }
    Ok(all)
}

/// A disk with nothing on it, whose calls do not fail.
pub fn empty_disk(alloc: Global) -> Result<MemDisk, Fail> {
    Ok(MemDisk::new(
        alloc,
        Bytes::of(alloc, &[])?,
        Places::of(alloc, &[])?,
        Places::of(alloc, &[])?,
        Places::of(alloc, &[])?,
    ))
}

/// Runs the program and compares its status and its output.
fn check(rt: &impl Abort, alloc: Global, run: &Run) -> Result<(), Fail> {
    let words = strings(alloc, run.words)?;
    let mut input = MemSource::new(
        Bytes::of(alloc, run.input)?,
        Places::of(alloc, run.failing_reads)?,
    );
    let mut output = MemSink::new(alloc, Places::of(alloc, run.failing_writes)?);
    let outcome = fam_main(alloc, &words, &mut input, &mut output, empty_disk(alloc)?);
    assert_eq!(rt; outcome.status, run.status);
    assert_eq!(rt; output.written(), run.output);
    Ok(())
}

const EXAMPLE: &[u8] = b"service 1 1 64
pe 5 5
put c0 i0 0 01020304
get c0 i0 0 4
end
stop
";

const EXAMPLE_REPORT: &[u8] = b"replies
0.0 ok
0.1 ok 01020304
0.2 left
opening 1 1
events 7
0.0 issue put c0 i0 0 01020304 : issued
0.0 piece 0 : ok
0.0 answer : ok
0.1 issue get c0 i0 0 4 : issued
0.1 piece 0 : ok 01020304
0.1 answer : ok 01020304
0.2 leave
done
";

#[test]
fn plays_scripts(rt: HostRuntime) -> Result<(), Fail> {
    let table: [(&[u8], &[u8]); 4] = [
        (EXAMPLE, EXAMPLE_REPORT),
        (
            b"service 1 1 64\nstop\n",
            b"replies\nopening 1 1\nevents 0\ndone\n",
        ),
        (
            b"service 1 1 64\npe 5 5\nput c0 i0 4096 -\nget c0 i0 4096 0\nend\nstop\n",
            b"replies\n0.0 ok\n0.1 ok -\n0.2 left\nopening 1 1\nevents 5\n0.0 issue put c0 i0 4096 - : issued\n0.0 answer : ok\n0.1 issue get c0 i0 4096 0 : issued\n0.1 answer : ok -\n0.2 leave\ndone\n",
        ),
        (
            b"service 1 1 64\npe 5 5\nput c0 i0 4096 01\nput c0 i0 18446744073709551615 01\nend\nstop\n",
            b"replies\n0.0 error Range\n0.1 error Range\n0.2 left\nopening 1 1\nevents 3\n0.0 issue put c0 i0 4096 01 : error Range\n0.1 issue put c0 i0 18446744073709551615 01 : error Range\n0.2 leave\ndone\n",
        ),
    ];
    for (script, report) in table {
        check(&rt, rt.alloc(), &sim(script, 0, report))?;
    }
    Ok(())
}

/// Plays a script by a seed, and compares the front of its report.
fn begins(
    rt: &impl Abort,
    alloc: Global,
    seed: u32,
    script: &str,
    front: &str,
) -> Result<(), Fail> {
    let mut words = strings(alloc, &["sim"])?;
    words.push(format!(in alloc; "{seed}")?)?;
    let mut input = MemSource::new(
        Bytes::of(alloc, script.as_bytes())?,
        Places::of(alloc, &[])?,
    );
    let mut output = MemSink::new(alloc, Places::of(alloc, &[])?);
    let outcome = fam_main(alloc, &words, &mut input, &mut output, empty_disk(alloc)?);
    assert_eq!(rt; outcome.status, 0, "{script}");
    assert!(rt; output.written().starts_with(front.as_bytes()), "{script}");
    Ok(())
}

const CUT: &str = "service 1 1 64
pe 5 5
put-nb c0 i0 62 01020304
get-nb c0 i0 62 4
quiet c0
get c0 i0 62 4
end
stop
";

const UNORDERED: &str = "service 1 1 64
pe 5 5
put-nb c0 i0 8 aa
put-nb c0 i0 16 bb
put-nb c0 i0 0 01
put-nb c0 i0 0 02
quiet c0
get c0 i0 0 1
end
stop
";

const FENCED: &str = "service 1 1 64
pe 5 5
put-nb c0 i0 8 aa
put-nb c0 i0 16 bb
put-nb c0 i0 0 01
fence c0
put-nb c0 i0 0 02
quiet c0
get c0 i0 0 1
end
stop
";

const ACROSS: &str = "service 1 2 64
pe 5 5
put-nb c0 i0 0 01
fence c0
put-nb c0 i0 64 02
quiet c0
end
stop
";

const CONTEXTS: &str = "service 1 1 64
pe 5 5
quiet c0
quiet c0
open c1
open c1
fence c2
close c1
close c0
end
stop
";

const MODES: &str = "service 1 1 64
pe 5 5
region r1 a 4096 700
alloc i1 x 256 600 r1
put-nb c0 i1 62 01020304
chmod i1 000
quiet c0
chmod i1 600
get c0 i1 62 4
end
stop
";

const AGAIN: &str = "service 1 1 64
pe 5 5
region r1 a 64 700
alloc i1 x 64 600 r1
put c0 i1 0 ff
dealloc i1
alloc i2 y 64 600 r1
get c0 i1 0 1
get c0 i2 0 1
end
stop
";

const ROOM: &str = "service 1 1 64
pe 5 5
region r1 a 256 700
alloc i1 a 64 600 r1
alloc i2 b 64 600 r1
alloc i3 c 64 600 r1
alloc i4 d 64 600 r1
alloc i5 e 64 600 r1
dealloc i2
alloc i5 e 65 600 r1
alloc i5 e 1 600 r1
end
stop
";

const ATOMICS: &str = "service 1 1 64
pe 5 5
atomic c0 i0 0 i32 set 2147483647
fence c0
atomic c0 i0 0 i32 add 1
fence c0
atomic c0 i0 0 i32 fetch
atomic c0 i0 8 i64 set -1
fence c0
atomic c0 i0 8 i64 fetch-min 0
atomic c0 i0 8 u64 fetch-min 0
atomic c0 i0 8 i64 fetch
atomic c0 i0 16 i128 add 1
atomic c0 i0 4 u64 fetch
atomic c0 i0 8 f64 fetch
end
stop
";

const SWAPS: &str = "service 1 1 64
pe 5 5
atomic c0 i0 16 i128 set 5
fence c0
atomic c0 i0 16 i128 cas 4 9
atomic c0 i0 16 i128 fetch
end
stop
";

const SCATTERED: &str = "service 1 1 64
pe 5 5
put c0 i0 2 aabb
gather c0 i0 1 0 2 3
scatter-index c0 i0 1 5,5 0708
get c0 i0 5 1
end
stop
";

const COPIED: &str = "service 1 1 64
pe 5 5
put c0 i0 0 01020304
copy c0 i0 0 i0 1 4
copy-wait c0 1
copy-wait c0 1
get c0 i0 0 5
quiet c0
end
stop
";

const CRASHED: &str = "service 1 1 64
pe 5 5
put-nb c0 i0 8 aa
put-nb c0 i0 16 bb
put-nb c0 i0 0 cc
crash
end
stop
";

const LEFT_BEHIND: &str = "service 1 1 64
pe 5 5
region r1 a 64 777
alloc i1 x 64 666 r1
crash
end
pe 5 5
barrier
lookup i1 x a
end
stop
";

const MAIL: &str = "service 2 4 4096
pe 1000 100
region r1 board 1048576 770
alloc i1 mail 65536 660 r1
put c0 i1 128 68656c6c6f
barrier
end
pe 1001 100
barrier
lookup i1 mail board
get c0 i1 128 5
put c0 i1 0 01
end
stop
";

const REFUSED: &str = "service 1 1 64
pe 5 5
region r1 a/b 64 700
region r1 a 67108865 700
region r1 a 128 700
region r2 a 64 700
alloc i1 x 64 600 r2
alloc i1 x 64 600 r0
alloc i1 x 100 600 r1
resize r1 64
resize r1 192
dealloc i0
stat i1
stat-region r1
destroy r1
stat i1
lookup i2 x a
get c0 i0 0 1048577
gather c0 i0 0 0 1 4097
end
stop
";

const OVER_BUDGET: &str = "service 1 1 65536
pe 5 5
region r1 a 1048576 700
alloc i1 x 1048576 600 r1
repeat 5
copy c0 i1 0 i1 0 1048576
done
quiet c0
end
stop
";

#[test]
fn replies_as_the_seed_draws(rt: HostRuntime) -> Result<(), Fail> {
    let table: [(u32, &str, &str); 4] = [
        (
            42,
            CUT,
            "replies\n0.0 issued\n0.1 issued\n0.2 report 0=ok 1=ok/00000304\n0.3 ok 01020304\n0.4 left\nopening 1 1\n",
        ),
        (
            42,
            UNORDERED,
            "replies\n0.0 issued\n0.1 issued\n0.2 issued\n0.3 issued\n0.4 report 0=ok 1=ok 2=ok 3=ok\n0.5 ok 01\n0.6 left\n",
        ),
        (
            42,
            MODES,
            "replies\n0.0 region 1\n0.1 item 1 1 0 256\n0.2 issued\n0.3 ok\n0.4 report 2=error/NoPermission\n0.5 ok\n0.6 ok 00000304\n0.7 left\n",
        ),
        (
            42,
            SCATTERED,
            "replies\n0.0 ok\n0.1 ok aabbaabbaabb\n0.2 ok\n0.3 ok 08\n0.4 left\n",
        ),
    ];
    for (seed, script, front) in table {
        begins(&rt, rt.alloc(), seed, script, front)?;
    }
    Ok(())
}

#[test]
fn replies_by_every_seed(rt: HostRuntime) -> Result<(), Fail> {
    let table: [(&str, &str); 5] = [
        (
            FENCED,
            "replies\n0.0 issued\n0.1 issued\n0.2 issued\n0.3 ok\n0.4 issued\n0.5 report 0=ok 1=ok 2=ok 4=ok\n0.6 ok 02\n0.7 left\n",
        ),
        (
            ACROSS,
            "replies\n0.0 issued\n0.1 ok\n0.2 issued\n0.3 report 0=ok 2=ok\n0.4 left\n",
        ),
        (
            LEFT_BEHIND,
            "replies\n0.0 region 1\n0.1 item 1 1 0 64\n0.2 crashed\n1.0 passed\n1.1 item 1 1 0 64\n1.2 left\n",
        ),
        (
            MAIL,
            "replies\n0.0 region 1\n0.1 item 1 1 0 65536\n0.2 ok\n0.3 passed\n0.4 left\n1.0 passed\n1.1 item 1 1 0 65536\n1.2 ok 68656c6c6f\n1.3 ok\n1.4 left\n",
        ),
        (
            COPIED,
            "replies\n0.0 ok\n0.1 issued\n0.2 ok\n0.3 error BadHandle\n0.4 ok 0101020304\n0.5 report\n0.6 left\n",
        ),
    ];
    for (script, front) in table {
        for seed in 0..20u32 {
            begins(&rt, rt.alloc(), seed, script, front)?;
        }
    }
    Ok(())
}

#[test]
fn replies_to_each_statement(rt: HostRuntime) -> Result<(), Fail> {
    let table: [(&str, &str); 7] = [
        (
            CONTEXTS,
            "replies\n0.0 report\n0.1 report\n0.2 ok\n0.3 error Exists\n0.4 error BadHandle\n0.5 report\n0.6 error Unsupported\n0.7 left\n",
        ),
        (
            AGAIN,
            "replies\n0.0 region 1\n0.1 item 1 1 0 64\n0.2 ok\n0.3 ok\n0.4 item 2 1 0 64\n0.5 error Absent\n0.6 ok 00\n0.7 left\n",
        ),
        (
            ROOM,
            "replies\n0.0 region 1\n0.1 item 1 1 0 64\n0.2 item 2 1 64 64\n0.3 item 3 1 128 64\n0.4 item 4 1 192 64\n0.5 error NoSpace\n0.6 ok\n0.7 error NoSpace\n0.8 item 5 1 64 1\n0.9 left\n",
        ),
        (
            ATOMICS,
            "replies\n0.0 issued\n0.1 ok\n0.2 issued\n0.3 ok\n0.4 value -2147483648\n0.5 issued\n0.6 ok\n0.7 value -1\n0.8 value 18446744073709551615\n0.9 value 0\n0.10 error Unsupported\n0.11 error Unaligned\n0.12 error Unsupported\n0.13 left\n",
        ),
        (
            SWAPS,
            "replies\n0.0 issued\n0.1 ok\n0.2 value 5\n0.3 value 5\n0.4 left\n",
        ),
        (
            REFUSED,
            "replies\n0.0 error BadName\n0.1 error TooLarge\n0.2 region 1\n0.3 error Exists\n0.4 error BadHandle\n0.5 error NoPermission\n0.6 item 1 1 0 100\n0.7 error InUse\n0.8 ok\n0.9 error NoPermission\n0.10 stat x 1 0 100 5 5 600\n0.11 region-stat a 192 5 5 700\n0.12 ok\n0.13 error Absent\n0.14 error Absent\n0.15 error TooLarge\n0.16 error TooLarge\n0.17 left\n",
        ),
        (
            OVER_BUDGET,
            "replies\n0.0 region 1\n0.1 item 1 1 0 1048576\n0.2 issued\n0.3 issued\n0.4 issued\n0.5 issued\n0.6 error Budget\n0.7 report 2=ok 3=ok 4=ok 5=ok\n0.8 left\n",
        ),
    ];
    for (script, front) in table {
        begins(&rt, rt.alloc(), 0, script, front)?;
    }
    Ok(())
}

const FOUR_PIECES: &str = "service 1 1 64
pe 5 5
put c0 i0 63 00112233445566778899aabbccddeeff00112233445566778899aabbccddeeff00112233445566778899aabbccddeeff00112233445566778899aabbccddeeff00112233445566778899aabbccddeeff00112233445566778899aabbccddeeff00112233445566778899aabbccddeeff00112233445566778899aabbccddeeff0011
end
stop
";

const COUNTING: &str = "service 2 4 64
pe 5 5
repeat 1000
atomic c0 i0 0 u64 fetch-add 1
done
end
pe 6 5
repeat 1000
atomic c0 i0 0 u64 fetch-add 1
done
end
stop
";

/// The history of a script, by the seed 3.
fn history(rt: &impl Abort, alloc: Global, script: &str) -> Result<Vec<Event>, Fail> {
    let words = strings(alloc, &["sim", "3"])?;
    let mut input = MemSource::new(
        Bytes::of(alloc, script.as_bytes())?,
        Places::of(alloc, &[])?,
    );
    let mut output = MemSink::new(alloc, Places::of(alloc, &[])?);
    let outcome = fam_main(alloc, &words, &mut input, &mut output, empty_disk(alloc)?);
    assert_eq!(rt; outcome.status, 0);
    Ok(outcome.history)
}

#[test]
fn cuts_ranges_at_units(rt: HostRuntime) -> Result<(), Fail> {
    // The issue, a piece of 1 byte, two of 64, one of 1, the answer and the leaving.
    let events = history(&rt, rt.alloc(), FOUR_PIECES)?;
    assert_eq!(rt; events.len(), 7);
    Ok(())
}

#[test]
fn counts_each_number_once(rt: HostRuntime) -> Result<(), Fail> {
    let events = history(&rt, rt.alloc(), COUNTING)?;
    let mut seen = vec![in rt.alloc(); false; 2000]?;
    for event in &events {
        if let What::Answer {
            reply: Reply::Value(number),
        } = &event.what
        {
            let place = usize::try_from(*number).unwrap_or(2000);
            match seen.get_mut(place) {
                Some(flag) => {
                    assert!(rt; !*flag);
                    *flag = true;
                }
                None => panic!(rt; "{place}"),
            }
        }
    }
    assert!(rt; seen.iter().all(|flag| *flag));
    Ok(())
}

#[test]
fn loses_what_a_crash_leaves(rt: HostRuntime) -> Result<(), Fail> {
    let words = strings(rt.alloc(), &["sim", "42"])?;
    let mut input = MemSource::new(
        Bytes::of(rt.alloc(), CRASHED.as_bytes())?,
        Places::of(rt.alloc(), &[])?,
    );
    let mut output = MemSink::new(rt.alloc(), Places::of(rt.alloc(), &[])?);
    let outcome = fam_main(
        rt.alloc(),
        &words,
        &mut input,
        &mut output,
        empty_disk(rt.alloc())?,
    );
    assert_eq!(rt; outcome.status, 0);
    assert!(rt; output.written().ends_with(b"0.3 crash\n0.2 lose 0\ndone\n"));
    Ok(())
}

#[test]
fn refuses_inputs(rt: HostRuntime) -> Result<(), Fail> {
    let table: [(&[u8], &[u8]); 6] = [
        (b"", b"bad line 1\n"),
        (b"service 1 1 64", b"bad line 1\n"),
        (b"service 1 1 100\nstop\n", b"bad line 1\n"),
        (b"service 1 1 64\n", b"bad line 2\n"),
        (b"service 1 1 64\nstop\nstop\n", b"bad line 3\n"),
        (
            b"service 1 1 64\npe 5 5\nget c0 i0 00 4\nend\nstop\n",
            b"bad line 3\n",
        ),
    ];
    for (script, told) in table {
        check(&rt, rt.alloc(), &sim(script, 3, told))?;
    }
    let long = vec![in rt.alloc(); b'#'; 16_777_217]?;
    check(&rt, rt.alloc(), &sim(&long, 10, b"too long\n"))
}

#[test]
fn goes_by_its_words(rt: HostRuntime) -> Result<(), Fail> {
    let table: [(&[&str], u8, &[u8]); 8] = [
        (&[], 2, b"bad words\n"),
        (&["sim"], 2, b"bad words\n"),
        (&["sim", "x"], 2, b"bad words\n"),
        (&["sim", "00"], 2, b"bad words\n"),
        (&["sim", "18446744073709551616"], 2, b"bad words\n"),
        (&["sim", "0", "0"], 2, b"bad words\n"),
        (&["--help"], 0, HELP.as_bytes()),
        (&["--version"], 0, VERSION.as_bytes()),
    ];
    for (words, status, output) in table {
        let run = Run {
            words,
            status,
            output,
            ..sim(EXAMPLE, 0, b"")
        };
        check(&rt, rt.alloc(), &run)?;
    }
    Ok(())
}

#[test]
fn tells_of_faults(rt: HostRuntime) -> Result<(), Fail> {
    // The reads and the writes that fail, the words, the status and the output.
    let table: [(&[u64], &[u64], &[&str], u8, &[u8]); 4] = [
        (&[1], &[], &["sim", "0"], 4, b"read fault\n"),
        (&[], &[1], &["sim", "0"], 5, b""),
        (&[], &[1], &["--version"], 5, b""),
        // A line of refusal that cannot be written changes no status.
        (&[], &[1], &["sim"], 2, b""),
    ];
    for (failing_reads, failing_writes, words, status, output) in table {
        let run = Run {
            words,
            input: EXAMPLE,
            failing_reads,
            failing_writes,
            status,
            output,
        };
        check(&rt, rt.alloc(), &run)?;
    }
    Ok(())
}
