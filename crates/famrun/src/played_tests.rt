//! Reports of scripts that were played are legal.

use crate::audit::audit_main;
use crate::command::fam_main;
use crate::tests::empty_disk;
use fam_base::{Bytes, Places};
use fam_disk::MemDisk;
use fam_io::{MemSink, MemSource};
use std::alloc::Global;
use std::process::Abort;
use std::test::Fail;

const PUT_AND_GET: &str = "service 1 1 64
pe 5 5
put c0 i0 0 01020304
get c0 i0 0 4
end
stop
";

const REFUSED: &str = "service 1 1 64
pe 5 5
put c0 i0 4096 01
get c0 i0 4095 2
end
stop
";

const NOTHING: &str = "service 1 1 64
stop
";

const CUT: &str = "service 1 1 64
pe 5 5
put-nb c0 i0 62 01020304
get-nb c0 i0 62 4
quiet c0
get c0 i0 62 4
end
stop
";

const UNORDERED: &str = "service 1 1 64
pe 5 5
put-nb c0 i0 8 aa
put-nb c0 i0 16 bb
put-nb c0 i0 0 01
put-nb c0 i0 0 02
quiet c0
get c0 i0 0 1
end
stop
";

const FENCED: &str = "service 1 1 64
pe 5 5
put-nb c0 i0 8 aa
put-nb c0 i0 16 bb
put-nb c0 i0 0 01
fence c0
put-nb c0 i0 0 02
quiet c0
get c0 i0 0 1
end
stop
";

const MAIL: &str = "service 2 4 4096
pe 1000 100
region r1 board 1048576 770
alloc i1 mail 65536 660 r1
put c0 i1 128 68656c6c6f
barrier
end
pe 1001 100
barrier
lookup i1 mail board
get c0 i1 128 5
put c0 i1 0 01
end
stop
";

const COUNTING: &str = "service 1 4 64
pe 5 5
repeat 3
atomic c0 i0 0 u64 fetch-add 1
done
barrier
end
pe 6 5
repeat 3
atomic c0 i0 0 u64 fetch-add 1
done
barrier
spin c0 i0 0 u64 6 1000
end
stop
";

const CRASHED: &str = "service 2 4 64
pe 5 5
put-nb c0 i0 8 aa
copy c0 i0 0 i0 64 200
scatter-nb c0 i0 0 65 1 4 00112233
crash
end
pe 6 5
barrier
get c0 i0 0 64
end
stop
";

const DIRECTORY: &str = "service 1 1 64
pe 5 5
region r1 a/b 64 700
region r1 a 128 700
region r2 a 64 700
alloc i1 x 100 600 r1
chmod-region r1 770
chmod i1 660
resize r1 64
resize r1 192
stat i1
stat-region r1
lookup i2 x a
lookup-region r3 a
dealloc i1
get c0 i2 0 1
destroy r1
stat i1
end
stop
";

const CONTEXTS: &str = "service 1 1 64
pe 5 5
open c1
open c1
fence c2
put-nb c1 i0 0 0102
fence c1
get-nb c1 i0 0 2
copy c1 i0 0 i0 64 8
copy-wait c1 5
copy-wait c1 5
close c1
close c0
quiet c1
end
stop
";

const NOTES: &str = "service 1 1 64
pe 5 5
region r1 notes 4096 700
alloc i1 page 128 600 r1
put c0 i1 0 01020304
end
stop
";

const NOTES_AGAIN: &str = "service 1 1 64
pe 5 5
lookup i1 page notes
get c0 i1 0 4
end
stop
";

/// The words of a line.
fn words_of(alloc: Global, line: &str) -> Result<Vec<String>, Fail> {
    let mut words = Vec::new(alloc);
    for word in line.split(' ') {
        words.push(String::from_str(alloc, word)?)?;
    }
    Ok(words)
}

/// What a command writes and leaves.
#[derive(Drop)]
struct Played {
    output: Bytes,
    events: usize,
    disk: MemDisk,
}

/// Runs the command of these words over a disk, which has to end well.
fn run_over(
    rt: &impl Abort,
    alloc: Global,
    line: &str,
    input: &[u8],
    disk: MemDisk,
) -> Result<Played, Fail> {
    let words = words_of(alloc, line)?;
    let mut source = MemSource::new(Bytes::of(alloc, input)?, Places::of(alloc, &[])?);
    let mut sink = MemSink::new(alloc, Places::of(alloc, &[])?);
    let outcome = fam_main(alloc, &words, &mut source, &mut sink, disk);
    assert_eq!(rt; outcome.status, 0, "{line}");
    Ok(Played {
        output: Bytes::of(alloc, sink.written())?,
        events: outcome.history.len(),
        disk: outcome.disk,
    })
}

/// Runs the command of these words over an empty disk.
fn run(rt: &impl Abort, alloc: Global, line: &str, input: &[u8]) -> Result<Played, Fail> {
    run_over(rt, alloc, line, input, empty_disk(alloc)?)
}

/// Judges the report of a script, which has to be legal with so many events.
fn judge(
    rt: &impl Abort,
    alloc: Global,
    script: &[u8],
    report: &[u8],
    events: usize,
) -> Result<(), Fail> {
    let mut input = Vec::from_slice(alloc, script)?;
    input.extend_from_slice(report)?;
    let words = words_of(alloc, "audit")?;
    let mut source = MemSource::new(Bytes::of(alloc, input.as_slice())?, Places::of(alloc, &[])?);
    let mut sink = MemSink::new(alloc, Places::of(alloc, &[])?);
    let status = audit_main(alloc, &words, &mut source, &mut sink);
    let told = format!(in alloc; "legal {events}\n")?;
    assert_eq!(rt; status, 0);
    assert_eq!(rt; sink.written(), told.as_bytes());
    Ok(())
}

/// Plays a script by a seed over a disk, and judges its report.
fn check_over(
    rt: &impl Abort,
    alloc: Global,
    seed: u32,
    script: &[u8],
    disk: MemDisk,
) -> Result<MemDisk, Fail> {
    let line = format!(in alloc; "sim {seed}")?;
    let played = run_over(rt, alloc, line.as_str(), script, disk)?;
    let report = played.output;
    judge(rt, alloc, script, report.as_slice(), played.events)?;
    Ok(played.disk)
}

/// Plays a script by a seed, and judges its report.
fn check(rt: &impl Abort, alloc: Global, seed: u32, script: &[u8]) -> Result<(), Fail> {
    let _disk = check_over(rt, alloc, seed, script, empty_disk(alloc)?)?;
    Ok(())
}

#[test]
fn reports_of_the_examples_are_legal(rt: HostRuntime) -> Result<(), Fail> {
    let table: [&str; 8] = [
        PUT_AND_GET,
        REFUSED,
        NOTHING,
        CUT,
        UNORDERED,
        FENCED,
        MAIL,
        COUNTING,
    ];
    for script in table {
        for seed in 0..5u32 {
            check(&rt, rt.alloc(), seed, script.as_bytes())?;
        }
    }
    Ok(())
}

/// The second run begins with the region and the item of the first.
#[test]
fn reports_of_two_runs_on_one_disk_are_legal(rt: HostRuntime) -> Result<(), Fail> {
    let disk = empty_disk(rt.alloc())?;
    let kept = check_over(&rt, rt.alloc(), 0, NOTES.as_bytes(), disk)?;
    let _again = check_over(&rt, rt.alloc(), 1, NOTES_AGAIN.as_bytes(), kept)?;
    Ok(())
}

#[test]
fn reports_of_each_kind_of_call_are_legal(rt: HostRuntime) -> Result<(), Fail> {
    for script in [CRASHED, DIRECTORY, CONTEXTS] {
        for seed in 0..5u32 {
            check(&rt, rt.alloc(), seed, script.as_bytes())?;
        }
    }
    Ok(())
}

#[test]
fn reports_of_made_scripts_are_legal(rt: HostRuntime) -> Result<(), Fail> {
    let table: [(u32, &str); 3] = [
        (42, "make 42 1 3"),
        (7, "make 7 8 200"),
        (1, "make 1 64 20"),
    ];
    for (seed, line) in table {
        let script = run(&rt, rt.alloc(), line, b"")?;
        check(&rt, rt.alloc(), seed, script.output.as_slice())?;
    }
    Ok(())
}

/// These lines were worked out by another program, which shares no code with this one.
#[test]
fn trials_give_the_lines_that_were_worked_out(rt: HostRuntime) -> Result<(), Fail> {
    let table: [(&str, &str); 3] = [
        (
            "trial 42 1 3",
            "trial 42 1 3 events 10 ok 7 refused 0 sum 3731509\n",
        ),
        (
            "trial 7 8 200",
            "trial 7 8 200 events 3384 ok 1632 refused 0 sum 2663685123\n",
        ),
        (
            "trial 1 16 2000",
            "trial 1 16 2000 events 68258 ok 32064 refused 0 sum 80756450344\n",
        ),
    ];
    for (line, told) in table {
        let played = run(&rt, rt.alloc(), line, b"")?;
        assert_eq!(rt; played.output.as_slice(), told.as_bytes(), "{line}");
    }
    Ok(())
}
