//! For each rule what breaks it.

use super::check;
use std::alloc::Global;
use std::process::Abort;
use std::test::Fail;

/// Each program has these statements, and this happened: what is told of it, where no line tells a reply.
fn check_events(rt: &impl Abort, alloc: Global, table: &[(&str, &str, &str)]) -> Result<(), Fail> {
    for (statements, events, told) in table {
        let count = events.bytes().filter(|b| *b == b'\n').count();
        let input = format!(in alloc;
            "service 1 1 64\npe 5 5\n{statements}end\nstop\nreplies\nopening 1 1\nevents {count}\n{events}done\n"
        )?;
        check(rt, alloc, input.as_bytes(), told)?;
    }
    Ok(())
}

#[test]
fn tells_of_the_turn(rt: HostRuntime) -> Result<(), Fail> {
    let table: [(&str, &str, &str); 14] = [
        ("", "1.0 leave\n", "illegal 8 1\n"),
        ("", "4294967295.0 leave\n", "illegal 8 1\n"),
        ("", "4294967296.0 leave\n", "illegal 8 15\n"),
        ("", "1.0 piece 0 : ok\n", "illegal 8 1\n"),
        ("", "0.1 leave\n", "illegal 8 1\n"),
        ("", "0.9223372036854775808 leave\n", "illegal 8 1\n"),
        ("", "0.0 fence c0\n", "illegal 8 1\n"),
        ("", "0.0 leave\n0.1 leave\n", "illegal 9 1\n"),
        ("fence c0\n", "0.0 quiet c0 : report\n", "illegal 9 1\n"),
        ("fence c0\n", "0.0 leave\n", "illegal 9 1\n"),
        (
            "stat-region r0\n",
            "0.0 meta stat-region r1 : ok\n",
            "illegal 9 1\n",
        ),
        (
            "put c0 i0 0 01\n",
            "0.0 refused put c0 i0 0 02 : error Absent\n",
            "illegal 9 1\n",
        ),
        ("crash\n", "0.0 crash\n0.1 leave\n", "illegal 10 1\n"),
        (
            "put c0 i0 0 01\nfence c0\n",
            "0.0 issue put c0 i0 0 01 : issued\n0.1 fence c0\n",
            "illegal 11 1\n",
        ),
    ];
    check_events(&rt, rt.alloc(), &table)
}

#[test]
fn tells_of_the_directory(rt: HostRuntime) -> Result<(), Fail> {
    let table: [(&str, &str, &str); 10] = [
        (
            "stat-region r0\n",
            "0.0 meta stat-region r0 : ok\n",
            "illegal 9 2\n",
        ),
        (
            "stat-region r0\n",
            "0.0 meta stat-region r0 : error Absent\n",
            "illegal 9 2\n",
        ),
        (
            "destroy r0\n",
            "0.0 meta destroy r0 : ok\n",
            "illegal 9 2\n",
        ),
        (
            "destroy r1\n",
            "0.0 meta destroy r1 : error BadHandle\n",
            "illegal 9 2\n",
        ),
        (
            "region r1 a 64 700\n",
            "0.0 meta region r1 a 64 700 : region 2\n",
            "illegal 9 2\n",
        ),
        (
            "region r1 a 64 700\n",
            "0.0 meta region r1 a 64 700 : error NoSpace\n",
            "illegal 9 2\n",
        ),
        (
            "region r1 a 64 700\nregion r2 a 64 700\n",
            "0.0 meta region r1 a 64 700 : region 1\n0.1 meta region r2 a 64 700 : region 2\n",
            "illegal 11 2\n",
        ),
        (
            "region r1 a 128 700\nalloc i1 x 64 600 r1\n",
            "0.0 meta region r1 a 128 700 : region 1\n0.1 meta alloc i1 x 64 600 r1 : error NoSpace\n",
            "illegal 11 2\n",
        ),
        (
            "region r1 a 128 700\nalloc i1 x 64 600 r1\n",
            "0.0 meta region r1 a 128 700 : region 1\n0.1 meta alloc i1 x 64 600 r1 : item 1 1 32 64\n",
            "illegal 11 2\n",
        ),
        (
            "region r1 a 128 700\nalloc i1 x 64 600 r1\n",
            "0.0 meta region r1 a 128 700 : region 1\n0.1 meta alloc i1 x 64 600 r1 : item 1 1 128 64\n",
            "illegal 11 2\n",
        ),
    ];
    check_events(&rt, rt.alloc(), &table)
}

#[test]
fn tells_of_the_answer_at_issue(rt: HostRuntime) -> Result<(), Fail> {
    let table: [(&str, &str, &str); 7] = [
        (
            "put c0 i0 0 01\n",
            "0.0 issue put c0 i0 0 01 : error Range\n",
            "illegal 9 3\n",
        ),
        (
            "put c0 i0 4096 01\n",
            "0.0 issue put c0 i0 4096 01 : issued\n",
            "illegal 9 3\n",
        ),
        (
            "put c0 i0 4096 01\n",
            "0.0 issue put c0 i0 4096 01 : error Absent\n",
            "illegal 9 3\n",
        ),
        (
            "put c0 i1 0 01\n",
            "0.0 issue put c0 i1 0 01 : issued\n",
            "illegal 9 3\n",
        ),
        (
            "put c1 i0 0 01\n",
            "0.0 issue put c1 i0 0 01 : issued\n",
            "illegal 9 3\n",
        ),
        (
            "quiet c0\n",
            "0.0 issue quiet c0 : issued\n",
            "illegal 9 3\n",
        ),
        (
            "copy-wait c0 0\n",
            "0.0 issue copy-wait c0 0 : issued\n",
            "illegal 9 3\n",
        ),
    ];
    check_events(&rt, rt.alloc(), &table)
}

const PUT: &str = "put-nb c0 i0 0 01\n";

const PUT_ISSUED: &str = "0.0 issue put-nb c0 i0 0 01 : issued\n";

/// Behind the issue of one put.
fn check_behind_put(
    rt: &impl Abort,
    alloc: Global,
    table: &[(&str, &str, &str)],
) -> Result<(), Fail> {
    for (statements, events, told) in table {
        let statements = format!(in alloc; "{PUT}{statements}")?;
        let events = format!(in alloc; "{PUT_ISSUED}{events}")?;
        check_events(rt, alloc, &[(statements.as_str(), events.as_str(), told)])?;
    }
    Ok(())
}

#[test]
fn tells_of_pieces(rt: HostRuntime) -> Result<(), Fail> {
    let table: [(&str, &str, &str); 12] = [
        ("", "0.0 piece 1 : ok\n", "illegal 10 4\n"),
        ("", "0.1 piece 0 : ok\n", "illegal 10 4\n"),
        ("", "0.0 piece 0 : ok\n0.0 piece 0 : ok\n", "illegal 11 4\n"),
        (
            "fence c0\nput-nb c0 i0 64 02\n",
            "0.1 fence c0\n0.2 issue put-nb c0 i0 64 02 : issued\n0.2 piece 0 : ok\n",
            "illegal 14 4\n",
        ),
        (
            "get-nb c0 i0 0 1\n",
            "0.0 piece 0 : ok\n0.1 issue get-nb c0 i0 0 1 : issued\n0.1 piece 0 : ok 00\n",
            "illegal 13 5\n",
        ),
        ("", "0.0 piece 0 : ok 01\n", "illegal 10 5\n"),
        ("", "0.0 piece 0 : error Absent\n", "illegal 10 5\n"),
        ("", "0.0 piece 0 : error NoPermission\n", "illegal 10 5\n"),
        (
            "",
            "0.0 piece 0 : error HistoryFull 262143 1\n",
            "illegal 10 5\n",
        ),
        (
            "",
            "0.0 piece 0 : error JournalFull 16777216 1\n",
            "illegal 10 5\n",
        ),
        (
            "",
            "0.0 piece 0 : error HistoryFull 18446744073709551615 1\n",
            "illegal 11 14\n",
        ),
        (
            "",
            "0.0 piece 0 : error HistoryFull 262144 1\n",
            "illegal 11 14\n",
        ),
    ];
    check_behind_put(&rt, rt.alloc(), &table)
}

#[test]
fn tells_of_answers(rt: HostRuntime) -> Result<(), Fail> {
    let table: [(&str, &str, &str); 5] = [
        ("put c0 i0 0 01\n", "0.0 answer : ok\n", "illegal 9 6\n"),
        (
            "put c0 i0 0 01\n",
            "0.0 issue put c0 i0 0 01 : issued\n0.0 answer : ok\n",
            "illegal 10 6\n",
        ),
        (
            "put c0 i0 0 01\n",
            "0.0 issue put c0 i0 0 01 : issued\n0.0 piece 0 : ok\n0.0 answer : error Range\n",
            "illegal 11 6\n",
        ),
        (
            "put c0 i0 0 01\n",
            "0.0 issue put c0 i0 0 01 : issued\n0.0 piece 0 : error Memory\n0.0 answer : ok\n",
            "illegal 11 6\n",
        ),
        (
            "atomic c0 i0 0 u64 fetch-add 1\n",
            "0.0 issue atomic c0 i0 0 u64 fetch-add 1 : issued\n0.0 piece 0 : ok 0000000000000000\n0.0 answer : value 1\n",
            "illegal 11 6\n",
        ),
    ];
    check_events(&rt, rt.alloc(), &table)
}

#[test]
fn tells_of_contexts(rt: HostRuntime) -> Result<(), Fail> {
    let table: [(&str, &str, &str); 8] = [
        ("open c0\n", "0.0 open c0 : ok\n", "illegal 9 7\n"),
        (
            "open c1\nopen c1\n",
            "0.0 open c1 : ok\n0.1 open c1 : ok\n",
            "illegal 11 7\n",
        ),
        ("fence c1\n", "0.0 fence c1\n", "illegal 9 7\n"),
        ("quiet c1\n", "0.0 quiet c1 : report\n", "illegal 9 8\n"),
        ("close c0\n", "0.0 close c0 : report\n", "illegal 9 8\n"),
        ("close c1\n", "0.0 close c1 : report\n", "illegal 9 8\n"),
        ("quiet c0\n", "0.0 quiet c0 : ok\n", "illegal 9 8\n"),
        (
            "quiet c0\n",
            "0.0 quiet c0 : report 0=ok\n",
            "illegal 9 8\n",
        ),
    ];
    check_events(&rt, rt.alloc(), &table)
}

#[test]
fn tells_of_reports_and_waits(rt: HostRuntime) -> Result<(), Fail> {
    let table: [(&str, &str, &str); 5] = [
        (
            "quiet c0\n",
            "0.1 quiet c0 : report 0=ok\n",
            "illegal 11 8\n",
        ),
        (
            "quiet c0\n",
            "0.0 piece 0 : ok\n0.1 quiet c0 : report\n",
            "illegal 12 8\n",
        ),
        (
            "quiet c0\n",
            "0.0 piece 0 : ok\n0.1 quiet c0 : report 0=error/Range\n",
            "illegal 12 8\n",
        ),
        (
            "copy-wait c0 0\n",
            "0.0 piece 0 : ok\n0.1 wait c0 0 : ok\n",
            "illegal 12 9\n",
        ),
        ("copy-wait c0 7\n", "0.1 wait c0 7 : ok\n", "illegal 11 9\n"),
    ];
    check_behind_put(&rt, rt.alloc(), &table)
}

const COPY: &str = "copy c0 i0 0 i0 64 8\n";

const COPY_ISSUED: &str = "0.0 issue copy c0 i0 0 i0 64 8 : issued\n";

/// Behind the issue of one copy, whose first piece reads and whose second one writes.
fn check_behind_copy(
    rt: &impl Abort,
    alloc: Global,
    table: &[(&str, &str, &str)],
) -> Result<(), Fail> {
    for (statements, events, told) in table {
        let statements = format!(in alloc; "{COPY}{statements}")?;
        let events = format!(in alloc; "{COPY_ISSUED}{events}")?;
        check_events(rt, alloc, &[(statements.as_str(), events.as_str(), told)])?;
    }
    Ok(())
}

#[test]
fn tells_of_copies(rt: HostRuntime) -> Result<(), Fail> {
    let table: [(&str, &str, &str); 7] = [
        ("", "0.0 piece 1 : ok\n", "illegal 10 4\n"),
        ("copy-wait c0 0\n", "0.1 wait c0 0 : ok\n", "illegal 11 9\n"),
        (
            "copy-wait c0 0\n",
            "0.0 piece 0 : ok\n0.1 wait c0 0 : ok\n",
            "illegal 12 9\n",
        ),
        (
            "copy-wait c0 0\n",
            "0.0 piece 0 : ok\n0.0 piece 1 : ok\n0.1 wait c0 0 : error Range\n",
            "illegal 13 9\n",
        ),
        (
            "copy-wait c0 0\ncopy-wait c0 0\n",
            "0.0 piece 0 : ok\n0.0 piece 1 : ok\n0.1 wait c0 0 : ok\n0.2 wait c0 0 : ok\n",
            "illegal 15 9\n",
        ),
        (
            "crash\n",
            "0.1 crash\n0.0 lose 0\n0.0 lose 1\n",
            "illegal 13 11\n",
        ),
        // The write went with its read, so nothing is left.
        ("crash\n", "0.1 crash\n0.0 lose 0\n", "illegal 8 13\n"),
    ];
    check_behind_copy(&rt, rt.alloc(), &table)
}

#[test]
fn tells_of_the_barrier(rt: HostRuntime) -> Result<(), Fail> {
    let table: [(&str, &str, &str); 4] = [
        ("barrier\n", "0.0 answer : passed\n", "illegal 9 6\n"),
        (
            "barrier\n",
            "0.0 arrive\n0.0 answer : ok\n",
            "illegal 10 10\n",
        ),
        (
            "barrier\nend\npe 6 5\nbarrier\n",
            "0.0 arrive\n0.0 answer : passed\n",
            "illegal 13 10\n",
        ),
        (
            "barrier\nend\npe 6 5\nbarrier\n",
            "0.0 arrive\n0.0 arrive\n",
            "illegal 13 1\n",
        ),
    ];
    check_events(&rt, rt.alloc(), &table)
}

#[test]
fn tells_of_ends(rt: HostRuntime) -> Result<(), Fail> {
    let table: [(&str, &str, &str); 8] = [
        ("", "0.1 leave\n", "illegal 10 11\n"),
        ("", "0.0 lose 0\n", "illegal 10 11\n"),
        ("", "0.0 piece 0 : ok\n", "illegal 11 14\n"),
        ("crash\n", "0.1 crash\n0.0 lose 1\n", "illegal 12 11\n"),
        ("crash\n", "0.1 crash\n0.1 lose 0\n", "illegal 12 11\n"),
        (
            "crash\n",
            "0.1 crash\n0.0 lose 0\n0.0 lose 0\n",
            "illegal 13 11\n",
        ),
        (
            "crash\n",
            "0.1 crash\n0.0 lose 0\n0.0 piece 0 : ok\n",
            "illegal 13 4\n",
        ),
        ("crash\n", "0.1 crash\n", "illegal 12 14\n"),
    ];
    check_behind_put(&rt, rt.alloc(), &table)
}

#[test]
fn tells_of_refusals(rt: HostRuntime) -> Result<(), Fail> {
    let table: [(&str, &str, &str); 13] = [
        (
            "barrier\n",
            "0.0 refused barrier : error DiskFault 0\n",
            "illegal 9 12\n",
        ),
        (
            "stat-region r0\n",
            "0.0 refused stat-region r0 : error DiskFault 0\n",
            "illegal 9 12\n",
        ),
        (
            "stat-region r0\n",
            "0.0 refused stat-region r0 : error JournalFull 16777216 1\n",
            "illegal 9 12\n",
        ),
        (
            "stat-region r0\n",
            "0.0 refused stat-region r0 : error HistoryFull 262144 1\n",
            "illegal 10 14\n",
        ),
        (
            "put c0 i0 0 01\n",
            "0.0 refused put c0 i0 0 01 : error HistoryFull 262144 1\n",
            "illegal 9 12\n",
        ),
        (
            "barrier\n",
            "0.0 refused barrier : error HistoryFull 262144 1\n",
            "illegal 10 14\n",
        ),
        (
            "region r1 a/b 64 700\n",
            "0.0 refused region r1 a/b 64 700 : error DiskFault 0\n",
            "illegal 9 12\n",
        ),
        (
            "destroy r1\n",
            "0.0 refused destroy r1 : error HistoryFull 262144 1\n",
            "illegal 9 12\n",
        ),
        (
            "region r1 a 64 700\n",
            "0.0 refused region r1 a 64 700 : error Absent\n",
            "illegal 9 12\n",
        ),
        (
            "region r1 a 64 700\n",
            "0.0 refused region r1 a 64 700 : error HistoryFull 262143 1\n",
            "illegal 9 12\n",
        ),
        (
            "region r1 a 64 700\n",
            "0.0 refused region r1 a 64 700 : error JournalFull 16777214 1\n",
            "illegal 9 12\n",
        ),
        (
            "region r1 a 64 700\n",
            "0.0 refused region r1 a 64 700 : error JournalFull 16777215 1\n",
            "illegal 10 14\n",
        ),
        (
            "region r1 a 64 700\n",
            "0.0 refused region r1 a 64 700 : error DiskFault 1\n",
            "illegal 10 14\n",
        ),
    ];
    check_events(&rt, rt.alloc(), &table)
}

/// Lines that have no form, and some near them that have one.
#[test]
fn tells_of_the_text(rt: HostRuntime) -> Result<(), Fail> {
    let table: [(&str, &str, &str); 18] = [
        ("", ".0 leave\n", "illegal 8 15\n"),
        ("", "0. leave\n", "illegal 8 15\n"),
        ("", "0.00 leave\n", "illegal 8 15\n"),
        ("", "0.0 leave c0\n", "illegal 8 15\n"),
        ("", "0.0 piece 4294967296 : ok\n", "illegal 8 15\n"),
        ("", "0.0 piece 4294967295 : ok\n", "illegal 8 4\n"),
        ("", "0.0 piece 0 : error DiskFault 0\n", "illegal 8 15\n"),
        ("", "0.0 piece 0 : error DiskFault\n", "illegal 8 4\n"),
        (
            "open c0\n",
            "0.0 open c0 : error Exists\n",
            "illegal 9 15\n",
        ),
        ("quiet c0\n", "0.0 issue quiet c0 : ok\n", "illegal 9 15\n"),
        (
            "quiet c0\n",
            "0.0 quiet c0 : report 0=error/HistoryFull\n",
            "illegal 9 15\n",
        ),
        (
            "quiet c0\n",
            "0.0 quiet c0 : report 0=error/HistoryFull/262144/1\n",
            "illegal 9 8\n",
        ),
        (
            "put c0 i0 0 01\n",
            "0.0 meta put c0 i0 0 01 : ok\n",
            "illegal 9 15\n",
        ),
        (
            "put c0 i0 0 01\n",
            "0.0 issue scatter c0 i0 0 1 2 2 0102 : issued\n",
            "illegal 9 15\n",
        ),
        (
            "destroy r0\n",
            "0.0 refused destroy r0 : error DiskFault\n",
            "illegal 9 15\n",
        ),
        (
            "destroy r0\n",
            "0.0 refused destroy r0 : error DiskFault 2\n",
            "illegal 9 15\n",
        ),
        (
            "destroy r0\n",
            "0.0 refused destroy r0 : error Absent 0\n",
            "illegal 9 15\n",
        ),
        (
            "lookup i1 : :\n",
            "0.0 meta lookup i1 : : : error BadName\n",
            "illegal 10 14\n",
        ),
    ];
    check_events(&rt, rt.alloc(), &table)
}

/// Two programs leave at once, and these lines tell it.
fn check_lines(rt: &impl Abort, alloc: Global, lines: &str, told: &str) -> Result<(), Fail> {
    let input = format!(in alloc;
        "service 1 1 64\npe 5 5\nend\npe 6 5\nend\nstop\nreplies\n{lines}opening 1 1\nevents 2\n0.0 leave\n1.0 leave\ndone\n"
    )?;
    check(rt, alloc, input.as_bytes(), told)
}

#[test]
fn tells_of_reply_lines(rt: HostRuntime) -> Result<(), Fail> {
    let table: [(&str, &str); 10] = [
        ("0.0 left\n1.0 left\n", "legal 2\n"),
        ("", "illegal 8 13\n"),
        ("0.0 left\n", "illegal 9 13\n"),
        ("1.0 left\n0.0 left\n", "illegal 8 13\n"),
        ("0.0 left\n0.0 left\n1.0 left\n", "illegal 9 13\n"),
        ("0.0 left\n1.0 left\n1.1 left\n", "illegal 10 13\n"),
        ("0.0 left\n64.0 left\n", "illegal 9 13\n"),
        ("0.0 left\n1.18446744073709551615 left\n", "illegal 9 13\n"),
        ("0.0 left\n1.0 crashed\n", "illegal 9 13\n"),
        ("0.0 left\n1.0 error DiskFault 0\n", "illegal 9 15\n"),
    ];
    for (lines, told) in table {
        check_lines(&rt, rt.alloc(), lines, told)?;
    }
    Ok(())
}
