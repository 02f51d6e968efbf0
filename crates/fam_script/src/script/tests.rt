use super::{ScriptFault, parse};
use ScriptFault::BadLine;
use std::alloc::{AllocError, Global};
use std::test::Fail;

/// How many programs and how many statements of its own the first one has, or the bad line.
fn shape(alloc: Global, text: &str) -> Result<(usize, usize), ScriptFault> {
    let script = parse(alloc, text.as_bytes())?;
    let statements = script
        .programs
        .get(0)
        .map_or(0, |program| program.statements.len());
    Ok((script.programs.len(), statements))
}

/// A script with a program of these lines, the first of which is the third line.
fn program(alloc: Global, lines: &str) -> Result<String, AllocError> {
    format!(in alloc; "service 1 1 64\npe 5 5\n{lines}end\nstop\n")
}

#[test]
fn reads_whole_texts(rt: HostRuntime) {
    let example = "service 1 1 64\npe 5 5\nput c0 i0 0 01020304\nget c0 i0 0 4\nend\nstop\n";
    for (text, want) in [
        (example, Ok((1, 2))),
        ("service 1 1 64\nstop\n", Ok((0, 0))),
        ("service 1 1 64\npe 0 4294967294\nend\nstop\n", Ok((1, 0))),
        ("", Err(BadLine(1))),
        ("service 1 1 64", Err(BadLine(1))),
        ("service 1 1 64\n", Err(BadLine(2))),
        ("service 1 1 100\nstop\n", Err(BadLine(1))),
        ("service  1 1 64\nstop\n", Err(BadLine(1))),
        ("stop\n", Err(BadLine(1))),
        (
            "service 1 1 64\npe 5 4294967295\nend\nstop\n",
            Err(BadLine(2)),
        ),
        ("service 1 1 64\npe 5\nend\nstop\n", Err(BadLine(2))),
        ("service 1 1 64\nget c0 i0 0 4\nstop\n", Err(BadLine(2))),
        ("service 1 1 64\r\nstop\r\n", Err(BadLine(1))),
        ("service 1 1 64\npe 5 5\nstop\n", Err(BadLine(3))),
        ("service 1 1 64\nstop", Err(BadLine(2))),
        ("service 1 1 64\nstop\nstop\n", Err(BadLine(3))),
        ("service 1 1 64\nstop\n\n", Err(BadLine(3))),
        ("service 1 1 64\nstop\n ", Err(BadLine(3))),
    ] {
        assert_eq!(rt; shape(rt.alloc(), text), want, "{text}");
    }
}

#[test]
fn reads_each_statement(rt: HostRuntime) -> Result<(), Fail> {
    for line in [
        "region r15 r 18446744073709551615 777",
        "destroy r0",
        "resize r1 0",
        "chmod-region r1 007",
        "lookup-region r1 :",
        "stat-region r10",
        "alloc i15 - 1 600 r0",
        "dealloc i0",
        "chmod i1 640",
        "lookup i1 d r",
        "stat i9",
        "open c7",
        "close c0",
        "get c7 i15 18446744073709551615 0",
        "get-nb c0 i0 0 1",
        "put c0 i0 0 -",
        "put-nb c0 i0 0 00ff",
        "gather c0 i0 0 1 2 3",
        "gather-nb c0 i0 0 18446744073709551615 2 3",
        "scatter c0 i0 0 1 2 1 abcd",
        "scatter-nb c0 i0 0 1 0 5 -",
        "gather-index c0 i0 8 -",
        "gather-index-nb c0 i0 8 0,18446744073709551615,7",
        "scatter-index c0 i0 1 3,0 0a0b",
        "scatter-index-nb c0 i0 8 - -",
        "copy c0 i0 1 i15 2 3",
        "copy-wait c0 18446744073709551615",
        "atomic c0 i0 0 i32 set -2147483648",
        "atomic c0 i0 8 u64 fetch",
        "atomic c0 i0 8 u64 fetch-add 18446744073709551615",
        "atomic c0 i0 16 i128 cas -170141183460469231731687303715884105728 170141183460469231731687303715884105727",
        "atomic c0 i0 4 f32 xor 4294967295",
        "fence c3",
        "quiet c3",
        "barrier",
        "crash",
        "spin c0 i0 8 i64 -9223372036854775808 65536",
        "spin c0 i0 8 f64 0 1",
    ] {
        let text = program(rt.alloc(), format!(in rt.alloc(); "{line}\n")?.as_str())?;
        assert_eq!(rt; shape(rt.alloc(), text.as_str()), Ok((1, 1)), "{line}");
    }
    Ok(())
}

#[test]
fn refuses_each_wrong_word(rt: HostRuntime) -> Result<(), Fail> {
    for line in [
        "region r16 r 1 777",
        "region i1 r 1 777",
        "region r01 r 1 777",
        "region r1  1 777",
        "region r1 r 18446744073709551616 777",
        "region r1 r 01 777",
        "region r1 r 1 778",
        "region r1 r 1 77",
        "region r1 r 1 0777",
        "region r1 r 1",
        "region r1 r 1 777 0",
        "destroy i0",
        "destroy r",
        "destroy",
        "resize r0 -1",
        "resize r0 +1",
        "chmod-region r0 800",
        "lookup-region r0",
        "alloc r0 a 1 600 r0",
        "alloc i0 a 1 600 i0",
        "alloc i0 a 1 600 r16",
        "dealloc r0",
        "chmod i0 1000",
        "lookup i0 a",
        "lookup i0 a b c",
        "open c8",
        "open c00",
        "close i0",
        "get c8 i0 0 4",
        "get c0 i16 0 4",
        "get c0 i0 00 4",
        "get c0 i0 0 18446744073709551616",
        "get c0 i0 0 4 ",
        " get c0 i0 0 4",
        "get c0 i0  0 4",
        "get c0 i0 0",
        "get c0 i0 0 4 4",
        "get c0 i0 0 4\r",
        "Get c0 i0 0 4",
        "put c0 i0 0 0",
        "put c0 i0 0 0A",
        "put c0 i0 0 0g",
        "put c0 i0 0 ",
        "put c0 i0 0 --",
        "gather c0 i0 0 1 2",
        "scatter c0 i0 0 1 2 1 ab",
        "scatter c0 i0 0 1 2 1 abcdef",
        "gather-index c0 i0 8 ,",
        "gather-index c0 i0 8 1,",
        "gather-index c0 i0 8 01",
        "gather-index c0 i0 8 -,1",
        "scatter-index c0 i0 1 3,0 0a",
        "copy c0 i0 1 r0 2 3",
        "copy-nb c0 i0 1 i0 2 3",
        "copy-wait c0",
        "atomic c0 i0 0 i32 set 2147483648",
        "atomic c0 i0 0 i32 set -0",
        "atomic c0 i0 0 u32 set -1",
        "atomic c0 i0 0 i16 set 1",
        "atomic c0 i0 0 i32 put 1",
        "atomic c0 i0 0 i32 set",
        "atomic c0 i0 0 i32 set 1 2",
        "atomic c0 i0 0 i32 fetch 0",
        "atomic c0 i0 0 i32 cas 1",
        "atomic c0 i0 0 i128 set 170141183460469231731687303715884105728",
        "fence c9",
        "quiet",
        "barrier 1",
        "crash ",
        "spin c0 i0 0 i64 0 0",
        "spin c0 i0 0 i64 0 65537",
        "spin c0 i0 0 u32 -1 1",
        "repeat 0",
        "repeat 65537",
        "repeat",
        "done",
        "leave",
        "",
    ] {
        let text = program(rt.alloc(), format!(in rt.alloc(); "{line}\n")?.as_str())?;
        assert_eq!(rt; shape(rt.alloc(), text.as_str()), Err(BadLine(3)), "{line}");
    }
    Ok(())
}

#[test]
fn reads_names_of_64_bytes(rt: HostRuntime) -> Result<(), Fail> {
    let name = "n".repeat(rt.alloc(), 64)?;
    for (line, want) in [
        (
            format!(in rt.alloc(); "lookup i0 {name} {name}\n")?,
            Ok((1, 1)),
        ),
        (
            format!(in rt.alloc(); "lookup i0 {name}n r\n")?,
            Err(BadLine(3)),
        ),
        (format!(in rt.alloc(); "lookup i0  r\n")?, Err(BadLine(3))),
        (
            format!(in rt.alloc(); "lookup i0 \u{7f} r\n")?,
            Err(BadLine(3)),
        ),
    ] {
        let text = program(rt.alloc(), line.as_str())?;
        assert_eq!(rt; shape(rt.alloc(), text.as_str()), want, "{line}");
    }
    Ok(())
}

#[test]
fn reads_repeats_in_repeats(rt: HostRuntime) -> Result<(), Fail> {
    for (lines, want) in [
        ("repeat 3\nbarrier\ndone\n", Ok((1, 1))),
        ("repeat 1\ndone\nbarrier\n", Ok((1, 2))),
        (
            "repeat 65536\nrepeat 65536\nrepeat 65536\nrepeat 65536\ndone\ndone\ndone\ndone\n",
            Ok((1, 1)),
        ),
        (
            "repeat 1\nrepeat 1\nrepeat 1\nrepeat 1\nrepeat 1\n",
            Err(BadLine(7)),
        ),
        ("repeat 1\nbarrier\n", Err(BadLine(5))),
        ("repeat 1\ndone\ndone\n", Err(BadLine(5))),
        ("repeat 1\npe 5 5\n", Err(BadLine(4))),
        ("repeat 65536\nbarrier\ndone\n", Ok((1, 1))),
        ("repeat 65536\nbarrier\ndone\nbarrier\n", Err(BadLine(7))),
        ("repeat 256\nrepeat 256\nbarrier\ndone\ndone\n", Ok((1, 1))),
        (
            "repeat 65536\nrepeat 65536\nbarrier\ndone\ndone\n",
            Err(BadLine(8)),
        ),
        ("spin c0 i0 0 i64 0 65536\n", Ok((1, 1))),
        ("spin c0 i0 0 i64 0 65536\ncrash\n", Err(BadLine(5))),
        (
            "repeat 2\nspin c0 i0 0 i64 0 32769\ndone\n",
            Err(BadLine(6)),
        ),
    ] {
        let text = program(rt.alloc(), lines)?;
        assert_eq!(rt; shape(rt.alloc(), text.as_str()), want, "{lines}");
    }
    Ok(())
}

#[test]
fn reads_64_programs(rt: HostRuntime) -> Result<(), Fail> {
    let programs = "pe 1 1\nend\n".repeat(rt.alloc(), 64)?;
    let text = format!(in rt.alloc(); "service 8 8 65536\n{programs}stop\n")?;
    assert_eq!(rt; shape(rt.alloc(), text.as_str()), Ok((64, 0)));
    let text = format!(in rt.alloc(); "service 8 8 65536\n{programs}pe 1 1\nend\nstop\n")?;
    assert_eq!(rt; shape(rt.alloc(), text.as_str()), Err(BadLine(130)));
    Ok(())
}
