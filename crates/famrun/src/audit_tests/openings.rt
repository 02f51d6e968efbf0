//! Openings with regions and items.

use super::{check, push_line};
use std::test::Fail;

/// An opening with two regions and two items, before a run of no program.
const OPENED: [&str; 6] = [
    "opening 3 3",
    "region 1 5 5 700 4096 a",
    "region 2 5 4294967295 700 128 b",
    "item 1 1 0 256 5 6 600 x",
    "item 2 1 256 64 5 6 600 y",
    "events 0",
];

#[test]
fn tells_unlawful_openings(rt: HostRuntime) -> Result<(), Fail> {
    let table: [(usize, &str, &str); 12] = [
        (1, "opening 3 3", "legal 0\n"),
        (1, "opening 2 3", "illegal 6 15\n"),
        (1, "opening 3 2", "illegal 8 15\n"),
        (1, "opening 9223372036854775809 3", "illegal 4 15\n"),
        (2, "region 0 5 5 700 4096 a", "illegal 5 15\n"),
        (2, "region 1 5 5 700 67108865 a", "illegal 5 15\n"),
        (2, "region 1 5 5 700 4096 a/b", "illegal 5 15\n"),
        (3, "region 2 5 5 700 128 a", "illegal 6 15\n"),
        (4, "item 1 3 0 256 5 6 600 x", "illegal 7 15\n"),
        (5, "item 2 1 192 64 5 6 600 y", "illegal 8 15\n"),
        (5, "item 1 1 256 64 5 6 600 y", "illegal 8 15\n"),
        (6, "events 1", "illegal 10 15\n"),
    ];
    for (number, other, told) in table {
        let mut input = Vec::from_slice(rt.alloc(), b"service 1 1 64\nstop\nreplies\n")?;
        for (place, line) in OPENED.iter().enumerate() {
            let shown = if place + 1 == number { other } else { *line };
            push_line(&mut input, shown)?;
        }
        push_line(&mut input, "done")?;
        check(&rt, rt.alloc(), input.as_slice(), told)?;
    }
    Ok(())
}

const LOOKED_UP: &str = "service 1 1 64
pe 5 5
lookup-region r1 a
region r2 c 64 700
lookup i1 x a
end
stop
replies
0.0 region 1
0.1 region 3
0.2 item 1 1 0 256
0.3 left
opening 3 3
region 1 5 5 700 4096 a
region 2 5 4294967295 700 128 b
item 1 1 0 256 5 6 600 x
item 2 1 256 64 5 6 600 y
events 4
0.0 meta lookup-region r1 a : region 1
";

#[test]
fn judges_behind_an_opening(rt: HostRuntime) -> Result<(), Fail> {
    let table: [(&str, &str); 4] = [
        ("0.1 meta region r2 c 64 700 : region 3", "legal 4\n"),
        ("0.1 meta region r2 c 64 700 : region 4", "illegal 20 2\n"),
        ("0.1 meta region r2 b 64 700 : region 3", "illegal 20 1\n"),
        (
            "0.1 meta region r2 c 64 700 : error Exists",
            "illegal 20 2\n",
        ),
    ];
    for (event, told) in table {
        let input = format!(in rt.alloc();
            "{LOOKED_UP}{event}\n0.2 meta lookup i1 x a : item 1 1 0 256\n0.3 leave\ndone\n"
        )?;
        check(&rt, rt.alloc(), input.as_bytes(), told)?;
    }
    Ok(())
}
