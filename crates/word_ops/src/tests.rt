//! Whole-number arithmetic at the edges of each width, worked out elsewhere.

use crate::{apply, supported, value, width_bytes};
use fam_model::{Op, Width};
use std::process::Abort;

const OPS: [Op; 18] = [
    Op::Set,
    Op::Add,
    Op::Sub,
    Op::Min,
    Op::Max,
    Op::And,
    Op::Or,
    Op::Xor,
    Op::Fetch,
    Op::FetchAdd,
    Op::FetchSub,
    Op::FetchMin,
    Op::FetchMax,
    Op::FetchAnd,
    Op::FetchOr,
    Op::FetchXor,
    Op::Swap,
    Op::Cas,
];

/// An operation and the one that does the same and gives the old value.
const PAIRS: [(Op, Op); 8] = [
    (Op::Set, Op::Swap),
    (Op::Add, Op::FetchAdd),
    (Op::Sub, Op::FetchSub),
    (Op::Min, Op::FetchMin),
    (Op::Max, Op::FetchMax),
    (Op::And, Op::FetchAnd),
    (Op::Or, Op::FetchOr),
    (Op::Xor, Op::FetchXor),
];

/// The bytes of a number, the lowest first.
fn bytes_of(number: u128) -> [u8; 16] {
    let mut bytes = [0u8; 16];
    let mut left = number;
    for byte in bytes.iter_mut() {
        *byte = (left % 256) as u8;
        left /= 256;
    }
    bytes
}

/// Applies the operation to a number of these bits, and tells whether it gives the old number and leaves
/// those bits.
fn becomes(
    rt: &impl Abort,
    op: Op,
    width: Width,
    old: (u128, i128),
    arguments: (i128, i128),
    new: u128,
) -> bool {
    let (a, b) = arguments;
    assert!(rt; supported(op, width));
    assert!(rt; width.contains(a));
    assert!(rt; width.contains(b));
    let n = width_bytes(width);
    assert!(rt; n <= 16);
    let mut into = [0u8; 16];
    let before = bytes_of(old.0);
    let after = bytes_of(new);
    let given = apply(op, width, &before[..n], a, b, &mut into[..n]);
    given == old.1 && value(width, &before[..n]) == old.1 && into[..n] == after[..n]
}

const SIGNED: [(Width, u128, i128, i128, [u128; 5]); 8] = [
    (
        Width::I32,
        0x7fff_ffff,
        2_147_483_647,
        1,
        [
            0x0000_0001,
            0x8000_0000,
            0x7fff_fffe,
            0x0000_0001,
            0x7fff_ffff,
        ],
    ),
    (
        Width::I32,
        0x8000_0000,
        -2_147_483_648,
        2_147_483_647,
        [
            0x7fff_ffff,
            0xffff_ffff,
            0x0000_0001,
            0x8000_0000,
            0x7fff_ffff,
        ],
    ),
    (
        Width::I32,
        0x8000_0000,
        -2_147_483_648,
        -2_147_483_648,
        [
            0x8000_0000,
            0x0000_0000,
            0x0000_0000,
            0x8000_0000,
            0x8000_0000,
        ],
    ),
    (
        Width::I32,
        0xffff_ffff,
        -1,
        1,
        [
            0x0000_0001,
            0x0000_0000,
            0xffff_fffe,
            0xffff_ffff,
            0x0000_0001,
        ],
    ),
    (
        Width::I64,
        0x7fff_ffff_ffff_ffff,
        9_223_372_036_854_775_807,
        1,
        [
            0x0000_0000_0000_0001,
            0x8000_0000_0000_0000,
            0x7fff_ffff_ffff_fffe,
            0x0000_0000_0000_0001,
            0x7fff_ffff_ffff_ffff,
        ],
    ),
    (
        Width::I64,
        0x8000_0000_0000_0000,
        -9_223_372_036_854_775_808,
        9_223_372_036_854_775_807,
        [
            0x7fff_ffff_ffff_ffff,
            0xffff_ffff_ffff_ffff,
            0x0000_0000_0000_0001,
            0x8000_0000_0000_0000,
            0x7fff_ffff_ffff_ffff,
        ],
    ),
    (
        Width::I64,
        0x8000_0000_0000_0000,
        -9_223_372_036_854_775_808,
        -9_223_372_036_854_775_808,
        [
            0x8000_0000_0000_0000,
            0x0000_0000_0000_0000,
            0x0000_0000_0000_0000,
            0x8000_0000_0000_0000,
            0x8000_0000_0000_0000,
        ],
    ),
    (
        Width::I64,
        0xffff_ffff_ffff_ffff,
        -1,
        1,
        [
            0x0000_0000_0000_0001,
            0x0000_0000_0000_0000,
            0xffff_ffff_ffff_fffe,
            0xffff_ffff_ffff_ffff,
            0x0000_0000_0000_0001,
        ],
    ),
];

const UNSIGNED: [(Width, u128, i128, i128, [u128; 8]); 6] = [
    (
        Width::U32,
        0xffff_ffff,
        4_294_967_295,
        1,
        [
            0x0000_0001,
            0x0000_0000,
            0xffff_fffe,
            0x0000_0001,
            0xffff_ffff,
            0x0000_0001,
            0xffff_ffff,
            0xffff_fffe,
        ],
    ),
    (
        Width::U32,
        0x0000_0000,
        0,
        4_294_967_295,
        [
            0xffff_ffff,
            0xffff_ffff,
            0x0000_0001,
            0x0000_0000,
            0xffff_ffff,
            0x0000_0000,
            0xffff_ffff,
            0xffff_ffff,
        ],
    ),
    (
        Width::U32,
        0x5555_5555,
        1_431_655_765,
        2_863_311_530,
        [
            0xaaaa_aaaa,
            0xffff_ffff,
            0xaaaa_aaab,
            0x5555_5555,
            0xaaaa_aaaa,
            0x0000_0000,
            0xffff_ffff,
            0xffff_ffff,
        ],
    ),
    (
        Width::U64,
        0xffff_ffff_ffff_ffff,
        18_446_744_073_709_551_615,
        1,
        [
            0x0000_0000_0000_0001,
            0x0000_0000_0000_0000,
            0xffff_ffff_ffff_fffe,
            0x0000_0000_0000_0001,
            0xffff_ffff_ffff_ffff,
            0x0000_0000_0000_0001,
            0xffff_ffff_ffff_ffff,
            0xffff_ffff_ffff_fffe,
        ],
    ),
    (
        Width::U64,
        0x0000_0000_0000_0000,
        0,
        18_446_744_073_709_551_615,
        [
            0xffff_ffff_ffff_ffff,
            0xffff_ffff_ffff_ffff,
            0x0000_0000_0000_0001,
            0x0000_0000_0000_0000,
            0xffff_ffff_ffff_ffff,
            0x0000_0000_0000_0000,
            0xffff_ffff_ffff_ffff,
            0xffff_ffff_ffff_ffff,
        ],
    ),
    (
        Width::U64,
        0x5555_5555_5555_5555,
        6_148_914_691_236_517_205,
        12_297_829_382_473_034_410,
        [
            0xaaaa_aaaa_aaaa_aaaa,
            0xffff_ffff_ffff_ffff,
            0xaaaa_aaaa_aaaa_aaab,
            0x5555_5555_5555_5555,
            0xaaaa_aaaa_aaaa_aaaa,
            0x0000_0000_0000_0000,
            0xffff_ffff_ffff_ffff,
            0xffff_ffff_ffff_ffff,
        ],
    ),
];

const COMPARED: [(Width, u128, i128, i128, i128, u128); 10] = [
    (
        Width::I32,
        0x8000_0000,
        -2_147_483_648,
        -2_147_483_648,
        2_147_483_647,
        0x7fff_ffff,
    ),
    (
        Width::I32,
        0x7fff_ffff,
        2_147_483_647,
        -2_147_483_648,
        2_147_483_646,
        0x7fff_ffff,
    ),
    (Width::U32, 0x0000_0000, 0, 0, 4_294_967_295, 0xffff_ffff),
    (
        Width::U32,
        0xffff_ffff,
        4_294_967_295,
        0,
        4_294_967_294,
        0xffff_ffff,
    ),
    (
        Width::I64,
        0x8000_0000_0000_0000,
        -9_223_372_036_854_775_808,
        -9_223_372_036_854_775_808,
        9_223_372_036_854_775_807,
        0x7fff_ffff_ffff_ffff,
    ),
    (
        Width::I64,
        0x7fff_ffff_ffff_ffff,
        9_223_372_036_854_775_807,
        -9_223_372_036_854_775_808,
        9_223_372_036_854_775_806,
        0x7fff_ffff_ffff_ffff,
    ),
    (
        Width::U64,
        0x0000_0000_0000_0000,
        0,
        0,
        18_446_744_073_709_551_615,
        0xffff_ffff_ffff_ffff,
    ),
    (
        Width::U64,
        0xffff_ffff_ffff_ffff,
        18_446_744_073_709_551_615,
        0,
        18_446_744_073_709_551_614,
        0xffff_ffff_ffff_ffff,
    ),
    (
        Width::I128,
        0x8000_0000_0000_0000_0000_0000_0000_0000,
        -170_141_183_460_469_231_731_687_303_715_884_105_728,
        -170_141_183_460_469_231_731_687_303_715_884_105_728,
        170_141_183_460_469_231_731_687_303_715_884_105_727,
        0x7fff_ffff_ffff_ffff_ffff_ffff_ffff_ffff,
    ),
    (
        Width::I128,
        0x7fff_ffff_ffff_ffff_ffff_ffff_ffff_ffff,
        170_141_183_460_469_231_731_687_303_715_884_105_727,
        -170_141_183_460_469_231_731_687_303_715_884_105_728,
        170_141_183_460_469_231_731_687_303_715_884_105_726,
        0x7fff_ffff_ffff_ffff_ffff_ffff_ffff_ffff,
    ),
];

#[test]
fn widths_have_their_operations(rt: HostRuntime) {
    for (width, count) in [
        (Width::I32, 12),
        (Width::U32, 18),
        (Width::I64, 12),
        (Width::U64, 18),
        (Width::I128, 3),
        (Width::F32, 0),
        (Width::F64, 0),
    ] {
        let mut there = 0u32;
        for op in OPS {
            if supported(op, width) {
                there = there.wrapping_add(1);
            }
        }
        assert_eq!(rt; there, count, "{width:?}");
    }
    assert!(rt; !supported(Op::And, Width::I64));
    assert!(rt; !supported(Op::Swap, Width::I128));
}

#[test]
fn signed_numbers_wrap(rt: HostRuntime) {
    for (width, bits, number, a, news) in SIGNED {
        for ((op, fetching), new) in PAIRS.iter().zip(news.iter()) {
            assert!(rt;
                becomes(&rt, *op, width, (bits, number), (a, 0), *new),
                "{width:?} {op:?} {number} {a}"
            );
            assert!(rt;
                becomes(&rt, *fetching, width, (bits, number), (a, 0), *new),
                "{width:?} {fetching:?} {number} {a}"
            );
        }
    }
}

#[test]
fn unsigned_numbers_wrap(rt: HostRuntime) {
    for (width, bits, number, a, news) in UNSIGNED {
        for ((op, fetching), new) in PAIRS.iter().zip(news.iter()) {
            assert!(rt;
                becomes(&rt, *op, width, (bits, number), (a, 0), *new),
                "{width:?} {op:?} {number} {a}"
            );
            assert!(rt;
                becomes(&rt, *fetching, width, (bits, number), (a, 0), *new),
                "{width:?} {fetching:?} {number} {a}"
            );
        }
    }
}

#[test]
fn numbers_are_compared_set_and_fetched(rt: HostRuntime) {
    for (width, bits, number, a, b, new) in COMPARED {
        assert!(rt;
            becomes(&rt, Op::Cas, width, (bits, number), (a, b), new),
            "{width:?} {number} {a} {b}"
        );
        assert!(rt;
            becomes(&rt, Op::Fetch, width, (bits, number), (0, 0), bits),
            "{width:?} {number}"
        );
    }
    let most = 0x7fff_ffff_ffff_ffff_ffff_ffff_ffff_ffff;
    assert!(rt; becomes(&rt, Op::Set, Width::I128, (1, 1), (i128::MAX, 0), most));
}
