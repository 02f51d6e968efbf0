//! Pieces of puts, of crashed programs, of atomics and of copies.

use super::Play;
use fam_base::{Bytes, FamError, NoMemory};
use fam_model::{Op, PieceAnswer, Reply, What, Width};
use std::alloc::Global;
use std::test::Fail;

/// A put on two stripes whose item is closed after its first piece. The second one is refused, or served all the same.
fn half(alloc: Global, is_served: bool) -> Result<Option<(u64, u8)>, NoMemory> {
    let mut play = Play::new(alloc)?;
    play.region(0, 4096)?;
    play.sized_item(1, 1, b"x", (1, 0, 128))?;
    play.put(2, 1, 63, &[1, 2])?;
    play.served(2, 0)?;
    play.shut(3)?;
    if is_served {
        play.served(2, 1)?;
    } else {
        play.refused(2, 1, FamError::NoPermission)?;
    }
    play.quiet_refused(4, 2, FamError::NoPermission)?;
    Ok(play.broken)
}

#[test]
fn permission_is_that_of_the_moment(rt: HostRuntime) -> Result<(), Fail> {
    assert_eq!(rt; half(rt.alloc(), false)?, None);
    assert_eq!(rt; half(rt.alloc(), true)?, Some((5, 5)));
    Ok(())
}

/// What becomes of a piece of a program that crashed.
#[derive(Clone, Copy)]
enum Left {
    Served(u32),
    Lost(u32),
}

/// A put on two stripes whose program crashes, and two events more.
fn crashed(alloc: Global, first: Left, second: Left) -> Result<Option<(u64, u8)>, NoMemory> {
    let mut play = Play::new(alloc)?;
    play.put(0, 0, 63, &[1, 2])?;
    play.add(0, 1, What::Crash)?;
    for left in [first, second] {
        match left {
            Left::Served(piece) => play.served(0, piece)?,
            Left::Lost(piece) => play.add(0, 0, What::Lose { piece })?,
        }
    }
    Ok(play.broken)
}

#[test]
fn pieces_outlive_their_program_or_are_lost(rt: HostRuntime) -> Result<(), Fail> {
    for (first, second, broken) in [
        (Left::Served(1), Left::Lost(0), None),
        (Left::Lost(1), Left::Lost(0), None),
        (Left::Lost(1), Left::Lost(1), Some((3, 11))),
        (Left::Served(0), Left::Lost(0), Some((3, 11))),
        (Left::Lost(1), Left::Served(1), Some((3, 4))),
    ] {
        assert_eq!(rt; crashed(rt.alloc(), first, second)?, broken);
    }
    Ok(())
}

/// The bytes of a number of a width, of which the lowest comes first.
fn found(play: &mut Play, call: u64, width: Width, number: i128) -> Result<(), NoMemory> {
    let bytes = number.to_le_bytes();
    match width {
        Width::I32 | Width::U32 | Width::F32 => play.found(call, 0, &bytes[..4]),
        Width::I64 | Width::U64 | Width::F64 => play.found(call, 0, &bytes[..8]),
        Width::I128 => play.found(call, 0, &bytes),
    }
}

/// A number is set, then changed by an operation that gives it, and is then this one.
fn changed(
    alloc: Global,
    width: Width,
    op: Op,
    arguments: (i128, i128),
    numbers: (i128, i128),
) -> Result<Option<(u64, u8)>, NoMemory> {
    let mut play = Play::new(alloc)?;
    play.atomic(0, width, Op::Set, numbers.0, 0)?;
    play.served(0, 0)?;
    play.atomic(1, width, op, arguments.0, arguments.1)?;
    found(&mut play, 1, width, numbers.0)?;
    play.answer(1, Reply::Value(numbers.0))?;
    play.atomic(2, width, Op::Fetch, 0, 0)?;
    found(&mut play, 2, width, numbers.1)?;
    play.answer(2, Reply::Value(numbers.1))?;
    Ok(play.broken)
}

#[test]
fn atomics_change_numbers_of_their_width(rt: HostRuntime) -> Result<(), Fail> {
    for (width, op, arguments, numbers, broken) in [
        (
            Width::I32,
            Op::FetchAdd,
            (1, 0),
            (2_147_483_647, -2_147_483_648),
            None,
        ),
        (
            Width::I32,
            Op::FetchSub,
            (1, 0),
            (-2_147_483_648, 2_147_483_647),
            None,
        ),
        (Width::U32, Op::FetchAdd, (1, 0), (4_294_967_295, 0), None),
        (Width::I64, Op::FetchMin, (0, 0), (-1, -1), None),
        (Width::I64, Op::FetchMin, (0, 0), (-1, 0), Some((6, 5))),
        (
            Width::U64,
            Op::FetchMin,
            (1, 0),
            (18_446_744_073_709_551_615, 1),
            None,
        ),
        (
            Width::U64,
            Op::FetchSub,
            (1, 0),
            (0, 18_446_744_073_709_551_615),
            None,
        ),
        (
            Width::U32,
            Op::FetchXor,
            (4_294_967_295, 0),
            (4_042_322_160, 252_645_135),
            None,
        ),
        (Width::I128, Op::Cas, (-5, 7), (-5, 7), None),
        (Width::I128, Op::Cas, (5, 7), (-5, -5), None),
        (Width::I128, Op::FetchAdd, (1, 0), (0, 1), Some((2, 3))),
    ] {
        assert_eq!(rt; changed(rt.alloc(), width, op, arguments, numbers)?, broken);
    }
    Ok(())
}

/// A copy on two stripes to one byte further on, whose pieces come in this order. The byte behind is then this one.
fn overlapping(alloc: Global, order: [u32; 4], last: u8) -> Result<Option<(u64, u8)>, NoMemory> {
    let mut play = Play::new(alloc)?;
    play.put(0, 0, 62, &[5, 6])?;
    play.served(0, 0)?;
    play.copy(1, 64)?;
    for piece in order {
        play.served(1, piece)?;
    }
    play.get(2, 0, 64, 1)?;
    play.found(2, 0, &[last])?;
    Ok(play.broken)
}

#[test]
fn parts_of_a_copy_come_in_any_order(rt: HostRuntime) -> Result<(), Fail> {
    for (order, last, broken) in [
        ([0, 2, 1, 3], 6, None),
        ([2, 3, 0, 1], 6, None),
        ([0, 1, 2, 3], 5, None),
        ([0, 1, 2, 3], 6, Some((8, 5))),
        ([0, 3, 1, 2], 6, Some((4, 4))),
    ] {
        assert_eq!(rt; overlapping(rt.alloc(), order, last)?, broken);
    }
    Ok(())
}

/// A put and a copy, which is waited for or not before a quiet reports them, and after it.
fn waited(alloc: Global, is_before: bool) -> Result<Option<(u64, u8)>, NoMemory> {
    let mut play = Play::new(alloc)?;
    play.put(0, 0, 0, &[1])?;
    play.served(0, 0)?;
    play.copy(1, 1)?;
    play.served(1, 0)?;
    play.served(1, 1)?;
    if is_before {
        play.wait(2, 1)?;
        play.quiet(3, &[0])?;
    } else {
        play.quiet(2, &[0, 1])?;
        play.quiet(3, &[])?;
    }
    play.wait(4, 1)?;
    Ok(play.broken)
}

#[test]
fn a_result_is_told_once(rt: HostRuntime) -> Result<(), Fail> {
    assert_eq!(rt; waited(rt.alloc(), true)?, Some((7, 9)));
    assert_eq!(rt; waited(rt.alloc(), false)?, Some((7, 9)));
    Ok(())
}

/// A piece of a put that is due, told before its fence and after it, and once it was served.
#[test]
fn what_is_due_is_told(rt: HostRuntime) -> Result<(), Fail> {
    let alloc = rt.alloc();
    let mut play = Play::new(alloc)?;
    play.put(0, 0, 0, &[7])?;
    play.fence(1)?;
    play.get(2, 0, 0, 1)?;
    assert!(rt; play.machine.due_answer(0, 0, 0)? == Some(PieceAnswer::Ok));
    assert!(rt; play.machine.due_answer(0, 2, 0)?.is_none());
    play.served(0, 0)?;
    let bytes = Bytes::of(alloc, &[7])?;
    assert!(rt; play.machine.due_answer(0, 0, 0)?.is_none());
    assert!(rt; play.machine.due_answer(0, 2, 0)? == Some(PieceAnswer::Data(bytes)));
    assert!(rt; play.machine.due_answer(9, 2, 0)?.is_none());
    Ok(())
}
