//! Which rule is told of an event that may not come, and the refusals that are earned.

use super::Play;
use fam_base::{Bytes, FamError, Mode, NoMemory};
use fam_model::{Call, MetaCall, Op, Reply, What, Width};
use std::alloc::Global;
use std::test::Fail;

/// The making of a region that is refused for want of room, with this error.
fn wanting(alloc: Global, error: FamError, doubt: bool) -> Result<Option<(u64, u8)>, NoMemory> {
    let mut play = Play::new(alloc)?;
    let Some(mode) = Mode::of(448) else {
        return Ok(None);
    };
    let asked = MetaCall::CreateRegion {
        slot: 1,
        name: Bytes::of(alloc, b"a")?,
        size: 4096,
        mode,
    };
    play.full(0, Call::Meta(asked), error, doubt)?;
    Ok(play.broken)
}

#[test]
fn refusals_are_earned(rt: HostRuntime) -> Result<(), Fail> {
    for (error, doubt, broken) in [
        (
            FamError::HistoryFull {
                used: 262_144,
                need: 1,
            },
            false,
            None,
        ),
        (
            FamError::HistoryFull {
                used: 262_143,
                need: 1,
            },
            false,
            Some((0, 12)),
        ),
        (
            FamError::HistoryFull {
                used: 262_144,
                need: 1,
            },
            true,
            Some((0, 12)),
        ),
        (
            FamError::JournalFull {
                used: 16_777_216,
                need: 34,
            },
            false,
            None,
        ),
        (
            FamError::JournalFull {
                used: 16_777_182,
                need: 34,
            },
            false,
            None,
        ),
        (
            FamError::JournalFull {
                used: 16_777_181,
                need: 34,
            },
            false,
            Some((0, 12)),
        ),
        (
            FamError::JournalFull {
                used: 16_777_182,
                need: 34,
            },
            true,
            Some((0, 12)),
        ),
        (FamError::DiskFault, true, None),
        (FamError::DiskFault, false, None),
        (FamError::NoSpace, false, Some((0, 12))),
    ] {
        assert_eq!(rt; wanting(rt.alloc(), error, doubt)?, broken);
    }
    Ok(())
}

/// A piece of a put that is refused as its stripe's history has so many entries.
fn full(alloc: Global, used: u64, need: u64) -> Result<Option<(u64, u8)>, NoMemory> {
    let mut play = Play::new(alloc)?;
    play.put(0, 0, 0, &[1])?;
    play.refused(0, 0, FamError::HistoryFull { used, need })?;
    Ok(play.broken)
}

#[test]
fn pieces_are_refused_at_a_full_history(rt: HostRuntime) -> Result<(), Fail> {
    for (used, need, broken) in [
        (262_144, 1, None),
        (262_143, 2, None),
        (18_446_744_073_709_551_615, 18_446_744_073_709_551_615, None),
        (262_143, 1, Some((1, 5))),
        (0, 0, Some((1, 5))),
    ] {
        assert_eq!(rt; full(rt.alloc(), used, need)?, broken);
    }
    Ok(())
}

/// Events of which the last one breaks a rule.
fn breaks(alloc: Global, rule: u8) -> Result<Option<(u64, u8)>, NoMemory> {
    let mut play = Play::new(alloc)?;
    match rule {
        1 => play.add(2, 0, What::Fence { context: 0 })?,
        2 => play.item(0, 1, b"x", 1, 0)?,
        3 => play.put(0, 0, 4096, &[1])?,
        4 => play.served(0, 4_294_967_295)?,
        5 => {
            play.put(0, 0, 0, &[1])?;
            play.refused(0, 0, FamError::Absent)?
        }
        6 => {
            play.atomic(0, Width::I64, Op::Fetch, 0, 0)?;
            play.answer(0, Reply::Value(0))?
        }
        7 => play.add(0, 0, What::OpenContext { context: 0 })?,
        8 => {
            play.put(0, 0, 0, &[1])?;
            play.quiet(1, &[0])?
        }
        9 => {
            play.put(0, 0, 0, &[1])?;
            play.served(0, 0)?;
            play.wait(1, 0)?
        }
        10 => {
            play.add(0, 0, What::Arrive)?;
            play.answer(0, Reply::Passed)?
        }
        11 => {
            play.put(0, 0, 0, &[1])?;
            play.add(0, 1, What::Leave)?
        }
        _ => play.full(0, Call::Barrier, FamError::DiskFault, false)?,
    }
    Ok(play.broken)
}

#[test]
fn the_rule_of_the_event_is_told(rt: HostRuntime) -> Result<(), Fail> {
    for (rule, told) in [
        (1, Some((0, 1))),
        (2, Some((0, 2))),
        (3, Some((0, 3))),
        (4, Some((0, 4))),
        (5, Some((1, 5))),
        (6, Some((1, 6))),
        (7, Some((0, 7))),
        (8, Some((1, 8))),
        (9, Some((2, 9))),
        (10, Some((1, 10))),
        (11, Some((1, 11))),
        (12, Some((0, 12))),
    ] {
        assert_eq!(rt; breaks(rt.alloc(), rule)?, told);
    }
    Ok(())
}
