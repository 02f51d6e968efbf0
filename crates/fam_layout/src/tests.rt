//! Cuts and places by table.

use crate::{Layout, Plan, places_differ};
use fam_base::{RegionId, Sequence};
use fam_model::{Part, Place, PlanKind, Service};
use std::process::Abort;
use std::test::Fail;

/// The layout of a lawful service.
fn layout(rt: &impl Abort, servers: u8, stripes: u8, unit: u32) -> Layout {
    Layout::new(Service::of(servers, stripes, unit).expect(rt, "a lawful service"))
}

fn part(offset: u64, n: u64) -> Part {
    Part { offset, n }
}

#[test]
fn cuts_where_units_begin(rt: HostRuntime) -> Result<(), Fail> {
    let layout = layout(&rt, 1, 1, 64);
    for (base, offset, n, want) in [
        (
            0,
            63,
            130,
            [part(63, 1), part(64, 64), part(128, 64), part(192, 1)].as_slice(),
        ),
        (0, 0, 64, [part(0, 64)].as_slice()),
        (0, 64, 65, [part(64, 64), part(128, 1)].as_slice()),
        (32, 0, 64, [part(0, 32), part(32, 32)].as_slice()),
        (64, 1, 63, [part(1, 63)].as_slice()),
        (0, 63, 0, [].as_slice()),
    ] {
        let ranges = layout.cuts(rt.alloc(), base, offset, n)?;
        assert_eq!(rt; ranges.as_slice(), want, "{base} {offset} {n}");
    }
    Ok(())
}

#[test]
fn cuts_behind_other_ranges(rt: HostRuntime) -> Result<(), Fail> {
    let layout = layout(&rt, 1, 1, 64);
    let ranges = layout.cuts(rt.alloc(), 0, 5, 1)?;
    let ranges = layout.cut_onto(ranges, 60, 0, 8)?;
    assert_eq!(rt;
        ranges.as_slice(),
        [part(5, 1), part(0, 4), part(4, 4)].as_slice()
    );
    Ok(())
}

#[test]
fn cuts_where_units_of_either_begin(rt: HostRuntime) -> Result<(), Fail> {
    let layout = layout(&rt, 1, 1, 64);
    for (from, to, n, want) in [
        (
            60,
            50,
            80,
            [
                part(0, 4),
                part(4, 10),
                part(14, 54),
                part(68, 10),
                part(78, 2),
            ]
            .as_slice(),
        ),
        (0, 128, 65, [part(0, 64), part(64, 1)].as_slice()),
        (1, 1, 0, [].as_slice()),
    ] {
        let ranges = layout.shared_cuts(rt.alloc(), from, to, n)?;
        assert_eq!(rt; ranges.as_slice(), want, "{from} {to} {n}");
    }
    Ok(())
}

#[test]
fn places_go_round(rt: HostRuntime) {
    let layout = layout(&rt, 2, 2, 64);
    assert_eq!(rt; layout.service().unit, 64);
    for (region, address, stripe, row, at) in [
        (1, 0, 1, 0, 0),
        (1, 63, 1, 0, 63),
        (1, 64, 2, 0, 0),
        (1, 192, 0, 0, 0),
        (1, 260, 1, 1, 4),
        (
            18_446_744_073_709_551_615,
            18_446_744_073_709_551_615,
            2,
            72_057_594_037_927_935,
            63,
        ),
    ] {
        let place = layout.place(RegionId(region), address);
        assert_eq!(rt; place, Place { stripe, row, at }, "{region} {address}");
    }
}

#[test]
fn plan_without_pieces(rt: HostRuntime) {
    places_differ();
    let plan = Plan {
        kind: PlanKind::Put,
        pieces: Sequence::new(rt.alloc()),
    };
    assert!(rt; plan.pieces.is_empty());
}
