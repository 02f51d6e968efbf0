//! Plans of gets, puts and atomics by table, worked out by hand.

use crate::plan;
use fam_base::{Bytes, Descriptor, FamError, ItemId, Need, NoMemory, RegionId};
use fam_layout::{Layout, Plan};
use fam_model::{DataOp, Op, PieceKind, PlanKind, PlanPiece, Service, Width};
use std::alloc::Global;
use std::process::Abort;
use std::test::Fail;

/// Two servers of two stripes each, with units of 64 bytes.
fn layout(rt: &impl Abort) -> Layout {
    Layout::new(Service::of(2, 2, 64).expect(rt, "a lawful service"))
}

/// A plan on an item of region 1, of 1000 bytes, so many bytes behind the region's begin.
fn planned(rt: &impl Abort, alloc: Global, op: &DataOp, base: u64) -> Result<Plan, FamError> {
    assert!(rt; base < 1_000_000);
    let item = Descriptor {
        item: ItemId(5),
        region: RegionId(1),
        base,
        size: 1000,
    };
    match op {
        DataOp::Get { .. } | DataOp::Put { .. } | DataOp::Atomic { .. } => {
            plan(alloc, &layout(rt), op, item, item)
        }
        _ => Err(FamError::Absent),
    }
}

fn get(offset: u64, count: u64) -> DataOp {
    DataOp::Get {
        item: 0,
        offset,
        count,
    }
}

/// A put of bytes that count up from 0.
fn put(alloc: Global, offset: u64, count: u8) -> Result<DataOp, NoMemory> {
    let mut bytes = Bytes::new(alloc);
    for byte in 0..count {
        bytes.push(byte)?;
    }
    Ok(DataOp::Put {
        item: 0,
        offset,
        bytes,
    })
}

fn atomic(offset: u64, width: Width, op: Op) -> DataOp {
    DataOp::Atomic {
        item: 0,
        offset,
        width,
        op,
        a: 7,
        b: 0,
    }
}

/// Offset, length, stripe, row and byte of a piece.
fn parts(piece: &PlanPiece) -> (u64, u64, u32, u64, u32) {
    let place = piece.place;
    (piece.offset, piece.n, place.stripe, place.row, place.at)
}

#[test]
fn put_across_four_units(rt: HostRuntime) -> Result<(), Fail> {
    let op = put(rt.alloc(), 63, 130)?;
    let plan = planned(&rt, rt.alloc(), &op, 0)?;
    assert_eq!(rt; plan.kind, PlanKind::Put);
    assert_eq!(rt; plan.pieces.len(), 4);
    let want = [
        (63, 1, 1, 0, 63),
        (64, 64, 2, 0, 0),
        (128, 64, 3, 0, 0),
        (192, 1, 0, 0, 0),
    ];
    for (piece, (want, first)) in plan
        .pieces
        .as_slice()
        .iter()
        .zip(want.iter().zip([0u8, 1, 65, 129].iter()))
    {
        assert_eq!(rt; parts(piece), *want);
        assert_eq!(rt; piece.item, ItemId(5));
        assert_eq!(rt; piece.need, Need::Write);
        assert_eq!(rt; piece.kind, PieceKind::Write);
        assert_eq!(rt; piece.bytes.len() as u64, piece.n);
        assert_eq!(rt; piece.bytes.get(0).copied(), Some(*first));
    }
    Ok(())
}

#[test]
fn get_is_cut_by_address(rt: HostRuntime) -> Result<(), Fail> {
    let plan = planned(&rt, rt.alloc(), &get(0, 70), 250)?;
    assert_eq!(rt; plan.kind, PlanKind::Get);
    assert_eq!(rt; plan.pieces.len(), 2);
    let want = [(0, 6, 0, 0, 58), (6, 64, 1, 1, 0)];
    for (piece, want) in plan.pieces.as_slice().iter().zip(want.iter()) {
        assert_eq!(rt; parts(piece), *want);
        assert_eq!(rt; piece.need, Need::Read);
        assert_eq!(rt; piece.kind, PieceKind::Read);
        assert!(rt; piece.bytes.is_empty());
    }
    Ok(())
}

#[test]
fn atomic_is_one_piece(rt: HostRuntime) -> Result<(), Fail> {
    for (op, kind, need) in [
        (Op::Fetch, PlanKind::Fetch, Need::Read),
        (Op::FetchAdd, PlanKind::Fetch, Need::Both),
        (Op::Add, PlanKind::Put, Need::Write),
    ] {
        let plan = planned(&rt, rt.alloc(), &atomic(16, Width::U64, op), 64)?;
        assert_eq!(rt; plan.kind, kind);
        assert_eq!(rt; plan.pieces.len(), 1);
        for piece in plan.pieces.as_slice() {
            assert_eq!(rt; parts(piece), (16, 8, 2, 0, 16));
            assert_eq!(rt; piece.need, need);
            let width = Width::U64;
            let kind = PieceKind::Atomic {
                op,
                width,
                a: 7,
                b: 0,
            };
            assert_eq!(rt; piece.kind, kind);
        }
    }
    Ok(())
}

#[test]
fn refused_in_order(rt: HostRuntime) {
    let past = 18_446_744_073_709_551_615;
    for (op, want) in [
        (get(0, 1000), None),
        (get(1000, 0), None),
        (get(1001, 0), Some(FamError::Range)),
        (get(999, 2), Some(FamError::Range)),
        (get(past, 1), Some(FamError::Range)),
        (get(0, 1_048_576), Some(FamError::Range)),
        (get(0, 1_048_577), Some(FamError::TooLarge)),
        (get(past, past), Some(FamError::TooLarge)),
        (atomic(992, Width::U64, Op::And), None),
        (
            atomic(1001, Width::I64, Op::And),
            Some(FamError::Unsupported),
        ),
        (
            atomic(1001, Width::I128, Op::Add),
            Some(FamError::Unsupported),
        ),
        (atomic(0, Width::F32, Op::Set), Some(FamError::Unsupported)),
        (atomic(1004, Width::I64, Op::Add), Some(FamError::Unaligned)),
        (atomic(1000, Width::I64, Op::Add), Some(FamError::Range)),
        (atomic(992, Width::I128, Op::Cas), Some(FamError::Range)),
    ] {
        let plan = planned(&rt, rt.alloc(), &op, 0);
        assert_eq!(rt; plan.err(), want, "{op:?}");
    }
}
