use crate::{Call, DataOp, Op, Service, Width};
use fam_base::{Bytes, NoMemory};
use std::alloc::Global;

#[test]
fn services_have_limits(rt: HostRuntime) {
    for (servers, stripes, unit, there) in [
        (1, 1, 64, true),
        (8, 8, 65_536, true),
        (2, 4, 4096, true),
        (0, 1, 64, false),
        (9, 1, 64, false),
        (1, 9, 64, false),
        (1, 1, 100, false),
        (1, 1, 0, false),
        (1, 1, 65_600, false),
    ] {
        assert_eq!(rt; Service::of(servers, stripes, unit).is_some(), there);
    }
}

/// A put of these bytes on a context.
fn put(alloc: Global, context: u8, bytes: &[u8], blocking: bool) -> Result<Call, NoMemory> {
    let op = DataOp::Put {
        item: 0,
        offset: 0,
        bytes: Bytes::of(alloc, bytes)?,
    };
    Ok(Call::Data {
        context,
        op,
        blocking,
    })
}

/// An atomic on 32-bit numbers.
fn atomic(op: Op, a: i128, blocking: bool) -> Call {
    let op = DataOp::Atomic {
        item: 0,
        offset: 0,
        width: Width::I32,
        op,
        a,
        b: 0,
    };
    Call::Data {
        context: 0,
        op,
        blocking,
    }
}

#[test]
fn calls_have_shapes(rt: HostRuntime) -> Result<(), NoMemory> {
    assert!(rt; put(rt.alloc(), 7, &[1], true)?.shaped());
    assert!(rt; !put(rt.alloc(), 8, &[1], true)?.shaped());
    assert!(rt; put(rt.alloc(), 0, &[], false)?.nonblocking());
    assert!(rt; !put(rt.alloc(), 0, &[], true)?.nonblocking());
    assert!(rt; atomic(Op::Add, 2_147_483_647, false).shaped());
    assert!(rt; !atomic(Op::Add, 2_147_483_648, false).shaped());
    assert!(rt; !atomic(Op::FetchAdd, 1, false).shaped());
    assert!(rt; Call::Fence { context: 1 }.nonblocking());
    assert!(rt; !Call::Quiet { context: 1 }.nonblocking());
    Ok(())
}
