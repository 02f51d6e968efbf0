//! Each call on its happy path.

use crate::Store;
use fam_base::RegionId;
use std::alloc::Global;
use std::process::Abort;
use std::test::Fail;

/// Writes where the bytes fit.
fn put(rt: &impl Abort, store: &mut Store, region: u64, row: u64, at: u32, bytes: [u8; 2]) {
    assert!(rt;
        store.reaches(RegionId(region), row, at, 2),
        "at {region} {row} {at}"
    );
    store.write(RegionId(region), row, at, &bytes);
}

/// The first four bytes of a row.
fn front(rt: &impl Abort, store: &Store, region: u64, row: u64) -> [u8; 4] {
    let mut bytes = [9; 4];
    assert!(rt;
        store.reaches(RegionId(region), row, 0, 4),
        "at {region} {row}"
    );
    store.read(RegionId(region), row, 0, &mut bytes);
    bytes
}

/// Two regions: 7 has two rows of four bytes, 9 has one row of five.
fn two_regions(rt: &impl Abort, alloc: Global) -> Result<Store, Fail> {
    let mut store = Store::new(alloc);
    store.grow(RegionId(7), 2, 4)?;
    store.grow(RegionId(9), 1, 5)?;
    for (region, row, at, bytes) in [(7, 0, 2, [1, 2]), (7, 1, 0, [3, 4]), (9, 0, 1, [5, 6])] {
        put(rt, &mut store, region, row, at, bytes);
    }
    Ok(store)
}

#[test]
fn reads_what_was_written(rt: HostRuntime) -> Result<(), Fail> {
    let store = two_regions(&rt, rt.alloc())?;
    for (region, row, want) in [
        (7, 0, [0, 0, 1, 2]),
        (7, 1, [3, 4, 0, 0]),
        (9, 0, [0, 5, 6, 0]),
    ] {
        assert_eq!(rt; front(&rt, &store, region, row), want, "at {region} {row}");
    }
    Ok(())
}

#[test]
fn zeroes_a_part_of_a_row(rt: HostRuntime) -> Result<(), Fail> {
    let mut store = two_regions(&rt, rt.alloc())?;
    assert!(rt; store.reaches(RegionId(7), 1, 1, 2));
    store.zero(RegionId(7), 1, 1, 2);
    assert_eq!(rt; front(&rt, &store, 7, 1), [3, 0, 0, 0]);
    assert_eq!(rt; front(&rt, &store, 7, 0), [0, 0, 1, 2]);
    Ok(())
}

#[test]
fn rows_come_back_as_zeros(rt: HostRuntime) -> Result<(), Fail> {
    let mut store = two_regions(&rt, rt.alloc())?;
    store.shrink(RegionId(7), 1);
    assert!(rt; !store.reaches(RegionId(7), 1, 0, 0));
    store.grow(RegionId(7), 2, 4)?;
    assert_eq!(rt; front(&rt, &store, 7, 0), [0, 0, 1, 2]);
    assert_eq!(rt; front(&rt, &store, 7, 1), [0, 0, 0, 0]);
    store.drop_region(RegionId(7));
    assert!(rt; !store.reaches(RegionId(7), 0, 0, 0));
    assert_eq!(rt; front(&rt, &store, 9, 0), [0, 5, 6, 0]);
    Ok(())
}
