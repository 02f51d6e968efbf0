//! Regions on two servers of two stripes each, with units of 64 bytes.

use crate::StripedMemory;
use fam_base::{NoMemory, RegionId};
use fam_model::Service;
use std::alloc::Global;
use std::process::Abort;
use std::test::Fail;

const SERVICE: Service = Service {
    servers: 2,
    stripes: 2,
    unit: 64,
};

/// Makes a region that is not there yet.
fn make(
    rt: &impl Abort,
    memory: &mut StripedMemory,
    region: u64,
    size: u64,
) -> Result<(), NoMemory> {
    assert!(rt; memory.size(RegionId(region)).is_none(), "{region}");
    assert!(rt; size <= 1_024, "{region}");
    memory.create(RegionId(region), size)
}

/// Gives a region that is there another size.
fn resize(
    rt: &impl Abort,
    memory: &mut StripedMemory,
    region: u64,
    size: u64,
) -> Result<(), NoMemory> {
    assert!(rt; memory.size(RegionId(region)).is_some(), "{region}");
    assert!(rt; size <= 1_024, "{region}");
    memory.resize(RegionId(region), size)
}

/// Writes two bytes, which lie in one unit.
fn put(rt: &impl Abort, memory: &mut StripedMemory, region: u64, address: u64, bytes: [u8; 2]) {
    assert!(rt;
        memory.lies_in_unit(RegionId(region), address, 2),
        "{region} {address}"
    );
    memory.write(RegionId(region), address, &bytes);
}

/// Two bytes, which lie in one unit.
fn got(rt: &impl Abort, memory: &StripedMemory, region: u64, address: u64) -> [u8; 2] {
    let mut bytes = [9; 2];
    assert!(rt;
        memory.lies_in_unit(RegionId(region), address, 2),
        "{region} {address}"
    );
    memory.read(RegionId(region), address, &mut bytes);
    bytes
}

/// Region 7 with bytes on both sides of a border, in its last whole unit and at its end.
fn seven(rt: &impl Abort, alloc: Global) -> Result<StripedMemory, Fail> {
    let mut memory = StripedMemory::new(alloc, SERVICE)?;
    make(rt, &mut memory, 7, 300)?;
    for (address, bytes) in [(62, [1, 2]), (64, [3, 4]), (254, [5, 6]), (298, [7, 8])] {
        put(rt, &mut memory, 7, address, bytes);
    }
    Ok(memory)
}

/// What stands at these addresses of region 7.
fn expect(rt: &impl Abort, memory: &StripedMemory, wanted: &[(u64, [u8; 2])]) {
    for (address, bytes) in wanted {
        assert_eq!(rt; got(rt, memory, 7, *address), *bytes, "at {address}");
    }
}

#[test]
fn reads_what_was_written(rt: HostRuntime) -> Result<(), Fail> {
    let memory = seven(&rt, rt.alloc())?;
    expect(
        &rt,
        &memory,
        &[
            (60, [0, 0]),
            (62, [1, 2]),
            (64, [3, 4]),
            (66, [0, 0]),
            (126, [0, 0]),
            (128, [0, 0]),
            (254, [5, 6]),
            (256, [0, 0]),
            (298, [7, 8]),
        ],
    );
    assert_eq!(rt; memory.size(RegionId(7)), Some(300));
    for (address, n) in [(63, 2), (299, 2), (300, 1), (0, 65)] {
        assert!(rt;
            !memory.lies_in_unit(RegionId(7), address, n),
            "{address} {n}"
        );
    }
    Ok(())
}

#[test]
#[tactic(auto, using(crate::proofs::Known::memory_laws))]
fn reads_and_writes_at_places(rt: HostRuntime) -> Result<(), Fail> {
    let mut memory = seven(&rt, rt.alloc())?;
    // Unit 1 of region 7 is the first on stripe 0, since 7 + 1 is twice 4.
    let place = memory.layout().place(RegionId(7), 70);
    assert_eq!(rt; (place.stripe, place.row, place.at), (0, 0, 6));
    assert!(rt; memory.lies_in_unit(RegionId(7), 70, 2));
    memory.write_at_place(RegionId(7), place, &[11, 12]);
    expect(&rt, &memory, &[(64, [3, 4]), (70, [11, 12]), (72, [0, 0])]);
    let mut bytes = [9; 2];
    assert!(rt; memory.lies_in_unit(RegionId(7), 70, 2));
    memory.read_at_place(RegionId(7), place, &mut bytes);
    assert_eq!(rt; bytes, [11, 12]);
    Ok(())
}

#[test]
fn what_is_cut_off_comes_back_as_zeros(rt: HostRuntime) -> Result<(), Fail> {
    let mut memory = seven(&rt, rt.alloc())?;
    resize(&rt, &mut memory, 7, 63)?;
    assert_eq!(rt; memory.size(RegionId(7)), Some(63));
    resize(&rt, &mut memory, 7, 320)?;
    expect(
        &rt,
        &memory,
        &[
            (62, [1, 0]),
            (64, [0, 0]),
            (254, [0, 0]),
            (298, [0, 0]),
            (318, [0, 0]),
        ],
    );
    Ok(())
}

#[test]
fn zeros_go_over_units(rt: HostRuntime) -> Result<(), Fail> {
    let mut memory = seven(&rt, rt.alloc())?;
    assert_eq!(rt; memory.size(RegionId(7)), Some(300));
    memory.zero(RegionId(7), 63, 192);
    expect(
        &rt,
        &memory,
        &[(62, [1, 0]), (64, [0, 0]), (254, [0, 6]), (298, [7, 8])],
    );
    Ok(())
}

#[test]
fn regions_do_not_meet(rt: HostRuntime) -> Result<(), Fail> {
    let mut memory = seven(&rt, rt.alloc())?;
    make(&rt, &mut memory, 8, 128)?;
    put(&rt, &mut memory, 8, 0, [21, 22]);
    put(&rt, &mut memory, 8, 64, [23, 24]);
    expect(&rt, &memory, &[(0, [0, 0]), (62, [1, 2]), (64, [3, 4])]);
    memory.remove(RegionId(7));
    assert_eq!(rt; got(&rt, &memory, 8, 0), [21, 22]);
    assert_eq!(rt; got(&rt, &memory, 8, 64), [23, 24]);
    make(&rt, &mut memory, 7, 300)?;
    expect(
        &rt,
        &memory,
        &[(62, [0, 0]), (64, [0, 0]), (254, [0, 0]), (298, [0, 0])],
    );
    Ok(())
}
