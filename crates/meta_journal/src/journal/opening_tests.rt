//! Opening a journal: fresh disks, damage, the first version, and calls that fail.

use crate::journal::Journal;
use crate::journal::kept::{disk_of, failing_disk, with_byte};
use crate::journal::tests::{EMPTY, ONE_REGION};
use crate::starting::OpenFault;
use fam_base::Bytes;
use fam_disk::MemDisk;
use std::alloc::Global;
use std::process::Abort;
use std::test::Fail;

/// What a journal of limit 100 was opened as.
#[derive(Drop)]
struct Opened {
    used: u64,
    regions: usize,
    disk: MemDisk,
}

/// Opens a journal of limit 100 on a disk.
fn open(alloc: Global, disk: MemDisk) -> Result<Opened, (MemDisk, OpenFault)> {
    match Journal::open_on(alloc, disk, 100) {
        Ok((journal, rows)) => Ok(Opened {
            used: journal.used(),
            regions: rows.regions.len(),
            disk: journal.close(),
        }),
        Err(refused) => Err(refused),
    }
}

/// It is opened, with this place behind its records and so many regions.
fn opens(
    rt: &impl Abort,
    alloc: Global,
    disk: MemDisk,
    used: u64,
    regions: usize,
) -> Result<MemDisk, Fail> {
    match open(alloc, disk) {
        Ok(opened) => {
            assert_eq!(rt; opened.used, used);
            assert_eq!(rt; opened.regions, regions);
            Ok(opened.disk)
        }
        Err((_disk, fault)) => panic!(rt; "{fault:?}"),
    }
}

/// It is refused.
fn refuses(
    rt: &impl Abort,
    alloc: Global,
    disk: MemDisk,
    want: OpenFault,
) -> Result<MemDisk, Fail> {
    match open(alloc, disk) {
        Ok(opened) => panic!(rt; "opened, used {}", opened.used),
        Err((disk, fault)) => {
            assert_eq!(rt; fault, want);
            Ok(disk)
        }
    }
}

/// Each image at each moment of a disk, with three fills, is opened with the same place and as many regions.
fn opens_each_image(
    rt: &impl Abort,
    alloc: Global,
    disk: &MemDisk,
    used: u64,
    regions: usize,
) -> Result<(), Fail> {
    for moment in 0..=disk.moment() {
        for byte in [0, 1, 0xa5] {
            opens_image(rt, alloc, disk, moment, byte, used, regions)?;
        }
    }
    Ok(())
}

fn opens_image(
    rt: &impl Abort,
    alloc: Global,
    disk: &MemDisk,
    moment: u64,
    byte: u8,
    used: u64,
    regions: usize,
) -> Result<(), Fail> {
    assert!(rt; moment <= disk.moment());
    let image = disk.image(moment, &Bytes::of(alloc, &[byte; 32])?)?;
    opens(rt, alloc, disk_of(alloc, image.as_slice())?, used, regions)?;
    Ok(())
}

/// A fresh disk is made a journal of no changes, and each image at each moment is fresh or one.
#[test]
fn makes_a_fresh_disk_a_journal(rt: HostRuntime) -> Result<(), Fail> {
    let alloc = rt.alloc();
    let table: [&[u8]; 5] = [b"", b"F", b"FAMJ", &EMPTY[..16], &[0; 17]];
    for bytes in table {
        let disk = opens(&rt, alloc, disk_of(alloc, bytes)?, 16, 1)?;
        assert_eq!(rt; disk.bytes(), EMPTY.as_slice());
        opens_each_image(&rt, alloc, &disk, 16, 1)?;
    }
    Ok(())
}

/// Each read and each sync of it fails in turn. A disk with no bytes is not read.
#[test]
fn tells_that_a_fresh_disk_failed(rt: HostRuntime) -> Result<(), Fail> {
    let alloc = rt.alloc();
    let table: [(&[u8], &[u64], &[u64]); 6] = [
        (b"", &[], &[1]),
        (b"", &[], &[2]),
        (b"", &[], &[3]),
        (&[0; 17], &[1], &[]),
        (&[0; 17], &[], &[1]),
        (&[0; 17], &[], &[2]),
    ];
    for (bytes, reads, syncs) in table {
        let disk = failing_disk(alloc, bytes, reads, &[], syncs)?;
        let disk = refuses(&rt, alloc, disk, OpenFault::DiskFault)?;
        opens_each_image(&rt, alloc, &disk, 16, 1)?;
        opens(&rt, alloc, disk, 16, 1)?;
    }
    Ok(())
}

/// A disk that is not fresh is left as it is where it is damaged.
fn refuses_damage(rt: &impl Abort, alloc: Global, bytes: &[u8], place: u64) -> Result<(), Fail> {
    let disk = disk_of(alloc, bytes)?;
    let disk = refuses(rt, alloc, disk, OpenFault::Damaged(place))?;
    assert_eq!(rt; disk.bytes(), bytes);
    Ok(())
}

/// One byte is changed: of the header, of the area in use, which the disk does not reach, of the length, the kind, the
/// region's number, the name's length and the name. Last, the gate behind the record is open. The same in a journal of the
/// first version.
#[test]
fn tells_of_damage_with_its_place(rt: HostRuntime) -> Result<(), Fail> {
    let alloc = rt.alloc();
    for (at, byte, place) in [
        (0, 0x47, 0),
        (3, 0x4b, 0),
        (5, 1, 0),
        (9, 1, 0),
        (15, 1, 0),
        (8, 1, 8),
        (17, 0x1c, 16),
        (17, 0x1e, 16),
        (20, 1, 16),
        (21, 9, 16),
        (22, 2, 16),
        (48, 2, 16),
        (49, 0x2f, 16),
        (50, 1, 50),
    ] {
        let damaged = with_byte(alloc, &ONE_REGION, at, byte)?;
        refuses_damage(&rt, alloc, damaged.as_slice(), place)?;
        let first = with_byte(alloc, damaged.as_slice(), 4, 1)?;
        refuses_damage(&rt, alloc, first.as_slice(), place)?;
    }
    refuses_damage(&rt, alloc, &ONE_REGION[..50], 16)
}

/// Bytes that are no damage: a version and an area in use that are neither of the two, a closed gate, whatever its byte,
/// in front of the record and behind it.
#[test]
fn passes_what_means_nothing(rt: HostRuntime) -> Result<(), Fail> {
    let alloc = rt.alloc();
    for (at, byte, used, regions) in [
        (4, 3, 50, 2),
        (4, 0, 50, 2),
        (8, 2, 50, 2),
        (16, 0, 16, 1),
        (16, 2, 16, 1),
        (16, 0xff, 16, 1),
        (50, 0xa5, 50, 2),
    ] {
        let other = with_byte(alloc, &ONE_REGION, at, byte)?;
        let disk = disk_of(alloc, other.as_slice())?;
        let disk = opens(&rt, alloc, disk, used, regions)?;
        assert_eq!(rt; disk.bytes(), other.as_slice());
    }
    Ok(())
}

/// The second area begins at place 100 of the disk. Its first record is damaged, and then its gate is closed.
#[test]
fn tells_of_damage_in_the_second_area(rt: HostRuntime) -> Result<(), Fail> {
    let alloc = rt.alloc();
    let mut bytes = Vec::from_slice(alloc, &EMPTY)?;
    bytes.extend_from_slice(&[0; 83])?;
    bytes.extend_from_slice(&[1, 1, 0, 0, 0, 9, 0])?;
    let second = with_byte(alloc, bytes.as_slice(), 8, 1)?;
    refuses_damage(&rt, alloc, second.as_slice(), 100)?;
    let closed = with_byte(alloc, second.as_slice(), 100, 0)?;
    opens(&rt, alloc, disk_of(alloc, closed.as_slice())?, 16, 1)?;
    Ok(())
}

/// The image at a moment has these bytes, whatever the bytes in doubt are.
fn same_image(
    rt: &impl Abort,
    alloc: Global,
    disk: &MemDisk,
    moment: u64,
    bytes: &[u8],
) -> Result<(), Fail> {
    assert!(rt; moment <= disk.moment());
    let image = disk.image(moment, &Bytes::of(alloc, &[0xa5; 64])?)?;
    assert_eq!(rt; image.as_slice(), bytes);
    Ok(())
}

/// Nothing is written on a journal of the second version: each image at each moment is what was there.
#[test]
fn writes_nothing_on_the_second_version(rt: HostRuntime) -> Result<(), Fail> {
    let alloc = rt.alloc();
    let disk = disk_of(alloc, &ONE_REGION)?;
    let disk = opens(&rt, alloc, disk, 50, 2)?;
    for moment in 0..=disk.moment() {
        same_image(&rt, alloc, &disk, moment, &ONE_REGION)?;
    }
    Ok(())
}

/// A journal of the first version is made one of the second, by one byte.
#[test]
fn takes_up_the_first_version(rt: HostRuntime) -> Result<(), Fail> {
    let alloc = rt.alloc();
    let first = with_byte(alloc, &ONE_REGION, 4, 1)?;
    let disk = disk_of(alloc, first.as_slice())?;
    let disk = opens(&rt, alloc, disk, 50, 2)?;
    assert_eq!(rt; disk.bytes(), ONE_REGION.as_slice());
    opens_each_image(&rt, alloc, &disk, 50, 2)
}

/// Each read and each sync fails in turn, of a journal of either version. It reads the same rows, and is opened then.
#[test]
fn tells_that_a_journal_failed(rt: HostRuntime) -> Result<(), Fail> {
    let alloc = rt.alloc();
    let table: [(u8, &[u64], &[u64]); 9] = [
        (1, &[1], &[]),
        (1, &[2], &[]),
        (1, &[3], &[]),
        (1, &[], &[1]),
        (1, &[], &[2]),
        (2, &[1], &[]),
        (2, &[2], &[]),
        (2, &[3], &[]),
        (2, &[], &[1]),
    ];
    for (version, reads, syncs) in table {
        let bytes = with_byte(alloc, &ONE_REGION, 4, version)?;
        let disk = failing_disk(alloc, bytes.as_slice(), reads, &[], syncs)?;
        let disk = refuses(&rt, alloc, disk, OpenFault::DiskFault)?;
        opens_each_image(&rt, alloc, &disk, 50, 2)?;
        opens(&rt, alloc, disk, 50, 2)?;
    }
    Ok(())
}
