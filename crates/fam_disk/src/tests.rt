//! Each public call once, and each fault once.

ghost use Rattle.std.specs.Prelude.{◌≡◌, IfOk};
ghost use Rattle.fam_disk.specs.Memory.{memory_content};

use crate::{Disk, FileDisk, MemDisk, write_synced};
use fam_base::{Bytes, Failed, NoMemory, Places};
use std::alloc::Global;
use std::fs;
use std::test::Fail;

fn make_disk(
    alloc: Global,
    bytes: &[u8],
    reads: &[u64],
    writes: &[u64],
    syncs: &[u64],
) -> Result<MemDisk, NoMemory>
    ensures { IfOk result (λ disk. memory_content disk ≡ bytes.now) }
{
    Ok(MemDisk::new(
        alloc,
        Bytes::of(alloc, bytes)?,
        Places::of(alloc, reads)?,
        Places::of(alloc, writes)?,
        Places::of(alloc, syncs)?,
    ))
}

/// Writes three bytes over an empty disk, and reads the last two of them.
fn write_and_read<D: Disk>(disk: &mut D) -> Result<[u8; 2], Failed> {
    let mut back = [0; 2];
    if disk.len()? == 0 {
        write_synced(disk, 0, b"abc")?;
        if disk.len()? == 3 {
            disk.read(1, &mut back)?;
        }
    }
    Ok(back)
}

#[test]
fn memory_and_file_keep_what_is_written(rt: HostRuntime) -> Result<(), Fail> {
    let mut memory = make_disk(rt.alloc(), b"", &[], &[], &[])?;
    assert_eq!(rt; write_and_read(&mut memory)?, *b"bc");
    assert_eq!(rt; memory.bytes(), b"abc".as_slice());
    let path = "fam_disk_test";
    let _ = fs::remove_file(&rt, path);
    let mut file = FileDisk::open(&rt, path)?;
    assert_eq!(rt; write_and_read(&mut file)?, *b"bc");
    assert_eq!(rt; file.disk_faults(), 0);
    assert!(rt; file.read(2, &mut [0; 2]).is_err());
    assert_eq!(rt; file.disk_faults(), 1);
    assert_eq!(rt; fs::read(&rt, path)?.as_slice(), b"abc".as_slice());
    fs::remove_file(&rt, path)?;
    Ok(())
}

#[test]
fn calls_fail_that_the_lists_number(rt: HostRuntime) -> Result<(), Fail> {
    let mut disk = make_disk(rt.alloc(), b"abc", &[2], &[1], &[1])?;
    let mut byte = [0];
    assert!(rt; disk.read(0, &mut byte).is_ok());
    assert!(rt; disk.read(0, &mut byte).is_err());
    assert!(rt; disk.write_at(0, b"x").is_err());
    assert!(rt; disk.write_at(0, b"y").is_ok());
    assert!(rt; disk.sync().is_err());
    assert!(rt; disk.sync().is_ok());
    assert_eq!(rt; disk.disk_faults(), 3);
    assert_eq!(rt; disk.bytes(), b"ybc".as_slice());
    Ok(())
}

/// A write at the end, a sync, then a write that fails. Each moment with one byte to fill in.
#[test]
fn images_of_each_moment(rt: HostRuntime) -> Result<(), Fail> {
    let mut disk = make_disk(rt.alloc(), b"ab", &[], &[2], &[])?;
    write_synced(&mut disk, 1, b"cd")?;
    assert!(rt; disk.write_at(0, b"e").is_err());
    let fill = Bytes::of(rt.alloc(), b"?")?;
    for (moment, image) in [
        (0, b"ab".as_slice()),
        (1, b"a?\0".as_slice()),
        (2, b"acd".as_slice()),
        (3, b"?cd".as_slice()),
    ] {
        assert!(rt; moment <= disk.moment());
        assert_eq!(rt; disk.image(moment, &fill)?.as_slice(), image);
    }
    Ok(())
}
