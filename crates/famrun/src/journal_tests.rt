//! The journal, seen through `sim`: what is on the disk, and what a later run finds there.

use crate::command::fam_main;
use crate::tests::strings;
use fam_base::{Bytes, Places};
use fam_disk::MemDisk;
use fam_io::{MemSink, MemSource};
use std::alloc::Global;
use std::process::Abort;
use std::test::Fail;

/// A disk with these bytes, some of whose syncs fail, counted from 1.
fn disk_with(alloc: Global, bytes: &[u8], failing_syncs: &[u64]) -> Result<MemDisk, Fail> {
    Ok(MemDisk::new(
        alloc,
        Bytes::of(alloc, bytes)?,
        Places::new(alloc),
        Places::new(alloc),
        Places::of(alloc, failing_syncs)?,
    ))
}

/// Plays a script over a disk, compares the status and the output, and gives the disk back.
fn play_on(
    rt: &impl Abort,
    alloc: Global,
    disk: MemDisk,
    script: &str,
    status: u8,
    output: &str,
) -> Result<MemDisk, Fail> {
    let words = strings(alloc, &["sim", "0"])?;
    let mut input = MemSource::new(Bytes::of(alloc, script.as_bytes())?, Places::new(alloc));
    let mut sink = MemSink::new(alloc, Places::new(alloc));
    let outcome = fam_main(alloc, &words, &mut input, &mut sink, disk);
    assert_eq!(rt; outcome.status, status, "{script}");
    assert_eq!(rt; sink.written(), output.as_bytes(), "{script}");
    Ok(outcome.disk)
}

/// Plays a script over a disk with these bytes, whose calls do not fail.
fn play(
    rt: &impl Abort,
    alloc: Global,
    bytes: &[u8],
    script: &str,
    status: u8,
    output: &str,
) -> Result<MemDisk, Fail> {
    play_on(
        rt,
        alloc,
        disk_with(alloc, bytes, &[])?,
        script,
        status,
        output,
    )
}

/// Plays a script over each image that a crash may leave of a disk now, with three fills of the bytes in doubt. The
/// outputs are those wanted, in turn.
fn play_images(
    rt: &impl Abort,
    alloc: Global,
    disk: &MemDisk,
    script: &str,
    outputs: [&str; 3],
) -> Result<(), Fail> {
    play_image(rt, alloc, disk, 0, script, outputs[0])?;
    play_image(rt, alloc, disk, 1, script, outputs[1])?;
    play_image(rt, alloc, disk, 0xa5, script, outputs[2])
}

/// Plays a script over the image whose bytes in doubt are this one.
fn play_image(
    rt: &impl Abort,
    alloc: Global,
    disk: &MemDisk,
    byte: u8,
    script: &str,
    output: &str,
) -> Result<(), Fail> {
    let fill = Bytes::of(alloc, &[byte; 64])?;
    let image = disk.image(disk.moment(), &fill)?;
    play(rt, alloc, image.as_slice(), script, 0, output)?;
    Ok(())
}

/// A copy of bytes with one of them changed.
fn with_byte(alloc: Global, bytes: &[u8], at: usize, byte: u8) -> Result<Bytes, Fail> {
    let mut copy = Vec::from_slice(alloc, bytes)?;
    if let Some(place) = copy.get_mut(at) {
        *place = byte;
    }
    Ok(Bytes::from_vec(copy))
}

const CREATE_A: &str = "service 1 1 64
pe 5 5
region r1 a 4096 700
end
stop
";

const A_CREATED: &str = "replies
0.0 region 1
0.1 left
opening 1 1
events 2
0.0 meta region r1 a 4096 700 : region 1
0.1 leave
done
";

/// The journal of one region: the header, the open gate, the length and the body of its record, and a closed gate.
const ONE_REGION: [u8; 51] = [
    0x46, 0x41, 0x4d, 0x4a, 2, 0, 0, 0, 0, 0, 0, 0, 0, 0, 0, 0, 1, 0x1d, 0, 0, 0, 1, 1, 0, 0, 0, 0,
    0, 0, 0, 5, 0, 0, 0, 5, 0, 0, 0, 0xc0, 1, 0, 0x10, 0, 0, 0, 0, 0, 0, 1, 0x61, 0,
];

const FIND_A: &str = "service 1 1 64
pe 5 5
lookup-region r1 a
end
stop
";

const A_FOUND: &str = "replies
0.0 region 1
0.1 left
opening 2 1
region 1 5 5 700 4096 a
events 2
0.0 meta lookup-region r1 a : region 1
0.1 leave
done
";

const A_ABSENT: &str = "replies
0.0 error Absent
0.1 left
opening 1 1
events 2
0.0 meta lookup-region r1 a : error Absent
0.1 leave
done
";

#[test]
fn keeps_a_region(rt: HostRuntime) -> Result<(), Fail> {
    let alloc = rt.alloc();
    let disk = play(&rt, alloc, b"", CREATE_A, 0, A_CREATED)?;
    assert_eq!(rt; disk.bytes(), ONE_REGION.as_slice());
    let disk = play(&rt, alloc, &ONE_REGION, FIND_A, 0, A_FOUND)?;
    assert_eq!(rt; disk.bytes(), ONE_REGION.as_slice());
    Ok(())
}

#[test]
fn forgets_behind_a_closed_gate(rt: HostRuntime) -> Result<(), Fail> {
    let alloc = rt.alloc();
    let closed = with_byte(alloc, &ONE_REGION, 16, 0)?;
    play(&rt, alloc, closed.as_slice(), FIND_A, 0, A_ABSENT)?;
    Ok(())
}

/// A record that is cut off, a kind that is none, and headers that are none. Nothing is written on them.
#[test]
fn tells_where_a_journal_is_damaged(rt: HostRuntime) -> Result<(), Fail> {
    let alloc = rt.alloc();
    refuse(&rt, alloc, &ONE_REGION[..50], "damaged 16\n")?;
    for (at, byte, told) in [
        (21, 9, "damaged 16\n"),
        (17, 0x1e, "damaged 16\n"),
        (0, 0x47, "damaged 0\n"),
        (5, 1, "damaged 0\n"),
        (15, 1, "damaged 0\n"),
        (8, 1, "damaged 8\n"),
    ] {
        let damaged = with_byte(alloc, &ONE_REGION, at, byte)?;
        refuse(&rt, alloc, damaged.as_slice(), told)?;
    }
    Ok(())
}

/// A damaged journal is told, and left as it is.
fn refuse(rt: &impl Abort, alloc: Global, bytes: &[u8], told: &str) -> Result<(), Fail> {
    let disk = play(rt, alloc, bytes, FIND_A, 7, told)?;
    assert_eq!(rt; disk.bytes(), bytes);
    Ok(())
}

const WRITE_AN_ITEM: &str = "service 1 1 64
pe 5 5
region r1 a 64 700
alloc i1 x 64 600 r1
put c0 i1 0 ff
get c0 i1 0 1
end
stop
";

const ITEM_WRITTEN: &str = "replies
0.0 region 1
0.1 item 1 1 0 64
0.2 ok
0.3 ok ff
0.4 left
opening 1 1
events 9
0.0 meta region r1 a 64 700 : region 1
0.1 meta alloc i1 x 64 600 r1 : item 1 1 0 64
0.2 issue put c0 i1 0 ff : issued
0.2 piece 0 : ok
0.2 answer : ok
0.3 issue get c0 i1 0 1 : issued
0.3 piece 0 : ok ff
0.3 answer : ok ff
0.4 leave
done
";

const READ_THE_ITEM: &str = "service 1 1 64
pe 5 5
lookup i1 x a
get c0 i1 0 1
end
stop
";

const ITEM_READ: &str = "replies
0.0 item 1 1 0 64
0.1 ok 00
0.2 left
opening 2 2
region 1 5 5 700 64 a
item 1 1 0 64 5 5 600 x
events 5
0.0 meta lookup i1 x a : item 1 1 0 64
0.1 issue get c0 i1 0 1 : issued
0.1 piece 0 : ok 00
0.1 answer : ok 00
0.2 leave
done
";

#[test]
fn keeps_names_and_no_bytes(rt: HostRuntime) -> Result<(), Fail> {
    let alloc = rt.alloc();
    let disk = play(&rt, alloc, b"", WRITE_AN_ITEM, 0, ITEM_WRITTEN)?;
    play_on(&rt, alloc, disk, READ_THE_ITEM, 0, ITEM_READ)?;
    Ok(())
}

const CREATE_A_AND_B: &str = "service 1 1 64
pe 5 5
region r1 a 4096 700
region r1 b 4096 700
end
stop
";

const B_CREATED: &str = "replies
0.0 error DiskFault
0.1 region 1
0.2 left
opening 1 1
events 3
0.0 refused region r1 a 4096 700 : error DiskFault 1
0.1 meta region r1 b 4096 700 : region 1
0.2 leave
done
";

const FIND_A_AND_B: &str = "service 1 1 64
pe 5 5
lookup-region r1 a
lookup-region r1 b
end
stop
";

const B_ALONE: &str = "replies
0.0 error Absent
0.1 region 1
0.2 left
opening 2 1
region 1 5 5 700 4096 b
events 3
0.0 meta lookup-region r1 a : error Absent
0.1 meta lookup-region r1 b : region 1
0.2 leave
done
";

/// The fifth sync is that behind the gate of the first region. The second region takes its place.
#[test]
fn goes_on_behind_a_change_in_doubt(rt: HostRuntime) -> Result<(), Fail> {
    let alloc = rt.alloc();
    let disk = disk_with(alloc, b"", &[5])?;
    let disk = play_on(&rt, alloc, disk, CREATE_A_AND_B, 0, B_CREATED)?;
    play_images(&rt, alloc, &disk, FIND_A_AND_B, [B_ALONE; 3])?;
    play(&rt, alloc, disk.bytes(), FIND_A_AND_B, 0, B_ALONE)?;
    Ok(())
}

const A_REFUSED: &str = "replies
0.0 error DiskFault
0.1 left
opening 1 1
events 2
0.0 refused region r1 a 4096 700 : error DiskFault 1
0.1 leave
done
";

/// The sync that settles the doubt is served, so no crash leaves the region.
#[test]
fn settles_a_doubt_at_the_end(rt: HostRuntime) -> Result<(), Fail> {
    let alloc = rt.alloc();
    let disk = disk_with(alloc, b"", &[5])?;
    let disk = play_on(&rt, alloc, disk, CREATE_A, 0, A_REFUSED)?;
    play_images(&rt, alloc, &disk, FIND_A, [A_ABSENT; 3])
}

/// That sync fails too, so a crash may leave the region.
#[test]
fn may_keep_a_doubt_that_is_not_settled(rt: HostRuntime) -> Result<(), Fail> {
    let alloc = rt.alloc();
    let disk = disk_with(alloc, b"", &[5, 6])?;
    let disk = play_on(&rt, alloc, disk, CREATE_A, 0, A_REFUSED)?;
    play_images(&rt, alloc, &disk, FIND_A, [A_ABSENT, A_FOUND, A_ABSENT])
}

const NOT_IN_DOUBT: &str = "replies
0.0 error DiskFault
0.1 left
opening 1 1
events 2
0.0 refused region r1 a 4096 700 : error DiskFault 0
0.1 leave
done
";

/// The fourth sync is that behind the record, whose gate is still closed.
#[test]
fn has_no_doubt_before_the_gate(rt: HostRuntime) -> Result<(), Fail> {
    let alloc = rt.alloc();
    let disk = disk_with(alloc, b"", &[4])?;
    let disk = play_on(&rt, alloc, disk, CREATE_A, 0, NOT_IN_DOUBT)?;
    play_images(&rt, alloc, &disk, FIND_A, [A_ABSENT; 3])
}

/// Each sync that makes a fresh disk a journal.
#[test]
fn tells_that_no_journal_was_made(rt: HostRuntime) -> Result<(), Fail> {
    let alloc = rt.alloc();
    for sync in 1..4 {
        let disk = disk_with(alloc, b"", &[sync])?;
        let disk = play_on(&rt, alloc, disk, CREATE_A, 6, "disk fault\n")?;
        play_images(&rt, alloc, &disk, FIND_A, [A_ABSENT; 3])?;
    }
    Ok(())
}

const CREATE_LONG: &str = "service 1 1 64
pe 5 5
region r1 aaaaaaaaaaaaaaaaaaaaaaaaaaaaaaaaa 4096 700
end
stop
";

const LONG_CREATED: &str = "replies
0.0 region 1
0.1 left
opening 1 1
events 2
0.0 meta region r1 aaaaaaaaaaaaaaaaaaaaaaaaaaaaaaaaa 4096 700 : region 1
0.1 leave
done
";

/// A name of 33 bytes is one of the second version alone.
#[test]
fn has_long_names_in_the_second_version(rt: HostRuntime) -> Result<(), Fail> {
    let alloc = rt.alloc();
    let disk = play(&rt, alloc, b"", CREATE_LONG, 0, LONG_CREATED)?;
    let first = with_byte(alloc, disk.bytes(), 4, 1)?;
    refuse(&rt, alloc, first.as_slice(), "damaged 16\n")
}

#[test]
fn takes_up_the_first_version(rt: HostRuntime) -> Result<(), Fail> {
    let alloc = rt.alloc();
    let first = with_byte(alloc, &ONE_REGION, 4, 1)?;
    let disk = play(&rt, alloc, first.as_slice(), FIND_A, 0, A_FOUND)?;
    assert_eq!(rt; disk.bytes(), ONE_REGION.as_slice());
    for sync in 1..3 {
        let disk = disk_with(alloc, first.as_slice(), &[sync])?;
        let disk = play_on(&rt, alloc, disk, FIND_A, 6, "disk fault\n")?;
        play_images(&rt, alloc, &disk, FIND_A, [A_FOUND; 3])?;
    }
    Ok(())
}
