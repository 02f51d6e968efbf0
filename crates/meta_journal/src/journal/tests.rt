//! Changes in turn on small journals, each opened on an empty disk: what the disk holds then, and what is found there
//! later.

ghost use Rattle.std.specs.Prelude.{◌≡◌, ◌≤◌, ◌^◌, IfOk};
ghost use Rattle.fam_model.specs.Journal.{rows_of};
ghost use Rattle.fam_model.specs.Rows.{IsLawful};
ghost use Rattle.meta_codec.specs.Body.{HasBody};
ghost use Rattle.meta_journal.specs.State.{acknowledged, IsSound};

use crate::journal::kept::{Kept, disk_of, failing_disk, with_byte};
use crate::starting::OpenFault;
use fam_base::{Bytes, FamError, Mode, NoMemory, RegionId, good_name};
use fam_disk::MemDisk;
use fam_model::{Change, RegionRow};
use fam_rows::is_lawful_change;
use std::alloc::Global;
use std::process::Abort;
use std::test::Fail;

/// The bytes of a journal with no changes.
pub(crate) const EMPTY: [u8; 17] = [
    0x46, 0x41, 0x4d, 0x4a, 2, 0, 0, 0, 0, 0, 0, 0, 0, 0, 0, 0, 0,
];

/// The bytes of a journal of one region: the header, the open gate, the length and the body of its record, and a closed
/// gate.
pub(crate) const ONE_REGION: [u8; 51] = [
    0x46, 0x41, 0x4d, 0x4a, 2, 0, 0, 0, 0, 0, 0, 0, 0, 0, 0, 0, 1, 0x1d, 0, 0, 0, 1, 1, 0, 0, 0, 0,
    0, 0, 0, 5, 0, 0, 0, 5, 0, 0, 0, 0xc0, 1, 0, 0x10, 0, 0, 0, 0, 0, 0, 1, 0x61, 0,
];

/// The change that creates a region of a good name.
pub(crate) fn creation(alloc: Global, number: u64, name: &str) -> Result<Change, NoMemory>
    ensures { IfOk result (λ change. HasBody change) }
{
    let name = Bytes::of(alloc, name.as_bytes())?;
    if !good_name(name.as_slice()) {
        return Err(NoMemory);
    }
    Ok(Change::CreateRegion {
        region: RegionId(number),
        uid: 5,
        gid: 5,
        mode: Mode::of(0o700).unwrap(),
        size: 4096,
        name,
    })
}

/// The change that ends a region.
pub(crate) fn destruction(number: u64) -> Change
    ensures { HasBody result }
{
    Change::DestroyRegion {
        region: RegionId(number),
    }
}

/// Opens a journal that is not damaged, on a disk whose opening does not fail.
pub(crate) fn open(rt: &impl Abort, alloc: Global, disk: MemDisk, limit: u64) -> Result<Kept, Fail>
    requires low { 17 ≤ limit }
    requires high { limit ≤ 2 ^ 24 }
    ensures sound { IfOk result (λ kept. IsSound kept.journal) }
    ensures same { IfOk result (λ kept. rows_of (acknowledged kept.journal) ≡ kept.rows) }
    ensures lawful { IfOk result (λ kept. IsLawful kept.rows) }
{
    match Kept::open(alloc, disk, limit) {
        Ok(kept) => Ok(kept),
        Err((_disk, fault)) => panic!(rt; "{fault:?}"),
    }
}

/// Opens a journal on an empty disk, some of whose syncs fail, counted from 1. The first three make the journal.
fn new_journal(
    rt: &impl Abort,
    alloc: Global,
    limit: u64,
    failing_syncs: &[u64],
) -> Result<Kept, Fail>
    requires low { 17 ≤ limit }
    requires high { limit ≤ 2 ^ 24 }
    ensures sound { IfOk result (λ kept. IsSound kept.journal) }
    ensures same { IfOk result (λ kept. rows_of (acknowledged kept.journal) ≡ kept.rows) }
    ensures lawful { IfOk result (λ kept. IsLawful kept.rows) }
{
    open(
        rt,
        alloc,
        failing_disk(alloc, b"", &[], &[], failing_syncs)?,
        limit,
    )
}

/// Appends a change that is served, and says what place is behind it.
fn plays(
    rt: &impl Abort,
    alloc: Global,
    kept: &mut Kept,
    change: Change,
    used: u64,
) -> Result<(), Fail>
    requires sound { IsSound kept.old.journal }
    requires same { rows_of (acknowledged kept.old.journal) ≡ kept.old.rows }
    requires lawful { IsLawful kept.old.rows }
    requires body { HasBody change }
    ensures sound { IsSound kept.new.journal }
    ensures same { rows_of (acknowledged kept.new.journal) ≡ kept.new.rows }
    ensures lawful { IsLawful kept.new.rows }
{
    let result = kept.play(rt, alloc, change);
    assert_eq!(rt; result, Ok(()));
    assert_eq!(rt; kept.journal.used(), used);
    Ok(())
}

/// Whether a row is that of a region as `creation` makes it.
fn is_region(row: &RegionRow, number: u64, name: &str) -> bool {
    row.number == RegionId(number)
        && (row.uid, row.gid) == (5, 5)
        && row.mode.bits() == 0o700
        && row.size == 4096
        && row.name.as_slice() == name.as_bytes()
}

/// The regions but the common one are just this one.
fn has_one_region(kept: &Kept, number: u64, name: &str) -> bool {
    match kept.rows.regions.as_slice() {
        [_common, row] => is_region(row, number, name),
        _ => false,
    }
}

/// The image that a crash may leave now whose bytes in doubt are all this one.
fn open_image(
    rt: &impl Abort,
    alloc: Global,
    disk: &MemDisk,
    limit: u64,
    byte: u8,
) -> Result<Kept, Fail>
    requires low { 17 ≤ limit }
    requires high { limit ≤ 2 ^ 24 }
{
    let image = disk.image(disk.moment(), &Bytes::of(alloc, &[byte; 64])?)?;
    open(rt, alloc, disk_of(alloc, image.as_slice())?, limit)
}

/// The bytes of one region's record, and what a later opening finds. It writes nothing.
#[test]
fn keeps_a_region(rt: HostRuntime) -> Result<(), Fail> {
    let alloc = rt.alloc();
    let mut kept = new_journal(&rt, alloc, 100, &[])?;
    plays(&rt, alloc, &mut kept, creation(alloc, 1, "a")?, 50)?;
    let disk = kept.close();
    assert_eq!(rt; disk.bytes(), ONE_REGION.as_slice());
    let kept = open(&rt, alloc, disk, 100)?;
    assert_eq!(rt; kept.journal.used(), 50);
    assert!(rt; has_one_region(&kept, 1, "a"));
    assert_eq!(rt; (kept.rows.next_region, kept.rows.next_item), (2, 1));
    assert_eq!(rt; kept.rows.items.len(), 1);
    assert_eq!(rt; kept.close().bytes(), ONE_REGION.as_slice());
    Ok(())
}

/// Appends a change that fits, whose memory is taken without the rows.
fn append_fitting(rt: &impl Abort, kept: &mut Kept, change: &Change) -> Result<(), FamError>
    requires sound { IsSound kept.old.journal }
    requires same { rows_of (acknowledged kept.old.journal) ≡ kept.old.rows }
    requires lawful { IsLawful kept.old.rows }
    requires body { HasBody change.now }
{
    let is_lawful = is_lawful_change(&kept.rows, change);
    assert!(rt; is_lawful);
    let fits = kept.journal.fits(change);
    assert!(rt; fits);
    kept.journal.reserve(change)?;
    kept.journal.append(change)
}

/// The same bytes by `reserve`, in a journal that they fill.
#[test]
fn fills_an_area(rt: HostRuntime) -> Result<(), Fail> {
    let alloc = rt.alloc();
    let mut kept = new_journal(&rt, alloc, 51, &[])?;
    let change = creation(alloc, 1, "a")?;
    assert_eq!(rt; append_fitting(&rt, &mut kept, &change), Ok(()));
    assert_eq!(rt; kept.journal.used(), 50);
    assert_eq!(rt; kept.close().bytes(), ONE_REGION.as_slice());
    Ok(())
}

/// The second region has no room, neither behind the first nor behind the short form.
#[test]
fn refuses_without_room(rt: HostRuntime) -> Result<(), Fail> {
    let alloc = rt.alloc();
    let mut kept = new_journal(&rt, alloc, 60, &[])?;
    let first = creation(alloc, 1, "a")?;
    assert!(rt; kept.journal.fits(&first));
    plays(&rt, alloc, &mut kept, first, 50)?;
    let second = creation(alloc, 2, "b")?;
    assert!(rt; !kept.journal.fits(&second));
    assert_eq!(rt;
        kept.play(&rt, alloc, second),
        Err(FamError::JournalFull { used: 50, need: 34 })
    );
    assert_eq!(rt; kept.close().bytes(), ONE_REGION.as_slice());
    Ok(())
}

/// A region and its end, and another region: then 98 bytes of an area of 100 are in use.
fn play_three(rt: &impl Abort, alloc: Global, kept: &mut Kept) -> Result<(), Fail>
    requires sound { IsSound kept.old.journal }
    requires same { rows_of (acknowledged kept.old.journal) ≡ kept.old.rows }
    requires lawful { IsLawful kept.old.rows }
    ensures sound { IsSound kept.new.journal }
    ensures same { rows_of (acknowledged kept.new.journal) ≡ kept.new.rows }
    ensures lawful { IsLawful kept.new.rows }
{
    plays(rt, alloc, kept, creation(alloc, 1, "a")?, 50)?;
    plays(rt, alloc, kept, destruction(1), 64)?;
    plays(rt, alloc, kept, creation(alloc, 2, "b")?, 98)
}

/// The third region has no room, and the place that is told is the one behind the short form. Then the second one is
/// destroyed all the same.
#[test]
fn refuses_behind_the_short_form(rt: HostRuntime) -> Result<(), Fail> {
    let alloc = rt.alloc();
    let mut kept = new_journal(&rt, alloc, 100, &[])?;
    play_three(&rt, alloc, &mut kept)?;
    let third = creation(alloc, 3, "c")?;
    assert_eq!(rt;
        kept.play(&rt, alloc, third),
        Err(FamError::JournalFull { used: 72, need: 34 })
    );
    assert_eq!(rt; kept.journal.used(), 98);
    plays(&rt, alloc, &mut kept, destruction(2), 86)
}

/// The second area once the journal went over to it: a skip to region 2, this region, its end, and a closed gate.
const SECOND_AREA: [u8; 71] = [
    1, 0x11, 0, 0, 0, 8, 2, 0, 0, 0, 0, 0, 0, 0, 1, 0, 0, 0, 0, 0, 0, 0, 1, 0x1d, 0, 0, 0, 1, 2, 0,
    0, 0, 0, 0, 0, 0, 5, 0, 0, 0, 5, 0, 0, 0, 0xc0, 1, 0, 0x10, 0, 0, 0, 0, 0, 0, 1, 0x62, 1, 9, 0,
    0, 0, 2, 2, 0, 0, 0, 0, 0, 0, 0, 0,
];

/// The fourth change goes over to the other area: a skip, the second region, and its end.
#[test]
fn goes_over_to_the_other_area(rt: HostRuntime) -> Result<(), Fail> {
    let alloc = rt.alloc();
    let mut kept = new_journal(&rt, alloc, 100, &[])?;
    play_three(&rt, alloc, &mut kept)?;
    plays(&rt, alloc, &mut kept, destruction(2), 86)?;
    let disk = kept.close();
    assert_eq!(rt; disk.bytes().len(), 171);
    assert_eq!(rt; disk.bytes()[8], 1);
    assert_eq!(rt; &disk.bytes()[100..], SECOND_AREA.as_slice());
    let kept = open(&rt, alloc, disk, 100)?;
    assert_eq!(rt; kept.journal.used(), 86);
    assert_eq!(rt; kept.rows.regions.len(), 1);
    assert_eq!(rt; (kept.rows.next_region, kept.rows.next_item), (3, 1));
    Ok(())
}

/// The fifth change goes back to the first area: a skip to region 3, and this region. What stands behind means nothing.
#[test]
fn goes_over_and_back(rt: HostRuntime) -> Result<(), Fail> {
    let alloc = rt.alloc();
    let mut kept = new_journal(&rt, alloc, 100, &[])?;
    play_three(&rt, alloc, &mut kept)?;
    plays(&rt, alloc, &mut kept, destruction(2), 86)?;
    plays(&rt, alloc, &mut kept, creation(alloc, 3, "c")?, 72)?;
    let disk = kept.close();
    assert_eq!(rt; disk.bytes().len(), 171);
    assert_eq!(rt; disk.bytes()[8], 0);
    let kept = open(&rt, alloc, disk, 100)?;
    assert_eq!(rt; kept.journal.used(), 72);
    assert!(rt; has_one_region(&kept, 3, "c"));
    Ok(())
}

/// Where the sync behind the byte of the other area fails, the old area stays in use, no change is in doubt, and the
/// next append goes over.
#[test]
fn stays_where_going_over_fails(rt: HostRuntime) -> Result<(), Fail> {
    let alloc = rt.alloc();
    let mut kept = new_journal(&rt, alloc, 100, &[11])?;
    play_three(&rt, alloc, &mut kept)?;
    assert_eq!(rt;
        kept.play(&rt, alloc, destruction(2)),
        Err(FamError::DiskFault)
    );
    assert!(rt; kept.journal.doubt().is_none());
    assert_eq!(rt; kept.journal.used(), 98);
    for byte in [0, 1, 0xa5] {
        let found = open_image(&rt, alloc, &kept.journal.disk, 100, byte)?;
        assert!(rt; has_one_region(&found, 2, "b"), "byte {byte}");
    }
    plays(&rt, alloc, &mut kept, destruction(2), 86)?;
    Ok(())
}

/// The fifth sync is that behind the gate of the first region. The second one takes its place.
#[test]
fn goes_on_behind_a_change_in_doubt(rt: HostRuntime) -> Result<(), Fail> {
    let alloc = rt.alloc();
    let mut kept = new_journal(&rt, alloc, 60, &[5])?;
    let a = creation(alloc, 1, "a")?;
    assert_eq!(rt; kept.play(&rt, alloc, a), Err(FamError::DiskFault));
    assert!(rt; kept.journal.doubt().is_some());
    plays(&rt, alloc, &mut kept, creation(alloc, 1, "b")?, 50)?;
    assert!(rt; kept.journal.doubt().is_none());
    for byte in [0, 1, 0xa5] {
        let found = open_image(&rt, alloc, &kept.journal.disk, 60, byte)?;
        assert!(rt; has_one_region(&found, 1, "b"), "byte {byte}");
    }
    Ok(())
}

/// The fourth sync is that behind the record, whose gate is still closed.
#[test]
fn has_no_doubt_before_the_gate(rt: HostRuntime) -> Result<(), Fail> {
    let alloc = rt.alloc();
    let mut kept = new_journal(&rt, alloc, 60, &[4])?;
    let a = creation(alloc, 1, "a")?;
    assert_eq!(rt; kept.play(&rt, alloc, a), Err(FamError::DiskFault));
    assert!(rt; kept.journal.doubt().is_none());
    for byte in [0, 1, 0xa5] {
        let found = open_image(&rt, alloc, &kept.journal.disk, 60, byte)?;
        assert_eq!(rt; found.rows.regions.len(), 1, "byte {byte}");
    }
    Ok(())
}

/// A change is in doubt. It is settled by one more sync, and then no crash leaves it.
#[test]
fn settles_a_doubt(rt: HostRuntime) -> Result<(), Fail> {
    let alloc = rt.alloc();
    let mut kept = new_journal(&rt, alloc, 60, &[5])?;
    let a = creation(alloc, 1, "a")?;
    assert_eq!(rt; kept.play(&rt, alloc, a), Err(FamError::DiskFault));
    assert_eq!(rt; kept.settle(), Ok(()));
    assert!(rt; kept.journal.doubt().is_none());
    for byte in [0, 1, 0xa5] {
        let found = open_image(&rt, alloc, &kept.journal.disk, 60, byte)?;
        assert_eq!(rt; found.rows.regions.len(), 1, "byte {byte}");
    }
    Ok(())
}

/// Where that sync fails too, the change stays in doubt: the bytes of an image say whether it is there. The next change
/// settles it and takes its place.
#[test]
fn keeps_a_doubt_that_is_not_settled(rt: HostRuntime) -> Result<(), Fail> {
    let alloc = rt.alloc();
    let mut kept = new_journal(&rt, alloc, 60, &[5, 6])?;
    let a = creation(alloc, 1, "a")?;
    assert_eq!(rt; kept.play(&rt, alloc, a), Err(FamError::DiskFault));
    assert_eq!(rt; kept.settle(), Err(FamError::DiskFault));
    assert!(rt; kept.journal.doubt().is_some());
    for (byte, regions) in [(0, 1), (1, 2), (0xa5, 1)] {
        let found = open_image(&rt, alloc, &kept.journal.disk, 60, byte)?;
        assert_eq!(rt; found.rows.regions.len(), regions, "byte {byte}");
    }
    plays(&rt, alloc, &mut kept, creation(alloc, 1, "b")?, 50)?;
    assert!(rt; has_one_region(&kept, 1, "b"));
    Ok(())
}

/// A name of 33 bytes is one of the second version alone.
#[test]
fn has_long_names_in_the_second_version(rt: HostRuntime) -> Result<(), Fail> {
    let alloc = rt.alloc();
    let name = "aaaaaaaaaaaaaaaaaaaaaaaaaaaaaaaaa";
    let mut kept = new_journal(&rt, alloc, 100, &[])?;
    plays(&rt, alloc, &mut kept, creation(alloc, 1, name)?, 82)?;
    let kept = open(&rt, alloc, kept.close(), 100)?;
    assert!(rt; has_one_region(&kept, 1, name));
    let first = with_byte(alloc, kept.close().bytes(), 4, 1)?;
    let disk = disk_of(alloc, first.as_slice())?;
    match Kept::open(alloc, disk, 100) {
        Ok(_kept) => panic!(rt; "opened"),
        Err((_disk, fault)) => assert_eq!(rt; fault, OpenFault::Damaged(16)),
    }
    Ok(())
}
