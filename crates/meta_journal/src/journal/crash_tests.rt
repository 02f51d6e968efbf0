//! Ten changes on a small journal, which goes over to its other area once: stopped at each moment, and with each
//! read, write and sync failing in turn.

ghost use Rattle.std.specs.Prelude.{◌≡◌, IfOk};
ghost use Rattle.fam_model.specs.Journal.{rows_of};
ghost use Rattle.fam_model.specs.Rows.{IsLawful};
ghost use Rattle.meta_codec.specs.Body.{HasBody};
ghost use Rattle.meta_journal.specs.State.{acknowledged, IsSound};

use crate::journal::kept::{Kept, disk_of, failing_disk};
use crate::journal::tests::{creation, destruction, open};
use crate::starting::OpenFault;
use fam_base::{Bytes, FamError, ItemId, Mode, NoMemory, RegionId, good_name};
use fam_disk::{Disk, MemDisk};
use fam_model::Change;
use std::alloc::Global;
use std::process::Abort;
use std::test::Fail;

/// The limit of the journals here.
const LIMIT: u64 = 200;

/// The change that allocates an item of a good name at the start of a region.
fn allocation(alloc: Global, item: u64, region: u64, name: &str) -> Result<Change, NoMemory>
    ensures { IfOk result (λ change. HasBody change) }
{
    let name = Bytes::of(alloc, name.as_bytes())?;
    if !good_name(name.as_slice()) {
        return Err(NoMemory);
    }
    Ok(Change::Allocate {
        item: ItemId(item),
        region: RegionId(region),
        base: 0,
        size: 64,
        uid: 5,
        gid: 5,
        mode: Mode::of(0o600).unwrap(),
        name,
    })
}

fn item_mode(item: u64) -> Change
    ensures { HasBody result }
{
    Change::SetItemMode {
        item: ItemId(item),
        mode: Mode::of(0o640).unwrap(),
    }
}

fn region_mode(region: u64) -> Change
    ensures { HasBody result }
{
    Change::SetRegionMode {
        region: RegionId(region),
        mode: Mode::of(0o750).unwrap(),
    }
}

/// How many changes the script has. The seventh has no room in the first area.
const CHANGES: usize = 10;

/// The change at a place of the script.
fn script_change(alloc: Global, place: usize) -> Result<Change, NoMemory>
    ensures { IfOk result (λ change. HasBody change) }
{
    match place {
        0 => creation(alloc, 1, "a"),
        1 => creation(alloc, 2, "b"),
        2 => allocation(alloc, 1, 1, "x"),
        3 => Ok(item_mode(1)),
        4 => Ok(Change::Deallocate { item: ItemId(1) }),
        5 => Ok(destruction(2)),
        6 => Ok(Change::ResizeRegion {
            region: RegionId(1),
            size: 8192,
        }),
        7 => creation(alloc, 3, "c"),
        8 => Ok(region_mode(3)),
        _ => Ok(destruction(1)),
    }
}

/// The short forms of the rows before each change of the script, and behind the last one, by a journal that has room
/// for all of it.
fn script_forms(rt: &impl Abort, alloc: Global) -> Result<Vec<Bytes>, Fail> {
    let mut forms = Vec::new(alloc);
    let mut kept = open(rt, alloc, disk_of(alloc, b"")?, 1000)?;
    for place in 0..CHANGES {
        forms.push(kept.form(alloc)?)?;
        let change = script_change(alloc, place)?;
        let result = kept.play(rt, alloc, change);
        assert_eq!(rt; result, Ok(()));
    }
    forms.push(kept.form(alloc)?)?;
    Ok(forms)
}

/// One of the short forms.
fn form_at(forms: &[Bytes], place: usize) -> &[u8] {
    match forms.get(place) {
        Some(form) => form.as_slice(),
        None => &[],
    }
}

/// The short forms of the rows that a crash may leave: those that were acknowledged, those with the change in flight,
/// and those with the change in doubt.
#[derive(Clone, Copy)]
struct Allowed<'a> {
    acknowledged: &'a [u8],
    in_flight: &'a [u8],
    in_doubt: &'a [u8],
}

impl Allowed<'_> {
    fn has(&self, form: &[u8]) -> bool {
        form == self.acknowledged || form == self.in_flight || form == self.in_doubt
    }
}

/// A crash may leave these rows alone.
fn only(form: &[u8]) -> Allowed<'_> {
    Allowed {
        acknowledged: form,
        in_flight: form,
        in_doubt: form,
    }
}

/// The image at a moment whose bytes in doubt are all the same.
fn check_image(
    rt: &impl Abort,
    alloc: Global,
    disk: &MemDisk,
    moment: u64,
    byte: u8,
    allowed: Allowed<'_>,
) -> Result<(), Fail> {
    assert!(rt; moment <= disk.moment());
    let fill = Bytes::of(alloc, &[byte; 256])?;
    let image = disk.image(moment, &fill)?;
    let form = open(rt, alloc, disk_of(alloc, image.as_slice())?, LIMIT)?.form(alloc)?;
    assert!(rt;
        allowed.has(form.as_slice()),
        "moment {moment}, byte {byte}"
    );
    Ok(())
}

/// Each image at a moment, with three fills.
fn check_moment(
    rt: &impl Abort,
    alloc: Global,
    disk: &MemDisk,
    moment: u64,
    allowed: Allowed<'_>,
) -> Result<(), Fail> {
    check_image(rt, alloc, disk, moment, 0, allowed)?;
    check_image(rt, alloc, disk, moment, 1, allowed)?;
    check_image(rt, alloc, disk, moment, 0xa5, allowed)
}

/// Each image at the moments from one to another, which is left out.
fn check_moments(
    rt: &impl Abort,
    alloc: Global,
    disk: &MemDisk,
    from: u64,
    to: u64,
    allowed: Allowed<'_>,
) -> Result<(), Fail> {
    for moment in from..to {
        check_moment(rt, alloc, disk, moment, allowed)?;
    }
    Ok(())
}

/// Opens the journal with the rows before a place of the script, all of which are acknowledged: no crash leaves others.
/// Where a call of the disk fails, it is opened again.
fn begin(
    rt: &impl Abort,
    alloc: Global,
    disk: MemDisk,
    place: usize,
    forms: &[Bytes],
) -> Result<Kept, Fail>
    ensures sound { IfOk result (λ kept. IsSound kept.journal) }
    ensures same { IfOk result (λ kept. rows_of (acknowledged kept.journal) ≡ kept.rows) }
    ensures lawful { IfOk result (λ kept. IsLawful kept.rows) }
{
    let from = disk.moment();
    let kept = match Kept::open(alloc, disk, LIMIT) {
        Ok(kept) => kept,
        Err((disk, fault)) => {
            assert_eq!(rt; fault, OpenFault::DiskFault);
            open(rt, alloc, disk, LIMIT)?
        }
    };
    let form = kept.form(alloc)?;
    assert_eq!(rt; form.as_slice(), form_at(forms, place));
    let to = kept.journal.disk.moment();
    let allowed = only(form.as_slice());
    check_moments(rt, alloc, &kept.journal.disk, from, to, allowed)?;
    check_moment(rt, alloc, &kept.journal.disk, to, allowed)?;
    Ok(kept)
}

/// Appends the change at a place of the script. Where it is served, a crash leaves it; before that, a crash leaves the
/// rows before it, or it too. Where it fails and is not in doubt, no crash leaves it.
fn step(
    rt: &impl Abort,
    alloc: Global,
    kept: &mut Kept,
    place: usize,
    forms: &[Bytes],
) -> Result<Result<(), FamError>, Fail>
    requires sound { IsSound kept.old.journal }
    requires same { rows_of (acknowledged kept.old.journal) ≡ kept.old.rows }
    requires lawful { IsLawful kept.old.rows }
    ensures sound { IsSound kept.new.journal }
    ensures same { rows_of (acknowledged kept.new.journal) ≡ kept.new.rows }
    ensures lawful { IsLawful kept.new.rows }
{
    let before = form_at(forms, place);
    let behind = form_at(forms, place.saturating_add(1));
    let from = kept.journal.disk.moment();
    let change = script_change(alloc, place)?;
    let result = kept.play(rt, alloc, change);
    let to = kept.journal.disk.moment();
    let allowed = if result.is_ok() || kept.journal.doubt().is_some() {
        Allowed {
            acknowledged: before,
            in_flight: behind,
            in_doubt: before,
        }
    } else {
        only(before)
    };
    check_moments(rt, alloc, &kept.journal.disk, from, to, allowed)?;
    let last = if result.is_ok() {
        only(behind)
    } else {
        allowed
    };
    check_moment(rt, alloc, &kept.journal.disk, to, last)?;
    Ok(result)
}

/// One more change is served behind one at a place of the script that failed.
fn go_on(
    rt: &impl Abort,
    alloc: Global,
    kept: &mut Kept,
    place: usize,
    forms: &[Bytes],
) -> Result<(), Fail>
    requires sound { IsSound kept.old.journal }
    requires same { rows_of (acknowledged kept.old.journal) ≡ kept.old.rows }
    requires lawful { IsLawful kept.old.rows }
{
    let acknowledged = form_at(forms, place);
    let in_doubt = if kept.journal.doubt().is_some() {
        form_at(forms, place.saturating_add(1))
    } else {
        acknowledged
    };
    let from = kept.journal.disk.moment();
    let change = creation(alloc, kept.rows.next_region, "z")?;
    let result = kept.play(rt, alloc, change);
    assert_eq!(rt; result, Ok(()), "place {place}");
    let behind = kept.form(alloc)?;
    let to = kept.journal.disk.moment();
    let allowed = Allowed {
        acknowledged,
        in_flight: behind.as_slice(),
        in_doubt,
    };
    check_moments(rt, alloc, &kept.journal.disk, from, to, allowed)?;
    check_moment(rt, alloc, &kept.journal.disk, to, only(behind.as_slice()))
}

/// Opens the journal and plays the changes from one place of the script to another, up to the first failure, behind
/// which one change more is served. Gives the disk back, and says whether a change failed.
fn play_part(
    rt: &impl Abort,
    alloc: Global,
    disk: MemDisk,
    from: usize,
    to: usize,
    forms: &[Bytes],
) -> Result<(MemDisk, bool), Fail> {
    let mut kept = begin(rt, alloc, disk, from, forms)?;
    for place in from..to {
        let result = step(rt, alloc, &mut kept, place, forms)?;
        if let Err(error) = result {
            assert_eq!(rt; error, FamError::DiskFault);
            go_on(rt, alloc, &mut kept, place, forms)?;
            return Ok((kept.close(), true));
        }
    }
    Ok((kept.close(), false))
}

/// Plays the script on a disk that has the first letter of a journal and no more. The journal is opened anew in the
/// middle, and behind the last change, where the second area is in use. Gives the number of calls that failed.
fn play_script(
    rt: &impl Abort,
    alloc: Global,
    reads: &[u64],
    writes: &[u64],
    syncs: &[u64],
    forms: &[Bytes],
) -> Result<u64, Fail> {
    let disk = failing_disk(alloc, b"F", reads, writes, syncs)?;
    let (disk, failed) = play_part(rt, alloc, disk, 0, 5, forms)?;
    if failed {
        return Ok(disk.disk_faults());
    }
    let (disk, failed) = play_part(rt, alloc, disk, 5, CHANGES, forms)?;
    if failed {
        return Ok(disk.disk_faults());
    }
    assert_eq!(rt; disk.bytes().get(8), Some(&1));
    let (disk, _failed) = play_part(rt, alloc, disk, CHANGES, CHANGES, forms)?;
    Ok(disk.disk_faults())
}

#[test]
fn keeps_what_was_acknowledged_at_each_moment(rt: HostRuntime) -> Result<(), Fail> {
    let alloc = rt.alloc();
    let forms = script_forms(&rt, alloc)?;
    let faults = play_script(&rt, alloc, &[], &[], &[], forms.as_slice())?;
    assert_eq!(rt; faults, 0);
    Ok(())
}

/// The script has 7 reads: one of a fresh disk, and three for each opening of a journal.
#[test]
fn goes_on_behind_each_read_that_fails(rt: HostRuntime) -> Result<(), Fail> {
    let alloc = rt.alloc();
    let forms = script_forms(&rt, alloc)?;
    for read in 1..=7u64 {
        let faults = play_script(&rt, alloc, &[read], &[], &[], forms.as_slice())?;
        assert_eq!(rt; faults, 1, "read {read}");
    }
    let faults = play_script(&rt, alloc, &[8], &[], &[], forms.as_slice())?;
    assert_eq!(rt; faults, 0);
    Ok(())
}

/// The script has 26 writes: three to make the journal, two for each change, and three to go over.
#[test]
fn goes_on_behind_each_write_that_fails(rt: HostRuntime) -> Result<(), Fail> {
    let alloc = rt.alloc();
    let forms = script_forms(&rt, alloc)?;
    for write in 1..=26u64 {
        let faults = play_script(&rt, alloc, &[], &[write], &[], forms.as_slice())?;
        assert_eq!(rt; faults, 1, "write {write}");
    }
    let faults = play_script(&rt, alloc, &[], &[27], &[], forms.as_slice())?;
    assert_eq!(rt; faults, 0);
    Ok(())
}

/// The script has 27 syncs: three to make the journal, two for each change, two to go over, and one for each opening
/// of a journal.
#[test]
fn goes_on_behind_each_sync_that_fails(rt: HostRuntime) -> Result<(), Fail> {
    let alloc = rt.alloc();
    let forms = script_forms(&rt, alloc)?;
    for sync in 1..=27u64 {
        let faults = play_script(&rt, alloc, &[], &[], &[sync], forms.as_slice())?;
        assert_eq!(rt; faults, 1, "sync {sync}");
    }
    let faults = play_script(&rt, alloc, &[], &[], &[28], forms.as_slice())?;
    assert_eq!(rt; faults, 0);
    Ok(())
}
