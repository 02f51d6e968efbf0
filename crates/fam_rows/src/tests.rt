//! Requests in turn, each with the reply that it has.

ghost use Rattle.fam_model.specs.Rows.{IsLawful};

use crate::{
    answer, apply, change_at, common_rows, first_base, found, is_lawful_change, item, may_lie,
    refusal, region,
};
use fam_base::{Bytes, Descriptor, FamError, ItemId, Mode, NoMemory, RegionId, Sequence, Who};
use fam_model::{Change, ItemInfo, RegionInfo, Reply, Request, Rows};
use std::alloc::Global;
use std::process::Abort;
use std::test::Fail;

const OWNER: Who = Who { uid: 5, gid: 5 };

const OTHER: Who = Who { uid: 6, gid: 5 };

/// A request, by the texts of names and by numbers.
#[derive(Drop)]
enum Ask {
    Create(&'static str, u64),
    Destroy(u64),
    Resize(u64, u64),
    RegionMode(u64, u16),
    LookUpRegion(&'static str),
    StatRegion(u64),
    Allocate(&'static str, u64, u64),
    Deallocate(u64),
    ItemMode(u64, u16),
    LookUp(&'static str, &'static str),
    Stat(u64),
}

/// A reply that needs no memory.
#[derive(Drop)]
enum Want {
    Done,
    Region(u64),
    /// Item, region, base and size.
    Item(u64, u64, u64, u64),
    Refused(FamError),
}

fn name_of(alloc: Global, text: &str) -> Result<Bytes, NoMemory> {
    Sequence::of(alloc, text.as_bytes())
}

fn mode_of(bits: u16) -> Mode {
    Mode::of(bits % 512).unwrap()
}

fn request_of(alloc: Global, ask: &Ask) -> Result<Request, NoMemory> {
    match ask {
        Ask::Create(name, size) => Ok(Request::CreateRegion {
            name: name_of(alloc, name)?,
            size: *size,
            mode: mode_of(0o700),
        }),
        Ask::Destroy(region) => Ok(Request::DestroyRegion {
            region: RegionId(*region),
        }),
        Ask::Resize(region, size) => Ok(Request::ResizeRegion {
            region: RegionId(*region),
            size: *size,
        }),
        Ask::RegionMode(region, bits) => Ok(Request::SetRegionMode {
            region: RegionId(*region),
            mode: mode_of(*bits),
        }),
        Ask::LookUpRegion(name) => Ok(Request::LookupRegion {
            name: name_of(alloc, name)?,
        }),
        Ask::StatRegion(region) => Ok(Request::StatRegion {
            region: RegionId(*region),
        }),
        Ask::Allocate(name, size, region) => Ok(Request::Allocate {
            name: name_of(alloc, name)?,
            size: *size,
            mode: mode_of(0o600),
            region: RegionId(*region),
        }),
        Ask::Deallocate(item) => Ok(Request::Deallocate {
            item: ItemId(*item),
        }),
        Ask::ItemMode(item, bits) => Ok(Request::SetItemMode {
            item: ItemId(*item),
            mode: mode_of(*bits),
        }),
        Ask::LookUp(name, region) => Ok(Request::Lookup {
            name: name_of(alloc, name)?,
            region: name_of(alloc, region)?,
        }),
        Ask::Stat(item) => Ok(Request::Stat {
            item: ItemId(*item),
        }),
    }
}

fn reply_of(want: &Want) -> Reply {
    match want {
        Want::Done => Reply::Done,
        Want::Region(region) => Reply::Region(RegionId(*region)),
        Want::Item(item, region, base, size) => Reply::Item(Descriptor {
            item: ItemId(*item),
            region: RegionId(*region),
            base: *base,
            size: *size,
        }),
        Want::Refused(error) => Reply::Error(*error),
    }
}

/// The reply to a request, and the rows after it.
fn asked(
    alloc: Global,
    rows: &mut Rows,
    who: Who,
    request: &Request,
) -> Result<Option<Reply>, NoMemory>
    requires { IsLawful rows.old }
    ensures { IsLawful rows.new }
{
    if let Some(error) = refusal(rows, who, request) {
        return Ok(Some(Reply::Error(error)));
    }
    if let Some(reply) = found(alloc, rows, request)? {
        return Ok(Some(reply));
    }
    let Some(base) = first_base(rows, request) else {
        return Ok(None);
    };
    let Some(change) = change_at(alloc, rows, who, request, base)? else {
        return Ok(None);
    };
    if !may_lie(rows, request, base) || !is_lawful_change(rows, &change) {
        return Ok(None);
    }
    let reply = answer(&change);
    apply(alloc, rows, change)?;
    Ok(Some(reply))
}

/// Asks one request after the other, and compares the replies.
fn play(
    rt: &impl Abort,
    alloc: Global,
    rows: &mut Rows,
    who: Who,
    steps: &[(Ask, Want)],
) -> Result<(), Fail>
    requires { IsLawful rows.old }
    ensures { IsLawful rows.new }
{
    for (at, (ask, want)) in steps.iter().enumerate() {
        let request = request_of(alloc, ask)?;
        let reply = asked(alloc, rows, who, &request)?;
        assert_eq!(rt; reply, Some(reply_of(want)), "step {at}");
    }
    Ok(())
}

#[test]
fn creates_regions(rt: HostRuntime) -> Result<(), Fail> {
    let mut rows = common_rows(rt.alloc())?;
    let steps = [
        (Ask::Create("a/b", 64), Want::Refused(FamError::BadName)),
        (
            Ask::Create("a", 67_108_865),
            Want::Refused(FamError::TooLarge),
        ),
        (Ask::Create("a", 128), Want::Region(1)),
        (Ask::Create("a", 64), Want::Refused(FamError::Exists)),
        (Ask::Create("common", 64), Want::Refused(FamError::Exists)),
        (Ask::Create("b", 67_108_864), Want::Region(2)),
        (Ask::Create("c", 67_108_864), Want::Region(3)),
        (Ask::Create("d", 67_108_864), Want::Region(4)),
        (
            Ask::Create("e", 67_104_641),
            Want::Refused(FamError::NoSpace),
        ),
        (Ask::Create("e", 67_104_640), Want::Region(5)),
        (Ask::Resize(1, 129), Want::Refused(FamError::NoSpace)),
        (Ask::Resize(1, 128), Want::Done),
    ];
    play(&rt, rt.alloc(), &mut rows, OWNER, &steps)
}

#[test]
fn fills_a_region_to_its_last_room(rt: HostRuntime) -> Result<(), Fail> {
    let mut rows = common_rows(rt.alloc())?;
    let steps = [
        (Ask::Create("r", 256), Want::Region(1)),
        (Ask::Allocate("a", 64, 1), Want::Item(1, 1, 0, 64)),
        (Ask::Allocate("b", 64, 1), Want::Item(2, 1, 64, 64)),
        (Ask::Allocate("c", 64, 1), Want::Item(3, 1, 128, 64)),
        (Ask::Allocate("d", 64, 1), Want::Item(4, 1, 192, 64)),
        (Ask::Allocate("e", 64, 1), Want::Refused(FamError::NoSpace)),
        (Ask::Deallocate(2), Want::Done),
        (Ask::Allocate("e", 65, 1), Want::Refused(FamError::NoSpace)),
        (Ask::Allocate("e", 1, 1), Want::Item(5, 1, 64, 1)),
        (Ask::Allocate("f", 0, 1), Want::Refused(FamError::NoSpace)),
    ];
    play(&rt, rt.alloc(), &mut rows, OWNER, &steps)
}

#[test]
fn answers_requests_in_turn(rt: HostRuntime) -> Result<(), Fail> {
    let mut rows = common_rows(rt.alloc())?;
    let steps = [
        (Ask::Create("a", 128), Want::Region(1)),
        (
            Ask::Allocate("x", 64, 0),
            Want::Refused(FamError::NoPermission),
        ),
        (Ask::Allocate("x", 100, 1), Want::Item(1, 1, 0, 100)),
        (Ask::Resize(1, 64), Want::Refused(FamError::InUse)),
        (Ask::Resize(1, 192), Want::Done),
        (Ask::Deallocate(0), Want::Refused(FamError::NoPermission)),
        (Ask::Destroy(1), Want::Done),
        (Ask::Stat(1), Want::Refused(FamError::Absent)),
        (Ask::LookUp("x", "a"), Want::Refused(FamError::Absent)),
    ];
    play(&rt, rt.alloc(), &mut rows, OWNER, &steps)
}

#[test]
fn tells_rows_without_their_numbers(rt: HostRuntime) -> Result<(), Fail> {
    let alloc = rt.alloc();
    let mut rows = common_rows(alloc)?;
    let steps = [
        (Ask::Create("a", 192), Want::Region(1)),
        (Ask::Allocate("x", 100, 1), Want::Item(1, 1, 0, 100)),
    ];
    play(&rt, alloc, &mut rows, OWNER, &steps)?;
    let region_info = RegionInfo {
        name: name_of(alloc, "a")?,
        size: 192,
        uid: 5,
        gid: 5,
        mode: mode_of(0o700),
    };
    let request = request_of(alloc, &Ask::StatRegion(1))?;
    assert_eq!(rt;
        found(alloc, &rows, &request)?,
        Some(Reply::RegionStat(region_info))
    );
    let item_info = ItemInfo {
        name: name_of(alloc, "x")?,
        region: RegionId(1),
        base: 0,
        size: 100,
        uid: 5,
        gid: 5,
        mode: mode_of(0o600),
    };
    let request = request_of(alloc, &Ask::Stat(1))?;
    assert_eq!(rt;
        found(alloc, &rows, &request)?,
        Some(Reply::ItemStat(item_info))
    );
    Ok(())
}

#[test]
fn refuses_in_order(rt: HostRuntime) -> Result<(), Fail> {
    let mut rows = common_rows(rt.alloc())?;
    let steps = [
        (Ask::Create("r", 256), Want::Region(1)),
        (
            Ask::Allocate("", 67_108_865, 9),
            Want::Refused(FamError::BadName),
        ),
        (
            Ask::Allocate("x", 67_108_865, 9),
            Want::Refused(FamError::TooLarge),
        ),
        (Ask::Allocate("x", 300, 9), Want::Refused(FamError::Absent)),
        (Ask::Allocate("x", 64, 1), Want::Item(1, 1, 0, 64)),
        (Ask::Allocate("x", 300, 1), Want::Refused(FamError::Exists)),
        (
            Ask::Allocate("common", 64, 0),
            Want::Refused(FamError::Exists),
        ),
        (
            Ask::Resize(9, 67_108_865),
            Want::Refused(FamError::TooLarge),
        ),
        (Ask::Resize(9, 64), Want::Refused(FamError::Absent)),
        (Ask::Resize(0, 0), Want::Refused(FamError::NoPermission)),
    ];
    play(&rt, rt.alloc(), &mut rows, OWNER, &steps)
}

#[test]
fn finds_no_other_rows(rt: HostRuntime) -> Result<(), Fail> {
    let mut rows = common_rows(rt.alloc())?;
    let steps = [
        (Ask::LookUp("", "common"), Want::Refused(FamError::BadName)),
        (Ask::LookUp("x", ""), Want::Refused(FamError::BadName)),
        (Ask::LookUp("x", "common"), Want::Refused(FamError::Absent)),
        (Ask::LookUp("common", "common"), Want::Item(0, 0, 0, 4096)),
        (Ask::LookUpRegion(""), Want::Refused(FamError::BadName)),
        (Ask::LookUpRegion("q"), Want::Refused(FamError::Absent)),
        (Ask::StatRegion(9), Want::Refused(FamError::Absent)),
        (Ask::Destroy(9), Want::Refused(FamError::Absent)),
        (Ask::RegionMode(9, 0), Want::Refused(FamError::Absent)),
        (Ask::ItemMode(9, 0), Want::Refused(FamError::Absent)),
        (Ask::Deallocate(9), Want::Refused(FamError::Absent)),
    ];
    play(&rt, rt.alloc(), &mut rows, OWNER, &steps)
}

#[test]
fn asks_for_the_owner_and_for_permission(rt: HostRuntime) -> Result<(), Fail> {
    let mut rows = common_rows(rt.alloc())?;
    let made = [
        (Ask::Create("r", 256), Want::Region(1)),
        (Ask::Allocate("x", 64, 1), Want::Item(1, 1, 0, 64)),
    ];
    play(&rt, rt.alloc(), &mut rows, OWNER, &made)?;
    let steps = [
        (Ask::Destroy(1), Want::Refused(FamError::NoPermission)),
        (Ask::Resize(1, 64), Want::Refused(FamError::NoPermission)),
        (
            Ask::RegionMode(1, 0o777),
            Want::Refused(FamError::NoPermission),
        ),
        (Ask::Deallocate(1), Want::Refused(FamError::NoPermission)),
        (
            Ask::ItemMode(1, 0o777),
            Want::Refused(FamError::NoPermission),
        ),
        (
            Ask::Allocate("y", 64, 1),
            Want::Refused(FamError::NoPermission),
        ),
        (Ask::LookUp("x", "r"), Want::Item(1, 1, 0, 64)),
        (Ask::LookUpRegion("r"), Want::Region(1)),
    ];
    play(&rt, rt.alloc(), &mut rows, OTHER, &steps)?;
    let opened = [(Ask::RegionMode(1, 0o020), Want::Done)];
    play(&rt, rt.alloc(), &mut rows, OWNER, &opened)?;
    let allowed = [(Ask::Allocate("y", 64, 1), Want::Item(2, 1, 64, 64))];
    play(&rt, rt.alloc(), &mut rows, OTHER, &allowed)
}

#[test]
fn gives_no_number_twice(rt: HostRuntime) -> Result<(), Fail> {
    let mut rows = common_rows(rt.alloc())?;
    let steps = [
        (Ask::Create("r", 256), Want::Region(1)),
        (Ask::Allocate("x", 64, 1), Want::Item(1, 1, 0, 64)),
        (Ask::Deallocate(1), Want::Done),
        (Ask::Allocate("x", 64, 1), Want::Item(2, 1, 0, 64)),
        (Ask::Destroy(1), Want::Done),
        (Ask::Create("r", 256), Want::Region(2)),
        (Ask::Create("s", 256), Want::Region(3)),
        (Ask::Allocate("x", 64, 2), Want::Item(3, 2, 0, 64)),
        (Ask::Allocate("x", 64, 3), Want::Item(4, 3, 0, 64)),
        (Ask::LookUp("x", "s"), Want::Item(4, 3, 0, 64)),
        (Ask::ItemMode(4, 0o444), Want::Done),
    ];
    play(&rt, rt.alloc(), &mut rows, OWNER, &steps)?;
    assert_eq!(rt;
        item(&rows, ItemId(4)).map(|row| row.mode.bits()),
        Some(0o444)
    );
    assert!(rt; item(&rows, ItemId(2)).is_none());
    assert!(rt; region(&rows, RegionId(1)).is_none());
    Ok(())
}

#[test]
fn passes_over_numbers(rt: HostRuntime) -> Result<(), Fail> {
    let mut rows = common_rows(rt.alloc())?;
    let skip = Change::Skip {
        next_region: 9,
        next_item: 4,
    };
    let back = Change::Skip {
        next_region: 8,
        next_item: 4,
    };
    assert!(rt; is_lawful_change(&rows, &skip));
    apply(rt.alloc(), &mut rows, skip)?;
    assert!(rt; !is_lawful_change(&rows, &back));
    let steps = [(Ask::Create("r", 64), Want::Region(9))];
    play(&rt, rt.alloc(), &mut rows, OWNER, &steps)
}
