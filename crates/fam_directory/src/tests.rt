//! Requests in turn, each with its answer, and the look-ups after them.

use crate::Directory;
use fam_base::{Bytes, Descriptor, FamError, ItemId, Mode, NoMemory, RegionId, Sequence, Who};
use fam_model::{Change, Reply, Request};
use fam_rows::{answer, common_rows};
use std::alloc::Global;
use std::process::Abort;
use std::test::Fail;

const OWNER: Who = Who { uid: 5, gid: 5 };

/// A request that changes, by texts and numbers.
#[derive(Drop)]
enum Ask {
    Create(&'static str, u64),
    Destroy(u64),
    Resize(u64, u64),
    Allocate(&'static str, u64, u64),
    Deallocate(u64),
}

/// A reply: that it is done, the number of a region, or of an item with its base.
#[derive(Drop)]
enum Want {
    Done,
    Region(u64),
    Item(u64, u64),
    Refused(FamError),
}

const STEPS: [(Ask, Want); 14] = [
    (Ask::Create("r", 256), Want::Region(1)),
    (Ask::Create("r", 64), Want::Refused(FamError::Exists)),
    (Ask::Create("s", 64), Want::Region(2)),
    (Ask::Allocate("a", 64, 1), Want::Item(1, 0)),
    (Ask::Allocate("b", 1, 1), Want::Item(2, 64)),
    (Ask::Allocate("a", 1, 1), Want::Refused(FamError::Exists)),
    (Ask::Allocate("a", 1, 2), Want::Item(3, 0)),
    (Ask::Allocate("c", 256, 1), Want::Refused(FamError::NoSpace)),
    (Ask::Deallocate(1), Want::Done),
    (Ask::Allocate("c", 65, 1), Want::Item(4, 128)),
    (Ask::Resize(1, 255), Want::Refused(FamError::InUse)),
    (Ask::Allocate("d", 64, 1), Want::Item(5, 0)),
    (Ask::Destroy(2), Want::Done),
    (Ask::Create("s", 64), Want::Region(3)),
];

/// Rooms that are given back join: two beside each other, and the last one with what lies behind it.
const JOINED: [(Ask, Want); 12] = [
    (Ask::Create("r", 256), Want::Region(1)),
    (Ask::Allocate("a", 64, 1), Want::Item(1, 0)),
    (Ask::Allocate("b", 1, 1), Want::Item(2, 64)),
    (Ask::Allocate("c", 65, 1), Want::Item(3, 128)),
    (Ask::Deallocate(2), Want::Done),
    (Ask::Allocate("d", 65, 1), Want::Refused(FamError::NoSpace)),
    (Ask::Deallocate(1), Want::Done),
    (Ask::Allocate("d", 65, 1), Want::Item(4, 0)),
    (Ask::Deallocate(3), Want::Done),
    (Ask::Deallocate(4), Want::Done),
    (Ask::Allocate("e", 256, 1), Want::Item(5, 0)),
    (Ask::Resize(1, 255), Want::Refused(FamError::InUse)),
];

/// A name of the most bytes, and one of one byte more.
const NAME_64: &str = "abcdefghijklmnopqrstuvwxyzabcdefghijklmnopqrstuvwxyz0123456789.-";

const NAME_65: &str = "abcdefghijklmnopqrstuvwxyzabcdefghijklmnopqrstuvwxyz0123456789.-_";

const NAMES: [(Ask, Want); 8] = [
    (Ask::Create("", 64), Want::Refused(FamError::BadName)),
    (Ask::Create("a/b", 64), Want::Refused(FamError::BadName)),
    (Ask::Create(NAME_65, 64), Want::Refused(FamError::BadName)),
    (Ask::Create(NAME_64, 64), Want::Region(1)),
    (Ask::Allocate("", 1, 1), Want::Refused(FamError::BadName)),
    (Ask::Allocate(":", 1, 1), Want::Refused(FamError::BadName)),
    (
        Ask::Allocate(NAME_65, 1, 1),
        Want::Refused(FamError::BadName),
    ),
    (Ask::Allocate(NAME_64, 1, 1), Want::Item(1, 0)),
];

fn name_of(alloc: Global, text: &str) -> Result<Bytes, NoMemory> {
    Sequence::of(alloc, text.as_bytes())
}

/// The answer to a request, which is made where it is served.
fn asked(
    alloc: Global,
    directory: &mut Directory,
    ask: &Ask,
) -> Result<Result<Reply, FamError>, NoMemory> {
    let mode = Mode::of(0o700).unwrap();
    let checked = match ask {
        Ask::Create(name, size) => {
            let request = Request::CreateRegion {
                name: name_of(alloc, name)?,
                size: *size,
                mode,
            };
            directory.check(OWNER, &request)
        }
        Ask::Destroy(region) => {
            let request = Request::DestroyRegion {
                region: RegionId(*region),
            };
            directory.check(OWNER, &request)
        }
        Ask::Resize(region, size) => {
            let request = Request::ResizeRegion {
                region: RegionId(*region),
                size: *size,
            };
            directory.check(OWNER, &request)
        }
        Ask::Allocate(name, size, region) => {
            let request = Request::Allocate {
                name: name_of(alloc, name)?,
                size: *size,
                mode,
                region: RegionId(*region),
            };
            directory.check(OWNER, &request)
        }
        Ask::Deallocate(item) => {
            let request = Request::Deallocate {
                item: ItemId(*item),
            };
            directory.check(OWNER, &request)
        }
    };
    match checked {
        Err(error) => Ok(Err(error)),
        Ok(change) => made(directory, &change),
    }
}

/// Makes a lawful change.
fn made(directory: &mut Directory, change: &Change) -> Result<Result<Reply, FamError>, NoMemory> {
    if !directory.is_lawful_change(change) {
        return Ok(Err(FamError::Unsupported));
    }
    directory.reserve(change)?;
    directory.apply(change);
    Ok(Ok(answer(change)))
}

/// Whether this is the answer that is wanted.
fn is_wanted(reply: &Result<Reply, FamError>, want: &Want) -> bool {
    match (reply, want) {
        (Ok(Reply::Done), Want::Done) => true,
        (Ok(Reply::Region(region)), Want::Region(number)) => region.0 == *number,
        (Ok(Reply::Item(item)), Want::Item(number, base)) => {
            item.item.0 == *number && item.base == *base
        }
        (Err(error), Want::Refused(refused)) => *error == *refused,
        _ => false,
    }
}

/// Whether an item of this size was found.
fn is_item_of_size(found: &Option<Reply>, size: u64) -> bool {
    match found {
        Some(Reply::ItemStat(item)) => item.size == size,
        _ => false,
    }
}

#[test]
fn answers_requests_in_turn(rt: HostRuntime) -> Result<(), Fail> {
    let rows = common_rows(rt.alloc())?;
    let mut directory = Directory::of_rows(rt.alloc(), &rows)?;
    for (ask, want) in STEPS.iter() {
        let reply = asked(rt.alloc(), &mut directory, ask)?;
        assert!(rt; is_wanted(&reply, want));
    }
    let place = Descriptor {
        item: ItemId(4),
        region: RegionId(1),
        base: 128,
        size: 65,
    };
    assert_eq!(rt;
        directory.lookup(b"c".as_slice(), b"r".as_slice()),
        Ok(place)
    );
    assert_eq!(rt;
        directory.lookup(b"a".as_slice(), b"s".as_slice()),
        Err(FamError::Absent)
    );
    assert_eq!(rt; directory.lookup_region(b"s".as_slice()), Ok(RegionId(3)));
    assert_eq!(rt; directory.stat(ItemId(5)).map(|row| row.base), Ok(0));
    assert_eq!(rt;
        directory.stat_region(RegionId(1)).map(|row| row.size),
        Ok(256)
    );
    assert_eq!(rt; directory.rows()?.next_item, 6);
    assert_eq!(rt; directory.items().count(), 4);
    assert_eq!(rt;
        directory.items().last().map(|row| row.number),
        Some(ItemId(5))
    );
    assert_eq!(rt;
        directory.regions().map(|row| row.size).sum::<u64>(),
        directory.total_size()
    );
    Ok(())
}

#[test]
fn joins_rooms_that_are_given_back(rt: HostRuntime) -> Result<(), Fail> {
    let rows = common_rows(rt.alloc())?;
    let mut directory = Directory::of_rows(rt.alloc(), &rows)?;
    for (ask, want) in JOINED.iter() {
        let reply = asked(rt.alloc(), &mut directory, ask)?;
        assert!(rt; is_wanted(&reply, want));
    }
    Ok(())
}

#[test]
fn tells_where_an_item_may_lie(rt: HostRuntime) -> Result<(), Fail> {
    let rows = common_rows(rt.alloc())?;
    let mut directory = Directory::of_rows(rt.alloc(), &rows)?;
    assert!(rt; asked(rt.alloc(), &mut directory, &Ask::Create("r", 192))?.is_ok());
    assert!(rt; asked(rt.alloc(), &mut directory, &Ask::Allocate("a", 64, 1))?.is_ok());
    let request = Request::Allocate {
        name: name_of(rt.alloc(), "b")?,
        size: 64,
        mode: Mode::of(0o700).unwrap(),
        region: RegionId(1),
    };
    assert!(rt; !directory.may_lie(&request, 0));
    assert!(rt; !directory.may_lie(&request, 65));
    assert!(rt; directory.may_lie(&request, 64));
    assert!(rt; directory.may_lie(&request, 128));
    assert!(rt; !directory.may_lie(&request, 192));
    assert_eq!(rt; directory.first_base(&request), Some(64));
    assert_eq!(rt; directory.refusal(OWNER, &request), None);
    let look_up = Request::Stat { item: ItemId(1) };
    let found = directory.found(&look_up)?;
    assert!(rt; is_item_of_size(&found, 64));
    Ok(())
}

#[test]
fn takes_names_of_1_to_64_bytes(rt: HostRuntime) -> Result<(), Fail> {
    let rows = common_rows(rt.alloc())?;
    let mut directory = Directory::of_rows(rt.alloc(), &rows)?;
    for (ask, want) in NAMES.iter() {
        let reply = asked(rt.alloc(), &mut directory, ask)?;
        assert!(rt; is_wanted(&reply, want));
    }
    let most = NAME_64.as_bytes();
    let more = NAME_65.as_bytes();
    let bad = Err(FamError::BadName);
    assert_eq!(rt;
        directory.lookup(most, most).map(|place| place.item),
        Ok(ItemId(1))
    );
    assert_eq!(rt; directory.lookup(more, most).map(|place| place.item), bad);
    assert_eq!(rt; directory.lookup(most, more).map(|place| place.item), bad);
    assert_eq!(rt;
        directory.lookup_region(b"".as_slice()),
        Err(FamError::BadName)
    );
    assert_eq!(rt; directory.lookup_region(more), Err(FamError::BadName));
    Ok(())
}
