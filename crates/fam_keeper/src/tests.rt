//! A keeper without a journal.

use crate::same::is_same;
use crate::{Keeper, Kept};
use fam_base::{Bytes, ItemId, Mode, RegionId};
use fam_directory::IndexedRows;
use fam_disk::MemDisk;
use fam_model::Change;
use fam_rows::{common_rows, is_lawful_change};
use std::alloc::Global;
use std::test::Fail;

fn creation(alloc: Global, name: &[u8]) -> Result<Change, Fail> {
    let Some(mode) = Mode::of(0o700) else {
        return Err(Fail::new("no mode"));
    };
    Ok(Change::CreateRegion {
        region: RegionId(1),
        uid: 5,
        gid: 5,
        mode,
        size: 4096,
        name: Bytes::of(alloc, name)?,
    })
}

#[test]
fn keeps_nothing_without_a_journal(rt: HostRuntime) -> Result<(), Fail> {
    let rows = common_rows(rt.alloc())?;
    let change = creation(rt.alloc(), b"a")?;
    if !is_lawful_change(&rows, &change) {
        return Err(Fail::new("not lawful"));
    }
    let mut keeper = Keeper::<MemDisk>::nothing();
    let rows = IndexedRows::of_rows(rt.alloc(), &rows)?;
    assert_eq!(rt; keeper.keep(&rows, &change), Ok(Kept::Served));
    keeper.stop();
    assert!(rt; keeper.is_stopped());
    assert!(rt; keeper.close().is_none());
    Ok(())
}

#[test]
fn knows_a_change_by_all_that_it_says(rt: HostRuntime) -> Result<(), Fail> {
    let change = creation(rt.alloc(), b"a")?;
    assert!(rt; is_same(&change, &creation(rt.alloc(), b"a")?));
    assert!(rt; !is_same(&change, &creation(rt.alloc(), b"b")?));
    let freed = Change::Deallocate { item: ItemId(1) };
    assert!(rt; !is_same(&change, &freed));
    assert!(rt; !is_same(&freed, &Change::Deallocate { item: ItemId(2) }));
    assert!(rt; is_same(&freed, &Change::Deallocate { item: ItemId(1) }));
    Ok(())
}
