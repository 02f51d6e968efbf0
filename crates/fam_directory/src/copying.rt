//! Copies of rows.

ghost use Rattle.std.specs.Prelude.{◌≡◌, IfOk};

use fam_base::{NoMemory, Sequence};
use fam_model::{ItemRow, RegionRow};
use std::alloc::Global;

/// A copy of a region's row.
pub(crate) fn copy_region(alloc: Global, row: &RegionRow) -> Result<RegionRow, NoMemory>
    ensures { IfOk result (λ copy. copy ≡ row.now) }
{
    let name = Sequence::of(alloc, row.name.as_slice())?;
    Ok(RegionRow {
        number: row.number,
        uid: row.uid,
        gid: row.gid,
        mode: row.mode,
        size: row.size,
        name,
    })
}

/// A copy of an item's row.
pub(crate) fn copy_item(alloc: Global, row: &ItemRow) -> Result<ItemRow, NoMemory>
    ensures { IfOk result (λ copy. copy ≡ row.now) }
{
    let name = Sequence::of(alloc, row.name.as_slice())?;
    Ok(ItemRow {
        number: row.number,
        region: row.region,
        base: row.base,
        size: row.size,
        uid: row.uid,
        gid: row.gid,
        mode: row.mode,
        name,
    })
}
