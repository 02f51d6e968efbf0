//! A copy of the directory's rows.

ghost use Rattle.std.specs.Prelude.{◌≡◌, IfOk};

use fam_base::{NoMemory, Sequence, copy_of};
use fam_model::{ItemRow, RegionRow, Rows};
use std::alloc::Global;

fn copy_of_region(row: &RegionRow) -> Result<RegionRow, NoMemory>
    ensures { IfOk result (λ copy. copy ≡ row.now) }
{
    Ok(RegionRow {
        number: row.number,
        uid: row.uid,
        gid: row.gid,
        mode: row.mode,
        size: row.size,
        name: copy_of(&row.name)?,
    })
}

fn copy_of_item(row: &ItemRow) -> Result<ItemRow, NoMemory>
    ensures { IfOk result (λ copy. copy ≡ row.now) }
{
    Ok(ItemRow {
        number: row.number,
        region: row.region,
        base: row.base,
        size: row.size,
        uid: row.uid,
        gid: row.gid,
        mode: row.mode,
        name: copy_of(&row.name)?,
    })
}

fn copy_of_regions(alloc: Global, rows: &[RegionRow]) -> Result<Sequence<RegionRow>, NoMemory>
    ensures { IfOk result (λ copy. copy ≡ rows.now) }
{
    let mut copy = Sequence::new(alloc);
    for row in rows {
        copy.push(copy_of_region(row)?)?;
    }
    Ok(copy)
}

fn copy_of_items(alloc: Global, rows: &[ItemRow]) -> Result<Sequence<ItemRow>, NoMemory>
    ensures { IfOk result (λ copy. copy ≡ rows.now) }
{
    let mut copy = Sequence::new(alloc);
    for row in rows {
        copy.push(copy_of_item(row)?)?;
    }
    Ok(copy)
}

/// A copy of all rows.
pub fn copy_of_rows(alloc: Global, rows: &Rows) -> Result<Rows, NoMemory>
    ensures { IfOk result (λ copy. copy ≡ rows.now) }
{
    Ok(Rows {
        regions: copy_of_regions(alloc, rows.regions.as_slice())?,
        items: copy_of_items(alloc, rows.items.as_slice())?,
        next_region: rows.next_region,
        next_item: rows.next_item,
    })
}
