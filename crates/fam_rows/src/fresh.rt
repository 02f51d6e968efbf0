//! A fresh directory.

ghost use Rattle.std.specs.Prelude.{◌≡◌, IfOk};
ghost use Rattle.fam_model.specs.Rows as words;
ghost use Rattle.fam_model.specs.Rows.{IsLawful};

use crate::limits::NOBODY;
use fam_base::{ItemId, Mode, NoMemory, RegionId, Sequence};
use fam_model::{ItemRow, RegionRow, Rows};
use std::alloc::Global;

/// The row of region 0.
fn common_region(alloc: Global) -> Result<RegionRow, NoMemory>
    ensures { IfOk result (λ row. row ≡ words.common_region) }
{
    let name = Sequence::of(alloc, b"common".as_slice())?;
    Ok(RegionRow {
        number: RegionId(0),
        uid: NOBODY,
        gid: NOBODY,
        mode: Mode::of(0o444).unwrap(),
        size: 4096,
        name,
    })
}

/// The row of item 0.
fn common_item(alloc: Global) -> Result<ItemRow, NoMemory>
    ensures { IfOk result (λ row. row ≡ words.common_item) }
{
    let name = Sequence::of(alloc, b"common".as_slice())?;
    Ok(ItemRow {
        number: ItemId(0),
        region: RegionId(0),
        base: 0,
        size: 4096,
        uid: NOBODY,
        gid: NOBODY,
        mode: Mode::of(0o666).unwrap(),
        name,
    })
}

/// The common region and the common item.
fn first_rows(alloc: Global) -> Result<Rows, NoMemory>
    ensures { IfOk result (λ rows. rows ≡ words.common_rows) }
{
    let mut regions = Sequence::new(alloc);
    regions.push(common_region(alloc)?)?;
    let mut items = Sequence::new(alloc);
    items.push(common_item(alloc)?)?;
    Ok(Rows {
        regions,
        items,
        next_region: 1,
        next_item: 1,
    })
}

/// The rows of a fresh directory: the common region and the common item.
pub fn common_rows(alloc: Global) -> Result<Rows, NoMemory>
    ensures rows { IfOk result (λ rows. rows ≡ words.common_rows) }
    ensures lawful { IfOk result (λ rows. IsLawful rows) }
{
    first_rows(alloc)
}
