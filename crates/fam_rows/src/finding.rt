//! What a look-up or a stat finds.

ghost use Rattle.std.specs.Prelude.{◌≡◌, IfOk};
ghost use Rattle.fam_model.specs.Directory as words;
ghost use Rattle.fam_model.specs.Directory.{region_info, item_info};
ghost use Rattle.fam_model.specs.Rows.{IsLawful, descriptor_of};
ghost use Rattle.fam_rows.specs.Located.{located_at};

use crate::search::{item, item_named, region, region_named};
use fam_base::{Descriptor, NoMemory, Sequence};
use fam_model::{ItemInfo, ItemRow, RegionInfo, RegionRow, Reply, Request, Rows};
use std::alloc::Global;

/// A region's row without its number.
fn info_of_region(alloc: Global, row: &RegionRow) -> Result<RegionInfo, NoMemory>
    ensures { IfOk result (λ info. info ≡ region_info row.now) }
{
    let name = Sequence::of(alloc, row.name.as_slice())?;
    Ok(RegionInfo {
        name,
        size: row.size,
        uid: row.uid,
        gid: row.gid,
        mode: row.mode,
    })
}

/// An item's row without its number.
fn info_of_item(alloc: Global, row: &ItemRow) -> Result<ItemInfo, NoMemory>
    ensures { IfOk result (λ info. info ≡ item_info row.now) }
{
    let name = Sequence::of(alloc, row.name.as_slice())?;
    Ok(ItemInfo {
        name,
        region: row.region,
        base: row.base,
        size: row.size,
        uid: row.uid,
        gid: row.gid,
        mode: row.mode,
    })
}

/// Where an item lies.
pub fn descriptor(row: &ItemRow) -> Descriptor
    ensures { result ≡ descriptor_of row.now }
{
    Descriptor {
        item: row.number,
        region: row.region,
        base: row.base,
        size: row.size,
    }
}

/// The descriptor of the item of that name in the region of that name, if both are there.
fn located(rows: &Rows, name: &[u8], region: &[u8]) -> Option<Descriptor>
    ensures { result ≡ located_at rows.now name.now region.now }
{
    let row = region_named(rows, region)?;
    let item = item_named(rows, row.number, name)?;
    Some(descriptor(item))
}

/// The reply to a look-up or a stat that is not refused; no other request has one.
pub fn found(alloc: Global, rows: &Rows, request: &Request) -> Result<Option<Reply>, NoMemory>
    requires { IsLawful rows.now }
    ensures { IfOk result (λ reply. reply ≡ words.found rows.now request.now) }
{
    match request {
        Request::LookupRegion { name } => match region_named(rows, name.as_slice()) {
            None => Ok(None),
            Some(row) => Ok(Some(Reply::Region(row.number))),
        },
        Request::StatRegion { region: number } => match region(rows, *number) {
            None => Ok(None),
            Some(row) => Ok(Some(Reply::RegionStat(info_of_region(alloc, row)?))),
        },
        Request::Lookup { name, region } => {
            match located(rows, name.as_slice(), region.as_slice()) {
                None => Ok(None),
                Some(descriptor) => Ok(Some(Reply::Item(descriptor))),
            }
        }
        Request::Stat { item: number } => match item(rows, *number) {
            None => Ok(None),
            Some(row) => Ok(Some(Reply::ItemStat(info_of_item(alloc, row)?))),
        },
        _ => Ok(None),
    }
}
