//! The rows of an opening, one more at a time.

ghost use Rattle.std.specs.Prelude.{◌≡◌, IfOk};
ghost use Rattle.report_reader.specs.Machine as machine;

use crate::stage::Opening;
use fam_base::{NoMemory, Sequence};
use fam_directory::IndexedRows;
use fam_model::{Change, ItemRow, RegionRow, ReplyLine, Report};
use fam_rows::common_rows;
use std::alloc::Global;

/// The rows after a change, if it is lawful.
fn changed(mut rows: IndexedRows, change: &Change) -> Result<Option<IndexedRows>, NoMemory>
    ensures { IfOk result (λ next. next ≡ machine.changed rows change.now) }
{
    if !rows.is_lawful_change(change) {
        return Ok(None);
    }
    rows.apply(change)?;
    Ok(Some(rows))
}

fn create(row: RegionRow) -> Change
    ensures { result ≡ machine.create row }
{
    Change::CreateRegion {
        region: row.number,
        uid: row.uid,
        gid: row.gid,
        mode: row.mode,
        size: row.size,
        name: row.name,
    }
}

fn with_region(rows: IndexedRows, row: RegionRow) -> Result<Option<IndexedRows>, NoMemory>
    ensures { IfOk result (λ next. next ≡ machine.with_region rows row) }
{
    let skip = Change::Skip {
        next_region: row.number.0,
        next_item: rows.next_item(),
    };
    match changed(rows, &skip)? {
        Some(skipped) => changed(skipped, &create(row)),
        None => Ok(None),
    }
}

/// The opening with a region more, if its rows are lawful then.
pub fn add_region(opening: Opening, row: RegionRow) -> Result<Option<Opening>, NoMemory>
    ensures { IfOk result (λ next. next ≡ machine.add_region opening row) }
{
    if row.number.0 >= opening.next_region {
        return Ok(None);
    }
    match with_region(opening.rows, row)? {
        Some(rows) => Ok(Some(Opening { rows, ..opening })),
        None => Ok(None),
    }
}

fn allocate(row: ItemRow) -> Change
    ensures { result ≡ machine.allocate row }
{
    Change::Allocate {
        item: row.number,
        region: row.region,
        base: row.base,
        size: row.size,
        uid: row.uid,
        gid: row.gid,
        mode: row.mode,
        name: row.name,
    }
}

fn with_item(rows: IndexedRows, row: ItemRow) -> Result<Option<IndexedRows>, NoMemory>
    ensures { IfOk result (λ next. next ≡ machine.with_item rows row) }
{
    let skip = Change::Skip {
        next_region: rows.next_region(),
        next_item: row.number.0,
    };
    match changed(rows, &skip)? {
        Some(skipped) => changed(skipped, &allocate(row)),
        None => Ok(None),
    }
}

/// The opening with an item more, if its rows are lawful then.
pub fn add_item(opening: Opening, row: ItemRow) -> Result<Option<Opening>, NoMemory>
    ensures { IfOk result (λ next. next ≡ machine.add_item opening row) }
{
    if row.number.0 >= opening.next_item {
        return Ok(None);
    }
    match with_item(opening.rows, row)? {
        Some(rows) => Ok(Some(Opening { rows, ..opening })),
        None => Ok(None),
    }
}

/// An opening with the rows that are always there, if these may be its next numbers.
pub fn opened(
    alloc: Global,
    replies: Sequence<ReplyLine>,
    next: (u64, u64),
) -> Result<Option<Opening>, NoMemory>
    ensures { IfOk result (λ o. o ≡ machine.opened replies next) }
{
    let rows = IndexedRows::of_rows(alloc, &common_rows(alloc)?)?;
    let (next_region, next_item) = next;
    let skip = Change::Skip {
        next_region,
        next_item,
    };
    if rows.is_lawful_change(&skip) {
        Ok(Some(Opening {
            replies,
            rows,
            next_region,
            next_item,
        }))
    } else {
        Ok(None)
    }
}

/// The report whose events begin.
pub fn begun(alloc: Global, opening: Opening) -> Result<Report, NoMemory>
    ensures { IfOk result (λ report. report ≡ machine.begun opening) }
{
    let mut rows = opening.rows.rows()?;
    rows.next_region = opening.next_region;
    rows.next_item = opening.next_item;
    Ok(Report {
        replies: opening.replies,
        rows,
        history: Sequence::new(alloc),
    })
}
