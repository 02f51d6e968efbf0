//! Whether a line is the text of what was read of it.

ghost use Rattle.std.specs.Prelude.{◌≡◌, IfOk, ◌&&◌};
ghost use Rattle.std.specs.Str.{bytes_eq};
ghost use Rattle.fam_model.specs.EventText as events;
ghost use Rattle.fam_model.specs.Lists.{when};
ghost use Rattle.fam_model.specs.ReportText as texts;
ghost use Rattle.report_reader.specs.Reading as words;

use crate::fits::small_fits;
use fam_base::NoMemory;
use fam_model::{Event, ItemRow, RegionRow, ReplyLine};
use fam_text::{event_text, item_text, region_text, reply_line_text};
use std::alloc::Global;

/// The reply line, if this is its text.
pub fn is_reply_line(
    alloc: Global,
    told: ReplyLine,
    text: &[u8],
) -> Result<Option<ReplyLine>, NoMemory>
    ensures { IfOk result (λ kept. kept ≡ when (bytes_eq (texts.reply_line_text told) text.now) told) }
{
    let printed = reply_line_text(alloc, &told, text.len())?;
    if printed.as_slice() == text {
        Ok(Some(told))
    } else {
        Ok(None)
    }
}

/// The event, if this is its text.
pub fn is_event(alloc: Global, event: Event, text: &[u8]) -> Result<Option<Event>, NoMemory>
    ensures { IfOk result (λ kept. kept ≡ when (bytes_eq (events.event_text event) text.now) event) }
{
    let printed = event_text(alloc, &event, text.len())?;
    if printed.as_slice() == text {
        Ok(Some(event))
    } else {
        Ok(None)
    }
}

/// The region's row, if it is shown and this is its text.
pub fn is_region(alloc: Global, row: RegionRow, text: &[u8]) -> Result<Option<RegionRow>, NoMemory>
    ensures { IfOk result (λ kept. kept ≡ when (words.is_shown_region row && bytes_eq (texts.region_text row) text.now) row) }
{
    if row.number.0 == 0 {
        return Ok(None);
    }
    small_fits(row.gid);
    let printed = region_text(alloc, &row, text.len())?;
    if printed.as_slice() == text {
        Ok(Some(row))
    } else {
        Ok(None)
    }
}

/// The item's row, if it is shown and this is its text.
pub fn is_item(alloc: Global, row: ItemRow, text: &[u8]) -> Result<Option<ItemRow>, NoMemory>
    ensures { IfOk result (λ kept. kept ≡ when (words.is_shown_item row && bytes_eq (texts.item_text row) text.now) row) }
{
    if row.number.0 == 0 {
        return Ok(None);
    }
    small_fits(row.gid);
    let printed = item_text(alloc, &row, text.len())?;
    if printed.as_slice() == text {
        Ok(Some(row))
    } else {
        Ok(None)
    }
}
