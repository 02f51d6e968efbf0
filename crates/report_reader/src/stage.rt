//! The lines so far.

ghost use Rattle.std.specs.Prelude.{◌≡◌, IfOk};
ghost use Rattle.report_reader.specs.Machine as machine;
ghost use Rattle.report_reader.specs.Machine.{GivesReport};

use crate::event::event;
use crate::lines::{events_line, opening_line};
use crate::opening::{add_item, add_region, begun, opened};
use crate::replies::reply_line;
use crate::rows::{item_line, region_line};
use fam_base::{NoMemory, Sequence};
use fam_directory::IndexedRows;
use fam_model::{Event, ItemRow, RegionRow, ReplyLine, Report};
use std::alloc::Global;

/// Reply lines and the rows behind them so far. The next numbers of these rows are those behind the last ones; the numbers of
/// the opening's first line stand beside.
#[derive(Drop)]
pub struct Opening {
    pub replies: Sequence<ReplyLine>,
    pub rows: IndexedRows,
    pub next_region: u64,
    pub next_item: u64,
}

/// What the lines so far are the beginning of.
#[derive(Drop)]
pub enum Stage {
    /// There is none.
    Nothing,
    /// These reply lines.
    Replies(Sequence<ReplyLine>),
    /// An opening that has no item yet.
    Regions(Opening),
    /// An opening with items.
    Items(Opening),
    /// A report with its events so far, and how many are left.
    Events(Report, u64),
    /// A whole report.
    Whole(Report),
}

fn first_step(alloc: Global, text: &[u8]) -> Option<Stage>
    ensures { result ≡ machine.first_step text.now }
{
    if text == b"replies".as_slice() {
        Some(Stage::Replies(Sequence::new(alloc)))
    } else {
        None
    }
}

fn opening_step(
    alloc: Global,
    replies: Sequence<ReplyLine>,
    text: &[u8],
) -> Result<Option<Stage>, NoMemory>
    ensures { IfOk result (λ next. next ≡ machine.opening_step replies text.now) }
{
    let Some(next) = opening_line(alloc, text)? else {
        return Ok(None);
    };
    match opened(alloc, replies, next)? {
        Some(opening) => Ok(Some(Stage::Regions(opening))),
        None => Ok(None),
    }
}

fn told_step(
    alloc: Global,
    told: Option<ReplyLine>,
    mut replies: Sequence<ReplyLine>,
    text: &[u8],
) -> Result<Option<Stage>, NoMemory>
    ensures { IfOk result (λ next. next ≡ machine.told_step told replies text.now) }
{
    match told {
        Some(told) => {
            replies.push(told)?;
            Ok(Some(Stage::Replies(replies)))
        }
        None => opening_step(alloc, replies, text),
    }
}

fn events_step(alloc: Global, opening: Opening, text: &[u8]) -> Result<Option<Stage>, NoMemory>
    ensures { IfOk result (λ next. next ≡ machine.events_step opening text.now) }
{
    match events_line(alloc, text)? {
        Some(count) => Ok(Some(Stage::Events(begun(alloc, opening)?, count))),
        None => Ok(None),
    }
}

fn item_step(
    alloc: Global,
    row: Option<ItemRow>,
    opening: Opening,
    text: &[u8],
) -> Result<Option<Stage>, NoMemory>
    ensures { IfOk result (λ next. next ≡ machine.item_step row opening text.now) }
{
    let Some(row) = row else {
        return events_step(alloc, opening, text);
    };
    match add_item(opening, row)? {
        Some(next) => Ok(Some(Stage::Items(next))),
        None => Ok(None),
    }
}

fn region_step(
    alloc: Global,
    row: Option<RegionRow>,
    opening: Opening,
    text: &[u8],
) -> Result<Option<Stage>, NoMemory>
    ensures { IfOk result (λ next. next ≡ machine.region_step row opening text.now) }
{
    let Some(row) = row else {
        let item = item_line(alloc, text)?;
        return item_step(alloc, item, opening, text);
    };
    match add_region(opening, row)? {
        Some(next) => Ok(Some(Stage::Regions(next))),
        None => Ok(None),
    }
}

fn with_event(mut report: Report, event: Event) -> Result<Report, NoMemory>
    ensures { IfOk result (λ next. next ≡ machine.with_event report event) }
{
    report.history.push(event)?;
    Ok(report)
}

fn last_step(report: Report, text: &[u8]) -> Option<Stage>
    ensures { result ≡ machine.event_step report 0 text.now }
{
    if text == b"done".as_slice() {
        Some(Stage::Whole(report))
    } else {
        None
    }
}

fn event_step(
    alloc: Global,
    report: Report,
    left: u64,
    text: &[u8],
) -> Result<Option<Stage>, NoMemory>
    ensures { IfOk result (λ next. next ≡ machine.event_step report left text.now) }
{
    if left == 0 {
        return Ok(last_step(report, text));
    }
    let Some(event) = event(alloc, text)? else {
        return Ok(None);
    };
    let report = with_event(report, event)?;
    Ok(Some(Stage::Events(report, left - 1)))
}

/// The lines with one more, if a report begins with them.
pub fn step(alloc: Global, stage: Stage, text: &[u8]) -> Result<Option<Stage>, NoMemory>
    ensures { IfOk result (λ next. next ≡ machine.step stage text.now) }
{
    match stage {
        Stage::Nothing => Ok(first_step(alloc, text)),
        Stage::Replies(replies) => {
            let told = reply_line(alloc, text)?;
            told_step(alloc, told, replies, text)
        }
        Stage::Regions(opening) => {
            let row = region_line(alloc, text)?;
            region_step(alloc, row, opening, text)
        }
        Stage::Items(opening) => {
            let row = item_line(alloc, text)?;
            item_step(alloc, row, opening, text)
        }
        Stage::Events(report, left) => event_step(alloc, report, left, text),
        Stage::Whole(_) => Ok(None),
    }
}

/// The report, if it is whole and nothing stands behind its last line feed.
pub fn finish(stage: Stage, rest: &[u8], lines: u64) -> Option<Report>
    ensures { GivesReport lines stage rest.now result }
{
    match stage {
        Stage::Whole(report) if rest.is_empty() => Some(report),
        _ => None,
    }
}
