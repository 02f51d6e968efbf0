//! The text of a report.

ghost use Rattle.std.specs.Prelude.{◌≡◌, [], ◌++◌, IfOk, OnOk};
ghost use Rattle.fam_model.specs.EventText as words;
ghost use Rattle.fam_model.specs.ReportText as texts;
ghost use Rattle.fam_model.specs.ReportText.{report_text};

/// Appends a format to a text.
macro_rules! push {
    ($text:ident, $($format:tt)+) => {
        fam_script::printing::push_format($text, format_args!($($format)+))
    };
}

mod events;
mod replies;
mod rows;
mod words;

use events::{push_event, push_history};
use fam_base::NoMemory;
use fam_model::{Event, ItemRow, RegionRow, ReplyLine, Report};
use fam_script::printing::push_text;
use replies::{push_reply_line, push_reply_lines};
use rows::{push_item, push_opening, push_region};
use std::alloc::{AllocError, Global};

fn push_report(text: &mut Vec<u8>, report: &Report) -> Result<(), AllocError>
    ensures { OnOk result (text.new.items ≡ text.old.items ++ report_text report.now) }
{
    push_text(text, "replies\n")?;
    push_reply_lines(text, report.replies.as_slice())?;
    push_opening(text, &report.rows)?;
    push_history(text, report.history.as_slice())?;
    push_text(text, "done\n")?;
    Ok(())
}

/// The whole text of a report.
pub fn text_of(alloc: Global, report: &Report) -> Result<Vec<u8>, NoMemory>
    ensures { IfOk result (λ text. text.items ≡ report_text report.now) }
{
    let mut text = Vec::new(alloc);
    match push_report(&mut text, report) {
        Ok(()) => Ok(text),
        Err(_) => Err(NoMemory),
    }
}

/// A text that is empty, with memory for so many bytes.
fn empty_text(alloc: Global, room: usize) -> Result<Vec<u8>, NoMemory>
    ensures { IfOk result (λ text. text.items ≡ []) }
{
    let mut text = Vec::new(alloc);
    text.reserve(room)?;
    Ok(text)
}

/// The line of an event, without its line feed. It is made in memory for so many bytes, and more where it is longer.
pub fn event_text(alloc: Global, event: &Event, room: usize) -> Result<Vec<u8>, NoMemory>
    ensures { IfOk result (λ text. text.items ≡ words.event_text event.now) }
{
    let mut text = empty_text(alloc, room)?;
    match push_event(&mut text, event) {
        Ok(()) => Ok(text),
        Err(_) => Err(NoMemory),
    }
}

/// The line of a region, likewise.
pub fn region_text(alloc: Global, row: &RegionRow, room: usize) -> Result<Vec<u8>, NoMemory>
    ensures { IfOk result (λ text. text.items ≡ texts.region_text row.now) }
{
    let mut text = empty_text(alloc, room)?;
    match push_region(&mut text, row) {
        Ok(()) => Ok(text),
        Err(_) => Err(NoMemory),
    }
}

/// The line of an item, likewise.
pub fn item_text(alloc: Global, row: &ItemRow, room: usize) -> Result<Vec<u8>, NoMemory>
    ensures { IfOk result (λ text. text.items ≡ texts.item_text row.now) }
{
    let mut text = empty_text(alloc, room)?;
    match push_item(&mut text, row) {
        Ok(()) => Ok(text),
        Err(_) => Err(NoMemory),
    }
}

/// A reply line, likewise.
pub fn reply_line_text(alloc: Global, told: &ReplyLine, room: usize) -> Result<Vec<u8>, NoMemory>
    ensures { IfOk result (λ text. text.items ≡ texts.reply_line_text told.now) }
{
    let mut text = empty_text(alloc, room)?;
    match push_reply_line(&mut text, told) {
        Ok(()) => Ok(text),
        Err(_) => Err(NoMemory),
    }
}

#[cfg(test)]
mod tests;
