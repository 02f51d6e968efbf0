//! Reply lines, and the numbers of lines in the whole input.

ghost use Rattle.std.specs.Prelude.{◌≡◌, ◌==◌, ◌+◌, count_by, length, not, slice_get, IfOk};
ghost use Rattle.fam_model.specs.Lists.{is_some_and};
ghost use Rattle.fam_model.specs.ReportText as texts;
ghost use Rattle.fam_model.specs.Rows as rows_of;
ghost use Rattle.fam_audit.specs.Verdict as verdict;

use fam_base::NoMemory;
use fam_model::{ItemRow, RegionRow, ReplyLine, Report, Rows, Script};

/// Whether two lines tell the same reply to the same call.
fn is_same_line(line: &ReplyLine, other: &ReplyLine) -> bool
    ensures { result ≡ verdict.is_same_line line.now other.now }
{
    line.pe.0 == other.pe.0 && line.call == other.call && line.reply == other.reply
}

/// Whether the line is the one that is due at that place.
fn is_due(due: &[ReplyLine], place: usize, line: &ReplyLine) -> bool
    ensures { result ≡ is_some_and (slice_get due.now place) (λ other. verdict.is_same_line line.now other) }
{
    match due.get(place) {
        Some(other) => is_same_line(line, other),
        None => false,
    }
}

/// The first place at which there is not the line that is due: another one, one too many, or none.
pub fn first_wrong_line(lines: &[ReplyLine], due: &[ReplyLine]) -> Option<usize>
    ensures { result ≡ verdict.first_wrong_line lines.now due.now }
{
    for (place, line) in lines.iter().enumerate() {
        if !is_due(due, place, line) {
            return Some(place);
        }
    }
    if lines.len() < due.len() {
        Some(lines.len())
    } else {
        None
    }
}

/// A sum of numbers of lines. As many lines as no number can count lie in no memory.
fn add(lines: u64, more: u64) -> Result<u64, NoMemory>
    ensures { IfOk result (λ sum. sum ≡ lines + more) }
{
    match lines.checked_add(more) {
        Some(sum) => Ok(sum),
        None => Err(NoMemory),
    }
}

/// The line of the whole input that the reply line at a place is; behind the last one comes the line `opening`.
pub fn reply_line(script: &Script, place: usize) -> Result<u64, NoMemory>
    ensures { IfOk result (λ line. line ≡ verdict.reply_line script.now place) }
{
    let replies = add(script.lines, 2)?;
    add(replies, place as u64)
}

/// The lines of regions in an opening.
fn region_lines(rows: &[RegionRow]) -> usize
    ensures { result ≡ count_by (λ row. not (rows_of.region_number row == 0)) rows.now }
{
    rows.iter().filter(|row| row.number.0 != 0).count()
}

/// The lines of items in an opening.
fn item_lines(rows: &[ItemRow]) -> usize
    ensures { result ≡ count_by (λ row. not (rows_of.item_number row == 0)) rows.now }
{
    rows.iter().filter(|row| row.number.0 != 0).count()
}

/// The lines of an opening.
#[tactic(auto, using(crate::proofs::Counting::opening_length))]
fn opening_lines(rows: &Rows) -> Result<u64, NoMemory>
    ensures { IfOk result (λ lines. lines ≡ length (texts.opening_lines rows.now)) }
{
    let regions = region_lines(rows.regions.as_slice()) as u64;
    let items = item_lines(rows.items.as_slice()) as u64;
    let rows = add(regions, items)?;
    add(1, rows)
}

/// The line of the whole input that the event at a place is; behind the last one comes the line `done`.
pub fn event_line(script: &Script, report: &Report, place: usize) -> Result<u64, NoMemory>
    ensures { IfOk result (λ line. line ≡ verdict.event_line script.now report.now place) }
{
    let opening = reply_line(script, report.replies.len())?;
    let events = add(opening, opening_lines(&report.rows)?)?;
    let first = add(events, 1)?;
    add(first, place as u64)
}
