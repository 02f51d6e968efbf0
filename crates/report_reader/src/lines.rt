//! The lines of a report that have numbers alone.

ghost use Rattle.std.specs.Prelude.{◌≡◌, IfOk};
ghost use Rattle.std.specs.Str.{bytes_eq};
ghost use Rattle.fam_script.specs.Reading.{number_of};
ghost use Rattle.report_reader.specs.Reading as words;

use crate::cut::{three_words, two_words};
use crate::word::number;
use fam_base::NoMemory;
use std::alloc::Global;

fn both(next_region: &[u8], next_item: &[u8]) -> Option<(u64, u64)>
    ensures { result ≡ words.loose_opening (number_of next_region.now) (number_of next_item.now) }
{
    let next_region = number(next_region)?;
    let next_item = number(next_item)?;
    Some((next_region, next_item))
}

fn is_opening(
    alloc: Global,
    next_region: u64,
    next_item: u64,
    text: &[u8],
) -> Result<bool, NoMemory>
    ensures { IfOk result (λ same. same ≡ bytes_eq (words.opening_text next_region next_item) text.now) }
{
    let printed = format!(in alloc; "opening {next_region} {next_item}")?;
    Ok(printed.as_bytes() == text)
}

/// The next numbers of the opening whose first line this is.
pub fn opening_line(alloc: Global, text: &[u8]) -> Result<Option<(u64, u64)>, NoMemory>
    ensures { IfOk result (λ next. next ≡ words.opening_of text.now) }
{
    let Some((_, next_region, next_item)) = three_words(text, b' ') else {
        return Ok(None);
    };
    let Some((next_region, next_item)) = both(next_region, next_item) else {
        return Ok(None);
    };
    if is_opening(alloc, next_region, next_item, text)? {
        Ok(Some((next_region, next_item)))
    } else {
        Ok(None)
    }
}

fn is_events(alloc: Global, count: u64, text: &[u8]) -> Result<bool, NoMemory>
    ensures { IfOk result (λ same. same ≡ bytes_eq (words.events_text count) text.now) }
{
    let printed = format!(in alloc; "events {count}")?;
    Ok(printed.as_bytes() == text)
}

/// The number of events whose line this is.
pub fn events_line(alloc: Global, text: &[u8]) -> Result<Option<u64>, NoMemory>
    ensures { IfOk result (λ count. count ≡ words.events_of text.now) }
{
    let Some((_, count)) = two_words(text, b' ') else {
        return Ok(None);
    };
    let Some(count) = number(count) else {
        return Ok(None);
    };
    if is_events(alloc, count, text)? {
        Ok(Some(count))
    } else {
        Ok(None)
    }
}
