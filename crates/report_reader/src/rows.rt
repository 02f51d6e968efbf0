//! The rows of the opening.

ghost use Rattle.std.specs.Prelude.{◌≡◌, IfOk};
ghost use Rattle.fam_script.specs.Reading.{mode_of, number_of, parts, small_of};
ghost use Rattle.report_reader.specs.Reading as words;

use crate::cut::{cut, seven_words, six_words};
use crate::printed::{is_item, is_region};
use crate::word::{mode, number, small};
use fam_base::{Bytes, ItemId, NoMemory, RegionId, Sequence};
use fam_model::{ItemRow, RegionRow};
use std::alloc::Global;

fn region_row_with(
    number_word: &[u8],
    uid: &[u8],
    gid: &[u8],
    bits: &[u8],
    size: &[u8],
    name: Bytes,
) -> Option<RegionRow>
    ensures { result ≡ words.region_row_from (number_of number_word.now) (small_of uid.now) (small_of gid.now) (mode_of bits.now) (number_of size.now) name }
{
    let place = number(number_word)?;
    let uid = small(uid)?;
    let gid = small(gid)?;
    let mode = mode(bits)?;
    let size = number(size)?;
    Some(RegionRow {
        number: RegionId(place),
        uid,
        gid,
        mode,
        size,
        name,
    })
}

fn region_row(alloc: Global, arguments: &[u8]) -> Result<Option<RegionRow>, NoMemory>
    ensures { IfOk result (λ row. row ≡ words.region_row (parts 32 arguments.now)) }
{
    let Some((number, uid, gid, mode, size, name)) = six_words(arguments) else {
        return Ok(None);
    };
    let name = Sequence::of(alloc, name)?;
    Ok(region_row_with(number, uid, gid, mode, size, name))
}

fn loose_region(alloc: Global, text: &[u8]) -> Result<Option<RegionRow>, NoMemory>
    ensures { IfOk result (λ row. row ≡ words.loose_region (parts 32 text.now)) }
{
    match cut(text, b' ') {
        Some((word, arguments)) if word == b"region".as_slice() => region_row(alloc, arguments),
        _ => Ok(None),
    }
}

/// The region's row whose text this is.
pub fn region_line(alloc: Global, text: &[u8]) -> Result<Option<RegionRow>, NoMemory>
    ensures { IfOk result (λ row. row ≡ words.region_line_of text.now) }
{
    match loose_region(alloc, text)? {
        Some(row) => is_region(alloc, row, text),
        None => Ok(None),
    }
}

fn item_row_with(
    number_word: &[u8],
    region: &[u8],
    base: &[u8],
    size: &[u8],
    uid: &[u8],
    gid: &[u8],
    bits: &[u8],
    name: Bytes,
) -> Option<ItemRow>
    ensures { result ≡ words.item_row_from (number_of number_word.now) (number_of region.now) (number_of base.now) (number_of size.now) (small_of uid.now) (small_of gid.now) (mode_of bits.now) name }
{
    let place = number(number_word)?;
    let region = number(region)?;
    let base = number(base)?;
    let size = number(size)?;
    let uid = small(uid)?;
    let gid = small(gid)?;
    let mode = mode(bits)?;
    Some(ItemRow {
        number: ItemId(place),
        region: RegionId(region),
        base,
        size,
        uid,
        gid,
        mode,
        name,
    })
}

fn item_row(alloc: Global, number: &[u8], arguments: &[u8]) -> Result<Option<ItemRow>, NoMemory>
    ensures { IfOk result (λ row. row ≡ words.item_row number.now (parts 32 arguments.now)) }
{
    let Some((region, base, size, uid, gid, mode, name)) = seven_words(arguments) else {
        return Ok(None);
    };
    let name = Sequence::of(alloc, name)?;
    Ok(item_row_with(number, region, base, size, uid, gid, mode, name))
}

fn numbered_item(alloc: Global, text: &[u8]) -> Result<Option<ItemRow>, NoMemory>
    ensures { IfOk result (λ row. row ≡ words.numbered_item (parts 32 text.now)) }
{
    match cut(text, b' ') {
        Some((number, arguments)) => item_row(alloc, number, arguments),
        None => Ok(None),
    }
}

fn loose_item(alloc: Global, text: &[u8]) -> Result<Option<ItemRow>, NoMemory>
    ensures { IfOk result (λ row. row ≡ words.loose_item (parts 32 text.now)) }
{
    match cut(text, b' ') {
        Some((word, arguments)) if word == b"item".as_slice() => numbered_item(alloc, arguments),
        _ => Ok(None),
    }
}

/// The item's row whose text this is.
pub fn item_line(alloc: Global, text: &[u8]) -> Result<Option<ItemRow>, NoMemory>
    ensures { IfOk result (λ row. row ≡ words.item_line_of text.now) }
{
    match loose_item(alloc, text)? {
        Some(row) => is_item(alloc, row, text),
        None => Ok(None),
    }
}
