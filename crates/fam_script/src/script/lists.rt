//! Data calls with a list of bytes or places.

ghost use Rattle.std.specs.Prelude.{◌≡◌, IfOk, true, false};
ghost use Rattle.fam_script.specs.Reading as lines;

use crate::script::cut::{five_words, four_words, seven_words};
use crate::script::moves::data;
use crate::script::word::{hex_bytes, list, number, slot};
use fam_base::{Bytes, NoMemory, Places};
use fam_model::{DataOp, Line};
use std::alloc::Global;

/// A data call with a list.
pub fn list_line(alloc: Global, word: &[u8], arguments: &[u8]) -> Result<Option<Line>, NoMemory>
    ensures { IfOk result (λ l. l ≡ lines.list_line word.now (lines.parts 32 arguments.now)) }
{
    if word == b"put".as_slice() {
        put(alloc, arguments, true)
    } else if word == b"put-nb".as_slice() {
        put(alloc, arguments, false)
    } else if word == b"scatter".as_slice() {
        scatter(alloc, arguments, true)
    } else if word == b"scatter-nb".as_slice() {
        scatter(alloc, arguments, false)
    } else if word == b"gather-index".as_slice() {
        gather_index(alloc, arguments, true)
    } else if word == b"gather-index-nb".as_slice() {
        gather_index(alloc, arguments, false)
    } else if word == b"scatter-index".as_slice() {
        scatter_index(alloc, arguments, true)
    } else if word == b"scatter-index-nb".as_slice() {
        scatter_index(alloc, arguments, false)
    } else {
        Ok(None)
    }
}

fn put(alloc: Global, arguments: &[u8], blocking: bool) -> Result<Option<Line>, NoMemory>
    ensures { IfOk result (λ l. l ≡ lines.put_line blocking (lines.parts 32 arguments.now)) }
{
    let Some((context, item, offset, hex)) = four_words(arguments) else {
        return Ok(None);
    };
    let Some(bytes) = hex_bytes(alloc, hex)? else {
        return Ok(None);
    };
    Ok(put_with(context, item, offset, bytes, blocking))
}

fn put_with(
    context: &[u8],
    item: &[u8],
    offset: &[u8],
    bytes: Bytes,
    blocking: bool,
) -> Option<Line>
    ensures { result ≡ lines.put_from (lines.slot_of context.now) (lines.slot_of item.now) (lines.number_of offset.now) bytes blocking }
{
    let context = slot(context)?;
    let item = slot(item)?;
    let offset = number(offset)?;
    let op = DataOp::Put {
        item,
        offset,
        bytes,
    };
    data(context, op, blocking)
}

fn scatter(alloc: Global, arguments: &[u8], blocking: bool) -> Result<Option<Line>, NoMemory>
    ensures { IfOk result (λ l. l ≡ lines.scatter_line blocking (lines.parts 32 arguments.now)) }
{
    let Some((context, item, first, stride, size, count, hex)) = seven_words(arguments) else {
        return Ok(None);
    };
    let Some(bytes) = hex_bytes(alloc, hex)? else {
        return Ok(None);
    };
    Ok(scatter_with(context, item, first, stride, size, count, bytes, blocking))
}

fn scatter_with(
    context: &[u8],
    item: &[u8],
    first: &[u8],
    stride: &[u8],
    size: &[u8],
    count: &[u8],
    bytes: Bytes,
    blocking: bool,
) -> Option<Line>
    ensures { result ≡ lines.scatter_from (lines.slot_of context.now) (lines.slot_of item.now) (lines.number_of first.now) (lines.number_of stride.now) (lines.number_of size.now) (lines.number_of count.now) bytes blocking }
{
    let context = slot(context)?;
    let item = slot(item)?;
    let first = number(first)?;
    let stride = number(stride)?;
    let size = number(size)?;
    let count = number(count)?;
    let op = DataOp::Scatter {
        item,
        first,
        stride,
        size,
        count,
        bytes,
    };
    data(context, op, blocking)
}

fn gather_index(alloc: Global, arguments: &[u8], blocking: bool) -> Result<Option<Line>, NoMemory>
    ensures { IfOk result (λ l. l ≡ lines.gather_index_line blocking (lines.parts 32 arguments.now)) }
{
    let Some((context, item, size, places)) = four_words(arguments) else {
        return Ok(None);
    };
    let Some(places) = list(alloc, places)? else {
        return Ok(None);
    };
    Ok(gather_index_with(context, item, size, places, blocking))
}

fn gather_index_with(
    context: &[u8],
    item: &[u8],
    size: &[u8],
    places: Places,
    blocking: bool,
) -> Option<Line>
    ensures { result ≡ lines.gather_index_from (lines.slot_of context.now) (lines.slot_of item.now) (lines.number_of size.now) places blocking }
{
    let context = slot(context)?;
    let item = slot(item)?;
    let size = number(size)?;
    let op = DataOp::GatherIndex { item, size, places };
    data(context, op, blocking)
}

fn scatter_index(alloc: Global, arguments: &[u8], blocking: bool) -> Result<Option<Line>, NoMemory>
    ensures { IfOk result (λ l. l ≡ lines.scatter_index_line blocking (lines.parts 32 arguments.now)) }
{
    let Some((context, item, size, places, hex)) = five_words(arguments) else {
        return Ok(None);
    };
    let Some(places) = list(alloc, places)? else {
        return Ok(None);
    };
    let Some(bytes) = hex_bytes(alloc, hex)? else {
        return Ok(None);
    };
    Ok(scatter_index_with(context, item, size, places, bytes, blocking))
}

fn scatter_index_with(
    context: &[u8],
    item: &[u8],
    size: &[u8],
    places: Places,
    bytes: Bytes,
    blocking: bool,
) -> Option<Line>
    ensures { result ≡ lines.scatter_index_from (lines.slot_of context.now) (lines.slot_of item.now) (lines.number_of size.now) places bytes blocking }
{
    let context = slot(context)?;
    let item = slot(item)?;
    let size = number(size)?;
    let op = DataOp::ScatterIndex {
        item,
        size,
        places,
        bytes,
    };
    data(context, op, blocking)
}
