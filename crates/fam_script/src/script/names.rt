//! Calls on the directory with a name.

ghost use Rattle.std.specs.Prelude.{◌≡◌, IfOk};
ghost use Rattle.fam_script.specs.Reading as lines;

use crate::script::cut::{five_words, four_words, three_words, two_words};
use crate::script::slots::meta;
use crate::script::word::{mode, number, slot};
use fam_base::{Bytes, NoMemory, Sequence};
use fam_model::{Line, MetaCall};
use std::alloc::Global;

/// A call with a name.
pub fn named_line(alloc: Global, word: &[u8], arguments: &[u8]) -> Result<Option<Line>, NoMemory>
    ensures { IfOk result (λ l. l ≡ lines.named_line word.now (lines.parts 32 arguments.now)) }
{
    if word == b"region".as_slice() {
        region(alloc, arguments)
    } else if word == b"lookup-region".as_slice() {
        lookup_region(alloc, arguments)
    } else if word == b"alloc".as_slice() {
        allocation(alloc, arguments)
    } else if word == b"lookup".as_slice() {
        lookup(alloc, arguments)
    } else {
        Ok(None)
    }
}

fn region(alloc: Global, arguments: &[u8]) -> Result<Option<Line>, NoMemory>
    ensures { IfOk result (λ l. l ≡ lines.region_line (lines.parts 32 arguments.now)) }
{
    let Some((slot, name, size, mode)) = four_words(arguments) else {
        return Ok(None);
    };
    let name = Sequence::of(alloc, name)?;
    Ok(region_with(slot, name, size, mode))
}

fn region_with(slot_word: &[u8], name: Bytes, size: &[u8], bits: &[u8]) -> Option<Line>
    ensures { result ≡ lines.region_from (lines.slot_of slot_word.now) name (lines.number_of size.now) (lines.mode_of bits.now) }
{
    let slot = slot(slot_word)?;
    let size = number(size)?;
    let mode = mode(bits)?;
    meta(MetaCall::CreateRegion {
        slot,
        name,
        size,
        mode,
    })
}

fn lookup_region(alloc: Global, arguments: &[u8]) -> Result<Option<Line>, NoMemory>
    ensures { IfOk result (λ l. l ≡ lines.lookup_region_line (lines.parts 32 arguments.now)) }
{
    let Some((slot, name)) = two_words(arguments) else {
        return Ok(None);
    };
    let name = Sequence::of(alloc, name)?;
    Ok(lookup_region_with(slot, name))
}

fn lookup_region_with(slot_word: &[u8], name: Bytes) -> Option<Line>
    ensures { result ≡ lines.lookup_region_from (lines.slot_of slot_word.now) name }
{
    let slot = slot(slot_word)?;
    meta(MetaCall::LookupRegion { slot, name })
}

fn allocation(alloc: Global, arguments: &[u8]) -> Result<Option<Line>, NoMemory>
    ensures { IfOk result (λ l. l ≡ lines.alloc_line (lines.parts 32 arguments.now)) }
{
    let Some((slot, name, size, mode, region)) = five_words(arguments) else {
        return Ok(None);
    };
    let name = Sequence::of(alloc, name)?;
    Ok(allocation_with(slot, name, size, mode, region))
}

fn allocation_with(
    slot_word: &[u8],
    name: Bytes,
    size: &[u8],
    bits: &[u8],
    region: &[u8],
) -> Option<Line>
    ensures { result ≡ lines.alloc_from (lines.slot_of slot_word.now) name (lines.number_of size.now) (lines.mode_of bits.now) (lines.slot_of region.now) }
{
    let target = slot(slot_word)?;
    let size = number(size)?;
    let mode = mode(bits)?;
    let region = slot(region)?;
    meta(MetaCall::Allocate {
        slot: target,
        name,
        size,
        mode,
        region,
    })
}

fn lookup(alloc: Global, arguments: &[u8]) -> Result<Option<Line>, NoMemory>
    ensures { IfOk result (λ l. l ≡ lines.lookup_line (lines.parts 32 arguments.now)) }
{
    let Some((slot, name, region)) = three_words(arguments) else {
        return Ok(None);
    };
    let name = Sequence::of(alloc, name)?;
    let region = Sequence::of(alloc, region)?;
    Ok(lookup_with(slot, name, region))
}

fn lookup_with(slot_word: &[u8], name: Bytes, region: Bytes) -> Option<Line>
    ensures { result ≡ lines.lookup_from (lines.slot_of slot_word.now) name region }
{
    let slot = slot(slot_word)?;
    meta(MetaCall::Lookup { slot, name, region })
}
