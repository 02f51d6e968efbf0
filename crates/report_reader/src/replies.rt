//! Replies, and reply lines.

ghost use Rattle.std.specs.Prelude.{◌≡◌, IfOk};
ghost use Rattle.fam_script.specs.Reading.{mode_of, number_of, parts, small_of};
ghost use Rattle.report_reader.specs.Reading as words;

use crate::answer::error;
use crate::cut::{cut, five_words, four_words, one_word, seven_words};
use crate::fits::reply_line_fits;
use crate::printed::is_reply_line;
use crate::results::some_results;
use crate::word::{call_name, hex_bytes, mode, number, signed, small};
use fam_base::{Bytes, Descriptor, ItemId, NoMemory, PeId, RegionId, Sequence};
use fam_model::{ItemInfo, RegionInfo, Reply, ReplyLine};
use std::alloc::Global;

fn bare_reply(alloc: Global, word: &[u8]) -> Option<Reply>
    ensures { result ≡ words.bare_reply word.now }
{
    if word == b"ok".as_slice() {
        Some(Reply::Done)
    } else if word == b"issued".as_slice() {
        Some(Reply::Issued)
    } else if word == b"report".as_slice() {
        Some(Reply::Report(Sequence::new(alloc)))
    } else if word == b"passed".as_slice() {
        Some(Reply::Passed)
    } else if word == b"left".as_slice() {
        Some(Reply::Left)
    } else if word == b"crashed".as_slice() {
        Some(Reply::Crashed)
    } else {
        None
    }
}

fn one_reply(alloc: Global, text: &[u8]) -> Option<Reply>
    ensures { result ≡ words.one_reply (parts 32 text.now) }
{
    let word = one_word(text, b' ')?;
    bare_reply(alloc, word)
}

fn region(arguments: &[u8]) -> Option<Reply>
    ensures { result ≡ words.region_reply (parts 32 arguments.now) }
{
    let word = one_word(arguments, b' ')?;
    let number = number(word)?;
    Some(Reply::Region(RegionId(number)))
}

fn item(arguments: &[u8]) -> Option<Reply>
    ensures { result ≡ words.item_reply (parts 32 arguments.now) }
{
    let (item, region, base, size) = four_words(arguments)?;
    let item = number(item)?;
    let region = number(region)?;
    let base = number(base)?;
    let size = number(size)?;
    Some(Reply::Item(Descriptor {
        item: ItemId(item),
        region: RegionId(region),
        base,
        size,
    }))
}

fn value(arguments: &[u8]) -> Option<Reply>
    ensures { result ≡ words.value_reply (parts 32 arguments.now) }
{
    let word = one_word(arguments, b' ')?;
    let number = signed(word)?;
    Some(Reply::Value(number))
}

fn failure(arguments: &[u8]) -> Option<Reply>
    ensures { result ≡ words.error_reply (parts 32 arguments.now) }
{
    let error = error(arguments, b' ')?;
    Some(Reply::Error(error))
}

/// A reply that tells a thing.
fn told_reply(word: &[u8], arguments: &[u8]) -> Option<Reply>
    ensures { result ≡ words.told_reply word.now (parts 32 arguments.now) }
{
    if word == b"region".as_slice() {
        region(arguments)
    } else if word == b"item".as_slice() {
        item(arguments)
    } else if word == b"value".as_slice() {
        value(arguments)
    } else if word == b"error".as_slice() {
        failure(arguments)
    } else {
        None
    }
}

fn bytes_reply(alloc: Global, arguments: &[u8]) -> Result<Option<Reply>, NoMemory>
    ensures { IfOk result (λ r. r ≡ words.bytes_reply (parts 32 arguments.now)) }
{
    let Some(word) = one_word(arguments, b' ') else {
        return Ok(None);
    };
    match hex_bytes(alloc, word)? {
        Some(bytes) => Ok(Some(Reply::Bytes(bytes))),
        None => Ok(None),
    }
}

fn region_stat_with(name: Bytes, size: &[u8], uid: &[u8], gid: &[u8], bits: &[u8]) -> Option<Reply>
    ensures { result ≡ words.region_stat_from name (number_of size.now) (small_of uid.now) (small_of gid.now) (mode_of bits.now) }
{
    let size = number(size)?;
    let uid = small(uid)?;
    let gid = small(gid)?;
    let mode = mode(bits)?;
    Some(Reply::RegionStat(RegionInfo {
        name,
        size,
        uid,
        gid,
        mode,
    }))
}

fn region_stat(alloc: Global, arguments: &[u8]) -> Result<Option<Reply>, NoMemory>
    ensures { IfOk result (λ r. r ≡ words.region_stat_reply (parts 32 arguments.now)) }
{
    let Some((name, size, uid, gid, mode)) = five_words(arguments) else {
        return Ok(None);
    };
    let name = Sequence::of(alloc, name)?;
    Ok(region_stat_with(name, size, uid, gid, mode))
}

fn stat_with(
    name: Bytes,
    region: &[u8],
    base: &[u8],
    size: &[u8],
    uid: &[u8],
    gid: &[u8],
    bits: &[u8],
) -> Option<Reply>
    ensures { result ≡ words.stat_from name (number_of region.now) (number_of base.now) (number_of size.now) (small_of uid.now) (small_of gid.now) (mode_of bits.now) }
{
    let region = number(region)?;
    let base = number(base)?;
    let size = number(size)?;
    let uid = small(uid)?;
    let gid = small(gid)?;
    let mode = mode(bits)?;
    Some(Reply::ItemStat(ItemInfo {
        name,
        region: RegionId(region),
        base,
        size,
        uid,
        gid,
        mode,
    }))
}

fn stat(alloc: Global, arguments: &[u8]) -> Result<Option<Reply>, NoMemory>
    ensures { IfOk result (λ r. r ≡ words.stat_reply (parts 32 arguments.now)) }
{
    let Some((name, region, base, size, uid, gid, mode)) = seven_words(arguments) else {
        return Ok(None);
    };
    let name = Sequence::of(alloc, name)?;
    Ok(stat_with(name, region, base, size, uid, gid, mode))
}

/// A reply with bytes, a name or results.
fn long_reply(alloc: Global, word: &[u8], arguments: &[u8]) -> Result<Option<Reply>, NoMemory>
    ensures { IfOk result (λ r. r ≡ words.long_reply word.now (parts 32 arguments.now)) }
{
    if word == b"ok".as_slice() {
        bytes_reply(alloc, arguments)
    } else if word == b"region-stat".as_slice() {
        region_stat(alloc, arguments)
    } else if word == b"stat".as_slice() {
        stat(alloc, arguments)
    } else if word == b"report".as_slice() {
        some_results(alloc, arguments)
    } else {
        Ok(None)
    }
}

/// A reply of several words.
fn spoken_reply(alloc: Global, text: &[u8]) -> Result<Option<Reply>, NoMemory>
    ensures { IfOk result (λ r. r ≡ words.spoken_reply (parts 32 text.now)) }
{
    let Some((word, arguments)) = cut(text, b' ') else {
        return Ok(None);
    };
    if let Some(reply) = told_reply(word, arguments) {
        return Ok(Some(reply));
    }
    long_reply(alloc, word, arguments)
}

/// What the text of a reply may say.
pub fn reply(alloc: Global, text: &[u8]) -> Result<Option<Reply>, NoMemory>
    ensures { IfOk result (λ r. r ≡ words.reply_of (parts 32 text.now)) }
{
    if let Some(reply) = one_reply(alloc, text) {
        return Ok(Some(reply));
    }
    spoken_reply(alloc, text)
}

fn reply_line_with(name: (PeId, u64), given: Option<Reply>) -> Option<ReplyLine>
    ensures { result ≡ words.reply_line_from name given }
{
    let reply = given?;
    let (pe, call) = name;
    Some(ReplyLine { pe, call, reply })
}

/// What the text of a reply line may say.
fn loose_reply_line(alloc: Global, text: &[u8]) -> Result<Option<ReplyLine>, NoMemory>
    ensures { IfOk result (λ told. told ≡ words.loose_reply_line (parts 32 text.now)) }
{
    let Some((name, given)) = cut(text, b' ') else {
        return Ok(None);
    };
    let Some(name) = call_name(name) else {
        return Ok(None);
    };
    let given = reply(alloc, given)?;
    Ok(reply_line_with(name, given))
}

/// The reply line whose text this is.
pub fn reply_line(alloc: Global, text: &[u8]) -> Result<Option<ReplyLine>, NoMemory>
    ensures { IfOk result (λ told. told ≡ words.reply_line_of text.now) }
{
    let Some(told) = loose_reply_line(alloc, text)? else {
        return Ok(None);
    };
    if !reply_line_fits(&told) {
        return Ok(None);
    }
    is_reply_line(alloc, told, text)
}
