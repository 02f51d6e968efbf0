//! Words of a line.

ghost use Rattle.std.specs.Prelude.{◌≡◌, ◌<◌, ◌^◌, true, IfOk};
ghost use Rattle.std.specs.Bool.{OnTrue};
ghost use Rattle.std.specs.List.{list_all};
ghost use Rattle.std.specs.Char.{is_ascii_digit};
ghost use Rattle.fam_script.specs.Digits.{IsShort, number_after};
ghost use Rattle.fam_script.specs.Reading as words;

use crate::script::cut::cut;
use fam_base::{Bytes, Mode, NoMemory, Places, Sequence};
use hex::FromHexError;
use itoa::Buffer;
use std::alloc::Global;

/// Whether these are digits.
fn are_digits(word: &[u8]) -> bool
    ensures { result ≡ list_all is_ascii_digit word.now }
{
    word.iter().all(|byte| byte.is_ascii_digit())
}

/// Whether these are at most 19 digits, of which the first is no zero but in the number 0.
fn is_short(word: &[u8]) -> bool
    ensures { OnTrue result (IsShort word.now) }
{
    match word {
        [] | [b'0', _, ..] => false,
        _ => word.len() <= 19 && are_digits(word),
    }
}

/// The number that digits write.
fn value(word: &[u8]) -> u64
    requires digits { list_all is_ascii_digit word.now ≡ true }
    requires low { number_after 0 word.now < 2 ^ 64 }
    ensures { result ≡ number_after 0 word.now }
{
    let mut rest = word;
    let mut value = 0;
    while let [first, others @ ..] = rest {
        value = value * 10 + u64::from(*first - b'0');
        rest = others;
    }
    value
}

/// The number whose decimal digits these are, with no sign and no leading zero.
#[tactic(auto, using(crate::proofs::Numbers::short_read, crate::proofs::Numbers::short_low))]
pub fn number(word: &[u8]) -> Option<u64>
    ensures { result ≡ words.number_of word.now }
{
    if is_short(word) {
        Some(value(word))
    } else {
        long_number(word)
    }
}

/// The same, however long the word is.
fn long_number(word: &[u8]) -> Option<u64>
    ensures { result ≡ words.number_of word.now }
{
    let Ok(text) = str::from_utf8(word) else {
        return None;
    };
    let Ok(value) = text.parse::<u64>() else {
        return None;
    };
    let mut buffer = Buffer::new();
    if buffer.format(value).as_bytes() == word {
        Some(value)
    } else {
        None
    }
}

/// A number of 32 bits.
pub fn small(word: &[u8]) -> Option<u32>
    ensures { result ≡ words.small_of word.now }
{
    let value = number(word)?;
    if value < 4_294_967_296 {
        Some(value as u32)
    } else {
        None
    }
}

/// A number of 8 bits.
pub fn byte(word: &[u8]) -> Option<u8>
    ensures { result ≡ words.byte_of word.now }
{
    let value = number(word)?;
    if value < 256 { Some(value as u8) } else { None }
}

/// The number behind a letter.
pub fn slot(word: &[u8]) -> Option<u8>
    ensures { result ≡ words.slot_of word.now }
{
    if word.is_empty() {
        None
    } else {
        let (_, digits) = word.split_at(1);
        byte(digits)
    }
}

/// A number of 128 bits.
#[tactic(auto, using(crate::proofs::Numbers::wide_from))]
fn wide(word: &[u8]) -> Option<u128>
    ensures { result ≡ words.wide_of word.now }
{
    match number(word) {
        Some(value) => Some(u128::from(value)),
        None => long_wide(word),
    }
}

/// The same, where it may have more than 64 bits.
fn long_wide(word: &[u8]) -> Option<u128>
    ensures { result ≡ words.wide_of word.now }
{
    let Ok(text) = str::from_utf8(word) else {
        return None;
    };
    let Ok(value) = text.parse::<u128>() else {
        return None;
    };
    let mut digits = Buffer::new();
    if digits.format(value).as_bytes() == word {
        Some(value)
    } else {
        None
    }
}

fn has_minus(word: &[u8]) -> bool
    ensures { result ≡ words.has_minus word.now }
{
    !word.is_empty() && word[0] == b'-'
}

fn below_zero(value: u128) -> Option<i128>
    ensures { result ≡ words.below_zero value }
{
    if value != 0 && value <= 170_141_183_460_469_231_731_687_303_715_884_105_728 {
        Some(-1 - (value - 1) as i128)
    } else {
        None
    }
}

fn above_zero(value: u128) -> Option<i128>
    ensures { result ≡ words.above_zero value }
{
    if value < 170_141_183_460_469_231_731_687_303_715_884_105_728 {
        Some(value as i128)
    } else {
        None
    }
}

/// A number that may have a minus before it.
pub fn signed(word: &[u8]) -> Option<i128>
    ensures { result ≡ words.signed_of word.now }
{
    if has_minus(word) {
        let (_, digits) = word.split_at(1);
        below_zero(wide(digits)?)
    } else {
        above_zero(wide(word)?)
    }
}

/// The mode of three octal digits.
pub fn mode(word: &[u8]) -> Option<Mode>
    ensures { result ≡ words.mode_of word.now }
{
    if word.len() == 3 {
        let owner = u16::from(word[0].saturating_sub(b'0'));
        let group = u16::from(word[1].saturating_sub(b'0'));
        let others = u16::from(word[2].saturating_sub(b'0'));
        Mode::of(64 * owner + 8 * group + others)
    } else {
        None
    }
}

/// The bytes of pairs of lower-case hexadecimal digits, and no bytes for `-`.
pub fn hex_bytes(alloc: Global, word: &[u8]) -> Result<Option<Bytes>, NoMemory>
    ensures { IfOk result (λ bytes. bytes ≡ words.hex_of word.now) }
{
    if word == b"-".as_slice() {
        return Ok(Some(Sequence::new(alloc)));
    }
    match hex::decode(alloc, word) {
        Ok(bytes) => lower_case(alloc, Sequence::from_vec(bytes), word),
        Err(FromHexError::OutOfMemory) => Err(NoMemory),
        Err(_) => Ok(None),
    }
}

/// The bytes, where their digits in lower case are the word.
fn lower_case(alloc: Global, bytes: Bytes, word: &[u8]) -> Result<Option<Bytes>, NoMemory>
    ensures { IfOk result (λ kept. kept ≡ words.kept_where_printed bytes word.now) }
{
    match hex::encode(alloc, bytes.as_slice()) {
        Ok(text) if !bytes.is_empty() && text.as_bytes() == word => Ok(Some(bytes)),
        Ok(_) => Ok(None),
        Err(_) => Err(NoMemory),
    }
}

/// The numbers between commas, and none for `-`.
pub fn list(alloc: Global, word: &[u8]) -> Result<Option<Places>, NoMemory>
    ensures { IfOk result (λ places. places ≡ words.list_of word.now) }
{
    if word == b"-".as_slice() {
        Ok(Some(Sequence::new(alloc)))
    } else {
        numbers(alloc, word)
    }
}

/// A number for each part between commas.
fn numbers(alloc: Global, word: &[u8]) -> Result<Option<Places>, NoMemory>
    ensures { IfOk result (λ places. places ≡ words.numbers_of (words.parts 44 word.now)) }
{
    let mut found = Sequence::new(alloc);
    let mut rest = word;
    while let Some((first, others)) = cut(rest, b',') {
        let Some(value) = number(first) else {
            return Ok(None);
        };
        found.push(value)?;
        rest = others;
    }
    let Some(value) = number(rest) else {
        return Ok(None);
    };
    found.push(value)?;
    Ok(Some(found))
}
