//! Errors and the answers of pieces. Their words have a space between them, or a slash.

ghost use Rattle.std.specs.Prelude.{◌≡◌, IfOk};
ghost use Rattle.fam_script.specs.Reading.{parts};
ghost use Rattle.report_reader.specs.Reading as words;

use crate::cut::{cut, one_word, three_words};
use crate::word::{hex_bytes, number};
use fam_base::{FamError, NoMemory};
use fam_model::PieceAnswer;
use std::alloc::Global;

fn early_error(word: &[u8]) -> Option<FamError>
    ensures { result ≡ words.early_error_of word.now }
{
    if word == b"Memory".as_slice() {
        Some(FamError::Memory)
    } else if word == b"Absent".as_slice() {
        Some(FamError::Absent)
    } else if word == b"NoPermission".as_slice() {
        Some(FamError::NoPermission)
    } else if word == b"Range".as_slice() {
        Some(FamError::Range)
    } else if word == b"Unaligned".as_slice() {
        Some(FamError::Unaligned)
    } else if word == b"Unsupported".as_slice() {
        Some(FamError::Unsupported)
    } else if word == b"TooLarge".as_slice() {
        Some(FamError::TooLarge)
    } else {
        None
    }
}

fn late_error(word: &[u8]) -> Option<FamError>
    ensures { result ≡ words.late_error_of word.now }
{
    if word == b"NoSpace".as_slice() {
        Some(FamError::NoSpace)
    } else if word == b"Exists".as_slice() {
        Some(FamError::Exists)
    } else if word == b"BadName".as_slice() {
        Some(FamError::BadName)
    } else if word == b"BadHandle".as_slice() {
        Some(FamError::BadHandle)
    } else if word == b"InUse".as_slice() {
        Some(FamError::InUse)
    } else if word == b"Budget".as_slice() {
        Some(FamError::Budget)
    } else if word == b"DiskFault".as_slice() {
        Some(FamError::DiskFault)
    } else {
        None
    }
}

/// An error without numbers.
fn plain_error(word: &[u8]) -> Option<FamError>
    ensures { result ≡ words.plain_error_of word.now }
{
    if let Some(error) = early_error(word) {
        return Some(error);
    }
    late_error(word)
}

fn full_error(word: &[u8], used: u64, need: u64) -> Option<FamError>
    ensures { result ≡ words.full_error word.now used need }
{
    if word == b"HistoryFull".as_slice() {
        Some(FamError::HistoryFull { used, need })
    } else if word == b"JournalFull".as_slice() {
        Some(FamError::JournalFull { used, need })
    } else {
        None
    }
}

/// An error with numbers.
fn full_error_in(text: &[u8], separator: u8) -> Option<FamError>
    ensures { result ≡ words.full_error_of (parts separator text.now) }
{
    let (word, used, need) = three_words(text, separator)?;
    let used = number(used)?;
    let need = number(need)?;
    full_error(word, used, need)
}

/// An error of one word.
fn one_error(text: &[u8], separator: u8) -> Option<FamError>
    ensures { result ≡ words.one_error_of (parts separator text.now) }
{
    let word = one_word(text, separator)?;
    plain_error(word)
}

/// An error.
pub fn error(text: &[u8], separator: u8) -> Option<FamError>
    ensures { result ≡ words.error_of (parts separator text.now) }
{
    if let Some(error) = one_error(text, separator) {
        return Some(error);
    }
    full_error_in(text, separator)
}

fn bare_answer(word: &[u8]) -> Option<PieceAnswer>
    ensures { result ≡ words.bare_answer word.now }
{
    if word == b"ok".as_slice() {
        Some(PieceAnswer::Ok)
    } else {
        None
    }
}

fn one_answer(text: &[u8], separator: u8) -> Option<PieceAnswer>
    ensures { result ≡ words.one_answer (parts separator text.now) }
{
    let word = one_word(text, separator)?;
    bare_answer(word)
}

fn data_answer(alloc: Global, text: &[u8], separator: u8) -> Result<Option<PieceAnswer>, NoMemory>
    ensures { IfOk result (λ a. a ≡ words.data_answer (parts separator text.now)) }
{
    let Some(word) = one_word(text, separator) else {
        return Ok(None);
    };
    match hex_bytes(alloc, word)? {
        Some(bytes) => Ok(Some(PieceAnswer::Data(bytes))),
        None => Ok(None),
    }
}

fn failed_answer(text: &[u8], separator: u8) -> Option<PieceAnswer>
    ensures { result ≡ words.failed_answer (parts separator text.now) }
{
    let error = error(text, separator)?;
    Some(PieceAnswer::Refused(error))
}

fn spoken_answer(alloc: Global, text: &[u8], separator: u8) -> Result<Option<PieceAnswer>, NoMemory>
    ensures { IfOk result (λ a. a ≡ words.spoken_answer (parts separator text.now)) }
{
    let Some((word, arguments)) = cut(text, separator) else {
        return Ok(None);
    };
    if word == b"ok".as_slice() {
        data_answer(alloc, arguments, separator)
    } else if word == b"error".as_slice() {
        Ok(failed_answer(arguments, separator))
    } else {
        Ok(None)
    }
}

/// The answer of a piece.
pub fn answer(alloc: Global, text: &[u8], separator: u8) -> Result<Option<PieceAnswer>, NoMemory>
    ensures { IfOk result (λ a. a ≡ words.answer_of (parts separator text.now)) }
{
    if let Some(answer) = one_answer(text, separator) {
        return Ok(Some(answer));
    }
    spoken_answer(alloc, text, separator)
}
