//! What happened.

ghost use Rattle.std.specs.Prelude.{◌≡◌, true, IfOk, IfSome};
ghost use Rattle.fam_script.specs.Reading.{number_of, parts, slot_of, small_of};
ghost use Rattle.report_reader.specs.Reading as words;
ghost use Rattle.report_reader.specs.EventForm.{is_call_told};
ghost use Rattle.report_reader.specs.Reading.{calls_told};

use crate::answer::{answer, error};
use crate::call::{behind_word, call_in_front, first_word};
use crate::cut::{cut, one_word, two_words};
use crate::replies::reply;
use crate::word::{number, slot, small};
use fam_base::{FamError, NoMemory};
use fam_model::{Call, PieceAnswer, Reply, What};
use std::alloc::Global;

fn meta_with(call: Call, given: Option<Reply>) -> Option<What>
    requires { is_call_told call ≡ true }
    ensures what { result ≡ words.meta_from call given }
    ensures told { IfSome result (λ what. calls_told what ≡ true) }
{
    match call {
        Call::Meta(call) => {
            let reply = given?;
            Some(What::Meta { call, reply })
        }
        _ => None,
    }
}

fn meta(alloc: Global, text: &[u8]) -> Result<Option<What>, NoMemory>
    ensures what { IfOk result (λ w. w ≡ words.meta_of (parts 32 text.now)) }
    ensures told { IfOk result (λ w. IfSome w (λ what. calls_told what ≡ true)) }
{
    let Some((call, given)) = call_in_front(alloc, text)? else {
        return Ok(None);
    };
    let reply = reply(alloc, given)?;
    Ok(meta_with(call, reply))
}

fn issue_with(call: Call, given: Option<Reply>) -> Option<What>
    requires { is_call_told call ≡ true }
    ensures what { result ≡ words.issue_from call given }
    ensures told { IfSome result (λ what. calls_told what ≡ true) }
{
    let reply = given?;
    Some(What::Issue { call, reply })
}

fn issue(alloc: Global, text: &[u8]) -> Result<Option<What>, NoMemory>
    ensures what { IfOk result (λ w. w ≡ words.issue_of (parts 32 text.now)) }
    ensures told { IfOk result (λ w. IfSome w (λ what. calls_told what ≡ true)) }
{
    let Some((call, given)) = call_in_front(alloc, text)? else {
        return Ok(None);
    };
    let reply = reply(alloc, given)?;
    Ok(issue_with(call, reply))
}

fn doubt(word: &[u8], bit: &[u8]) -> Option<(FamError, bool)>
    ensures { result ≡ words.doubt_of word.now bit.now }
{
    if word == b"DiskFault".as_slice() {
        Some((FamError::DiskFault, bit == b"1".as_slice()))
    } else {
        None
    }
}

/// A fault of the disk and its doubt.
fn doubtful(text: &[u8]) -> Option<(FamError, bool)>
    ensures { result ≡ words.doubtful_of (parts 32 text.now) }
{
    let (word, bit) = two_words(text, b' ')?;
    doubt(word, bit)
}

/// An error without a doubt.
fn sure(text: &[u8]) -> Option<(FamError, bool)>
    ensures { result ≡ words.sure_of (parts 32 text.now) }
{
    let error = error(text, b' ')?;
    Some((error, false))
}

/// An error and its doubt.
fn doubted(text: &[u8]) -> Option<(FamError, bool)>
    ensures { result ≡ words.doubted_of (parts 32 text.now) }
{
    if let Some(told) = doubtful(text) {
        return Some(told);
    }
    sure(text)
}

/// An error and its doubt behind the word `error`.
fn refusal(text: &[u8]) -> Option<(FamError, bool)>
    ensures { result ≡ words.refusal_of (parts 32 text.now) }
{
    let (_, arguments) = cut(text, b' ')?;
    doubted(arguments)
}

fn refused_with(call: Call, given: Option<(FamError, bool)>) -> Option<What>
    requires { is_call_told call ≡ true }
    ensures what { result ≡ words.refused_from call given }
    ensures told { IfSome result (λ what. calls_told what ≡ true) }
{
    let (error, doubt) = given?;
    Some(What::Refused { call, error, doubt })
}

fn refused(alloc: Global, text: &[u8]) -> Result<Option<What>, NoMemory>
    ensures what { IfOk result (λ w. w ≡ words.refused_of (parts 32 text.now)) }
    ensures told { IfOk result (λ w. IfSome w (λ what. calls_told what ≡ true)) }
{
    let Some((call, given)) = call_in_front(alloc, text)? else {
        return Ok(None);
    };
    let given = refusal(given);
    Ok(refused_with(call, given))
}

fn piece_with(given: Option<PieceAnswer>, word: &[u8]) -> Option<What>
    ensures what { result ≡ words.piece_from given (small_of word.now) }
    ensures told { IfSome result (λ what. calls_told what ≡ true) }
{
    let answer = given?;
    let piece = small(word)?;
    Some(What::Piece { piece, answer })
}

fn piece(alloc: Global, text: &[u8]) -> Result<Option<What>, NoMemory>
    ensures what { IfOk result (λ w. w ≡ words.piece_of (parts 32 text.now)) }
    ensures told { IfOk result (λ w. IfSome w (λ what. calls_told what ≡ true)) }
{
    let Some((piece, rest)) = cut(text, b' ') else {
        return Ok(None);
    };
    let Some(given) = behind_word(rest) else {
        return Ok(None);
    };
    let given = answer(alloc, given, b' ')?;
    Ok(piece_with(given, piece))
}

fn answered(alloc: Global, text: &[u8]) -> Result<Option<What>, NoMemory>
    ensures what { IfOk result (λ w. w ≡ words.answered_of (parts 32 text.now)) }
    ensures told { IfOk result (λ w. IfSome w (λ what. calls_told what ≡ true)) }
{
    let Some(given) = behind_word(text) else {
        return Ok(None);
    };
    match reply(alloc, given)? {
        Some(reply) => Ok(Some(What::Answer { reply })),
        None => Ok(None),
    }
}

fn open(text: &[u8]) -> Option<What>
    ensures what { result ≡ words.open_of (parts 32 text.now) }
    ensures told { IfSome result (λ what. calls_told what ≡ true) }
{
    let context = slot(first_word(text))?;
    Some(What::OpenContext { context })
}

fn close_with(given: Option<Reply>, word: &[u8]) -> Option<What>
    ensures what { result ≡ words.close_from given (slot_of word.now) }
    ensures told { IfSome result (λ what. calls_told what ≡ true) }
{
    let reply = given?;
    let context = slot(word)?;
    Some(What::CloseContext { context, reply })
}

fn close(alloc: Global, text: &[u8]) -> Result<Option<What>, NoMemory>
    ensures what { IfOk result (λ w. w ≡ words.close_of (parts 32 text.now)) }
    ensures told { IfOk result (λ w. IfSome w (λ what. calls_told what ≡ true)) }
{
    let Some((context, rest)) = cut(text, b' ') else {
        return Ok(None);
    };
    let Some(given) = behind_word(rest) else {
        return Ok(None);
    };
    let given = reply(alloc, given)?;
    Ok(close_with(given, context))
}

fn quiet_with(given: Option<Reply>, word: &[u8]) -> Option<What>
    ensures what { result ≡ words.quiet_from given (slot_of word.now) }
    ensures told { IfSome result (λ what. calls_told what ≡ true) }
{
    let reply = given?;
    let context = slot(word)?;
    Some(What::Quiet { context, reply })
}

fn quiet(alloc: Global, text: &[u8]) -> Result<Option<What>, NoMemory>
    ensures what { IfOk result (λ w. w ≡ words.quiet_of (parts 32 text.now)) }
    ensures told { IfOk result (λ w. IfSome w (λ what. calls_told what ≡ true)) }
{
    let Some((context, rest)) = cut(text, b' ') else {
        return Ok(None);
    };
    let Some(given) = behind_word(rest) else {
        return Ok(None);
    };
    let given = reply(alloc, given)?;
    Ok(quiet_with(given, context))
}

fn wait_from(given: Option<Reply>, context: &[u8], named: &[u8]) -> Option<What>
    ensures what { result ≡ words.wait_from given (slot_of context.now) (number_of named.now) }
    ensures told { IfSome result (λ what. calls_told what ≡ true) }
{
    let reply = given?;
    let context = slot(context)?;
    let named = number(named)?;
    Some(What::Wait {
        context,
        named,
        reply,
    })
}

fn wait_with(alloc: Global, context: &[u8], text: &[u8]) -> Result<Option<What>, NoMemory>
    ensures what { IfOk result (λ w. w ≡ words.wait_with context.now (parts 32 text.now)) }
    ensures told { IfOk result (λ w. IfSome w (λ what. calls_told what ≡ true)) }
{
    let Some((named, rest)) = cut(text, b' ') else {
        return Ok(None);
    };
    let Some(given) = behind_word(rest) else {
        return Ok(None);
    };
    let given = reply(alloc, given)?;
    Ok(wait_from(given, context, named))
}

fn wait(alloc: Global, text: &[u8]) -> Result<Option<What>, NoMemory>
    ensures what { IfOk result (λ w. w ≡ words.wait_of (parts 32 text.now)) }
    ensures told { IfOk result (λ w. IfSome w (λ what. calls_told what ≡ true)) }
{
    match cut(text, b' ') {
        None => Ok(None),
        Some((context, rest)) => wait_with(alloc, context, rest),
    }
}

fn fence(text: &[u8]) -> Option<What>
    ensures what { result ≡ words.fence_of (parts 32 text.now) }
    ensures told { IfSome result (λ what. calls_told what ≡ true) }
{
    let word = one_word(text, b' ')?;
    let context = slot(word)?;
    Some(What::Fence { context })
}

fn lose(text: &[u8]) -> Option<What>
    ensures what { result ≡ words.lose_of (parts 32 text.now) }
    ensures told { IfSome result (λ what. calls_told what ≡ true) }
{
    let word = one_word(text, b' ')?;
    let piece = small(word)?;
    Some(What::Lose { piece })
}

fn bare_what(word: &[u8]) -> Option<What>
    ensures what { result ≡ words.bare_what word.now }
    ensures told { IfSome result (λ what. calls_told what ≡ true) }
{
    if word == b"arrive".as_slice() {
        Some(What::Arrive)
    } else if word == b"leave".as_slice() {
        Some(What::Leave)
    } else if word == b"crash".as_slice() {
        Some(What::Crash)
    } else {
        None
    }
}

fn one_what(text: &[u8]) -> Option<What>
    ensures what { result ≡ words.one_what (parts 32 text.now) }
    ensures told { IfSome result (λ what. calls_told what ≡ true) }
{
    let word = one_word(text, b' ')?;
    bare_what(word)
}

/// What tells a call.
fn call_what(alloc: Global, word: &[u8], arguments: &[u8]) -> Result<Option<What>, NoMemory>
    ensures what { IfOk result (λ w. w ≡ words.call_what word.now (parts 32 arguments.now)) }
    ensures told { IfOk result (λ w. IfSome w (λ what. calls_told what ≡ true)) }
{
    if word == b"meta".as_slice() {
        meta(alloc, arguments)
    } else if word == b"issue".as_slice() {
        issue(alloc, arguments)
    } else if word == b"refused".as_slice() {
        refused(alloc, arguments)
    } else {
        Ok(None)
    }
}

/// What becomes of a piece, or the answer of a call.
fn piece_what(alloc: Global, word: &[u8], arguments: &[u8]) -> Result<Option<What>, NoMemory>
    ensures what { IfOk result (λ w. w ≡ words.piece_what word.now (parts 32 arguments.now)) }
    ensures told { IfOk result (λ w. IfSome w (λ what. calls_told what ≡ true)) }
{
    if word == b"piece".as_slice() {
        piece(alloc, arguments)
    } else if word == b"answer".as_slice() {
        answered(alloc, arguments)
    } else if word == b"lose".as_slice() {
        Ok(lose(arguments))
    } else {
        Ok(None)
    }
}

/// What is done to a context.
fn context_what(alloc: Global, word: &[u8], arguments: &[u8]) -> Result<Option<What>, NoMemory>
    ensures what { IfOk result (λ w. w ≡ words.context_what word.now (parts 32 arguments.now)) }
    ensures told { IfOk result (λ w. IfSome w (λ what. calls_told what ≡ true)) }
{
    if word == b"open".as_slice() {
        Ok(open(arguments))
    } else if word == b"close".as_slice() {
        close(alloc, arguments)
    } else if word == b"fence".as_slice() {
        Ok(fence(arguments))
    } else if word == b"quiet".as_slice() {
        quiet(alloc, arguments)
    } else if word == b"wait".as_slice() {
        wait(alloc, arguments)
    } else {
        Ok(None)
    }
}

/// What is told by several words.
fn spoken_what(alloc: Global, text: &[u8]) -> Result<Option<What>, NoMemory>
    ensures what { IfOk result (λ w. w ≡ words.spoken_what (parts 32 text.now)) }
    ensures told { IfOk result (λ w. IfSome w (λ what. calls_told what ≡ true)) }
{
    let Some((word, arguments)) = cut(text, b' ') else {
        return Ok(None);
    };
    if let Some(what) = call_what(alloc, word, arguments)? {
        return Ok(Some(what));
    }
    if let Some(what) = piece_what(alloc, word, arguments)? {
        return Ok(Some(what));
    }
    context_what(alloc, word, arguments)
}

/// What the text of an event may say behind the name of its call.
pub fn what(alloc: Global, text: &[u8]) -> Result<Option<What>, NoMemory>
    ensures what { IfOk result (λ w. w ≡ words.what_of (parts 32 text.now)) }
    ensures told { IfOk result (λ w. IfSome w (λ what. calls_told what ≡ true)) }
{
    if let Some(what) = one_what(text) {
        return Ok(Some(what));
    }
    spoken_what(alloc, text)
}
