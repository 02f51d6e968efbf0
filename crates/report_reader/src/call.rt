//! The text of a call, which stands in front of other words.

ghost use Rattle.std.specs.Prelude.{◌≡◌, ℕ, List, ◌++◌, ◌∷◌, ◌≤◌, [], drop, take, true, None, Some, IfOk, IfSome, MatchOption};
ghost use Rattle.std.specs.List.{flat_map};
ghost use Rattle.fam_model.specs.Grammar.{is_line};
ghost use Rattle.fam_model.specs.Words.{words_text};
ghost use Rattle.fam_script.specs.Reading.{parts};
ghost use Rattle.report_reader.specs.EventForm.{is_call_told};
ghost use Rattle.report_reader.specs.Reading as words;

use crate::cut::cut;
use fam_base::NoMemory;
use fam_model::{Call, Line};
use fam_script::parse_line;
use std::alloc::Global;

/// The call that a line of a program is.
fn one_call(line: Line) -> Option<Call>
    requires { is_line line ≡ true }
    ensures call { result ≡ words.call_on line }
    ensures told { IfSome result (λ asked. is_call_told asked ≡ true) }
{
    match line {
        Line::One(call) => Some(call),
        _ => None,
    }
}

/// The call whose text this is.
fn call(alloc: Global, text: &[u8]) -> Result<Option<Call>, NoMemory>
    ensures call { IfOk result (λ c. c ≡ words.call_of text.now) }
    ensures told { IfOk result (λ c. IfSome c (λ asked. is_call_told asked ≡ true)) }
{
    match parse_line(alloc, text)? {
        Some(line) => Ok(one_call(line)),
        None => Ok(None),
    }
}

fn is_one_word(word: &[u8]) -> bool
    ensures { result ≡ words.is_one_word word.now }
{
    word == b"barrier".as_slice() || word == b"crash".as_slice()
}

fn is_two_words(word: &[u8]) -> bool
    ensures { result ≡ words.is_two_words word.now }
{
    word == b"destroy".as_slice()
        || word == b"stat-region".as_slice()
        || word == b"dealloc".as_slice()
        || word == b"stat".as_slice()
        || word == b"open".as_slice()
        || word == b"close".as_slice()
        || word == b"fence".as_slice()
        || word == b"quiet".as_slice()
}

fn is_three_words(word: &[u8]) -> bool
    ensures { result ≡ words.is_three_words word.now }
{
    word == b"resize".as_slice()
        || word == b"chmod-region".as_slice()
        || word == b"chmod".as_slice()
        || word == b"lookup-region".as_slice()
        || word == b"copy-wait".as_slice()
}

fn is_five_words(word: &[u8]) -> bool
    ensures { result ≡ words.is_five_words word.now }
{
    word == b"region".as_slice()
        || word == b"get".as_slice()
        || word == b"get-nb".as_slice()
        || word == b"put".as_slice()
        || word == b"put-nb".as_slice()
        || word == b"gather-index".as_slice()
        || word == b"gather-index-nb".as_slice()
}

fn is_six_words(word: &[u8]) -> bool
    ensures { result ≡ words.is_six_words word.now }
{
    word == b"alloc".as_slice()
        || word == b"scatter-index".as_slice()
        || word == b"scatter-index-nb".as_slice()
}

fn is_seven_words(word: &[u8]) -> bool
    ensures { result ≡ words.is_seven_words word.now }
{
    word == b"gather".as_slice() || word == b"gather-nb".as_slice() || word == b"copy".as_slice()
}

fn is_eight_words(word: &[u8]) -> bool
    ensures { result ≡ words.is_eight_words word.now }
{
    word == b"scatter".as_slice() || word == b"scatter-nb".as_slice()
}

/// How many words a statement has that begins with this one.
fn verb_size(word: &[u8]) -> usize
    ensures { result ≡ words.verb_size word.now }
{
    if is_one_word(word) {
        1
    } else if is_two_words(word) {
        2
    } else if is_three_words(word) {
        3
    } else if word == b"lookup".as_slice() {
        4
    } else if is_five_words(word) {
        5
    } else if is_six_words(word) {
        6
    } else if is_seven_words(word) {
        7
    } else if is_eight_words(word) {
        8
    } else {
        0
    }
}

/// How many words an atomic of this operation has.
fn op_size(op: &[u8]) -> usize
    ensures { result ≡ words.op_size op.now }
{
    if op == b"fetch".as_slice() {
        6
    } else if op == b"cas".as_slice() {
        8
    } else {
        7
    }
}

/// The first word.
pub fn first_word(text: &[u8]) -> &[u8]
    ensures { words.first_of (parts 32 text.now) ≡ result.now }
{
    match cut(text, b' ') {
        None => text,
        Some((word, _)) => word,
    }
}

/// What stands behind so many words.
fn behind(text: &[u8], count: usize) -> Option<&[u8]>
    ensures { MatchOption result (drop count (parts 32 text.now) ≡ [])
        (λ rest. (parts 32 rest.now ≡ drop count (parts 32 text.now))
        × (text.now ≡ flat_map (λ word. word ++ 32 ∷ []) (take count (parts 32 text.now)) ++ rest.now)) }
{
    let mut rest = text;
    for _ in 0..count {
        let Some((_, others)) = cut(rest, b' ') else {
            return None;
        };
        rest = others;
    }
    Some(rest)
}

/// What stands in front of a rest and the byte before it.
fn in_front<'a>(text: &'a [u8], rest: &[u8]) -> &'a [u8]
    ensures { (front : List ℕ) → text.now ≡ front ++ 32 ∷ rest.now → result.now ≡ front }
{
    let length = text.len().saturating_sub(rest.len());
    &text[..length.saturating_sub(1)]
}

/// The text of so many words, and what stands behind it.
fn cut_behind(text: &[u8], count: usize) -> Option<(&[u8], &[u8])>
    requires { 1 ≤ count }
    ensures { MatchOption result (drop count (parts 32 text.now) ≡ [])
        (λ p. (parts 32 p.1.now ≡ drop count (parts 32 text.now))
        × (p.0.now ≡ words_text (take count (parts 32 text.now)))) }
{
    let Some(rest) = behind(text, count) else {
        return None;
    };
    Some((in_front(text, rest), rest))
}

/// How many words an atomic has, of which these are the words behind its first one.
fn atomic_size(arguments: &[u8]) -> usize
    ensures { result ≡ words.op_size (words.first_of (drop 4 (parts 32 arguments.now))) }
{
    match behind(arguments, 4) {
        None => 7,
        Some(rest) => op_size(first_word(rest)),
    }
}

/// How many words a statement of one word has.
fn bare_size(word: &[u8]) -> usize
    ensures { result ≡ words.call_size (word.now ∷ []) }
{
    if word == b"atomic".as_slice() {
        7
    } else {
        verb_size(word)
    }
}

/// How many words the statement in front has.
fn call_size(text: &[u8]) -> usize
    ensures { result ≡ words.call_size (parts 32 text.now) }
{
    match cut(text, b' ') {
        None => bare_size(text),
        Some((word, arguments)) => {
            if word == b"atomic".as_slice() {
                atomic_size(arguments)
            } else {
                verb_size(word)
            }
        }
    }
}

/// What stands behind the first word.
pub fn behind_word(text: &[u8]) -> Option<&[u8]>
    ensures { MatchOption result (words.behind_colon (parts 32 text.now) ≡ [])
        (λ rest. words.behind_colon (parts 32 text.now) ≡ parts 32 rest.now) }
{
    let (_, rest) = cut(text, b' ')?;
    Some(rest)
}

/// The call in front, and what stands behind the colon.
pub fn call_in_front(alloc: Global, text: &[u8]) -> Result<Option<(Call, &[u8])>, NoMemory>
    ensures front { IfOk result (λ front. MatchOption front
        (words.call_in_front (parts 32 text.now) ≡ None)
        (λ p. words.call_in_front (parts 32 text.now) ≡ Some (p.0, parts 32 p.1.now))) }
    ensures told { IfOk result (λ front. IfSome front (λ p. is_call_told p.0 ≡ true)) }
{
    let count = call_size(text);
    if count == 0 {
        return Ok(None);
    }
    let Some((asked, behind)) = cut_behind(text, count) else {
        return Ok(None);
    };
    let Some(given) = behind_word(behind) else {
        return Ok(None);
    };
    match call(alloc, asked)? {
        Some(call) => Ok(Some((call, given))),
        None => Ok(None),
    }
}
