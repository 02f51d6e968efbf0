//! The results in a report of operations.

ghost use Rattle.std.specs.Prelude.{◌≡◌, IfOk};
ghost use Rattle.fam_script.specs.Reading.{number_of, parts};
ghost use Rattle.report_reader.specs.Reading as words;

use crate::answer::answer;
use crate::cut::{cut, two_words};
use crate::word::number;
use fam_base::{NoMemory, Sequence};
use fam_model::{OpResult, PieceAnswer, Reply};
use std::alloc::Global;

fn result_from(call: &[u8], answer: Option<PieceAnswer>) -> Option<OpResult>
    ensures { result ≡ words.result_from (number_of call.now) answer }
{
    let answer = answer?;
    let call = number(call)?;
    Some(OpResult { call, answer })
}

/// A result, which is one word.
fn result_in(alloc: Global, word: &[u8]) -> Result<Option<OpResult>, NoMemory>
    ensures { IfOk result (λ r. r ≡ words.result_of word.now) }
{
    let Some((call, told)) = two_words(word, b'=') else {
        return Ok(None);
    };
    let answer = answer(alloc, told, b'/')?;
    Ok(result_from(call, answer))
}

/// A result for each word.
fn results_in(alloc: Global, text: &[u8]) -> Result<Option<Sequence<OpResult>>, NoMemory>
    ensures { IfOk result (λ rs. rs ≡ words.results_of (parts 32 text.now)) }
{
    let mut found = Sequence::new(alloc);
    let mut rest = text;
    while let Some((first, others)) = cut(rest, b' ') {
        let Some(told) = result_in(alloc, first)? else {
            return Ok(None);
        };
        found.push(told)?;
        rest = others;
    }
    let Some(told) = result_in(alloc, rest)? else {
        return Ok(None);
    };
    found.push(told)?;
    Ok(Some(found))
}

/// A report of the results, of which there are some.
pub fn some_results(alloc: Global, text: &[u8]) -> Result<Option<Reply>, NoMemory>
    ensures { IfOk result (λ r. r ≡ words.some_results (parts 32 text.now)) }
{
    match results_in(alloc, text)? {
        Some(results) => Ok(Some(Reply::Report(results))),
        None => Ok(None),
    }
}
