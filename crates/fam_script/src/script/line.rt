//! What a line says.

ghost use Rattle.std.specs.Prelude.{◌≡◌, true, IfOk, IfSome};
ghost use Rattle.std.specs.Str.{bytes_eq};
ghost use Rattle.fam_model.specs.Grammar.{is_line};
ghost use Rattle.fam_model.specs.ScriptText.{line_text};
ghost use Rattle.fam_script.specs.Reading as lines;

use crate::printing::{push_line, without_space};
use crate::script::contexts::context_line;
use crate::script::cut::cut;
use crate::script::frames::frame_line;
use crate::script::lawful::is_lawful;
use crate::script::lists::list_line;
use crate::script::moves::move_line;
use crate::script::names::named_line;
use crate::script::slots::slot_line;
use fam_base::NoMemory;
use fam_model::{Call, Line};
use std::alloc::Global;

/// What the text of a line says, if it is the text of a lawful one.
pub fn line(alloc: Global, text: &[u8]) -> Result<Option<Line>, NoMemory>
    ensures line { IfOk result (λ l. l ≡ lines.line_of text.now) }
    ensures lawful { IfOk result (λ l. IfSome l (λ line. is_line line ≡ true)) }
{
    let Some(line) = loose_line(alloc, text)? else {
        return Ok(None);
    };
    if !is_lawful(&line) {
        return Ok(None);
    }
    if is_text_of(alloc, &line, text)? {
        Ok(Some(line))
    } else {
        Ok(None)
    }
}

/// The text is that of the line.
fn is_text_of(alloc: Global, line: &Line, text: &[u8]) -> Result<bool, NoMemory>
    ensures { IfOk result (λ same. same ≡ bytes_eq (line_text line.now) text.now) }
{
    let mut printed = Vec::new(alloc);
    printed.reserve(text.len().saturating_add(1))?;
    push_line(&mut printed, line)?;
    Ok(without_space(printed.as_slice()) == text)
}

/// What the text of a line may say.
fn loose_line(alloc: Global, text: &[u8]) -> Result<Option<Line>, NoMemory>
    ensures { IfOk result (λ l. l ≡ lines.loose_line text.now) }
{
    if let Some(line) = bare_line(text) {
        return Ok(Some(line));
    }
    match cut(text, b' ') {
        None => Ok(None),
        Some((word, arguments)) => spoken_line(alloc, word, arguments),
    }
}

/// A line that is one word.
fn bare_line(text: &[u8]) -> Option<Line>
    ensures { result ≡ lines.bare_line text.now }
{
    if text == b"end".as_slice() {
        Some(Line::End)
    } else if text == b"done".as_slice() {
        Some(Line::Done)
    } else if text == b"stop".as_slice() {
        Some(Line::Stop)
    } else if text == b"barrier".as_slice() {
        Some(Line::One(Call::Barrier))
    } else if text == b"crash".as_slice() {
        Some(Line::One(Call::Crash))
    } else {
        None
    }
}

/// A line of a first word and others.
fn spoken_line(alloc: Global, word: &[u8], arguments: &[u8]) -> Result<Option<Line>, NoMemory>
    ensures { IfOk result (λ l. l ≡ lines.spoken_line word.now (lines.parts 32 arguments.now)) }
{
    if let Some(line) = short_line(word, arguments) {
        return Ok(Some(line));
    }
    if let Some(line) = named_line(alloc, word, arguments)? {
        return Ok(Some(line));
    }
    list_line(alloc, word, arguments)
}

/// One with no list and no name.
fn short_line(word: &[u8], arguments: &[u8]) -> Option<Line>
    ensures { result ≡ lines.short_line word.now (lines.parts 32 arguments.now) }
{
    if let Some(line) = frame_line(word, arguments) {
        return Some(line);
    }
    if let Some(line) = slot_line(word, arguments) {
        return Some(line);
    }
    if let Some(line) = context_line(word, arguments) {
        return Some(line);
    }
    move_line(word, arguments)
}
