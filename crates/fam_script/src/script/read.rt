//! Reading line by line.

ghost use Rattle.std.specs.Prelude.{◌≡◌, ℕ, IfOk, Ok, Err, MatchOption, Some, None};
ghost use Rattle.fam_script.specs.Parsing.{parse_of, step_text};
ghost use Rattle.fam_script.specs.Views.{view_reading};

use crate::script::ScriptFault;
use crate::script::cut::cut;
use crate::script::line::line;
use crate::script::reading::{Reading, finish, step};
use fam_base::NoMemory;
use fam_model::Script;
use std::alloc::Global;

/// The script of the bytes, or the number of its bad line.
pub fn read(alloc: Global, bytes: &[u8]) -> Result<Script, ScriptFault>
    ensures script { IfOk result (λ s. parse_of bytes.now ≡ Ok s) }
    ensures bad_line { (n : ℕ) → result ≡ Err (ScriptFault.BadLine n) → parse_of bytes.now ≡ Err n }
{
    let length = bytes.len();
    let mut rest = bytes;
    let mut lines = 0;
    let mut reading = Reading::Nothing;
    while let Some((text, others)) = cut(rest, b'\n') {
        lines += 1;
        rest = others;
        reading = match next_reading(alloc, reading, text)? {
            Some(next) => next,
            None => return Err(ScriptFault::BadLine(lines)),
        };
    }
    match finish(reading, lines, rest) {
        Some(script) => Ok(script),
        None => Err(ScriptFault::BadLine(lines + 1)),
    }
}

/// The reading after the text of one more line.
fn next_reading(alloc: Global, reading: Reading, text: &[u8]) -> Result<Option<Reading>, NoMemory>
    ensures { IfOk result (λ next. MatchOption next (step_text (view_reading reading) text.now ≡ None)
        (λ now. step_text (view_reading reading) text.now ≡ Some (view_reading now))) }
{
    match line(alloc, text)? {
        Some(line) => step(alloc, reading, line),
        None => Ok(None),
    }
}
