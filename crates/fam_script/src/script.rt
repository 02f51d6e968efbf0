//! Scripts: which bytes are one, and what it asks.

ghost use Rattle.std.specs.Prelude.{◌≡◌, ℕ, IfOk, Err};
ghost use Rattle.fam_model.specs.Grammar.{IsScript};
ghost use Rattle.fam_script.specs.BadLine.{IsBadLine};
ghost use Rattle.fam_script.specs.Lines.{IsLineOf};

use fam_base::NoMemory;
use fam_model::{Line, Script};
use line::line;
use read::read;
use std::alloc::Global;
use thiserror::Error;

mod contexts;
pub mod cut;
mod frames;
mod lawful;
mod line;
mod lists;
mod moves;
mod names;
mod read;
mod reading;
mod slots;
mod table;
mod unfinished;
pub mod word;

pub use word::number;

/// Why bytes are no script. A bad line is told by its number, the first line having number 1.
#[derive(Clone, Copy, Debug, PartialEq, Eq, Error)]
pub enum ScriptFault {
    #[error("Memory")]
    Memory,
    #[error("bad line {0}")]
    BadLine(u64),
}

impl From<NoMemory> for ScriptFault {
    ghost use Rattle.fam_script.specs.declared.script.ScriptFault.{ScriptFault};

    ghost from_gives = { λ _ fault. fault ≡ ScriptFault.Memory };

    fn from(_: NoMemory) -> ScriptFault {
        ScriptFault::Memory
    }
}

/// The script that the bytes are. The bad line is the first one with which no script goes on; where lines
/// are missing, it is the line behind the last one.
pub fn parse(alloc: Global, bytes: &[u8]) -> Result<Script, ScriptFault>
    ensures script { IfOk result (λ s. IsScript bytes.now s) }
    ensures bad_line { (n : ℕ) → result ≡ Err (ScriptFault.BadLine n) → IsBadLine bytes.now n }
{
    read(alloc, bytes)
}

/// The line of a script that the text is, without its line feed; none where it is the text of no lawful line.
pub fn parse_line(alloc: Global, text: &[u8]) -> Result<Option<Line>, NoMemory>
    ensures { IfOk result (IsLineOf text.now) }
{
    line(alloc, text)
}

#[cfg(test)]
mod tests;
#[cfg(test)]
mod word_tests;
