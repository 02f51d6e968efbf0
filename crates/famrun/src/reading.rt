//! The input of a command.

ghost use Rattle.std.specs.Prelude.{◌+◌, IfOk, IfErr};
ghost use Rattle.fam_io.specs.State.{MovesUpTo};
ghost use Rattle.fam_model.specs.Grammar.{IsScript};
ghost use Rattle.famrun.specs.Ending.{input_limit, NotRead, NotScript, ReadsInput};

use crate::ending::Ending;
use fam_io::{ReadFault, Source, read_all};
use fam_model::Script;
use fam_script::{ScriptFault, parse};
use std::alloc::Global;

/// The most bytes that an input may have.
const INPUT_LIMIT: usize = 16_777_216;

/// Reads an input to its end.
pub fn read_input<S: Source>(alloc: Global, input: &mut S) -> Result<Vec<u8>, Ending>
    ensures bytes { IfOk result (λ bytes. ReadsInput (S.source input.old) (S.source input.new) bytes.items) }
    ensures ending { IfErr result (λ ending. NotRead (S.source input.old) (S.source input.new) ending) }
    ensures most { MovesUpTo (S.source input.old) (S.source input.new) (input_limit + 1) }
{
    match read_all(alloc, input, INPUT_LIMIT) {
        Ok(bytes) => Ok(bytes),
        Err(ReadFault::Memory) => Err(Ending::NoMemory),
        Err(ReadFault::Failed) => Err(Ending::ReadFault),
        Err(ReadFault::TooLong) => Err(Ending::TooLong),
    }
}

/// The script that the bytes are, or why there is none.
pub fn script_of(alloc: Global, bytes: &[u8]) -> Result<Script, Ending>
    ensures script { IfOk result (IsScript bytes.now) }
    ensures ending { IfErr result (NotScript bytes.now) }
{
    match parse(alloc, bytes) {
        Ok(script) => Ok(script),
        Err(ScriptFault::BadLine(n)) => Err(Ending::BadLine(n)),
        Err(ScriptFault::Memory) => Err(Ending::NoMemory),
    }
}
