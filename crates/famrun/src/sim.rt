//! The command `sim`: reads a script, plays it on one thread, and reports its history.

ghost use Rattle.std.specs.Prelude.{◌≡◌, ◌+◌, map, string_bytes, codes, IfOk, IfErr, MatchOption};
ghost use Rattle.fam_io.specs.State.{MovesUpTo};
ghost use Rattle.famrun.specs.Ending.{input_limit, HasSeed, IsSim, IsTold, ReadsScript, SimEnds, SimOutcome, Tells, Unread, Writes};

use crate::ending::Ending;
use crate::playing::{Played, play_script};
use crate::reading::{read_input, script_of};
use fam_base::NoMemory;
use fam_disk::Disk;
use fam_io::{Sink, Source, write_all};
use fam_model::{Event, Script};
use fam_script::number_in;
use std::alloc::Global;

/// What a command leaves: the status of its process, the history of its run, and the disk.
#[derive(Drop)]
pub struct Outcome<D: Disk> {
    /// 0 where all went well.
    pub status: u8,
    /// The run, or the run so far; empty where nothing ran.
    pub history: Vec<Event>,
    /// The disk, with its journal.
    pub disk: D,
}

/// The seed, where the words are those of `sim`.
fn seed_of(words: &[String]) -> Option<u64>
    ensures { MatchOption result (¬ IsSim (map string_bytes words.now)) (HasSeed (map string_bytes words.now)) }
{
    match words {
        [name, seed] if name.as_str() == "sim" => number_in(seed.as_bytes()),
        _ => None,
    }
}

/// Writes a line. That it could not be written changes nothing else.
pub fn tell<K: Sink>(output: &mut K, line: &[u8])
    ensures { Tells (K.sink output.old) (K.sink output.new) line.now }
{
    let _ = write_all(output, line);
}

/// Reads a script, to the end of input.
fn read_script<S: Source>(alloc: Global, input: &mut S) -> Result<Script, Ending>
    ensures script { IfOk result (λ script. ReadsScript (S.source input.old) (S.source input.new) script) }
    ensures ending { IfErr result (λ ending. Unread (S.source input.old) (S.source input.new) ending) }
    ensures most { MovesUpTo (S.source input.old) (S.source input.new) (input_limit + 1) }
{
    let bytes = read_input(alloc, input)?;
    script_of(alloc, &bytes)
}

/// Tells why no script was read. Where there is no memory for the line, that is told.
pub fn tell_unread<K: Sink>(alloc: Global, output: &mut K, ending: Ending) -> Ending
    ensures { IsTold ending (K.sink output.old) (K.sink output.new) result }
{
    match ending {
        Ending::BadLine(n) => tell_bad_line(alloc, output, n),
        Ending::ReadFault => {
            tell(output, b"read fault\n");
            Ending::ReadFault
        }
        Ending::TooLong => {
            tell(output, b"too long\n");
            Ending::TooLong
        }
        _ => tell_no_memory(output),
    }
}

fn tell_bad_line<K: Sink>(alloc: Global, output: &mut K, n: u64) -> Ending
    ensures { IsTold (Ending.BadLine n) (K.sink output.old) (K.sink output.new) result }
{
    match format!(in alloc; "bad line {n}\n") {
        Ok(line) => {
            tell(output, line.as_bytes());
            Ending::BadLine(n)
        }
        Err(_) => tell_no_memory(output),
    }
}

pub fn tell_no_memory<K: Sink>(output: &mut K) -> Ending
    ensures ending { result ≡ Ending.NoMemory }
    ensures told { Tells (K.sink output.old) (K.sink output.new) (codes "no memory\n") }
{
    tell(output, b"no memory\n");
    Ending::NoMemory
}

/// Writes a text that was made, if memory was there for it.
pub fn write_report<K: Sink>(text: Result<Vec<u8>, NoMemory>, output: &mut K) -> Ending
    ensures { Writes text (K.sink output.old) (K.sink output.new) result }
{
    match text {
        Ok(text) => match write_all(output, &text) {
            Ok(()) => Ending::Told,
            Err(_) => Ending::WriteFault,
        },
        Err(NoMemory) => tell_no_memory(output),
    }
}

/// Simulates what the source has left.
fn simulate_source<S: Source, K: Sink, D: Disk>(
    alloc: Global,
    seed: u64,
    input: &mut S,
    output: &mut K,
    disk: D,
) -> Played<D>
    ensures ends { SimEnds D.state seed (S.source input.old) (S.source input.new) (K.sink output.old) (K.sink output.new)
        disk result.disk result.history.items result.ending }
    ensures most { MovesUpTo (S.source input.old) (S.source input.new) (input_limit + 1) }
{
    match read_script(alloc, input) {
        Ok(script) => play_script(alloc, &script, seed, output, disk),
        Err(ending) => Played {
            ending: tell_unread(alloc, output, ending),
            history: Vec::new(alloc),
            disk,
        },
    }
}

/// The command `sim SEED`: reads a script from the source, opens the journal of the disk, plays the script's programs side by
/// side in the order that the seed draws, and writes the report of the history. The regions and items that the journal has are
/// there from the start, with zero bytes. Each change of the directory is on the disk before it is served.
///
/// The history is one legal run of the memory machine that follows the script, and the one that the schedule gives for the
/// seed, but for changes that the disk refused; also where a write failed or memory was wanting: it is then the run so far.
///
/// The status is 0 where the report is written, and else tells why not, with a line on the output: 2 other words than
/// those of `sim`, 3 the input is no script, 4 the source failed, 6 the disk failed while the journal was opened, 7 the journal
/// is damaged, 9 memory was wanting, 10 the input has more than 16,777,216 bytes. At 5 the sink failed, and a prefix of the
/// report is written. At 2, 3, 4, 6, 7 and 10 nothing was played, at 2, 3, 4 and 10 the disk is as it was, and at 2 nothing was
/// read.
pub fn sim_main<S: Source, K: Sink, D: Disk>(
    alloc: Global,
    words: &[String],
    input: &mut S,
    output: &mut K,
    disk: D,
) -> Outcome<D>
    ensures { SimOutcome D.state (map string_bytes words.now) (S.source input.old) (S.source input.new)
        (K.sink output.old) (K.sink output.new) disk result.disk result.status result.history.items }
{
    let Some(seed) = seed_of(words) else {
        tell(output, b"bad words\n");
        return Outcome {
            status: Ending::BadWords.status(),
            history: Vec::new(alloc),
            disk,
        };
    };
    let Played {
        ending,
        history,
        disk,
    } = simulate_source(alloc, seed, input, output, disk);
    Outcome {
        status: ending.status(),
        history,
        disk,
    }
}
