//! The words of the program.

ghost use Rattle.std.specs.Prelude.{◌≡◌, ◌↔◌, ◌∷◌, [], ◌≢◌, map, string_bytes, codes, IsTrue};
ghost use Rattle.fam_io.specs.State.{no_source};
ghost use Rattle.famrun.specs.Commands.{Audits, BeginsWith, MakesScript};
ghost use Rattle.famrun.specs.Ending.{IsSim, SimOutcome, TellsText};
ghost use Rattle.famrun.specs.Making.{MakeEnds, TrialEnds};

use crate::audit::audit_main;
use crate::ending::Ending;
use crate::make::make_main;
use crate::sim::{Outcome, sim_main};
use crate::trial::trial_main;
use fam_disk::Disk;
use fam_io::{Sink, Source, write_all};
use std::alloc::Global;

/// What `--help` tells.
pub const HELP: &str = "famrun: a shared memory service, played and proved

usage:
  famrun sim SEED                read a script, play it, and write the report of its run
  famrun audit                   read a script and its report, and tell whether the report is legal
  famrun make SEED PES CALLS     write the script of a seed: PES programs, CALLS calls each
  famrun trial SEED PES CALLS    play that script, and tell how it went in a line
  famrun --help                  this text
  famrun --version               the version

SEED is a number below 2^64, PES 1 to 64, CALLS 0 to 4000, in decimal digits.
The script of sim comes on standard input, and for audit the script with its report behind it.
The regions and items that sim makes are kept in the file fam.journal of the current folder.
";

/// What `--version` tells.
pub const VERSION: &str = "famrun 0.1.0
";

/// The program's commands, by their words: `audit`, `make` and `trial` go by `audit_main`, `make_main` and `trial_main`, and
/// what else there is by `sim_main`. `--help` and `--version` write a text and read nothing; their status is 0, or 5 where the
/// sink failed and a prefix of the text is written.
pub fn fam_main<S: Source, K: Sink, D: Disk>(
    alloc: Global,
    words: &[String],
    input: &mut S,
    output: &mut K,
    disk: D,
) -> Outcome<D>
    ensures help { map string_bytes words.now ≡ codes "--help" ∷ [] →
        TellsText (S.source input.old) (S.source input.new) (K.sink output.old) (K.sink output.new)
        result.status result.history.items HELP.now }
    ensures version { map string_bytes words.now ≡ codes "--version" ∷ [] →
        TellsText (S.source input.old) (S.source input.new) (K.sink output.old) (K.sink output.new)
        result.status result.history.items VERSION.now }
    ensures audit { BeginsWith (codes "audit") (map string_bytes words.now) →
        Audits (map string_bytes words.now) (S.source input.old) (S.source input.new)
        (K.sink output.old) (K.sink output.new) result.status result.history.items }
    ensures make { BeginsWith (codes "make") (map string_bytes words.now) →
        MakesScript (codes "make") MakeEnds (map string_bytes words.now) (S.source input.old) (S.source input.new)
        (K.sink output.old) (K.sink output.new) result.status result.history.items }
    ensures trial { BeginsWith (codes "trial") (map string_bytes words.now) →
        MakesScript (codes "trial") TrialEnds (map string_bytes words.now) (S.source input.old) (S.source input.new)
        (K.sink output.old) (K.sink output.new) result.status result.history.items }
    ensures sim { map string_bytes words.now ≢ codes "--help" ∷ [] → map string_bytes words.now ≢ codes "--version" ∷ [] →
        ¬ BeginsWith (codes "audit") (map string_bytes words.now) →
        ¬ BeginsWith (codes "make") (map string_bytes words.now) → ¬ BeginsWith (codes "trial") (map string_bytes words.now) →
        SimOutcome D.state (map string_bytes words.now) (S.source input.old) (S.source input.new)
        (K.sink output.old) (K.sink output.new) disk result.disk result.status result.history.items }
    ensures disk { ¬ IsSim (map string_bytes words.now) → result.disk ≡ disk }
{
    if is_word(words, "--help") {
        tell_text(alloc, output, HELP, disk)
    } else if is_word(words, "--version") {
        tell_text(alloc, output, VERSION, disk)
    } else if begins_with(words, "audit") {
        without_history(alloc, audit_main(alloc, words, input, output), disk)
    } else if begins_with(words, "make") {
        without_history(alloc, make_main(alloc, words, output), disk)
    } else if begins_with(words, "trial") {
        without_history(alloc, trial_main(alloc, words, output), disk)
    } else {
        sim_main(alloc, words, input, output, disk)
    }
}

/// The outcome of a command that plays nothing of the input.
fn without_history<D: Disk>(alloc: Global, status: u8, disk: D) -> Outcome<D>
    ensures status { result.status ≡ status }
    ensures history { result.history.items ≡ [] }
    ensures disk { result.disk ≡ disk }
{
    Outcome {
        status,
        history: Vec::new(alloc),
        disk,
    }
}

/// Whether this is the first of the words.
fn begins_with(words: &[String], word: &str) -> bool
    ensures { IsTrue result ↔ BeginsWith word.now (map string_bytes words.now) }
{
    match words {
        [first, ..] => first.as_str() == word,
        [] => false,
    }
}

/// Whether the words are this one alone.
fn is_word(words: &[String], word: &str) -> bool
    ensures { IsTrue result ↔ (map string_bytes words.now ≡ word.now ∷ []) }
{
    match words {
        [only] => only.as_str() == word,
        _ => false,
    }
}

/// Writes a text.
fn tell_text<K: Sink, D: Disk>(alloc: Global, output: &mut K, text: &str, disk: D) -> Outcome<D>
    ensures text { TellsText no_source no_source (K.sink output.old) (K.sink output.new)
        result.status result.history.items text.now }
    ensures disk { result.disk ≡ disk }
{
    let ending = match write_all(output, text.as_bytes()) {
        Ok(()) => Ending::Told,
        Err(_) => Ending::WriteFault,
    };
    Outcome {
        status: ending.status(),
        history: Vec::new(alloc),
        disk,
    }
}
