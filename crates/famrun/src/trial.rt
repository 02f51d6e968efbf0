//! The command `trial`: plays the script of a seed, and tells how that went in a line.

ghost use Rattle.std.specs.Prelude.{map, string_bytes, codes, IfOk};
ghost use Rattle.famrun.specs.Making.{IsInRange, IsTrial, MadeOutcome, TrialEnds};

use crate::ending::Ending;
use crate::sim::{tell, write_report};
use crate::wanted::{Wanted, asked_for};
use fam_base::NoMemory;
use fam_core::play_script;
use fam_disk::MemDisk;
use fam_io::Sink;
use fam_keeper::Keeper;
use fam_rows::common_rows;
use fam_trial::{made_script, trial_line};
use std::alloc::Global;

/// The line of a run of the script that is asked for.
fn line(alloc: Global, wanted: Wanted) -> Result<Vec<u8>, NoMemory>
    requires { IsInRange wanted }
    ensures { IfOk result (λ line. IsTrial wanted line.items) }
{
    let script = made_script(alloc, wanted.seed, wanted.programs, wanted.calls)?;
    let rows = common_rows(alloc)?;
    let mut keeper = Keeper::<MemDisk>::nothing();
    let played = play_script(alloc, rows, &script, wanted.seed, &mut keeper)?;
    if !played.whole {
        return Err(NoMemory);
    }
    trial_line(
        alloc,
        wanted.seed,
        wanted.programs,
        wanted.calls,
        played.service.history(),
        &played.replies,
        played.service.machine(),
    )
}

/// Plays the script that is asked for, and writes the line.
fn try_out<K: Sink>(alloc: Global, wanted: Wanted, output: &mut K) -> Ending
    requires { IsInRange wanted }
    ensures { TrialEnds wanted (K.sink output.old) (K.sink output.new) result }
{
    let text = line(alloc, wanted);
    write_report(text, output)
}

/// The command `trial SEED PES CALLS`: makes the script that `make` writes for these words, plays it in the order that the
/// seed draws, and writes one line: how many events there were, how many calls were served and refused, and a sum over all
/// bytes at the end. It reads no input.
///
/// The status is 0 where the line is written, 2 at other words, 5 where the sink failed and a prefix of the line is written, 9
/// where memory was wanting.
pub fn trial_main<K: Sink>(alloc: Global, words: &[String], output: &mut K) -> u8
    ensures { MadeOutcome (codes "trial") TrialEnds (map string_bytes words.now) (K.sink output.old) (K.sink output.new) result }
{
    let Some(wanted) = asked_for(words, "trial") else {
        tell(output, b"bad words\n");
        return Ending::BadWords.status();
    };
    try_out(alloc, wanted, output).status()
}
