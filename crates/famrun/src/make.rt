//! The command `make`: writes the script of a seed.

ghost use Rattle.std.specs.Prelude.{map, string_bytes, codes};
ghost use Rattle.famrun.specs.Making.{MakeEnds, MadeOutcome};

use crate::ending::Ending;
use crate::sim::{tell, write_report};
use crate::wanted::{Wanted, asked_for};
use fam_io::Sink;
use fam_trial::made;
use std::alloc::Global;

/// Writes the script that is asked for.
fn make<K: Sink>(alloc: Global, wanted: Wanted, output: &mut K) -> Ending
    ensures { MakeEnds wanted (K.sink output.old) (K.sink output.new) result }
{
    let text = made(alloc, wanted.seed, wanted.programs, wanted.calls);
    write_report(text, output)
}

/// The command `make SEED PES CALLS`: writes the script that the seed gives, of PES programs, 1 to 64, with CALLS calls each,
/// at most 4,000, drawn at random. It reads no input.
///
/// The status is 0 where the script is written, 2 at other words, 5 where the sink failed and a prefix of the script is
/// written, 9 where memory was wanting.
pub fn make_main<K: Sink>(alloc: Global, words: &[String], output: &mut K) -> u8
    ensures { MadeOutcome (codes "make") MakeEnds (map string_bytes words.now) (K.sink output.old) (K.sink output.new) result }
{
    let Some(wanted) = asked_for(words, "make") else {
        tell(output, b"bad words\n");
        return Ending::BadWords.status();
    };
    make(alloc, wanted, output).status()
}
