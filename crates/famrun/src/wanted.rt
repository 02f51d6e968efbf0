//! The words of `make` and of `trial`.

ghost use Rattle.std.specs.Prelude.{◌≡◌, map, string_bytes, MatchOption};
ghost use Rattle.famrun.specs.Making.{HasMade, IsMade, wanted_in};

use fam_script::number_in;

/// What script is asked for: made from a seed, with so many programs of so many calls.
#[derive(Clone, Copy, Debug, PartialEq, Eq)]
pub struct Wanted {
    pub seed: u64,
    pub programs: u8,
    pub calls: u32,
}

/// The script that is asked for, where the numbers are in range.
fn in_range(seed: Option<u64>, programs: Option<u64>, calls: Option<u64>) -> Option<Wanted>
    ensures { result ≡ wanted_in seed programs calls }
{
    let seed = seed?;
    let programs = programs?;
    let calls = calls?;
    if programs < 1 || programs > 64 || calls > 4000 {
        return None;
    }
    Some(Wanted {
        seed,
        programs: programs as u8,
        calls: calls as u32,
    })
}

/// The script that is asked for, where the words are those of this command.
pub fn asked_for(words: &[String], name: &str) -> Option<Wanted>
    ensures { MatchOption result (¬ IsMade name.now (map string_bytes words.now)) (HasMade name.now (map string_bytes words.now)) }
{
    match words {
        [first, seed, programs, calls] if first.as_str() == name => in_range(
            number_in(seed.as_bytes()),
            number_in(programs.as_bytes()),
            number_in(calls.as_bytes()),
        ),
        _ => None,
    }
}
