//! The order of events on one thread, drawn by a seed. `specs/Schedule.antt` says which event comes next; the code here is its draws.

#![tactic(auto)]

mod laws;

ghost use Rattle.std.specs.Prelude.{◌≡◌};
ghost use Rattle.fam_schedule.specs.Schedule as schedule;

pub use laws::{
    contexts_reply, crashes_happen, fences_order, pieces_come_in_any_order,
    scheduled_histories_are_runs, stops_where_nobody_may_act, unrefused_events_are_due,
    whole_runs_have_ended,
};
use rand_core::utils::NextWord;
use rand_pcg::Pcg32;

/// The stream of words that a schedule draws from.
const STREAM: u64 = 54;

/// The words of a seed.
pub fn words_of(seed: u64) -> Pcg32
    ensures { result ≡ schedule.words_of seed }
{
    Pcg32::new(seed, STREAM)
}

/// A number below `n`. Where there is no choice, no word is drawn, and it is 0.
pub fn draw(words: &mut Pcg32, n: u64) -> u64
    ensures { (result, words.new) ≡ schedule.drawn n words.old }
{
    if n <= 1 {
        0
    } else {
        u64::from(words.next_word()) % n
    }
}

#[cfg(test)]
mod tests {
    use super::{draw, words_of};
    use rand_core::utils::NextWord;

    #[test]
    fn gives_the_words_of_the_seed_42(rt: HostRuntime) {
        let mut words = words_of(42);
        for want in [
            0xa15c_02b7u32,
            0x7b47_f409,
            0xba1d_3330,
            0x83d2_f293,
            0xbfa4_784b,
            0xcbed_606e,
        ] {
            assert_eq!(rt; words.next_word(), want);
        }
    }

    #[test]
    fn draws_where_there_is_a_choice(rt: HostRuntime) {
        let mut words = words_of(42);
        assert_eq!(rt; draw(&mut words, 0), 0);
        assert_eq!(rt; draw(&mut words, 1), 0);
        assert_eq!(rt; draw(&mut words, 1000), u64::from(0xa15c_02b7u32 % 1000));
        assert_eq!(rt; words.next_word(), 0x7b47_f409u32);
    }
}
