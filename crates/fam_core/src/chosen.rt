//! What comes next.

ghost use Rattle.std.specs.Prelude.{◌≡◌, ◌<◌, ◌≤◌, length, map, slice_get};
ghost use Rattle.fam_schedule.specs.Schedule as schedule;
ghost use Rattle.fam_steps.specs.Steps.{event_for};
ghost use Rattle.ready_lists.specs.Views.{name_of};
ghost use Rattle.fam_core.specs.Playing.{actor_of, acting, Chooses, OnStripe};

use crate::actors::Actor;
use crate::playing::Player;
use fam_base::PeId;
use fam_machine::Machine;
use fam_schedule::draw;
use fam_steps::Step;
use rand_core::utils::NextWord;
use rand_pcg::Pcg32;
use ready_lists::PieceAt;

/// What comes next.
#[derive(Drop)]
pub enum Chosen {
    /// The next event of a program.
    Turn(u32),
    /// A piece is moved or lost.
    Move(Step),
}

/// Whether the program has crashed.
fn has_crashed(machine: &Machine, pe: u32) -> bool
    ensures { (name : schedule.PieceName) → name.pe ≡ pe → result ≡ schedule.is_orphan machine.now name }
{
    match machine.program(pe) {
        Some(program) => program.has_crashed(),
        None => false,
    }
}

/// What becomes of a piece that was taken: an odd word loses that of a program that has crashed.
fn take(machine: &Machine, at: PieceAt, words: &mut Pcg32) -> Step
    ensures { schedule.taken machine.now (name_of at) words.old ≡ schedule.with_words words.new (event_for machine.now result) }
{
    let PieceAt { pe, call, piece } = at;
    let orphan = has_crashed(machine, pe);
    let pe = PeId(pe);
    if orphan && words.next_word() % 2 == 1 {
        Step::Lose { pe, call, piece }
    } else {
        Step::Piece { pe, call, piece }
    }
}

/// The step of a stripe: one of its pieces is drawn.
fn stripe_step(player: &Player, stripe: usize, words: &mut Pcg32) -> Option<Step>
    requires { stripe < length player.now.ready }
    ensures { OnStripe player.now stripe words.old words.new result }
{
    let count = player.ready.count(stripe);
    let choice = draw(words, count as u64) as usize;
    if choice >= count {
        return None;
    }
    let piece = player.ready.at(stripe, choice);
    Some(take(player.service.machine(), piece, words))
}

/// The actor at a place.
fn actor_at(actors: &[Actor], at: usize) -> Option<Actor>
    ensures { result ≡ slice_get actors.now at }
{
    actors.get(at).copied()
}

/// What comes next, of what these actors may do.
pub fn choose(player: &Player, actors: &[Actor], words: &mut Pcg32) -> Option<Chosen>
    requires { map actor_of actors.now ≡ acting player.now }
    ensures { Chooses player.now words.old words.new result }
{
    let choice = draw(words, actors.len() as u64);
    match actor_at(actors, choice as usize) {
        Some(Actor::Program(pe)) => Some(Chosen::Turn(pe)),
        Some(Actor::Stripe(stripe)) => match stripe_step(player, stripe, words) {
            Some(step) => Some(Chosen::Move(step)),
            None => None,
        },
        None => None,
    }
}
