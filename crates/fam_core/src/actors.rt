//! Who may act.

ghost use Rattle.std.specs.Prelude.{◌≡◌, ◌≤◌, ◌++◌, filter, length, map, OnOk};
ghost use Rattle.fam_model.specs.Lists.{numbers_below};
ghost use Rattle.fam_schedule.specs.Schedule as schedule;
ghost use Rattle.ready_lists.specs.Lists.{busy_stripes};
ghost use Rattle.fam_core.specs.Playing.{actor_of, acting, may_go, HasFlags};

use crate::playing::Player;
use fam_base::NoMemory;
use ready_lists::ReadyLists;

/// A program, or a stripe.
#[derive(Clone, Copy, Drop)]
pub enum Actor {
    Program(u32),
    Stripe(usize),
}

/// Lists the programs that may act, in order, behind what is listed.
fn list_programs(player: &Player, actors: &mut Vec<Actor>) -> Result<(), NoMemory>
    requires few { length player.now.turns ≤ 64 }
    requires flags { HasFlags player.now }
    ensures { OnOk result (map actor_of actors.new.items ≡
        map actor_of actors.old.items ++ map schedule.Program (filter (may_go player.now) (numbers_below (length player.now.turns)))) }
{
    let flags = &player.able.flags;
    for pe in 0..flags.len() {
        if *flags.at(pe) {
            actors.push(Actor::Program(pe as u32))?;
        }
    }
    Ok(())
}

/// Lists the stripes with a piece that may come, in order, behind what is listed.
fn list_stripes(ready: &ReadyLists, actors: &mut Vec<Actor>) -> Result<(), NoMemory>
    ensures { OnOk result (map actor_of actors.new.items ≡ map actor_of actors.old.items ++ map schedule.Stripe (busy_stripes ready.now)) }
{
    for stripe in 0..ready.stripes() {
        if ready.count(stripe) > 0 {
            actors.push(Actor::Stripe(stripe))?;
        }
    }
    Ok(())
}

/// Lists who may act in place of what is listed: the programs in order, and then the stripes in order.
pub fn list_actors(player: &Player, actors: &mut Vec<Actor>) -> Result<(), NoMemory>
    requires few { length player.now.turns ≤ 64 }
    requires flags { HasFlags player.now }
    ensures { OnOk result (map actor_of actors.new.items ≡ acting player.now) }
{
    actors.clear();
    list_programs(player, actors)?;
    list_stripes(&player.ready, actors)
}
