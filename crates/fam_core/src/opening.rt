//! A run before its first event.

ghost use Rattle.std.specs.Prelude.{◌≡◌, ◌≤◌, length, map, IfOk};
ghost use Rattle.fam_model.specs.Grammar.{IsLawfulScript};
ghost use Rattle.fam_model.specs.Headline.{opening};
ghost use Rattle.fam_model.specs.Rows.{IsLawful};
ghost use Rattle.fam_core.specs.Playing.{IsOpened, StartAs};

use crate::able::Able;
use crate::playing::Player;
use crate::turn::Turn;
use fam_base::{NoMemory, Sequence, Who};
use fam_model::{Rows, Script};
use fam_steps::Core;
use ready_lists::ReadyLists;
use std::alloc::Global;

/// The users of the programs, in order.
fn users(alloc: Global, script: &Script) -> Result<Vec<Who>, NoMemory>
    ensures { IfOk result (λ whos. whos.items ≡ map (λ program. program.who) script.now.programs) }
{
    let mut whos = Vec::new(alloc);
    for program in script.programs.as_slice() {
        whos.push(program.who)?;
    }
    Ok(whos)
}

/// The programs before their first calls.
fn new_turns(alloc: Global, script: &Script) -> Result<Sequence<Turn>, NoMemory>
    requires { length script.now.programs ≤ 64 }
    ensures { IfOk result (λ turns. StartAs script.now.programs turns) }
{
    let mut turns = Sequence::new(alloc);
    for pe in 0..script.programs.len() {
        turns.push(Turn::new(alloc, script, pe as u32)?)?;
    }
    Ok(turns)
}

impl Player {
    /// The run of a script before its first event, with these rows in the directory.
    pub fn new(alloc: Global, rows: Rows, script: &Script) -> Result<Player, NoMemory>
        requires script { IsLawfulScript script.now }
        requires rows { IsLawful rows }
        ensures { IfOk result (λ player. IsOpened rows script.now player) }
    {
        let whos = users(alloc, script)?;
        let form = script.service;
        let service = Core::new(alloc, form, &whos, rows)?;
        let turns = new_turns(alloc, script)?;
        let stripes = usize::from(form.servers) * usize::from(form.stripes);
        let ready = ReadyLists::new(alloc, stripes)?;
        let able = Able::new(alloc, service.machine(), &turns)?;
        Ok(Player {
            service,
            turns,
            ready,
            able,
        })
    }
}
