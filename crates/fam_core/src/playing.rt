//! A run between two events.

ghost use Rattle.std.specs.Prelude.{◌≡◌, ◌≤◌, length, IfOk, OnOk};
ghost use Rattle.fam_keeper.specs.Keeping.{Keeps};
ghost use Rattle.fam_steps.specs.Crash.{KeepsOn};
ghost use Rattle.fam_steps.specs.Steps as steps;
ghost use Rattle.fam_core.specs.Playing.{Acts, asked_by, Follows, IsMade, LetsKnow};
ghost use Rattle.fam_core.specs.Turns.{AreHeard};

use crate::able::Able;
use crate::chosen::Chosen;
use crate::turn::{Turn, told};
use fam_base::{NoMemory, PeId, Sequence};
use fam_disk::Disk;
use fam_keeper::Keeper;
use fam_machine::Machine;
use fam_model::Event;
use fam_ready::follow;
use fam_steps::{Core, CoreFault};
use ready_lists::ReadyLists;

/// The service, the programs on their way, for each stripe the pieces that may come, and for each program whether its next
/// event may come.
#[derive(Drop)]
pub struct Player {
    pub service: Core,
    pub turns: Sequence<Turn>,
    pub ready: ReadyLists,
    pub able: Able,
}

/// The lists after an event.
fn keep_ready(ready: &mut ReadyLists, machine: &Machine, event: &Event) -> Result<(), NoMemory>
    ensures { OnOk result (Follows ready.old event.now machine.now ready.new) }
{
    match machine.program(event.pe.0) {
        Some(program) => follow(ready, program, event),
        None => Ok(()),
    }
}

/// The program of an event gets the reply that the event tells.
fn hear(turns: &mut Sequence<Turn>, event: &Event) -> Result<(), NoMemory>
    ensures { OnOk result (AreHeard event.now turns.old turns.new) }
{
    let at = event.pe.0 as usize;
    if at >= turns.len() {
        return Ok(());
    }
    let Some(reply) = told(&event.what)? else {
        return Ok(());
    };
    let turn = turns.at_mut(at);
    turn.replied(event.pe.0, reply)
}

impl Player {
    /// The service makes what was chosen.
    fn act<D: Disk>(&mut self, keeper: &mut Keeper<D>, chosen: &Chosen) -> Result<(), CoreFault>
        requires kept { Keeps keeper.old self.old.service.state.rows }
        ensures acts { Acts self.old chosen.now self.new.service result }
        ensures kept { Keeps keeper.new self.new.service.state.rows }
        ensures keeps { KeepsOn self.old.service keeper.old self.new.service keeper.new }
        ensures turns { self.new.turns ≡ self.old.turns }
        ensures ready { self.new.ready ≡ self.old.ready }
        ensures able { self.new.able ≡ self.old.able }
    {
        match chosen {
            Chosen::Turn(pe) => self.take_turn(keeper, *pe),
            Chosen::Move(step) => self.service.advance(keeper, step),
        }
    }

    /// The service makes the next event of a program.
    fn take_turn<D: Disk>(&mut self, keeper: &mut Keeper<D>, pe: u32) -> Result<(), CoreFault>
        requires kept { Keeps keeper.old self.old.service.state.rows }
        ensures takes { steps.TakesTurn self.old.service pe (asked_by self.old.turns pe) self.new.service result }
        ensures kept { Keeps keeper.new self.new.service.state.rows }
        ensures keeps { KeepsOn self.old.service keeper.old self.new.service keeper.new }
        ensures turns { self.new.turns ≡ self.old.turns }
        ensures ready { self.new.ready ≡ self.old.ready }
        ensures able { self.new.able ≡ self.old.able }
    {
        match self.turns.get(pe as usize) {
            Some(turn) => self.service.go_on(keeper, PeId(pe), &turn.asked),
            None => self.service.go_on(keeper, PeId(pe), &None),
        }
    }

    /// Makes what was chosen, and lets its event be known. False where that may not come: then nothing is done. After want
    /// of memory the player is of no more use.
    pub fn make<D: Disk>(
        &mut self,
        keeper: &mut Keeper<D>,
        chosen: &Chosen,
    ) -> Result<bool, NoMemory>
        requires kept { Keeps keeper.old self.old.service.state.rows }
        requires few { length self.old.able.flags ≤ 64 }
        ensures made { IsMade self.old chosen.now self.new result }
        ensures kept { Keeps keeper.new self.new.service.state.rows }
        ensures keeps { KeepsOn self.old.service keeper.old self.new.service keeper.new }
    {
        match self.act(keeper, chosen) {
            Ok(()) => self.let_know(),
            Err(CoreFault::NotEnabled) => Ok(false),
            Err(CoreFault::Memory) => Err(NoMemory),
        }
    }

    /// Lets the last event be known to the lists, to its program and to the flags. False where there is none.
    fn let_know(&mut self) -> Result<bool, NoMemory>
        requires { length self.old.able.flags ≤ 64 }
        ensures known { IfOk result (LetsKnow self.old self.new) }
        ensures service { self.new.service ≡ self.old.service }
    {
        let Some(event) = self.service.last() else {
            return Ok(false);
        };
        keep_ready(&mut self.ready, self.service.machine(), event)?;
        hear(&mut self.turns, event)?;
        self.able.follow(self.service.machine(), &self.turns, event);
        Ok(true)
    }
}
