//! Which programs may act.

ghost use Rattle.std.specs.Prelude.{◌≡◌, ◌≤◌, length, IfOk};
ghost use Rattle.fam_core.specs.Playing.{AreAble, AreRenewed, IsFlag, IsRenewed, KeepsAble};

use crate::turn::Turn;
use fam_base::{NoMemory, Sequence};
use fam_machine::Machine;
use fam_model::Event;
use fam_turns::may_act;
use std::alloc::Global;

/// A flag for each program: whether its next event may come. It depends on the program, its next call and the round of the
/// barrier alone.
#[derive(Drop)]
pub struct Able {
    /// The round of the barrier that the flags are for.
    pub round: u64,
    pub flags: Sequence<bool>,
}

/// Whether the next event of a program may come.
fn may_go(machine: &Machine, turns: &Sequence<Turn>, pe: u32) -> bool
    ensures { IsFlag machine.now turns.now pe result }
{
    let Some(program) = machine.program(pe) else {
        return false;
    };
    match turns.get(pe as usize) {
        Some(turn) => may_act(program, machine.round(), &turn.asked),
        None => may_act(program, machine.round(), &None),
    }
}

/// Sets the flag of a program anew, if it has one.
fn renew(flags: &mut Sequence<bool>, machine: &Machine, turns: &Sequence<Turn>, pe: u32)
    ensures { IsRenewed machine.now turns.now pe flags.old flags.new }
{
    let at = pe as usize;
    if at < flags.len() {
        *flags.at_mut(at) = may_go(machine, turns, pe);
    }
}

/// Sets all flags anew.
fn renew_all(flags: &mut Sequence<bool>, machine: &Machine, turns: &Sequence<Turn>)
    requires { length flags.old ≤ 64 }
    ensures { AreRenewed machine.now turns.now (length flags.old) flags.old flags.new }
{
    for pe in 0..flags.len() {
        renew(flags, machine, turns, pe as u32);
    }
}

impl Able {
    /// The flags of these programs.
    pub fn new(alloc: Global, machine: &Machine, turns: &Sequence<Turn>) -> Result<Able, NoMemory>
        requires { length turns.now ≤ 64 }
        ensures { IfOk result (AreAble machine.now turns.now) }
    {
        let mut flags = Sequence::from_vec(vec![in alloc; false; turns.len()]?);
        renew_all(&mut flags, machine, turns);
        Ok(Able {
            round: machine.round(),
            flags,
        })
    }

    /// Keeps the flags right after an event: all are set anew where the round is another one, and else that of its program.
    #[tactic(auto, using(crate::proofs::Renewing::keeps_one, crate::proofs::Renewing::keeps_all))]
    pub fn follow(&mut self, machine: &Machine, turns: &Sequence<Turn>, event: &Event)
        requires { length self.old.flags ≤ 64 }
        ensures { KeepsAble event.now machine.now turns.now self.old self.new }
    {
        let round = machine.round();
        if round == self.round {
            renew(&mut self.flags, machine, turns, event.pe.0);
        } else {
            renew_all(&mut self.flags, machine, turns);
            self.round = round;
        }
    }
}
