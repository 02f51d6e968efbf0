//! An audit before the first event.

ghost use Rattle.std.specs.Prelude.{◌≡◌, ◌≤◌, length, map, IfOk};
ghost use Rattle.fam_model.specs.Grammar.{IsLawfulScript};
ghost use Rattle.fam_model.specs.Rows.{IsLawful};
ghost use Rattle.fam_audit.specs.Auditing.{IsOpened, StartAs};

use crate::auditor::Auditor;
use crate::copying::copy_of_rows;
use crate::turn::Turn;
use fam_base::{NoMemory, Sequence, Who};
use fam_machine::Machine;
use fam_model::{Rows, Script};
use std::alloc::Global;

/// The users of the programs, in order.
fn users(alloc: Global, script: &Script) -> Result<Vec<Who>, NoMemory>
    ensures { IfOk result (λ whos. whos.items ≡ map (λ program. program.who) script.now.programs) }
{
    let mut whos = Vec::new(alloc);
    for program in script.programs.as_slice() {
        whos.push(program.who)?;
    }
    Ok(whos)
}

/// The programs before their first calls.
fn new_turns(alloc: Global, script: &Script) -> Result<Sequence<Turn>, NoMemory>
    requires { length script.now.programs ≤ 64 }
    ensures { IfOk result (λ turns. StartAs script.now.programs turns) }
{
    let mut turns = Sequence::new(alloc);
    for pe in 0..script.programs.len() {
        turns.push(Turn::new(alloc, script, pe as u32)?)?;
    }
    Ok(turns)
}

impl Auditor {
    /// The auditor of a script before its first event, with these rows in the directory.
    pub fn new(alloc: Global, script: &Script, rows: &Rows) -> Result<Auditor, NoMemory>
        requires script { IsLawfulScript script.now }
        requires rows { IsLawful rows.now }
        ensures { IfOk result (λ auditor. IsOpened rows.now script.now auditor) }
    {
        let whos = users(alloc, script)?;
        let rows = copy_of_rows(alloc, rows)?;
        let machine = Machine::opened(alloc, rows, script.service, &whos, whos.len() as u32)?;
        let turns = new_turns(alloc, script)?;
        Ok(Auditor { machine, turns })
    }
}
