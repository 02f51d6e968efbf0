//! An auditor between two events.

ghost use Rattle.std.specs.Prelude.{◌≡◌, IfOk, OnOk};
ghost use Rattle.fam_audit.specs.Auditing.{Judges, JudgesAll};
ghost use Rattle.fam_audit.specs.Turns.{AreHeard};

use crate::asking::is_next;
use crate::turn::{Turn, told};
use fam_base::{NoMemory, Sequence};
use fam_machine::{Machine, StepError};
use fam_model::Event;

/// The machine after the events so far, and each program on its way with the replies that they told it.
#[derive(Drop)]
pub struct Auditor {
    pub machine: Machine,
    pub turns: Sequence<Turn>,
}

/// The program of an event gets the reply that the event tells.
fn hear(turns: &mut Sequence<Turn>, event: &Event) -> Result<(), NoMemory>
    ensures { OnOk result (AreHeard event.now turns.old turns.new) }
{
    let at = event.pe.0 as usize;
    if at >= turns.len() {
        return Ok(());
    }
    let Some(reply) = told(&event.what)? else {
        return Ok(());
    };
    let turn = turns.at_mut(at);
    turn.replied(event.pe.0, reply)
}

impl Auditor {
    /// Takes an event that breaks no rule; else tells the least rule that it breaks. Then, and after want of memory, the
    /// auditor is of no more use.
    fn judge(&mut self, event: &Event) -> Result<Option<u8>, NoMemory>
        ensures { IfOk result (Judges self.old event.now self.new) }
    {
        if !is_next(&self.turns, event)? {
            return Ok(Some(1));
        }
        match self.machine.step(event) {
            Ok(()) => {
                hear(&mut self.turns, event)?;
                Ok(None)
            }
            Err(StepError::Illegal(rule)) => Ok(Some(rule)),
            Err(StepError::Memory) => Err(NoMemory),
        }
    }

    /// Takes events in turn up to the first one that breaks a rule: its place, and the least rule that it breaks.
    pub fn judge_all(&mut self, history: &[Event]) -> Result<Option<(usize, u8)>, NoMemory>
        ensures { IfOk result (JudgesAll self.old history.now self.new) }
    {
        for (place, event) in history.iter().enumerate() {
            if let Some(rule) = self.judge(event)? {
                return Ok(Some((place, rule)));
            }
        }
        Ok(None)
    }
}
