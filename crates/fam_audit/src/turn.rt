//! A program on its way.

ghost use Rattle.std.specs.Prelude.{◌≡◌, ◌<◌, [], ◌∷◌, ◌++◌, Some, length, slice_get, IfOk, OnOk};
ghost use Rattle.fam_model.specs.History as history;
ghost use Rattle.fam_model.specs.Text.{next_call};
ghost use Rattle.fam_model.specs.declared.script.Program.{Program};
ghost use Rattle.pe_core.specs.Left.{next_after};
ghost use Rattle.pe_core.specs.Standing.{left};
ghost use Rattle.fam_audit.specs.Turns.{IsTurn, StartsAs, GoesOn, told_by};

use fam_base::{NoMemory, PeId, copy_of};
use fam_model::{Call, Reply, ReplyLine, Script, What};
use pe_core::Pe;
use std::alloc::Global;

/// A program on its way: its next call, and the lines of its replies so far.
#[derive(Drop)]
pub struct Turn {
    pub pe: Pe,
    pub asked: Option<Call>,
    pub lines: Vec<ReplyLine>,
}

impl Turn {
    /// The program of that number before its first call.
    pub fn new(alloc: Global, script: &Script, number: u32) -> Result<Turn, NoMemory>
        requires { number < length script.now.programs }
        ensures { IfOk result (λ turn. StartsAs script.now.programs number turn) }
    {
        let pe = Pe::new(alloc, script, number)?;
        let asked = due(&pe)?;
        Ok(Turn {
            pe,
            asked,
            lines: Vec::new(alloc),
        })
    }

    /// Takes the reply to its call. After want of memory it is of no more use.
    pub fn replied(&mut self, number: u32, reply: Reply) -> Result<(), NoMemory>
        ensures { OnOk result (GoesOn number self.old reply self.new) }
    {
        self.pe.replied(&reply);
        self.asked = due(&self.pe)?;
        let call = self.lines.as_slice().len() as u64;
        self.lines.push(ReplyLine {
            pe: PeId(number),
            call,
            reply,
        })?;
        Ok(())
    }
}

/// The next call of a program, if there is one.
fn due(pe: &Pe) -> Result<Option<Call>, NoMemory>
    ensures { IfOk result (λ asked. next_after (left pe.now) [] ≡ asked) }
{
    if !pe.has_next() {
        return Ok(None);
    }
    let asked = pe.next()?;
    Ok(Some(asked))
}

/// The reply that an event tells, if it tells one.
pub fn told(what: &What) -> Result<Option<Reply>, NoMemory>
    ensures { IfOk result (λ reply. reply ≡ told_by what.now) }
{
    match what {
        What::Meta { reply, .. }
        | What::CloseContext { reply, .. }
        | What::Quiet { reply, .. }
        | What::Wait { reply, .. }
        | What::Answer { reply } => Ok(Some(copy_of(reply)?)),
        What::Issue {
            call: Call::Data { blocking: true, .. },
            reply: Reply::Issued,
        } => Ok(None),
        What::Issue { reply, .. } => Ok(Some(copy_of(reply)?)),
        What::OpenContext { .. } | What::Fence { .. } => Ok(Some(Reply::Done)),
        What::Leave => Ok(Some(Reply::Left)),
        What::Crash => Ok(Some(Reply::Crashed)),
        What::Refused { error, .. } => Ok(Some(Reply::Error(*error))),
        What::Piece { .. } | What::Lose { .. } | What::Arrive => Ok(None),
    }
}
