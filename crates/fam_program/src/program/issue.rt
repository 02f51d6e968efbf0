//! Issue of data calls.

ghost use Rattle.std.specs.Prelude.{◌≡◌, ◌+◌, ◌<◌, ◌≤◌, ◌&&◌, Some, IsFalse, IsTrue, OnOk, OnErr, length, false, All, if◌then◌else◌};
ghost use Rattle.fam_context.specs.Effects as effects;
ghost use Rattle.fam_context.specs.Order.{is_planned_in_turn};
ghost use Rattle.fam_model.specs.Limits.{number_end};
ghost use Rattle.fam_model.specs.Lists.{change_place};
ghost use Rattle.fam_model.specs.Operations.{is_copy};
ghost use Rattle.fam_model.specs.Pieces.{moved, plan_kind};
ghost use Rattle.fam_model.specs.Programs as programs;
ghost use Rattle.fam_model.specs.declared.state.Started.TheVariants as started;
ghost use Rattle.fam_program.specs.Budget.{exceeds_budget};
ghost use Rattle.fam_program.specs.Parts as parts;

use super::Program;
use crate::budget::{Spent, spend};
use fam_base::{NoMemory, Sequence};
use fam_context::Context;
use fam_layout::Plan;
use fam_model::{DataOp, Started};

/// What is started by a call.
fn begun(blocking: bool, call: u64) -> Started
    ensures { result ≡ (if blocking then started.Operation call else started.Nothing) }
{
    if blocking {
        Started::Operation { call }
    } else {
        Started::Nothing
    }
}

/// Issues an operation in one of the contexts. After want of memory all is as it was.
fn add(
    contexts: &mut Sequence<Context>,
    at: usize,
    call: u64,
    plan: Plan,
    blocking: bool,
) -> Result<(), NoMemory>
    requires there { at < length contexts.old }
    requires later { All (λ t. All (λ operation. operation.call < call) t.context.operations) contexts.old }
    requires turns { IsTrue (is_planned_in_turn plan) }
    ensures ok { OnOk result (contexts.new ≡ change_place at (λ t. effects.issued t call plan blocking) contexts.old) }
    ensures err { OnErr result (contexts.new ≡ contexts.old) }
{
    let there = contexts.at_mut(at);
    match there.issue(call, plan, blocking) {
        Ok(()) => Ok(()),
        Err(error) => Err(error),
    }
}

impl Program {
    /// Issues an operation of that plan on an open context: its counts rise, and a blocking call is started. After
    /// want of memory all is as it was.
    pub fn issue(
        &mut self,
        context: u8,
        op: &DataOp,
        blocking: bool,
        plan: Plan,
    ) -> Result<(), NoMemory>
        requires number { self.old.state.next_call < number_end }
        requires open { IsTrue (programs.is_open self.old.state context) }
        requires budget { IsFalse (exceeds_budget self.old.state op.now (length plan.pieces)) }
        requires kind { plan.kind ≡ plan_kind op.now }
        requires turns { IsTrue (is_planned_in_turn plan) }
        requires copies { is_copy plan.kind && blocking ≡ false }
        ensures ok { OnOk result (parts.issued_step self.old.state context op.now blocking plan.pieces ≡ Some self.new.state) }
        ensures out { OnOk result (self.new.out ≡ parts.with_none_out self.old.out context (length plan.pieces)) }
        ensures err { OnErr result (self.new ≡ self.old) }
    {
        let count = plan.pieces.len() as u64;
        let spent = spend(self.data_calls, self.moved, self.pieces, op, count);
        add(
            &mut self.contexts,
            context as usize,
            self.next_call,
            plan,
            blocking,
        )?;
        self.data_calls = spent.data_calls;
        self.moved = spent.moved;
        self.pieces = spent.pieces;
        self.started = begun(blocking, self.next_call);
        self.next_call += 1;
        Ok(())
    }
}
