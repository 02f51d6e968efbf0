//! Contexts that are opened and fenced, and which of them has an operation.

ghost use Rattle.std.specs.Prelude.{◌≡◌, ◌<◌, [], Some, IsFalse, IsTrue, slice_get, slice_set};
ghost use Rattle.fam_model.specs.ContextStep as steps;
ghost use Rattle.fam_model.specs.EndStep as ends;
ghost use Rattle.fam_model.specs.Limits.{number_end};
ghost use Rattle.fam_model.specs.Programs as programs;
ghost use Rattle.fam_model.specs.Operations.{is_pending};
ghost use Rattle.std.specs.List.{list_any};
ghost use Rattle.std.specs.Option.{option_copied, option_map};

use super::Program;
use crate::places::place_with;
use fam_base::Sequence;
use fam_context::Context;

fn some_pending(contexts: &Sequence<Context>) -> bool
    ensures { result ≡ list_any (λ t. is_pending t.context) contexts.now }
{
    contexts
        .as_slice()
        .iter()
        .any(|context| context.is_pending())
}

impl Program {
    /// Whether the context is there and open.
    #[tactic(auto, using(crate::proofs::Contexts::context_at))]
    pub fn is_open(&self, context: u8) -> bool
        ensures { result ≡ programs.is_open self.now.state context }
    {
        match self.contexts.get(context as usize) {
            Some(there) => there.is_open(),
            None => false,
        }
    }

    /// A context, if it is there.
    #[tactic(auto, using(crate::proofs::Contexts::context_at))]
    pub fn context(&self, context: usize) -> Option<&Context>
        ensures { option_map (λ t. t.context) (option_copied result) ≡ slice_get self.now.state.contexts context }
    {
        self.contexts.get(context)
    }

    /// The context that has the operation of a call.
    pub fn context_of(&self, call: u64) -> Option<usize>
        ensures { result ≡ programs.context_of self.now.state call }
    {
        place_with(&self.contexts, call)
    }

    /// Whether some piece is left, in whichever context.
    pub fn has_pending(&self) -> bool
        ensures { result ≡ ends.has_pending self.now.state }
    {
        some_pending(&self.contexts)
    }

    /// Opens a context that is not open: it is then as a new one.
    pub fn open(&mut self, context: u8)
        requires number { self.old.state.next_call < number_end }
        requires there { context < 8 }
        requires closed { IsFalse (programs.is_open self.old.state context) }
        ensures state { steps.open_step self.old.state context ≡ Some self.new.state }
        ensures out { self.new.out ≡ slice_set self.old.out context [] }
    {
        let there = self.contexts.at_mut(context as usize);
        there.open();
        self.next_call += 1;
    }

    /// A fence: what is issued on the context from now on comes after all that was issued before.
    pub fn fence(&mut self, context: u8)
        requires number { self.old.state.next_call < number_end }
        requires open { IsTrue (programs.is_open self.old.state context) }
        ensures state { steps.fence_step self.old.state context ≡ Some self.new.state }
        ensures out { self.new.out ≡ self.old.out }
    {
        let there = self.contexts.at_mut(context as usize);
        there.fence();
        self.next_call += 1;
    }
}
