//! Quiet and closing: calls that are answered with a report.

ghost use Rattle.std.specs.Prelude.{◌≡◌, ◌<◌, Some, IsTrue, is_some};
ghost use Rattle.fam_model.specs.ContextStep as steps;
ghost use Rattle.fam_model.specs.Limits.{number_end};
ghost use Rattle.fam_model.specs.Turn as turns;
ghost use Rattle.fam_program.specs.Steps.{TookStep, Quiets, Closes};

use super::Program;
use crate::places;
use fam_model::Reply;

impl Program {
    /// Whether a quiet of the context may be answered with this report now: it is open, and no piece of it is
    /// left.
    pub fn may_quiet_with(&self, context: u8, given: &Reply) -> bool
        ensures { result ≡ is_some (steps.quiet_step self.now.state context given.now) }
    {
        places::may_report(&self.contexts, context as usize, given)
    }

    /// Whether closing the context may be answered with this report now: it is open and not the first one, and
    /// no piece of it is left.
    pub fn may_close_with(&self, context: u8, given: &Reply) -> bool
        ensures { result ≡ is_some (steps.close_step self.now.state context given.now) }
    {
        context != 0 && places::may_report(&self.contexts, context as usize, given)
    }

    /// A quiet was answered: all results of the context are told.
    fn tell(&mut self, context: u8)
        requires number { self.old.state.next_call < number_end }
        requires idle { IsTrue (turns.is_idle self.old.state.started) }
        ensures state { Quiets self.old.state context self.new.state }
        ensures out { self.new.out ≡ self.old.out }
    {
        places::mark_reported(&mut self.contexts, context as usize);
        self.next_call += 1;
    }

    /// A closing was answered: all results of the context are told, and it is not open any more.
    fn tell_and_close(&mut self, context: u8)
        requires number { self.old.state.next_call < number_end }
        requires idle { IsTrue (turns.is_idle self.old.state.started) }
        ensures state { Closes self.old.state context self.new.state }
        ensures out { self.new.out ≡ self.old.out }
    {
        places::mark_closed(&mut self.contexts, context as usize);
        self.next_call += 1;
    }

    /// Answers a quiet of the context with this report, if it may be: all results of the context are told then.
    /// Where not, all is as it was.
    #[tactic(auto, using(crate::proofs::Options::none_is))]
    pub fn quiet_with(&mut self, context: u8, given: &Reply) -> bool
        requires number { self.old.state.next_call < number_end }
        requires idle { IsTrue (turns.is_idle self.old.state.started) }
        ensures { TookStep result (steps.quiet_step self.old.state context given.now) self.old self.new }
    {
        if !self.may_quiet_with(context, given) {
            return false;
        }
        self.tell(context);
        true
    }

    /// Answers the closing of the context with this report, if it may be: all results of the context are told
    /// then, and it is not open any more. Where not, all is as it was.
    #[tactic(auto, using(crate::proofs::Options::none_is))]
    pub fn close_with(&mut self, context: u8, given: &Reply) -> bool
        requires number { self.old.state.next_call < number_end }
        requires idle { IsTrue (turns.is_idle self.old.state.started) }
        ensures { TookStep result (steps.close_step self.old.state context given.now) self.old self.new }
    {
        if !self.may_close_with(context, given) {
            return false;
        }
        self.tell_and_close(context);
        true
    }
}
