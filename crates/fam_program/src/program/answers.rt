//! Answers of what was started.

ghost use Rattle.std.specs.Prelude.{◌≡◌, Some, IsTrue, is_some};
ghost use Rattle.fam_model.specs.ContextStep as steps;
ghost use Rattle.fam_program.specs.Reports as reports;
ghost use Rattle.fam_program.specs.Steps.{TookStep, Finishes};

use super::Program;
use crate::places;
use crate::started::{is_before, is_passed};
use fam_model::{Reply, Started};

impl Program {
    /// Whether what is started may be answered with this reply now: an operation with its result once nothing of
    /// it is left, and a barrier once its round, an earlier one than this, is over.
    pub fn may_answer_with(&self, round: u64, given: &Reply) -> bool
        ensures { result ≡ is_some (steps.answer_step self.now.state.started round self.now.state given.now) }
    {
        match self.started {
            Started::Nothing => false,
            Started::Operation { call } => places::may_answer(&self.contexts, call, given),
            Started::Barrier { .. } => is_before(self.arrived, round) && is_passed(given),
        }
    }

    /// What was started is answered.
    fn finish(&mut self)
        requires { IsTrue (reports.has_started self.old.state.started self.old.state) }
        ensures state { Finishes self.old.state self.new.state }
        ensures out { self.new.out ≡ self.old.out }
    {
        places::tell_started(&mut self.contexts, self.started);
        self.started = Started::Nothing;
    }

    /// Answers what is started with this reply, if it may be. Where not, all is as it was.
    #[tactic(auto, using(crate::proofs::Options::none_is, crate::proofs::Telling::answerable))]
    pub fn answer_with(&mut self, round: u64, given: &Reply) -> bool
        ensures { TookStep result (steps.answer_step self.old.state.started round self.old.state given.now) self.old self.new }
    {
        if !self.may_answer_with(round, given) {
            return false;
        }
        self.finish();
        true
    }
}
