//! The barrier, and the end of a program.

ghost use Rattle.std.specs.Prelude.{◌≡◌, ◌<◌, Some, IsFalse, IsTrue};
ghost use Rattle.fam_model.specs.EndStep as ends;
ghost use Rattle.fam_model.specs.Limits.{number_end};
ghost use Rattle.fam_model.specs.ContextStep as steps;
ghost use Rattle.fam_model.specs.Programs as programs;
ghost use Rattle.fam_model.specs.declared.reply.Reply.TheVariants as reply;
ghost use Rattle.fam_model.specs.declared.state.Started.TheVariants as started;

use super::Program;
use fam_model::{Standing, Started};

impl Program {
    /// Arrives at the barrier of a round: the call is started then.
    pub fn arrive(&mut self, round: u64)
        requires number { self.old.state.next_call < number_end }
        requires may_arrive { IsTrue (ends.may_arrive round self.old.state) }
        ensures state { ends.arrive_step round self.old.state ≡ Some self.new.state }
        ensures out { self.new.out ≡ self.old.out }
    {
        self.arrived = Some(round);
        self.started = Started::Barrier {
            call: self.next_call,
        };
        self.next_call += 1;
    }

    /// The program leaves at its end. No piece is left then.
    pub fn leave(&mut self)
        requires number { self.old.state.next_call < number_end }
        requires whole { IsFalse (ends.has_pending self.old.state) }
        ensures state { ends.leave_step self.old.state ≡ Some self.new.state }
        ensures out { self.new.out ≡ self.old.out }
    {
        self.standing = Standing::Left;
        self.next_call += 1;
    }

    /// The program crashes, and nothing is started then.
    pub fn crash(&mut self)
        requires { self.old.state.next_call < number_end }
        ensures state { ends.crash_step self.old.state ≡ Some self.new.state }
        ensures out { self.new.out ≡ self.old.out }
    {
        self.standing = Standing::Crashed;
        self.started = Started::Nothing;
        self.next_call += 1;
    }
}
