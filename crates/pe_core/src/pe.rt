//! A program on its way.

ghost use Rattle.std.specs.Prelude.{◌≡◌, ◌<◌, [], true, length, is_some, IfOk, IsSome};
ghost use Rattle.pe_core.specs.Actions.{is_ready};
ghost use Rattle.pe_core.specs.Left.{next_after, after_reply};

use crate::action::Action;
use crate::place::{Place, call_at, place_after, place_at};
use crate::write_out::{Written, write_out};
use fam_base::{NoMemory, Sequence};
use fam_model::{Call, Reply, Script};
use std::alloc::Global;

/// A program that made some calls and got their replies. It keeps none of the replies: it stands for a
/// list of them.
#[derive(Drop)]
pub struct Pe {
    actions: Sequence<Action>,
    order: Sequence<usize>,
    place: Place,
    ghost ready: { is_ready actions order place ≡ true },
}

impl Pe {
    ghost use Rattle.pe_core.specs.Standing.{left, StandsAtStart, StandsForMore, IsNext};

    /// The program of that number before its first call.
    pub fn new(alloc: Global, script: &Script, pe: u32) -> Result<Pe, NoMemory>
        requires { pe < length script.now.programs }
        ensures { IfOk result (λ p. StandsAtStart script.now.programs pe (left p)) }
    {
        let program = script.programs.at(pe as usize);
        let nothing = Written {
            actions: Sequence::new(alloc),
            order: Sequence::new(alloc),
        };
        let Written { actions, order } = write_out(alloc, nothing, program.statements.as_slice())?;
        let place = place_at(&actions, &order, 0);
        Ok(Pe {
            actions,
            order,
            place,
        })
    }

    /// Whether there is a next call: none once a crash or the leaving was replied.
    pub fn has_next(&self) -> bool
        ensures { result ≡ is_some (next_after (left self.now) []) }
    {
        !self.place.over
    }

    /// The next call, which is leaving at the end.
    pub fn next(&self) -> Result<Call, NoMemory>
        requires { IsSome (next_after (left self.now) []) }
        ensures call { IfOk result (λ asked. next_after (left self.now) [] ≡ Some asked) }
        ensures next { IfOk result (λ asked. IsNext (left self.now) asked) }
    {
        call_at(&self.actions, &self.order, self.place)
    }

    /// Takes the reply of the next call.
    pub fn replied(&mut self, reply: &Reply)
        ensures left { left self.new ≡ after_reply (left self.old) reply.now }
        ensures stands { StandsForMore (left self.old) reply.now (left self.new) }
    {
        self.place = place_after(&self.actions, &self.order, self.place, reply);
    }
}

#[cfg(test)]
mod tests {
    use super::Pe;
    use fam_base::FamError;
    use fam_model::{Call, Reply};
    use fam_script::parse;
    use std::alloc::Global;
    use std::test::Fail;

    /// How many calls the first program of these lines makes before it leaves, if each gets this reply.
    fn calls(alloc: Global, lines: &str, reply: &Reply) -> Result<u32, Fail> {
        let text = format!(in alloc; "service 1 1 64\npe 5 5\n{lines}end\nstop\n")?;
        let script = parse(alloc, text.as_bytes())?;
        if script.programs.is_empty() {
            return Ok(0);
        }
        let mut pe = Pe::new(alloc, &script, 0)?;
        for made in 0..100 {
            if !pe.has_next() || pe.next()? == Call::Leave {
                return Ok(made);
            }
            pe.replied(reply);
        }
        Ok(100)
    }

    #[test]
    fn writes_repeats_out(rt: HostRuntime) -> Result<(), Fail> {
        for (lines, want) in [
            ("", 0),
            ("barrier\n", 1),
            ("barrier\ncrash\nbarrier\n", 2),
            ("repeat 3\nbarrier\nfence c0\ndone\nquiet c0\n", 7),
            ("repeat 3\nrepeat 4\nbarrier\ndone\nfence c0\ndone\n", 15),
            (
                "repeat 65536\nrepeat 65536\nrepeat 65536\nrepeat 65536\ndone\ndone\ndone\ndone\nbarrier\n",
                1,
            ),
        ] {
            assert_eq!(rt; calls(rt.alloc(), lines, &Reply::Done)?, want, "{lines}");
        }
        Ok(())
    }

    #[test]
    fn spins_until_the_value(rt: HostRuntime) -> Result<(), Fail> {
        for (reply, want) in [
            (Reply::Value(7), 2),
            (Reply::Value(8), 6),
            (Reply::Error(FamError::Range), 2),
            (Reply::Done, 6),
        ] {
            assert_eq!(rt;
                calls(rt.alloc(), "spin c0 i0 0 i64 7 5\nbarrier\n", &reply)?,
                want
            );
        }
        Ok(())
    }
}
