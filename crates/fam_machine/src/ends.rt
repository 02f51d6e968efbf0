//! The barrier, and the end of a program.

ghost use Rattle.std.specs.Prelude.{◌≡◌, ◌<◌, ◌&&◌, ◌||◌, not, length, IsTrue};
ghost use Rattle.std.specs.List.{list_all, list_any};
ghost use Rattle.fam_model.specs.EndStep as steps;
ghost use Rattle.fam_model.specs.Limits.{number_end};
ghost use Rattle.fam_model.specs.Programs as words;
ghost use Rattle.fam_machine.specs.Effects.{Steps, Takes};
ghost use Rattle.fam_machine.specs.Sound.{IsSound};
ghost use Rattle.fam_machine.specs.Views.{state_of, states_of, turn_at, effect_at, rule_at, is_of_member, member_step_of, member_rule};

use crate::error::StepError;
use crate::parts::Parts;
use fam_model::What;
use fam_program::Program;

/// Arrives at the barrier.
pub fn arrive(program: &mut Program, round: u64) -> Result<(), StepError>
    requires { program.old.state.next_call < number_end }
    ensures { Steps (steps.arrive_step round program.old.state) 10 program.old program.new result }
{
    if !program.may_arrive(round) {
        return Err(StepError::Illegal(10));
    }
    program.arrive(round);
    Ok(())
}

/// Leaves.
pub fn leave(program: &mut Program) -> Result<(), StepError>
    requires { program.old.state.next_call < number_end }
    ensures { Steps (steps.leave_step program.old.state) 11 program.old program.new result }
{
    if program.has_pending() {
        return Err(StepError::Illegal(11));
    }
    program.leave();
    Ok(())
}

/// Crashes, which may come at any time.
pub fn crash(program: &mut Program) -> Result<(), StepError>
    requires { program.old.state.next_call < number_end }
    ensures { Steps (steps.crash_step program.old.state) 1 program.old program.new result }
{
    program.crash();
    Ok(())
}

/// Whether some member has arrived.
fn has_arrival(round: u64, programs: &[Program]) -> bool
    ensures { result ≡ list_any (λ p. words.is_member p.state && words.has_arrived round p.state) programs.now }
{
    programs
        .iter()
        .any(|p| p.is_member() && p.has_arrived(round))
}

/// Whether all members have arrived.
fn have_all_arrived(round: u64, programs: &[Program]) -> bool
    ensures { result ≡ list_all (λ p. not (words.is_member p.state) || words.has_arrived round p.state) programs.now }
{
    programs
        .iter()
        .all(|p| !p.is_member() || p.has_arrived(round))
}

/// Whether a round ends: some member has arrived, and all members have.
pub fn is_complete(round: u64, programs: &[Program]) -> bool
    ensures { result ≡ words.is_complete round (states_of programs.now) }
{
    has_arrival(round, programs) && have_all_arrived(round, programs)
}

/// An event of a program of which the barrier hears.
fn member_step(program: &mut Program, round: u64, what: &What) -> Result<(), StepError>
    requires number { program.old.state.next_call < number_end }
    requires kind { IsTrue (is_of_member what.now) }
    ensures { Steps (member_step_of round program.old.state what.now) (member_rule what.now) program.old program.new result }
{
    match what {
        What::Arrive => arrive(program, round),
        What::Leave => leave(program),
        _ => crash(program),
    }
}

/// Arrives, leaves or crashes: the round may end by it.
pub fn member(parts: &mut Parts, pe: usize, call: u64, what: &What) -> Result<(), StepError>
    requires there { pe < length parts.old.programs }
    requires sound { IsSound (state_of parts.old) }
    requires turn { IsTrue (turn_at (state_of parts.old) pe call what.now) }
    requires kind { IsTrue (is_of_member what.now) }
    ensures { Takes (effect_at (state_of parts.old) pe call what.now) (rule_at (state_of parts.old) pe call what.now) parts.old parts.new result }
{
    if let Err(error) = member_step(parts.programs.at_mut(pe), parts.round, what) {
        return Err(error);
    }
    if is_complete(parts.round, parts.programs.as_slice()) {
        parts.round += 1;
    }
    Ok(())
}
