//! Calls on contexts.

ghost use Rattle.std.specs.Prelude.{◌≡◌, ◌<◌};
ghost use Rattle.fam_model.specs.ContextStep as steps;
ghost use Rattle.fam_model.specs.Limits.{number_end};
ghost use Rattle.fam_machine.specs.Effects.{Steps};

use crate::error::StepError;
use fam_program::Program;

/// Opens a context.
pub fn open(program: &mut Program, context: u8) -> Result<(), StepError>
    requires number { program.old.state.next_call < number_end }
    requires there { context < 8 }
    ensures { Steps (steps.open_step program.old.state context) 7 program.old program.new result }
{
    if program.is_open(context) {
        return Err(StepError::Illegal(7));
    }
    program.open(context);
    Ok(())
}

/// A fence.
pub fn fence(program: &mut Program, context: u8) -> Result<(), StepError>
    requires { program.old.state.next_call < number_end }
    ensures { Steps (steps.fence_step program.old.state context) 7 program.old program.new result }
{
    if !program.is_open(context) {
        return Err(StepError::Illegal(7));
    }
    program.fence(context);
    Ok(())
}
