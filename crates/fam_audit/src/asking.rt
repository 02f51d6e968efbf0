//! Whether the call of an event is the next one of its program.

ghost use Rattle.std.specs.Prelude.{◌≡◌, true, IfOk};
ghost use Rattle.std.specs.Option.{option_map_or};
ghost use Rattle.fam_model.specs.Text.{is_call};
ghost use Rattle.fam_model.specs.Turn.{call_made};
ghost use Rattle.fam_audit.specs.Auditing.{asked_by, is_next};

use crate::turn::Turn;
use fam_base::{NoMemory, Sequence, copy_of};
use fam_model::{Call, Event, What};

/// Whether the call is the one that is due.
fn is_due(asked: &Option<Call>, call: &Call) -> bool
    ensures { result ≡ is_call asked.now call.now }
{
    match asked {
        Some(due) => *due == *call,
        None => false,
    }
}

/// Whether the call that an event makes, if it makes one, is the one that is due.
fn makes_due(asked: &Option<Call>, what: &What) -> Result<bool, NoMemory>
    ensures { IfOk result (λ due. due ≡ option_map_or (λ made. is_call asked.now made) (call_made what.now) true) }
{
    match what {
        What::Meta { call, .. } => {
            let made = Call::Meta(copy_of(call)?);
            Ok(is_due(asked, &made))
        }
        What::Issue { call, .. } | What::Refused { call, .. } => Ok(is_due(asked, call)),
        What::OpenContext { context } => {
            Ok(is_due(asked, &Call::OpenContext { context: *context }))
        }
        What::CloseContext { context, .. } => {
            Ok(is_due(asked, &Call::CloseContext { context: *context }))
        }
        What::Fence { context } => Ok(is_due(asked, &Call::Fence { context: *context })),
        What::Quiet { context, .. } => Ok(is_due(asked, &Call::Quiet { context: *context })),
        What::Wait { context, named, .. } => Ok(is_due(
            asked,
            &Call::CopyWait {
                context: *context,
                call: *named,
            },
        )),
        What::Arrive => Ok(is_due(asked, &Call::Barrier)),
        What::Leave => Ok(is_due(asked, &Call::Leave)),
        What::Crash => Ok(is_due(asked, &Call::Crash)),
        What::Piece { .. } | What::Answer { .. } | What::Lose { .. } => Ok(true),
    }
}

/// Whether the call that an event makes, if it makes one, is the next one of its program.
pub fn is_next(turns: &Sequence<Turn>, event: &Event) -> Result<bool, NoMemory>
    ensures { IfOk result (λ next. next ≡ is_next turns.now event.now) }
{
    match turns.get(event.pe.0 as usize) {
        Some(turn) => makes_due(&turn.asked, &event.what),
        None => makes_due(&None, &event.what),
    }
}
