//! Copies of events.

ghost use Rattle.std.specs.Prelude.{◌≡◌, IfOk};

use fam_base::{NoMemory, copy_of};
use fam_model::{Event, What};

/// A copy of what happened.
fn copy_what(what: &What) -> Result<What, NoMemory>
    ensures { IfOk result (λ copy. copy ≡ what.now) }
{
    Ok(match what {
        What::Meta { call, reply } => What::Meta {
            call: copy_of(call)?,
            reply: copy_of(reply)?,
        },
        What::Issue { call, reply } => What::Issue {
            call: copy_of(call)?,
            reply: copy_of(reply)?,
        },
        What::Piece { piece, answer } => What::Piece {
            piece: *piece,
            answer: copy_of(answer)?,
        },
        What::Answer { reply } => What::Answer {
            reply: copy_of(reply)?,
        },
        What::OpenContext { context } => What::OpenContext { context: *context },
        What::CloseContext { context, reply } => What::CloseContext {
            context: *context,
            reply: copy_of(reply)?,
        },
        What::Fence { context } => What::Fence { context: *context },
        What::Quiet { context, reply } => What::Quiet {
            context: *context,
            reply: copy_of(reply)?,
        },
        What::Wait {
            context,
            named,
            reply,
        } => What::Wait {
            context: *context,
            named: *named,
            reply: copy_of(reply)?,
        },
        What::Arrive => What::Arrive,
        What::Leave => What::Leave,
        What::Crash => What::Crash,
        What::Lose { piece } => What::Lose { piece: *piece },
        What::Refused { call, error, doubt } => What::Refused {
            call: copy_of(call)?,
            error: *error,
            doubt: *doubt,
        },
    })
}

/// A copy of an event.
pub fn copy_event(event: &Event) -> Result<Event, NoMemory>
    ensures { IfOk result (λ copy. copy ≡ event.now) }
{
    Ok(Event {
        pe: event.pe,
        call: event.call,
        what: copy_what(&event.what)?,
    })
}
