//! What comes where an event is due.

ghost use Rattle.std.specs.Prelude.{◌≡◌};
ghost use Rattle.fam_steps.specs.Steps as steps;

use fam_base::FamError;
use fam_keeper::Kept;
use fam_model::{Call, Event, What};

/// What is told where the disk refuses a change.
fn refused(what: What, doubt: bool) -> What
    ensures { result ≡ steps.refused_what what doubt }
{
    match what {
        What::Meta { call, .. } => What::Refused {
            call: Call::Meta(call),
            error: FamError::DiskFault,
            doubt,
        },
        other => other,
    }
}

/// The event that comes where this one is due, by whether its change was kept.
pub fn come(due: Event, kept: Kept) -> Event
    ensures { result ≡ steps.come due kept }
{
    match kept {
        Kept::Served => due,
        Kept::Refused { doubt } => Event {
            pe: due.pe,
            call: due.call,
            what: refused(due.what, doubt),
        },
    }
}
