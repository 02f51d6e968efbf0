//! Calls that would be served, and are refused for want of room or by the disk.

ghost use Rattle.std.specs.Prelude.{◌≡◌, ◌+◌, ◌<◌, nat_lt, IfOk};
ghost use Rattle.fam_model.specs.Limits.{service_limits, number_end};
ghost use Rattle.fam_model.specs.RefusedStep as steps;
ghost use Rattle.fam_model.specs.Rows.{IsLawful};
ghost use Rattle.fam_machine.specs.Effects.{Steps};

use crate::answers::exceeds_history;
use crate::error::StepError;
use fam_base::{FamError, NoMemory};
use fam_directory::IndexedRows;
use fam_model::{Call, MetaCall};
use fam_program::Program;
use std::alloc::Global;

/// The bytes that the journal may have.
const JOURNAL: u128 = 16_777_216;

/// Whether the directory or the barrier would serve the call.
fn would_serve(
    alloc: Global,
    rows: &IndexedRows,
    round: u64,
    program: &Program,
    asked: &Call,
) -> Result<bool, NoMemory>
    requires { IsLawful rows.now }
    ensures { IfOk result (λ would. would ≡ steps.would_serve rows.now round program.now.state asked.now) }
{
    match asked {
        Call::Meta(asked) => match program.request_of(alloc, asked)? {
            Some(request) => Ok(rows.refusal(program.who(), &request).is_none()),
            None => Ok(false),
        },
        Call::Barrier => Ok(program.may_arrive(round)),
        _ => Ok(false),
    }
}

/// Whether the call is neither a look-up nor a stat.
fn is_change(asked: &MetaCall) -> bool
    ensures { result ≡ steps.is_change asked.now }
{
    !matches!(
        asked,
        MetaCall::LookupRegion { .. }
            | MetaCall::StatRegion { .. }
            | MetaCall::Lookup { .. }
            | MetaCall::Stat { .. }
    )
}

/// Whether the call goes to the journal.
fn changes_directory(asked: &Call) -> bool
    ensures { result ≡ steps.changes_directory asked.now }
{
    match asked {
        Call::Meta(asked) => is_change(asked),
        _ => false,
    }
}

/// Whether a journal of so many bytes has no room for so many more.
fn exceeds_journal(used: u64, need: u64) -> bool
    ensures { result ≡ nat_lt service_limits.journal (used + need + 1) }
{
    JOURNAL < u128::from(used) + u128::from(need) + 1
}

/// Whether the error exceeds its limit, or is the disk's.
fn may_refuse(asked: &Call, error: FamError, doubt: bool) -> bool
    ensures { result ≡ steps.may_refuse service_limits asked.now error doubt }
{
    match error {
        FamError::HistoryFull { used, need } => exceeds_history(used, need) && !doubt,
        FamError::JournalFull { used, need } => {
            changes_directory(asked) && exceeds_journal(used, need) && !doubt
        }
        FamError::DiskFault => changes_directory(asked),
        _ => false,
    }
}

/// A call that would be served is refused.
pub fn refused(
    alloc: Global,
    rows: &IndexedRows,
    round: u64,
    program: &mut Program,
    asked: &Call,
    error: FamError,
    doubt: bool,
) -> Result<(), StepError>
    requires lawful { IsLawful rows.now }
    requires number { program.old.state.next_call < number_end }
    ensures { Steps (steps.refused_step service_limits rows.now round program.old.state asked.now error doubt) 12 program.old program.new result }
{
    if would_serve(alloc, rows, round, program, asked)? && may_refuse(asked, error, doubt) {
        program.refuse();
        Ok(())
    } else {
        Err(StepError::Illegal(12))
    }
}
