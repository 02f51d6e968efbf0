//! Why a call is refused as soon as it is issued.

ghost use Rattle.std.specs.Prelude.{◌≡◌, IfOk};
ghost use Rattle.fam_model.specs.Directory.{first_case};
ghost use Rattle.fam_model.specs.Issue as words;
ghost use Rattle.fam_machine.specs.Issuing.{Knows};
ghost use Rattle.fam_machine.specs.Sound.{HoldsSound};

use fam_base::{FamError, NoMemory};
use fam_directory::IndexedRows;
use fam_layout::Layout;
use fam_model::{Call, DataOp};
use fam_program::Program;
use std::alloc::Global;

/// Why a data call is refused, if it is.
fn data_refusal(
    alloc: Global,
    layout: &Layout,
    program: &Program,
    context: u8,
    op: &DataOp,
) -> Result<Option<FamError>, NoMemory>
    requires { Knows program.now.state op.now }
    ensures { IfOk result (λ error. error ≡ first_case (words.data_refusals layout.now program.now.state context op.now)) }
{
    if !program.is_open(context) {
        return Ok(Some(FamError::BadHandle));
    }
    let Some((from, to)) = program.targets(op) else {
        return Ok(Some(FamError::BadHandle));
    };
    match fam_vector::plan(alloc, layout, op, from, to) {
        Err(FamError::Memory) => Err(NoMemory),
        Err(error) => Ok(Some(error)),
        Ok(plan) if program.is_over_budget(op, plan.pieces.len() as u64) => {
            Ok(Some(FamError::Budget))
        }
        Ok(_) => Ok(None),
    }
}

/// Why a call is refused as soon as it is issued, if it is.
pub(crate) fn refusal(
    alloc: Global,
    layout: &Layout,
    rows: &IndexedRows,
    program: &Program,
    asked: &Call,
) -> Result<Option<FamError>, NoMemory>
    requires { HoldsSound rows.now program.now.state }
    ensures { IfOk result (λ error. error ≡ words.issue_refusal layout.now program.now.state asked.now) }
{
    match asked {
        Call::Data { context, op, .. } => data_refusal(alloc, layout, program, *context, op),
        _ => Ok(program.refusal(asked)),
    }
}
