//! What contexts tell, to nobody yet.

ghost use Rattle.std.specs.Prelude.{◌≡◌, true, IfOk, option_copied, option_map};
ghost use Rattle.fam_context.specs.Effects as effects;
ghost use Rattle.fam_model.specs.Operations as operations;
ghost use Rattle.fam_model.specs.Programs as programs;
ghost use Rattle.fam_program.specs.Reports as reports;

use fam_base::NoMemory;
use fam_context::Context;
use fam_model::Reply;
use fam_program::Program;

/// A context, if it is there and open.
pub(crate) fn open_context(program: &Program, context: u8) -> Option<&Context>
    ensures { option_map (λ t. t.context) (option_copied result) ≡ programs.open_context program.now.state context }
{
    match program.context(context as usize) {
        Some(there) if there.is_open() => Some(there),
        _ => None,
    }
}

/// Whether there is an operation of the call that was not told, and no piece of it is left.
pub(crate) fn has_none_left(context: &Context, call: u64) -> bool
    ensures { result ≡ reports.no_left (effects.left_of context.now.context call) }
{
    match context.left(call) {
        Some(left) => left == 0,
        None => false,
    }
}

/// The report of an open context; none where it is not open.
pub(crate) fn report_of(program: &Program, context: u8) -> Result<Option<Reply>, NoMemory>
    ensures { IfOk result (λ reply. reply ≡ option_map operations.report (programs.open_context program.now.state context)) }
{
    match open_context(program, context) {
        Some(there) => Ok(Some(there.report_of()?)),
        None => Ok(None),
    }
}

/// The result of a copy of the context that was not reported; none where there is no such copy.
#[tactic(auto, using(crate::proofs::Contexts::copy_has, crate::proofs::Contexts::copy_result))]
pub(crate) fn copy_result(
    program: &Program,
    context: u8,
    named: u64,
) -> Result<Option<Reply>, NoMemory>
    ensures { IfOk result (λ reply. reply ≡ option_map operations.result (programs.unreported_copy program.now.state context named)) }
{
    if !program.has_copy(context, named) {
        return Ok(None);
    }
    match program.context(context as usize) {
        Some(there) => Ok(Some(there.result_of(named)?)),
        None => Ok(None),
    }
}

/// The result of the operation of a call, in whichever context it is; none where there is none.
#[tactic(auto, using(crate::proofs::Contexts::holder_has))]
pub(crate) fn result_of(program: &Program, call: u64) -> Result<Option<Reply>, NoMemory>
    ensures { IfOk result (λ reply. reply ≡ option_map (λ at. operations.result at.operation) (programs.placed program.now.state call)) }
{
    let Some(at) = program.context_of(call) else {
        return Ok(None);
    };
    match program.context(at) {
        Some(there) => Ok(Some(there.result_of(call)?)),
        None => Ok(None),
    }
}
