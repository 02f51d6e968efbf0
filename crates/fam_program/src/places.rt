//! Contexts by the operations that they have.

ghost use Rattle.std.specs.Prelude.{◌≡◌, ◌<◌, Some, length, option_copied, IsSome, IsTrue, slice_get};
ghost use Rattle.fam_context.specs.Effects as effects;
ghost use Rattle.fam_model.specs.Lists.{is_some_and};
ghost use Rattle.fam_model.specs.Lists.{change_place};
ghost use Rattle.fam_model.specs.Programs.{has_operation};
ghost use Rattle.fam_program.specs.Parts.{place_in, holder_in};
ghost use Rattle.fam_program.specs.Reports as reports;

use fam_base::Sequence;
use fam_context::Context;
use fam_model::{Reply, Started};

/// The place of the first context that has the operation of a call.
pub(crate) fn place_with(contexts: &Sequence<Context>, call: u64) -> Option<usize>
    ensures { result ≡ place_in contexts.now call }
{
    contexts
        .as_slice()
        .iter()
        .position(|context| context.has(call))
}

/// That place, where there is one.
#[tactic(auto, using(crate::proofs::Options::position_within))]
pub(crate) fn place_of(contexts: &Sequence<Context>, call: u64) -> usize
    requires { IsSome (place_in contexts.now call) }
    ensures value { place_in contexts.now call ≡ Some result }
    ensures within { result < length contexts.now }
{
    match place_with(contexts, call) {
        Some(at) => at,
        None => unreachable!(),
    }
}

/// The first context that has the operation of a call.
pub(crate) fn holder(contexts: &Sequence<Context>, call: u64) -> Option<&Context>
    ensures { option_copied result ≡ holder_in contexts.now call }
{
    match place_with(contexts, call) {
        Some(at) => contexts.get(at),
        None => None,
    }
}

pub(crate) fn may_come(contexts: &Sequence<Context>, call: u64, piece: u32) -> bool
    ensures { result ≡ is_some_and (holder_in contexts.now call) (λ t. effects.may_come_of t.context call piece) }
{
    match holder(contexts, call) {
        Some(context) => context.may_come(call, piece),
        None => false,
    }
}

pub(crate) fn is_left(contexts: &Sequence<Context>, call: u64, piece: u32) -> bool
    ensures { result ≡ is_some_and (holder_in contexts.now call) (λ t. effects.is_left_of t.context call piece) }
{
    match holder(contexts, call) {
        Some(context) => context.is_left(call, piece),
        None => false,
    }
}

/// Whether the context is open, nothing of it is left, and this is its report.
pub(crate) fn may_report(contexts: &Sequence<Context>, at: usize, given: &Reply) -> bool
    ensures { result ≡ is_some_and (slice_get contexts.now at) (λ t. reports.may_report t.context given.now) }
{
    match contexts.get(at) {
        Some(context) => context.is_open() && !context.is_pending() && context.report_is(given),
        None => false,
    }
}

/// All results of a context were told, if it is there.
pub(crate) fn mark_reported(contexts: &mut Sequence<Context>, at: usize)
    ensures { contexts.new ≡ change_place at effects.reported contexts.old }
{
    if at < contexts.len() {
        contexts.at_mut(at).mark_reported();
    }
}

/// The same of a context that is then closed.
pub(crate) fn mark_closed(contexts: &mut Sequence<Context>, at: usize)
    ensures { contexts.new ≡ change_place at reports.closed contexts.old }
{
    if at < contexts.len() {
        let context = contexts.at_mut(at);
        context.mark_reported();
        context.close();
    }
}

/// Whether the operation of a call was not told, has no piece left, and has this result.
fn has_result(context: &Context, call: u64, given: &Reply) -> bool
    ensures { result ≡ reports.may_answer context.now.context call given.now }
{
    match context.left(call) {
        Some(left) => left == 0 && context.result_is(call, given),
        None => false,
    }
}

/// The same, of whichever context has the operation.
pub(crate) fn may_answer(contexts: &Sequence<Context>, call: u64, given: &Reply) -> bool
    ensures { result ≡ is_some_and (holder_in contexts.now call) (λ t. reports.may_answer t.context call given.now) }
{
    match holder(contexts, call) {
        Some(context) => has_result(context, call, given),
        None => false,
    }
}

/// The same, of a copy of this context.
pub(crate) fn may_wait(contexts: &Sequence<Context>, at: usize, call: u64, given: &Reply) -> bool
    ensures { result ≡ is_some_and (slice_get contexts.now at) (λ t. reports.may_wait t.context call given.now) }
{
    match contexts.get(at) {
        Some(context) => context.is_copy(call) && has_result(context, call, given),
        None => false,
    }
}

/// The result of a call was told.
fn tell_operation(contexts: &mut Sequence<Context>, call: u64)
    requires { IsSome (place_in contexts.old call) }
    ensures { contexts.new ≡ reports.told_in contexts.old call }
{
    let at = place_of(contexts, call);
    let there = contexts.at_mut(at);
    there.mark_answered(call);
}

/// The result of what was started was told.
pub(crate) fn tell_started(contexts: &mut Sequence<Context>, started: Started)
    requires { IsTrue (reports.is_held started contexts.old) }
    ensures { contexts.new ≡ reports.told_by started contexts.old }
{
    match started {
        Started::Operation { call } => tell_operation(contexts, call),
        Started::Nothing | Started::Barrier { .. } => {}
    }
}

/// Whether the context has a copy of that call whose result was not told.
pub(crate) fn has_copy(contexts: &Sequence<Context>, at: usize, call: u64) -> bool
    ensures { result ≡ is_some_and (slice_get contexts.now at) (λ t. effects.is_copy_of t.context call) }
{
    match contexts.get(at) {
        Some(context) => context.is_copy(call),
        None => false,
    }
}

/// The result of an operation of that context was told.
pub(crate) fn tell_copy(contexts: &mut Sequence<Context>, at: usize, call: u64)
    requires { IsTrue (is_some_and (slice_get contexts.old at) (λ t. has_operation t.context call)) }
    ensures { contexts.new ≡ change_place at (λ t. effects.told t call) contexts.old }
{
    let there = contexts.at_mut(at);
    there.mark_answered(call);
}
