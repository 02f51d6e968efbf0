//! Where a program stands.

ghost use Rattle.std.specs.Prelude.{◌≡◌, ◌==◌, nat_lt};
ghost use Rattle.fam_model.specs.Lists.{is_some_and};
ghost use Rattle.fam_model.specs.Programs as programs;
ghost use Rattle.fam_model.specs.Same.{same_reply};
ghost use Rattle.fam_model.specs.Turn as turns;
ghost use Rattle.fam_model.specs.declared.reply.Reply.TheVariants as reply;

use fam_model::{Reply, Standing, Started};

pub(crate) fn is_running(standing: Standing) -> bool
    ensures { result ≡ programs.is_running standing }
{
    matches!(standing, Standing::Running)
}

pub(crate) fn has_crashed(standing: Standing) -> bool
    ensures { result ≡ programs.has_crashed standing }
{
    matches!(standing, Standing::Crashed)
}

/// Whether nothing is started.
pub(crate) fn is_idle(started: Started) -> bool
    ensures { result ≡ turns.is_idle started }
{
    matches!(started, Started::Nothing)
}

/// Whether an answer to this call names what is started, if something is.
pub(crate) fn answers_started(started: Started, call: u64) -> bool
    ensures { result ≡ turns.answers_started started call }
{
    match started {
        Started::Nothing => true,
        Started::Operation { call: begun } | Started::Barrier { call: begun } => call == begun,
    }
}

/// Whether the round at which a program arrived is this one.
pub(crate) fn is_at(arrived: Option<u64>, round: u64) -> bool
    ensures { result ≡ is_some_and arrived (λ at. at == round) }
{
    match arrived {
        Some(at) => at == round,
        None => false,
    }
}

/// Whether the round at which a program arrived is an earlier one.
pub(crate) fn is_before(arrived: Option<u64>, round: u64) -> bool
    ensures { result ≡ is_some_and arrived (λ at. nat_lt at round) }
{
    match arrived {
        Some(at) => at < round,
        None => false,
    }
}

/// Whether this is the reply to a barrier.
pub(crate) fn is_passed(given: &Reply) -> bool
    ensures { result ≡ same_reply given.now reply.Passed }
{
    *given == Reply::Passed
}
