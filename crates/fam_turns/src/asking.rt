//! What the directory replies to a call.

ghost use Rattle.std.specs.Prelude.{◌≡◌, IfOk};
ghost use Rattle.fam_schedule.specs.Schedule.{due_reply};
ghost use Rattle.fam_turns.specs.Turns.{served_reply, meta_reply};

use fam_base::{NoMemory, Who};
use fam_directory::IndexedRows;
use fam_model::{MetaCall, Reply, Request};
use fam_program::Program;
use std::alloc::Global;

/// The reply that serves a request by a change, with a new item at the least base.
fn served_reply(rows: &IndexedRows, who: Who, request: &Request) -> Result<Option<Reply>, NoMemory>
    ensures { IfOk result (λ reply. reply ≡ served_reply rows.now who request.now) }
{
    let Some(base) = rows.first_base(request) else {
        return Ok(None);
    };
    match rows.change_at(who, request, base)? {
        Some(chosen) => Ok(Some(fam_rows::answer(&chosen))),
        None => Ok(None),
    }
}

/// The reply to a request: why it is refused, or what it finds, or what its change answers.
fn due_reply(rows: &IndexedRows, who: Who, request: &Request) -> Result<Option<Reply>, NoMemory>
    ensures { IfOk result (λ reply. reply ≡ due_reply rows.now who request.now) }
{
    if let Some(error) = rows.refusal(who, request) {
        return Ok(Some(Reply::Error(error)));
    }
    if let Some(reply) = rows.found(request)? {
        return Ok(Some(reply));
    }
    served_reply(rows, who, request)
}

/// The reply to a call on the directory; none where a slot that it reads is empty.
pub(crate) fn meta_reply(
    alloc: Global,
    rows: &IndexedRows,
    program: &Program,
    asked: &MetaCall,
) -> Result<Option<Reply>, NoMemory>
    ensures { IfOk result (λ reply. reply ≡ meta_reply rows.now program.now.state asked.now) }
{
    match program.request_of(alloc, asked)? {
        Some(request) => due_reply(rows, program.who(), &request),
        None => Ok(None),
    }
}
