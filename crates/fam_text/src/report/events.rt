//! Events as text.

ghost use Rattle.std.specs.Prelude.{◌≡◌, ◌++◌, ◌∷◌, OnOk, codes, length, map};
ghost use Rattle.fam_model.specs.declared.event.What.TheVariants as what;
ghost use Rattle.fam_model.specs.EventText.{doubt_words, event_text, what_words};
ghost use Rattle.fam_model.specs.ReplyText.{answer_words, error_words, reply_words};
ghost use Rattle.fam_model.specs.ReportText.{event_lines};
ghost use Rattle.fam_model.specs.Words.{text_of};
ghost use Rattle.fam_script.specs.Spaced.{spaced};

use super::replies::{push_answer, push_error, push_reply};
use super::words::push_call_name;
use fam_base::FamError;
use fam_model::{Call, Event, MetaCall, PieceAnswer, Reply, What};
use fam_script::printing::{push_call, push_meta_call, push_text};
use std::alloc::AllocError;

/// Appends a colon and a reply.
#[tactic(auto, using(crate::proofs::Joined::texts))]
fn push_answered(text: &mut Vec<u8>, reply: &Reply) -> Result<(), AllocError>
    ensures { OnOk result (text.new.items ≡ text.old.items ++ (codes " :" ++ spaced (reply_words reply.now))) }
{
    push_text(text, " :")?;
    push_reply(text, reply)?;
    Ok(())
}

/// Appends a colon and the answer of a piece.
#[tactic(auto, using(crate::proofs::Joined::texts))]
fn push_piece_answer(text: &mut Vec<u8>, answer: &PieceAnswer) -> Result<(), AllocError>
    ensures { OnOk result (text.new.items ≡ text.old.items ++ (codes " :" ++ spaced (answer_words answer.now))) }
{
    push_text(text, " :")?;
    push_answer(text, answer)?;
    Ok(())
}

fn push_meta(text: &mut Vec<u8>, call: &MetaCall, reply: &Reply) -> Result<(), AllocError>
    ensures { OnOk result (text.new.items ≡ text.old.items ++ spaced (what_words (what.Meta call.now reply.now))) }
{
    push_text(text, " meta")?;
    push_meta_call(text, call)?;
    push_answered(text, reply)?;
    Ok(())
}

fn push_issue(text: &mut Vec<u8>, call: &Call, reply: &Reply) -> Result<(), AllocError>
    ensures { OnOk result (text.new.items ≡ text.old.items ++ spaced (what_words (what.Issue call.now reply.now))) }
{
    push_text(text, " issue")?;
    push_call(text, call)?;
    push_answered(text, reply)?;
    Ok(())
}

fn push_piece(text: &mut Vec<u8>, piece: u32, answer: &PieceAnswer) -> Result<(), AllocError>
    ensures { OnOk result (text.new.items ≡ text.old.items ++ spaced (what_words (what.Piece piece answer.now))) }
{
    push!(text, " piece {piece}")?;
    push_piece_answer(text, answer)?;
    Ok(())
}

fn push_answer_event(text: &mut Vec<u8>, reply: &Reply) -> Result<(), AllocError>
    ensures { OnOk result (text.new.items ≡ text.old.items ++ spaced (what_words (what.Answer reply.now))) }
{
    push_text(text, " answer")?;
    push_answered(text, reply)?;
    Ok(())
}

fn push_close(text: &mut Vec<u8>, context: u8, reply: &Reply) -> Result<(), AllocError>
    ensures { OnOk result (text.new.items ≡ text.old.items ++ spaced (what_words (what.CloseContext context reply.now))) }
{
    push!(text, " close c{context}")?;
    push_answered(text, reply)?;
    Ok(())
}

fn push_quiet(text: &mut Vec<u8>, context: u8, reply: &Reply) -> Result<(), AllocError>
    ensures { OnOk result (text.new.items ≡ text.old.items ++ spaced (what_words (what.Quiet context reply.now))) }
{
    push!(text, " quiet c{context}")?;
    push_answered(text, reply)?;
    Ok(())
}

fn push_wait(text: &mut Vec<u8>, context: u8, named: u64, reply: &Reply) -> Result<(), AllocError>
    ensures { OnOk result (text.new.items ≡ text.old.items ++ spaced (what_words (what.Wait context named reply.now))) }
{
    push!(text, " wait c{context} {named}")?;
    push_answered(text, reply)?;
    Ok(())
}

/// Appends the doubt of a fault of the disk; nothing for other errors.
#[tactic(auto, using(crate::proofs::Joined::texts))]
fn push_doubt(text: &mut Vec<u8>, error: &FamError, doubt: bool) -> Result<(), AllocError>
    ensures { OnOk result (text.new.items ≡ text.old.items ++ spaced (doubt_words error.now doubt)) }
{
    match error {
        FamError::DiskFault => push!(text, " {}", if doubt { 1u8 } else { 0u8 }),
        _ => Ok(()),
    }
}

/// Appends a colon, an error and its doubt.
fn push_doubtful(text: &mut Vec<u8>, error: &FamError, doubt: bool) -> Result<(), AllocError>
    ensures { OnOk result (text.new.items ≡ text.old.items ++ (codes " :" ++ spaced (codes "error" ∷ (error_words error.now ++ doubt_words error.now doubt)))) }
{
    push_text(text, " : error")?;
    push_error(text, error)?;
    push_doubt(text, error, doubt)?;
    Ok(())
}

fn push_refused(
    text: &mut Vec<u8>,
    call: &Call,
    error: &FamError,
    doubt: bool,
) -> Result<(), AllocError>
    ensures { OnOk result (text.new.items ≡ text.old.items ++ spaced (what_words (what.Refused call.now error.now doubt))) }
{
    push_text(text, " refused")?;
    push_call(text, call)?;
    push_doubtful(text, error, doubt)?;
    Ok(())
}

/// Appends what happened, with a space in front of each word.
fn push_what(text: &mut Vec<u8>, what: &What) -> Result<(), AllocError>
    ensures { OnOk result (text.new.items ≡ text.old.items ++ spaced (what_words what.now)) }
{
    match what {
        What::Meta { call, reply } => push_meta(text, call, reply),
        What::Issue { call, reply } => push_issue(text, call, reply),
        What::Piece { piece, answer } => push_piece(text, *piece, answer),
        What::Answer { reply } => push_answer_event(text, reply),
        What::OpenContext { context } => push!(text, " open c{context} : ok"),
        What::CloseContext { context, reply } => push_close(text, *context, reply),
        What::Fence { context } => push!(text, " fence c{context}"),
        What::Quiet { context, reply } => push_quiet(text, *context, reply),
        What::Wait {
            context,
            named,
            reply,
        } => push_wait(text, *context, *named, reply),
        What::Arrive => push_text(text, " arrive"),
        What::Leave => push_text(text, " leave"),
        What::Crash => push_text(text, " crash"),
        What::Lose { piece } => push!(text, " lose {piece}"),
        What::Refused { call, error, doubt } => push_refused(text, call, error, *doubt),
    }
}

/// Appends the line of an event, without its line feed.
#[tactic(auto, using(crate::proofs::Joined::texts))]
pub fn push_event(text: &mut Vec<u8>, event: &Event) -> Result<(), AllocError>
    ensures { OnOk result (text.new.items ≡ text.old.items ++ event_text event.now) }
{
    push_call_name(text, event.pe, event.call)?;
    push_what(text, &event.what)?;
    Ok(())
}

#[tactic(auto, using(crate::proofs::Joined::texts))]
fn push_events(text: &mut Vec<u8>, events: &[Event]) -> Result<(), AllocError>
    ensures { OnOk result (text.new.items ≡ text.old.items ++ text_of (map event_text events.now)) }
{
    for event in events {
        push_event(text, event)?;
        push_text(text, "\n")?;
    }
    Ok(())
}

/// Appends the number of events, and a line for each.
#[tactic(auto, using(crate::proofs::Joined::texts))]
pub fn push_history(text: &mut Vec<u8>, history: &[Event]) -> Result<(), AllocError>
    ensures { OnOk result (text.new.items ≡ text.old.items ++ text_of (event_lines history.now)) }
{
    push!(text, "events {}\n", history.len())?;
    push_events(text, history)?;
    Ok(())
}
