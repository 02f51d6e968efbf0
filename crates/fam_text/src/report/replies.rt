//! Errors, answers and replies as text. Each word has a space in front.

ghost use Rattle.std.specs.Prelude.{◌≡◌, ◌++◌, ◌∷◌, OnOk, map};
ghost use Rattle.fam_model.specs.declared.reply.Reply.TheVariants as reply;
ghost use Rattle.fam_model.specs.declared.reply.PieceAnswer.TheVariants as answer;
ghost use Rattle.fam_model.specs.ReplyText.{error_words, answer_words, result_word, reply_words};
ghost use Rattle.fam_model.specs.ReportText.{reply_line_text};
ghost use Rattle.fam_model.specs.Words.{text_of};
ghost use Rattle.fam_script.specs.Spaced.{spaced};

use super::words::push_call_name;
use fam_base::FamError;
use fam_model::{ItemInfo, OpResult, PieceAnswer, RegionInfo, Reply, ReplyLine};
use fam_script::printing::{push_hex, push_mode, push_text};
use std::alloc::AllocError;

/// Appends an error.
pub fn push_error(text: &mut Vec<u8>, error: &FamError) -> Result<(), AllocError>
    ensures { OnOk result (text.new.items ≡ text.old.items ++ spaced (error_words error.now)) }
{
    let name = error.name();
    match error {
        FamError::HistoryFull { used, need } | FamError::JournalFull { used, need } => {
            push!(text, " {name} {used} {need}")
        }
        _ => push!(text, " {name}"),
    }
}

/// Appends the word `error` and an error.
#[tactic(auto, using(crate::proofs::Joined::texts))]
pub fn push_failure(text: &mut Vec<u8>, error: &FamError) -> Result<(), AllocError>
    ensures { OnOk result (text.new.items ≡ text.old.items ++ spaced (reply_words (reply.Error error.now))) }
{
    push_text(text, " error")?;
    push_error(text, error)?;
    Ok(())
}

/// Appends bytes that were read.
pub fn push_bytes(text: &mut Vec<u8>, bytes: &[u8]) -> Result<(), AllocError>
    ensures { OnOk result (text.new.items ≡ text.old.items ++ spaced (reply_words (reply.Bytes bytes.now))) }
{
    push_text(text, " ok ")?;
    push_hex(text, bytes)
}

/// Appends the answer of a piece.
pub fn push_answer(text: &mut Vec<u8>, answer: &PieceAnswer) -> Result<(), AllocError>
    ensures { OnOk result (text.new.items ≡ text.old.items ++ spaced (answer_words answer.now)) }
{
    match answer {
        PieceAnswer::Ok => push_text(text, " ok"),
        PieceAnswer::Data(bytes) => push_bytes(text, bytes.as_slice()),
        PieceAnswer::Refused(error) => push_failure(text, error),
    }
}

fn push_failed_result(text: &mut Vec<u8>, call: u64, error: &FamError) -> Result<(), AllocError>
    ensures { OnOk result (text.new.items ≡ text.old.items ++ 32 ∷ result_word (record { call = call; answer = answer.Refused error.now })) }
{
    match error {
        FamError::HistoryFull { used, need } => {
            push!(text, " {call}=error/HistoryFull/{used}/{need}")?;
        }
        FamError::JournalFull { used, need } => {
            push!(text, " {call}=error/JournalFull/{used}/{need}")?;
        }
        _ => push!(text, " {call}=error/{}", error.name())?,
    }
    Ok(())
}

fn push_read_result(text: &mut Vec<u8>, call: u64, bytes: &[u8]) -> Result<(), AllocError>
    ensures { OnOk result (text.new.items ≡ text.old.items ++ 32 ∷ result_word (record { call = call; answer = answer.Data bytes.now })) }
{
    push!(text, " {call}=ok/")?;
    push_hex(text, bytes)
}

/// Appends the result of an operation, as one word.
fn push_result(text: &mut Vec<u8>, told: &OpResult) -> Result<(), AllocError>
    ensures { OnOk result (text.new.items ≡ text.old.items ++ 32 ∷ result_word told.now) }
{
    let call = told.call;
    match &told.answer {
        PieceAnswer::Ok => push!(text, " {call}=ok"),
        PieceAnswer::Data(bytes) => push_read_result(text, call, bytes.as_slice()),
        PieceAnswer::Refused(error) => push_failed_result(text, call, error),
    }
}

#[tactic(auto, using(crate::proofs::Joined::texts))]
fn push_results(text: &mut Vec<u8>, results: &[OpResult]) -> Result<(), AllocError>
    ensures { OnOk result (text.new.items ≡ text.old.items ++ spaced (map result_word results.now)) }
{
    for told in results {
        push_result(text, told)?;
    }
    Ok(())
}

#[tactic(auto, using(crate::proofs::Joined::texts))]
fn push_report(text: &mut Vec<u8>, results: &[OpResult]) -> Result<(), AllocError>
    ensures { OnOk result (text.new.items ≡ text.old.items ++ spaced (reply_words (reply.Report results.now))) }
{
    push_text(text, " report")?;
    push_results(text, results)?;
    Ok(())
}

#[tactic(auto, using(crate::proofs::Joined::texts))]
fn push_region_stat(text: &mut Vec<u8>, row: &RegionInfo) -> Result<(), AllocError>
    ensures { OnOk result (text.new.items ≡ text.old.items ++ spaced (reply_words (reply.RegionStat row.now))) }
{
    push_text(text, " region-stat ")?;
    text.extend_from_slice(row.name.as_slice())?;
    push!(text, " {} {} {}", row.size, row.uid, row.gid)?;
    push_mode(text, row.mode)?;
    Ok(())
}

#[tactic(auto, using(crate::proofs::Joined::texts))]
fn push_item_stat(text: &mut Vec<u8>, row: &ItemInfo) -> Result<(), AllocError>
    ensures { OnOk result (text.new.items ≡ text.old.items ++ spaced (reply_words (reply.ItemStat row.now))) }
{
    push_text(text, " stat ")?;
    text.extend_from_slice(row.name.as_slice())?;
    push!(
        text,
        " {} {} {} {} {}",
        row.region.0,
        row.base,
        row.size,
        row.uid,
        row.gid
    )?;
    push_mode(text, row.mode)?;
    Ok(())
}

/// Appends a reply.
pub fn push_reply(text: &mut Vec<u8>, reply: &Reply) -> Result<(), AllocError>
    ensures { OnOk result (text.new.items ≡ text.old.items ++ spaced (reply_words reply.now)) }
{
    match reply {
        Reply::Done => push_text(text, " ok"),
        Reply::Issued => push_text(text, " issued"),
        Reply::Bytes(bytes) => push_bytes(text, bytes.as_slice()),
        Reply::Region(region) => push!(text, " region {}", region.0),
        Reply::Item(item) => {
            push!(
                text,
                " item {} {} {} {}",
                item.item.0,
                item.region.0,
                item.base,
                item.size
            )
        }
        Reply::RegionStat(row) => push_region_stat(text, row),
        Reply::ItemStat(row) => push_item_stat(text, row),
        Reply::Value(number) => push!(text, " value {number}"),
        Reply::Report(results) => push_report(text, results.as_slice()),
        Reply::Passed => push_text(text, " passed"),
        Reply::Left => push_text(text, " left"),
        Reply::Crashed => push_text(text, " crashed"),
        Reply::Error(error) => push_failure(text, error),
    }
}

/// Appends a reply with the name of its call.
#[tactic(auto, using(crate::proofs::Joined::texts))]
pub fn push_reply_line(text: &mut Vec<u8>, line: &ReplyLine) -> Result<(), AllocError>
    ensures { OnOk result (text.new.items ≡ text.old.items ++ reply_line_text line.now) }
{
    push_call_name(text, line.pe, line.call)?;
    push_reply(text, &line.reply)?;
    Ok(())
}

/// Appends a line for each reply.
#[tactic(auto, using(crate::proofs::Joined::texts))]
pub fn push_reply_lines(text: &mut Vec<u8>, lines: &[ReplyLine]) -> Result<(), AllocError>
    ensures { OnOk result (text.new.items ≡ text.old.items ++ text_of (map reply_line_text lines.now)) }
{
    for line in lines {
        push_reply_line(text, line)?;
        push_text(text, "\n")?;
    }
    Ok(())
}
