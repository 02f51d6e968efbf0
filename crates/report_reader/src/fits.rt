//! Which lines have a text of their own.

ghost use Rattle.std.specs.Prelude.{◌≡◌, ◌||◌, not, true};
ghost use Rattle.std.specs.List.{list_all};
ghost use Rattle.fam_base.specs.Name.{is_between};
ghost use Rattle.fam_model.specs.Shape as shapes;
ghost use Rattle.fam_model.specs.Values as values;
ghost use Rattle.fam_model.specs.declared.reply.Reply.TheVariants as replies;
ghost use Rattle.report_reader.specs.EventForm as forms;
ghost use Rattle.report_reader.specs.Report as reports;
ghost use Rattle.report_reader.specs.Reading.{calls_told};

use fam_base::{Bytes, FamError, Mode};
use fam_model::{
    Event, ItemInfo, OpResult, PieceAnswer, RegionInfo, Reply, ReplyLine, What, Width,
};

fn number_fits(number: u64)
    ensures { values.is_u64 number ≡ true }
{}

pub fn small_fits(number: u32)
    ensures { values.is_u32 number ≡ true }
{}

fn mode_fits(mode: Mode)
    ensures { values.is_mode mode ≡ true }
{
    let _bits = mode.bits();
}

fn bytes_fit(bytes: &[u8])
    ensures { values.are_bytes bytes.now ≡ true }
{}

fn are_printed(name: &[u8]) -> bool
    ensures { result ≡ list_all (is_between 33 126) name.now }
{
    name.iter().all(|byte| 33 <= *byte && *byte <= 126)
}

fn is_name(name: &Bytes) -> bool
    ensures { result ≡ shapes.is_name name.now }
{
    match name.len() {
        1..=64 => are_printed(name.as_slice()),
        _ => false,
    }
}

fn error_fits(error: &FamError)
    ensures { values.error_fits error.now ≡ true }
{
    match error {
        FamError::HistoryFull { used, need } | FamError::JournalFull { used, need } => {
            number_fits(*used);
            number_fits(*need)
        }
        _ => (),
    }
}

fn answer_fits(answer: &PieceAnswer)
    ensures { values.answer_fits answer.now ≡ true }
{
    match answer {
        PieceAnswer::Ok => (),
        PieceAnswer::Data(bytes) => bytes_fit(bytes.as_slice()),
        PieceAnswer::Refused(error) => error_fits(error),
    }
}

fn result_fits(told: &OpResult) -> bool
    ensures { result ≡ values.result_fits told.now }
{
    number_fits(told.call);
    answer_fits(&told.answer);
    true
}

fn results_fit(results: &[OpResult]) -> bool
    ensures { result ≡ list_all values.result_fits results.now }
{
    results.iter().all(|told| result_fits(told))
}

fn region_info_fits(row: &RegionInfo) -> bool
    ensures { result ≡ values.reply_fits (replies.RegionStat row.now) }
{
    number_fits(row.size);
    small_fits(row.uid);
    small_fits(row.gid);
    mode_fits(row.mode);
    is_name(&row.name)
}

fn item_info_fits(row: &ItemInfo) -> bool
    ensures { result ≡ values.reply_fits (replies.ItemStat row.now) }
{
    number_fits(row.region.0);
    number_fits(row.base);
    number_fits(row.size);
    small_fits(row.uid);
    small_fits(row.gid);
    mode_fits(row.mode);
    is_name(&row.name)
}

/// The fields of a reply hold their numbers, and its name is one.
fn reply_fits(reply: &Reply) -> bool
    ensures { result ≡ values.reply_fits reply.now }
{
    match reply {
        Reply::Bytes(bytes) => {
            bytes_fit(bytes.as_slice());
            true
        }
        Reply::Region(region) => {
            number_fits(region.0);
            true
        }
        Reply::Item(place) => {
            number_fits(place.item.0);
            number_fits(place.region.0);
            number_fits(place.base);
            number_fits(place.size);
            true
        }
        Reply::RegionStat(row) => region_info_fits(row),
        Reply::ItemStat(row) => item_info_fits(row),
        Reply::Value(value) => Width::I128.contains(*value),
        Reply::Report(results) => results_fit(results.as_slice()),
        Reply::Error(error) => {
            error_fits(error);
            true
        }
        Reply::Done | Reply::Issued | Reply::Passed | Reply::Left | Reply::Crashed => true,
    }
}

/// A reply line that has a text of its own.
pub fn reply_line_fits(told: &ReplyLine) -> bool
    ensures { result ≡ reports.reply_line_fits told.now }
{
    small_fits(told.pe.0);
    number_fits(told.call);
    reply_fits(&told.reply)
}

fn is_issue_reply(reply: &Reply) -> bool
    ensures { result ≡ forms.is_issue_reply reply.now }
{
    match reply {
        Reply::Issued => true,
        Reply::Error(error) => {
            error_fits(error);
            true
        }
        _ => false,
    }
}

fn may_be_doubted(error: &FamError, doubt: bool) -> bool
    ensures { result ≡ (forms.is_disk_fault error.now || not doubt) }
{
    match error {
        FamError::DiskFault => true,
        _ => !doubt,
    }
}

/// What has a text of its own, where its call is one that can be told.
fn what_fits(what: &What) -> bool
    requires { calls_told what.now ≡ true }
    ensures { result ≡ forms.what_fits what.now }
{
    match what {
        What::Meta { reply, .. } | What::Answer { reply } => reply_fits(reply),
        What::Issue { reply, .. } => is_issue_reply(reply),
        What::Piece { piece, answer } => {
            small_fits(*piece);
            answer_fits(answer);
            true
        }
        What::OpenContext { context } | What::Fence { context } => *context < 8,
        What::CloseContext { context, reply } | What::Quiet { context, reply } => {
            *context < 8 && reply_fits(reply)
        }
        What::Wait {
            context,
            named,
            reply,
        } => {
            number_fits(*named);
            *context < 8 && reply_fits(reply)
        }
        What::Arrive | What::Leave | What::Crash => true,
        What::Lose { piece } => {
            small_fits(*piece);
            true
        }
        What::Refused { error, doubt, .. } => {
            error_fits(error);
            may_be_doubted(error, *doubt)
        }
    }
}

/// An event that has a text of its own, where its call is one that can be told.
pub fn event_fits(event: &Event) -> bool
    requires { calls_told event.now.what ≡ true }
    ensures { result ≡ forms.event_fits event.now }
{
    small_fits(event.pe.0);
    number_fits(event.call);
    what_fits(&event.what)
}
