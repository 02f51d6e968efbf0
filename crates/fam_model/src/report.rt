//! A report as a value.

use crate::event::Event;
use crate::reply::Reply;
use crate::rows::Rows;
use fam_base::{PeId, Sequence};

/// The reply to a call of a program.
#[derive(Drop)]
pub struct ReplyLine {
    pub pe: PeId,
    pub call: u64,
    pub reply: Reply,
}

/// The replies of a run, the directory before it, and its events.
#[derive(Drop)]
pub struct Report {
    pub replies: Sequence<ReplyLine>,
    pub rows: Rows,
    pub history: Sequence<Event>,
}
