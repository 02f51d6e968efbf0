//! Texts of runs: the report, and its lines.
#![tactic(auto)]

mod report;

pub use report::{event_text, item_text, region_text, reply_line_text, text_of};
