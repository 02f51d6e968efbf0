//! Reports read exactly: which bytes are one, and at which line other bytes stop being the beginning of one.
#![tactic(auto)]

mod answer;
mod call;
mod cut;
mod event;
mod fits;
mod laws;
mod lines;
mod opening;
mod printed;
mod reader;
mod replies;
mod results;
mod rows;
mod stage;
#[cfg(test)]
mod tests;
mod what;
mod word;

pub use laws::bytes_are_one_report;
pub use reader::{ReportFault, read};
