//! The auditor: whether a report is that of a legal run of its script.
#![tactic(auto)]

mod asking;
mod auditor;
mod copying;
mod judging;
mod laws;
mod lines;
mod opening;
#[cfg(test)]
mod tests;
mod turn;
mod verdict;

pub use copying::copy_of_rows;
pub use judging::audit;
pub use laws::{bytes_are_one_script, legal_reports_are_of_runs, reports_of_runs_are_legal};
pub use verdict::Verdict;
