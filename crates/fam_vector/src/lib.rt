//! Gathers, scatters and copies in pieces, and so each operation.
#![tactic(auto)]

mod copy;
mod element;
mod planning;
mod refusal;
#[cfg(test)]
mod tests;

pub use planning::plan;
