//! Gets, puts and atomics in pieces.
#![tactic(auto)]

mod piece;
mod planning;
mod refusal;
#[cfg(test)]
mod tests;

pub use piece::{piece_at, reads, writes};
pub use planning::{kind_of, plan, with_pieces};
