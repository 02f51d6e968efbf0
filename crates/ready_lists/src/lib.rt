//! For each stripe the pieces that may come there, in order of program, call and number.
#![tactic(auto)]

mod laws;
mod lists;
mod names;
mod piece;
#[cfg(test)]
mod tests;

pub use laws::{ready_lists_are_sorted, sorted_lists_are_ready};
pub use lists::ReadyLists;
pub use piece::PieceAt;
