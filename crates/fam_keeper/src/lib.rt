//! What keeps the changes of the directory: a journal, or nothing.
#![tactic(auto)]

mod appending;
mod keeper;
mod kept;
mod same;
#[cfg(test)]
mod tests;

pub use keeper::Keeper;
pub use kept::Kept;
