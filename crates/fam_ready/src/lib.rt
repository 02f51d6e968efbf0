//! Which pieces may come, kept over each event.
#![tactic(auto)]

mod laws;
mod release;
mod renew;
#[cfg(test)]
mod tests;
mod update;

pub use laws::{opened_lists_are_empty, opened_states_are_tidy, steps_keep_states_tidy};
pub use update::follow;
