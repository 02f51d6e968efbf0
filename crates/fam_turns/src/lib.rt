//! Which event of a program comes next, and whether it may come now.
#![tactic(auto)]

mod acting;
mod asking;
mod laws;
mod next;
mod refusing;
mod telling;
#[cfg(test)]
mod tests;

pub use acting::may_act;
pub use laws::next_events_are_scheduled;
pub use next::{Next, next_what};
