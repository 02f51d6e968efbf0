//! A script played on one thread: the machine, the programs on their way, and the order that a seed draws.
#![tactic(auto)]

mod able;
mod actors;
mod chosen;
mod opening;
mod playing;
mod simulation;
#[cfg(test)]
mod tests;
mod turn;

pub use fam_steps::{Core, CoreFault, Step};
pub use simulation::{Played, Simulated, play_script, simulate};
