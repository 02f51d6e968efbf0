//! Where the bytes of a region lie, how a range of an item is cut into units, and the plan of an operation.
#![tactic(auto)]

mod border;
mod laws;
mod layout;
mod plan;
#[cfg(test)]
mod tests;

pub use laws::{pieces_lie_in_rows, places_differ};
pub use layout::{Layout, Ranges};
pub use plan::Plan;
