//! The directory with indexes: names, rows by their numbers, and the room of each region.
#![tactic(auto)]

mod building;
mod changing;
mod copying;
mod directory;
mod finding;
mod indexed;
mod items;
mod lawful;
mod listing;
mod names;
mod refusing;
mod region;
mod searching;
mod slots;
#[cfg(test)]
mod tests;

pub use directory::Directory;
pub use indexed::IndexedRows;
pub use listing::{ItemRows, RegionRows};
