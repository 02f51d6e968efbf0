//! A counter with bookings, as an object of a turn cell: the smallest one that refuses, reserves entries and has calls with owners.
#![tactic(auto)]

mod counter;
#[cfg(test)]
mod tests;

pub use counter::{Call, Counter};
