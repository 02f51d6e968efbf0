//! The bytes of a stripe, by region, row and place in the row.
#![tactic(auto)]

mod row;
mod rows;
mod store;
#[cfg(test)]
mod tests;

pub use store::Store;
