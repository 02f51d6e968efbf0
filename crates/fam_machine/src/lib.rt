//! The memory machine as a plain program: its step is the definition's.
#![tactic(auto)]

mod answers;
mod contexts;
mod ends;
mod error;
mod issue;
mod machine;
mod memory;
mod meta;
mod parts;
mod pieces;
mod plain;
mod refused;
#[cfg(test)]
mod tests;

pub use error::StepError;
pub use machine::Machine;
