//! Atomics on the bytes of a number.
#![tactic(auto)]

mod atomic;
mod number;
#[cfg(test)]
mod tests;

pub use atomic::{apply, supported};
pub use number::{value, width_bytes};
