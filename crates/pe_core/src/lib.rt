//! The calls of a program, one after another.
#![tactic(auto)]

mod action;
mod pe;
mod place;
mod write_out;

pub use pe::Pe;
