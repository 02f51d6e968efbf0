//! Scripts made from a seed, and the line that tells how a run of one went.
#![tactic(auto)]

mod calls;
mod making;
mod printing;
#[cfg(test)]
mod tests;
mod trial;

pub use making::{made, made_script};
pub use printing::script_text;
pub use trial::trial_line;
