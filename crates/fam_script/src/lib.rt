//! Scripts: their text, its grammar, and their parser.
#![tactic(auto)]

mod number;
pub mod printing;
mod script;

pub use number::number_in;
pub use printing::statement;
pub use script::{ScriptFault, cut, parse, parse_line, word};
