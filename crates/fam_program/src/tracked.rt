//! What contracts see of a program.

use fam_base::Sequence;
use fam_model::ProgramState;

/// What contracts see of a program: its state of the definitions, and for each of its contexts what is out
/// there. No value of this type is made.
#[derive(Drop)]
pub struct TrackedProgram {
    pub state: ProgramState,
    pub out: Sequence<Sequence<Sequence<bool>>>,
}
