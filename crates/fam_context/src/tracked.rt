//! What contracts see of a context, and what a context counts.

use fam_base::Sequence;

/// What contracts see of a context: the context of the definitions, and for each of its operations and each
/// of their pieces whether it is out. A piece is out from when it is posted until it is collected or lost.
/// No value of this type is made.
#[derive(Drop)]
pub struct Tracked {
    pub context: fam_model::Context,
    pub out: Sequence<Sequence<bool>>,
}

/// How many pieces are held, how many are out, and how many are answered while their operation's result was
/// not told.
#[derive(Clone, Copy, Debug, PartialEq, Eq)]
pub struct Pending {
    pub held: u64,
    pub out: u64,
    pub done: u64,
}
