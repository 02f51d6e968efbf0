//! What comes of a change.

/// Whether a change was kept.
#[derive(Clone, Copy, Debug, PartialEq, Eq)]
pub enum Kept {
    /// It was kept, or there is no journal.
    Served,
    /// The disk failed. A crash may leave the change all the same exactly where it is in doubt.
    Refused { doubt: bool },
}
