//! The memory that an append needs.

ghost use Rattle.std.specs.Prelude.{◌≡◌, ◌++◌, [], ◌∷◌};
ghost use Rattle.meta_journal.specs.Layout.{record_bytes};

use fam_base::Bytes;
use fam_model::Change;

/// A change whose append needs no more memory.
#[derive(Drop)]
pub struct Reserved {
    pub(crate) change: Change,
    /// The record, and the closed gate behind it.
    pub(crate) bytes: Bytes,
    ghost spells: { bytes ≡ record_bytes change ++ 0 ∷ [] },
}

/// What the next append needs.
#[derive(Drop)]
pub struct Reserve {
    pub(crate) record: Reserved,
    /// The short form of the rows, where the journal has to go over to its other area first.
    pub(crate) short: Option<Bytes>,
}
