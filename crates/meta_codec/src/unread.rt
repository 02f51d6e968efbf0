//! Why a change was not read.

ghost use Rattle.std.specs.Prelude.{◌≡◌};
ghost use Rattle.meta_codec.specs.declared.unread.Unread.TheVariants.{Memory};

use fam_base::NoMemory;

/// Why a change was not read.
#[derive(Clone, Copy, Debug, PartialEq, Eq)]
pub(crate) enum Unread {
    /// Memory was wanting.
    Memory,
    /// The bytes are no body.
    NoBody,
}

impl From<NoMemory> for Unread {
    ghost from_gives = { λ _ unread. unread ≡ Memory };

    fn from(_error: NoMemory) -> Unread {
        Unread::Memory
    }
}
