//! Names of pieces and their order.

ghost use Rattle.std.specs.Prelude.{◌≡◌};
ghost use Rattle.ready_lists.specs.Lists.{is_before, same_name};

/// A piece by its program, its call and its number.
#[derive(Clone, Copy, Debug, PartialEq, Eq)]
pub struct PieceAt {
    pub pe: u32,
    pub call: u64,
    pub piece: u32,
}

impl PieceAt {
    ghost use Rattle.ready_lists.specs.Views.{name_of};

    /// Whether it comes before the other one: by program, then by call, then by number.
    #[tactic(auto, unfolding(crate::specs::Lists::is_before))]
    pub fn is_before(self, other: PieceAt) -> bool
        ensures { result ≡ is_before (name_of self) (name_of other) }
    {
        self.pe < other.pe
            || (self.pe == other.pe
                && (self.call < other.call
                    || (self.call == other.call && self.piece < other.piece)))
    }

    /// Whether both are of one piece.
    #[tactic(auto, unfolding(crate::specs::Lists::same_name))]
    pub(crate) fn is_same(self, other: PieceAt) -> bool
        ensures { result ≡ same_name (name_of self) (name_of other) }
    {
        self.pe == other.pe && (self.call == other.call && self.piece == other.piece)
    }
}
