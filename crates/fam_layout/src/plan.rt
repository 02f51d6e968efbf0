//! The plan of an operation.

use fam_base::Sequence;
use fam_model::{PlanKind, PlanPiece};

/// What an operation gives back, and its pieces in order of number.
#[derive(Drop)]
pub struct Plan {
    pub kind: PlanKind,
    pub pieces: Sequence<PlanPiece>,
}
