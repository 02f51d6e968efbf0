//! What may be asked of the service.

use fam_base::{NoMemory, PeId};
use fam_model::Call;
use thiserror::Error;

/// A step that is asked for. The service says what comes of it.
#[derive(Debug, PartialEq, Eq, Drop)]
pub enum Step {
    /// A program makes its next call.
    Call { pe: PeId, call: Call },
    /// What a program has started is answered.
    Answer { pe: PeId },
    /// A piece of a call is moved.
    Piece { pe: PeId, call: u64, piece: u32 },
    /// A piece of a program that has crashed is lost.
    Lose { pe: PeId, call: u64, piece: u32 },
}

/// Why no event came of a step.
#[derive(Clone, Copy, Debug, PartialEq, Eq, Error)]
pub enum CoreFault {
    /// Memory was wanting.
    #[error("no memory")]
    Memory,
    /// No event of that shape may come now.
    #[error("not enabled")]
    NotEnabled,
}

impl From<NoMemory> for CoreFault {
    ghost use Rattle.std.specs.Prelude.{◌≡◌};
    ghost use Rattle.fam_steps.specs.declared.step.CoreFault.TheVariants.{Memory};

    ghost from_gives = { λ _ fault. fault ≡ Memory };

    fn from(_error: NoMemory) -> CoreFault {
        CoreFault::Memory
    }
}
