//! Why the machine does not step.

use fam_base::NoMemory;
use thiserror::Error;

/// Why an event made no step.
#[derive(Clone, Copy, Debug, PartialEq, Eq, Error)]
pub enum StepError {
    /// Memory was wanting.
    #[error("Memory")]
    Memory,
    /// The event may not come. This is the least rule that it breaks:
    ///  1. the turn of its program
    ///  2. the reply to a call on the directory
    ///  3. the answer at issue
    ///  4. the order of pieces
    ///  5. the answer of a piece
    ///  6. the answer of a call
    ///  7. opening and fences of contexts
    ///  8. reports
    ///  9. the wait for a copy
    /// 10. the barrier
    /// 11. the end of a program
    /// 12. refusals for want of room or by the disk
    #[error("breaks rule {0}")]
    Illegal(u8),
}

impl From<NoMemory> for StepError {
    ghost use Rattle.std.specs.Prelude.{◌≡◌};
    ghost use Rattle.fam_machine.specs.declared.error.StepError.TheVariants.{Memory};

    ghost from_gives = { λ _ error. error ≡ Memory };

    fn from(_error: NoMemory) -> StepError {
        StepError::Memory
    }
}
