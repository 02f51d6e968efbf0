//! What a piece may be answered.

ghost use Rattle.std.specs.Prelude.{◌≡◌, ◌+◌, nat_lt, IfOk};
ghost use Rattle.fam_model.specs.Limits.{service_limits};
ghost use Rattle.fam_model.specs.PieceStep as steps;
ghost use Rattle.fam_model.specs.Rows.{IsLawful};
ghost use Rattle.fam_model.specs.Same.{same_answer};
ghost use Rattle.fam_machine.specs.Sound.{IsMemoryOf, IsSoundPiece};

use crate::memory::{Memory, bytes_found};
use fam_base::{FamError, NoMemory, Sequence, Who, allowed};
use fam_directory::IndexedRows;
use fam_model::{PieceAnswer, PlanKind, PlanPiece};
use std::alloc::Global;

/// The entries that one history may have.
const HISTORY: u128 = 262_144;

/// Whether a history of so many entries has no room for so many more.
pub fn exceeds_history(used: u64, need: u64) -> bool
    ensures { result ≡ nat_lt service_limits.history (used + need) }
{
    HISTORY < u128::from(used) + u128::from(need)
}

/// Whether the answer is an error.
pub fn is_refused(answer: &PieceAnswer) -> bool
    ensures { result ≡ steps.is_refused answer.now }
{
    matches!(answer, PieceAnswer::Refused(_))
}

/// Whether a piece that finds memory and room is answered so.
#[tactic(auto, unfolding(fam_model::specs::PieceStep::due_answer))]
fn is_due(
    rows: &IndexedRows,
    memory: &Memory,
    who: Who,
    kind: PlanKind,
    piece: &PlanPiece,
    given: &PieceAnswer,
) -> bool
    requires lawful { IsLawful rows.now }
    requires filled { IsMemoryOf rows.now.items memory.now }
    requires sound { IsSoundPiece rows.now piece.now }
    ensures { result ≡ same_answer given.now (steps.due_answer rows.now memory.now who kind piece.now) }
{
    let Some(row) = rows.item(piece.item) else {
        return *given == PieceAnswer::Refused(FamError::Absent);
    };
    let owner = Who {
        uid: row.uid,
        gid: row.gid,
    };
    if !allowed(owner, row.mode, who, piece.need) {
        return *given == PieceAnswer::Refused(FamError::NoPermission);
    }
    match (kind, given) {
        (PlanKind::Get | PlanKind::Fetch, PieceAnswer::Data(bytes)) => {
            bytes.as_slice() == bytes_found(memory, piece)
        }
        (PlanKind::Put | PlanKind::Copy, PieceAnswer::Ok) => true,
        _ => false,
    }
}

/// Whether a piece may be answered so: as it is due, or where memory or room is wanting.
#[tactic(auto, unfolding(fam_model::specs::PieceStep::may_answer))]
pub fn may_answer(
    rows: &IndexedRows,
    memory: &Memory,
    who: Who,
    kind: PlanKind,
    piece: &PlanPiece,
    given: &PieceAnswer,
) -> bool
    requires lawful { IsLawful rows.now }
    requires filled { IsMemoryOf rows.now.items memory.now }
    requires sound { IsSoundPiece rows.now piece.now }
    ensures { result ≡ steps.may_answer service_limits (steps.due_answer rows.now memory.now who kind piece.now) given.now }
{
    match given {
        PieceAnswer::Refused(FamError::Memory) => true,
        PieceAnswer::Refused(FamError::HistoryFull { used, need }) => exceeds_history(*used, *need),
        _ => is_due(rows, memory, who, kind, piece, given),
    }
}

/// What is told of a piece that is served, which found these bytes.
fn served_answer(alloc: Global, kind: PlanKind, found: &[u8]) -> Result<PieceAnswer, NoMemory>
    ensures { IfOk result (λ given. given ≡ steps.served_answer kind found.now) }
{
    match kind {
        PlanKind::Get | PlanKind::Fetch => Ok(PieceAnswer::Data(Sequence::of(alloc, found)?)),
        PlanKind::Put | PlanKind::Copy => Ok(PieceAnswer::Ok),
    }
}

/// The answer that a piece is due which finds memory and room.
#[tactic(auto, unfolding(fam_model::specs::PieceStep::due_answer))]
pub fn due_answer(
    alloc: Global,
    rows: &IndexedRows,
    memory: &Memory,
    who: Who,
    kind: PlanKind,
    piece: &PlanPiece,
) -> Result<PieceAnswer, NoMemory>
    requires lawful { IsLawful rows.now }
    requires filled { IsMemoryOf rows.now.items memory.now }
    requires sound { IsSoundPiece rows.now piece.now }
    ensures { IfOk result (λ given. given ≡ steps.due_answer rows.now memory.now who kind piece.now) }
{
    let Some(row) = rows.item(piece.item) else {
        return Ok(PieceAnswer::Refused(FamError::Absent));
    };
    let owner = Who {
        uid: row.uid,
        gid: row.gid,
    };
    if allowed(owner, row.mode, who, piece.need) {
        served_answer(alloc, kind, bytes_found(memory, piece))
    } else {
        Ok(PieceAnswer::Refused(FamError::NoPermission))
    }
}
