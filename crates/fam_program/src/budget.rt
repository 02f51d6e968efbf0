//! What an operation costs of a program's budget.

ghost use Rattle.std.specs.Prelude.{◌≡◌, ◌*◌, ◌+◌, ◌<◌, ◌≤◌, length};
ghost use Rattle.fam_model.specs.Atomic as atomics;
ghost use Rattle.fam_model.specs.Pieces.{moved};

use fam_model::{DataOp, Width};

fn width_bytes(width: Width) -> u128
    ensures { result ≡ atomics.width_bytes width }
{
    match width {
        Width::I32 | Width::U32 | Width::F32 => 4,
        Width::I64 | Width::U64 | Width::F64 => 8,
        Width::I128 => 16,
    }
}

/// How many bytes an operation moves.
pub(crate) fn moved(op: &DataOp) -> u128
    ensures { result ≡ moved op.now }
{
    match op {
        DataOp::Get { count, .. } | DataOp::Copy { count, .. } => u128::from(*count),
        DataOp::Put { bytes, .. } => bytes.len() as u128,
        DataOp::Gather { size, count, .. } | DataOp::Scatter { size, count, .. } => {
            u128::from(*count) * u128::from(*size)
        }
        DataOp::GatherIndex { size, places, .. } | DataOp::ScatterIndex { size, places, .. } => {
            places.len() as u128 * u128::from(*size)
        }
        DataOp::Atomic { width, .. } => width_bytes(*width),
    }
}

/// What a program's accepted calls have cost.
#[derive(Clone, Copy)]
pub(crate) struct Spent {
    pub(crate) data_calls: u64,
    pub(crate) moved: u64,
    pub(crate) pieces: u64,
}

/// What they have cost with one operation more.
pub(crate) fn spend(data_calls: u64, before: u64, pieces: u64, op: &DataOp, count: u64) -> Spent
    requires calls { data_calls < 65536 }
    requires bytes { before + moved op.now ≤ 4194304 }
    requires parts { pieces + count ≤ 65536 }
    ensures calls { result.data_calls ≡ data_calls + 1 }
    ensures bytes { result.moved ≡ before + moved op.now }
    ensures parts { result.pieces ≡ pieces + count }
{
    let more = moved(op) as u64;
    Spent {
        data_calls: data_calls + 1,
        moved: before + more,
        pieces: pieces + count,
    }
}
