//! Which gets, puts and atomics are refused.

ghost use Rattle.std.specs.Prelude.{◌≡◌, IsTrue};
ghost use Rattle.fam_base.specs.declared.naming.Descriptor as descriptors;
ghost use Rattle.fam_layout.specs.Plans.{plan_refusal};
ghost use Rattle.fam_model.specs.Atomic as atomics;
ghost use Rattle.fam_plan.specs.Single as single;

use fam_base::{Descriptor, FamError};
use fam_model::{DataOp, Op, Width};

/// The bytes that a call may move.
const MAX_BYTES: u64 = 1_048_576;

/// Works on single bits, which signed widths do not have.
fn is_bitwise(op: Op) -> bool
    ensures { result ≡ atomics.is_bitwise op }
{
    match op {
        Op::And | Op::Or | Op::Xor | Op::FetchAnd | Op::FetchOr | Op::FetchXor => true,
        _ => false,
    }
}

fn is_supported(op: Op, width: Width) -> bool
    ensures { result ≡ atomics.is_supported op width }
{
    match width {
        Width::I32 | Width::I64 => !is_bitwise(op),
        Width::U32 | Width::U64 => true,
        Width::I128 => is_plain(op),
        Width::F32 | Width::F64 => false,
    }
}

fn is_plain(op: Op) -> bool
    ensures { result ≡ atomics.is_plain op }
{
    match op {
        Op::Set | Op::Fetch | Op::Cas => true,
        _ => false,
    }
}

/// The bytes of a number of this width.
pub fn width_bytes(width: Width) -> u64
    ensures { result ≡ atomics.width_bytes width }
{
    match width {
        Width::I32 | Width::U32 | Width::F32 => 4,
        Width::I64 | Width::U64 | Width::F64 => 8,
        Width::I128 => 16,
    }
}

/// Why `n` bytes from `offset` on, of an item of this size, are refused.
fn element_refusal(size: u64, offset: u64, n: u64) -> Option<FamError>
    ensures { result ≡ single.element_refusal size offset n }
{
    if n > MAX_BYTES {
        Some(FamError::TooLarge)
    } else if offset > size || n > size - offset {
        Some(FamError::Range)
    } else {
        None
    }
}

fn atomic_refusal(size: u64, offset: u64, width: Width, op: Op) -> Option<FamError>
    ensures { result ≡ single.atomic_refusal size offset width op }
{
    if !is_supported(op, width) {
        Some(FamError::Unsupported)
    } else if offset % width_bytes(width) != 0 {
        Some(FamError::Unaligned)
    } else {
        element_refusal(size, offset, width_bytes(width))
    }
}

/// Why the operation is refused, if it is.
pub fn refusal(op: &DataOp, from: Descriptor) -> Option<FamError>
    requires { IsTrue (single.is_single op.now) }
    ensures { (to : descriptors.Descriptor) → result ≡ plan_refusal op.now from to }
{
    match op {
        DataOp::Get { offset, count, .. } => element_refusal(from.size, *offset, *count),
        DataOp::Put { offset, bytes, .. } => {
            element_refusal(from.size, *offset, bytes.len() as u64)
        }
        DataOp::Atomic {
            offset,
            width,
            op,
            ..
        } => atomic_refusal(from.size, *offset, *width, *op),
        _ => unreachable!(),
    }
}
