//! Which gathers, scatters and copies are refused.

ghost use Rattle.std.specs.Prelude.{◌≡◌, ◌+◌, ◌*◌, ◌||◌, false, nat_lt, length};
ghost use Rattle.fam_layout.specs.Plans.{plan_refusal};
ghost use Rattle.fam_model.specs.Limits.{max_bytes, max_elements};
ghost use Rattle.fam_model.specs.Pieces as cutting;
ghost use Rattle.fam_plan.specs.Single.{is_single};
ghost use Rattle.fam_vector.specs.Vector as vector;

use crate::element::{Strided, indexed_past, strided_past};
use fam_base::{Descriptor, FamError, Places};
use fam_model::DataOp;

/// The bytes that a call may move.
const MAX_BYTES: u64 = 1_048_576;

/// The elements that a call may have.
const MAX_ELEMENTS: u64 = 4096;

/// Whether so many elements of this size are too many, or have too many bytes.
fn are_too_large(count: u64, size: u64) -> bool
    ensures { result ≡ (nat_lt max_bytes (count * size) || nat_lt max_elements count) }
{
    u128::from(count) * u128::from(size) > u128::from(MAX_BYTES) || count > MAX_ELEMENTS
}

fn strided_refusal(limit: u64, elements: Strided) -> Option<FamError>
    ensures { result ≡ vector.elements_refusal limit (elements.count * elements.size) elements.count (vector.strided_parts elements) }
{
    if are_too_large(elements.count, elements.size) {
        Some(FamError::TooLarge)
    } else if strided_past(limit, elements) {
        Some(FamError::Range)
    } else {
        None
    }
}

fn indexed_refusal(limit: u64, size: u64, places: &Places) -> Option<FamError>
    ensures { result ≡ vector.elements_refusal limit (length places.now * size) (length places.now) (cutting.indexed size places.now) }
{
    if are_too_large(places.len() as u64, size) {
        Some(FamError::TooLarge)
    } else if indexed_past(limit, size, places.as_slice()) {
        Some(FamError::Range)
    } else {
        None
    }
}

/// Whether `n` bytes from `offset` on end past the size.
fn is_past(size: u64, offset: u64, n: u64) -> bool
    ensures { result ≡ nat_lt size (offset + n) }
{
    offset > size || n > size - offset
}

fn copy_refusal(
    from_size: u64,
    from_offset: u64,
    to_size: u64,
    to_offset: u64,
    count: u64,
) -> Option<FamError>
    ensures { result ≡ vector.copy_refusal from_size from_offset to_size to_offset count }
{
    if count > MAX_BYTES {
        Some(FamError::TooLarge)
    } else if is_past(from_size, from_offset, count) || is_past(to_size, to_offset, count) {
        Some(FamError::Range)
    } else {
        None
    }
}

/// Why the operation is refused, if it is.
pub fn refusal(op: &DataOp, from: Descriptor, to: Descriptor) -> Option<FamError>
    requires { is_single op.now ≡ false }
    ensures { result ≡ plan_refusal op.now from to }
{
    match op {
        DataOp::Gather {
            first,
            stride,
            size,
            count,
            ..
        }
        | DataOp::Scatter {
            first,
            stride,
            size,
            count,
            ..
        } => strided_refusal(
            from.size,
            Strided {
                first: *first,
                stride: *stride,
                size: *size,
                count: *count,
            },
        ),
        DataOp::GatherIndex { size, places, .. } | DataOp::ScatterIndex { size, places, .. } => {
            indexed_refusal(from.size, *size, places)
        }
        DataOp::Copy {
            from_offset,
            to_offset,
            count,
            ..
        } => copy_refusal(from.size, *from_offset, to.size, *to_offset, *count),
        _ => unreachable!(),
    }
}
