//! Elements at equal distances and at given places, where they end, and their cuts.

ghost use Rattle.std.specs.Prelude.{◌≡◌, ◌+◌, ◌*◌, ◌≤◌, ◌^◌, false, nat_lt, IfOk};
ghost use Rattle.fam_model.specs.Issue as issue;
ghost use Rattle.fam_model.specs.Pieces as cutting;
ghost use Rattle.fam_vector.specs.Vector.{strided_parts};

use fam_base::{Descriptor, NoMemory, Sequence};
use fam_layout::{Layout, Ranges};
use std::alloc::Global;

/// Elements of one size at equal distances. `first` and `stride` count elements.
#[derive(Clone, Copy)]
pub struct Strided {
    pub first: u64,
    pub stride: u64,
    pub size: u64,
    pub count: u64,
}

/// The place of an element, counted in elements.
fn strided_place(first: u64, stride: u64, k: u64) -> u128
    ensures { result ≡ first + k * stride }
{
    u128::from(first) + u128::from(k) * u128::from(stride)
}

/// Whether an element of this size at a place ends past the limit.
fn is_past(limit: u64, place: u128, size: u64) -> bool
    ensures { result ≡ nat_lt limit (place * size + size) }
{
    let size = u128::from(size);
    match place.checked_mul(size) {
        Some(start) => match start.checked_add(size) {
            Some(end) => end > u128::from(limit),
            None => true,
        },
        None => true,
    }
}

/// Whether some of these elements ends past the limit.
pub fn strided_past(limit: u64, elements: Strided) -> bool
    ensures { result ≡ issue.ends_past limit (strided_parts elements) }
{
    for k in 0..elements.count {
        let place = strided_place(elements.first, elements.stride, k);
        if is_past(limit, place, elements.size) {
            return true;
        }
    }
    false
}

/// Whether an element at some of these places ends past the limit.
pub fn indexed_past(limit: u64, size: u64, places: &[u64]) -> bool
    ensures { result ≡ issue.ends_past limit (cutting.indexed size places.now) }
{
    for place in places {
        if is_past(limit, u128::from(*place), size) {
            return true;
        }
    }
    false
}

/// The elements of an item, each cut where units begin.
pub fn strided_cuts(
    alloc: Global,
    layout: &Layout,
    target: Descriptor,
    elements: Strided,
) -> Result<Ranges, NoMemory>
    requires within { issue.ends_past target.size (strided_parts elements) ≡ false }
    requires small { target.base + target.size ≤ 2 ^ 26 }
    ensures { IfOk result (λ ranges. ranges ≡ cutting.all_cuts layout.now.unit target.base (strided_parts elements)) }
{
    let mut ranges = Sequence::new(alloc);
    for k in 0..elements.count {
        let place = strided_place(elements.first, elements.stride, k);
        let start = place * u128::from(elements.size);
        ranges = layout.cut_onto(ranges, target.base, start as u64, elements.size)?;
    }
    Ok(ranges)
}

/// The elements of an item at these places, each cut where units begin.
pub fn indexed_cuts(
    alloc: Global,
    layout: &Layout,
    target: Descriptor,
    size: u64,
    places: &[u64],
) -> Result<Ranges, NoMemory>
    requires within { issue.ends_past target.size (cutting.indexed size places.now) ≡ false }
    requires small { target.base + target.size ≤ 2 ^ 26 }
    ensures { IfOk result (λ ranges. ranges ≡ cutting.all_cuts layout.now.unit target.base (cutting.indexed size places.now)) }
{
    let mut ranges = Sequence::new(alloc);
    for place in places {
        ranges = layout.cut_onto(ranges, target.base, *place * size, size)?;
    }
    Ok(ranges)
}
