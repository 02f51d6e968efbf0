//! Ranges in order of base.

ghost use Rattle.std.specs.Prelude.{◌≡◌, ℕ, ◌+◌, ◌<◌, ◌≤◌, ◌++◌, ◌∷◌, ◌==◌, List, nat_le, length, find, take, drop};
ghost use Rattle.std.specs.List.{list_any};
ghost use Rattle.std.specs.Option.{option_copied};
ghost use Rattle.std.specs.Vec.{vec_len, vec_capacity};
ghost use Rattle.fam_model.specs.Limits.{max_region_size};
ghost use Rattle.fam_model.specs.Rows.{room};
ghost use Rattle.region_alloc.specs.declared.extent.Extent.{Extent as Room};
ghost use Rattle.region_alloc.specs.Gaps as words;
ghost use Rattle.region_alloc.specs.Gaps.{Apart, Leave, LieIn, Rise, count_before, first_gap, gap_of};

use crate::extent::Extent;

/// The room of `n` bytes: whole blocks of 64 bytes, at least one.
pub(crate) fn room_of(n: u64) -> u64
    requires { n ≤ max_region_size }
    ensures value { result ≡ room n }
    ensures bound { result ≤ max_region_size + 64 }
{
    64 * n.div_ceil(64).max(1)
}

/// How many ranges begin before a place.
fn places_before(extents: &[Extent], base: u64) -> usize
    requires { Rise 0 extents.now }
    ensures value { result ≡ count_before base extents.now }
    ensures within { result ≤ length extents.now }
{
    extents.partition_point(|extent| extent.base < base)
}

/// Puts the gap between two places into the list, unless it is empty.
fn put_gap(gaps: &mut Vec<Extent>, place: usize, from: u64, to: u64)
    requires within { place ≤ vec_len gaps.old }
    requires capacity { vec_len gaps.old + length (gap_of from to) ≤ vec_capacity gaps.old }
    ensures items { gaps.new.items ≡ take place gaps.old.items ++ (gap_of from to ++ drop place gaps.old.items) }
    ensures capacity { vec_capacity gaps.new ≡ vec_capacity gaps.old }
{
    if from < to {
        let gap = Extent {
            base: from,
            length: to - from,
        };
        match gaps.insert(place, gap) {
            Ok(()) => {}
            Err(_) => {}
        }
    }
}

/// Takes the gap between two places out of the list, unless it is empty.
fn cut_gap(gaps: &mut Vec<Extent>, place: usize, from: u64, to: u64)
    requires { place + length (gap_of from to) ≤ vec_len gaps.old }
    ensures items { gaps.new.items ≡ take place gaps.old.items ++ drop (place + length (gap_of from to)) gaps.old.items }
    ensures capacity { vec_capacity gaps.new ≡ vec_capacity gaps.old }
{
    if from < to {
        gaps.remove(place);
    }
}

/// The first gap that is long enough.
fn first_long(gaps: &[Extent], want: u64) -> Option<&Extent>
    ensures { option_copied result ≡ find (λ gap. nat_le want gap.length) gaps.now }
{
    let mut gaps = gaps.iter();
    gaps.find(|gap| gap.length >= want)
}

/// The base of the first gap that is long enough, or else the end of the last room.
pub(crate) fn first_base(gaps: &[Extent], end: u64, want: u64) -> u64
    ensures { result ≡ first_gap want gaps.now end }
{
    match first_long(gaps, want) {
        Some(gap) => gap.base,
        None => end,
    }
}

/// Whether so many bytes at a base lie in a gap.
fn has_bytes(gap: &Extent, base: u64, length: u64) -> bool
    ensures { result ≡ words.has_bytes base length gap.now }
{
    gap.base <= base && gap.length >= length && base - gap.base <= gap.length - length
}

/// Whether so many bytes at a base lie in some gap: in the last one that begins there or before it.
pub(crate) fn lies_in_gap(gaps: &[Extent], base: u64, length: u64) -> bool
    requires apart { Apart 0 gaps.now }
    requires some { 0 < length }
    requires bound { base ≤ max_region_size }
    ensures { result ≡ list_any (words.has_bytes base length) gaps.now }
{
    let count = places_before(gaps, base + 1);
    if count == 0 {
        return false;
    }
    match gaps.get(count - 1) {
        Some(gap) => has_bytes(gap, base, length),
        None => false,
    }
}

/// Whether a gap ends at a place.
fn ends_at(gap: &Extent, place: u64) -> bool
    ensures { result ≡ words.ends_at place gap.now }
{
    gap.base <= place && place - gap.base == gap.length
}

/// Where the last of the first `count` gaps begins if it ends at a place, or else that place.
fn start_of(gaps: &[Extent], count: usize, place: u64) -> u64
    requires { count ≤ length gaps.now }
    ensures { result ≡ words.start_of gaps.now count place }
{
    if count == 0 {
        return place;
    }
    match gaps.get(count - 1) {
        Some(gap) if ends_at(gap, place) => gap.base,
        _ => place,
    }
}

/// How long the gap behind the first `count` is if it begins at a place, or else 0.
fn length_at(gaps: &[Extent], count: usize, place: u64) -> u64
    ensures { result ≡ words.length_at gaps.now count place }
{
    match gaps.get(count) {
        Some(gap) if gap.base == place => gap.length,
        _ => 0,
    }
}

/// Takes a room out of the gap in which it lies, or behind the last room. The answer is where the last room ends now.
pub(crate) fn cut_room(gaps: &mut Vec<Extent>, end: u64, room: Extent) -> u64
    requires fits { (before behind : List Room) × LieIn 0 max_region_size (before ++ room ∷ behind) × Leave (before ++ behind) max_region_size gaps.old.items end }
    requires capacity { vec_len gaps.old < vec_capacity gaps.old }
    ensures left { (size : ℕ) (before behind : List Room) → LieIn 0 size (before ++ room ∷ behind) → Leave (before ++ behind) size gaps.old.items end → Leave (before ++ room ∷ behind) size gaps.new.items result }
    ensures capacity { vec_capacity gaps.new ≡ vec_capacity gaps.old }
{
    let stop = room.base + room.length;
    if room.base >= end {
        let last = gaps.len();
        put_gap(gaps, last, end, room.base);
        return stop;
    }
    let place = places_before(gaps.as_slice(), room.base + 1) - 1;
    let gap = gaps.remove(place);
    put_gap(gaps, place, stop, gap.base + gap.length);
    put_gap(gaps, place, gap.base, room.base);
    end
}

/// Gives a room back to the gaps, or to what lies behind the last room. The answer is where the last room ends now.
pub(crate) fn free_room(gaps: &mut Vec<Extent>, end: u64, room: Extent) -> u64
    requires { (before behind : List Room) × Leave (before ++ room ∷ behind) max_region_size gaps.old.items end × (length (before ++ behind) ≤ vec_capacity gaps.old) }
    ensures left { (size : ℕ) (before behind : List Room) → Leave (before ++ room ∷ behind) size gaps.old.items end → Leave (before ++ behind) size gaps.new.items result }
    ensures capacity { vec_capacity gaps.new ≡ vec_capacity gaps.old }
{
    let stop = room.base + room.length;
    let before = places_before(gaps.as_slice(), room.base);
    let start = start_of(gaps.as_slice(), before, room.base);
    let place = places_before(gaps.as_slice(), start);
    cut_gap(gaps, place, start, room.base);
    let next = stop + length_at(gaps.as_slice(), place, stop);
    cut_gap(gaps, place, stop, next);
    if stop == end {
        return start;
    }
    put_gap(gaps, place, start, next);
    end
}
