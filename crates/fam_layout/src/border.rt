//! Where the next unit begins.

ghost use Rattle.std.specs.Prelude.{◌≡◌, ℕ, ◌+◌, ◌≤◌, ◌<◌, ◌^◌, false, true};
ghost use Rattle.fam_model.specs.Pieces.{is_border};

/// The least place past `place` where a unit begins, in an item at `base`.
pub fn next_border(unit: u32, base: u64, place: u64) -> u64
    requires some { 0 < unit }
    requires small { base + place ≤ 2 ^ 28 }
    ensures past { place < result }
    ensures near { result ≤ place + unit }
    ensures is { is_border unit base result ≡ true }
    ensures least { (k : ℕ) → place < k → k < result → is_border unit base k ≡ false }
{
    let unit = u64::from(unit);
    place + (unit - (base + place) % unit)
}
