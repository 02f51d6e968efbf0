//! Room for items.

ghost use Rattle.std.specs.Prelude.{◌≡◌, ◌+◌, ◌≤◌, nat_le};
ghost use Rattle.fam_model.specs.Limits.{max_region_size};
ghost use Rattle.fam_model.specs.Rows as words;
ghost use Rattle.fam_model.specs.Rows.{IsLawful};
ghost use Rattle.fam_rows.specs.Passing.{blocks, moved, past, is_free as has_room};

use crate::limits::MAX_REGION_SIZE;
use fam_base::RegionId;
use fam_model::{ItemRow, RegionRow, Rows};

/// How many blocks of 64 bytes the room of `n` bytes has.
fn blocks_of(n: u64) -> u64
    ensures { result ≡ blocks n }
{
    n.div_ceil(64).max(1)
}

/// Where the room of an item ends.
pub(crate) fn room_end(item: &ItemRow) -> u64
    requires { words.room_end item.now ≤ max_region_size }
    ensures { result ≡ words.room_end item.now }
{
    item.base + 64 * blocks_of(item.size)
}

/// Whether the room of `n` bytes at `base` ends at `limit` or before it.
pub(crate) fn ends_by(base: u64, n: u64, limit: u64) -> bool
    ensures { result ≡ nat_le (base + words.room n) limit }
{
    base <= limit && blocks_of(n) <= (limit - base) / 64
}

/// Whether the room of `n` bytes at `base` does not meet the room of an item.
fn is_beside(n: u64, base: u64, item: &ItemRow) -> bool
    ensures { result ≡ words.is_beside n base item.now }
{
    ends_by(base, n, item.base) || ends_by(item.base, item.size, base)
}

/// Whether a new item of `n` bytes may lie at `base`.
pub(crate) fn fits(rows: &Rows, row: &RegionRow, n: u64, base: u64) -> bool
    ensures { result ≡ words.fits rows.now row.now n base }
{
    base % 64 == 0 && ends_by(base, n, row.size) && is_free(rows, row.number, n, base)
}

/// Whether the room of `n` bytes at `base` meets no item's room.
fn is_free(rows: &Rows, region: RegionId, n: u64, base: u64) -> bool
    ensures { result ≡ has_room rows.now region.0 n base }
{
    let mut items = rows
        .items
        .as_slice()
        .iter()
        .filter(|item| item.region.0 == region.0);
    items.all(|item| is_beside(n, base, item))
}

/// Moves a base to where the item's room ends if the room of `n` bytes there meets it.
fn moved_past(n: u64, base: u64, item: &ItemRow) -> u64
    requires { words.room_end item.now ≤ max_region_size }
    ensures { result ≡ moved n base item.now }
{
    if is_beside(n, base, item) {
        base
    } else {
        room_end(item)
    }
}

/// Moves a base, in turn, past each item of the region whose room it meets.
fn past_items(rows: &Rows, region: RegionId, n: u64, from: u64) -> u64
    requires { IsLawful rows.now }
    ensures { result ≡ past n from (words.items_in rows.now region.0) }
{
    let mut base = from;
    for item in rows.items.as_slice().iter() {
        if item.region.0 == region.0 {
            base = moved_past(n, base, item);
        }
    }
    base
}

/// The least base at which `n` bytes fit, if there is one. It passes over the items again only where it has moved, at most once for each item of the region.
pub(crate) fn least_base(rows: &Rows, row: &RegionRow, n: u64) -> Option<u64>
    requires lawful { IsLawful rows.now }
    requires size { row.now.size ≤ max_region_size }
    ensures { result ≡ words.least_base rows.now row.now n }
{
    let mut base = 0;
    while ends_by(base, n, row.size) {
        let next = past_items(rows, row.number, n, base);
        if next == base {
            return Some(base);
        }
        base = next;
    }
    None
}

/// Whether `n` bytes fit nowhere in the region.
pub(crate) fn has_no_gap(rows: &Rows, row: &RegionRow, n: u64) -> bool
    requires lawful { IsLawful rows.now }
    requires size { row.now.size ≤ max_region_size }
    ensures { result ≡ words.no_gap rows.now row.now n }
{
    least_base(rows, row, n).is_none()
}
