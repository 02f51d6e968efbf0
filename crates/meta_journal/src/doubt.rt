//! What a crash may leave beside the acknowledged changes.

ghost use Rattle.std.specs.Prelude.{◌≡◌, ◌<◌, ◌≤◌, ◌^◌, IfSome};
ghost use Rattle.meta_journal.specs.Settling.{settling_byte};

use crate::area::{Area, byte_of, disk_place};
use fam_model::Change;

/// What is in doubt once a write and its sync failed.
#[derive(Drop)]
pub enum Doubt {
    Nothing,
    /// Whether the gate of this change, behind the acknowledged ones, is open.
    OfChange(Change),
    /// Which of the two areas is in use. Both have the same rows.
    OfArea,
}

/// The byte that settles a doubt, and its place on the disk.
pub(crate) fn settling(limit: u64, area: Area, used: u64, doubt: &Doubt) -> Option<(u64, u8)>
    requires from { 16 ≤ used }
    requires within { used < limit }
    requires limit { limit ≤ 2 ^ 24 }
    ensures value { result ≡ settling_byte limit area used doubt.now }
    ensures bound { IfSome result (λ found. found.0 < 2 ^ 25) }
{
    match doubt {
        Doubt::Nothing => None,
        Doubt::OfChange(_) => Some((disk_place(limit, area, used), 0)),
        Doubt::OfArea => Some((8, byte_of(area))),
    }
}
