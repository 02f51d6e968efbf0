//! The two areas of a journal.

ghost use Rattle.std.specs.Prelude.{◌≡◌, ◌<◌, ◌≤◌, ◌^◌};
ghost use Rattle.meta_journal.specs.Layout.{area_byte, disk_place as place_on_disk, area_start as start_of_area};
ghost use Rattle.meta_journal.specs.Image.{other_area};

/// One of the two areas of records.
#[derive(Clone, Copy, Debug, PartialEq, Eq)]
pub enum Area {
    First,
    Second,
}

/// The byte of the header for an area in use.
pub(crate) fn byte_of(area: Area) -> u8
    ensures { result ≡ area_byte area }
{
    match area {
        Area::First => 0,
        Area::Second => 1,
    }
}

pub(crate) fn other_of(area: Area) -> Area
    ensures { result ≡ other_area area }
{
    match area {
        Area::First => Area::Second,
        Area::Second => Area::First,
    }
}

/// The place on the disk of a place in an area, which is counted from 16.
pub(crate) fn disk_place(limit: u64, area: Area, place: u64) -> u64
    requires from { 16 ≤ place }
    requires within { place < limit }
    requires limit { limit ≤ 2 ^ 24 }
    ensures { result ≡ place_on_disk limit area place }
{
    match area {
        Area::First => place,
        Area::Second => limit + (place - 16),
    }
}

/// Where an area begins on the disk.
pub(crate) fn area_start(limit: u64, area: Area) -> u64
    ensures { result ≡ start_of_area limit area }
{
    match area {
        Area::First => 16,
        Area::Second => limit,
    }
}
