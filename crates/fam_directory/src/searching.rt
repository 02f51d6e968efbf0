//! Regions by their numbers, which rise.

ghost use Rattle.std.specs.Prelude.{◌≡◌, ◌<◌, true, IfSome, Some, is_some, length, map};
ghost use Rattle.std.specs.List.Sorted.{IsStrictlyIncreasing};
ghost use Rattle.fam_model.specs.Lists.{place_of};
ghost use Rattle.fam_directory.specs.Index.{number_of};

use crate::region::Region;
use fam_base::RegionId;

/// The place of the region of that number.
pub(crate) fn place_of_region(regions: &[Region], number: RegionId) -> Option<usize>
    requires { IsStrictlyIncreasing (map number_of regions.now) }
    ensures place { result ≡ place_of number_of number.0 regions.now }
    ensures within { IfSome result (λ k. k < length regions.now) }
{
    regions
        .binary_search_by_key(&number.0, |region| region.row.number.0)
        .ok()
}

/// The place of a region that is there.
pub(crate) fn place_there(regions: &[Region], number: RegionId) -> usize
    requires rise { IsStrictlyIncreasing (map number_of regions.now) }
    requires there { is_some (place_of number_of number.0 regions.now) ≡ true }
    ensures place { place_of number_of number.0 regions.now ≡ Some result }
    ensures within { result < length regions.now }
{
    match place_of_region(regions, number) {
        Some(place) => place,
        None => 0,
    }
}
