//! What the space of a region says of the directory's rows.

ghost use Rattle.region_alloc.specs.Items.{PlacesAreBases};

/// Where the rooms are those of a region's items, a place in the space is a base in the region.
pub fn places_are_bases()
    ensures { PlacesAreBases }
{}
