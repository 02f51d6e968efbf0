//! Laws of the layout, each the contract of a function that does nothing.

ghost use Rattle.fam_layout.specs.Layouts.{PlacesDiffer};
ghost use Rattle.fam_layout.specs.Rows.{PiecesLieInRows};

/// Two addresses of a region never share a place.
pub fn places_differ()
    ensures { PlacesDiffer }
{}

/// Each piece of an operation that is not refused lies in one row.
pub fn pieces_lie_in_rows()
    ensures { PiecesLieInRows }
{}
