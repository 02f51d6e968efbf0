//! Laws of the definitions, each the contract of a function that does nothing.

ghost use Rattle.striped_memory.specs.Laws.{RowsAreExact, AddressesComeBack, WritesAreRead, WritesStayInside, WritesOfItems, ReadsOfItems};

/// A region has no row more than its size asks for, and none less.
pub fn rows_are_exact()
    ensures { RowsAreExact }
{}

/// A place tells its address.
pub fn addresses_come_back()
    ensures { AddressesComeBack }
{}

/// What was written is read.
pub fn writes_are_read()
    ensures { WritesAreRead }
{}

/// A write leaves each range that it does not touch as it was.
pub fn writes_stay_inside()
    ensures { WritesStayInside }
{}

/// A write into the range of an item is a write into its bytes.
pub fn writes_of_items()
    ensures { WritesOfItems }
{}

/// A read in the range of an item is a read of its bytes.
pub fn reads_of_items()
    ensures { ReadsOfItems }
{}
