//! Laws of reports, as the contract of a function that does nothing.

ghost use Rattle.report_reader.specs.Laws.{BytesAreOneReport};

/// Any bytes are a report or have a bad line, are one report at most, and have one bad line at most.
pub fn bytes_are_one_report()
    ensures { BytesAreOneReport }
{}
