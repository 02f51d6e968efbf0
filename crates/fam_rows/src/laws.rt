//! Laws of the directory's rows, each the contract of a function that does nothing.

ghost use Rattle.fam_rows.specs.Laws.{ServedChangesAreLawful, LawfulChangesKeepLaw, LeastBaseIsLeast, NumbersAreNeverUsedAgain};

/// A change that serves a request is lawful.
pub fn served_changes_are_lawful()
    ensures { ServedChangesAreLawful }
{}

/// Lawful rows stay lawful under a lawful change.
pub fn lawful_changes_keep_law()
    ensures { LawfulChangesKeepLaw }
{}

/// A new item lies at the least base that fits.
pub fn least_base_is_least()
    ensures { LeastBaseIsLeast }
{}

/// Numbers of regions and items are never used again.
pub fn numbers_are_never_used_again()
    ensures { NumbersAreNeverUsedAgain }
{}
