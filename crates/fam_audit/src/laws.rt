//! Laws of verdicts, each the contract of a function that does nothing.

ghost use Rattle.fam_audit.specs.Laws.{BytesAreOneScript, LegalReportsAreOfRuns, ReportsOfRunsAreLegal};

/// A report that is called legal is that of a legal run of its script, which has ended.
pub fn legal_reports_are_of_runs()
    ensures { LegalReportsAreOfRuns }
{}

/// The report of a legal run of its script, which has ended, is called legal.
pub fn reports_of_runs_are_legal()
    ensures { ReportsOfRunsAreLegal }
{}

/// Bytes are the text of one script at most, so there is one verdict on them.
pub fn bytes_are_one_script()
    ensures { BytesAreOneScript }
{}
