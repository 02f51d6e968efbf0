//! How a command ends.

ghost use Rattle.std.specs.Prelude.{◌≡◌};
ghost use Rattle.famrun.specs.Ending.{status_of};

/// How a command ends.
#[derive(Clone, Copy, Debug, PartialEq, Eq)]
pub enum Ending {
    /// What was asked stands on the output, whole.
    Told,
    /// The words are none of the forms.
    BadWords,
    /// The input is no script; the line is told.
    BadLine(u64),
    /// The report is illegal: the line and the rule are told.
    Illegal(u64, u8),
    /// The source failed.
    ReadFault,
    /// The sink failed; a part of what was asked stands on the output.
    WriteFault,
    /// The disk failed while the journal was opened.
    DiskFault,
    /// The journal is damaged; the place is told.
    Damaged(u64),
    /// Memory was wanting.
    NoMemory,
    /// The input has more than 16,777,216 bytes.
    TooLong,
}

impl Ending {
    /// The status of a process that ends so.
    pub fn status(self) -> u8
        ensures { result ≡ status_of self }
    {
        match self {
            Ending::Told => 0,
            Ending::BadWords => 2,
            Ending::BadLine(_) => 3,
            Ending::ReadFault => 4,
            Ending::WriteFault => 5,
            Ending::DiskFault => 6,
            Ending::Damaged(_) => 7,
            Ending::Illegal(..) => 8,
            Ending::NoMemory => 9,
            Ending::TooLong => 10,
        }
    }
}
