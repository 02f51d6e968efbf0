//! What an auditor says.

/// A report is that of a legal run of its script, which has so many events; or it is not. Then the line is the first one
/// that is wrong, counted from 1 in the script and the report behind it, and the rule is the least one that it breaks:
///  1. the call is not the next one of its program
///  2. the reply to a call on the directory
///  3. the answer at issue
///  4. the order of pieces
///  5. the answer of a piece
///  6. the answer of a call
///  7. opening and fences of contexts
///  8. reports
///  9. the wait for a copy
/// 10. the barrier
/// 11. the end of a program
/// 12. refusals for want of room or by the disk
/// 13. the reply lines are not those of the events
/// 14. the history has not ended
#[derive(Clone, Copy, Debug, PartialEq, Eq)]
pub enum Verdict {
    Legal(u64),
    Illegal { line: u64, rule: u8 },
}
