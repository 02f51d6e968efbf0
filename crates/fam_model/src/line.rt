//! What a line of a script says.

use crate::call::{Call, Width};
use crate::service::Service;
use fam_base::Who;

/// A line of a script: its first one, the two ends of a program, a statement, the two ends of a repeat,
/// or its last one.
#[derive(Drop)]
pub enum Line {
    Service(Service),
    Pe(Who),
    One(Call),
    Spin {
        context: u8,
        item: u8,
        offset: u64,
        width: Width,
        value: i128,
        tries: u32,
    },
    Repeat {
        times: u32,
    },
    Done,
    End,
    Stop,
}
