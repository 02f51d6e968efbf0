//! Reading line by line.

ghost use Rattle.std.specs.Prelude.{◌≡◌, ℕ, IfOk, Ok, Err};
ghost use Rattle.report_reader.specs.Machine.{read_of};
ghost use Rattle.report_reader.specs.Report.{IsReport, IsBadReportLine};

use crate::cut::cut;
use crate::stage::{Stage, finish, step};
use fam_base::NoMemory;
use fam_model::Report;
use std::alloc::Global;
use thiserror::Error;

/// Why bytes are no report. A bad line is told by its number, the first line having number 1.
#[derive(Clone, Copy, Debug, PartialEq, Eq, Error)]
pub enum ReportFault {
    #[error("Memory")]
    Memory,
    #[error("bad line {0}")]
    BadLine(u64),
}

impl From<NoMemory> for ReportFault {
    ghost use Rattle.report_reader.specs.declared.reader.ReportFault.{ReportFault};

    ghost from_gives = { λ _ fault. fault ≡ ReportFault.Memory };

    fn from(_: NoMemory) -> ReportFault {
        ReportFault::Memory
    }
}

/// The report of the bytes, or the number of its bad line.
fn read_lines(alloc: Global, bytes: &[u8]) -> Result<Report, ReportFault>
    ensures report { IfOk result (λ r. read_of bytes.now ≡ Ok r) }
    ensures bad_line { (n : ℕ) → result ≡ Err (ReportFault.BadLine n) → read_of bytes.now ≡ Err n }
{
    let length = bytes.len();
    let mut rest = bytes;
    let mut lines = 0;
    let mut stage = Stage::Nothing;
    while let Some((text, others)) = cut(rest, b'\n') {
        lines += 1;
        rest = others;
        stage = match step(alloc, stage, text)? {
            Some(next) => next,
            None => return Err(ReportFault::BadLine(lines)),
        };
    }
    match finish(stage, rest, lines) {
        Some(report) => Ok(report),
        None => Err(ReportFault::BadLine(lines + 1)),
    }
}

/// The report that the bytes are. The bad line is the first one with which no report goes on; where lines
/// are missing, it is the line behind the last one.
pub fn read(alloc: Global, bytes: &[u8]) -> Result<Report, ReportFault>
    ensures report { IfOk result (λ r. IsReport bytes.now r) }
    ensures bad_line { (n : ℕ) → result ≡ Err (ReportFault.BadLine n) → IsBadReportLine bytes.now n }
{
    read_lines(alloc, bytes)
}
