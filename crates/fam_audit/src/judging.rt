//! A report is judged.

ghost use Rattle.std.specs.Prelude.{◌≡◌, ◌≤◌, true, length, IfOk};
ghost use Rattle.std.specs.List.{flat_map};
ghost use Rattle.std.specs.Option.{option_map_or};
ghost use Rattle.fam_model.specs.Grammar.{IsLawfulScript};
ghost use Rattle.fam_model.specs.Programs.{program_of};
ghost use Rattle.fam_model.specs.Rows.{IsLawful};
ghost use Rattle.fam_audit.specs.Auditing as auditing;
ghost use Rattle.fam_audit.specs.Verdict as verdicts;

use crate::auditor::Auditor;
use crate::lines::{event_line, first_wrong_line, reply_line};
use crate::turn::Turn;
use crate::verdict::Verdict;
use fam_base::{NoMemory, Sequence};
use fam_machine::Machine;
use fam_model::{ReplyLine, Report, Script};
use std::alloc::Global;

/// Whether the program is no member of the barrier, and has no piece left.
fn is_stopped(machine: &Machine, pe: u32) -> bool
    ensures { result ≡ option_map_or auditing.is_stopped (program_of machine.now pe) true }
{
    match machine.program(pe) {
        Some(program) => !program.is_member() && !program.has_pending(),
        None => true,
    }
}

/// Whether no program is a member of the barrier, and no piece is left.
fn has_stopped(machine: &Machine) -> bool
    requires { length machine.now.programs ≤ 64 }
    ensures { result ≡ auditing.has_stopped machine.now }
{
    for pe in 0..machine.programs() {
        if !is_stopped(machine, pe as u32) {
            return false;
        }
    }
    true
}

/// The lines of all programs, one after the other.
fn all_lines(alloc: Global, turns: Sequence<Turn>) -> Result<Vec<ReplyLine>, NoMemory>
    ensures { IfOk result (λ lines. lines.items ≡ flat_map (λ turn. turn.lines.items) turns) }
{
    match turns
        .into_vec()
        .into_iter()
        .flat_map(|turn| turn.lines)
        .collect(alloc)
    {
        Ok(lines) => Ok(lines),
        Err(_) => Err(NoMemory),
    }
}

/// The verdict where all events were taken and have ended: the first reply line that is not the one of the events.
fn compare(
    alloc: Global,
    turns: Sequence<Turn>,
    script: &Script,
    report: &Report,
) -> Result<Verdict, NoMemory>
    requires { auditing.IsOver script.now report.now turns }
    ensures { IfOk result (λ verdict. verdict ≡ verdicts.verdict script.now report.now) }
{
    let due = all_lines(alloc, turns)?;
    match first_wrong_line(report.replies.as_slice(), due.as_slice()) {
        Some(place) => Ok(Verdict::Illegal {
            line: reply_line(script, place)?,
            rule: 13,
        }),
        None => Ok(Verdict::Legal(report.history.len() as u64)),
    }
}

/// The verdict where all events were taken.
fn judge_end(
    alloc: Global,
    auditor: Auditor,
    script: &Script,
    report: &Report,
) -> Result<Verdict, NoMemory>
    requires script { IsLawfulScript script.now }
    requires taken { auditing.HasTaken script.now report.now auditor }
    ensures { IfOk result (λ verdict. verdict ≡ verdicts.verdict script.now report.now) }
{
    if has_stopped(&auditor.machine) {
        compare(alloc, auditor.turns, script, report)
    } else {
        Ok(Verdict::Illegal {
            line: event_line(script, report, report.history.len())?,
            rule: 14,
        })
    }
}

/// The verdict on a report of a script: the first event that may not come, or does not follow its program; else, where the
/// history has not ended, its end; else the first reply line that is not the one of the events. Lines are counted in the
/// script and the report behind it.
pub fn audit(alloc: Global, script: &Script, report: &Report) -> Result<Verdict, NoMemory>
    requires script { IsLawfulScript script.now }
    requires rows { IsLawful report.now.rows }
    ensures { IfOk result (λ verdict. verdict ≡ verdicts.verdict script.now report.now) }
{
    let mut auditor = Auditor::new(alloc, script, &report.rows)?;
    let wrong = auditor.judge_all(report.history.as_slice())?;
    match wrong {
        Some((place, rule)) => Ok(Verdict::Illegal {
            line: event_line(script, report, place)?,
            rule,
        }),
        None => judge_end(alloc, auditor, script, report),
    }
}
