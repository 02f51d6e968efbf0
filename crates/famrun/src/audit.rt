//! The command `audit`: judges the report of a script.

ghost use Rattle.std.specs.Prelude.{◌≡◌, ◌+◌, ◌≤◌, length, map, string_bytes, true, IfErr, IfOk, IsTrue, ◌↔◌};
ghost use Rattle.std.specs.Str.{bytes_eq};
ghost use Rattle.fam_io.specs.State.{MovesUpTo};
ghost use Rattle.fam_model.specs.Grammar.{IsLawfulScript};
ghost use Rattle.famrun.specs.Auditing as auditing;
ghost use Rattle.famrun.specs.Ending.{input_limit};

use crate::ending::Ending;
use crate::reading::{read_input, script_of};
use crate::sim::{tell, tell_no_memory, tell_unread};
use fam_audit::{Verdict, audit};
use fam_base::NoMemory;
use fam_io::{Sink, Source, write_all};
use fam_model::Script;
use report_reader::{ReportFault, read};
use std::alloc::Global;

/// Whether these bytes are those.
fn is_text(bytes: &[u8], others: &[u8]) -> bool
    ensures { result ≡ bytes_eq bytes.now others.now }
{
    bytes == others
}

/// Whether a line `stop` ends at this place.
fn is_behind_stop(bytes: &[u8], n: usize) -> bool
    requires { n ≤ length bytes.now }
    ensures { result ≡ auditing.is_behind_stop bytes.now n }
{
    let from = n.saturating_sub(6);
    is_text(&bytes[..n], b"stop\n") || is_text(&bytes[from..n], b"\nstop\n")
}

/// Where the script of an input ends: behind its first line `stop`, or at the end where there is none.
fn script_end(bytes: &[u8]) -> usize
    ensures { auditing.IsScriptEnd bytes.now result }
{
    for n in 0..bytes.len() {
        if is_behind_stop(bytes, n) {
            return n;
        }
    }
    bytes.len()
}

/// What is said of the report behind a script.
fn judge(alloc: Global, script: &Script, bytes: &[u8]) -> Result<Verdict, NoMemory>
    requires script { IsLawfulScript script.now }
    requires short { script.now.lines + length bytes.now ≤ input_limit }
    ensures { IfOk result (auditing.IsJudged script.now bytes.now) }
{
    match read(alloc, bytes) {
        Ok(report) => audit(alloc, script, &report),
        Err(ReportFault::BadLine(n)) => Ok(Verdict::Illegal {
            line: script.lines + n,
            rule: 15,
        }),
        Err(ReportFault::Memory) => Err(NoMemory),
    }
}

/// Judges an input.
fn judge_input(alloc: Global, bytes: &[u8]) -> Result<Verdict, Ending>
    requires { length bytes.now ≤ input_limit }
    ensures verdict { IfOk result (auditing.IsInputJudged bytes.now) }
    ensures ending { IfErr result (auditing.NotJudged bytes.now) }
{
    let end = script_end(bytes);
    let script = script_of(alloc, &bytes[..end])?;
    match judge(alloc, &script, &bytes[end..]) {
        Ok(verdict) => Ok(verdict),
        Err(NoMemory) => Err(Ending::NoMemory),
    }
}

/// Reads an input, and judges it.
fn judge_source<S: Source>(alloc: Global, input: &mut S) -> Result<Verdict, Ending>
    ensures verdict { IfOk result (λ given. auditing.IsAudited (S.source input.old) (S.source input.new) given) }
    ensures ending { IfErr result (λ ending. auditing.Unjudged (S.source input.old) (S.source input.new) ending) }
    ensures most { MovesUpTo (S.source input.old) (S.source input.new) (input_limit + 1) }
{
    let bytes = read_input(alloc, input)?;
    judge_input(alloc, &bytes)
}

/// Tells that a report is legal.
fn tell_legal<K: Sink>(alloc: Global, events: u64, output: &mut K) -> Ending
    ensures { auditing.TellsVerdict (auditing.legal events) (K.sink output.old) (K.sink output.new) result }
{
    match format!(in alloc; "legal {events}\n") {
        Ok(line) => match write_all(output, line.as_bytes()) {
            Ok(()) => Ending::Told,
            Err(_) => Ending::WriteFault,
        },
        Err(_) => tell_no_memory(output),
    }
}

/// Tells the line that is wrong, and the rule that it breaks.
fn tell_illegal<K: Sink>(alloc: Global, line: u64, rule: u8, output: &mut K) -> Ending
    ensures { auditing.TellsVerdict (auditing.illegal line rule) (K.sink output.old) (K.sink output.new) result }
{
    match format!(in alloc; "illegal {line} {rule}\n") {
        Ok(text) => {
            tell(output, text.as_bytes());
            Ending::Illegal(line, rule)
        }
        Err(_) => tell_no_memory(output),
    }
}

/// Tells a verdict.
fn tell_verdict<K: Sink>(alloc: Global, verdict: Verdict, output: &mut K) -> Ending
    ensures { auditing.TellsVerdict verdict (K.sink output.old) (K.sink output.new) result }
{
    match verdict {
        Verdict::Legal(events) => tell_legal(alloc, events, output),
        Verdict::Illegal { line, rule } => tell_illegal(alloc, line, rule, output),
    }
}

/// Judges what the source has left, and tells it.
fn audit_source<S: Source, K: Sink>(alloc: Global, input: &mut S, output: &mut K) -> Ending
    ensures ends { auditing.AuditEnds (S.source input.old) (S.source input.new) (K.sink output.old) (K.sink output.new) result }
    ensures most { MovesUpTo (S.source input.old) (S.source input.new) (input_limit + 1) }
{
    match judge_source(alloc, input) {
        Ok(verdict) => tell_verdict(alloc, verdict, output),
        Err(ending) => tell_unread(alloc, output, ending),
    }
}

/// Whether the words are those of `audit`.
fn is_audit(words: &[String]) -> bool
    ensures { IsTrue result ↔ auditing.IsAudit (map string_bytes words.now) }
{
    match words {
        [only] => only.as_str() == "audit",
        _ => false,
    }
}

/// The command `audit`: reads a script and its report from the source, and tells whether the report is that of a legal run of
/// the script: `legal` with the number of its events, or `illegal` with the first line that is wrong and the least rule that it
/// breaks. The script is the input up to its first line `stop`, and the report is the rest.
///
/// The status is 0 where the report is legal, 8 where it is not, 2 at other words, 3 where what stands for the script is
/// none, 4 where the source failed, 5 where the sink failed and a prefix of the line is written, 9 where memory was wanting, 10
/// where the input has more than 16,777,216 bytes.
pub fn audit_main<S: Source, K: Sink>(
    alloc: Global,
    words: &[String],
    input: &mut S,
    output: &mut K,
) -> u8
    ensures { auditing.AuditOutcome (map string_bytes words.now) (S.source input.old) (S.source input.new)
        (K.sink output.old) (K.sink output.new) result }
{
    if !is_audit(words) {
        tell(output, b"bad words\n");
        return Ending::BadWords.status();
    }
    audit_source(alloc, input, output).status()
}
