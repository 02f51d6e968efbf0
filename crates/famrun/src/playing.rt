//! A script, played over a disk.

ghost use Rattle.std.specs.Prelude.{◌≡◌, true, length};
ghost use Rattle.fam_keeper.specs.Keeping.{HasKept};
ghost use Rattle.fam_model.specs.Grammar.{IsLawfulScript};
ghost use Rattle.fam_model.specs.ReportText as texts;
ghost use Rattle.fam_model.specs.Rows.{IsLawful};
ghost use Rattle.meta_journal.specs.declared.doubt.Doubt.TheVariants.{Nothing};
ghost use Rattle.famrun.specs.Ending.{PlaysScript, ReportsRun, TellsFault};
ghost use Rattle.famrun.specs.OverDisk.{IsOpenedFrom, Looks};

use crate::ending::Ending;
use crate::sim::{tell, tell_no_memory, write_report};
use fam_audit::copy_of_rows;
use fam_base::{NoMemory, Sequence};
use fam_core::{Simulated, simulate};
use fam_disk::Disk;
use fam_io::Sink;
use fam_keeper::Keeper;
use fam_model::{Event, Report, Rows, Script};
use fam_text::text_of;
use meta_journal::{Journal, OpenFault};
use std::alloc::Global;

/// The most bytes of an area of the journal.
const JOURNAL_LIMIT: u64 = 16_777_216;

/// How a run ended, its history, and the disk that it was played over.
#[derive(Drop)]
pub struct Played<D: Disk> {
    pub ending: Ending,
    pub history: Vec<Event>,
    pub disk: D,
}

/// Tells why a journal was not opened.
fn tell_unopened<K: Sink>(alloc: Global, output: &mut K, fault: OpenFault) -> Ending
    ensures { TellsFault fault (K.sink output.old) (K.sink output.new) result }
{
    match fault {
        OpenFault::Memory => tell_no_memory(output),
        OpenFault::DiskFault => {
            tell(output, b"disk fault\n");
            Ending::DiskFault
        }
        OpenFault::Damaged(place) => tell_damaged(alloc, output, place),
    }
}

fn tell_damaged<K: Sink>(alloc: Global, output: &mut K, place: u64) -> Ending
    ensures { TellsFault (OpenFault.Damaged place) (K.sink output.old) (K.sink output.new) result }
{
    match format!(in alloc; "damaged {place}\n") {
        Ok(line) => {
            tell(output, line.as_bytes());
            Ending::Damaged(place)
        }
        Err(_) => tell_no_memory(output),
    }
}

/// Reports a run from these rows. The history is handed on.
fn report_run<K: Sink>(
    alloc: Global,
    script: &Script,
    rows: Rows,
    simulated: Simulated,
    output: &mut K,
) -> (Ending, Vec<Event>)
    requires { simulated.whole ≡ true → simulated.replies.items ≡ texts.reply_lines (length script.now.programs) simulated.history.items }
    ensures history { result.1.items ≡ simulated.history.items }
    ensures ending { ReportsRun script.now rows simulated.history.items simulated.whole (K.sink output.old) (K.sink output.new) result.0 }
{
    let Simulated {
        history,
        replies,
        whole,
    } = simulated;
    // The contract alone speaks of it.
    let _script = script;
    if !whole {
        return (tell_no_memory(output), history);
    }
    let report = Report {
        replies: Sequence::from_vec(replies),
        rows,
        history: Sequence::from_vec(history),
    };
    let text = text_of(alloc, &report);
    let history = report.history.into_vec();
    (write_report(text, output), history)
}

/// Plays a script over a journal that was opened, and reports the run.
fn play_on<K: Sink, D: Disk>(
    alloc: Global,
    script: &Script,
    seed: u64,
    output: &mut K,
    journal: Journal<D>,
    rows: Rows,
) -> Played<D>
    requires script { IsLawfulScript script.now }
    requires rows { IsLawful rows }
    requires kept { HasKept journal rows }
    requires settled { journal.doubt ≡ Nothing }
    ensures { (old : D) → IsOpenedFrom D.state rows old journal.disk → Looks (D.state old) (D.state journal.disk) →
        PlaysScript D.state seed script.now result.history.items (K.sink output.old) (K.sink output.new) old result.disk result.ending }
{
    let Ok(opening) = copy_of_rows(alloc, &rows) else {
        return Played {
            ending: tell_no_memory(output),
            history: Vec::new(alloc),
            disk: journal.close(),
        };
    };
    let mut keeper = Keeper::of(journal);
    let simulated = simulate(alloc, rows, script, seed, &mut keeper);
    let Some(disk) = keeper.close() else {
        unreachable!()
    };
    let (ending, history) = report_run(alloc, script, opening, simulated, output);
    Played {
        ending,
        history,
        disk,
    }
}

/// Opens the journal of a disk, plays a script over it, and reports the run.
pub fn play_script<K: Sink, D: Disk>(
    alloc: Global,
    script: &Script,
    seed: u64,
    output: &mut K,
    disk: D,
) -> Played<D>
    requires { IsLawfulScript script.now }
    ensures { PlaysScript D.state seed script.now result.history.items (K.sink output.old) (K.sink output.new)
        disk result.disk result.ending }
{
    match Journal::open_on(alloc, disk, JOURNAL_LIMIT) {
        Ok((journal, rows)) => play_on(alloc, script, seed, output, journal, rows),
        Err((disk, fault)) => Played {
            ending: tell_unopened(alloc, output, fault),
            history: Vec::new(alloc),
            disk,
        },
    }
}
