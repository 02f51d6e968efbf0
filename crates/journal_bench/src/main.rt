//! Appends changes to a journal in a file, and opens one.
//!
//! `journal_bench append N` makes the file bench.journal anew and appends N changes. `few N` and `many N` write a journal of
//! N records there at once: regions that come and go, and one region with items. `open N` opens it N times. Each prints the
//! place behind the records.
#![tactic(auto)]

ghost use Rattle.std.specs.Prelude.{◌≡◌, ◌<◌, ◌≤◌, IfOk, IfSome};
ghost use Rattle.fam_model.specs.Rows.{IsLawful};
ghost use Rattle.meta_codec.specs.Body.{HasBody};
ghost use Rattle.meta_journal.specs.State.{IsSound};

use fam_base::{Bytes, ItemId, Mode, NoMemory, RegionId, good_name};
use fam_disk::{Disk, FileDisk, write_synced};
use fam_model::{Change, Rows};
use fam_rows::{apply, is_lawful_change};
use meta_codec::encode;
use meta_journal::Journal;
use std::alloc::Global;
use std::process::ExitCode;
use std::{env, fs, io};

/// The file of the journal, in the current folder.
const PATH: &str = "bench.journal";
/// The most bytes of an area of the journal.
const LIMIT: u64 = 16_777_216;
/// The most records.
const MOST: u64 = 65_000;

/// Why something was not done.
#[derive(Clone, Copy, Debug, PartialEq, Eq)]
enum Fault {
    Memory,
    Disk,
    Damaged,
}

impl From<NoMemory> for Fault {
    fn from(_error: NoMemory) -> Fault {
        Fault::Memory
    }
}

/// What is to be done.
#[derive(Clone, Copy, Debug, PartialEq, Eq)]
enum Work {
    Append,
    Few,
    Many,
    Open,
}

/// A good name.
fn name(alloc: Global, text: &str) -> Result<Bytes, NoMemory> {
    Ok(Bytes::of(alloc, text.as_bytes())?)
}

/// The change that creates a region.
fn creation(alloc: Global, region: u64, size: u64) -> Result<Change, NoMemory>
    ensures { IfOk result (λ change. HasBody change) }
{
    let name = name(alloc, "r")?;
    if !good_name(name.as_slice()) {
        return Err(NoMemory);
    }
    Ok(Change::CreateRegion {
        region: RegionId(region),
        uid: 5,
        gid: 5,
        mode: Mode::of(0o700).unwrap(),
        size,
        name,
    })
}

/// The change that allocates an item of 64 bytes in the first region.
fn allocation(alloc: Global, item: u64, base: u64) -> Result<Change, NoMemory>
    ensures { IfOk result (λ change. HasBody change) }
{
    let Ok(text) = format!(in alloc; "i{item}") else {
        return Err(NoMemory);
    };
    let name = name(alloc, &text)?;
    if !good_name(name.as_slice()) {
        return Err(NoMemory);
    }
    Ok(Change::Allocate {
        item: ItemId(item),
        region: RegionId(1),
        base,
        size: 64,
        uid: 5,
        gid: 5,
        mode: Mode::of(0o600).unwrap(),
        name,
    })
}

/// A region is created, and destroyed by the next change.
fn few_at(alloc: Global, place: u64) -> Result<Change, NoMemory>
    ensures { IfOk result (λ change. HasBody change) }
{
    let region = place / 2 + 1;
    if place % 2 == 0 {
        creation(alloc, region, 4096)
    } else {
        Ok(Change::DestroyRegion {
            region: RegionId(region),
        })
    }
}

/// A region, and then item after item in it.
fn many_at(alloc: Global, place: u64) -> Result<Change, NoMemory>
    requires { place < 65_000 }
    ensures { IfOk result (λ change. HasBody change) }
{
    if place == 0 {
        creation(alloc, 1, 4_194_304)
    } else {
        allocation(alloc, place, 64 * (place - 1))
    }
}

/// Opens the journal, and gives its rows.
fn opened(alloc: Global, disk: FileDisk) -> Result<(Journal<FileDisk>, Rows), Fault>
    ensures sound { IfOk result (λ opened. IsSound opened.0) }
    ensures lawful { IfOk result (λ opened. IsLawful opened.1) }
{
    match Journal::open_on(alloc, disk, LIMIT) {
        Ok(opened) => Ok(opened),
        Err(_) => Err(Fault::Damaged),
    }
}

/// Appends a change, and makes it in the rows.
fn append(
    alloc: Global,
    journal: &mut Journal<FileDisk>,
    rows: &mut Rows,
    change: Change,
) -> Result<(), Fault>
    requires sound { IsSound journal.old }
    requires lawful { IsLawful rows.old }
    requires body { HasBody change }
    ensures sound { IsSound journal.new }
    ensures lawful { IsLawful rows.new }
{
    if !is_lawful_change(rows, &change) {
        return Err(Fault::Damaged);
    }
    if journal.reserve_with(&change, rows).is_err() {
        return Err(Fault::Memory);
    }
    if journal.append(&change).is_err() {
        return Err(Fault::Disk);
    }
    apply(alloc, rows, change)?;
    Ok(())
}

/// Appends so many changes.
fn append_all(alloc: Global, disk: FileDisk, count: u64) -> Result<u64, Fault> {
    let (mut journal, mut rows) = opened(alloc, disk)?;
    for place in 0..count {
        let change = few_at(alloc, place)?;
        append(alloc, &mut journal, &mut rows, change)?;
    }
    Ok(journal.used())
}

/// Adds the record of a change with its gate, which is open.
fn push_record(alloc: Global, out: &mut Vec<u8>, change: &Change) -> Result<(), NoMemory>
    requires { HasBody change.now }
{
    let body = encode(alloc, change)?;
    let Ok(length) = u32::try_from(body.len()) else {
        return Err(NoMemory);
    };
    out.push(1)?;
    out.extend_from_slice(&length.to_le_bytes())?;
    out.extend_from_slice(body.as_slice())?;
    Ok(())
}

/// A journal of so many records.
fn journal_bytes(alloc: Global, is_many: bool, count: u64) -> Result<Vec<u8>, NoMemory>
    requires { count ≤ 65_000 }
{
    let mut out = Vec::from_slice(alloc, b"FAMJ\x02\0\0\0\0\0\0\0\0\0\0\0")?;
    for place in 0..count {
        let change = if is_many {
            many_at(alloc, place)?
        } else {
            few_at(alloc, place)?
        };
        push_record(alloc, &mut out, &change)?;
    }
    out.push(0)?;
    Ok(out)
}

/// Writes a journal of so many records at once.
fn write(alloc: Global, disk: FileDisk, is_many: bool, count: u64) -> Result<u64, Fault>
    requires { count ≤ 65_000 }
{
    let mut disk = disk;
    let bytes = journal_bytes(alloc, is_many, count)?;
    if bytes.len() > 16_777_216 || bytes.is_empty() {
        return Err(Fault::Memory);
    }
    match write_synced(&mut disk, 0, bytes.as_slice()) {
        Ok(()) => Ok(bytes.len() as u64 - 1),
        Err(_) => Err(Fault::Disk),
    }
}

/// Opens the journal so often.
fn open_all(alloc: Global, disk: FileDisk, count: u64) -> Result<u64, Fault> {
    let mut disk = disk;
    let mut place = 0;
    for _ in 0..count {
        let (journal, _rows) = opened(alloc, disk)?;
        place = journal.used();
        disk = journal.close();
    }
    Ok(place)
}

/// Does the work, and gives the place behind the records.
fn done(alloc: Global, disk: FileDisk, work: Work, count: u64) -> Result<u64, Fault>
    requires { count ≤ 65_000 }
{
    match work {
        Work::Append => append_all(alloc, disk, count),
        Work::Few => write(alloc, disk, false, count),
        Work::Many => write(alloc, disk, true, count),
        Work::Open => open_all(alloc, disk, count),
    }
}

/// The work that a word tells.
fn work_of(word: &str) -> Option<Work> {
    match word {
        "append" => Some(Work::Append),
        "few" => Some(Work::Few),
        "many" => Some(Work::Many),
        "open" => Some(Work::Open),
        _ => None,
    }
}

/// The words after the program's name.
fn words(rt: &HostRuntime) -> io::Result<Vec<String>> {
    Ok(env::args(rt)?.skip(1).collect(rt.alloc())?)
}

/// The work and the count that the words tell.
fn asked_for(words: &[String]) -> Option<(Work, u64)>
    ensures { IfSome result (λ asked. asked.1 ≤ 65_000) }
{
    match words {
        [work, count] => match (work_of(work.as_str()), count.as_str().parse::<u64>()) {
            (Some(work), Ok(count)) => Some((work, count.min(MOST))),
            _ => None,
        },
        _ => None,
    }
}

/// The file, which is made anew unless it is to be opened.
fn file(rt: &HostRuntime, work: Work) -> io::Result<FileDisk> {
    if work != Work::Open {
        let _ = fs::remove_file(rt, PATH);
    }
    FileDisk::open(rt, PATH)
}

/// Does what the words tell, and prints the place behind the records.
fn run(rt: &HostRuntime) -> io::Result<bool> {
    let words = words(rt)?;
    let Some((work, count)) = asked_for(&words) else {
        return Ok(false);
    };
    match done(rt.alloc(), file(rt, work)?, work, count) {
        Ok(place) => {
            println!(rt; "{place}")?;
            Ok(true)
        }
        Err(_) => Ok(false),
    }
}

fn main(rt: HostRuntime) -> ExitCode {
    match run(&rt) {
        Ok(true) => ExitCode::from(0),
        Ok(false) => ExitCode::from(1),
        Err(_) => ExitCode::from(2),
    }
}
