//! The records of an area are read.

ghost use Rattle.std.specs.Prelude.{◌≡◌, ℕ, ◌+◌, ◌<◌, ◌≤◌, ◌^◌, length, IfOk, IfErr, IfSome, IfNone, Ok, Err};
ghost use Rattle.std.specs.Option.{option_map};
ghost use Rattle.fam_model.specs.Rows.{common_rows as the_common_rows};
ghost use Rattle.meta_journal.specs.Opened.{AreBytes};
ghost use Rattle.meta_journal.specs.Opening.{Fails, Gives, read_from};
ghost use Rattle.meta_journal.specs.Reading.{body_at as body_in, change_at as change_in};
ghost use Rattle.meta_journal.specs.Versions.{may_hold as may_be_held, fits_first_version as fits_version};
ghost use Rattle.meta_journal.specs.declared.reading.Unread.TheVariants.{Damaged, Memory};

use fam_base::NoMemory;
use fam_directory::IndexedRows;
use fam_model::Change;
use fam_rows::common_rows;
use meta_codec::decode;
use std::alloc::Global;

/// What records lead to.
#[derive(Drop)]
pub(crate) struct Records {
    pub(crate) rows: IndexedRows,
    /// The place behind them, counted from 16.
    pub(crate) place: u64,
}

/// Why records were not read.
#[derive(Clone, Copy, Debug, PartialEq, Eq)]
pub(crate) enum Unread {
    Memory,
    /// The record at this place is damaged, counted from 16.
    Damaged(u64),
}

impl From<NoMemory> for Unread {
    ghost from_gives = { λ _ unread. unread ≡ Memory };

    fn from(_error: NoMemory) -> Unread {
        Unread::Memory
    }
}

/// The rows that the records of an area make, up to the first closed gate.
pub(crate) fn read_records(alloc: Global, is_first: bool, bytes: &[u8]) -> Result<Records, Unread>
    requires { length bytes.now ≤ 2 ^ 24 }
    ensures read { Gives result (read_from is_first the_common_rows 16 bytes.now) }
    ensures bytes { AreBytes bytes.now }
    ensures inside { 0 < length bytes.now → IfOk result (λ records. (16 ≤ records.place) × (records.place < 16 + length bytes.now)) }
    ensures damaged { IfErr result (λ unread. (place : ℕ) → unread ≡ Damaged place → (16 ≤ place) × (place < 16 + length bytes.now)) }
{
    take_all(alloc, is_first, bytes)
}

/// Takes one record after another.
fn take_all(alloc: Global, is_first: bool, bytes: &[u8]) -> Result<Records, Unread>
    requires { length bytes.now ≤ 2 ^ 24 }
    ensures read { Gives result (read_from is_first the_common_rows 16 bytes.now) }
{
    let mut records = Records {
        rows: IndexedRows::of_rows(alloc, &common_rows(alloc)?)?,
        place: 16,
    };
    let mut rest = bytes;
    for _ in 0..bytes.len() {
        match read_one(alloc, is_first, &mut records, rest)? {
            Some(after) => rest = after,
            None => return Ok(records),
        }
    }
    Ok(records)
}

/// Takes one record more, and gives the bytes behind it. None where the gate is closed.
fn read_one<'a>(
    alloc: Global,
    is_first: bool,
    records: &mut Records,
    bytes: &'a [u8],
) -> Result<Option<&'a [u8]>, Unread>
    requires { records.old.place + length bytes.now ≤ 2 ^ 25 }
    ensures more { IfOk result (λ found. IfSome found (λ after. read_from is_first records.old.rows records.old.place bytes.now
        ≡ read_from is_first records.new.rows records.new.place after.now)) }
    ensures shorter { IfOk result (λ found. IfSome found (λ after. length after.now < length bytes.now)) }
    ensures room { IfOk result (λ found. IfSome found (λ after.
        records.new.place + length after.now ≤ records.old.place + length bytes.now)) }
    ensures end { IfOk result (λ found. IfNone found (read_from is_first records.old.rows records.old.place bytes.now ≡ Ok records.new)) }
    ensures unread { IfErr result (λ unread. Fails unread (read_from is_first records.old.rows records.old.place bytes.now)) }
{
    if bytes.is_empty() || bytes[0] != 1 {
        return Ok(None);
    }
    match change_at(alloc, is_first, &records.rows, &bytes[1..])? {
        Some((change, after)) => {
            records.rows.apply(&change)?;
            records.place += (bytes.len() - after.len()) as u64;
            Ok(Some(after))
        }
        None => Err(Unread::Damaged(records.place)),
    }
}

/// The change behind an open gate, which these rows may take, and the bytes behind it.
#[tactic(auto, unfolding(crate::specs::Reading::change_at))]
fn change_at<'a>(
    alloc: Global,
    is_first: bool,
    rows: &IndexedRows,
    bytes: &'a [u8],
) -> Result<Option<(Change, &'a [u8])>, NoMemory>
    ensures { IfOk result (λ found. option_map (λ f. (f.0, f.1.now)) found ≡ change_in is_first rows.now bytes.now) }
{
    let Some((body, rest)) = body_at(bytes) else {
        return Ok(None);
    };
    let Some(change) = decode(alloc, body)? else {
        return Ok(None);
    };
    if may_hold(is_first, rows, &change) {
        Ok(Some((change, rest)))
    } else {
        Ok(None)
    }
}

/// A body behind its length, and the next gate and all behind it.
#[tactic(auto, unfolding(crate::specs::Reading::body_at, meta_codec::specs::Reading::number_at))]
fn body_at(bytes: &[u8]) -> Option<(&[u8], &[u8])>
    ensures { option_map (λ f. (f.0.now, f.1.now)) result ≡ body_in bytes.now }
{
    if bytes.len() < 4 {
        return None;
    }
    let (front, rest) = bytes.split_at(4);
    let size = u32::from_le_bytes([front[0], front[1], front[2], front[3]]) as usize;
    if size < rest.len() {
        Some(rest.split_at(size))
    } else {
        None
    }
}

/// Whether a journal may hold the change behind these rows.
fn may_hold(is_first: bool, rows: &IndexedRows, change: &Change) -> bool
    ensures { result ≡ may_be_held is_first rows.now change.now }
{
    if is_first {
        rows.is_lawful_change(change) && fits_first_version(rows, change)
    } else {
        rows.is_lawful_change(change)
    }
}

/// The first version has shorter names, and fewer regions and items.
fn fits_first_version(rows: &IndexedRows, change: &Change) -> bool
    ensures { result ≡ fits_version rows.now change.now }
{
    match change {
        Change::CreateRegion { name, .. } => name.len() <= 32 && rows.region_count() < 1024,
        Change::Allocate { name, .. } => name.len() <= 32 && rows.item_count() < 16_384,
        _ => true,
    }
}
