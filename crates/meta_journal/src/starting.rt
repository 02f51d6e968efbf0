//! What a disk has to have done to it before its journal is open.

ghost use Rattle.std.specs.Prelude.{◌≡◌, ◌≢◌, ◌+◌, ◌<◌, ◌≤◌, ◌^◌, ℕ, false, length, IfOk, IfErr, IfSome, IsSome, is_some};
ghost use Rattle.std.specs.Option.{ForSome};
ghost use Rattle.fam_disk.specs.Crash.{IsSynced};
ghost use Rattle.fam_base.specs.Causes.{HasCause, Rose};
ghost use Rattle.fam_model.specs.Rows.{IsLawful};
ghost use Rattle.meta_journal.specs.Found.{IsBlank, IsFound, IsLong, IsReady, header_in};
ghost use Rattle.meta_journal.specs.Layout.{area_start, is_fresh, part};
ghost use Rattle.meta_journal.specs.Opened.{IsSeen, Looks, Makes, OpensAs, ReadsArea, StartsSynced};
ghost use Rattle.meta_journal.specs.declared.starting.OpenFault.TheVariants.{Damaged, DiskFault};

use crate::area::{Area, area_start as start_of_area, disk_place as place_on_disk};
use crate::header::{Header, header_of};
use crate::reading::{Records, Unread, read_records};
use fam_base::{Failed, NoMemory};
use fam_disk::{Disk, write_synced};
use fam_model::Rows;
use fam_rows::common_rows;
use std::alloc::Global;

/// Why a journal was not opened.
#[derive(Clone, Copy, Debug, PartialEq, Eq)]
pub enum OpenFault {
    Memory,
    /// A call of the disk failed.
    DiskFault,
    /// The journal is damaged at this place of the disk.
    Damaged(u64),
}

/// A journal on a disk, ready for the first append.
#[derive(Drop)]
pub(crate) struct Started {
    pub(crate) area: Area,
    pub(crate) used: u64,
    pub(crate) rows: Rows,
}

/// How a disk is found.
#[derive(Clone, Copy)]
enum Found {
    /// No journal yet, and whether its first byte is to be cleared first.
    Fresh { clear: bool },
    /// A disk of this length that is not fresh.
    Old { len: u64 },
}

/// Looks at the length and the first byte.
fn look<D: Disk>(disk: &mut D) -> Result<Found, Failed>
    ensures looks { Looks (D.state disk.old) (D.state disk.new) }
    ensures found { IfSome (D.state disk.old).content (λ bytes. IfOk result (IsFound bytes)) }
    ensures long { IfOk result IsLong }
    ensures cause { HasCause (D.state disk.old).faults (D.state disk.new).faults result }
{
    let len = disk.len()?;
    if len == 0 {
        return Ok(Found::Fresh { clear: true });
    }
    let mut first = [0];
    disk.read(0, &mut first)?;
    let has_letter = first[0] == b'F';
    if len < 17 || (len == 17 && !has_letter) {
        Ok(Found::Fresh { clear: has_letter })
    } else {
        Ok(Found::Old { len })
    }
}

/// A journal of no changes behind its first byte: the rest of the header, and a closed gate.
const EMPTY_BEHIND: [u8; 16] = [b'A', b'M', b'J', 2, 0, 0, 0, 0, 0, 0, 0, 0, 0, 0, 0, 0];

/// Makes a fresh disk a journal of no changes. It is none until the last byte is written.
fn make_journal<D: Disk>(disk: &mut D, clear: bool) -> Result<(), Failed>
    requires { IfSome (D.state disk.old).content (IsReady clear) }
    ensures makes { IsSome (D.state disk.old).content → Makes (D.state disk.old) (D.state disk.new) result }
    ensures tells { is_some (D.state disk.new).content ≡ is_some (D.state disk.old).content }
    ensures cause { HasCause (D.state disk.old).faults (D.state disk.new).faults result }
{
    if clear {
        clear_and_fill(disk)
    } else {
        fill(disk)
    }
}

/// Clears the first byte before all else, so that no letter of a journal stands there.
fn clear_and_fill<D: Disk>(disk: &mut D) -> Result<(), Failed>
    requires { IfSome (D.state disk.old).content (λ bytes. length bytes ≤ 16) }
    ensures makes { IsSome (D.state disk.old).content → Makes (D.state disk.old) (D.state disk.new) result }
    ensures tells { is_some (D.state disk.new).content ≡ is_some (D.state disk.old).content }
    ensures cause { HasCause (D.state disk.old).faults (D.state disk.new).faults result }
{
    write_synced(disk, 0, &[0])?;
    fill(disk)?;
    Ok(())
}

/// Writes all behind the first byte, and then the first byte.
fn fill<D: Disk>(disk: &mut D) -> Result<(), Failed>
    requires { IfSome (D.state disk.old).content IsBlank }
    ensures makes { IsSome (D.state disk.old).content → Makes (D.state disk.old) (D.state disk.new) result }
    ensures tells { is_some (D.state disk.new).content ≡ is_some (D.state disk.old).content }
    ensures cause { HasCause (D.state disk.old).faults (D.state disk.new).faults result }
{
    write_synced(disk, 1, &EMPTY_BEHIND)?;
    write_synced(disk, 0, b"F")?;
    Ok(())
}

/// The header of a disk that is not fresh.
fn read_header<D: Disk>(disk: &mut D) -> Result<Option<Header>, Failed>
    requires { ForSome (D.state disk.old).content (λ bytes. 16 ≤ length bytes) }
    ensures looks { Looks (D.state disk.old) (D.state disk.new) }
    ensures header { IfSome (D.state disk.old).content (λ bytes. IfOk result (λ header. header ≡ header_in bytes)) }
    ensures cause { HasCause (D.state disk.old).faults (D.state disk.new).faults result }
{
    let mut bytes = [0; 16];
    disk.read(0, &mut bytes)?;
    Ok(header_of(&bytes))
}

/// So many bytes of a disk.
fn read_part<D: Disk>(
    alloc: Global,
    disk: &mut D,
    at: u64,
    count: u64,
) -> Result<Vec<u8>, OpenFault>
    requires within { ForSome (D.state disk.old).content (λ bytes. at + count ≤ length bytes) }
    requires few { count ≤ 2 ^ 24 }
    ensures looks { Looks (D.state disk.old) (D.state disk.new) }
    ensures bytes { IfSome (D.state disk.old).content (λ bytes. IfOk result (λ read. read.items ≡ part at count bytes)) }
    ensures length { IfOk result (λ read. length read.items ≡ count) }
    ensures refused { IfErr result (λ fault. (place : ℕ) → fault ≢ Damaged place) }
    ensures cause { (D.state disk.old).faults ≤ (D.state disk.new).faults }
    ensures failed { IfErr result (λ fault. fault ≡ DiskFault → Rose (D.state disk.old).faults (D.state disk.new).faults) }
{
    let Ok(mut bytes) = vec![in alloc; 0u8; count as usize] else {
        return Err(OpenFault::Memory);
    };
    match disk.read(at, bytes.as_mut_slice()) {
        Ok(()) => Ok(bytes),
        Err(Failed) => Err(OpenFault::DiskFault),
    }
}

/// What the records of a disk lead to, once a sync was served.
fn read_area<D: Disk>(
    alloc: Global,
    disk: &mut D,
    limit: u64,
    header: Header,
    len: u64,
) -> Result<Started, OpenFault>
    requires low { 17 ≤ limit }
    requires high { limit ≤ 2 ^ 24 }
    requires inside { area_start limit header.area < len }
    requires len { ForSome (D.state disk.old).content (λ bytes. len ≡ length bytes) }
    ensures looks { Looks (D.state disk.old) (D.state disk.new) }
    ensures found { IfSome (D.state disk.old).content (λ bytes. ReadsArea limit header bytes result) }
    ensures room { IfOk result (λ started. (16 ≤ started.used) × (started.used < limit)) }
    ensures lawful { IfOk result (λ started. IsLawful started.rows) }
    ensures cause { (D.state disk.old).faults ≤ (D.state disk.new).faults }
    ensures failed { IfErr result (λ fault. fault ≡ DiskFault → Rose (D.state disk.old).faults (D.state disk.new).faults) }
{
    let start = start_of_area(limit, header.area);
    let bytes = read_part(alloc, disk, start, (len - start).min(limit - 16))?;
    match read_records(alloc, header.is_first_version, bytes.as_slice()) {
        Ok(Records { rows, place }) => match rows.rows() {
            Ok(rows) => Ok(Started {
                area: header.area,
                used: place,
                rows,
            }),
            Err(NoMemory) => Err(OpenFault::Memory),
        },
        Err(Unread::Memory) => Err(OpenFault::Memory),
        Err(Unread::Damaged(place)) => Err(OpenFault::Damaged(place_on_disk(
            limit,
            header.area,
            place,
        ))),
    }
}

/// Reads the area in use, behind a sync that was served, and writes the second version over the first.
fn start_synced<D: Disk>(
    alloc: Global,
    disk: &mut D,
    limit: u64,
    header: Header,
    len: u64,
) -> Result<Started, OpenFault>
    requires low { 17 ≤ limit }
    requires high { limit ≤ 2 ^ 24 }
    requires inside { area_start limit header.area < len }
    requires long { 17 ≤ len }
    requires synced { IsSynced (D.state disk.old) }
    requires seen { ForSome (D.state disk.old).content (IsSeen limit header len) }
    ensures starts { IfSome (D.state disk.old).content (λ bytes. StartsSynced limit bytes (D.state disk.old) (D.state disk.new) result) }
    ensures tells { is_some (D.state disk.new).content ≡ is_some (D.state disk.old).content }
    ensures room { IfOk result (λ started. (16 ≤ started.used) × (started.used < limit)) }
    ensures lawful { IfOk result (λ started. IsLawful started.rows) }
    ensures cause { (D.state disk.old).faults ≤ (D.state disk.new).faults }
    ensures failed { IfErr result (λ fault. fault ≡ DiskFault → Rose (D.state disk.old).faults (D.state disk.new).faults) }
{
    let started = read_area(alloc, disk, limit, header, len)?;
    if !header.is_first_version {
        return Ok(started);
    }
    match write_synced(disk, 4, &[2]) {
        Ok(()) => Ok(started),
        Err(Failed) => Err(OpenFault::DiskFault),
    }
}

/// Opens the journal behind a header that was read.
fn start_behind<D: Disk>(
    alloc: Global,
    disk: &mut D,
    limit: u64,
    header: Header,
    len: u64,
) -> Result<Started, OpenFault>
    requires low { 17 ≤ limit }
    requires high { limit ≤ 2 ^ 24 }
    requires long { 17 ≤ len }
    requires seen { ForSome (D.state disk.old).content (IsSeen limit header len) }
    ensures opens { IfSome (D.state disk.old).content (λ bytes. OpensAs limit bytes (D.state disk.old) (D.state disk.new) result) }
    ensures tells { is_some (D.state disk.new).content ≡ is_some (D.state disk.old).content }
    ensures room { IfOk result (λ started. (16 ≤ started.used) × (started.used < limit)) }
    ensures lawful { IfOk result (λ started. IsLawful started.rows) }
    ensures cause { (D.state disk.old).faults ≤ (D.state disk.new).faults }
    ensures failed { IfErr result (λ fault. fault ≡ DiskFault → Rose (D.state disk.old).faults (D.state disk.new).faults) }
{
    if len <= start_of_area(limit, header.area) {
        return Err(OpenFault::Damaged(8));
    }
    match disk.sync() {
        Ok(()) => start_synced(alloc, disk, limit, header, len),
        Err(Failed) => Err(OpenFault::DiskFault),
    }
}

/// Opens the journal of a disk that is not fresh.
fn start_old<D: Disk>(
    alloc: Global,
    disk: &mut D,
    limit: u64,
    len: u64,
) -> Result<Started, OpenFault>
    requires low { 17 ≤ limit }
    requires high { limit ≤ 2 ^ 24 }
    requires long { 17 ≤ len }
    requires old { ForSome (D.state disk.old).content (λ bytes. (is_fresh bytes ≡ false) × (len ≡ length bytes)) }
    ensures opens { IfSome (D.state disk.old).content (λ bytes. OpensAs limit bytes (D.state disk.old) (D.state disk.new) result) }
    ensures tells { is_some (D.state disk.new).content ≡ is_some (D.state disk.old).content }
    ensures room { IfOk result (λ started. (16 ≤ started.used) × (started.used < limit)) }
    ensures lawful { IfOk result (λ started. IsLawful started.rows) }
    ensures cause { (D.state disk.old).faults ≤ (D.state disk.new).faults }
    ensures failed { IfErr result (λ fault. fault ≡ DiskFault → Rose (D.state disk.old).faults (D.state disk.new).faults) }
{
    match read_header(disk) {
        Ok(Some(header)) => start_behind(alloc, disk, limit, header, len),
        Ok(None) => Err(OpenFault::Damaged(0)),
        Err(Failed) => Err(OpenFault::DiskFault),
    }
}

/// Opens the journal of a fresh disk.
fn start_fresh<D: Disk>(
    alloc: Global,
    disk: &mut D,
    limit: u64,
    clear: bool,
) -> Result<Started, OpenFault>
    requires low { 17 ≤ limit }
    requires ready { IfSome (D.state disk.old).content (IsReady clear) }
    ensures opens { IfSome (D.state disk.old).content (λ bytes. OpensAs limit bytes (D.state disk.old) (D.state disk.new) result) }
    ensures tells { is_some (D.state disk.new).content ≡ is_some (D.state disk.old).content }
    ensures room { IfOk result (λ started. (16 ≤ started.used) × (started.used < limit)) }
    ensures lawful { IfOk result (λ started. IsLawful started.rows) }
    ensures cause { (D.state disk.old).faults ≤ (D.state disk.new).faults }
    ensures failed { IfErr result (λ fault. fault ≡ DiskFault → Rose (D.state disk.old).faults (D.state disk.new).faults) }
{
    let Ok(rows) = common_rows(alloc) else {
        return Err(OpenFault::Memory);
    };
    match make_journal(disk, clear) {
        Ok(()) => Ok(Started {
            area: Area::First,
            used: 16,
            rows,
        }),
        Err(Failed) => Err(OpenFault::DiskFault),
    }
}

/// Opens the journal of a disk.
pub(crate) fn start<D: Disk>(alloc: Global, disk: &mut D, limit: u64) -> Result<Started, OpenFault>
    requires low { 17 ≤ limit }
    requires high { limit ≤ 2 ^ 24 }
    ensures opens { IfSome (D.state disk.old).content (λ bytes. OpensAs limit bytes (D.state disk.old) (D.state disk.new) result) }
    ensures tells { is_some (D.state disk.new).content ≡ is_some (D.state disk.old).content }
    ensures room { IfOk result (λ started. (16 ≤ started.used) × (started.used < limit)) }
    ensures lawful { IfOk result (λ started. IsLawful started.rows) }
    ensures cause { (D.state disk.old).faults ≤ (D.state disk.new).faults }
    ensures failed { IfErr result (λ fault. fault ≡ DiskFault → Rose (D.state disk.old).faults (D.state disk.new).faults) }
{
    match look(disk) {
        Ok(Found::Fresh { clear }) => start_fresh(alloc, disk, limit, clear),
        Ok(Found::Old { len }) => start_old(alloc, disk, limit, len),
        Err(Failed) => Err(OpenFault::DiskFault),
    }
}
