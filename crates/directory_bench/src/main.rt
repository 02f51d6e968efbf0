//! Makes, looks up and takes away many items of a directory.
//!
//! `directory_bench N` makes N regions with 15 items in each, looks each item up by the two names, and takes each second one
//! away. It prints how many it found, and how many it took away.
#![tactic(auto)]

ghost use Rattle.std.specs.Prelude.{◌≡◌, ◌≤◌, true, IfOk, IsTrue};
ghost use Rattle.fam_model.specs.Lawful.{is_lawful_change};
ghost use Rattle.fam_directory.specs.Answers.{makes_change};
ghost use Rattle.fam_rows.specs.Laws.{asked_mode};

use fam_base::{Bytes, Descriptor, FamError, Mode, NoMemory, RegionId, Sequence, Who};
use fam_directory::Directory;
use fam_model::{Change, Request};
use std::alloc::Global;
use std::process::ExitCode;
use std::{env, io, mem};

/// The one who asks.
const OWNER: Who = Who { uid: 5, gid: 5 };
/// The items of a region.
const EACH: u64 = 15;
/// The bytes of a region.
const SIZE: u64 = 65_536;
/// The most regions.
const MOST: u64 = 4_000;

/// What was found and what was taken away.
#[derive(Clone, Copy)]
struct Counts {
    found: u64,
    gone: u64,
}

/// A name of a letter and a number.
fn name_of(alloc: Global, letter: char, number: u64) -> Result<Bytes, NoMemory> {
    let Ok(text) = format!(in alloc; "{letter}{number}") else {
        return Err(NoMemory);
    };
    Sequence::of(alloc, text.as_bytes())
}

/// Takes the memory of a change, and makes it.
fn made(directory: &mut Directory, change: &Change) -> Result<(), FamError>
    requires { IsTrue (is_lawful_change directory.old.rows change.now) }
{
    match directory.reserve(change) {
        Ok(()) => {
            directory.apply(change);
            Ok(())
        }
        Err(_) => Err(FamError::Memory),
    }
}

/// Serves a request that changes.
fn served(directory: &mut Directory, request: &Request) -> Result<(), FamError>
    requires changes { makes_change request.now ≡ true }
    requires mode { asked_mode request.now ≤ 511 }
{
    match directory.check(OWNER, request) {
        Ok(change) => made(directory, &change),
        Err(error) => Err(error),
    }
}

/// Makes a region.
fn create(
    alloc: Global,
    directory: &mut Directory,
    mode: Mode,
    region: u64,
) -> Result<(), FamError> {
    let Ok(name) = name_of(alloc, 'r', region) else {
        return Err(FamError::Memory);
    };
    let request = Request::CreateRegion {
        name,
        size: SIZE,
        mode,
    };
    served(directory, &request)
}

/// Makes an item.
fn allocate(
    alloc: Global,
    directory: &mut Directory,
    mode: Mode,
    region: RegionId,
    item: u64,
) -> Result<(), FamError> {
    let Ok(name) = name_of(alloc, 'i', item) else {
        return Err(FamError::Memory);
    };
    let request = Request::Allocate {
        name,
        size: 64 * (item % 3) + 1,
        mode,
        region,
    };
    served(directory, &request)
}

/// Makes so many regions, and their items in turn.
fn filled(
    alloc: Global,
    directory: &mut Directory,
    mode: Mode,
    count: u64,
) -> Result<(), FamError> {
    for region in 0..count {
        create(alloc, directory, mode, region)?;
    }
    for item in 0..EACH {
        for region in 0..count {
            allocate(alloc, directory, mode, RegionId(region + 1), item)?;
        }
    }
    Ok(())
}

/// Where an item of a region lies.
fn looked_up(
    alloc: Global,
    directory: &Directory,
    region: u64,
    item: u64,
) -> Result<Descriptor, FamError> {
    let Ok(name) = name_of(alloc, 'i', item) else {
        return Err(FamError::Memory);
    };
    let Ok(region) = name_of(alloc, 'r', region) else {
        return Err(FamError::Memory);
    };
    directory.lookup(name.as_slice(), region.as_slice())
}

/// Looks an item up, and takes each second one away.
fn visit(
    alloc: Global,
    directory: &mut Directory,
    region: u64,
    item: u64,
) -> Result<bool, FamError> {
    let place = looked_up(alloc, directory, region, item)?;
    if place.item.0 % 2 == 0 {
        return Ok(false);
    }
    let request = Request::Deallocate { item: place.item };
    served(directory, &request)?;
    Ok(true)
}

/// Looks all items up.
fn visited(alloc: Global, directory: &mut Directory, count: u64) -> Result<Counts, FamError> {
    let mut counts = Counts { found: 0, gone: 0 };
    for region in 0..count {
        for item in 0..EACH {
            if visit(alloc, directory, region, item)? {
                counts.gone = counts.gone.saturating_add(1);
            }
            counts.found = counts.found.saturating_add(1);
        }
    }
    Ok(counts)
}

/// A directory of common rows.
fn fresh(alloc: Global) -> Result<Directory, NoMemory> {
    let rows = fam_rows::common_rows(alloc)?;
    Directory::of_rows(alloc, &rows)
}

/// All of it, and the directory after it.
fn played(alloc: Global, count: u64) -> Result<(Counts, Directory), FamError> {
    let Ok(mut directory) = fresh(alloc) else {
        return Err(FamError::Memory);
    };
    let Some(mode) = Mode::of(0o700) else {
        return Err(FamError::Unsupported);
    };
    filled(alloc, &mut directory, mode, count)?;
    let counts = visited(alloc, &mut directory, count)?;
    Ok((counts, directory))
}

/// The count that the first word tells, or a small one.
fn count(rt: &HostRuntime) -> io::Result<u64>
    ensures { IfOk result (λ count. count ≤ 4_000) }
{
    for word in env::args(rt)?.skip(1) {
        if let Ok(count) = word.as_str().parse::<u64>() {
            return Ok(count.min(MOST));
        }
    }
    Ok(10)
}

fn main(rt: HostRuntime) -> ExitCode {
    let Ok(count) = count(&rt) else {
        return ExitCode::from(2);
    };
    let Ok((counts, directory)) = played(rt.alloc(), count) else {
        return ExitCode::from(1);
    };
    // the end of the process frees the directory at once, which is no part of what is timed
    mem::forget(directory);
    match println!(rt; "{} items found, {} taken away", counts.found, counts.gone) {
        Ok(()) => ExitCode::from(0),
        Err(_) => ExitCode::from(2),
    }
}
