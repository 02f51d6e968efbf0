//! famrun: a shared memory service for many processing elements.
//!
//! `famrun sim SEED` reads a script from standard input, plays it, and writes the report of the run
//! to standard output. `famrun make` writes a script that a seed gives, and `famrun trial` plays it.
#![tactic(auto)]

mod audit;
#[cfg(test)]
mod audit_tests;
mod command;
mod ending;
#[cfg(test)]
mod journal_tests;
#[cfg(test)]
mod made_tests;
mod make;
#[cfg(test)]
mod played_tests;
mod playing;
mod reading;
mod sim;
#[cfg(test)]
mod size_tests;
#[cfg(test)]
mod tests;
mod trial;
mod wanted;

use crate::command::fam_main;
use crate::ending::Ending;
use crate::sim::tell;
use fam_base::{Bytes, Places};
use fam_disk::{FileDisk, MemDisk};
use fam_io::{Reader, Writer};
use std::alloc::Global;
use std::io::ErrorKind;
use std::process::ExitCode;
use std::{env, io};

/// The words after the program's name.
fn words(rt: &HostRuntime) -> io::Result<Vec<String>> {
    Ok(env::args(rt)?.skip(1).collect(rt.alloc())?)
}

/// The file of the journal, in the current folder.
const JOURNAL: &str = "fam.journal";

/// Runs the command of these words. Only `sim` opens the file.
fn run(rt: HostRuntime, words: &[String]) -> u8 {
    let mut input = Reader::new(rt.stdin());
    let mut output = Writer::new(rt.stdout());
    if !is_sim(words) {
        return fam_main(
            rt.alloc(),
            words,
            &mut input,
            &mut output,
            no_disk(rt.alloc()),
        )
        .status;
    }
    match FileDisk::open(&rt, JOURNAL) {
        Ok(disk) => fam_main(rt.alloc(), words, &mut input, &mut output, disk).status,
        Err(_) => {
            tell(&mut output, b"disk fault\n");
            Ending::DiskFault.status()
        }
    }
}

/// Whether the first word is `sim`.
fn is_sim(words: &[String]) -> bool {
    match words {
        [first, ..] => first.as_str() == "sim",
        [] => false,
    }
}

/// A disk in memory, for the commands that leave their disk alone.
fn no_disk(alloc: Global) -> MemDisk {
    let bytes = Bytes::from_vec(Vec::new(alloc));
    let reads = Places::from_vec(Vec::new(alloc));
    let writes = Places::from_vec(Vec::new(alloc));
    let syncs = Places::from_vec(Vec::new(alloc));
    MemDisk::new(alloc, bytes, reads, writes, syncs)
}

fn main(rt: HostRuntime) -> ExitCode {
    let status = match words(&rt) {
        Ok(words) => run(rt, &words),
        // Words that are not UTF-8 are those of no command.
        Err(error) if error.kind() == ErrorKind::InvalidData => run(rt, &[]),
        Err(_) => {
            tell(&mut Writer::new(rt.stdout()), b"no memory\n");
            Ending::NoMemory.status()
        }
    };
    ExitCode::from(status)
}
