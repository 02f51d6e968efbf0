//! Steps a long history through the memory machine: 64 programs put single bytes into the common item.
//!
//! `machine_bench N` steps N pieces, with the issue of each, and a quiet after every 64 of a program. It prints how many
//! pieces were served.
#![tactic(auto)]

ghost use Rattle.std.specs.Prelude.{◌<◌, ◌≤◌, IfOk};

use fam_base::{Bytes, NoMemory, PeId, Sequence, Who};
use fam_machine::{Machine, StepError};
use fam_model::{Call, DataOp, Event, OpResult, PieceAnswer, Reply, Service, What};
use std::alloc::Global;
use std::process::ExitCode;
use std::{env, io, mem};

/// The programs.
const PROGRAMS: u64 = 64;
/// The puts between two quiets of a program.
const BETWEEN: u64 = 64;
/// The most pieces: as many as all programs may have.
const MOST: u64 = 4_000_000;

/// A machine of 64 programs.
fn machine(alloc: Global) -> Result<Machine, NoMemory> {
    let whos = vec![in alloc; Who { uid: 5, gid: 5 }; 64]?;
    let service = Service {
        servers: 1,
        stripes: 4,
        unit: 64,
    };
    Machine::opened(alloc, fam_rows::common_rows(alloc)?, service, &whos, 64)
}

/// A put of one byte.
fn put(alloc: Global, call: u64) -> Result<DataOp, NoMemory> {
    Ok(DataOp::Put {
        item: 0,
        offset: call % 4096,
        bytes: Bytes::of(alloc, b"x")?,
    })
}

/// The issue of a put.
fn issued(op: DataOp) -> What {
    let call = Call::Data {
        context: 0,
        op,
        blocking: false,
    };
    What::Issue {
        call,
        reply: Reply::Issued,
    }
}

/// Its piece, which is served.
fn served() -> What {
    What::Piece {
        piece: 0,
        answer: PieceAnswer::Ok,
    }
}

/// What a quiet of this number reports: the puts since the one before.
fn results(alloc: Global, call: u64) -> Result<Sequence<OpResult>, NoMemory> {
    let mut results = Sequence::new(alloc);
    for named in call.saturating_sub(BETWEEN)..call {
        results.push(OpResult {
            call: named,
            answer: PieceAnswer::Ok,
        })?;
    }
    Ok(results)
}

/// A quiet that reports these.
fn quiet(results: Sequence<OpResult>) -> What {
    What::Quiet {
        context: 0,
        reply: Reply::Report(results),
    }
}

/// One event of a program.
fn step(machine: &mut Machine, pe: u32, call: u64, what: What) -> Result<(), StepError> {
    machine.step(&Event {
        pe: PeId(pe),
        call,
        what,
    })
}

/// The put of a program at its turn, its piece, and after every 64 a quiet.
fn turn(alloc: Global, machine: &mut Machine, pe: u32, turn: u64) -> Result<(), StepError>
    requires { turn < 4_000_000 }
{
    let call = turn + turn / BETWEEN;
    step(machine, pe, call, issued(put(alloc, call)?))?;
    step(machine, pe, call, served())?;
    if turn % BETWEEN == BETWEEN - 1 {
        step(machine, pe, call + 1, quiet(results(alloc, call + 1)?))?;
    }
    Ok(())
}

/// So many puts, the programs in turn, and the machine after them: an error where an event is not served.
fn played(alloc: Global, count: u64) -> Result<Machine, StepError>
    requires { count ≤ 4_000_000 }
{
    let mut machine = machine(alloc)?;
    for k in 0..count {
        turn(alloc, &mut machine, (k % PROGRAMS) as u32, k / PROGRAMS)?;
    }
    Ok(machine)
}

/// The count that the first word tells, or a small one.
fn count(rt: &HostRuntime) -> io::Result<u64>
    ensures { IfOk result (λ count. count ≤ 4_000_000) }
{
    for word in env::args(rt)?.skip(1) {
        if let Ok(count) = word.as_str().parse::<u64>() {
            return Ok(count.min(MOST));
        }
    }
    Ok(4096)
}

fn main(rt: HostRuntime) -> ExitCode {
    let Ok(count) = count(&rt) else {
        return ExitCode::from(2);
    };
    let Ok(machine) = played(rt.alloc(), count) else {
        return ExitCode::from(1);
    };
    // the end of the process frees the machine at once, which is no part of what is timed
    mem::forget(machine);
    match println!(rt; "{count}") {
        Ok(()) => ExitCode::from(0),
        Err(_) => ExitCode::from(2),
    }
}
