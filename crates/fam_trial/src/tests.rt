//! Made scripts, and the line of a trial.

use crate::{made, made_script, trial_line};
use fam_base::{Descriptor, FamError, ItemId, NoMemory, PeId, RegionId, Sequence, Who, copy_of};
use fam_machine::Machine;
use fam_model::{
    Call, Event, OpResult, PieceAnswer, Reply, ReplyLine, Script, Service, Statement, What,
};
use fam_rows::common_rows;
use std::alloc::Global;
use std::test::Fail;

const MADE: &str = "service 2 2 64
pe 1 1
region r1 g0 8192 700
alloc i1 d0 4096 600 r1
quiet c0
put-nb c0 i1 1032 3f3f3f3f3f3f3f3f
put c0 i1 816 e9
quiet c0
end
stop
";

const PLAYED: &str = "trial 42 1 3 events 10 ok 7 refused 0 sum 3731509\n";

const REFUSED: &str = "trial 9 2 1 events 0 ok 1 refused 2 sum 0\n";

#[test]
fn makes_the_script_of_the_seed_42(rt: HostRuntime) -> Result<(), Fail> {
    let text = made(rt.alloc(), 42, 1, 3)?;
    assert_eq!(rt; text.as_slice(), MADE.as_bytes());
    let none = made(rt.alloc(), 7, 0, 9)?;
    assert_eq!(rt; none.as_slice(), b"service 2 2 64\nstop\n".as_slice());
    Ok(())
}

#[test]
fn counts_the_lines_of_a_script(rt: HostRuntime) -> Result<(), Fail> {
    let script = made_script(rt.alloc(), 7, 8, 200)?;
    assert_eq!(rt; script.lines, 1642);
    assert_eq!(rt; script.programs.len(), 8);
    Ok(())
}

/// The event by which a statement of the first program begins, with this reply; leaving where there is none.
fn begin(script: &Script, at: usize, reply: Reply) -> Result<What, NoMemory> {
    let Some(program) = script.programs.get(0) else {
        return Ok(What::Leave);
    };
    match program.statements.get(at) {
        Some(Statement::One(Call::Meta(call))) => Ok(What::Meta {
            call: copy_of(call)?,
            reply,
        }),
        Some(Statement::One(Call::Quiet { context })) => Ok(What::Quiet {
            context: *context,
            reply,
        }),
        Some(Statement::One(call)) => Ok(What::Issue {
            call: copy_of(call)?,
            reply,
        }),
        _ => Ok(What::Leave),
    }
}

/// A run on its way.
#[derive(Drop)]
struct Played {
    machine: Machine,
    history: Vec<Event>,
}

impl Played {
    /// One event more; nothing where it may not come.
    fn add(&mut self, call: u64, what: What) -> Result<(), NoMemory> {
        let event = Event {
            pe: PeId(0),
            call,
            what,
        };
        if self.machine.step(&event).is_ok() {
            self.history.push(event)?;
        }
        Ok(())
    }

    /// The first event of a statement.
    fn begin(&mut self, script: &Script, at: usize, reply: Reply) -> Result<(), NoMemory> {
        let what = begin(script, at, reply)?;
        self.add(at as u64, what)
    }

    /// The only piece of a call.
    fn serve(&mut self, call: u64) -> Result<(), NoMemory> {
        self.add(
            call,
            What::Piece {
                piece: 0,
                answer: PieceAnswer::Ok,
            },
        )
    }
}

fn machine(alloc: Global) -> Result<Machine, NoMemory> {
    let whos = [Who { uid: 1, gid: 1 }];
    let service = Service {
        servers: 2,
        stripes: 2,
        unit: 64,
    };
    Machine::opened(alloc, common_rows(alloc)?, service, &whos, 1)
}

/// The report of one put that was not waited for.
fn report(alloc: Global) -> Result<Reply, NoMemory> {
    let mut results = Sequence::new(alloc);
    results.push(OpResult {
        call: 3,
        answer: PieceAnswer::Ok,
    })?;
    Ok(Reply::Report(results))
}

/// The script of the seed 42, played to its end.
fn play(alloc: Global, script: &Script) -> Result<Played, NoMemory> {
    let item = Descriptor {
        item: ItemId(1),
        region: RegionId(1),
        base: 0,
        size: 4096,
    };
    let mut played = Played {
        machine: machine(alloc)?,
        history: Vec::new(alloc),
    };
    played.begin(script, 0, Reply::Region(RegionId(1)))?;
    played.begin(script, 1, Reply::Item(item))?;
    played.begin(script, 2, Reply::Report(Sequence::new(alloc)))?;
    played.begin(script, 3, Reply::Issued)?;
    played.begin(script, 4, Reply::Issued)?;
    played.serve(4)?;
    played.serve(3)?;
    played.add(4, What::Answer { reply: Reply::Done })?;
    played.begin(script, 5, report(alloc)?)?;
    played.add(6, What::Leave)?;
    Ok(played)
}

/// So many reply lines of calls that were served, and then of calls that were refused.
fn lines(alloc: Global, served: u64, refused: u64) -> Result<Vec<ReplyLine>, NoMemory> {
    let mut lines = Vec::new(alloc);
    for call in 0..served {
        lines.push(ReplyLine {
            pe: PeId(0),
            call,
            reply: Reply::Left,
        })?;
    }
    for call in 0..refused {
        lines.push(ReplyLine {
            pe: PeId(1),
            call,
            reply: Reply::Error(FamError::Range),
        })?;
    }
    Ok(lines)
}

#[test]
fn tells_how_the_seed_42_was_played(rt: HostRuntime) -> Result<(), Fail> {
    let alloc = rt.alloc();
    let script = made_script(alloc, 42, 1, 3)?;
    let played = play(alloc, &script)?;
    let replies = lines(alloc, 7, 0)?;
    let history = played.history.as_slice();
    let line = trial_line(
        alloc,
        42,
        1,
        3,
        history,
        replies.as_slice(),
        &played.machine,
    )?;
    assert_eq!(rt; line.as_slice(), PLAYED.as_bytes());
    Ok(())
}

#[test]
fn counts_what_was_refused(rt: HostRuntime) -> Result<(), Fail> {
    let alloc = rt.alloc();
    let machine = machine(alloc)?;
    let replies = lines(alloc, 1, 2)?;
    let line = trial_line(alloc, 9, 2, 1, &[], replies.as_slice(), &machine)?;
    assert_eq!(rt; line.as_slice(), REFUSED.as_bytes());
    Ok(())
}
