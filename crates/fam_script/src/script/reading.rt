//! The lines so far.

ghost use Rattle.std.specs.Prelude.{◌≡◌, true, IfOk, MatchOption, Some, None};
ghost use Rattle.fam_model.specs.Grammar.{is_line};
ghost use Rattle.fam_script.specs.Machine as machine;
ghost use Rattle.fam_script.specs.Views.{view, Steps, Moves, Ends, GivesScript};

use crate::script::unfinished::Unfinished;
use fam_base::{NoMemory, Sequence};
use fam_model::{Line, Program, Script, Service, Statement};
use std::alloc::Global;

/// What the lines so far are the beginning of.
#[derive(Drop)]
pub enum Reading {
    /// There is none.
    Nothing,
    /// The service and these programs.
    Between(Service, Sequence<Program>),
    /// The service, these programs, and one whose end has not come.
    Inside(Service, Sequence<Program>, Unfinished),
    /// A whole script.
    Whole(Service, Sequence<Program>),
}

/// The lines with one more lawful one, if a script begins with them.
pub fn step(alloc: Global, reading: Reading, line: Line) -> Result<Option<Reading>, NoMemory>
    requires { is_line line ≡ true }
    ensures { IfOk result (λ next. Steps reading line next) }
{
    match reading {
        Reading::Nothing => Ok(first_step(alloc, line)),
        Reading::Between(service, programs) => Ok(between_step(alloc, service, programs, line)),
        Reading::Inside(service, programs, program) => {
            inside_step(alloc, service, programs, program, line)
        }
        Reading::Whole(_, _) => Ok(None),
    }
}

fn first_step(alloc: Global, line: Line) -> Option<Reading>
    ensures { Moves machine.Nothing line result }
{
    match line {
        Line::Service(service) => Some(Reading::Between(service, Sequence::new(alloc))),
        _ => None,
    }
}

fn between_step(
    alloc: Global,
    service: Service,
    programs: Sequence<Program>,
    line: Line,
) -> Option<Reading>
    ensures { Moves (machine.Between service programs) line result }
{
    match line {
        Line::Pe(who) if programs.len() < 64 => Some(Reading::Inside(
            service,
            programs,
            Unfinished::new(alloc, who),
        )),
        Line::Stop => Some(Reading::Whole(service, programs)),
        _ => None,
    }
}

fn inside_step(
    alloc: Global,
    service: Service,
    programs: Sequence<Program>,
    program: Unfinished,
    line: Line,
) -> Result<Option<Reading>, NoMemory>
    ensures { IfOk result (λ next. Moves (machine.Inside service programs (view program)) line next) }
{
    if let Line::End = line {
        return end_step(service, programs, program);
    }
    match statement_step(alloc, program, line)? {
        Some(next) => Ok(Some(Reading::Inside(service, programs, next))),
        None => Ok(None),
    }
}

/// The program with a line inside it.
fn statement_step(
    alloc: Global,
    program: Unfinished,
    line: Line,
) -> Result<Option<Unfinished>, NoMemory>
    ensures { IfOk result (λ next. MatchOption next (machine.inside_step (view program) line ≡ None) (λ u. machine.inside_step (view program) line ≡ Some (view u))) }
{
    match line {
        Line::One(call) => Ok(Some(program.add(Statement::One(call), 1)?)),
        Line::Spin {
            context,
            item,
            offset,
            width,
            value,
            tries,
        } => {
            let spin = Statement::Spin {
                context,
                item,
                offset,
                width,
                value,
                tries,
            };
            Ok(Some(program.add(spin, tries)?))
        }
        Line::Repeat { times } => program.open(alloc, times),
        Line::Done => program.close(),
        _ => Ok(None),
    }
}

/// The end of the program.
fn end_step(
    service: Service,
    mut programs: Sequence<Program>,
    program: Unfinished,
) -> Result<Option<Reading>, NoMemory>
    ensures { IfOk result (λ next. Ends service programs (view program) next) }
{
    let Some(program) = program.finish() else {
        return Ok(None);
    };
    programs.push(program)?;
    Ok(Some(Reading::Between(service, programs)))
}

/// The script of so many lines, if it is whole and nothing stands behind its last line feed.
pub fn finish(reading: Reading, lines: u64, rest: &[u8]) -> Option<Script>
    ensures { GivesScript lines reading rest.now result }
{
    match reading {
        Reading::Whole(service, programs) if rest.is_empty() => Some(Script {
            service,
            programs,
            lines,
        }),
        _ => None,
    }
}
