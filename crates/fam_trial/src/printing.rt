//! The text of a script.

ghost use Rattle.std.specs.Prelude.{◌≡◌, ◌∷◌, ◌++◌, [], drop, IfOk, OnOk};
ghost use Rattle.std.specs.List.{flat_map};
ghost use Rattle.fam_model.specs.declared.line.Line.TheVariants as lines;
ghost use Rattle.fam_model.specs.declared.script.Statement.{Repeat};
ghost use Rattle.fam_model.specs.ScriptText as texts;
ghost use Rattle.fam_trial.specs.Lines.{lines_text};

use fam_base::{NoMemory, Who};
use fam_model::{Call, Line, Program, Script, Statement};
use fam_script::printing::{push_call, push_line, without_space};
use std::alloc::{AllocError, Global};

/// Appends what stands behind the first space of a line, and a line feed.
pub fn end_line(text: &mut Vec<u8>, line: &[u8]) -> Result<(), AllocError>
    ensures { OnOk result (text.new.items ≡ text.old.items ++ (drop 1 line.now ++ 10 ∷ [])) }
{
    text.extend_from_slice(without_space(line))?;
    text.push(b'\n')?;
    Ok(())
}

/// Appends the line of a call.
fn add_call(alloc: Global, text: Vec<u8>, call: &Call) -> Result<Vec<u8>, NoMemory>
    ensures { IfOk result (λ now. now.items ≡ text.items ++ lines_text (lines.One call.now ∷ [])) }
{
    let mut line = Vec::new(alloc);
    push_call(&mut line, call)?;
    let mut text = text;
    end_line(&mut text, line.as_slice())?;
    Ok(text)
}

/// Appends a line.
fn add_line(alloc: Global, text: Vec<u8>, line: &Line) -> Result<Vec<u8>, NoMemory>
    ensures { IfOk result (λ now. now.items ≡ text.items ++ lines_text (line.now ∷ [])) }
{
    let mut words = Vec::new(alloc);
    push_line(&mut words, line)?;
    let mut text = text;
    end_line(&mut text, words.as_slice())?;
    Ok(text)
}

/// Appends the lines of statements.
#[cycle(writing)]
fn add_statements(
    alloc: Global,
    text: Vec<u8>,
    statements: &[Statement],
) -> Result<Vec<u8>, NoMemory>
    ensures { IfOk result (λ now. now.items ≡ text.items ++ lines_text (flat_map texts.statement_lines statements.now)) }
{
    let mut grown = text;
    for statement in statements {
        grown = add_statement(alloc, grown, statement)?;
    }
    Ok(grown)
}

#[cycle(writing)]
fn add_statement(alloc: Global, text: Vec<u8>, statement: &Statement) -> Result<Vec<u8>, NoMemory>
    ensures { IfOk result (λ now. now.items ≡ text.items ++ lines_text (texts.statement_lines statement.now)) }
{
    match statement {
        Statement::One(call) => {
            let grown = add_call(alloc, text, call)?;
            Ok(grown)
        }
        Statement::Repeat { times, body } => {
            let grown = add_repeat(alloc, text, *times, body.as_slice())?;
            Ok(grown)
        }
        Statement::Spin {
            context,
            item,
            offset,
            width,
            value,
            tries,
        } => {
            let line = Line::Spin {
                context: *context,
                item: *item,
                offset: *offset,
                width: *width,
                value: *value,
                tries: *tries,
            };
            let grown = add_line(alloc, text, &line)?;
            Ok(grown)
        }
    }
}

/// Appends the lines of a repeat.
#[cycle(writing)]
fn add_repeat(
    alloc: Global,
    text: Vec<u8>,
    times: u32,
    body: &[Statement],
) -> Result<Vec<u8>, NoMemory>
    ensures { IfOk result (λ now. now.items ≡ text.items ++ lines_text (texts.statement_lines (Repeat times body.now))) }
{
    let begun = add_line(alloc, text, &Line::Repeat { times })?;
    let inside = add_statements(alloc, begun, body)?;
    let whole = add_line(alloc, inside, &Line::Done)?;
    Ok(whole)
}

/// Appends the lines of a program.
fn add_program(alloc: Global, text: Vec<u8>, program: &Program) -> Result<Vec<u8>, NoMemory>
    ensures { IfOk result (λ now. now.items ≡ text.items ++ lines_text (texts.program_lines program.now)) }
{
    let begun = add_line(alloc, text, &Line::Pe(program.who))?;
    let inside = add_statements(alloc, begun, program.statements.as_slice())?;
    let whole = add_line(alloc, inside, &Line::End)?;
    Ok(whole)
}

/// Appends the lines of programs.
fn add_programs(alloc: Global, text: Vec<u8>, programs: &[Program]) -> Result<Vec<u8>, NoMemory>
    ensures { IfOk result (λ now. now.items ≡ text.items ++ lines_text (flat_map texts.program_lines programs.now)) }
{
    let mut grown = text;
    for program in programs {
        grown = add_program(alloc, grown, program)?;
    }
    Ok(grown)
}

/// The text of a script.
pub fn script_text(alloc: Global, script: &Script) -> Result<Vec<u8>, NoMemory>
    ensures { IfOk result (λ text. text.items ≡ texts.script_text script.now) }
{
    let begun = add_line(alloc, Vec::new(alloc), &Line::Service(script.service))?;
    let inside = add_programs(alloc, begun, script.programs.as_slice())?;
    let whole = add_line(alloc, inside, &Line::Stop)?;
    Ok(whole)
}
