//! The script of a seed.

ghost use Rattle.std.specs.Prelude.{◌≡◌, ◌+◌, ◌*◌, ◌∷◌, ◌++◌, ◌≤◌, [], length, map, string_bytes, IfOk, OnOk};
ghost use Rattle.std.specs.Fmt.{decimal};
ghost use Rattle.fam_model.specs.Grammar.{IsLawfulScript};
ghost use Rattle.fam_model.specs.Lists.{numbers_below};
ghost use Rattle.fam_trial.specs.Generator as generator;

use crate::calls::{made_call, new_item, new_region};
use crate::printing::script_text;
use fam_base::{NoMemory, Sequence, Who};
use fam_model::{Call, Program, Script, Service, Statement};
use fam_schedule::words_of;
use rand_core::utils::NextWord;
use rand_pcg::Pcg32;
use std::alloc::Global;

/// Appends the calls of the next words, so many.
fn push_calls(
    alloc: Global,
    words: &mut Pcg32,
    calls: u32,
    statements: &mut Sequence<Statement>,
) -> Result<(), NoMemory>
    ensures calls { OnOk result (statements.new ≡
        statements.old ++ generator.statements_of (map generator.made_call (generator.words_from calls words.old))) }
    ensures words { OnOk result (words.new ≡ generator.after_words calls words.old) }
{
    for _ in 0..calls {
        let call = made_call(alloc, words.next_word())?;
        statements.push(Statement::One(call))?;
    }
    Ok(())
}

/// The program of that number, by the next words.
fn made_program(alloc: Global, words: &mut Pcg32, pe: u8, calls: u32) -> Result<Program, NoMemory>
    ensures program { IfOk result (λ program. program ≡ generator.made_program pe (generator.words_from calls words.old)) }
    ensures words { OnOk result (words.new ≡ generator.after_words calls words.old) }
{
    let mut statements = Sequence::new(alloc);
    statements.push(Statement::One(new_region(alloc, pe)?))?;
    statements.push(Statement::One(new_item(alloc, pe)?))?;
    push_calls(alloc, words, calls, &mut statements)?;
    statements.push(Statement::One(Call::Quiet { context: 0 }))?;
    Ok(Program {
        who: Who {
            uid: u32::from(pe) + 1,
            gid: 1,
        },
        statements,
    })
}

/// All programs, in order.
fn made_programs(
    alloc: Global,
    seed: u64,
    programs: u8,
    calls: u32,
) -> Result<Sequence<Program>, NoMemory>
    ensures { IfOk result (λ made. made ≡ generator.made_programs seed programs calls) }
{
    let mut words = words_of(seed);
    let mut made = Sequence::new(alloc);
    for pe in 0..programs {
        made.push(made_program(alloc, &mut words, pe, calls)?)?;
    }
    Ok(made)
}

/// The script of a seed: so many programs, each of which makes so many calls on items, one for each word that the seed
/// gives. Up to 64 programs, and with so few calls that no program has too many, it is a lawful script.
pub fn made_script(alloc: Global, seed: u64, programs: u8, calls: u32) -> Result<Script, NoMemory>
    ensures script { IfOk result (λ script. script ≡ generator.made_script seed programs calls) }
    ensures lawful { IfOk result (λ script. programs ≤ 64 → calls ≤ 65_533 → IsLawfulScript script) }
{
    Ok(Script {
        service: Service {
            servers: 2,
            stripes: 2,
            unit: 64,
        },
        programs: made_programs(alloc, seed, programs, calls)?,
        lines: 2 + u64::from(programs) * (u64::from(calls) + 5),
    })
}

/// The text of the script of a seed.
pub fn made(alloc: Global, seed: u64, programs: u8, calls: u32) -> Result<Vec<u8>, NoMemory>
    ensures { IfOk result (λ text. text.items ≡ generator.made seed programs calls) }
{
    let script = made_script(alloc, seed, programs, calls)?;
    script_text(alloc, &script)
}
