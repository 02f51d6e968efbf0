//! A program whose end has not come.

ghost use Rattle.std.specs.Prelude.{◌≡◌, ◌+◌, ◌*◌, ◌≤◌, ◌<◌, ℕ, min, sum_by, IfOk, MatchOption, Some, None};
ghost use Rattle.fam_model.specs.Grammar.{max_count};
ghost use Rattle.fam_model.specs.ScriptText.{call_count};

use fam_base::{NoMemory, Sequence, Who};
use fam_model::{Program, Statement};
use sqlite_items::Items;
use std::alloc::Global;

/// An open repeat: the statements before it in its block, how many they are with repeats multiplied, and
/// its count. What is counted is at most 65,537.
#[derive(Drop)]
pub struct Open {
    pub before: Sequence<Statement>,
    pub count: u64,
    pub times: u32,
    ghost counted: { count ≡ min (sum_by call_count before) 65_537 },
}

/// The open repeats, the innermost last, and the statements of the innermost block, with their number.
#[derive(Drop)]
pub struct Unfinished {
    pub who: Who,
    pub open_repeats: Vec<Open>,
    pub block: Sequence<Statement>,
    pub count: u64,
    ghost counted: { count ≡ min (sum_by call_count block) 65_537 },
}

fn capped(count: u64) -> u64
    ensures { result ≡ min count 65_537 }
{
    if count < 65_537 { count } else { 65_537 }
}

impl Unfinished {
    ghost use Rattle.fam_script.specs.Machine.{begun, with_statement, opened, closed, finished};
    ghost use Rattle.fam_script.specs.Views.{view};

    pub fn new(alloc: Global, who: Who) -> Unfinished
        ensures { view result ≡ begun who }
    {
        Unfinished {
            who,
            open_repeats: Vec::new(alloc),
            block: Sequence::new(alloc),
            count: 0,
        }
    }

    /// The program with one statement more, which makes so many calls.
    #[tactic(auto, using(crate::proofs::Counts::counts))]
    pub fn add(self, statement: Statement, calls: u32) -> Result<Unfinished, NoMemory>
        requires { call_count statement ≡ calls }
        ensures { IfOk result (λ u. view u ≡ with_statement (view self) statement) }
    {
        let Unfinished {
            who,
            open_repeats,
            mut block,
            count,
        } = self;
        block.push(statement)?;
        Ok(Unfinished {
            who,
            open_repeats,
            block,
            count: capped(capped(count) + u64::from(calls)),
        })
    }

    /// Begins a repeat, where not too many are around it.
    pub fn open(self, alloc: Global, times: u32) -> Result<Option<Unfinished>, NoMemory>
        ensures { IfOk result (λ next. MatchOption next (opened (view self) times ≡ None) (λ u. opened (view self) times ≡ Some (view u))) }
    {
        let Unfinished {
            who,
            mut open_repeats,
            block,
            count,
        } = self;
        if open_repeats.len() >= 4 {
            return Ok(None);
        }
        open_repeats.push(Open {
            before: block,
            count,
            times,
        })?;
        Ok(Some(Unfinished {
            who,
            open_repeats,
            block: Sequence::new(alloc),
            count: 0,
        }))
    }

    /// Ends the innermost repeat, where one is open.
    #[tactic(auto, using(crate::proofs::Counts::counts))]
    pub fn close(self) -> Result<Option<Unfinished>, NoMemory>
        ensures { let opens = (view self).open_repeats in
            IfOk result (λ next. MatchOption next (closed (view self) opens ≡ None) (λ u. closed (view self) opens ≡ Some (view u))) }
    {
        let Unfinished {
            who,
            mut open_repeats,
            block,
            count,
        } = self;
        let Some(open) = open_repeats.pop() else {
            return Ok(None);
        };
        let Open {
            before,
            count: count_before,
            times,
        } = open;
        let mut block_around = before;
        let body = Items::from_vec(block.into_vec());
        block_around.push(Statement::Repeat { times, body })?;
        Ok(Some(Unfinished {
            who,
            open_repeats,
            block: block_around,
            count: capped(capped(count_before) + capped(count) * u64::from(times)),
        }))
    }

    /// The program that ends here, where no repeat is open and its statements are not too many.
    pub fn finish(self) -> Option<Program>
        ensures { result ≡ finished max_count self.who (view self).open_repeats self.block }
    {
        let Unfinished {
            who,
            open_repeats,
            block,
            count,
        } = self;
        if open_repeats.is_empty() && count <= 65_536 {
            Some(Program {
                who,
                statements: block,
            })
        } else {
            None
        }
    }
}
