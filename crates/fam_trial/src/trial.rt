//! The line that tells how a run went.

ghost use Rattle.std.specs.Prelude.{◌≡◌, ◌+◌, ◌*◌, ◌%◌, ◌^◌, ◌++◌, count_by, not, IfOk, OnOk};
ghost use Rattle.fam_model.specs.ReportText.{reply_lines};
ghost use Rattle.fam_script.specs.Spaced.{spaced};
ghost use Rattle.fam_trial.specs.Trial as trial;

use crate::printing::end_line;
use fam_base::NoMemory;
use fam_machine::Machine;
use fam_model::{Event, Reply, ReplyLine};
use fam_script::printing::push_format;
use std::alloc::{AllocError, Global};

/// Whether the line tells of a refusal.
fn is_refusal(line: &ReplyLine) -> bool
    ensures { result ≡ trial.is_refusal line.now }
{
    match &line.reply {
        Reply::Error(_) => true,
        _ => false,
    }
}

/// How many lines tell of a refusal.
fn refused(replies: &[ReplyLine]) -> usize
    ensures { result ≡ count_by trial.is_refusal replies.now }
{
    replies.iter().filter(|line| is_refusal(line)).count()
}

/// How many lines tell of none.
fn served(replies: &[ReplyLine]) -> usize
    ensures { result ≡ count_by (λ line. not (trial.is_refusal line)) replies.now }
{
    replies.iter().filter(|line| !is_refusal(line)).count()
}

/// A byte, weighted by the number of its item and its place in it, in 64 bits.
#[tactic(auto, using(crate::proofs::Sums::weighing))]
fn weighted(item: u64, offset: u64, byte: u8) -> u64
    ensures { result ≡ byte * (4096 * item + offset + 1) % 2 ^ 64 }
{
    let weight = item.wrapping_mul(4096).wrapping_add(offset).wrapping_add(1);
    u64::from(byte).wrapping_mul(weight)
}

/// The weighted bytes of an item, in 64 bits.
fn item_sum(item: u64, bytes: &[u8]) -> u64
    ensures { result ≡ trial.item_sum item bytes.now % 2 ^ 64 }
{
    let mut sum = 0u64;
    for (offset, byte) in bytes.iter().enumerate() {
        sum = sum.wrapping_add(weighted(item, offset as u64, *byte));
    }
    sum
}

/// The weighted bytes of all items, in 64 bits.
fn memory_sum(machine: &Machine) -> u64
    ensures { result ≡ trial.memory_sum machine.now }
{
    let mut sum = 0u64;
    for row in machine.rows().items() {
        let of_item = match machine.item(row.number) {
            Some(bytes) => item_sum(row.number.0, bytes.as_slice()),
            None => 0,
        };
        sum = sum.wrapping_add(of_item);
    }
    sum
}

/// Appends the words that name the run.
fn push_run(text: &mut Vec<u8>, seed: u64, programs: u8, calls: u32) -> Result<(), AllocError>
    ensures { OnOk result (text.new.items ≡ text.old.items ++ spaced (trial.run_words seed programs calls)) }
{
    push_format(text, format_args!(" trial {seed} {programs} {calls}"))
}

/// Appends the words on events, and on what was served.
fn push_served(text: &mut Vec<u8>, events: usize, served: usize) -> Result<(), AllocError>
    ensures { OnOk result (text.new.items ≡ text.old.items ++ spaced (trial.served_words events served)) }
{
    push_format(text, format_args!(" events {events} ok {served}"))
}

/// Appends the words on what was refused, and on memory.
fn push_refused(text: &mut Vec<u8>, refused: usize, sum: u64) -> Result<(), AllocError>
    ensures { OnOk result (text.new.items ≡ text.old.items ++ spaced (trial.refused_words refused sum)) }
{
    push_format(text, format_args!(" refused {refused} sum {sum}"))
}

/// The line of a run of a made script: its history, the lines of its replies, and the machine after it. Its numbers are the
/// seed, the programs and their calls, then how many events there were, how many calls were served and how many refused, and
/// a sum over the bytes of all items that are there at the end.
pub fn trial_line(
    alloc: Global,
    seed: u64,
    programs: u8,
    calls: u32,
    history: &[Event],
    replies: &[ReplyLine],
    machine: &Machine,
) -> Result<Vec<u8>, NoMemory>
    ensures line { IfOk result (λ text. text.items ≡ trial.trial_text seed programs calls history.now replies.now machine.now) }
    ensures of_history { IfOk result (λ text. replies.now ≡ reply_lines programs history.now →
        text.items ≡ trial.trial_line seed programs calls history.now machine.now) }
{
    let mut words = Vec::new(alloc);
    push_run(&mut words, seed, programs, calls)?;
    push_served(&mut words, history.len(), served(replies))?;
    push_refused(&mut words, refused(replies), memory_sum(machine))?;
    let mut text = Vec::new(alloc);
    end_line(&mut text, words.as_slice())?;
    Ok(text)
}
