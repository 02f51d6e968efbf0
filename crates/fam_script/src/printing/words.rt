//! The words that several lines have.

ghost use Rattle.std.specs.Prelude.{◌≡◌, ◌++◌, ◌∷◌, IfSome, OnOk};
ghost use Rattle.std.specs.List.{flat_map};
ghost use Rattle.std.specs.Fmt.{decimal};
ghost use Rattle.hex.specs.Hex.{encode_lower};
ghost use Rattle.fam_model.specs.Words.{hex_text, list_text, mode_text};

use fam_base::Mode;
use std::alloc::AllocError;
use std::fmt;
use std::fmt::{Display, Write};

/// Appends a text.
pub fn push_text(text: &mut Vec<u8>, words: &str) -> Result<(), AllocError>
    ensures { OnOk result (text.new.items ≡ text.old.items ++ words.now) }
{
    text.extend_from_slice(words.as_bytes())
}

/// A text to which a format is appended.
#[derive(Drop)]
struct Appender<'a> {
    text: &'a mut Vec<u8>,
}

impl fmt::Write for Appender<'_> {
    ghost use Rattle.std.specs.Prelude.{◌≡◌, ◌++◌};

    ghost write_str_gives = { λ s bytes t. (t.text.ghost_name ≡ s.text.ghost_name) × (t.text.now.items ≡ s.text.now.items ++ bytes) };

    fn write_str(&mut self, words: &str) -> fmt::Result {
        match self.text.extend_from_slice(words.as_bytes()) {
            Ok(()) => Ok(()),
            Err(_) => Err(fmt::Error),
        }
    }
}

/// Appends a format.
pub fn push_format<D: Display + Drop>(text: &mut Vec<u8>, words: D) -> Result<(), AllocError>
    ensures { OnOk result (IfSome (D.output words) (λ bytes. text.new.items ≡ text.old.items ++ bytes)) }
{
    let mut appender = Appender { text };
    let written = appender.write_fmt(words);
    let Appender { text } = appender;
    // No effect at run time: the proof reads what the text holds from this use.
    let _ = &*text;
    match written {
        Ok(()) => Ok(()),
        Err(_) => Err(AllocError),
    }
}

/// Appends two digits for each byte.
fn push_digits(text: &mut Vec<u8>, bytes: &[u8]) -> Result<(), AllocError>
    ensures { OnOk result (text.new.items ≡ text.old.items ++ encode_lower bytes.now) }
{
    let start = text.len();
    let Some(end) = bytes
        .len()
        .checked_mul(2)
        .and_then(|more| more.checked_add(start))
    else {
        return Err(AllocError);
    };
    text.resize(end, 0)?;
    let (_, digits) = text.as_mut_slice().split_at_mut(start);
    match hex::encode_to_slice(bytes, digits) {
        Ok(()) => Ok(()),
        Err(_) => unreachable!(),
    }
}

/// Appends bytes as hexadecimal digits.
pub fn push_hex(text: &mut Vec<u8>, bytes: &[u8]) -> Result<(), AllocError>
    ensures { OnOk result (text.new.items ≡ text.old.items ++ hex_text bytes.now) }
{
    match bytes {
        [] => push_text(text, "-"),
        _ => push_digits(text, bytes),
    }
}

/// Appends numbers with a comma in front of each.
#[tactic(auto, using(crate::proofs::Joined::lists))]
fn push_others(text: &mut Vec<u8>, others: &[u64]) -> Result<(), AllocError>
    ensures { OnOk result (text.new.items ≡ text.old.items ++ flat_map (λ number. 44 ∷ decimal number) others.now) }
{
    for number in others {
        push!(text, ",{number}")?;
    }
    Ok(())
}

/// Appends numbers with commas between them.
#[tactic(auto, using(crate::proofs::Joined::lists))]
pub fn push_list(text: &mut Vec<u8>, numbers: &[u64]) -> Result<(), AllocError>
    ensures { OnOk result (text.new.items ≡ text.old.items ++ list_text numbers.now) }
{
    let Some((first, others)) = numbers.split_first() else {
        return push_text(text, "-");
    };
    push!(text, "{first}")?;
    push_others(text, others)
}

/// Appends a mode behind a space.
pub fn push_mode(text: &mut Vec<u8>, mode: Mode) -> Result<(), AllocError>
    ensures { OnOk result (text.new.items ≡ text.old.items ++ 32 ∷ mode_text mode) }
{
    let bits = mode.bits();
    let owner = b'0' + (bits / 64) as u8;
    let group = b'0' + (bits / 8 % 8) as u8;
    let others = b'0' + (bits % 8) as u8;
    text.extend_from_slice(&[b' ', owner, group, others])
}
