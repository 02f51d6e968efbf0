//! Words, calls and lines as text. Each word of a call or a line has a space in front.

ghost use Rattle.std.specs.Prelude.{◌≡◌, ◌++◌, IfOk, OnOk, drop};
ghost use Rattle.fam_model.specs.CallText.{call_text};
ghost use Rattle.fam_model.specs.ScriptText.{line_words};
ghost use Rattle.fam_model.specs.declared.line.Line.TheVariants as lines;
ghost use Rattle.fam_script.specs.Spaced.{spaced};

/// Appends a format to a text.
macro_rules! push {
    ($text:ident, $($format:tt)+) => {
        $crate::printing::words::push_format($text, format_args!($($format)+))
    };
}

mod calls;
mod data_calls;
mod words;

pub use calls::{push_call, push_meta_call};
use data_calls::word_of_width;
use fam_base::{Bytes, NoMemory, Sequence};
use fam_model::{Call, Line, Width};
use std::alloc::{AllocError, Global};
pub use words::{push_format, push_hex, push_list, push_mode, push_text};

/// The text of a call; none for leaving.
pub fn statement(alloc: Global, call: &Call) -> Result<Bytes, NoMemory>
    ensures { IfOk result (λ text. text ≡ call_text call.now) }
{
    let mut text = Vec::new(alloc);
    push_call(&mut text, call)?;
    Sequence::of(alloc, without_space(text.as_slice()))
}

/// The words behind the first space.
pub fn without_space(text: &[u8]) -> &[u8]
    ensures { result.now ≡ drop 1 text.now }
{
    if text.is_empty() {
        text
    } else {
        let (_, behind) = text.split_at(1);
        behind
    }
}

/// Appends a line of a script, without its line feed.
pub fn push_line(text: &mut Vec<u8>, line: &Line) -> Result<(), AllocError>
    ensures { OnOk result (text.new.items ≡ text.old.items ++ spaced (line_words line.now)) }
{
    match line {
        Line::Service(service) => push!(
            text,
            " service {} {} {}",
            service.servers,
            service.stripes,
            service.unit
        ),
        Line::Pe(who) => push!(text, " pe {} {}", who.uid, who.gid),
        Line::One(call) => push_call(text, call),
        Line::Spin {
            context,
            item,
            offset,
            width,
            value,
            tries,
        } => push_spin(text, *context, *item, *offset, *width, *value, *tries),
        Line::Repeat { times } => push!(text, " repeat {times}"),
        Line::Done => push_text(text, " done"),
        Line::End => push_text(text, " end"),
        Line::Stop => push_text(text, " stop"),
    }
}

#[tactic(auto, using(crate::proofs::Joined::texts))]
fn push_spin(
    text: &mut Vec<u8>,
    context: u8,
    item: u8,
    offset: u64,
    width: Width,
    value: i128,
    tries: u32,
) -> Result<(), AllocError>
    ensures { OnOk result (text.new.items ≡ text.old.items ++ spaced (line_words (lines.Spin context item offset width value tries))) }
{
    let bits = word_of_width(width);
    push!(
        text,
        " spin c{context} i{item} {offset} {bits} {value} {tries}"
    )
}
