//! Data calls as text. Each word has a space in front.

ghost use Rattle.std.specs.Prelude.{◌≡◌, ◌++◌, ◌∷◌, OnOk, true};
ghost use Rattle.fam_model.specs.declared.call.DataOp.TheVariants as data_op;
ghost use Rattle.fam_model.specs.CallText.{argument_words, data_words, op_word, verb, width_word};
ghost use Rattle.fam_model.specs.Words.{hex_text, list_text};
ghost use Rattle.fam_script.specs.Spaced.{spaced};

use super::words::{push_hex, push_list, push_text};
use fam_base::{Bytes, Places};
use fam_model::{DataOp, Op, Width};
use std::alloc::AllocError;

pub fn word_of_width(width: Width) -> &'static str
    ensures { result.now ≡ width_word width }
{
    match width {
        Width::I32 => "i32",
        Width::U32 => "u32",
        Width::I64 => "i64",
        Width::U64 => "u64",
        Width::I128 => "i128",
        Width::F32 => "f32",
        Width::F64 => "f64",
    }
}

fn word_of_op(op: Op) -> &'static str
    ensures { result.now ≡ op_word op }
{
    match op {
        Op::Set => "set",
        Op::Add => "add",
        Op::Sub => "sub",
        Op::Min => "min",
        Op::Max => "max",
        Op::And => "and",
        Op::Or => "or",
        Op::Xor => "xor",
        Op::Fetch => "fetch",
        Op::FetchAdd => "fetch-add",
        Op::FetchSub => "fetch-sub",
        Op::FetchMin => "fetch-min",
        Op::FetchMax => "fetch-max",
        Op::FetchAnd => "fetch-and",
        Op::FetchOr => "fetch-or",
        Op::FetchXor => "fetch-xor",
        Op::Swap => "swap",
        Op::Cas => "cas",
    }
}

fn push_arguments(text: &mut Vec<u8>, op: Op, a: i128, b: i128) -> Result<(), AllocError>
    ensures { OnOk result (text.new.items ≡ text.old.items ++ spaced (argument_words op a b)) }
{
    match op {
        Op::Fetch => push_text(text, ""),
        Op::Cas => push!(text, " {a} {b}"),
        _ => push!(text, " {a}"),
    }
}

#[tactic(auto, using(crate::proofs::Joined::texts))]
fn push_atomic(
    text: &mut Vec<u8>,
    context: u8,
    item: u8,
    offset: u64,
    width: Width,
    op: Op,
    a: i128,
    b: i128,
) -> Result<(), AllocError>
    ensures { OnOk result (text.new.items ≡ text.old.items ++ spaced (data_words context (data_op.Atomic item offset width op a b) true)) }
{
    let bits = word_of_width(width);
    let verb = word_of_op(op);
    push!(text, " atomic c{context} i{item} {offset} {bits} {verb}")?;
    push_arguments(text, op, a, b)?;
    Ok(())
}

/// Appends the name of a data call.
fn push_verb(text: &mut Vec<u8>, word: &str, blocking: bool) -> Result<(), AllocError>
    ensures { OnOk result (text.new.items ≡ text.old.items ++ 32 ∷ verb word.now blocking) }
{
    if blocking {
        push!(text, " {word}")
    } else {
        push!(text, " {word}-nb")
    }
}

#[tactic(auto, using(crate::proofs::Joined::texts))]
fn push_put(
    text: &mut Vec<u8>,
    context: u8,
    item: u8,
    offset: u64,
    bytes: &Bytes,
    blocking: bool,
) -> Result<(), AllocError>
    ensures { OnOk result (text.new.items ≡ text.old.items ++ spaced (data_words context (data_op.Put item offset bytes.now) blocking)) }
{
    push_verb(text, "put", blocking)?;
    push!(text, " c{context} i{item} {offset} ")?;
    push_hex(text, bytes.as_slice())?;
    Ok(())
}

#[tactic(auto, using(crate::proofs::Joined::texts))]
fn push_scatter(
    text: &mut Vec<u8>,
    context: u8,
    item: u8,
    first: u64,
    stride: u64,
    size: u64,
    count: u64,
    bytes: &Bytes,
    blocking: bool,
) -> Result<(), AllocError>
    ensures { OnOk result (text.new.items ≡ text.old.items ++ spaced (data_words context (data_op.Scatter item first stride size count bytes.now) blocking)) }
{
    push_verb(text, "scatter", blocking)?;
    push!(text, " c{context} i{item} {first} {stride}")?;
    push!(text, " {size} {count} ")?;
    push_hex(text, bytes.as_slice())?;
    Ok(())
}

#[tactic(auto, using(crate::proofs::Joined::texts))]
fn push_gather_index(
    text: &mut Vec<u8>,
    context: u8,
    item: u8,
    size: u64,
    places: &Places,
    blocking: bool,
) -> Result<(), AllocError>
    ensures { OnOk result (text.new.items ≡ text.old.items ++ spaced (data_words context (data_op.GatherIndex item size places.now) blocking)) }
{
    push_verb(text, "gather-index", blocking)?;
    push!(text, " c{context} i{item} {size} ")?;
    push_list(text, places.as_slice())?;
    Ok(())
}

/// Appends places and bytes with a space between them.
#[tactic(auto, using(crate::proofs::Joined::texts))]
fn push_scattered(text: &mut Vec<u8>, places: &Places, bytes: &Bytes) -> Result<(), AllocError>
    ensures { OnOk result (text.new.items ≡ text.old.items ++ (list_text places.now ++ 32 ∷ hex_text bytes.now)) }
{
    push_list(text, places.as_slice())?;
    push_text(text, " ")?;
    push_hex(text, bytes.as_slice())?;
    Ok(())
}

#[tactic(auto, using(crate::proofs::Joined::texts))]
fn push_scatter_index(
    text: &mut Vec<u8>,
    context: u8,
    item: u8,
    size: u64,
    places: &Places,
    bytes: &Bytes,
    blocking: bool,
) -> Result<(), AllocError>
    ensures { OnOk result (text.new.items ≡ text.old.items ++ spaced (data_words context (data_op.ScatterIndex item size places.now bytes.now) blocking)) }
{
    push_verb(text, "scatter-index", blocking)?;
    push!(text, " c{context} i{item} {size} ")?;
    push_scattered(text, places, bytes)?;
    Ok(())
}

#[tactic(auto, using(crate::proofs::Joined::texts))]
fn push_get(
    text: &mut Vec<u8>,
    context: u8,
    item: u8,
    offset: u64,
    count: u64,
    blocking: bool,
) -> Result<(), AllocError>
    ensures { OnOk result (text.new.items ≡ text.old.items ++ spaced (data_words context (data_op.Get item offset count) blocking)) }
{
    push_verb(text, "get", blocking)?;
    push!(text, " c{context} i{item} {offset} {count}")?;
    Ok(())
}

#[tactic(auto, using(crate::proofs::Joined::texts))]
fn push_gather(
    text: &mut Vec<u8>,
    context: u8,
    item: u8,
    first: u64,
    stride: u64,
    size: u64,
    count: u64,
    blocking: bool,
) -> Result<(), AllocError>
    ensures { OnOk result (text.new.items ≡ text.old.items ++ spaced (data_words context (data_op.Gather item first stride size count) blocking)) }
{
    push_verb(text, "gather", blocking)?;
    push!(text, " c{context} i{item} {first} {stride} {size} {count}")?;
    Ok(())
}

/// Appends a data call on a context.
pub fn push_data_call(
    text: &mut Vec<u8>,
    context: u8,
    op: &DataOp,
    blocking: bool,
) -> Result<(), AllocError>
    ensures { OnOk result (text.new.items ≡ text.old.items ++ spaced (data_words context op.now blocking)) }
{
    match op {
        DataOp::Get {
            item,
            offset,
            count,
        } => push_get(text, context, *item, *offset, *count, blocking),
        DataOp::Put {
            item,
            offset,
            bytes,
        } => push_put(text, context, *item, *offset, bytes, blocking),
        DataOp::Gather {
            item,
            first,
            stride,
            size,
            count,
        } => push_gather(
            text, context, *item, *first, *stride, *size, *count, blocking,
        ),
        DataOp::Scatter {
            item,
            first,
            stride,
            size,
            count,
            bytes,
        } => push_scatter(
            text, context, *item, *first, *stride, *size, *count, bytes, blocking,
        ),
        DataOp::GatherIndex { item, size, places } => {
            push_gather_index(text, context, *item, *size, places, blocking)
        }
        DataOp::ScatterIndex {
            item,
            size,
            places,
            bytes,
        } => push_scatter_index(text, context, *item, *size, places, bytes, blocking),
        DataOp::Copy {
            from,
            from_offset,
            to,
            to_offset,
            count,
        } => push!(
            text,
            " copy c{context} i{from} {from_offset} i{to} {to_offset} {count}"
        ),
        DataOp::Atomic {
            item,
            offset,
            width,
            op,
            a,
            b,
        } => push_atomic(text, context, *item, *offset, *width, *op, *a, *b),
    }
}
