//! Words that stand in a table.

ghost use Rattle.std.specs.Prelude.{◌≡◌};
ghost use Rattle.fam_script.specs.Reading as words;

use fam_model::{Op, Width};

/// The width of a word.
pub fn width(word: &[u8]) -> Option<Width>
    ensures { result ≡ words.width_of word.now }
{
    if word == b"i32".as_slice() {
        Some(Width::I32)
    } else if word == b"u32".as_slice() {
        Some(Width::U32)
    } else if word == b"i64".as_slice() {
        Some(Width::I64)
    } else if word == b"u64".as_slice() {
        Some(Width::U64)
    } else if word == b"i128".as_slice() {
        Some(Width::I128)
    } else if word == b"f32".as_slice() {
        Some(Width::F32)
    } else if word == b"f64".as_slice() {
        Some(Width::F64)
    } else {
        None
    }
}

/// The operation of a word.
pub fn op(word: &[u8]) -> Option<Op>
    ensures { result ≡ words.op_of word.now }
{
    if let Some(op) = plain_op(word) {
        return Some(op);
    }
    fetching_op(word)
}

/// An operation that gives nothing.
fn plain_op(word: &[u8]) -> Option<Op>
    ensures { result ≡ words.plain_op_of word.now }
{
    if word == b"set".as_slice() {
        Some(Op::Set)
    } else if word == b"add".as_slice() {
        Some(Op::Add)
    } else if word == b"sub".as_slice() {
        Some(Op::Sub)
    } else if word == b"min".as_slice() {
        Some(Op::Min)
    } else if word == b"max".as_slice() {
        Some(Op::Max)
    } else if word == b"and".as_slice() {
        Some(Op::And)
    } else if word == b"or".as_slice() {
        Some(Op::Or)
    } else if word == b"xor".as_slice() {
        Some(Op::Xor)
    } else {
        None
    }
}

/// An operation that gives the old value.
fn fetching_op(word: &[u8]) -> Option<Op>
    ensures { result ≡ words.fetching_op_of word.now }
{
    if word == b"fetch".as_slice() {
        Some(Op::Fetch)
    } else if word == b"fetch-add".as_slice() {
        Some(Op::FetchAdd)
    } else if word == b"fetch-sub".as_slice() {
        Some(Op::FetchSub)
    } else if word == b"fetch-min".as_slice() {
        Some(Op::FetchMin)
    } else if word == b"fetch-max".as_slice() {
        Some(Op::FetchMax)
    } else if word == b"fetch-and".as_slice() {
        Some(Op::FetchAnd)
    } else if word == b"fetch-or".as_slice() {
        Some(Op::FetchOr)
    } else if word == b"fetch-xor".as_slice() {
        Some(Op::FetchXor)
    } else if word == b"swap".as_slice() {
        Some(Op::Swap)
    } else if word == b"cas".as_slice() {
        Some(Op::Cas)
    } else {
        None
    }
}
