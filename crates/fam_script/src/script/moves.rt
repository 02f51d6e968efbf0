//! Data calls without a list.

ghost use Rattle.std.specs.Prelude.{◌≡◌};
ghost use Rattle.fam_script.specs.Reading as lines;

use crate::script::cut::{five_words, four_words, seven_words, six_words};
use crate::script::table::{op, width};
use crate::script::word::{number, signed, slot};
use fam_model::{Call, DataOp, Line};

/// A data call without a list.
pub fn move_line(word: &[u8], arguments: &[u8]) -> Option<Line>
    ensures { result ≡ lines.move_line word.now (lines.parts 32 arguments.now) }
{
    if word == b"get".as_slice() {
        get(arguments, true)
    } else if word == b"get-nb".as_slice() {
        get(arguments, false)
    } else if word == b"gather".as_slice() {
        gather(arguments, true)
    } else if word == b"gather-nb".as_slice() {
        gather(arguments, false)
    } else if word == b"copy".as_slice() {
        copy(arguments)
    } else if word == b"atomic".as_slice() {
        atomic(arguments)
    } else {
        None
    }
}

pub fn data(context: u8, op: DataOp, blocking: bool) -> Option<Line>
    ensures { result ≡ lines.data_line context op blocking }
{
    Some(Line::One(Call::Data {
        context,
        op,
        blocking,
    }))
}

fn get(arguments: &[u8], blocking: bool) -> Option<Line>
    ensures { result ≡ lines.get_line blocking (lines.parts 32 arguments.now) }
{
    let (context, item, offset, count) = four_words(arguments)?;
    let context = slot(context)?;
    let item = slot(item)?;
    let offset = number(offset)?;
    let count = number(count)?;
    let op = DataOp::Get {
        item,
        offset,
        count,
    };
    data(context, op, blocking)
}

fn gather(arguments: &[u8], blocking: bool) -> Option<Line>
    ensures { result ≡ lines.gather_line blocking (lines.parts 32 arguments.now) }
{
    let (context, item, first, stride, size, count) = six_words(arguments)?;
    let context = slot(context)?;
    let item = slot(item)?;
    let first = number(first)?;
    let stride = number(stride)?;
    let size = number(size)?;
    let count = number(count)?;
    let op = DataOp::Gather {
        item,
        first,
        stride,
        size,
        count,
    };
    data(context, op, blocking)
}

fn copy(arguments: &[u8]) -> Option<Line>
    ensures { result ≡ lines.copy_line (lines.parts 32 arguments.now) }
{
    let (context, from, from_offset, to, to_offset, count) = six_words(arguments)?;
    let context = slot(context)?;
    let from = slot(from)?;
    let from_offset = number(from_offset)?;
    let to = slot(to)?;
    let to_offset = number(to_offset)?;
    let count = number(count)?;
    let op = DataOp::Copy {
        from,
        from_offset,
        to,
        to_offset,
        count,
    };
    data(context, op, false)
}

/// An atomic with as many arguments as there are.
fn atomic(arguments: &[u8]) -> Option<Line>
    ensures { result ≡ lines.atomic_line (lines.parts 32 arguments.now) }
{
    if let Some(line) = atomic_none(arguments) {
        return Some(line);
    }
    if let Some(line) = atomic_one(arguments) {
        return Some(line);
    }
    atomic_two(arguments)
}

fn atomic_none(arguments: &[u8]) -> Option<Line>
    ensures { result ≡ lines.atomic_none_line (lines.parts 32 arguments.now) }
{
    let (context, item, offset, width_word, op_word) = five_words(arguments)?;
    let context = slot(context)?;
    let item = slot(item)?;
    let offset = number(offset)?;
    let kind = width(width_word)?;
    let operation = op(op_word)?;
    let op = DataOp::Atomic {
        item,
        offset,
        width: kind,
        op: operation,
        a: 0,
        b: 0,
    };
    data(context, op, operation.is_fetching())
}

fn atomic_one(arguments: &[u8]) -> Option<Line>
    ensures { result ≡ lines.atomic_one_line (lines.parts 32 arguments.now) }
{
    let (context, item, offset, width_word, op_word, a) = six_words(arguments)?;
    let context = slot(context)?;
    let item = slot(item)?;
    let offset = number(offset)?;
    let kind = width(width_word)?;
    let operation = op(op_word)?;
    let a = signed(a)?;
    let op = DataOp::Atomic {
        item,
        offset,
        width: kind,
        op: operation,
        a,
        b: 0,
    };
    data(context, op, operation.is_fetching())
}

fn atomic_two(arguments: &[u8]) -> Option<Line>
    ensures { result ≡ lines.atomic_two_line (lines.parts 32 arguments.now) }
{
    let (context, item, offset, width_word, op_word, a, b) = seven_words(arguments)?;
    let context = slot(context)?;
    let item = slot(item)?;
    let offset = number(offset)?;
    let kind = width(width_word)?;
    let operation = op(op_word)?;
    let a = signed(a)?;
    let b = signed(b)?;
    let op = DataOp::Atomic {
        item,
        offset,
        width: kind,
        op: operation,
        a,
        b,
    };
    data(context, op, operation.is_fetching())
}
