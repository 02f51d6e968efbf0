//! What atomics make of numbers.

ghost use Rattle.std.specs.Prelude.{◌≡◌, length, IsTrue, pos, ◌+ℤ◌, ◌-ℤ◌, bit_and, bit_or, bit_xor, unsigned_abs};
ghost use Rattle.fam_model.specs.declared.call.Op.TheVariants as op_variants;
ghost use Rattle.std.specs.Int.{int_min, int_max};
ghost use Rattle.fam_model.specs.Atomic as atomics;

use crate::number::{value, write};
use fam_model::{Op, Width};

fn is_bitwise(op: Op) -> bool
    ensures { result ≡ atomics.is_bitwise op }
{
    matches!(
        op,
        Op::And | Op::Or | Op::Xor | Op::FetchAnd | Op::FetchOr | Op::FetchXor
    )
}

/// Whether a width has the operation.
pub fn supported(op: Op, width: Width) -> bool
    ensures { result ≡ atomics.is_supported op width }
{
    match width {
        Width::I32 | Width::I64 => !is_bitwise(op),
        Width::U32 | Width::U64 => true,
        Width::I128 => matches!(op, Op::Set | Op::Fetch | Op::Cas),
        Width::F32 | Width::F64 => false,
    }
}

/// A sum or a difference, wrapped into the range of a width below 128 bits.
fn reduced(width: Width, number: i128) -> i128
    requires { IsTrue (atomics.is_supported op_variants.Add width) }
    ensures value { result ≡ atomics.reduced width number }
    ensures in_range { IsTrue (atomics.is_in_range width result) }
{
    match width {
        Width::I32 => i128::from((number.rem_euclid(1 << 32) as u32).cast_signed()),
        Width::I64 => i128::from((number.rem_euclid(1 << 64) as u64).cast_signed()),
        Width::U32 => number.rem_euclid(1 << 32),
        Width::U64 => number.rem_euclid(1 << 64),
        Width::I128 | Width::F32 | Width::F64 => unreachable!(),
    }
}

fn sum(width: Width, x: i128, y: i128) -> i128
    requires supported { IsTrue (atomics.is_supported op_variants.Add width) }
    requires x_in_range { IsTrue (atomics.is_in_range width x) }
    requires y_in_range { IsTrue (atomics.is_in_range width y) }
    ensures value { result ≡ atomics.reduced width (x +ℤ y) }
    ensures in_range { IsTrue (atomics.is_in_range width result) }
{
    reduced(width, x + y)
}

fn difference(width: Width, x: i128, y: i128) -> i128
    requires supported { IsTrue (atomics.is_supported op_variants.Sub width) }
    requires x_in_range { IsTrue (atomics.is_in_range width x) }
    requires y_in_range { IsTrue (atomics.is_in_range width y) }
    ensures value { result ≡ atomics.reduced width (x -ℤ y) }
    ensures in_range { IsTrue (atomics.is_in_range width result) }
{
    reduced(width, x - y)
}

#[tactic(auto, using(crate::proofs::Ranges::min_in_range))]
fn lower(width: Width, x: i128, y: i128) -> i128
    requires x_in_range { IsTrue (atomics.is_in_range width x) }
    requires y_in_range { IsTrue (atomics.is_in_range width y) }
    ensures value { result ≡ int_min x y }
    ensures in_range { IsTrue (atomics.is_in_range width result) }
{
    if y < x { y } else { x }
}

#[tactic(auto, using(crate::proofs::Ranges::max_in_range))]
fn higher(width: Width, x: i128, y: i128) -> i128
    requires x_in_range { IsTrue (atomics.is_in_range width x) }
    requires y_in_range { IsTrue (atomics.is_in_range width y) }
    ensures value { result ≡ int_max x y }
    ensures in_range { IsTrue (atomics.is_in_range width result) }
{
    if y < x { x } else { y }
}

/// The bits that both numbers have.
fn bits_of_both(width: Width, x: i128, y: i128) -> i128
    requires supported { IsTrue (atomics.is_supported op_variants.And width) }
    requires x_in_range { IsTrue (atomics.is_in_range width x) }
    requires y_in_range { IsTrue (atomics.is_in_range width y) }
    ensures value { result ≡ pos (bit_and (unsigned_abs x) (unsigned_abs y)) }
    ensures in_range { IsTrue (atomics.is_in_range width result) }
{
    x & y
}

/// The bits that one of the numbers has, or both.
fn bits_of_any(width: Width, x: i128, y: i128) -> i128
    requires supported { IsTrue (atomics.is_supported op_variants.Or width) }
    requires x_in_range { IsTrue (atomics.is_in_range width x) }
    requires y_in_range { IsTrue (atomics.is_in_range width y) }
    ensures value { result ≡ pos (bit_or (unsigned_abs x) (unsigned_abs y)) }
    ensures in_range { IsTrue (atomics.is_in_range width result) }
{
    x | y
}

/// The bits that just one of the numbers has.
fn bits_of_one(width: Width, x: i128, y: i128) -> i128
    requires supported { IsTrue (atomics.is_supported op_variants.Xor width) }
    requires x_in_range { IsTrue (atomics.is_in_range width x) }
    requires y_in_range { IsTrue (atomics.is_in_range width y) }
    ensures value { result ≡ pos (bit_xor (unsigned_abs x) (unsigned_abs y)) }
    ensures in_range { IsTrue (atomics.is_in_range width result) }
{
    x ^ y
}

/// What a number becomes by an operation.
fn changed(op: Op, width: Width, old: i128, a: i128, b: i128) -> i128
    requires supported { IsTrue (atomics.is_supported op width) }
    requires old_in_range { IsTrue (atomics.is_in_range width old) }
    requires a_in_range { IsTrue (atomics.is_in_range width a) }
    requires b_in_range { IsTrue (atomics.is_in_range width b) }
    ensures value { result ≡ atomics.atomic op width old a b }
    ensures in_range { IsTrue (atomics.is_in_range width result) }
{
    match op {
        Op::Set | Op::Swap => a,
        Op::Fetch => old,
        Op::Cas => { if old == a { b } else { old } }
        Op::Add | Op::FetchAdd => sum(width, old, a),
        Op::Sub | Op::FetchSub => difference(width, old, a),
        Op::Min | Op::FetchMin => lower(width, old, a),
        Op::Max | Op::FetchMax => higher(width, old, a),
        Op::And | Op::FetchAnd => bits_of_both(width, old, a),
        Op::Or | Op::FetchOr => bits_of_any(width, old, a),
        Op::Xor | Op::FetchXor => bits_of_one(width, old, a),
    }
}

/// Applies an atomic to the old bytes of a number, writes the new ones, and gives the old number. `b` is of
/// use to a compare-and-swap alone. It takes no memory.
pub fn apply(op: Op, width: Width, old: &[u8], a: i128, b: i128, into: &mut [u8]) -> i128
    requires supported { IsTrue (atomics.is_supported op width) }
    requires a_in_range { IsTrue (atomics.is_in_range width a) }
    requires b_in_range { IsTrue (atomics.is_in_range width b) }
    requires old_length { length old.now ≡ atomics.width_bytes width }
    requires room { length into.old ≡ atomics.width_bytes width }
    ensures bytes { into.new ≡ atomics.bytes_after op width a b old.now }
    ensures value { result ≡ atomics.number_of_bytes width old.now }
{
    let number = value(width, old);
    let new = changed(op, width, number, a, b);
    write(width, new, into);
    number
}
