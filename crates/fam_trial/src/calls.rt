//! The call that a word gives.

ghost use Rattle.std.specs.Prelude.{◌≡◌, ◌++◌, ◌≤◌, pos, replicate, IfOk};
ghost use Rattle.std.specs.Fmt.{decimal};
ghost use Rattle.fam_model.specs.declared.call.Call.TheVariants as calls;
ghost use Rattle.fam_model.specs.declared.call.DataOp.TheVariants as data_op;
ghost use Rattle.fam_model.specs.declared.call.Op.TheVariants as op;
ghost use Rattle.fam_model.specs.declared.call.Width.TheVariants as width;
ghost use Rattle.fam_trial.specs.Generator as generator;

use fam_base::{Bytes, Mode, NoMemory, Sequence};
use fam_model::{Call, DataOp, MetaCall, Op, Width};
use std::alloc::Global;

/// So many bytes of this value.
fn put(
    alloc: Global,
    item: u8,
    offset: u64,
    byte: u8,
    count: usize,
    blocking: bool,
) -> Result<Call, NoMemory>
    ensures { IfOk result (λ call. call ≡ calls.Data 0 (data_op.Put item offset (replicate count byte)) blocking) }
{
    let bytes = Sequence::from_vec(vec![in alloc; byte; count]?);
    Ok(Call::Data {
        context: 0,
        op: DataOp::Put {
            item,
            offset,
            bytes,
        },
        blocking,
    })
}

/// Eight bytes.
fn get(item: u8, offset: u64, blocking: bool) -> Call
    ensures { result ≡ calls.Data 0 (data_op.Get item offset 8) blocking }
{
    Call::Data {
        context: 0,
        op: DataOp::Get {
            item,
            offset,
            count: 8,
        },
        blocking,
    }
}

/// An addition on eight bytes.
fn addition(item: u8, offset: u64, op: Op, byte: u8, blocking: bool) -> Call
    ensures { result ≡ calls.Data 0 (data_op.Atomic item offset width.U64 op (pos byte) (pos 0)) blocking }
{
    Call::Data {
        context: 0,
        op: DataOp::Atomic {
            item,
            offset,
            width: Width::U64,
            op,
            a: i128::from(byte),
            b: 0,
        },
        blocking,
    }
}

/// The call that a word gives.
pub fn made_call(alloc: Global, word: u32) -> Result<Call, NoMemory>
    ensures { IfOk result (λ call. call ≡ generator.made_call word) }
{
    let item = (word / 4096 % 2) as u8;
    let offset = 8 * u64::from(word / 8 % 512);
    let byte = (word / 8192 % 256) as u8;
    match word % 8 {
        0 => put(alloc, item, offset, byte, 1, true),
        1 => put(alloc, item, offset, byte, 8, false),
        2 => Ok(get(item, offset, true)),
        3 => Ok(get(item, offset, false)),
        4 => Ok(addition(item, offset, Op::Add, byte, false)),
        5 => Ok(addition(item, offset, Op::FetchAdd, byte, true)),
        6 => Ok(Call::Fence { context: 0 }),
        _ => Ok(Call::Quiet { context: 0 }),
    }
}

/// A mode of these bits.
fn mode(bits: u16) -> Mode
    requires { bits ≤ 511 }
    ensures { result ≡ bits }
{
    match Mode::of(bits) {
        Some(mode) => mode,
        None => unreachable!(),
    }
}

/// A letter with a number behind it.
fn name(alloc: Global, letter: &str, number: u8) -> Result<Bytes, NoMemory>
    ensures { IfOk result (λ name. name ≡ letter.now ++ decimal number) }
{
    let text = format!(in alloc; "{letter}{number}")?;
    Ok(Sequence::from_vec(text.into_bytes()))
}

/// A program makes a region of its own.
pub fn new_region(alloc: Global, pe: u8) -> Result<Call, NoMemory>
    ensures { IfOk result (λ call. call ≡ generator.new_region pe) }
{
    Ok(Call::Meta(MetaCall::CreateRegion {
        slot: 1,
        name: name(alloc, "g", pe)?,
        size: 8192,
        mode: mode(0o700),
    }))
}

/// A program makes an item in its region.
pub fn new_item(alloc: Global, pe: u8) -> Result<Call, NoMemory>
    ensures { IfOk result (λ call. call ≡ generator.new_item pe) }
{
    Ok(Call::Meta(MetaCall::Allocate {
        slot: 1,
        name: name(alloc, "d", pe)?,
        size: 4096,
        mode: mode(0o600),
        region: 1,
    }))
}
