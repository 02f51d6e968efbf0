//! What a program does in its turn.

ghost use Rattle.std.specs.Prelude.{◌≡◌, ℤ, pos, IfOk, true, Some, []};
ghost use Rattle.fam_model.specs.Text.{next_of};
ghost use Rattle.fam_model.specs.declared.call.Call.TheVariants as calls;
ghost use Rattle.fam_model.specs.declared.call.DataOp.TheVariants as data_op;
ghost use Rattle.fam_model.specs.declared.call.Op.TheVariants as ops;

use fam_model::{Call, DataOp, Op, Width};

/// A call, or the tries of a spin.
#[derive(Drop)]
pub enum Action {
    Once(Call),
    Spin {
        context: u8,
        item: u8,
        offset: u64,
        width: Width,
        value: i128,
        tries: u32,
    },
}

/// The call that a spin makes.
pub fn fetch(context: u8, item: u8, offset: u64, width: Width) -> Call
    ensures { result ≡ calls.Data context (data_op.Atomic item offset width ops.Fetch (pos 0) (pos 0)) true }
{
    Call::Data {
        context,
        op: DataOp::Atomic {
            item,
            offset,
            width,
            op: Op::Fetch,
            a: 0,
            b: 0,
        },
        blocking: true,
    }
}
