//! Whether a line is lawful.

ghost use Rattle.std.specs.Prelude.{◌≡◌, true};
ghost use Rattle.std.specs.List.{list_all};
ghost use Rattle.fam_model.specs.Grammar.{is_line};
ghost use Rattle.fam_model.specs.Values as values;
ghost use Rattle.fam_model.specs.declared.call.Call.TheVariants as calls;
ghost use Rattle.fam_model.specs.declared.line.Line.TheVariants as lines;

use fam_base::Mode;
use fam_model::{Call, DataOp, Line, MetaCall, Service};

/// Its numbers are in range, and its call is well-formed.
pub fn is_lawful(line: &Line) -> bool
    ensures { result ≡ is_line line.now }
{
    match line {
        Line::Service(service) => is_service(*service),
        Line::Pe(who) => who.uid < 4_294_967_295 && who.gid < 4_294_967_295,
        Line::One(call) => is_lawful_call(call),
        Line::Spin {
            context,
            item,
            offset,
            width,
            value,
            tries,
        } => {
            number_fits(*offset);
            *context < 8 && *item < 16 && width.contains(*value) && 1 <= *tries && *tries <= 65_536
        }
        Line::Repeat { times } => 1 <= *times && *times <= 65_536,
        Line::Done | Line::End | Line::Stop => true,
    }
}

fn is_service(service: Service) -> bool
    ensures { result ≡ is_line (lines.Service service) }
{
    Service::of(service.servers, service.stripes, service.unit).is_some()
}

fn is_lawful_call(call: &Call) -> bool
    ensures { result ≡ is_line (lines.One call.now) }
{
    call_fits(call);
    match call {
        Call::Leave => false,
        _ => call.shaped(),
    }
}

/// The fields of a call hold their numbers.
fn call_fits(call: &Call)
    ensures { values.call_fits call.now ≡ true }
{
    match call {
        Call::Meta(call) => meta_fits(call),
        Call::Data {
            context,
            op,
            blocking,
        } => data_fits(*context, op, *blocking),
        Call::CopyWait { call, .. } => number_fits(*call),
        _ => (),
    }
}

fn meta_fits(call: &MetaCall)
    ensures { values.call_fits (calls.Meta call.now) ≡ true }
{
    match call {
        MetaCall::CreateRegion { size, mode, .. } | MetaCall::Allocate { size, mode, .. } => {
            number_fits(*size);
            mode_fits(*mode)
        }
        MetaCall::ResizeRegion { size, .. } => number_fits(*size),
        MetaCall::SetRegionMode { mode, .. } | MetaCall::SetItemMode { mode, .. } => {
            mode_fits(*mode)
        }
        _ => (),
    }
}

fn data_fits(context: u8, op: &DataOp, blocking: bool)
    ensures { values.call_fits (calls.Data context op.now blocking) ≡ true }
{
    match op {
        DataOp::Get { offset, count, .. } => numbers_fit(&[*offset, *count]),
        DataOp::Put { offset, bytes, .. } => {
            number_fits(*offset);
            bytes_fit(bytes.as_slice())
        }
        DataOp::Gather {
            first,
            stride,
            size,
            count,
            ..
        } => numbers_fit(&[*first, *stride, *size, *count]),
        DataOp::Scatter {
            first,
            stride,
            size,
            count,
            bytes,
            ..
        } => {
            numbers_fit(&[*first, *stride, *size, *count]);
            bytes_fit(bytes.as_slice())
        }
        DataOp::GatherIndex { size, places, .. } => {
            number_fits(*size);
            numbers_fit(places.as_slice())
        }
        DataOp::ScatterIndex {
            size,
            places,
            bytes,
            ..
        } => {
            number_fits(*size);
            numbers_fit(places.as_slice());
            bytes_fit(bytes.as_slice())
        }
        DataOp::Copy {
            from_offset,
            to_offset,
            count,
            ..
        } => numbers_fit(&[*from_offset, *to_offset, *count]),
        DataOp::Atomic { offset, .. } => number_fits(*offset),
    }
}

fn number_fits(number: u64)
    ensures { values.is_u64 number ≡ true }
{}

fn mode_fits(mode: Mode)
    ensures { values.is_mode mode ≡ true }
{
    let _bits = mode.bits();
}

fn numbers_fit(numbers: &[u64])
    ensures { list_all values.is_u64 numbers.now ≡ true }
{}

fn bytes_fit(bytes: &[u8])
    ensures { values.are_bytes bytes.now ≡ true }
{}
