//! Whether the call that an event makes is well-formed.

ghost use Rattle.std.specs.Prelude.{◌≡◌, length};
ghost use Rattle.std.specs.List.{list_all};
ghost use Rattle.fam_base.specs.Name.{is_between};
ghost use Rattle.fam_model.specs.Lists.{is_some_and};
ghost use Rattle.fam_model.specs.Shape as shapes;
ghost use Rattle.fam_model.specs.Turn.{call_made};

use fam_base::Bytes;
use fam_model::{MetaCall, What};

fn are_printed(name: &[u8]) -> bool
    ensures { result ≡ list_all (is_between 33 126) name.now }
{
    name.iter().all(|byte| 33 <= *byte && *byte <= 126)
}

fn is_name(name: &Bytes) -> bool
    ensures { result ≡ shapes.is_name name.now }
{
    match name.len() {
        1..=64 => are_printed(name.as_slice()),
        _ => false,
    }
}

fn is_shaped_meta(call: &MetaCall) -> bool
    ensures { result ≡ shapes.is_shaped_meta call.now }
{
    match call {
        MetaCall::CreateRegion { slot, name, .. } | MetaCall::LookupRegion { slot, name } => {
            *slot < 16 && is_name(name)
        }
        MetaCall::Allocate {
            slot,
            name,
            region,
            ..
        } => *slot < 16 && *region < 16 && is_name(name),
        MetaCall::Lookup { slot, name, region } => *slot < 16 && is_name(name) && is_name(region),
        MetaCall::DestroyRegion { slot }
        | MetaCall::ResizeRegion { slot, .. }
        | MetaCall::SetRegionMode { slot, .. }
        | MetaCall::StatRegion { slot }
        | MetaCall::Deallocate { slot }
        | MetaCall::SetItemMode { slot, .. }
        | MetaCall::Stat { slot } => *slot < 16,
    }
}

/// Whether the event makes a call, and a well-formed one.
pub(crate) fn makes_shaped(what: &What) -> bool
    ensures { result ≡ is_some_and (call_made what.now) shapes.is_shaped }
{
    match what {
        What::Meta { call, .. } => is_shaped_meta(call),
        What::Issue { call, .. } | What::Refused { call, .. } => call.shaped(),
        What::OpenContext { context }
        | What::CloseContext { context, .. }
        | What::Fence { context }
        | What::Quiet { context, .. }
        | What::Wait { context, .. } => *context < 8,
        What::Arrive | What::Leave | What::Crash => true,
        What::Piece { .. } | What::Answer { .. } | What::Lose { .. } => false,
    }
}
