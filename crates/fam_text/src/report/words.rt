//! The name of a call.

ghost use Rattle.std.specs.Prelude.{◌≡◌, ◌++◌, OnOk};
ghost use Rattle.fam_model.specs.EventText.{call_name};

use fam_base::PeId;
use std::alloc::AllocError;

/// Appends the name of a call.
pub fn push_call_name(text: &mut Vec<u8>, pe: PeId, call: u64) -> Result<(), AllocError>
    ensures { OnOk result (text.new.items ≡ text.old.items ++ call_name pe call) }
{
    push!(text, "{}.{call}", pe.0)
}
