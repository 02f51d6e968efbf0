//! Calls as text. Each word has a space in front.

ghost use Rattle.std.specs.Prelude.{◌≡◌, ◌++◌, OnOk};
ghost use Rattle.fam_model.specs.declared.call.MetaCall.TheVariants as meta;
ghost use Rattle.fam_model.specs.CallText.{meta_words, call_words};
ghost use Rattle.fam_script.specs.Spaced.{spaced};

use super::data_calls::push_data_call;
use super::words::push_mode;
use fam_base::{Bytes, Mode};
use fam_model::{Call, MetaCall};
use std::alloc::AllocError;

#[tactic(auto, using(crate::proofs::Joined::texts))]
fn push_create_region(
    text: &mut Vec<u8>,
    slot: u8,
    name: &Bytes,
    size: u64,
    mode: Mode,
) -> Result<(), AllocError>
    ensures { OnOk result (text.new.items ≡ text.old.items ++ spaced (meta_words (meta.CreateRegion slot name.now size mode))) }
{
    push!(text, " region r{slot} ")?;
    text.extend_from_slice(name.as_slice())?;
    push!(text, " {size}")?;
    push_mode(text, mode)?;
    Ok(())
}

#[tactic(auto, using(crate::proofs::Joined::texts))]
fn push_allocate(
    text: &mut Vec<u8>,
    slot: u8,
    name: &Bytes,
    size: u64,
    mode: Mode,
    region: u8,
) -> Result<(), AllocError>
    ensures { OnOk result (text.new.items ≡ text.old.items ++ spaced (meta_words (meta.Allocate slot name.now size mode region))) }
{
    push!(text, " alloc i{slot} ")?;
    text.extend_from_slice(name.as_slice())?;
    push!(text, " {size}")?;
    push_mode(text, mode)?;
    push!(text, " r{region}")?;
    Ok(())
}

#[tactic(auto, using(crate::proofs::Joined::texts))]
fn push_region_mode(text: &mut Vec<u8>, slot: u8, mode: Mode) -> Result<(), AllocError>
    ensures { OnOk result (text.new.items ≡ text.old.items ++ spaced (meta_words (meta.SetRegionMode slot mode))) }
{
    push!(text, " chmod-region r{slot}")?;
    push_mode(text, mode)?;
    Ok(())
}

#[tactic(auto, using(crate::proofs::Joined::texts))]
fn push_item_mode(text: &mut Vec<u8>, slot: u8, mode: Mode) -> Result<(), AllocError>
    ensures { OnOk result (text.new.items ≡ text.old.items ++ spaced (meta_words (meta.SetItemMode slot mode))) }
{
    push!(text, " chmod i{slot}")?;
    push_mode(text, mode)?;
    Ok(())
}

#[tactic(auto, using(crate::proofs::Joined::texts))]
fn push_lookup_region(text: &mut Vec<u8>, slot: u8, name: &Bytes) -> Result<(), AllocError>
    ensures { OnOk result (text.new.items ≡ text.old.items ++ spaced (meta_words (meta.LookupRegion slot name.now))) }
{
    push!(text, " lookup-region r{slot} ")?;
    text.extend_from_slice(name.as_slice())?;
    Ok(())
}

#[tactic(auto, using(crate::proofs::Joined::texts))]
fn push_lookup(text: &mut Vec<u8>, slot: u8, name: &Bytes, region: &Bytes) -> Result<(), AllocError>
    ensures { OnOk result (text.new.items ≡ text.old.items ++ spaced (meta_words (meta.Lookup slot name.now region.now))) }
{
    push!(text, " lookup i{slot} ")?;
    text.extend_from_slice(name.as_slice())?;
    push!(text, " ")?;
    text.extend_from_slice(region.as_slice())?;
    Ok(())
}

/// Appends a call on the directory.
pub fn push_meta_call(text: &mut Vec<u8>, call: &MetaCall) -> Result<(), AllocError>
    ensures { OnOk result (text.new.items ≡ text.old.items ++ spaced (meta_words call.now)) }
{
    match call {
        MetaCall::CreateRegion {
            slot,
            name,
            size,
            mode,
        } => push_create_region(text, *slot, name, *size, *mode),
        MetaCall::DestroyRegion { slot } => push!(text, " destroy r{slot}"),
        MetaCall::ResizeRegion { slot, size } => push!(text, " resize r{slot} {size}"),
        MetaCall::SetRegionMode { slot, mode } => push_region_mode(text, *slot, *mode),
        MetaCall::LookupRegion { slot, name } => push_lookup_region(text, *slot, name),
        MetaCall::StatRegion { slot } => push!(text, " stat-region r{slot}"),
        MetaCall::Allocate {
            slot,
            name,
            size,
            mode,
            region,
        } => push_allocate(text, *slot, name, *size, *mode, *region),
        MetaCall::Deallocate { slot } => push!(text, " dealloc i{slot}"),
        MetaCall::SetItemMode { slot, mode } => push_item_mode(text, *slot, *mode),
        MetaCall::Lookup { slot, name, region } => push_lookup(text, *slot, name, region),
        MetaCall::Stat { slot } => push!(text, " stat i{slot}"),
    }
}

/// Appends a call; nothing for leaving.
#[tactic(auto, using(crate::proofs::Joined::texts))]
pub fn push_call(text: &mut Vec<u8>, call: &Call) -> Result<(), AllocError>
    ensures { OnOk result (text.new.items ≡ text.old.items ++ spaced (call_words call.now)) }
{
    match call {
        Call::Meta(call) => push_meta_call(text, call),
        Call::Data {
            context,
            op,
            blocking,
        } => push_data_call(text, *context, op, *blocking),
        Call::OpenContext { context } => push!(text, " open c{context}"),
        Call::CloseContext { context } => push!(text, " close c{context}"),
        Call::CopyWait { context, call } => push!(text, " copy-wait c{context} {call}"),
        Call::Fence { context } => push!(text, " fence c{context}"),
        Call::Quiet { context } => push!(text, " quiet c{context}"),
        Call::Barrier => push!(text, " barrier"),
        Call::Leave => Ok(()),
        Call::Crash => push!(text, " crash"),
    }
}
