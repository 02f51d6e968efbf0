//! Records of changes.

ghost use Rattle.std.specs.Prelude.{◌≡◌, ◌++◌, OnOk, IfOk};
ghost use Rattle.fam_model.specs.Journal as words;
ghost use Rattle.meta_codec.specs.Body.{HasBody};
ghost use Rattle.meta_journal.specs.Layout.{record_bytes};

use fam_base::{Bytes, NoMemory};
use fam_model::Change;
use meta_codec::{body_length, encode};
use std::alloc::Global;

/// How long the record of a change is, with its gate.
#[tactic(auto, using(crate::proofs::Records::body_is_counted, crate::proofs::Records::body_short))]
pub(crate) fn record_length(change: &Change) -> u64
    requires { HasBody change.now }
    ensures { result ≡ words.record_length change.now }
{
    5 + body_length(change)
}

/// Adds the record of a change, without its gate.
#[tactic(auto, using(crate::proofs::Records::body_short))]
pub(crate) fn push_record(alloc: Global, out: &mut Vec<u8>, change: &Change) -> Result<(), NoMemory>
    requires { HasBody change.now }
    ensures { OnOk result (out.new.items ≡ out.old.items ++ record_bytes change.now) }
{
    let body = encode(alloc, change)?;
    out.extend_from_slice(&(body.len() as u32).to_le_bytes())?;
    out.extend_from_slice(body.as_slice())?;
    Ok(())
}

/// A copy of a change.
pub(crate) fn copy_of_change(alloc: Global, change: &Change) -> Result<Change, NoMemory>
    ensures { IfOk result (λ copy. copy ≡ change.now) }
{
    Ok(match change {
        Change::CreateRegion {
            region,
            uid,
            gid,
            mode,
            size,
            name,
        } => Change::CreateRegion {
            region: *region,
            uid: *uid,
            gid: *gid,
            mode: *mode,
            size: *size,
            name: Bytes::of(alloc, name.as_slice())?,
        },
        Change::DestroyRegion { region } => Change::DestroyRegion { region: *region },
        Change::ResizeRegion { region, size } => Change::ResizeRegion {
            region: *region,
            size: *size,
        },
        Change::Allocate {
            item,
            region,
            base,
            size,
            uid,
            gid,
            mode,
            name,
        } => Change::Allocate {
            item: *item,
            region: *region,
            base: *base,
            size: *size,
            uid: *uid,
            gid: *gid,
            mode: *mode,
            name: Bytes::of(alloc, name.as_slice())?,
        },
        Change::Deallocate { item } => Change::Deallocate { item: *item },
        Change::SetItemMode { item, mode } => Change::SetItemMode {
            item: *item,
            mode: *mode,
        },
        Change::SetRegionMode { region, mode } => Change::SetRegionMode {
            region: *region,
            mode: *mode,
        },
        Change::Skip {
            next_region,
            next_item,
        } => Change::Skip {
            next_region: *next_region,
            next_item: *next_item,
        },
    })
}
