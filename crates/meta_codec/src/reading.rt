//! Bytes to changes.

ghost use Rattle.std.specs.Prelude.{◌≡◌, IfOk, IfSome};
ghost use Rattle.meta_codec.specs.Body.{HasBody, body};
ghost use Rattle.meta_codec.specs.Gives.{Gives};
ghost use Rattle.meta_codec.specs.Reading.{allocate_at, create_region_at, deallocate_at, decoded, destroy_region_at, of_kind, resize_region_at, set_item_mode_at, set_region_mode_at, skip_at, whole};

use crate::fields::{mode_at, mode_of, name_at, u32_at, u64_at, user_at};
use crate::unread::Unread;
use fam_base::{ItemId, NoMemory, RegionId};
use fam_model::Change;
use std::alloc::Global;

/// The change that has this body. None exactly where the bytes are no body.
pub fn decode(alloc: Global, bytes: &[u8]) -> Result<Option<Change>, NoMemory>
    ensures exact { IfOk result (λ change. change ≡ decoded bytes.now) }
    ensures spelled { IfOk result (λ change. IfSome change (λ c. HasBody c × (bytes.now ≡ body c))) }
{
    match change_of(alloc, bytes) {
        Ok(change) => Ok(Some(change)),
        Err(Unread::NoBody) => Ok(None),
        Err(Unread::Memory) => Err(NoMemory),
    }
}

fn change_of(alloc: Global, bytes: &[u8]) -> Result<Change, Unread>
    ensures { Gives (λ c. c) result (decoded bytes.now) }
{
    let [kind, fields @ ..] = bytes else {
        return Err(Unread::NoBody);
    };
    of_kind(alloc, *kind, fields)
}

fn of_kind(alloc: Global, kind: u8, fields: &[u8]) -> Result<Change, Unread>
    ensures { Gives (λ c. c) result (of_kind kind fields.now) }
{
    match kind {
        1 => create_region_at(alloc, fields),
        2 => destroy_region_at(fields),
        3 => resize_region_at(fields),
        4 => allocate_at(alloc, fields),
        5 => deallocate_at(fields),
        6 => set_item_mode_at(fields),
        7 => set_region_mode_at(fields),
        8 => skip_at(fields),
        _ => Err(Unread::NoBody),
    }
}

#[tactic(auto, unfolding(crate::specs::Reading::create_region_at))]
fn create_region_at(alloc: Global, bytes: &[u8]) -> Result<Change, Unread>
    ensures { Gives (λ c. c) result (create_region_at bytes.now) }
{
    let (region, rest) = u64_at(bytes)?;
    let (uid, rest) = user_at(rest)?;
    let (gid, rest) = u32_at(rest)?;
    let (bits, rest) = mode_at(rest)?;
    let (size, rest) = u64_at(rest)?;
    let (name, rest) = name_at(alloc, rest)?;
    let change = Change::CreateRegion {
        region: RegionId(region),
        uid,
        gid,
        mode: mode_of(bits),
        size,
        name,
    };
    whole(change, rest)
}

#[tactic(auto, unfolding(crate::specs::Reading::destroy_region_at))]
fn destroy_region_at(bytes: &[u8]) -> Result<Change, Unread>
    ensures { Gives (λ c. c) result (destroy_region_at bytes.now) }
{
    let (region, rest) = u64_at(bytes)?;
    whole(
        Change::DestroyRegion {
            region: RegionId(region),
        },
        rest,
    )
}

#[tactic(auto, unfolding(crate::specs::Reading::resize_region_at))]
fn resize_region_at(bytes: &[u8]) -> Result<Change, Unread>
    ensures { Gives (λ c. c) result (resize_region_at bytes.now) }
{
    let (region, rest) = u64_at(bytes)?;
    let (size, rest) = u64_at(rest)?;
    whole(
        Change::ResizeRegion {
            region: RegionId(region),
            size,
        },
        rest,
    )
}

#[tactic(auto, unfolding(crate::specs::Reading::allocate_at))]
fn allocate_at(alloc: Global, bytes: &[u8]) -> Result<Change, Unread>
    ensures { Gives (λ c. c) result (allocate_at bytes.now) }
{
    let (item, rest) = u64_at(bytes)?;
    let (region, rest) = u64_at(rest)?;
    let (base, rest) = u64_at(rest)?;
    let (size, rest) = u64_at(rest)?;
    let (uid, rest) = user_at(rest)?;
    let (gid, rest) = u32_at(rest)?;
    let (bits, rest) = mode_at(rest)?;
    let (name, rest) = name_at(alloc, rest)?;
    let change = Change::Allocate {
        item: ItemId(item),
        region: RegionId(region),
        base,
        size,
        uid,
        gid,
        mode: mode_of(bits),
        name,
    };
    whole(change, rest)
}

#[tactic(auto, unfolding(crate::specs::Reading::deallocate_at))]
fn deallocate_at(bytes: &[u8]) -> Result<Change, Unread>
    ensures { Gives (λ c. c) result (deallocate_at bytes.now) }
{
    let (item, rest) = u64_at(bytes)?;
    whole(Change::Deallocate { item: ItemId(item) }, rest)
}

#[tactic(auto, unfolding(crate::specs::Reading::set_item_mode_at))]
fn set_item_mode_at(bytes: &[u8]) -> Result<Change, Unread>
    ensures { Gives (λ c. c) result (set_item_mode_at bytes.now) }
{
    let (item, rest) = u64_at(bytes)?;
    let (bits, rest) = mode_at(rest)?;
    whole(
        Change::SetItemMode {
            item: ItemId(item),
            mode: mode_of(bits),
        },
        rest,
    )
}

#[tactic(auto, unfolding(crate::specs::Reading::set_region_mode_at))]
fn set_region_mode_at(bytes: &[u8]) -> Result<Change, Unread>
    ensures { Gives (λ c. c) result (set_region_mode_at bytes.now) }
{
    let (region, rest) = u64_at(bytes)?;
    let (bits, rest) = mode_at(rest)?;
    whole(
        Change::SetRegionMode {
            region: RegionId(region),
            mode: mode_of(bits),
        },
        rest,
    )
}

#[tactic(auto, unfolding(crate::specs::Reading::skip_at))]
fn skip_at(bytes: &[u8]) -> Result<Change, Unread>
    ensures { Gives (λ c. c) result (skip_at bytes.now) }
{
    let (next_region, rest) = u64_at(bytes)?;
    let (next_item, rest) = u64_at(rest)?;
    whole(
        Change::Skip {
            next_region,
            next_item,
        },
        rest,
    )
}

/// The change, where nothing stands behind its last field.
#[tactic(auto, unfolding(crate::specs::Reading::whole))]
fn whole(change: Change, rest: &[u8]) -> Result<Change, Unread>
    ensures { Gives (λ c. c) result (whole change rest.now) }
{
    if rest.is_empty() {
        Ok(change)
    } else {
        Err(Unread::NoBody)
    }
}
