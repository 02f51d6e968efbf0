//! What a request changes.

ghost use Rattle.std.specs.Prelude.{◌≡◌, IfOk};
ghost use Rattle.fam_model.specs.Directory as words;
ghost use Rattle.fam_model.specs.Rows.{IsLawful};

use crate::room::{fits, least_base};
use crate::search::region;
use fam_base::{Descriptor, ItemId, NoMemory, RegionId, Sequence, Who};
use fam_model::{Change, Reply, Request, Rows};
use std::alloc::Global;

/// Whether a new item of a request may lie at `base`; other requests have none.
pub fn may_lie(rows: &Rows, request: &Request, base: u64) -> bool
    requires { IsLawful rows.now }
    ensures { result ≡ words.may_lie rows.now request.now base }
{
    match request {
        Request::Allocate {
            size,
            region: number,
            ..
        } => match region(rows, *number) {
            None => false,
            Some(row) => fits(rows, row, *size, base),
        },
        _ => true,
    }
}

/// The least base at which a new item of a request fits; 0 for other requests.
pub fn first_base(rows: &Rows, request: &Request) -> Option<u64>
    requires { IsLawful rows.now }
    ensures { result ≡ words.first_base rows.now request.now }
{
    match request {
        Request::Allocate {
            size,
            region: number,
            ..
        } => match region(rows, *number) {
            None => None,
            Some(row) => least_base(rows, row, *size),
        },
        _ => Some(0),
    }
}

/// The change that serves a request of this caller, with a new item at `base`; a look-up and a stat have none.
pub fn change_at(
    alloc: Global,
    rows: &Rows,
    who: Who,
    request: &Request,
    base: u64,
) -> Result<Option<Change>, NoMemory>
    ensures { IfOk result (λ change. change ≡ words.change_at rows.now who request.now base) }
{
    let change = match request {
        Request::CreateRegion { name, size, mode } => Change::CreateRegion {
            region: RegionId(rows.next_region),
            uid: who.uid,
            gid: who.gid,
            mode: *mode,
            size: *size,
            name: Sequence::of(alloc, name.as_slice())?,
        },
        Request::DestroyRegion { region } => Change::DestroyRegion { region: *region },
        Request::ResizeRegion { region, size } => Change::ResizeRegion {
            region: *region,
            size: *size,
        },
        Request::SetRegionMode { region, mode } => Change::SetRegionMode {
            region: *region,
            mode: *mode,
        },
        Request::Allocate {
            name,
            size,
            mode,
            region,
        } => Change::Allocate {
            item: ItemId(rows.next_item),
            region: *region,
            base,
            size: *size,
            uid: who.uid,
            gid: who.gid,
            mode: *mode,
            name: Sequence::of(alloc, name.as_slice())?,
        },
        Request::Deallocate { item } => Change::Deallocate { item: *item },
        Request::SetItemMode { item, mode } => Change::SetItemMode {
            item: *item,
            mode: *mode,
        },
        Request::LookupRegion { .. }
        | Request::StatRegion { .. }
        | Request::Lookup { .. }
        | Request::Stat { .. } => return Ok(None),
    };
    Ok(Some(change))
}

/// The reply to the request that a change serves.
pub fn answer(change: &Change) -> Reply
    ensures { result ≡ words.answer change.now }
{
    match change {
        Change::CreateRegion { region, .. } => Reply::Region(*region),
        Change::Allocate {
            item,
            region,
            base,
            size,
            ..
        } => Reply::Item(Descriptor {
            item: *item,
            region: *region,
            base: *base,
            size: *size,
        }),
        _ => Reply::Done,
    }
}
