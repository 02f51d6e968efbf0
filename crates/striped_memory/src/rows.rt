//! The rows of a region on all stripes, which come and go with its size.

ghost use Rattle.std.specs.Prelude.{◌≡◌, ◌<◌, ◌≤◌, ◌^◌, ℕ, length, IfOk, OnOk, OnErr, IsTrue};
ghost use Rattle.fam_model.specs.Pieces.{stripe_count};
ghost use Rattle.fam_layout.specs.Layouts.{is_lawful};
ghost use Rattle.striped_memory.specs.Stripes as stripes;

use fam_base::{NoMemory, RegionId};
use fam_layout::Layout;
use std::alloc::Global;
use stripe_store::Store;

/// A store for each stripe, none of them with any rows.
pub(crate) fn empty_stores(alloc: Global, layout: &Layout) -> Result<Vec<Store>, NoMemory>
    ensures { IfOk result (λ stores. stores.items ≡ stripes.no_rows (stripe_count layout.now)) }
{
    let service = layout.service();
    let count = usize::from(service.servers) * usize::from(service.stripes);
    let Ok(mut stores) = Vec::with_capacity(alloc, count) else {
        return Err(NoMemory);
    };
    for _ in 0..count {
        if stores.push(Store::new(alloc)).is_err() {
            return Err(NoMemory);
        }
    }
    Ok(stores)
}

/// How many rows a region of this size has on a stripe.
pub(crate) fn row_count(layout: &Layout, region: RegionId, size: u64, stripe: u64) -> u64
    requires on { stripe < stripe_count layout.now }
    requires small { size ≤ 2 ^ 26 }
    ensures { result ≡ stripes.row_count layout.now region.0 size stripe }
{
    let service = layout.service();
    let stripes = u64::from(service.servers) * u64::from(service.stripes);
    let first = (stripe + (stripes - region.0 % stripes)) % stripes;
    (size.div_ceil(u64::from(service.unit)) + (stripes - 1 - first)) / stripes
}

/// Adds rows of zeros up to those of a region of this size. After an error some of them may be there.
pub(crate) fn grow_rows(
    stores: &mut [Store],
    layout: &Layout,
    region: RegionId,
    size: u64,
) -> Result<(), NoMemory>
    requires all { length stores.old ≡ stripe_count layout.now }
    requires small { size ≤ 2 ^ 26 }
    ensures ok { OnOk result (stripes.Grew layout.now stores.old stores.new region.0 size) }
    ensures err { OnErr result (stripes.KeptFront stores.old stores.new region.0) }
{
    let unit = layout.service().unit;
    for (stripe, store) in stores.iter_mut().enumerate() {
        store.grow(region, row_count(layout, region, size, stripe as u64), unit)?;
    }
    Ok(())
}

/// Takes away the rows that a region of this size does not have.
pub(crate) fn shrink_rows(stores: &mut [Store], layout: &Layout, region: RegionId, size: u64)
    requires all { length stores.old ≡ stripe_count layout.now }
    requires small { size ≤ 2 ^ 26 }
    ensures { stripes.Shrank layout.now stores.old stores.new region.0 size }
{
    for (stripe, store) in stores.iter_mut().enumerate() {
        store.shrink(region, row_count(layout, region, size, stripe as u64));
    }
}

/// Takes away all rows of a region.
pub(crate) fn drop_rows(stores: &mut [Store], region: RegionId)
    ensures { stripes.Dropped stores.old stores.new region.0 }
{
    for store in stores.iter_mut() {
        store.drop_region(region);
    }
}

/// Zeros in the last unit of a region, from the first byte on that the region does not have.
fn zero_rest(stores: &mut [Store], layout: &Layout, region: RegionId, size: u64)
    requires all { length stores.old ≡ stripe_count layout.now }
    requires rows { (more : ℕ) × (size ≤ more) × stripes.HasRows layout.now stores.old region.0 more }
    ensures { stripes.Zeroed layout.now stores.old stores.new region.0 size }
{
    let place = layout.place(region, size);
    if place.at > 0 {
        let rest = layout.service().unit - place.at;
        stores[place.stripe as usize].zero(region, place.row, place.at, rest);
    }
}

/// Gives a region of size `old` the rows of size `new`, zero behind the bytes that it had. After an error
/// all rows are as before.
pub(crate) fn resize_rows(
    stores: &mut [Store],
    layout: &Layout,
    region: RegionId,
    old: u64,
    new: u64,
) -> Result<(), NoMemory>
    requires all { length stores.old ≡ stripe_count layout.now }
    requires small { new ≤ 2 ^ 26 }
    requires old_small { old ≤ 2 ^ 26 }
    requires lawful { IsTrue (is_lawful layout.now) }
    requires rows { stripes.HasRows layout.now stores.old region.0 old }
    ensures ok { OnOk result (stripes.Resized layout.now stores.old stores.new region.0 old new) }
    ensures err { OnErr result (stripes.SameRows stores.old stores.new) }
{
    if new <= old {
        shrink_rows(stores, layout, region, new);
        return Ok(());
    }
    if let Err(error) = grow_rows(stores, layout, region, new) {
        shrink_rows(stores, layout, region, old);
        return Err(error);
    }
    zero_rest(stores, layout, region, old);
    Ok(())
}
