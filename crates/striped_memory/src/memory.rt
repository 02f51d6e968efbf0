//! The bytes of all regions.

ghost use Rattle.std.specs.Prelude.{◌≡◌, ◌↔◌, ◌+◌, ◌%◌, ◌≤◌, ◌<◌, ◌^◌, length, slice_range, IfOk, IfSome, IsSome, OnOk, OnErr, IsTrue};
ghost use Rattle.std.specs.FinMap as map;
ghost use Rattle.std.specs.Option.{option_map};
ghost use Rattle.fam_layout.specs.Layouts.{is_lawful};
ghost use Rattle.fam_model.specs.PieceStep.{overwritten};
ghost use Rattle.striped_memory.specs.Striped.{bytes_of, IsThere, with_bytes, without, zeros, resized, LiesInUnit, LiesAt, address_at, no_regions};

use crate::rows::{drop_rows, empty_stores, grow_rows, resize_rows};
use fam_base::{NoMemory, RegionId};
use fam_layout::Layout;
use fam_model::{Place, Service};
use std::alloc::Global;
use std::collections::BTreeMap;
use std::marker::Model;
use stripe_store::Store;

/// The bytes of all regions. Contracts see a list of bytes for each region that is there, as long as the
/// region is.
#[derive(Drop)]
pub struct StripedMemory {
    layout: Layout,
    stores: Vec<Store>,
    sizes: BTreeMap<RegionId, u64>,
}

impl Model for StripedMemory {
    ghost use Rattle.striped_memory.specs.Striped.{Striped, striped_code};

    ghost Value = { Striped };

    ghost coded = { striped_code };

    ghost use Rattle.striped_memory.specs.Stripes.{regions_of, IsStriped};

    ghost view = { λ m. record { service = m.layout; regions = regions_of m.layout m.stores.items m.sizes.entries } };

    ghost invariant = { λ m. IsStriped m.layout m.stores.items m.sizes.entries };
}

impl StripedMemory {
    /// Memory with no regions.
    pub fn new(alloc: Global, service: Service) -> Result<StripedMemory, NoMemory>
        requires { IsTrue (is_lawful service) }
        ensures { IfOk result (λ memory. memory ≡ no_regions service) }
    {
        let layout = Layout::new(service);
        let stores = empty_stores(alloc, &layout)?;
        Ok(StripedMemory {
            layout,
            stores,
            sizes: BTreeMap::new(alloc),
        })
    }

    /// How the regions are laid out.
    pub fn layout(&self) -> &Layout
        ensures service { result.now ≡ self.now.service }
        ensures lawful { IsTrue (is_lawful self.now.service) }
    {
        &self.layout
    }

    /// How long a region is. None where it is not there.
    pub fn size(&self, region: RegionId) -> Option<u64>
        ensures value { result ≡ option_map length (map.get self.now.regions region.0) }
        ensures there { IsSome result ↔ IsThere self.now region.0 }
        ensures small { IfSome result (λ size. size ≤ 2 ^ 26) }
    {
        self.sizes.get(&region).copied()
    }

    /// Whether `n` bytes of a region from an address on are there and lie in one unit.
    pub fn lies_in_unit(&self, region: RegionId, address: u64, n: u64) -> bool
        ensures { IsTrue result ↔ LiesInUnit self.now region.0 address n }
    {
        let unit = u64::from(self.layout.service().unit);
        match self.sizes.get(&region) {
            Some(size) => lies_in(*size, unit, address, n),
            None => false,
        }
    }

    /// Fills `into` with the bytes of a region from an address on.
    pub fn read(&self, region: RegionId, address: u64, into: &mut [u8])
        requires { LiesInUnit self.now region.0 address (length into.old) }
        ensures { into.new ≡ slice_range (bytes_of self.now region.0) address (address + length into.old) }
    {
        let place = self.layout.place(region, address);
        self.read_at_place(region, place, into);
    }

    /// Fills `into` with the bytes of a region from the address on that lies at a place.
    pub fn read_at_place(&self, region: RegionId, place: Place, into: &mut [u8])
        requires { LiesAt self.now region.0 place (length into.old) }
        ensures { let address = address_at self.now.service region.0 place in
            into.new ≡ slice_range (bytes_of self.now region.0) address (address + length into.old) }
    {
        if into.is_empty() {
            return;
        }
        self.stores[place.stripe as usize].read(region, place.row, place.at, into);
    }

    /// Puts the bytes of `from` over those of a region from an address on.
    pub fn write(&mut self, region: RegionId, address: u64, from: &[u8])
        requires { LiesInUnit self.old region.0 address (length from.now) }
        ensures { self.new ≡ with_bytes self.old region.0 (overwritten address from.now (bytes_of self.old region.0)) }
    {
        let place = self.layout.place(region, address);
        self.write_at_place(region, place, from);
    }

    /// Puts the bytes of `from` over those of a region from the address on that lies at a place.
    pub fn write_at_place(&mut self, region: RegionId, place: Place, from: &[u8])
        requires { LiesAt self.old region.0 place (length from.now) }
        ensures { let address = address_at self.old.service region.0 place in
            self.new ≡ with_bytes self.old region.0 (overwritten address from.now (bytes_of self.old region.0)) }
    {
        if from.is_empty() {
            return;
        }
        self.stores[place.stripe as usize].write(region, place.row, place.at, from);
    }

    /// Puts `n` zeros over the bytes of a region from an address on, which may lie in several units.
    pub fn zero(&mut self, region: RegionId, address: u64, n: u64)
        requires there { IsThere self.old region.0 }
        requires inside { address + n ≤ length (bytes_of self.old region.0) }
        ensures { self.new ≡ with_bytes self.old region.0 (overwritten address (zeros n) (bytes_of self.old region.0)) }
    {
        let unit = u64::from(self.layout.service().unit);
        let mut left = n;
        while left > 0 {
            let at = address + (n - left);
            let part = (unit - at % unit).min(left);
            self.zero_part(region, at, part);
            left -= part;
        }
    }

    /// Puts `n` zeros over bytes of a region that lie in one unit.
    fn zero_part(&mut self, region: RegionId, address: u64, n: u64)
        requires some { 0 < n }
        requires lies { LiesInUnit self.old region.0 address n }
        ensures { self.new ≡ with_bytes self.old region.0 (overwritten address (zeros n) (bytes_of self.old region.0)) }
    {
        let place = self.layout.place(region, address);
        self.stores[place.stripe as usize].zero(region, place.row, place.at, n as u32);
    }

    /// Makes a region of `size` zero bytes. After an error everything is as before.
    pub fn create(&mut self, region: RegionId, size: u64) -> Result<(), NoMemory>
        requires fresh { ¬ IsThere self.old region.0 }
        requires small { size ≤ 2 ^ 26 }
        ensures ok { OnOk result (self.new ≡ with_bytes self.old region.0 (zeros size)) }
        ensures err { OnErr result (self.new ≡ self.old) }
    {
        if let Err(error) = grow_rows(&mut self.stores, &self.layout, region, size) {
            drop_rows(&mut self.stores, region);
            return Err(error);
        }
        match self.sizes.insert(region, size) {
            Ok(_) => Ok(()),
            Err(_) => {
                drop_rows(&mut self.stores, region);
                Err(NoMemory)
            }
        }
    }

    /// The region is not there any more. Where it was not there before, nothing changes.
    pub fn remove(&mut self, region: RegionId)
        ensures { self.new ≡ without self.old region.0 }
    {
        drop_rows(&mut self.stores, region);
        self.sizes.remove(&region);
    }

    /// Cuts a region down to `size` bytes, or adds zeros up to it. After an error everything is as before.
    pub fn resize(&mut self, region: RegionId, size: u64) -> Result<(), NoMemory>
        requires there { IsThere self.old region.0 }
        requires small { size ≤ 2 ^ 26 }
        ensures ok { OnOk result (self.new ≡ with_bytes self.old region.0 (resized (bytes_of self.old region.0) size)) }
        ensures err { OnErr result (self.new ≡ self.old) }
    {
        let Some(place) = self.sizes.get_mut(&region) else {
            return Ok(());
        };
        resize_rows(&mut self.stores, &self.layout, region, *place, size)?;
        *place = size;
        Ok(())
    }
}

/// Whether `n` bytes from an address on lie within a size and in one unit.
fn lies_in(size: u64, unit: u64, address: u64, n: u64) -> bool
    requires { 0 < unit }
    ensures { IsTrue result ↔ ((address + n ≤ size) × (address % unit + n ≤ unit)) }
{
    n <= size && address <= size - n && n <= unit - address % unit
}
