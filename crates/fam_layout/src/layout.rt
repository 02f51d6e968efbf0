//! How a service lays out its regions.

ghost use Rattle.std.specs.Prelude.{◌≡◌, ◌+◌, ◌≤◌, ◌<◌, ◌^◌, ◌++◌, IfOk, IsTrue};
ghost use Rattle.fam_model.specs.Pieces as cutting;
ghost use Rattle.fam_layout.specs.Layouts.{is_lawful, is_border_of_either, shared_cuts};

use crate::border::next_border;
use fam_base::{NoMemory, RegionId, Sequence};
use fam_model::{Part, Place, Service};
use std::alloc::Global;
use std::marker::Model;

/// Parts of an item, in order.
pub type Ranges = Sequence<Part>;

/// Where the bytes of each region lie. Contracts see it as its service, which is a lawful one.
#[derive(Clone, Copy, Drop)]
pub struct Layout {
    service: Service,
}

impl Model for Layout {
    ghost use Rattle.std.specs.Prelude.{IsTrue};
    ghost use Rattle.fam_model.specs.declared.service.Service.{Service};
    ghost use Rattle.fam_layout.specs.Layouts.{is_lawful};

    ghost Value = { Service };

    ghost view = { λ layout. layout.service };

    ghost invariant = { λ layout. IsTrue (is_lawful layout.service) };

    ghost inverse = { λ service. record { service = service } };
}

impl Layout {
    /// The layout of a lawful service.
    pub fn new(service: Service) -> Layout
        requires { IsTrue (is_lawful service) }
        ensures { result ≡ service }
    {
        Layout { service }
    }

    pub fn service(&self) -> Service
        ensures is { result ≡ self.now }
        ensures lawful { IsTrue (is_lawful self.now) }
    {
        self.service
    }

    /// Where an address of a region lies.
    pub fn place(&self, region: RegionId, address: u64) -> Place
        ensures { result ≡ cutting.place_at self.now region.0 address }
    {
        let unit = u64::from(self.service.unit);
        let stripes = u64::from(self.service.servers) * u64::from(self.service.stripes);
        let number = address / unit;
        let turn = (u128::from(region.0) + u128::from(number)) % u128::from(stripes);
        Place {
            stripe: turn as u32,
            row: number / stripes,
            at: (address % unit) as u32,
        }
    }

    /// The ranges, and behind them `n` bytes from `offset` on of an item at `base`, cut where units begin.
    pub fn cut_onto(
        &self,
        ranges: Ranges,
        base: u64,
        offset: u64,
        n: u64,
    ) -> Result<Ranges, NoMemory>
        requires { base + offset + n ≤ 2 ^ 27 }
        ensures { IfOk result (λ all. all ≡ ranges ++ cutting.cuts base offset n self.now.unit) }
    {
        walk(ranges, self.service.unit, base, base, offset, n)
    }

    /// `n` bytes from `offset` on of an item at `base`, cut where units begin.
    pub fn cuts(&self, alloc: Global, base: u64, offset: u64, n: u64) -> Result<Ranges, NoMemory>
        requires { base + offset + n ≤ 2 ^ 27 }
        ensures { IfOk result (λ ranges. ranges ≡ cutting.cuts base offset n self.now.unit) }
    {
        self.cut_onto(Sequence::new(alloc), base, offset, n)
    }

    /// `n` bytes that two items have, one from the address `from` on and one from `to` on, cut where a unit of
    /// either begins. Offsets count from the first of these bytes.
    pub fn shared_cuts(&self, alloc: Global, from: u64, to: u64, n: u64) -> Result<Ranges, NoMemory>
        requires source { from + n ≤ 2 ^ 27 }
        requires target { to + n ≤ 2 ^ 27 }
        ensures { IfOk result (λ ranges. ranges ≡ shared_cuts from to n self.now.unit) }
    {
        walk(Sequence::new(alloc), self.service.unit, from, to, 0, n)
    }
}

/// Goes from border to border, so that the cost is that of the parts.
fn walk(
    ranges: Ranges,
    unit: u32,
    from: u64,
    to: u64,
    offset: u64,
    n: u64,
) -> Result<Ranges, NoMemory>
    requires some { 0 < unit }
    requires source { from + offset + n ≤ 2 ^ 27 }
    requires target { to + offset + n ≤ 2 ^ 27 }
    ensures { IfOk result (λ all. all ≡ ranges ++ cutting.cut_where (is_border_of_either unit from to) offset n) }
{
    let mut ranges = ranges;
    let mut at = offset;
    let end = offset + n;
    while at < end {
        let border = next_border(unit, from, at).min(next_border(unit, to, at));
        let next = border.min(end);
        ranges.push(Part {
            offset: at,
            n: next - at,
        })?;
        at = next;
    }
    Ok(ranges)
}
