//! The journal of a directory.

ghost use Rattle.std.specs.Prelude.{◌≡◌, ◌<◌, ◌≤◌, ◌^◌};
ghost use Rattle.std.specs.Option.{option_copied};

use crate::area::Area;
use crate::doubt::Doubt;
use crate::reserve::Reserve;
use fam_disk::Disk;
use fam_model::Change;
use std::alloc::Global;

mod adding;
mod appending;
#[cfg(test)]
mod crash_tests;
#[cfg(test)]
mod kept;
mod opening;
#[cfg(test)]
mod opening_tests;
mod reserving;
mod settling;
mod switching;
#[cfg(test)]
mod tests;

/// The journal of a directory, on a disk.
#[derive(Drop)]
pub struct Journal<D: Disk> {
    alloc: Global,
    disk: D,
    limit: u64,
    area: Area,
    used: u64,
    doubt: Doubt,
    reserve: Option<Reserve>,
    ghost room: { (16 ≤ used) × (used < limit) × (limit ≤ 2 ^ 24) },
}

impl<D: Disk> Journal<D> {
    ghost use Rattle.meta_journal.specs.State.{change_in_doubt};

    /// The change that an image may hold beyond the acknowledged ones.
    pub fn doubt(&self) -> Option<&Change>
        ensures { option_copied result ≡ change_in_doubt self.now.doubt }
    {
        match &self.doubt {
            Doubt::OfChange(change) => Some(change),
            Doubt::Nothing | Doubt::OfArea => None,
        }
    }

    /// The place of the closed gate behind the acknowledged changes, counted from 16.
    pub fn used(&self) -> u64
        ensures { result ≡ self.now.used }
    {
        self.used
    }

    /// Gives the disk back.
    pub fn close(self) -> D
        ensures { result ≡ self.disk }
    {
        let Journal { disk, .. } = self;
        disk
    }
}
