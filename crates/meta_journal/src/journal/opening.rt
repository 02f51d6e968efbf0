//! Opening a journal.

ghost use Rattle.std.specs.Prelude.{◌≡◌, ◌≤◌, ◌^◌, None, IfOk, IfErr, IfSome, is_some};
ghost use Rattle.fam_base.specs.Causes.{Rose};
ghost use Rattle.fam_model.specs.Rows.{IsLawful};

use crate::doubt::Doubt;
use crate::journal::Journal;
use crate::starting::{OpenFault, Started, start};
use fam_disk::Disk;
use fam_model::Rows;
use std::alloc::Global;

impl<D: Disk> Journal<D> {
    ghost use Rattle.meta_journal.specs.OpenedJournal.{IsOpened, disk_after};
    ghost use Rattle.meta_journal.specs.Opened.{HasRowsOf, IsRefused, Opens};
    ghost use Rattle.meta_journal.specs.State.{IsSound};
    ghost use Rattle.meta_journal.specs.declared.doubt.Doubt.TheVariants.{Nothing};
    ghost use Rattle.meta_journal.specs.declared.starting.OpenFault.TheVariants.{DiskFault};

    /// The journal on a disk, and the rows that its changes make. A fresh disk is made a journal of no
    /// changes, and one of the first version one of the second. The disk is handed back where it is
    /// refused.
    pub fn open_on(alloc: Global, disk: D, limit: u64) -> Result<(Journal<D>, Rows), (D, OpenFault)>
        requires low { 17 ≤ limit }
        requires high { limit ≤ 2 ^ 24 }
        // What is opened is the journal that the disk reads.
        ensures opened { IfSome (D.state disk).content (λ bytes. IfOk result (λ opened. IsOpened limit bytes opened.0 opened.1)) }
        ensures sound { IfOk result (λ opened. IsSound opened.0) }
        ensures limit { IfOk result (λ opened. opened.0.limit ≡ limit) }
        ensures settled { IfOk result (λ opened. opened.0.doubt ≡ Nothing) }
        // Damage is told of a damaged journal alone, with its place.
        ensures refused { IfSome (D.state disk).content (λ bytes. IfErr result (λ refused. IsRefused limit bytes refused.1)) }
        ensures lawful { IfOk result (λ opened. IsLawful opened.1) }
        ensures tells { is_some (D.state (disk_after result)).content ≡ is_some (D.state disk).content }
        // From the first sync on that was served a crash leaves the rows that the disk had.
        ensures any_moment { IfSome (D.state disk).content (λ bytes. Opens (HasRowsOf limit bytes) (D.state disk) (D.state (disk_after result))) }
        ensures cause { (D.state disk).faults ≤ (D.state (disk_after result)).faults }
        ensures failed { IfErr result (λ refused. refused.1 ≡ DiskFault → Rose (D.state disk).faults (D.state refused.0).faults) }
    {
        let mut disk = disk;
        match start(alloc, &mut disk, limit) {
            Ok(Started { area, used, rows }) => {
                let journal = Journal {
                    alloc,
                    disk,
                    limit,
                    area,
                    used,
                    doubt: Doubt::Nothing,
                    reserve: None,
                };
                Ok((journal, rows))
            }
            Err(fault) => Err((disk, fault)),
        }
    }
}
