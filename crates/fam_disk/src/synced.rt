//! A write with its sync.

ghost use Rattle.std.specs.Prelude.{◌≡◌, ◌+◌, ◌^◌, ◌≤◌, ◌++◌, [], ◌∷◌, length, is_ok, IsSome, OnOk, if◌then◌else◌};
ghost use Rattle.std.specs.Option.{ForSome, option_map};
ghost use Rattle.fam_base.specs.Causes.{HasCause};
ghost use Rattle.fam_disk.specs.Crash.{Passes, IsTorn, IsSynced, written};

use crate::disk::Disk;
use fam_base::Failed;

/// Writes and syncs. A crash in between leaves what was written torn, and one after it, once it is served, does not.
pub fn write_synced<D: Disk>(disk: &mut D, at: u64, from: &[u8]) -> Result<(), Failed>
    requires within { ForSome (D.state disk.old).content (λ bytes. at ≤ length bytes) }
    requires end { at + length from.now ≤ 2 ^ 25 }
    ensures synced { OnOk result (IsSynced (D.state disk.new)) }
    ensures written { OnOk result ((D.state disk.new).content ≡ option_map (written at from.now) (D.state disk.old).content) }
    ensures crash { Passes (IsTorn at (length from.now)) (D.state disk.old) (D.state disk.new) }
    ensures syncs { IsSome (D.state disk.old).content → (D.state disk.new).syncs
        ≡ (if is_ok result then (D.state disk.old).syncs ++ (D.state disk.new).moment ∷ [] else (D.state disk.old).syncs) }
    ensures cause { HasCause (D.state disk.old).faults (D.state disk.new).faults result }
{
    disk.write_at(at, from)?;
    disk.sync()?;
    Ok(())
}
