//! What a disk is asked, and what a crash may leave of it.

ghost use Rattle.std.specs.Prelude.{◌≡◌, ◌+◌, ◌^◌, ◌≤◌, ◌++◌, ℕ, List, [], ◌∷◌, length, take, drop, Some, is_ok, IsSome, OnOk, IfOk, IfSome, if◌then◌else◌};
ghost use Rattle.std.specs.Option.{ForSome, option_map};
ghost use Rattle.fam_base.specs.Causes.{HasCause};
ghost use Rattle.fam_disk.specs.Crash.{DiskState, Passes, IsKept, IsTorn, IsSynced, written};

use fam_base::Failed;

/// A file of bytes. Between two syncs a crash may leave any bytes where something was written.
pub trait Disk: Send + Drop {
    ghost state: { Self → DiskState };

    /// The length in bytes.
    fn len(&mut self) -> Result<u64, Failed>
        ensures length { IfSome (state self.old).content (λ bytes. IfOk result (λ n. n ≡ length bytes)) }
        ensures content { (state self.new).content ≡ (state self.old).content }
        ensures crash { Passes IsKept (state self.old) (state self.new) }
        ensures syncs { (state self.new).syncs ≡ (state self.old).syncs }
        ensures cause { HasCause (state self.old).faults (state self.new).faults result };

    /// The bytes from a place on.
    fn read(&mut self, at: u64, into: &mut [u8]) -> Result<(), Failed>
        requires { ForSome (state self.old).content (λ bytes. at + length into.old ≤ length bytes) }
        ensures bytes { IfSome (state self.old).content (λ bytes. OnOk result (into.new ≡ take (length into.old) (drop at bytes))) }
        ensures content { (state self.new).content ≡ (state self.old).content }
        ensures crash { Passes IsKept (state self.old) (state self.new) }
        ensures syncs { (state self.new).syncs ≡ (state self.old).syncs }
        ensures cause { HasCause (state self.old).faults (state self.new).faults result };

    /// Writes over what is there, and past the end.
    fn write_at(&mut self, at: u64, from: &[u8]) -> Result<(), Failed>
        requires within { ForSome (state self.old).content (λ bytes. at ≤ length bytes) }
        requires end { at + length from.now ≤ 2 ^ 25 }
        ensures written { OnOk result ((state self.new).content ≡ option_map (written at from.now) (state self.old).content) }
        ensures crash { Passes (IsTorn at (length from.now)) (state self.old) (state self.new) }
        ensures syncs { (state self.new).syncs ≡ (state self.old).syncs }
        ensures cause { HasCause (state self.old).faults (state self.new).faults result };

    /// Once it is served, a crash leaves what a read gives.
    fn sync(&mut self) -> Result<(), Failed>
        ensures synced { OnOk result (IsSynced (state self.new)) }
        ensures content { OnOk result ((state self.new).content ≡ (state self.old).content) }
        ensures crash { Passes IsKept (state self.old) (state self.new) }
        ensures syncs { IsSome (state self.old).content → (state self.new).syncs
            ≡ (if is_ok result then (state self.old).syncs ++ (state self.new).moment ∷ [] else (state self.old).syncs) }
        ensures cause { HasCause (state self.old).faults (state self.new).faults result };

    fn disk_faults(&self) -> u64
        ensures { result ≡ (state self.now).faults };

    /// A disk that tells images tells what it reads.
    ghost tells_content: { (disk : Self) (t : ℕ) (image : List ℕ) → (state disk).images t image → IsSome (state disk).content };

    /// What a disk reads is one of its own images.
    ghost reads_image: { (disk : Self) (bytes : List ℕ) → (state disk).content ≡ Some bytes → (state disk).images (state disk).moment bytes };
}
