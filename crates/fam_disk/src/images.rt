//! What a crash may leave of a disk in memory.

ghost use Rattle.std.specs.Prelude.{◌≡◌, ◌≤◌, map, IfOk, OnOk, Some};
ghost use Rattle.fam_disk.specs.Known.{known_after, known_by, filled};
ghost use Rattle.fam_disk.specs.Replay.{content_by};

use crate::call::DiskCall;
use crate::memory::MemDisk;
use crate::overwriting::overwrite;
use fam_base::{Bytes, NoMemory};
use std::alloc::{AllocError, Global};

/// A disk whose calls are played again: what it reads, and which bytes of it are certain.
#[derive(Drop)]
struct Replay {
    content: Vec<u8>,
    known: Vec<Option<u8>>,
}

impl Replay {
    fn new(alloc: Global, first: &[u8]) -> Result<Replay, AllocError>
        ensures content { IfOk result (λ replay. replay.content.items ≡ first.now) }
        ensures known { IfOk result (λ replay. replay.known.items ≡ map Some first.now) }
    {
        Ok(Replay {
            content: Vec::from_slice(alloc, first)?,
            known: certain(alloc, first)?,
        })
    }

    fn play(&mut self, alloc: Global, call: &DiskCall) -> Result<(), AllocError>
        ensures content { OnOk result (self.new.content.items ≡ content_by call.now self.old.content.items) }
        ensures known { OnOk result (self.new.known.items ≡ known_by call.now self.old.content.items self.old.known.items) }
    {
        match call {
            DiskCall::Asked => {}
            DiskCall::Wrote { at, bytes, served } => {
                let unknown = vec![in alloc; None; bytes.len()]?;
                overwrite(&mut self.known, *at as usize, unknown.as_slice())?;
                if *served {
                    overwrite(&mut self.content, *at as usize, bytes.as_slice())?;
                }
            }
            DiskCall::Synced => self.known = certain(alloc, self.content.as_slice())?,
        }
        Ok(())
    }
}

/// Each byte is certain.
fn certain(alloc: Global, bytes: &[u8]) -> Result<Vec<Option<u8>>, AllocError>
    ensures { IfOk result (λ known. known.items ≡ map Some bytes.now) }
{
    let mut known = Vec::new(alloc);
    for byte in bytes {
        known.push(Some(*byte))?;
    }
    Ok(known)
}

/// Which bytes are certain after these calls of a disk.
fn known_after(
    alloc: Global,
    first: &[u8],
    calls: &[DiskCall],
) -> Result<Vec<Option<u8>>, AllocError>
    ensures { IfOk result (λ known. known.items ≡ known_after calls.now first.now (map Some first.now)) }
{
    let mut replay = Replay::new(alloc, first)?;
    for call in calls {
        replay.play(alloc, call)?;
    }
    Ok(replay.known)
}

/// The bytes that are certain, and for the others those of `fill` in turn, then zeros.
fn filled(alloc: Global, known: &[Option<u8>], fill: &[u8]) -> Result<Bytes, AllocError>
    ensures { IfOk result (λ image. image ≡ filled known.now fill.now) }
{
    let mut image = Vec::new(alloc);
    let mut used = 0;
    for byte in known {
        match byte {
            Some(byte) => image.push(*byte)?,
            None => {
                image.push(fill.get(used).copied().unwrap_or(0))?;
                used += 1;
            }
        }
    }
    Ok(Bytes::from_vec(image))
}

impl MemDisk {
    ghost use Rattle.fam_disk.specs.Memory.{memory_state, known_at};

    /// What a crash may leave at a moment, as long as it may be. The bytes in doubt are those of `fill` in
    /// turn, then zeros. Moment m is after m calls.
    pub fn image(&self, moment: u64, fill: &Bytes) -> Result<Bytes, NoMemory>
        requires { moment ≤ (memory_state self.now).moment }
        ensures image { IfOk result (λ image. image ≡ filled (known_at self.now moment) fill.now) }
        ensures left { IfOk result (λ image. (memory_state self.now).images moment image) }
    {
        let calls = &self.calls.as_slice()[..moment as usize];
        let known = known_after(self.alloc, self.first.as_slice(), calls)?;
        Ok(filled(self.alloc, known.as_slice(), fill.as_slice())?)
    }
}
