//! Writing all of a piece, and reading all of an input.

ghost use Rattle.std.specs.Prelude.{◌≡◌, ◌≢◌, ℕ, List, ◌++◌, ◌+◌, ◌^◌, ◌<◌, ◌≤◌, length, OnOk, OnErr, IfOk, IfErr, IfSome, IsErrOf};
ghost use Rattle.std.specs.Io.KnownBytes.{Appends, IsAtEnd};
ghost use Rattle.fam_base.specs.Causes.{HasCause, Rose};
ghost use Rattle.fam_io.specs.Whole.{IsAnswer};
ghost use Rattle.fam_io.specs.State.{AddsPrefix, Moves, MovesExactly, MovesUpTo};

use crate::sink::Sink;
use crate::source::Source;
use fam_base::Failed;
use std::alloc::Global;
use thiserror::Error;

/// Why an input was not read whole.
#[derive(Clone, Copy, Debug, PartialEq, Eq, Hash, Error)]
pub enum ReadFault {
    /// Memory was wanting.
    #[error("Memory")]
    Memory,
    /// A read failed.
    #[error("Failed")]
    Failed,
    /// The input has more bytes than were allowed.
    #[error("TooLong")]
    TooLong,
}

/// Writes all of the piece. After an error a prefix of it was written.
pub fn write_all<K: Sink>(output: &mut K, bytes: &[u8]) -> Result<(), Failed>
    ensures all { OnOk result
        (Appends (K.sink output.old).written (K.sink output.new).written bytes.now) }
    ensures lost { OnErr result (AddsPrefix (K.sink output.old) (K.sink output.new) bytes.now) }
    ensures cause { HasCause (K.sink output.old).faults (K.sink output.new).faults result }
    ensures beside { K.source_beside output.new ≡ K.source_beside output.old }
{
    let mut written = 0;
    while written < bytes.len() {
        written += output.write(&bytes[written..])?;
    }
    Ok(())
}

/// How many bytes are read at once.
const ROOM: usize = 65_536;

/// Reads to the end of input, at most `limit` bytes, and one more to see whether there are more.
///
/// After an error what was read is lost.
pub fn read_all<S: Source>(alloc: Global, input: &mut S, limit: usize) -> Result<Vec<u8>, ReadFault>
    requires { limit < 2 ^ 63 }
    ensures all { IfOk result (λ bytes.
        Moves (S.source input.old) (S.source input.new) bytes.items) }
    ensures end { OnOk result (IsAtEnd (S.source input.new).left) }
    ensures within { IfOk result (λ bytes. length bytes.items ≤ limit) }
    ensures whole { IfOk result (λ bytes.
        IfSome (S.source input.old).left (λ left. bytes.items ≡ left)) }
    ensures answer { IfSome (S.source input.old).left (λ left.
        ¬ Rose (S.source input.old).faults (S.source input.new).faults
        → IsAnswer limit left result) }
    ensures too_long { IsErrOf result ReadFault.TooLong
        → MovesExactly (S.source input.old) (S.source input.new) (limit + 1) }
    ensures failed { IsErrOf result ReadFault.Failed
        → Rose (S.source input.old).faults (S.source input.new).faults }
    ensures lost { MovesUpTo (S.source input.old) (S.source input.new) (limit + 1) }
    ensures later { (S.source input.old).faults ≤ (S.source input.new).faults }
    ensures beside { S.sink_beside input.new ≡ S.sink_beside input.old }
{
    let mut room = make_room(alloc)?;
    read_through(alloc, input, room.as_mut_slice(), limit)
}

/// Bytes to read into.
fn make_room(alloc: Global) -> Result<Vec<u8>, ReadFault>
    ensures room { IfOk result (λ room. 0 < length room.items) }
    ensures memory { IfErr result (λ fault. fault ≡ ReadFault.Memory) }
{
    match vec![in alloc; 0u8; ROOM] {
        Ok(room) => Ok(room),
        Err(_) => Err(ReadFault::Memory),
    }
}

/// Reads to the end of input, as much at once as there is room.
fn read_through<S: Source>(
    alloc: Global,
    input: &mut S,
    room: &mut [u8],
    limit: usize,
) -> Result<Vec<u8>, ReadFault>
    requires room { 0 < length room.old }
    requires limit { limit < 2 ^ 63 }
    ensures all { IfOk result (λ bytes.
        Moves (S.source input.old) (S.source input.new) bytes.items) }
    ensures end { OnOk result (IsAtEnd (S.source input.new).left) }
    ensures within { IfOk result (λ bytes. length bytes.items ≤ limit) }
    ensures too_long { IsErrOf result ReadFault.TooLong
        → MovesExactly (S.source input.old) (S.source input.new) (limit + 1) }
    ensures failed { IsErrOf result ReadFault.Failed
        → Rose (S.source input.old).faults (S.source input.new).faults }
    ensures lost { MovesUpTo (S.source input.old) (S.source input.new) (limit + 1) }
    ensures later { (S.source input.old).faults ≤ (S.source input.new).faults }
    ensures beside { S.sink_beside input.new ≡ S.sink_beside input.old }
{
    let mut bytes = Vec::new(alloc);
    while bytes.len() <= limit {
        let most = (limit + 1 - bytes.len()).min(room.len());
        if read_piece(input, &mut room[..most], &mut bytes)? == 0 {
            return Ok(bytes);
        }
    }
    Err(ReadFault::TooLong)
}

/// Reads once, and adds what was given. 0 is the end of input.
fn read_piece<S: Source>(
    input: &mut S,
    room: &mut [u8],
    bytes: &mut Vec<u8>,
) -> Result<usize, ReadFault>
    requires { 0 < length room.old }
    ensures bound { IfOk result (λ n. n ≤ length room.old) }
    ensures given { IfOk result (λ n. (given : List ℕ) × (length given ≡ n)
        × (bytes.new.items ≡ bytes.old.items ++ given)
        × Moves (S.source input.old) (S.source input.new) given) }
    ensures end { IfOk result (λ n. n ≡ 0 → IsAtEnd (S.source input.new).left) }
    ensures lost { OnErr result
        (MovesUpTo (S.source input.old) (S.source input.new) (length room.old)) }
    ensures failed { IsErrOf result ReadFault.Failed
        → Rose (S.source input.old).faults (S.source input.new).faults }
    ensures not_long { result ≢ Err ReadFault.TooLong }
    ensures later { (S.source input.old).faults ≤ (S.source input.new).faults }
    ensures beside { S.sink_beside input.new ≡ S.sink_beside input.old }
{
    match input.read(room) {
        Ok(count) => match bytes.extend_from_slice(&room[..count]) {
            Ok(()) => Ok(count),
            Err(_) => Err(ReadFault::Memory),
        },
        Err(_) => Err(ReadFault::Failed),
    }
}
