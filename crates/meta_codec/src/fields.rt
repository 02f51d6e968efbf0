//! The fields of a body: each is read from the front, and gives its value and the bytes behind it.

ghost use Rattle.std.specs.Prelude.{◌≡◌, ◌≤◌, IfOk};
ghost use Rattle.std.specs.Int.{w16, w32, w64};
ghost use Rattle.meta_codec.specs.Gives.{Gives};
ghost use Rattle.meta_codec.specs.Reading.{mode_at, name_at, number_at, user_at};

use crate::unread::Unread;
use fam_base::{Bytes, Mode, good_name};
use std::alloc::Global;

#[tactic(auto, unfolding(crate::specs::Reading::number_at))]
fn u16_at(bytes: &[u8]) -> Result<(u16, &[u8]), Unread>
    ensures { Gives (λ x. (x.0, x.1.now)) result (number_at w16 bytes.now) }
{
    if bytes.len() < 2 {
        return Err(Unread::NoBody);
    }
    let (front, rest) = bytes.split_at(2);
    Ok((u16::from_le_bytes([front[0], front[1]]), rest))
}

#[tactic(auto, unfolding(crate::specs::Reading::number_at))]
pub(crate) fn u32_at(bytes: &[u8]) -> Result<(u32, &[u8]), Unread>
    ensures { Gives (λ x. (x.0, x.1.now)) result (number_at w32 bytes.now) }
{
    if bytes.len() < 4 {
        return Err(Unread::NoBody);
    }
    let (front, rest) = bytes.split_at(4);
    let number = u32::from_le_bytes([front[0], front[1], front[2], front[3]]);
    Ok((number, rest))
}

#[tactic(auto, unfolding(crate::specs::Reading::number_at))]
pub(crate) fn u64_at(bytes: &[u8]) -> Result<(u64, &[u8]), Unread>
    ensures { Gives (λ x. (x.0, x.1.now)) result (number_at w64 bytes.now) }
{
    if bytes.len() < 8 {
        return Err(Unread::NoBody);
    }
    let (front, rest) = bytes.split_at(8);
    let number = u64::from_le_bytes([
        front[0], front[1], front[2], front[3], front[4], front[5], front[6], front[7],
    ]);
    Ok((number, rest))
}

/// A user. The last number is nobody's.
#[tactic(auto, unfolding(crate::specs::Reading::passing))]
pub(crate) fn user_at(bytes: &[u8]) -> Result<(u32, &[u8]), Unread>
    ensures { Gives (λ x. (x.0, x.1.now)) result (user_at bytes.now) }
{
    let (uid, rest) = u32_at(bytes)?;
    if uid < u32::MAX {
        Ok((uid, rest))
    } else {
        Err(Unread::NoBody)
    }
}

/// The bits of a mode.
#[tactic(auto, unfolding(crate::specs::Reading::passing))]
pub(crate) fn mode_at(bytes: &[u8]) -> Result<(u16, &[u8]), Unread>
    ensures value { Gives (λ x. (x.0, x.1.now)) result (mode_at bytes.now) }
    ensures bound { IfOk result (λ x. x.0 ≤ 511) }
{
    let (bits, rest) = u16_at(bytes)?;
    if bits <= 511 {
        Ok((bits, rest))
    } else {
        Err(Unread::NoBody)
    }
}

/// The mode with these bits.
pub(crate) fn mode_of(bits: u16) -> Mode
    requires { bits ≤ 511 }
    ensures { result ≡ bits }
{
    Mode::of(bits).unwrap()
}

/// A length, and that many bytes, which are a good name.
#[tactic(auto, unfolding(crate::specs::Reading::passing, crate::specs::Reading::bytes_at))]
pub(crate) fn name_at(alloc: Global, bytes: &[u8]) -> Result<(Bytes, &[u8]), Unread>
    ensures { Gives (λ x. (x.0, x.1.now)) result (name_at bytes.now) }
{
    let [length, rest @ ..] = bytes else {
        return Err(Unread::NoBody);
    };
    let length = *length as usize;
    if rest.len() < length {
        return Err(Unread::NoBody);
    }
    let (name, rest) = rest.split_at(length);
    if !good_name(name) {
        return Err(Unread::NoBody);
    }
    Ok((Bytes::of(alloc, name)?, rest))
}
