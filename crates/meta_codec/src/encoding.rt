//! Changes to bytes.

ghost use Rattle.std.specs.Prelude.{◌≡◌, ◌<◌, ◌^◌, ◌++◌, ◌∷◌, [], length, IfOk, OnOk};
ghost use Rattle.std.specs.List.{concat};
ghost use Rattle.meta_codec.specs.Body.{HasBody, body, name_bytes, u16 as u16_bytes, u32 as u32_bytes, u64 as u64_bytes};

use fam_base::{Bytes, Mode, NoMemory};
use fam_model::Change;
use std::alloc::{AllocError, Global};

/// The one body of a change.
pub fn encode(alloc: Global, change: &Change) -> Result<Bytes, NoMemory>
    requires { HasBody change.now }
    ensures { IfOk result (λ bytes. bytes ≡ body change.now) }
{
    let mut out = Vec::new(alloc);
    put(&mut out, change)?;
    Ok(Bytes::from_vec(out))
}

fn put(out: &mut Vec<u8>, change: &Change) -> Result<(), AllocError>
    requires { HasBody change.now }
    ensures { OnOk result (out.new.items ≡ out.old.items ++ body change.now) }
{
    match change {
        Change::CreateRegion {
            region,
            uid,
            gid,
            mode,
            size,
            name,
        } => {
            put_number(out, 1, region.0)?;
            put_region(out, *uid, *gid, *mode, *size, name.as_slice())?;
        }
        Change::DestroyRegion { region } => put_number(out, 2, region.0)?,
        Change::ResizeRegion { region, size } => put_numbers(out, 3, region.0, *size)?,
        Change::Allocate {
            item,
            region,
            base,
            size,
            uid,
            gid,
            mode,
            name,
        } => {
            put_number(out, 4, item.0)?;
            put_room(out, region.0, *base, *size)?;
            put_owner(out, *uid, *gid, *mode, name.as_slice())?;
        }
        Change::Deallocate { item } => put_number(out, 5, item.0)?,
        Change::SetItemMode { item, mode } => put_mode(out, 6, item.0, *mode)?,
        Change::SetRegionMode { region, mode } => put_mode(out, 7, region.0, *mode)?,
        Change::Skip {
            next_region,
            next_item,
        } => put_numbers(out, 8, *next_region, *next_item)?,
    }
    Ok(())
}

/// A kind and a number.
fn put_number(out: &mut Vec<u8>, kind: u8, number: u64) -> Result<(), AllocError>
    ensures { OnOk result (out.new.items ≡ out.old.items ++ kind ∷ u64_bytes number) }
{
    out.push(kind)?;
    put_u64(out, number)
}

/// A kind and two numbers.
fn put_numbers(out: &mut Vec<u8>, kind: u8, first: u64, second: u64) -> Result<(), AllocError>
    ensures { OnOk result (out.new.items ≡ out.old.items ++ kind ∷ concat (u64_bytes first ∷ u64_bytes second ∷ [])) }
{
    put_number(out, kind, first)?;
    put_u64(out, second)
}

/// A kind, a number and a mode.
fn put_mode(out: &mut Vec<u8>, kind: u8, number: u64, mode: Mode) -> Result<(), AllocError>
    ensures { OnOk result (out.new.items ≡ out.old.items ++ kind ∷ concat (u64_bytes number ∷ u16_bytes mode ∷ [])) }
{
    put_number(out, kind, number)?;
    put_bits(out, mode)
}

/// A region's owner, mode, size and name.
fn put_region(
    out: &mut Vec<u8>,
    uid: u32,
    gid: u32,
    mode: Mode,
    size: u64,
    name: &[u8],
) -> Result<(), AllocError>
    requires { length name.now < 2 ^ 8 }
    ensures { OnOk result (out.new.items ≡ out.old.items ++ concat (u32_bytes uid ∷ u32_bytes gid ∷ u16_bytes mode ∷ u64_bytes size ∷ name_bytes name.now ∷ [])) }
{
    put_u32(out, uid)?;
    put_u32(out, gid)?;
    put_bits(out, mode)?;
    put_u64(out, size)?;
    put_name(out, name)?;
    Ok(())
}

/// The room of an item: its region, its base and its size.
#[tactic(auto, using(crate::proofs::Regrouped::three))]
fn put_room(out: &mut Vec<u8>, region: u64, base: u64, size: u64) -> Result<(), AllocError>
    ensures { OnOk result (out.new.items ≡ out.old.items ++ concat (u64_bytes region ∷ u64_bytes base ∷ u64_bytes size ∷ [])) }
{
    put_u64(out, region)?;
    put_u64(out, base)?;
    put_u64(out, size)?;
    Ok(())
}

/// The owner of an item, its mode and its name.
fn put_owner(
    out: &mut Vec<u8>,
    uid: u32,
    gid: u32,
    mode: Mode,
    name: &[u8],
) -> Result<(), AllocError>
    requires { length name.now < 2 ^ 8 }
    ensures { OnOk result (out.new.items ≡ out.old.items ++ concat (u32_bytes uid ∷ u32_bytes gid ∷ u16_bytes mode ∷ name_bytes name.now ∷ [])) }
{
    put_u32(out, uid)?;
    put_u32(out, gid)?;
    put_bits(out, mode)?;
    put_name(out, name)?;
    Ok(())
}

/// The length of a name, and its bytes.
fn put_name(out: &mut Vec<u8>, name: &[u8]) -> Result<(), AllocError>
    requires { length name.now < 2 ^ 8 }
    ensures { OnOk result (out.new.items ≡ out.old.items ++ name_bytes name.now) }
{
    out.push(name.len() as u8)?;
    out.extend_from_slice(name)
}

fn put_u64(out: &mut Vec<u8>, number: u64) -> Result<(), AllocError>
    ensures { OnOk result (out.new.items ≡ out.old.items ++ u64_bytes number) }
{
    out.extend_from_slice(&number.to_le_bytes())
}

fn put_u32(out: &mut Vec<u8>, number: u32) -> Result<(), AllocError>
    ensures { OnOk result (out.new.items ≡ out.old.items ++ u32_bytes number) }
{
    out.extend_from_slice(&number.to_le_bytes())
}

/// The bits of a mode.
fn put_bits(out: &mut Vec<u8>, mode: Mode) -> Result<(), AllocError>
    ensures { OnOk result (out.new.items ≡ out.old.items ++ u16_bytes mode) }
{
    out.extend_from_slice(&mode.bits().to_le_bytes())
}
