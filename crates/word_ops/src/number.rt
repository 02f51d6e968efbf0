//! Numbers as little-endian bytes.

ghost use Rattle.std.specs.Prelude.{◌≡◌, length, IsTrue};
ghost use Rattle.std.specs.Int.{w32, w64, w128, from_le_bytes};
ghost use Rattle.fam_model.specs.Atomic as atomics;

use fam_model::Width;

/// How many bytes the numbers of a width take.
pub fn width_bytes(width: Width) -> usize
    ensures { result ≡ atomics.width_bytes width }
{
    match width {
        Width::I32 | Width::U32 | Width::F32 => 4,
        Width::I64 | Width::U64 | Width::F64 => 8,
        Width::I128 => 16,
    }
}

fn four(bytes: &[u8]) -> u32
    requires { length bytes.now ≡ 4 }
    ensures { result ≡ from_le_bytes w32 bytes.now }
{
    u32::from_le_bytes([bytes[0], bytes[1], bytes[2], bytes[3]])
}

fn eight(bytes: &[u8]) -> u64
    requires { length bytes.now ≡ 8 }
    ensures { result ≡ from_le_bytes w64 bytes.now }
{
    u64::from_le_bytes([
        bytes[0], bytes[1], bytes[2], bytes[3], bytes[4], bytes[5], bytes[6], bytes[7],
    ])
}

fn sixteen(bytes: &[u8]) -> u128
    requires { length bytes.now ≡ 16 }
    ensures { result ≡ from_le_bytes w128 bytes.now }
{
    u128::from_le_bytes([
        bytes[0], bytes[1], bytes[2], bytes[3], bytes[4], bytes[5], bytes[6], bytes[7], bytes[8],
        bytes[9], bytes[10], bytes[11], bytes[12], bytes[13], bytes[14], bytes[15],
    ])
}

/// The number that little-endian bytes stand for. At the widths of floats it is the one of the unsigned
/// width of the same length.
pub fn value(width: Width, bytes: &[u8]) -> i128
    requires { length bytes.now ≡ atomics.width_bytes width }
    ensures value { result ≡ atomics.number_of_bytes width bytes.now }
    ensures in_range { IsTrue (atomics.is_in_range width result) }
{
    match width {
        Width::I32 => i128::from(four(bytes).cast_signed()),
        Width::U32 | Width::F32 => i128::from(four(bytes)),
        Width::I64 => i128::from(eight(bytes).cast_signed()),
        Width::U64 | Width::F64 => i128::from(eight(bytes)),
        Width::I128 => sixteen(bytes).cast_signed(),
    }
}

/// Writes the bytes of a number of the width.
pub fn write(width: Width, number: i128, into: &mut [u8])
    requires in_range { IsTrue (atomics.is_in_range width number) }
    requires room { length into.old ≡ atomics.width_bytes width }
    ensures { into.new ≡ atomics.bytes_of_number width number }
{
    match width {
        Width::I32 => into.copy_from_slice(&(number as i32).to_le_bytes()),
        Width::U32 | Width::F32 => into.copy_from_slice(&(number as u32).to_le_bytes()),
        Width::I64 => into.copy_from_slice(&(number as i64).to_le_bytes()),
        Width::U64 | Width::F64 => into.copy_from_slice(&(number as u64).to_le_bytes()),
        Width::I128 => into.copy_from_slice(&number.to_le_bytes()),
    }
}
