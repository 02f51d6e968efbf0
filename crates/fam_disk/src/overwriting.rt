//! Bytes over bytes.

ghost use Rattle.std.specs.Prelude.{◌≡◌, ◌+◌, ◌++◌, length, take, drop, OnOk};

use std::alloc::AllocError;

/// Puts these at a place over what is there, and past the end.
pub(crate) fn overwrite<T: Copy>(
    items: &mut Vec<T>,
    at: usize,
    from: &[T],
) -> Result<(), AllocError>
    ensures { OnOk result (items.new.items ≡ take at items.old.items ++ from.now ++ drop (at + length from.now) items.old.items) }
{
    let at = at.min(items.len());
    let within = from.len().min(items.len() - at);
    items.extend_from_slice(&from[within..])?;
    items.as_mut_slice()[at..at + within].copy_from_slice(&from[..within]);
    Ok(())
}
