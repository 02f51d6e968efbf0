//! Ranges of bytes, and what room can be refused for.

use thiserror::Error;

/// A range of a region.
#[derive(Clone, Copy, Debug, PartialEq, Eq)]
pub struct Extent {
    pub base: u64,
    pub length: u64,
}

/// No base fits.
#[derive(Clone, Copy, Debug, PartialEq, Eq, Error)]
#[error("NoSpace")]
pub struct NoSpace;

/// Some room ends past the new size.
#[derive(Clone, Copy, Debug, PartialEq, Eq, Error)]
#[error("InUse")]
pub struct InUse;
