//! The limits of the directory.

/// The bytes of a region, and of an item.
pub const MAX_REGION_SIZE: u64 = 67_108_864;

/// The bytes of all regions together.
pub const MAX_TOTAL_SIZE: u64 = 268_435_456;

/// Regions, with the common one.
pub const MAX_REGIONS: usize = 4096;

/// Items, with the common one.
pub const MAX_ITEMS: usize = 65_536;

/// Region and item numbers stay below this one.
pub const NUMBER_END: u64 = 9_223_372_036_854_775_808;

/// A user and group that no program has.
pub const NOBODY: u32 = 4_294_967_295;
