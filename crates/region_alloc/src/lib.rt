//! Room for items in a region: it is taken at the least base that fits, and given back.
#![tactic(auto)]

mod extent;
mod extents;
mod laws;
mod ranges;
#[cfg(test)]
mod tests;

pub use extent::{Extent, InUse, NoSpace};
pub use extents::Extents;
pub use laws::places_are_bases;
