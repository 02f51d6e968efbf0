//! The bytes of all regions. Each unit of a region lies on its stripe; callers see one list of bytes a region.
#![tactic(auto)]

mod laws;
mod memory;
mod rows;
#[cfg(test)]
mod tests;

pub use laws::{
    addresses_come_back, reads_of_items, rows_are_exact, writes_are_read, writes_of_items,
    writes_stay_inside,
};
pub use memory::StripedMemory;
