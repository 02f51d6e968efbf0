//! A disk that may crash at any moment: the trait, one in memory, and a file.
#![tactic(auto)]

mod call;
mod calls;
mod disk;
mod file;
mod images;
mod memory;
mod overwriting;
mod synced;
#[cfg(test)]
mod tests;

pub use call::DiskCall;
pub use disk::Disk;
pub use file::FileDisk;
pub use memory::MemDisk;
pub use synced::write_synced;
