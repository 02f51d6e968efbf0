//! The parts of the machine.

use crate::memory::Memory;
use fam_base::Sequence;
use fam_directory::IndexedRows;
use fam_layout::Layout;
use fam_program::Program;

/// All that the machine has.
#[derive(Drop)]
pub struct Parts {
    pub layout: Layout,
    pub rows: IndexedRows,
    pub memory: Memory,
    pub round: u64,
    pub programs: Sequence<Program>,
}
