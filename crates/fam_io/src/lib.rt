//! Sources and sinks of bytes, whose calls may fail: the traits, forms in memory, and std's readers
//! and writers.
#![tactic(auto)]

mod calls;
mod link;
mod memory_link;
mod memory_sink;
mod memory_source;
mod reader;
mod sink;
mod source;
#[cfg(test)]
mod tests;
mod whole;
mod writer;

pub use link::Link;
pub use memory_link::MemLink;
pub use memory_sink::MemSink;
pub use memory_source::MemSource;
pub use reader::Reader;
pub use sink::Sink;
pub use source::Source;
pub use whole::{ReadFault, read_all, write_all};
pub use writer::Writer;
