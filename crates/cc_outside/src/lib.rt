//! The traits through which the tool reads files and writes output, their kinds in memory for tests
//! and proofs, and thin adapters over std.
#![tactic(auto)]

mod calls;
mod loading;
mod mem_files;
mod mem_sink;
mod real_files;
mod real_sink;
mod stored_file;
#[cfg(test)]
mod tests;
mod writing;

pub use loading::{Files, LoadFault};
pub use mem_files::MemFiles;
pub use mem_sink::MemSink;
pub use real_files::RealFiles;
pub use real_sink::RealSink;
pub use writing::{NullSink, Sink, SinkFault};
