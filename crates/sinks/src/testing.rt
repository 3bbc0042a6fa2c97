//! Sinks for tests: one over memory, and one that fails on demand.

mod fuse;
mod memory_sink;

pub use fuse::Fuse;
pub use memory_sink::MemSink;
