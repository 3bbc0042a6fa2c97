//! Where bytes go: what a sink is, a sink over a writer, and sinks for tests; `console` has those
//! that a person looks at.
//!
//! A sink counts its faults, and may tell the bytes that it took. So a contract says what a call
//! appended, also if the sink failed within it.
#![tactic(auto)]

pub mod console;
mod message;
mod shown;
mod sink;
mod testing;

pub use message::Message;
pub use shown::put_shown;
pub use sink::{Piped, Sink, SinkFault, put_all};
pub use testing::{Fuse, MemSink};
