//! The runs of a plan, which write boards to a sink.
//!
//! A plan says which candidates are tried, and which boards are made of the accepted ones. Two runs
//! write them, both proved to write the text that the definition gives:
//! - `run_in`, the fast one: workers in threads of their own judge the candidates, and the caller's
//!   thread writes (`runs.rt`, `start.rt`, `writer.rt`, `join.rt`).
//! - `run_plain_in`, the reference of the crate `boards`, which reads like the definition. It runs
//!   in tests.
//!
//! They write in any notation; `run` and `run_plain` write PBN (`pbn.rt`). Names of the crates
//! `boards` and `sinks` that go with runs are exported here too. `stream` writes the values of the
//! generator, without a plan (`values.rt`).
#![tactic(auto)]

mod join;
pub mod laws;
mod pbn;
mod runs;
mod start;
mod values;
mod writer;

pub use boards::{Cause, PlainFault, Plan, PlanError, run_plain_in};
pub use pbn::{run, run_plain};
pub use runs::{Counted, Report, RunFault, run_and_count, run_in};
pub use sinks::{Fuse, MemSink, Piped, Sink, SinkFault, put_all};
pub use values::stream;
