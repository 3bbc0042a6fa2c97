//! A model of a run: the events of its lanes as a machine of counters. The product doesn't use it,
//! and no contract ties it to the run: docs/ARCHITECTURE.md says which atomic step is which event.

mod event;
mod machine;

pub use event::Event;
pub use machine::Core;
