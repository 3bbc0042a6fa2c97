//! The candidates of a plan, shared out among workers, and the lanes that carry their verdicts to
//! the writer.
#![tactic(auto)]

mod bell;
mod ends;
mod job;
pub mod laws;
mod load;
mod model;
mod pause;
mod profit;
mod screening;
mod share;
mod signals;
mod turns;
mod verdict;
mod wait;
mod worker;

pub use cards::{MAX_CAPACITY, MAX_WORKERS};
pub use ends::{Closed, LaneError, LaneIn, LaneOut, lane, lane_in_blocks};
pub use job::{Job, JobAround};
pub use model::{Core, Event};
pub use share::Share;
pub use turns::Turns;
pub use verdict::{Slot, Verdict};
pub use wait::Pace;
pub use worker::{Gate, OpenGate, WorkEnd, work, work_around};
