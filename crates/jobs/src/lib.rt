//! What requests mean: the job that each asks for, or the failure that refuses it.
//!
//! A `Request` is what the words ask for (`requests`). `prepare` makes a `Job` of it, or
//! refuses it. How the words of a command line become a request isn't known here, and neither is
//! how a job is done (`deals_cli`).
#![tactic(auto)]

mod boards_job;
mod count_job;
mod failure;
mod job;
pub mod laws;
mod questions;
mod search;

pub use boards_job::BoardsJob;
pub use count_job::CountJob;
pub use failure::Failure;
pub use job::{Job, PickJob, ShowJob, prepare};
pub use search::planned;
