//! The program: `read_words`, `prepare` and `perform` (`task.rt`), and `conclude` (`ending.rt`), in
//! this order. `program` (`entry.rt`) calls them, and so does `main`.
//!
//! Words ask for a `Request` (`requests`), and a `Job` is what it means (`jobs`). `serve` does
//! the job.
#![tactic(auto)]

mod ending;
mod entry;
pub mod laws;
mod passed;
mod pick_job;
mod rejected;
mod seed_job;
mod service;
mod show_job;
mod task;
mod tricks_job;
mod workers;
mod written;

pub use boards::Report;
pub use command_line::{laws as examples, read_words};
pub use ending::conclude;
pub use entry::{program, program_with_input};
pub use jobs::{BoardsJob, CountJob, Failure, Job, PickJob, ShowJob, planned};
pub use requests::{
    Format, LabelName, Look, MAX_QUESTIONS, Notices, QuestionName, Questions, Request, Search,
    Show, StreamRequest, TableStyle, When, Workers,
};
pub use service::serve;
pub use task::{Task, perform, prepare};
pub use workers::workers_for;
