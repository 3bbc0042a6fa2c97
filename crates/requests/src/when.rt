//! When a person is shown what programs don't read.

use boards::{Words, words};

/// When something is shown on the error output that is meant for a person: a run's counts while it
/// lasts, or what helps, below a refusal and in notes on a run. Nothing else depends on it.
#[derive(Clone, Copy)]
pub enum When {
    /// If the error output is a terminal.
    Auto,
    Always,
    Never,
}

/// The words that say when.
pub const TIMES: Words<When> = words! {
    "auto" => When::Auto,
    "always" => When::Always,
    "never" => When::Never
};
