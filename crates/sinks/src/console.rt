//! What a person sees while a run lasts: the boards as they are found, and a line of counts.
//!
//! Both are the output's own business: `Prompt` is a sink that hears from the run how far it is. It
//! reads a clock then, passes on what it has gathered, and draws the counts on the error output.

mod counts;
mod prompt;
mod style;
mod tally;

pub use counts::{Counts, Drawn, OverLine, Remark};
pub use prompt::{GATHERED_MILLIS, Prompt, millis};
pub use style::Style;
pub use tally::{Tally, tally_line};
