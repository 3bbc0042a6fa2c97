//! Conditions that no deal meets.

mod by_suit;
mod counts;
mod facts;
mod held;
mod never;
mod refuted;
mod splits;
mod torn;
mod values;
mod wholes;

pub use never::{is_never, is_never_met};
