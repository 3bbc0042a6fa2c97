//! Conditions on a deal, as trees of tests, and what these mean.
//!
//! Contracts see a `Cond` as its tree's `Form`, which is the tree without the addresses of its
//! boxes. The language that people write conditions in is above this crate.
#![tactic(auto)]

mod bounds;
mod condition;
mod error;
pub mod laws;
mod limits;
mod meaning;
mod question;
pub mod shapes;
mod tree;

pub use condition::Cond;
pub use error::CondError;
pub use limits::MOST_PARTS;
pub use question::Question;
pub use tree::{Count, Item, Op, Tree, Value};
