//! What a condition rejects without a look at a whole deal.
//!
//! A screen rejects those candidates, before they are dealt whole, of which no deal can come that
//! meets it. It compares the least and the greatest that values can still be (`estimate`, `gap`).
//! It is far quicker to ask than the condition, and doesn't find each candidate that could be given
//! up. And `unmet` finds conditions that no deal meets.
#![tactic(auto)]

mod estimate;
mod exclusion;
mod gap;
pub mod laws;
mod parts;
mod relation;
mod screen;
mod shares;
mod single_cards;
mod stage;
pub mod unmet;

pub use parts::room_after;
pub use screen::Screen;
