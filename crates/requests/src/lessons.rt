//! Lessons by name: what a teacher asks for, with the condition of its deals.
//!
//! Each group of lessons is a table in `groups/`, a row for each: its name, its title, what its
//! deals show, and their condition, in the language of conditions. In each, North
//! holds the hand of the dealer. `list.rt` looks names up and lists them.

mod groups;
mod lesson;
mod list;

pub use lesson::Lesson;
pub use list::{name_at, named, page};
