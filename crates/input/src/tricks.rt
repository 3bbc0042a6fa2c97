//! Boards with the tricks that an input tells of them, a line for each.
//!
//! A line is read when its board is to be written. It may end with the deal that it is for; then
//! the board must have that deal. The boards are those of given candidates, or a line begins with
//! the number of its board's.

mod judge;
mod line;
mod numbers;
mod picker;
mod teller;
mod word;

pub use numbers::numbers_of;
pub use picker::pick;
pub use teller::tell;
