//! Records of any boards: a text in Portable Bridge Notation is read, and the board of each of its
//! games is told as the game ends.
//!
//! The text is read byte by byte, and lines have at most 4,096 bytes.

mod deal_value;
mod fault;
mod game;
mod hand_value;
mod kind;
pub mod laws;
mod line;
mod reader;
mod reading;
mod scanner;
mod shown;
mod tag;
mod values;
mod watched;

pub use fault::{RecordFault, RefusedRecord};
pub use game::{Game, Told};
pub use kind::TagKind;
pub use line::{LinePart, LineStep};
pub use reader::{BoardReader, Next, ReadFault};
pub use scanner::RecordScanner;
pub use shown::{ShowFault, show};
pub use values::Short;
