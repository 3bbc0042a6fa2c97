//! What the program reads: candidates' numbers (`numbers`), tricks of boards (`tricks`), and
//! records of any boards (`records`).
//!
//! A `Source` gives the bytes. They are read in constant memory, and what they ask for is written
//! as it is read. In each, a line ends with LF or CR LF; the end of the last may be missing.
#![tactic(auto)]

mod blank;
mod four_bytes;
pub mod numbers;
pub mod records;
mod refused_line;
mod source;
pub mod tricks;

pub use four_bytes::{BytesFault, read_four};
pub use refused_line::{LineFault, RefusedLine};
pub use source::{MOST_BYTES, NoBytes, Reader, Source, SourceFault};
