//! The options by what they are about. Each has its row, what help says of it, and what it means if
//! it is given, in one file.

pub(crate) mod look;
pub(crate) mod notices;
pub(crate) mod others;
pub(crate) mod questions;
pub(crate) mod search;
