//! The limit of a condition's size.

/// The most parts of a condition, and so of each of its values: numbers, and counts with or without
/// a factor, each of which is one.
pub const MOST_PARTS: u32 = 16_384;
