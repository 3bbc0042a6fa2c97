//! Lines of the input that are refused: candidates' numbers, and tricks.

/// What is wrong with a line.
#[derive(Clone, Copy, Debug, PartialEq, Eq)]
pub enum LineFault {
    /// It isn't 1 to 13 digits.
    NotANumber,
    /// Its number is 2^40 or more.
    NotBelow,
    /// It has a number, and 2^40 lines before it have one.
    TooMany,
    /// It isn't a line of tricks.
    NotTricks,
    /// The input ended before it.
    Missing,
    /// It has the tricks of another deal than its board's.
    OtherDeal,
    /// It comes after the lines of all boards.
    MoreThanBoards,
}

/// A line that is refused, by its number: the first line is 1, and each line counts.
#[derive(Clone, Copy, Debug, PartialEq, Eq)]
pub struct RefusedLine {
    pub line: u64,
    pub fault: LineFault,
}
