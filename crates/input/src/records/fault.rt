//! What is wrong with a line that is refused.

/// What is wrong with a line that is refused.
#[derive(Clone, Copy, Debug, PartialEq, Eq)]
pub enum RecordFault {
    /// The Deal tag doesn't say where the 52 cards are.
    NotADeal,
    /// The Board tag isn't a number from 1 to 2^40.
    NotANumber,
    /// The Dealer tag isn't `N`, `E`, `S`, `W` or `?`.
    NotADealer,
    /// The Vulnerable tag isn't `None`, `Love`, `-`, `NS`, `EW`, `All`, `Both` (any case) or `?`.
    NotAVulnerability,
    /// What begins with `[` isn't a tag.
    NotATag,
    /// The line has more than 4,096 bytes.
    TooLong,
}

/// A line that is refused, counted from 1.
#[derive(Clone, Copy, Debug, PartialEq, Eq)]
pub struct RefusedRecord {
    pub line: u64,
    pub fault: RecordFault,
}
