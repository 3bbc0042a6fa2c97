//! What was seen of an input of boards, for a note where none is in it.

/// How a tag begins that every board has.
const DEAL: &[u8] = b"[Deal";

/// How many bytes of the beginning are kept.
const FIRST: usize = 4;

/// How the first line ends.
#[derive(Clone, Copy, PartialEq, Eq)]
enum End {
    /// It hasn't ended.
    Open,
    /// A CR came, with or without an LF after it.
    Cr,
    /// An LF ends it, or a CR and an LF.
    Lf,
    /// A CR that no LF comes after, which ends no line.
    CrAlone,
}

/// The first bytes of an input, how its first line ends, and how many bytes of `[Deal` were seen
/// last, or one more than all of them once the tag's name ended after them.
#[derive(Clone, Copy)]
pub struct Seen {
    first: [u8; FIRST],
    length: usize,
    end: End,
    matched: usize,
}

impl Seen {
    /// Nothing was seen.
    pub fn nothing() -> Seen {
        Seen {
            first: [0; FIRST],
            length: 0,
            end: End::Open,
            matched: 0,
        }
    }

    /// Whether a Deal tag began.
    pub fn has_deal(&self) -> bool {
        self.matched > DEAL.len()
    }

    /// Whether the first line would end in a CR alone.
    pub fn ends_in_cr(&self) -> bool {
        self.end == End::CrAlone
    }

    /// The first bytes.
    pub fn first(&self) -> &[u8] {
        self.first.get(..self.length).unwrap_or(&[])
    }

    /// What was seen with these bytes more.
    pub fn with(self, bytes: &[u8]) -> Seen {
        let mut seen = self;
        for byte in bytes {
            if seen.has_deal() {
                return seen;
            }
            seen = seen.with_byte(*byte);
        }
        seen
    }

    fn with_byte(self, byte: u8) -> Seen {
        let mut seen = self;
        if seen.length < FIRST {
            seen.first[seen.length] = byte;
            seen.length += 1;
        }
        seen.end = end_after(seen.end, byte);
        let is_next = match DEAL.get(seen.matched) {
            Some(next) => *next == byte,
            // The name has ended, and isn't Dealer.
            None => !byte.is_ascii_alphanumeric() && byte != b'_',
        };
        seen.matched = if is_next {
            seen.matched.saturating_add(1)
        } else {
            usize::from(byte == b'[')
        };
        seen
    }
}

/// How the first line ends with this byte more.
fn end_after(end: End, byte: u8) -> End {
    match (end, byte) {
        (End::Open | End::Cr, b'\n') => End::Lf,
        (End::Open, b'\r') => End::Cr,
        (End::Cr, _) => End::CrAlone,
        _ => end,
    }
}
