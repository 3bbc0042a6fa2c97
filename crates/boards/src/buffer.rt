//! A text that is written piece by piece, in memory of its own, and the letters of a suit for each
//! set of ranks, ready to be copied.

ghost use Rattle.std.specs.Prelude.{◌≡◌, ◌≤◌, ◌+◌, ◌++◌, [], length, take, decimal, ◌<◌, ◌^◌};
ghost use Rattle.std.specs.Prelude.{codes, slice_index, vec_len};
ghost use Rattle.boards.specs.declared.buffer.TheConstants.{CAPACITY};
ghost use Rattle.boards.specs.Letters.{or_dash, suit_letters};
ghost use Rattle.boards.specs.internal.Sets.{IsEntry, IsTable};

use cards::{Hand, Suit};
use itoa::Buffer;
use std::alloc::{AllocError, Global};
use std::marker::Model;

/// How many bytes a text has room for.
pub const CAPACITY: usize = 5_120;

/// A text of at most `CAPACITY` bytes, which contracts see as the list of these bytes.
#[derive(Drop)]
pub struct TextBuffer {
    bytes: [u8; CAPACITY],
    len: usize,
}

impl Model for TextBuffer {
    ghost use Rattle.std.specs.Prelude.{List, ℕ, ◌≤◌, take};
    ghost use Rattle.boards.specs.declared.buffer.TheConstants.{CAPACITY};

    ghost Value = { List ℕ };

    ghost view = { λ t. take t.len t.bytes };

    ghost invariant = { λ t. t.len ≤ CAPACITY };
}

impl TextBuffer {
    /// Returns an empty text.
    pub fn new() -> TextBuffer
        ensures { result ≡ [] }
    {
        TextBuffer {
            bytes: [0; CAPACITY],
            len: 0,
        }
    }

    /// Returns the text's bytes.
    pub fn as_bytes(&self) -> &[u8]
        ensures value { result.now ≡ self.now }
        ensures fits { length result.now ≤ CAPACITY }
    {
        &self.bytes[..self.len]
    }

    /// Returns the number of the text's bytes.
    pub fn len(&self) -> usize
        ensures { result ≡ length self.now }
    {
        self.as_bytes().len()
    }

    /// Makes the text empty.
    pub fn clear(&mut self)
        ensures { self.new ≡ [] }
    {
        self.len = 0;
    }

    /// Appends the bytes, for which there is room.
    #[inline(always)]
    pub fn put(&mut self, bytes: &[u8])
        requires { length self.old + length bytes.now ≤ CAPACITY }
        ensures text { self.new ≡ self.old ++ bytes.now }
        ensures len { length self.new ≡ length self.old + length bytes.now }
    {
        let end = self.len + bytes.len();
        self.bytes[self.len..end].copy_from_slice(bytes);
        self.len = end;
    }

    /// Appends the first `count` of the bytes. There is room for all of them: they are copied as
    /// one piece, which is quicker.
    #[inline(always)]
    pub fn put_first<const N: usize>(&mut self, bytes: &[u8; N], count: usize)
        requires few { count ≤ N }
        requires room { length self.old + N ≤ CAPACITY }
        ensures text { self.new ≡ self.old ++ take count bytes.now }
        ensures len { length self.new ≡ length self.old + count }
    {
        self.bytes[self.len..self.len + N].copy_from_slice(bytes);
        self.len += count;
    }

    /// Appends the number in decimal. There is room for twenty digits.
    pub fn put_number(&mut self, number: u64)
        requires { length self.old + 20 ≤ CAPACITY }
        ensures text { self.new ≡ self.old ++ decimal number }
        ensures most { length self.new ≤ length self.old + 20 }
    {
        let mut digits = Buffer::new();
        self.put(digits.format(number).as_bytes());
    }
}

/// The letters of the ranks, the ace first.
pub const RANK_LETTERS: [u8; 13] = *b"AKQJT98765432";

/// How many sets of thirteen ranks there are.
const SETS: usize = 8192;

/// The letters of the ranks in a set, the ace first, and a dot. The last byte is the number of the
/// letters.
type Entry = [u8; 16];

/// The letters of each set of a suit's ranks, in memory of their own: 128 KiB.
#[derive(Drop)]
pub struct SuitLetters {
    entries: Vec<Entry>,
    ghost count: { vec_len entries ≡ 2 ^ 13 },
    ghost table: { IsTable entries.items },
}

impl SuitLetters {
    /// Returns the letters of all sets.
    ///
    /// # Errors
    /// `AllocError` if the allocation of their memory failed.
    pub fn new(alloc: Global) -> Result<SuitLetters, AllocError> {
        let mut entries = Vec::with_capacity(alloc, SETS)?;
        for set in 0..SETS {
            entries.push_reserved(entry_of(set));
        }
        Ok(SuitLetters { entries })
    }

    /// Appends the letters of the ranks that the hand has in the suit, the ace first: none if it is
    /// void. There is room for sixteen bytes.
    #[inline(always)]
    pub fn put(&self, text: &mut TextBuffer, hand: &Hand, suit: Suit)
        requires { length text.old + 16 ≤ CAPACITY }
        ensures text { text.new ≡ text.old ++ suit_letters hand.now suit }
        ensures most { length text.new ≤ length text.old + 13 }
    {
        let entry = self.with_dot(hand, suit);
        text.put_first(&entry, usize::from(entry[15]));
    }

    /// Appends the letters of the ranks that the hand has in the suit, the ace first, or the dash
    /// if it is void. There is room for sixteen bytes; a dash has thirteen at most.
    #[inline(always)]
    pub fn put_or_dash(&self, text: &mut TextBuffer, hand: &Hand, suit: Suit, dash: &[u8])
        requires room { length text.old + 16 ≤ CAPACITY }
        requires dash { length dash.now ≤ 13 }
        ensures text { text.new ≡ text.old ++ or_dash dash.now (suit_letters hand.now suit) }
        ensures most { length text.new ≤ length text.old + 13 }
    {
        let start = text.len();
        self.put(text, hand, suit);
        if text.len() == start {
            text.put(dash);
        }
    }

    /// Returns the letters of the ranks that the hand has in the suit, the ace first, and then a
    /// dot. The last byte is the number of the letters.
    #[inline(always)]
    pub fn with_dot(&self, hand: &Hand, suit: Suit) -> [u8; 16]
        ensures most { slice_index result 15 ≤ 13 }
        ensures count { slice_index result 15 ≡ length (suit_letters hand.now suit) }
        ensures text { take (slice_index result 15 + 1) result
            ≡ suit_letters hand.now suit ++ codes "." }
    {
        // A value of its own can't overlap a text, and is copied at once.
        *self.entry(hand.rank_set(suit))
    }

    /// Returns the letters of the ranks in the set, and a dot.
    fn entry(&self, set: u16) -> &Entry
        requires { set < 2 ^ 13 }
        ensures { IsEntry set result.now }
    {
        &self.entries[usize::from(set)]
    }
}

/// Writes the letters of the ranks in the set, and a dot.
fn entry_of(set: usize) -> Entry
    ensures { IsEntry set result }
{
    let mut entry = [0; 16];
    let mut end = 0;
    for rank in 0..RANK_LETTERS.len() {
        entry[end] = RANK_LETTERS[rank];
        end += (set >> rank) & 1;
    }
    entry[end] = b'.';
    entry[15] = end as u8;
    entry
}
