//! Tokens, and the scanner: it cuts the whole text into pieces, and finds the leftmost faulty one
//! before the parser starts.

ghost use Rattle.std.specs.Prelude.{◌≡◌, ◌<◌, ◌≤◌, ◌==◌, length, map, count_by, true, IfOk, IfErr};
ghost use Rattle.std.specs.List.{AllByRecursion};
ghost use Rattle.std.specs.Char.{is_ascii_lowercase, is_ascii_digit};
ghost use Rattle.cond_lang.specs.Cut.{HasNames, HasTokens, decimal, is_separator, is_in_comment, is_rank};
ghost use Rattle.cond_lang.specs.Cut.{are_ranks, has_letter, named_by};
ghost use Rattle.cond_lang.specs.Faults.{HasFault};
ghost use Rattle.cond_lang.specs.Runs.{run};
ghost use Rattle.cond_lang.specs.internal.Scanning.{token_of, begins_with, symbol_at, word_piece};
ghost use Rattle.cond_lang.specs.internal.Scanning.{ranks_piece, number_piece, piece_at};

use crate::classes::{Class, Neighbour, Quantifier};
use crate::naming::Names;
use crate::words::WORDS;
use arrayvec::ArrayVec;
use cards::{Honours, Measure, Order, Seat, Suit};
use conditions::{CondError, Op};

/// A token of the language: a known word, ranks, a number of at most four digits, a symbol, or a
/// name.
#[derive(Clone, Copy, Default)]
pub enum Token {
    #[default]
    Or,
    And,
    Not,
    Balanced,
    Shape,
    Pattern,
    Quantifier(Quantifier),
    Stops,
    Measure(Measure),
    Cards,
    Len,
    Ordered(Order),
    In,
    X,
    Seat(Seat),
    Suit(Suit),
    Class(Class),
    Neighbour(Neighbour),
    Ranks(Honours),
    Number(u16),
    Open,
    Close,
    Comma,
    Dash,
    Plus,
    Star,
    Relation(Op),
    Let,
    Is,
    /// A name, by its number: a text's names are counted from 0 in the order in which they first
    /// come.
    Name(u16),
}

/// A token and the offset of its first byte.
#[derive(Clone, Copy, Default)]
pub struct Placed {
    pub token: Token,
    pub at: usize,
}

/// What a piece of the text is: a separator or a comment, a token, or a fault.
#[derive(Clone, Copy)]
pub enum Piece {
    /// A space, a tab, an end of a line, or a comment.
    Separator,
    Token(Token),
    /// A byte that begins nothing.
    StrayByte,
    /// Letters that are no known word and no ranks.
    UnknownWord,
    /// A run of five or more digits.
    LongNumber,
}

/// The longest text of a condition or a question, in bytes.
pub(crate) const MAX_BYTES: usize = 1024;

/// The longest text of definitions alone, in bytes.
pub(crate) const MAX_DEFINITIONS: usize = 4096;

/// The longest text that is read, in bytes: definitions, a new line and a text.
pub(crate) const MAX_READ: usize = 5121;

/// The tokens of a text, or its leftmost faulty piece.
pub(crate) fn scan<const N: usize>(text: &[u8]) -> Result<ArrayVec<Placed, N>, CondError>
    requires room { length text.now ≤ N }
    requires small { N ≤ 5121 }
    ensures tokens { IfOk result (λ v. HasTokens text.now v.items) }
    ensures fault { IfErr result (λ e. HasFault text.now e) }
    ensures few { IfOk result (λ v. length v.items ≤ N) }
{
    let mut tokens = ArrayVec::new();
    let mut names = Names::<N>::none();
    let mut rest = text;
    let mut at = 0;
    while !rest.is_empty() {
        let (piece, len) = first_piece(rest);
        let (bytes, behind) = rest.split_at(len);
        match names.named(bytes, piece) {
            Piece::Separator => {}
            Piece::Token(token) => tokens.push(Placed { token, at }),
            Piece::StrayByte => return Err(CondError::Byte { at }),
            Piece::UnknownWord => return Err(CondError::Word { at }),
            Piece::LongNumber => return Err(CondError::Number { at }),
        }
        rest = behind;
        at += len;
    }
    Ok(tokens)
}

/// Returns the names that a text gives, in the order in which they first come. Those of a text of
/// more than 5,121 bytes aren't looked for.
pub fn names_of<'a>(text: &'a [u8]) -> ArrayVec<&'a [u8], 5121>
    ensures { length text.now ≤ 5121 → HasNames text.now (map (λ p. p.now) result.items) }
{
    let mut names = Names::<MAX_READ>::none();
    if text.len() > MAX_READ {
        return names.given();
    }
    let mut rest = text;
    while !rest.is_empty() {
        let (piece, len) = first_piece(rest);
        let (bytes, behind) = rest.split_at(len);
        names.named(bytes, piece);
        rest = behind;
    }
    names.given()
}

/// The first piece of a text, and its length.
fn first_piece(text: &[u8]) -> (Piece, usize)
    requires { 0 < length text.now }
    ensures value { result ≡ piece_at text.now }
    ensures some { 0 < result.1 }
    ensures within { result.1 ≤ length text.now }
{
    let first = text[0];
    if is_separator(first) {
        (Piece::Separator, 1)
    } else if first == b'#' {
        (Piece::Separator, comment_len(text))
    } else if first.is_ascii_lowercase() {
        let count = letter_run_len(text);
        (word_piece(&text[..count]), count)
    } else if first.is_ascii_digit() {
        let count = digit_run_len(text);
        (number_piece(&text[..count]), count)
    } else {
        match symbol(text) {
            Some((token, count)) => (Piece::Token(token), count),
            None => (Piece::StrayByte, 1),
        }
    }
}

fn is_separator(byte: u8) -> bool
    ensures { result ≡ is_separator byte }
{
    byte == b' ' || byte == b'\t' || byte == b'\n' || byte == b'\r'
}

/// How many bytes are before the next line feed, or before the end.
fn comment_len(text: &[u8]) -> usize
    ensures value { result ≡ run is_in_comment text.now }
    ensures within { result ≤ length text.now }
{
    for (i, byte) in text.iter().enumerate() {
        if *byte == b'\n' {
            return i;
        }
    }
    text.len()
}

/// What a run of letters is.
fn word_piece(letters: &[u8]) -> Piece
    ensures { result ≡ word_piece letters.now }
{
    match look_up(&WORDS, letters) {
        Some(token) => Piece::Token(token),
        None => ranks_piece(letters),
    }
}

/// What letters are that are no known word.
#[tactic(auto, unfolding(crate::specs::internal::Scanning::ranks_piece))]
fn ranks_piece(letters: &[u8]) -> Piece
    ensures { result ≡ ranks_piece letters.now }
{
    if are_ranks(letters) {
        Piece::Token(Token::Ranks(named_by(letters)))
    } else {
        Piece::UnknownWord
    }
}

/// Whether the letters are ranks, and none of them occurs twice.
fn are_ranks(letters: &[u8]) -> bool
    ensures { result ≡ are_ranks letters.now }
{
    letters
        .iter()
        .all(|letter| is_rank(*letter) && count(letters, *letter) == 1)
}

fn is_rank(letter: u8) -> bool
    ensures { result ≡ is_rank letter }
{
    letter == b'a' || letter == b'k' || letter == b'q' || letter == b'j' || letter == b't'
}

/// How often the letter occurs.
fn count(letters: &[u8], wanted: u8) -> usize
    ensures { result ≡ count_by (λ d. d == wanted) letters.now }
{
    letters.iter().filter(|letter| **letter == wanted).count()
}

/// The ranks that the letters name.
fn named_by(letters: &[u8]) -> Honours
    ensures { result ≡ named_by letters.now }
{
    Honours {
        ace: has_letter(b'a', letters),
        king: has_letter(b'k', letters),
        queen: has_letter(b'q', letters),
        jack: has_letter(b'j', letters),
        ten: has_letter(b't', letters),
    }
}

fn has_letter(wanted: u8, letters: &[u8]) -> bool
    ensures { result ≡ has_letter wanted letters.now }
{
    letters.iter().any(|letter| *letter == wanted)
}

/// What a run of digits is.
fn number_piece(digits: &[u8]) -> Piece
    requires { AllByRecursion (λ c. is_ascii_digit c ≡ true) digits.now }
    ensures { result ≡ number_piece digits.now }
{
    if digits.len() <= 4 {
        Piece::Token(Token::Number(decimal(digits)))
    } else {
        Piece::LongNumber
    }
}

/// The number that at most four digits write.
fn decimal(digits: &[u8]) -> u16
    requires digits { AllByRecursion (λ c. is_ascii_digit c ≡ true) digits.now }
    requires few { length digits.now ≤ 4 }
    ensures { result ≡ decimal digits.now }
{
    let mut number = 0;
    for digit in digits {
        number = 10 * number + u16::from(*digit - b'0');
    }
    number
}

/// The token beside this text in a table.
fn look_up(mut table: &[(&str, Token)], text: &[u8]) -> Option<Token>
    ensures { result ≡ token_of (map (λ e. (e.0.now, e.1)) table.entry.now) text.now }
{
    while let [entry, rest @ ..] = table {
        if text == entry.0.as_bytes() {
            return Some(entry.1);
        }
        table = rest;
    }
    None
}

/// The longest symbol that a text begins with, and its length.
fn symbol(text: &[u8]) -> Option<(Token, usize)>
    ensures { result ≡ symbol_at text.now }
{
    let (first, rest) = text.split_first()?;
    let equals = begins_with(b'=', rest);
    match first {
        b'(' => Some((Token::Open, 1)),
        b')' => Some((Token::Close, 1)),
        b',' => Some((Token::Comma, 1)),
        b'-' => Some((Token::Dash, 1)),
        b'+' => Some((Token::Plus, 1)),
        b'*' => Some((Token::Star, 1)),
        b'=' if equals => Some((Token::Relation(Op::Equal), 2)),
        b'!' if equals => Some((Token::Relation(Op::NotEqual), 2)),
        b'<' if equals => Some((Token::Relation(Op::AtMost), 2)),
        b'<' => Some((Token::Relation(Op::Less), 1)),
        b'>' if equals => Some((Token::Relation(Op::AtLeast), 2)),
        b'>' => Some((Token::Relation(Op::More), 1)),
        _ => None,
    }
}

fn begins_with(byte: u8, text: &[u8]) -> bool
    ensures { result ≡ begins_with byte text.now }
{
    match text {
        [] => false,
        [first, ..] => *first == byte,
    }
}

/// Returns how many small letters, `a` to `z`, the text begins with.
pub fn letter_run_len(text: &[u8]) -> usize
    ensures value { result ≡ run is_ascii_lowercase text.now }
    ensures within { result ≤ length text.now }
{
    for (i, byte) in text.iter().enumerate() {
        if !byte.is_ascii_lowercase() {
            return i;
        }
    }
    text.len()
}

/// Returns how many digits the text begins with.
pub fn digit_run_len(text: &[u8]) -> usize
    ensures value { result ≡ run is_ascii_digit text.now }
    ensures within { result ≤ length text.now }
{
    for (i, byte) in text.iter().enumerate() {
        if !byte.is_ascii_digit() {
            return i;
        }
    }
    text.len()
}
