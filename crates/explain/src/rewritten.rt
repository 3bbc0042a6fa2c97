//! How a label or a hand that is refused is to be written: an event or a site in letters that its
//! format has, a date with the year first, and a hand with dots.

use boards::{Caption, Date, Format, Label};
use cards::Seat;
use requests::{LabelName, Look, PredealtHands};
use std::alloc::Global;

/// What is written for each letter or sign of a row. Letters of other scripts have none.
const SPELLINGS: [(&str, &str); 41] = [
    ("A", "ÀÁÂÃÄÅĀĂĄ"),
    ("AE", "Æ"),
    ("C", "ÇĆČĊ"),
    ("D", "ÐĎĐ"),
    ("E", "ÈÉÊËĒĖĘĚ"),
    ("G", "ĞĠĢ"),
    ("I", "ÌÍÎÏĪĮİ"),
    ("L", "ŁĹĽĻ"),
    ("N", "ÑŃŇŅ"),
    ("O", "ÒÓÔÕÖØŌŐ"),
    ("OE", "Œ"),
    ("R", "ŘŔ"),
    ("S", "ŚŠŞȘ"),
    ("T", "ŤŢȚ"),
    ("Th", "Þ"),
    ("U", "ÙÚÛÜŪŮŰŲ"),
    ("Y", "ÝŸ"),
    ("Z", "ŹŻŽ"),
    ("a", "àáâãäåāăą"),
    ("ae", "æ"),
    ("c", "çćčċ"),
    ("d", "ðďđ"),
    ("e", "èéêëēėęě"),
    ("g", "ğġģ"),
    ("i", "ìíîïīįı"),
    ("l", "łĺľļ"),
    ("n", "ñńňņ"),
    ("o", "òóôõöøōő"),
    ("oe", "œ"),
    ("r", "řŕ"),
    ("s", "śšşș"),
    ("ss", "ß"),
    ("t", "ťţț"),
    ("th", "þ"),
    ("u", "ùúûüūůűų"),
    ("y", "ýÿ"),
    ("z", "źżž"),
    ("'", "\"“”„«»‘’‚"),
    ("-", "‐‑–—"),
    ("/", "\\"),
    (" ", "\u{a0}\t"),
];

/// Returns a line with the label as it is to be written; none if it isn't known how, or if memory
/// runs out.
pub(crate) fn hint(alloc: Global, look: &Look<'_>, name: LabelName) -> Option<String> {
    let spelt = match name {
        LabelName::Event => titled(alloc, look.format, look.event?)?,
        LabelName::Site => titled(alloc, look.format, look.site?)?,
        LabelName::Date => year_first(alloc, look.date?)?,
    };
    let spelt = spelt.as_str();
    format!(in alloc; "  hint: write {spelt}\n").ok()
}

/// Returns a line with the seat's hand as it is to be written; none if it isn't known how, or if
/// memory runs out.
pub(crate) fn hand_hint(alloc: Global, hands: &PredealtHands<'_>, seat: Seat) -> Option<String> {
    let text = hands.given_at(seat)?;
    let spelt = with_dots(alloc, text)?;
    let spelt = spelt.as_str();
    let alone = PredealtHands {
        north: Some(spelt),
        ..PredealtHands::none()
    };
    if spelt == text || alone.fault_at(Seat::North).is_some() {
        return None;
    }
    format!(in alloc; "  hint: write {spelt}\n").ok()
}

/// What people put between suits, and what they write for a suit or beside its cards.
const BETWEEN: &str = " ,/|";

const BESIDE: &str = "-\u{2660}\u{2665}\u{2666}\u{2663}\
    \u{2664}\u{2661}\u{2662}\u{2667}\u{fe0e}\u{fe0f}";

/// The text with dots between its suits, capital letters, and `T` for `10`.
fn with_dots(alloc: Global, text: &str) -> Option<String> {
    let mut hand = String::new(alloc);
    let mut after_one = false;
    for letter in text.chars() {
        if after_one != (letter == '0') {
            return None;
        }
        after_one = letter == '1';
        if after_one || BESIDE.contains(letter) {
            continue;
        }
        hand.push(card_letter(letter)).ok()?;
    }
    Some(hand)
}

/// What is written for the letter.
fn card_letter(letter: char) -> char {
    match letter {
        '0' => 'T',
        letter if BETWEEN.contains(letter) => '.',
        letter => letter.to_ascii_uppercase(),
    }
}

/// The text as an event or a site of the format; none if it isn't known how.
fn titled(alloc: Global, format: Format, text: &str) -> Option<String> {
    match format {
        Format::Pbn => in_ascii(alloc, text),
        _ => in_a_line(alloc, text),
    }
}

/// The text as a caption, with spaces for tabs and ends of lines. `None` if that is none either.
fn in_a_line(alloc: Global, text: &str) -> Option<String> {
    let mut line = String::new(alloc);
    for letter in text.chars() {
        let blank = matches!(letter, '\t' | '\n' | '\r');
        line.push(if blank { ' ' } else { letter }).ok()?;
    }
    Caption::new(line.as_bytes())?;
    Some(line)
}

/// The text as a label, each letter without its accents. `None` if a letter has no spelling, or if
/// that is no label either.
fn in_ascii(alloc: Global, text: &str) -> Option<String> {
    let mut spelt = String::new(alloc);
    for letter in text.chars() {
        match spelling_of(letter) {
            Some(spelling) => spelt.push_str(spelling).ok()?,
            None => spelt.push(letter).ok()?,
        }
    }
    Label::new(spelt.as_bytes())?;
    Some(spelt)
}

/// What is written for the letter, if that is anything else.
fn spelling_of(letter: char) -> Option<&'static str> {
    let (spelling, _) = SPELLINGS
        .iter()
        .find(|(_, letters)| letters.chars().any(|one| one == letter))?;
    Some(*spelling)
}

/// A number of a date, and how many digits it has.
#[derive(Clone, Copy)]
struct DateNumber {
    value: u32,
    digits: u32,
}

/// The date with the year first, dots between its parts, and two digits for month and day. `None`
/// if it is no date, or if it can be read in two ways.
fn year_first(alloc: Global, text: &str) -> Option<String> {
    let (year, month, day) = read_date(text)?;
    if month < 1 || month > 12 || day < 1 || day > 31 {
        return None;
    }
    let date = format!(in alloc; "{year:04}.{month:02}.{day:02}").ok()?;
    Date::new(date.as_bytes())?;
    Some(date)
}

/// The year, month and day of a text: the year is the part of four digits, and in `28/11/2026` the
/// month is the part that can be one.
fn read_date(text: &str) -> Option<(u32, u32, u32)> {
    let [first, second, third] = read_parts(text)?;
    if first.digits == 4 {
        return Some((first.value, second.value, third.value));
    }
    if third.digits != 4 {
        return None;
    }
    if !text.contains('/') || first.value > 12 {
        return Some((third.value, second.value, first.value));
    }
    if second.value > 12 {
        return Some((third.value, first.value, second.value));
    }
    None
}

/// The three numbers of a text, with a dot, a dash or a slash between them.
fn read_parts(text: &str) -> Option<[DateNumber; 3]> {
    let mut parts = [DateNumber {
        value: 0,
        digits: 0,
    }; 3];
    let mut at = 0usize;
    for byte in text.bytes() {
        if matches!(byte, b'.' | b'-' | b'/') {
            at = at.saturating_add(1);
            continue;
        }
        let digit = byte.wrapping_sub(b'0');
        if at > 2 || digit > 9 || parts[at].digits > 3 {
            return None;
        }
        parts[at] = DateNumber {
            value: parts[at]
                .value
                .saturating_mul(10)
                .saturating_add(u32::from(digit)),
            digits: parts[at].digits.saturating_add(1),
        };
    }
    if at == 2 { Some(parts) } else { None }
}
