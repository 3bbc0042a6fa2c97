//! A tag as most programs write it, at the beginning of a line: `[`, its name, a space, and its
//! value between quotes, `]`.

ghost use Rattle.std.specs.Prelude.{◌≡◌, ◌<◌, ◌≤◌, ◌++◌, IfSome, Some, length, take, true};
ghost use Rattle.std.specs.List.{list_all};
ghost use Rattle.input.specs.Kinds.{kind_of};
ghost use Rattle.input.specs.Places.{is_name_byte};
ghost use Rattle.input.specs.internal.TagTexts.{IsTag, Opens, is_plain, tag_text};

use crate::records::kind::{TagKind, kind_of};
use crate::records::line::{LINE_BYTES, is_name_byte};

/// How many bytes a tag has beside its name and its value.
pub(crate) const SIGNS: usize = 5;

/// The bytes of a value that tells a deal: a seat, a colon, and four hands of sixteen bytes with
/// spaces between them.
const DEAL: usize = 69;

/// The last of the bytes that stand for themselves in the order of `order_of`.
const LAST_PLAIN: u8 = 60;

/// A tag: its name, the kind that the name has, its value, and what comes after it.
#[derive(Clone, Copy)]
pub(crate) struct Tag<'a> {
    pub(crate) name: &'a [u8],
    pub(crate) kind: Option<TagKind>,
    pub(crate) value: &'a [u8],
    pub(crate) rest: &'a [u8],
}

/// How a tag begins: its name, the kind that the name has, and what comes after the first quote.
#[derive(Clone, Copy)]
pub(crate) struct Opening<'a> {
    pub(crate) name: &'a [u8],
    pub(crate) kind: Option<TagKind>,
    pub(crate) after: &'a [u8],
}

/// Which bytes stand for themselves in a value: all but a quote, a backslash, LF and CR.
const PLAIN: [bool; 256] = [
    true, true, true, true, true, true, true, true, true, true, false, true, true, false, true,
    true, true, true, true, true, true, true, true, true, true, true, true, true, true, true, true,
    true, true, true, false, true, true, true, true, true, true, true, true, true, true, true,
    true, true, true, true, true, true, true, true, true, true, true, true, true, true, true, true,
    true, true, true, true, true, true, true, true, true, true, true, true, true, true, true, true,
    true, true, true, true, true, true, true, true, true, true, true, true, true, true, false,
    true, true, true, true, true, true, true, true, true, true, true, true, true, true, true, true,
    true, true, true, true, true, true, true, true, true, true, true, true, true, true, true, true,
    true, true, true, true, true, true, true, true, true, true, true, true, true, true, true, true,
    true, true, true, true, true, true, true, true, true, true, true, true, true, true, true, true,
    true, true, true, true, true, true, true, true, true, true, true, true, true, true, true, true,
    true, true, true, true, true, true, true, true, true, true, true, true, true, true, true, true,
    true, true, true, true, true, true, true, true, true, true, true, true, true, true, true, true,
    true, true, true, true, true, true, true, true, true, true, true, true, true, true, true, true,
    true, true, true, true, true, true, true, true, true, true, true, true, true, true, true, true,
    true, true, true, true, true, true, true, true, true, true, true, true, true, true, true, true,
    true, true, true,
];

/// Whether the byte stands for itself in a value.
fn is_plain(byte: u8) -> bool
    ensures { result ≡ is_plain byte }
{
    PLAIN[usize::from(byte)]
}

/// How many bytes a name has that the text begins with.
fn name_length(text: &[u8]) -> usize
    ensures range { result ≤ length text.now }
    ensures name { list_all is_name_byte (take result text.now) ≡ true }
{
    for (i, byte) in text.iter().enumerate() {
        if !is_name_byte(*byte) {
            return i;
        }
    }
    text.len()
}

/// The opening that a text begins with, if it has this name, which is of this kind.
fn opening_of<'a>(text: &'a [u8], name: &'a [u8], kind: TagKind) -> Option<Opening<'a>>
    requires some { 0 < length name.now }
    requires named { list_all is_name_byte name.now ≡ true }
    requires kind { kind_of name.now ≡ Some kind }
    ensures { IfSome result (λ o. Opens text.now o) }
{
    let after = text.strip_prefix(b"[")?;
    let after = after.strip_prefix(name)?;
    let after = after.strip_prefix(b" \"")?;
    Some(Opening {
        name,
        kind: Some(kind),
        after,
    })
}

/// The opening that a text begins with, if it is of a tag that most games have: to compare a name
/// takes less time than to find its end.
fn usual_opening(text: &[u8]) -> Option<Opening<'_>>
    ensures { IfSome result (λ o. Opens text.now o) }
{
    if let Some(board) = opening_of(text, b"Board", TagKind::Board) {
        return Some(board);
    }
    if let Some(deal) = opening_of(text, b"Deal", TagKind::Deal) {
        return Some(deal);
    }
    if let Some(dealer) = opening_of(text, b"Dealer", TagKind::Dealer) {
        return Some(dealer);
    }
    opening_of(text, b"Vulnerable", TagKind::Vulnerable)
}

/// The opening that a text begins with, whatever its name.
fn any_opening(text: &[u8]) -> Option<Opening<'_>>
    ensures { IfSome result (λ o. Opens text.now o) }
{
    let after = text.strip_prefix(b"[")?;
    let (name, after) = after.split_at(name_length(after));
    let after = after.strip_prefix(b" \"")?;
    if name.is_empty() {
        return None;
    }
    Some(Opening {
        name,
        kind: kind_of(name),
        after,
    })
}

/// The opening that a text begins with, if it has this form.
fn opening_at(text: &[u8]) -> Option<Opening<'_>>
    ensures { IfSome result (λ o. Opens text.now o) }
{
    match usual_opening(text) {
        Some(opening) => Some(opening),
        None => any_opening(text),
    }
}

/// Where a byte is in an order that begins with 61 bytes that stand for themselves, those of deals
/// among them.
fn order_of(byte: u8) -> u8
    ensures { result ≤ 60 → is_plain byte ≡ true }
{
    (byte ^ 2).wrapping_sub(33)
}

/// Whether all bytes stand for themselves, as far as a quick look tells, which finds those of
/// deals. None of them ends the loop, and a processor looks at many of them at once.
fn are_surely_plain(part: &[u8]) -> bool
    ensures { result ≡ true → list_all is_plain part.now ≡ true }
{
    let mut last = 0;
    for byte in part {
        last = order_of(*byte).max(last);
    }
    last <= LAST_PLAIN
}

/// How many bytes that stand for themselves the text begins with, byte by byte.
fn plain_bytes(text: &[u8]) -> usize
    ensures range { result ≤ length text.now }
    ensures plain { list_all is_plain (take result text.now) ≡ true }
{
    for (i, byte) in text.iter().enumerate() {
        if !is_plain(*byte) {
            return i;
        }
    }
    text.len()
}

/// How many bytes that stand for themselves the text begins with. Most long values tell a deal, so
/// the length of one is tried first.
fn value_length(text: &[u8]) -> usize
    ensures range { result ≤ length text.now }
    ensures plain { list_all is_plain (take result text.now) ≡ true }
{
    if text.len() > DEAL && text[DEAL] == b'"' && are_surely_plain(&text[..DEAL]) {
        return DEAL;
    }
    plain_bytes(text)
}

/// The tag that a text begins with, if it has this form, and fits a line.
pub(crate) fn tag_at(text: &[u8]) -> Option<Tag<'_>>
    ensures tag { IfSome result (λ tag. IsTag tag.name.now tag.value.now) }
    ensures kind { IfSome result (λ tag. tag.kind ≡ kind_of tag.name.now) }
    ensures text { IfSome result (λ tag.
        text.now ≡ tag_text tag.name.now tag.value.now ++ tag.rest.now) }
{
    let opening = opening_at(text)?;
    let (value, after) = opening.after.split_at(value_length(opening.after));
    let rest = after.strip_prefix(b"\"]")?;
    if opening.name.len() + value.len() + SIGNS > LINE_BYTES {
        return None;
    }
    Some(Tag {
        name: opening.name,
        kind: opening.kind,
        value,
        rest,
    })
}
