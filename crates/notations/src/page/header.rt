//! The header: the title, of the given labels, and the style.

ghost use Rattle.std.specs.Prelude.{◌≡◌, ◌≤◌, ◌+◌, ◌++◌, [], ℕ, Some, length};
ghost use Rattle.boards.specs.declared.buffer.TheConstants.{CAPACITY};
ghost use Rattle.boards.specs.Room.{room};
ghost use Rattle.notations.specs.Pages.{header_text, is_blank, joined, shown, title_of};
ghost use Rattle.notations.specs.internal.Looks.{style_of};
ghost use Rattle.notations.specs.internal.Titles.{AddsAtMost, IsWithin};

use crate::page::style::{put_style, put_style_with_tricks};
use crate::sheet::put_sheet_style;
use crate::slips::put_slip_style;
use boards::html::{put_body_start, put_html_start};
use boards::{Caption, Captions, Date, TextBuffer};

/// How a page looks.
#[derive(Clone, Copy)]
pub(crate) enum PageLook {
    /// A page without tricks.
    Plain,
    /// A page with tricks.
    Tricks,
    /// A sheet, with or without tricks.
    Sheet,
    /// Slips.
    Slips,
}

/// Writes the header into the empty buffer.
pub(crate) fn put_header(text: &mut TextBuffer, look: PageLook, heading: &Captions)
    requires { text.old ≡ [] }
    ensures { text.new ≡ header_text (style_of look) heading.now }
{
    let mut title = TextBuffer::new();
    put_title(&mut title, heading);
    put_html_start(text, title.as_bytes());
    put_look(text, look, title.as_bytes());
    put_body_start(text, title.as_bytes());
}

/// Appends the style of a page that looks so and has this title.
fn put_look(text: &mut TextBuffer, look: PageLook, title: &[u8])
    requires { length text.old + 1_820 + room 4 title.now ≤ CAPACITY }
    ensures text { text.new ≡ text.old ++ style_of look title.now }
    ensures most { length text.new ≤ length text.old + 1_820 + room 4 title.now }
{
    match look {
        PageLook::Plain => put_style(text, title),
        PageLook::Tricks => put_style_with_tricks(text, title),
        PageLook::Sheet => put_sheet_style(text, title),
        PageLook::Slips => put_slip_style(text, title),
    }
}

/// Writes the title into the empty buffer: event, site and date.
fn put_title(title: &mut TextBuffer, heading: &Captions)
    requires { title.old ≡ [] }
    ensures text { title.new ≡ title_of heading.now }
    ensures wide { room 5 title.new ≤ 1_080 }
    ensures narrow { room 4 title.new ≤ 864 }
{
    put_caption(title, heading.event());
    put_caption(title, heading.site());
    put_date(title, heading.date());
    if title.len() == 0 {
        title.put(b"Boards");
    }
}

fn put_caption(title: &mut TextBuffer, caption: &Option<Caption>)
    requires { length title.old + 402 ≤ CAPACITY }
    ensures text { title.new ≡ joined title.old (shown caption.now) }
    ensures most { AddsAtMost 402 102 title.old title.new }
{
    if let Some(caption) = caption {
        put_shown(title, caption.as_bytes());
    }
}

fn put_date(title: &mut TextBuffer, date: &Option<Date>)
    requires { length title.old + 12 ≤ CAPACITY }
    ensures text { title.new ≡ joined title.old (shown date.now) }
    ensures most { AddsAtMost 12 12 title.old title.new }
{
    if let Some(date) = date {
        put_shown(title, date.as_bytes());
    }
}

/// Joins a label to the title, unless it is blank.
fn put_shown(title: &mut TextBuffer, label: &[u8])
    requires { length title.old + length label.now + 2 ≤ CAPACITY }
    ensures text { title.new ≡ joined title.old (shown (Some label.now)) }
    ensures most { (n m : ℕ) → length label.now ≤ n → IsWithin m label.now
        → AddsAtMost (n + 2) (m + 2) title.old title.new }
{
    if is_blank(label) {
        return;
    }
    if title.len() > 0 {
        title.put(b", ");
    }
    title.put(label);
}

/// Whether the text is nothing but spaces.
fn is_blank(text: &[u8]) -> bool
    ensures { result ≡ is_blank text.now }
{
    text.iter().all(|byte| *byte == b' ')
}
