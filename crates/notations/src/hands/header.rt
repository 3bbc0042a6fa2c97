//! The lines of the given labels, and an empty line after them.

ghost use Rattle.std.specs.Prelude.{◌≡◌, ◌≤◌, ◌+◌, ◌++◌, [], length};
ghost use Rattle.boards.specs.declared.buffer.TheConstants.{CAPACITY};
ghost use Rattle.notations.specs.Records.{header_text, label_line};

use boards::{Caption, Captions, Date, TextBuffer};

/// Writes the header into the empty buffer.
pub(crate) fn put_header(text: &mut TextBuffer, heading: &Captions)
    requires { text.old ≡ [] }
    ensures { text.new ≡ header_text heading.now }
{
    put_caption(text, heading.event());
    put_caption(text, heading.site());
    put_date(text, heading.date());
    if text.len() > 0 {
        text.put(b"\n");
    }
}

fn put_caption(text: &mut TextBuffer, caption: &Option<Caption>)
    requires { length text.old + 401 ≤ CAPACITY }
    ensures text { text.new ≡ text.old ++ label_line caption.now }
    ensures most { length text.new ≤ length text.old + 401 }
{
    if let Some(caption) = caption {
        text.put(caption.as_bytes());
        text.put(b"\n");
    }
}

fn put_date(text: &mut TextBuffer, date: &Option<Date>)
    requires { length text.old + 11 ≤ CAPACITY }
    ensures text { text.new ≡ text.old ++ label_line date.now }
    ensures most { length text.new ≤ length text.old + 11 }
{
    if let Some(date) = date {
        text.put(date.as_bytes());
        text.put(b"\n");
    }
}
