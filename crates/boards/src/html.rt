//! What pages of HTML share: how they begin and end, and texts in them.

ghost use Rattle.std.specs.Prelude.{◌≡◌, ◌≤◌, ◌+◌, ◌++◌, [], length};
ghost use Rattle.boards.specs.declared.buffer.TheConstants.{CAPACITY};
ghost use Rattle.boards.specs.Html.{body_start, escaped, escaped_byte, opening, html_start};
ghost use Rattle.boards.specs.Room.{room, room_of};

use crate::TextBuffer;

/// The end of a page.
pub const HTML_END: &[u8] = b"</main>\n</body>\n</html>\n";

/// Writes the beginning of a page with this title into the empty buffer, up to its style. There is
/// room for 170 bytes beside the title.
#[tactic(auto, unfolding(crate::specs::Html::html_start))]
pub fn put_html_start(text: &mut TextBuffer, title: &[u8])
    requires empty { text.old ≡ [] }
    requires room { 170 + room 5 title.now ≤ CAPACITY }
    ensures text { text.new ≡ html_start title.now }
    ensures most { length text.new ≤ 170 + room 5 title.now }
{
    put_opening(text);
    put_escaped(text, title);
    text.put(b"</title>\n<style>\n");
}

/// Appends the end of the style, and the beginning of the body with the title as its heading. There
/// is room for 50 bytes beside the title.
#[tactic(auto, unfolding(crate::specs::Html::body_start))]
pub fn put_body_start(text: &mut TextBuffer, title: &[u8])
    requires { length text.old + 50 + room 5 title.now ≤ CAPACITY }
    ensures text { text.new ≡ text.old ++ body_start title.now }
    ensures most { length text.new ≤ length text.old + 50 + room 5 title.now }
{
    text.put(b"</style>\n</head>\n<body>\n<main>\n<h1>");
    put_escaped(text, title);
    text.put(b"</h1>\n");
}

/// Writes what comes before the title into the empty buffer.
#[tactic(auto, unfolding(crate::specs::Html::opening))]
fn put_opening(text: &mut TextBuffer)
    requires { text.old ≡ [] }
    ensures text { text.new ≡ opening }
    ensures most { length text.new ≤ 150 }
{
    text.put(b"<!DOCTYPE html>\n<html lang=\"en\">\n<head>\n<meta charset=\"utf-8\">\n");
    text.put(b"<meta name=\"viewport\" content=\"width=device-width, initial-scale=1\">\n<title>");
}

/// Appends the text with &, < and > as HTML has them: each byte of ASCII takes at most five.
pub fn put_escaped(text: &mut TextBuffer, plain: &[u8])
    requires { length text.old + room 5 plain.now ≤ CAPACITY }
    ensures text { text.new ≡ text.old ++ escaped plain.now }
    ensures most { length text.new ≤ length text.old + room 5 plain.now }
{
    for byte in plain {
        put_byte(text, *byte);
    }
}

/// Appends a byte of a text.
#[tactic(auto, unfolding(crate::specs::Html::escaped_byte))]
fn put_byte(text: &mut TextBuffer, byte: u8)
    requires { length text.old + room_of 5 byte ≤ CAPACITY }
    ensures text { text.new ≡ text.old ++ escaped_byte byte }
    ensures most { length text.new ≤ length text.old + room_of 5 byte }
{
    match byte {
        b'&' => text.put(b"&amp;"),
        b'<' => text.put(b"&lt;"),
        b'>' => text.put(b"&gt;"),
        _ => text.put(&[byte]),
    }
}
