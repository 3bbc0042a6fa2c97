//! What comes before the table: the title, the style, and the sentence.

ghost use Rattle.std.specs.Prelude.{◌≡◌, ◌≤◌, ◌+◌, ◌*◌, ◌^◌, ◌++◌, [], length};
ghost use Rattle.boards.specs.Room.{room};
ghost use Rattle.statistics.specs.Page.{page_head};
ghost use Rattle.statistics.specs.Sentence.{sentence};

use crate::page::style::put_style;
use crate::sentence::put_sentence;
use boards::TextBuffer;
use boards::html::{put_body_start, put_html_start};

/// Writes what comes before the table into the empty buffer.
pub(crate) fn put_page_head(text: &mut TextBuffer, title: &[u8], deals: u64, candidates: u64)
    requires empty { text.old ≡ [] }
    requires title { room 5 title.now ≤ 740 }
    requires deals { deals ≤ 2 ^ 40 }
    ensures { text.new ≡ page_head title.now (sentence deals candidates) }
{
    put_html_start(text, title);
    put_style(text);
    put_body_start(text, title);
    text.put(b"<p>");
    put_sentence(text, deals, candidates);
    text.put(b"</p>\n");
}
