//! How curtain cards look, in CSS.

ghost use Rattle.std.specs.Prelude.{◌≡◌, ◌≤◌, ◌+◌, ◌*◌, ◌++◌, length};
ghost use Rattle.boards.specs.declared.buffer.TheConstants.{CAPACITY};
ghost use Rattle.boards.specs.Room.{room};
ghost use Rattle.notations.specs.SlipStyle.{card_style, cut_style, four_style, slip_style};

use crate::page::{number_style, page_style, put_title_style, sign_style};
use boards::TextBuffer;

/// Appends the style of slips with this title.
#[tactic(auto, unfolding(crate::specs::SlipStyle::slip_style))]
pub(crate) fn put_slip_style(text: &mut TextBuffer, title: &[u8])
    requires { length text.old + 1_820 + room 4 title.now ≤ CAPACITY }
    ensures text { text.new ≡ text.old ++ slip_style title.now }
    ensures most { length text.new ≤ length text.old + 1_820 + room 4 title.now }
{
    text.put(page_style());
    text.put(cut_style());
    text.put(card_style());
    text.put(sign_style());
    put_title_style(text, title);
    text.put(number_style());
    text.put(four_style());
}

/// Slips are side by side, with broken lines between them to be cut.
#[tactic(auto, unfolding(crate::specs::SlipStyle::cut_style))]
fn cut_style() -> &'static [u8]
    ensures value { result.now ≡ cut_style }
    ensures most { length result.now ≤ 300 }
{
    b"main{gap:0;grid-template-columns:repeat(auto-fill,minmax(min(13.5rem,100%),1fr))}\n\
    .slip{display:grid;grid-template-columns:1fr auto;align-items:start;gap:.3rem;padding:.7rem;\
    border:1px dashed #777;white-space:nowrap;overflow:auto;break-inside:avoid}\n"
}

/// Above are the board's number and the seat, and on the right its dealer and vulnerability.
#[tactic(auto, unfolding(crate::specs::SlipStyle::card_style))]
fn card_style() -> &'static [u8]
    ensures value { result.now ≡ card_style }
    ensures most { length result.now ≤ 120 }
{
    b"h2{font-size:1.2rem}\n\
    p{text-align:right;font-size:.8rem}\n\
    div{grid-column:1/3;font-size:1.2rem}\n"
}

/// On paper, A4 or Letter, four are side by side, the hands of a board.
#[tactic(auto, unfolding(crate::specs::SlipStyle::four_style))]
fn four_style() -> &'static [u8]
    ensures value { result.now ≡ four_style }
    ensures most { length result.now ≤ 150 }
{
    b"@media print{\n\
    html{font-size:9pt}\n\
    body{margin:0}\n\
    h1{display:none}\n\
    main{grid-template-columns:repeat(4,1fr);padding-inline:1px}\n\
    }\n"
}
