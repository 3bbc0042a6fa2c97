//! How the sheet looks, in CSS.

ghost use Rattle.std.specs.Prelude.{◌≡◌, ◌≤◌, ◌+◌, ◌*◌, ◌++◌, length};
ghost use Rattle.boards.specs.declared.buffer.TheConstants.{CAPACITY};
ghost use Rattle.boards.specs.Room.{room};
ghost use Rattle.notations.specs.SheetStyle.{corner_style, middle_style, print_style, seat_style};
ghost use Rattle.notations.specs.SheetStyle.{section_style, sheet_style};

use crate::page::{
    number_style, page_style, put_title_style, sign_style, table_style, vulnerable_style,
};
use boards::TextBuffer;

/// Appends the style of a sheet with this title.
#[tactic(auto, unfolding(crate::specs::SheetStyle::sheet_style))]
pub(crate) fn put_sheet_style(text: &mut TextBuffer, title: &[u8])
    requires { length text.old + 1_820 + room 4 title.now ≤ CAPACITY }
    ensures text { text.new ≡ text.old ++ sheet_style title.now }
    ensures most { length text.new ≤ length text.old + 1_820 + room 4 title.now }
{
    text.put(page_style());
    text.put(section_style());
    text.put(middle_style());
    text.put(vulnerable_style());
    text.put(seat_style());
    text.put(sign_style());
    text.put(table_style());
    text.put(corner_style());
    put_title_style(text, title);
    text.put(number_style());
    text.put(print_style());
}

/// A board isn't part of two pages. Above on the left are its number, dealer and vulnerability.
#[tactic(auto, unfolding(crate::specs::SheetStyle::section_style))]
fn section_style() -> &'static [u8]
    ensures value { result.now ≡ section_style }
    ensures most { length result.now ≤ 290 }
{
    b"*{box-sizing:border-box}\n\
    .board{display:grid;grid-template:auto auto auto/7fr auto 9fr;gap:.4rem;padding:.6rem;\
    border:1px solid #bbb;break-inside:avoid}\n\
    .board>div{overflow-wrap:anywhere}\n\
    h2{grid-area:1/1;font-size:1.6em;line-height:1}\n\
    p{grid-area:1/1;margin-top:1.85em;white-space:nowrap}\n"
}

/// The table in the middle has the points.
#[tactic(auto, unfolding(crate::specs::SheetStyle::middle_style))]
fn middle_style() -> &'static [u8]
    ensures value { result.now ≡ middle_style }
    ensures most { length result.now ≤ 130 }
{
    b".middle{grid-area:2/2;display:grid;place-content:space-evenly;width:5em;height:4.3em;\
    border:.1em solid #2e7d4f;text-align:center}\n"
}

/// The hands are around it, and the points within, each in its seat.
#[tactic(auto, unfolding(crate::specs::SheetStyle::seat_style))]
fn seat_style() -> &'static [u8]
    ensures value { result.now ≡ seat_style }
    ensures most { length result.now ≤ 126 }
{
    b".North{grid-area:1/2}\n\
    .East{grid-area:2/3;align-self:center}\n\
    .South{grid-area:3/2}\n\
    .West{grid-area:2/1;place-self:center end}\n"
}

/// The tricks are above on the right, and par is below.
#[tactic(auto, unfolding(crate::specs::SheetStyle::corner_style))]
fn corner_style() -> &'static [u8]
    ensures value { result.now ≡ corner_style }
    ensures most { length result.now ≤ 150 }
{
    b"table{grid-area:1/3;place-self:start end}\n\
    .par{grid-area:3/3;place-self:end;margin:0;text-align:right}\n\
    @media screen{p,table,.middle{font-size:.9em}}\n"
}

/// On paper, A4 or Letter, three boards are side by side, eighteen on a sheet.
#[tactic(auto, unfolding(crate::specs::SheetStyle::print_style))]
fn print_style() -> &'static [u8]
    ensures value { result.now ≡ print_style }
    ensures most { length result.now ≤ 241 }
{
    b"@page{margin:12mm 8mm 9mm}\n\
    @media print{\n\
    html{font:8pt/1.08 system-ui,sans-serif}\n\
    body{margin:0}\n\
    h1{display:none}\n\
    main{grid-template-columns:repeat(3,1fr);gap:1.2mm;padding-inline:1px}\n\
    .board{gap:0 .8mm;padding:.8mm 1mm;min-height:41.6mm}\n\
    }\n"
}
