//! How the page looks, in CSS.

ghost use Rattle.std.specs.Prelude.{◌≡◌, ◌≤◌, ◌+◌, ◌*◌, ◌++◌, length};
ghost use Rattle.boards.specs.declared.buffer.TheConstants.{CAPACITY};
ghost use Rattle.boards.specs.Room.{room, room_of};
ghost use Rattle.notations.specs.Style.{alone_style, beside_style, board_style, css_byte};
ghost use Rattle.notations.specs.Style.{css_string, first_style, hand_style, number_style, page_style};
ghost use Rattle.notations.specs.Style.{paper_style, shared_style, sign_style, style, style_with_tricks};
ghost use Rattle.notations.specs.Style.{table_style, title_style, vulnerable_style};

use boards::TextBuffer;

/// Appends the style of a page with this title.
#[tactic(auto, unfolding(crate::specs::Style::style))]
pub(crate) fn put_style(text: &mut TextBuffer, title: &[u8])
    requires { length text.old + 1_690 + room 4 title.now ≤ CAPACITY }
    ensures text { text.new ≡ text.old ++ style title.now }
    ensures most { length text.new ≤ length text.old + 1_690 + room 4 title.now }
{
    put_shared_style(text, title);
    text.put(alone_style());
}

/// Appends the style of a page with this title and with tricks.
#[tactic(auto, unfolding(crate::specs::Style::style_with_tricks))]
pub(crate) fn put_style_with_tricks(text: &mut TextBuffer, title: &[u8])
    requires { length text.old + 1_790 + room 4 title.now ≤ CAPACITY }
    ensures text { text.new ≡ text.old ++ style_with_tricks title.now }
    ensures most { length text.new ≤ length text.old + 1_790 + room 4 title.now }
{
    put_shared_style(text, title);
    text.put(table_style());
    text.put(beside_style());
}

/// Appends what the styles of pages with this title share.
#[tactic(auto, unfolding(crate::specs::Style::shared_style))]
fn put_shared_style(text: &mut TextBuffer, title: &[u8])
    requires { length text.old + 1_500 + room 4 title.now ≤ CAPACITY }
    ensures text { text.new ≡ text.old ++ shared_style title.now }
    ensures most { length text.new ≤ length text.old + 1_500 + room 4 title.now }
{
    text.put(page_style());
    text.put(board_style());
    text.put(vulnerable_style());
    text.put(hand_style());
    text.put(sign_style());
    put_title_style(text, title);
    text.put(number_style());
    text.put(first_style());
    text.put(paper_style());
}

/// Boards are side by side, as many as there is room for, below the heading.
#[tactic(auto, unfolding(crate::specs::Style::page_style))]
pub(crate) fn page_style() -> &'static [u8]
    ensures value { result.now ≡ page_style }
    ensures most { length result.now ≤ 301 }
{
    b"html{font:clamp(.8rem,4.2vw,1rem)/1.25 system-ui,sans-serif;color:#111;background:#fff}\n\
    body{margin:clamp(.4rem,2vw,1rem)}\n\
    main{display:grid;gap:1rem;\
    grid-template-columns:repeat(auto-fill,minmax(min(23rem,100%),1fr))}\n\
    h1,h2,h3,p{margin:0}\n\
    h1{grid-column:1/-1;font-size:1.5rem;overflow-wrap:anywhere}\n"
}

/// A board isn't part of two pages. Its middle is the table.
#[tactic(auto, unfolding(crate::specs::Style::board_style))]
fn board_style() -> &'static [u8]
    ensures value { result.now ≡ board_style }
    ensures most { length result.now ≤ 415 }
{
    b".board{display:grid;grid-template:auto auto auto/1fr auto 1fr;gap:.6rem;padding:.75rem;\
    border:1px solid #bbb;border-radius:.5rem;box-sizing:border-box;white-space:nowrap;\
    overflow:auto;break-inside:avoid}\n\
    h2{grid-area:2/2;place-self:center;min-width:4rem;padding:.7rem .3rem;font-size:1.25rem;\
    text-align:center;border:.1rem solid #2e7d4f;background:#e8f3ec;\
    print-color-adjust:exact}\n\
    p{grid-area:1/1;font-size:.9rem}\n"
}

/// The table's sides are red and thick where they are vulnerable.
#[tactic(auto, unfolding(crate::specs::Style::vulnerable_style))]
pub(crate) fn vulnerable_style() -> &'static [u8]
    ensures value { result.now ≡ vulnerable_style }
    ensures most { length result.now ≤ 89 }
{
    b".NS,.All{border-block:.35rem solid #c8102e}\n\
    .EW,.All{border-inline:.35rem solid #c8102e}\n"
}

/// The hands are around the table, each in its seat.
#[tactic(auto, unfolding(crate::specs::Style::hand_style))]
fn hand_style() -> &'static [u8]
    ensures value { result.now ≡ hand_style }
    ensures most { length result.now ≤ 188 }
{
    b".North{grid-area:1/2/2/4}\n\
    .East{grid-area:2/3;align-self:center}\n\
    .South{grid-area:3/2/4/4}\n\
    .West{grid-area:2/1;place-self:center end}\n\
    h3{font-size:.9rem}\n\
    small{font-weight:400;color:#555}\n"
}

/// The signs of the suits have room, with hearts and diamonds in red.
#[tactic(auto, unfolding(crate::specs::Style::sign_style))]
pub(crate) fn sign_style() -> &'static [u8]
    ensures value { result.now ≡ sign_style }
    ensures most { length result.now ≤ 113 }
{
    b"i,b{display:inline-block;width:1.2em;font-style:normal;font-weight:400;\
    font-variant-emoji:text}\n\
    b{color:#c8102e}\n"
}

/// On paper the title is at the top of each sheet.
#[tactic(auto, unfolding(crate::specs::Style::title_style))]
pub(crate) fn put_title_style(text: &mut TextBuffer, title: &[u8])
    requires { length text.old + 90 + room 4 title.now ≤ CAPACITY }
    ensures text { text.new ≡ text.old ++ title_style title.now }
    ensures most { length text.new ≤ length text.old + 90 + room 4 title.now }
{
    text.put(b"@page{margin:13mm 9mm 10mm;@top-left{content:\"");
    put_string(text, title);
    text.put(b"\";font:bold 9pt system-ui,sans-serif}");
}

/// And the number of the sheet is at the bottom of each.
#[tactic(auto, unfolding(crate::specs::Style::number_style))]
pub(crate) fn number_style() -> &'static [u8]
    ensures value { result.now ≡ number_style }
    ensures most { length result.now ≤ 87 }
{
    b"@bottom-right{content:counter(page) \"/\" counter(pages);\
    font:8pt system-ui,sans-serif}}\n"
}

/// But the first has the heading in place of the title.
#[tactic(auto, unfolding(crate::specs::Style::first_style))]
fn first_style() -> &'static [u8]
    ensures value { result.now ≡ first_style }
    ensures most { length result.now ≤ 35 }
{
    b"@page:first{@top-left{content:\"\"}}\n"
}

/// Appends the text as a string of CSS, of which no text ends the style or the string.
fn put_string(text: &mut TextBuffer, title: &[u8])
    requires { length text.old + room 4 title.now ≤ CAPACITY }
    ensures text { text.new ≡ text.old ++ css_string title.now }
    ensures most { length text.new ≤ length text.old + room 4 title.now }
{
    for byte in title {
        put_css_byte(text, *byte);
    }
}

/// Appends a byte of a string of CSS.
#[tactic(auto, unfolding(crate::specs::Style::css_byte))]
fn put_css_byte(text: &mut TextBuffer, byte: u8)
    requires { length text.old + room_of 4 byte ≤ CAPACITY }
    ensures text { text.new ≡ text.old ++ css_byte byte }
    ensures most { length text.new ≤ length text.old + room_of 4 byte }
{
    match byte {
        b'<' => text.put(b"\\3C "),
        b'"' => text.put(b"\\22 "),
        b'\\' => text.put(b"\\5C "),
        _ => text.put(&[byte]),
    }
}

/// On paper, A4 or Letter, two boards are side by side, eight on a sheet.
#[tactic(auto, unfolding(crate::specs::Style::paper_style))]
fn paper_style() -> &'static [u8]
    ensures value { result.now ≡ paper_style }
    ensures most { length result.now ≤ 178 }
{
    b"@media print{\n\
    html{font-size:8.5pt}\n\
    body{margin:0}\n\
    main{grid-template-columns:1fr 1fr;gap:3mm;padding-inline:1px}\n\
    .board{padding:.3rem .6rem;gap:.1rem .6rem}\n\
    h2{padding:.3rem}\n\
    }\n"
}

/// Numbers of tricks are below one another, in columns of one width, and par is broken between its
/// contracts.
#[tactic(auto, unfolding(crate::specs::Style::table_style))]
pub(crate) fn table_style() -> &'static [u8]
    ensures value { result.now ≡ table_style }
    ensures most { length result.now ≤ 200 }
{
    b"table{border-spacing:0;text-align:right}\n\
    th{font-weight:400;color:#555}\n\
    td,th{padding:0;width:1.7em}\n\
    table i,table b,.par i,.par b{width:auto}\n\
    .par{white-space:normal}\n\
    .par span{display:inline-block}\n"
}

/// They are on the left of the hands, below and above.
#[tactic(auto, unfolding(crate::specs::Style::beside_style))]
fn beside_style() -> &'static [u8]
    ensures value { result.now ≡ beside_style }
    ensures most { length result.now ≤ 82 }
{
    b"table{grid-area:3/1;place-self:end start;font-size:.8rem}\n\
    .par{padding-top:2.5em}\n"
}

/// A hand alone is large, and in the middle.
#[tactic(auto, unfolding(crate::specs::Style::alone_style))]
fn alone_style() -> &'static [u8]
    ensures value { result.now ≡ alone_style }
    ensures most { length result.now ≤ 190 }
{
    b".board:has(div:only-of-type) h2{grid-area:1/3;place-self:start end;padding:.2rem .5rem;\
    font-size:1rem}\n\
    .board:has(div:only-of-type) div{grid-area:2/1/4/4;place-self:center;font-size:1.6rem}\n"
}
