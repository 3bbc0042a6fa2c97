//! How the page looks, in CSS.

ghost use Rattle.std.specs.Prelude.{◌≡◌, ◌≤◌, ◌+◌, ◌++◌, length};
ghost use Rattle.boards.specs.declared.buffer.TheConstants.{CAPACITY};
ghost use Rattle.statistics.specs.PageStyle.{chart_style, paper_style, style, table_style};
ghost use Rattle.statistics.specs.PageStyle.{text_style};

use boards::TextBuffer;

/// Appends the style.
#[tactic(auto, unfolding(crate::specs::PageStyle::style))]
pub(crate) fn put_style(text: &mut TextBuffer)
    requires { length text.old + 1400 ≤ CAPACITY }
    ensures text { text.new ≡ text.old ++ style }
    ensures most { length text.new ≤ length text.old + 1400 }
{
    text.put(text_style());
    text.put(table_style());
    text.put(chart_style());
    text.put(paper_style());
}

/// The heading, and lines of text.
#[tactic(auto, unfolding(crate::specs::PageStyle::text_style))]
fn text_style() -> &'static [u8]
    ensures value { result.now ≡ text_style }
    ensures most { length result.now ≤ 300 }
{
    b"html{font:1rem/1.4 system-ui,sans-serif;color:#111;background:#fff}\n\
    body{margin:1rem}\n\
    main{max-width:60rem;margin:0 auto}\n\
    h1{margin:0;font-size:1.5rem;overflow-wrap:anywhere}\n\
    p{margin:.5rem 0}\n"
}

/// Numbers are set right; a wide table is moved in its own place.
#[tactic(auto, unfolding(crate::specs::PageStyle::table_style))]
fn table_style() -> &'static [u8]
    ensures value { result.now ≡ table_style }
    ensures most { length result.now ≤ 400 }
{
    b"div{overflow-x:auto}\n\
    table{border-collapse:collapse;font-variant-numeric:tabular-nums}\n\
    th,td{padding:.15rem .6rem;text-align:right;font-weight:400;white-space:nowrap}\n\
    thead{border-bottom:1px solid #999}\n\
    tfoot{border-top:1px solid #999}\n\
    .all{border-left:1px solid #999}\n"
}

/// Bars, and the shades of cells.
#[tactic(auto, unfolding(crate::specs::PageStyle::chart_style))]
fn chart_style() -> &'static [u8]
    ensures value { result.now ≡ chart_style }
    ensures most { length result.now ≤ 400 }
{
    b".bars{width:100%}\n\
    .bar{width:100%;padding-right:0}\n\
    i{display:block;height:1rem;min-width:2px;background:#2e7d4f}\n\
    .cells tbody td{background:rgba(46,125,79,calc(var(--share,0)*.7))}\n\
    i,td{print-color-adjust:exact;-webkit-print-color-adjust:exact}\n"
}

/// On paper.
#[tactic(auto, unfolding(crate::specs::PageStyle::paper_style))]
fn paper_style() -> &'static [u8]
    ensures value { result.now ≡ paper_style }
    ensures most { length result.now ≤ 100 }
{
    b"@page{margin:10mm}\n\
    @media print{\n\
    html{font-size:9pt}\n\
    body{margin:0}\n\
    }\n"
}
