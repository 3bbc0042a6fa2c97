//! The formats that boards are written in.

ghost use Rattle.std.specs.Prelude.{◌≡◌};
ghost use Rattle.boards.specs.Formats.{numbers_boards};

use crate::words;
use crate::words::Words;

/// A notation, as it is asked for by its name.
#[derive(Clone, Copy)]
pub enum Format {
    /// Portable Bridge Notation.
    Pbn,
    /// Hand records for print.
    Hands,
    /// The notation of Bridge Base Online.
    Lin,
    /// One page of HTML, to look at and to print.
    Html,
    /// One page of HTML, eighteen boards on a sheet of paper.
    Sheet,
    /// One page of HTML, with a slip to be cut out for each hand.
    Slips,
    /// Lines of JSON, for programs.
    Json,
    /// The numbers of the candidates, which is what `find` prints.
    Numbers,
}

/// The formats that boards are asked for in.
pub const FORMATS: Words<Format> = words! {
    "pbn" => Format::Pbn,
    "hands" => Format::Hands,
    "lin" => Format::Lin,
    "html" => Format::Html,
    "sheet" => Format::Sheet,
    "slips" => Format::Slips,
    "json" => Format::Json
};

/// What help says of the option that takes one of them: its name, a value and a text, whose lines
/// have at most 53 columns.
pub const FORMAT_HELP: &str = "format html: How the boards are written: pbn for dealing machines
and bridge programs, hands for text to print, html
for a page to look at and print, sheet for 18 boards
on each page, slips for hands to be cut out, lin for
BBO, json for programs of your own [default: pbn]
[possible values: pbn, hands, lin, html, sheet,
slips, json]";

impl Format {
    /// Whether the boards have numbers of their own.
    pub(crate) fn numbers_boards(self) -> bool
        ensures { result ≡ numbers_boards self }
    {
        !matches!(self, Format::Numbers)
    }
}
