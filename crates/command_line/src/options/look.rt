//! How the boards look: options of their format, and of what is written of them.

ghost use Rattle.std.specs.Prelude.{◌≡◌, codes, is_some};
ghost use Rattle.clap.specs.Words.{found_of, rows_of};
ghost use Rattle.command_line.specs.internal.Readings.{MayGive64};
ghost use Rattle.command_line.specs.options.Look.{has_unknown_look, is_turned, look_in};
ghost use Rattle.command_line.specs.options.Look.{show_in, shown_look};
ghost use Rattle.requests.specs.Requests.{look_of};

use crate::given::{OptionWords, Unknown, is_set, text_in, u64_in};
use crate::helps::Section;
use crate::rows::{OptionRow, Takes, optional};
use boards::{FORMAT_HELP, FORMATS, SHOWS, Seats, Show, Vul, words};
use cards::Seat;
use clap::ArgMatches;
use requests::{Format, Look};

pub(crate) const FORMAT_ROWS: &[OptionRow] = &[optional! { 'f' "format" Takes::Word("FORMAT") }];

pub(crate) const SHOW_ROWS: &[OptionRow] = &[
    optional! { "show" Takes::Word("WHO") },
    optional! { "points" Takes::Word("WHETHER") },
];

pub(crate) const BOARD_ROWS: &[OptionRow] = &[
    optional! { "tricks" Takes::Nothing },
    optional! { "dealer" Takes::Word("SEAT") },
    optional! { "vulnerable" Takes::Word("SIDES") },
    optional! { "rotate" Takes::Nothing },
    optional! { "first-board" Takes::U64("B") },
];

pub(crate) const TEXT_ROWS: &[OptionRow] = &[
    optional! { "event" Takes::Text("TEXT") },
    optional! { "site" Takes::Text("TEXT") },
    optional! { "date" Takes::Text("DATE") },
];

const LOOK: &str = "How they look";

pub(crate) const HELP: &[Section] = &[
    Section {
        of: "",
        heading: LOOK,
        entries: FORMAT_HELP,
    },
    Section {
        of: "",
        heading: LOOK,
        entries: "show north: Which hands are written, for a page without the
answers; dealer: the dealer's alone [default: all]
[possible values: all, dealer, north, east, south,
west, ns, ew]

points hide: Whether hands, html and sheet have the number of
points of each hand [default: show]
[possible values: show, hide]

tricks: Writes what can be made on each board, as standard
input tells it: a line for each, from deals-tricks

dealer N: The dealer of every board [default: by the board's
number, as in duplicate bridge]
[possible values: N, E, S, W]

vulnerable NS: Who is vulnerable on every board [default: by the
board's number, as in duplicate bridge]
[possible values: None, NS, EW, All]

rotate: The dealer gets the hand that the condition calls
north, the next player east's, and so on

first-board 28: The number of the first board, 1 to 1099511627776;
give --first too to go on with new deals
[default: 1]

event 'Club night': The event, at most 100 characters, in pbn of ASCII
without \" and \\ [default: no line]

site 'Bridge club': The place, like the event [default: no line]

date 2024.05.01: The date, as 2024.05.01 [default: no line]",
    },
    Section {
        of: "pick",
        heading: LOOK,
        entries: "tricks: Writes what can be made on each board, as its line
tells it after the number; deals-tricks writes them

first-board: The number of the first board, 1 to 1099511627776
[default: 1]",
    },
    Section {
        of: "show",
        heading: LOOK,
        entries: "event: The event, at most 100 characters, in pbn of ASCII
without \" and \\ [default: that of the first board]

site: The place, like the event

date: The date, as 2024.05.01 [default: that of the first
board]",
    },
];

pub(crate) static FORMAT: OptionWords<Format> = OptionWords {
    id: "format",
    words: FORMATS,
};

static SHOW: OptionWords<Seats> = OptionWords {
    id: "show",
    words: SHOWS,
};

static POINTS: OptionWords<bool> = OptionWords {
    id: "points",
    words: words! { "show" => true, "hide" => false },
};

static DEALER: OptionWords<Seat> = OptionWords {
    id: "dealer",
    words: words! {
        "N" => Seat::North, "E" => Seat::East, "S" => Seat::South, "W" => Seat::West
    },
};

static VULNERABLE: OptionWords<Vul> = OptionWords {
    id: "vulnerable",
    words: words! {
        "None" => Vul::Neither, "NS" => Vul::NorthSouth, "EW" => Vul::EastWest, "All" => Vul::Both
    },
};

/// The first word given to one of these options that is none of its own; the format is looked at by
/// the subcommand.
pub(crate) fn unknown_in<'a>(matches: &ArgMatches<'a>) -> Option<Unknown<'a>>
    ensures { is_some result ≡ has_unknown_look (rows_of (found_of matches.now)) }
{
    SHOW.unknown(matches)
        .or(POINTS.unknown(matches))
        .or(DEALER.unknown(matches))
        .or(VULNERABLE.unknown(matches))
}

/// Whether deals are turned: where that is asked for, and those of a lesson too unless a dealer is
/// given.
fn is_turned(matches: &ArgMatches) -> bool
    ensures { result ≡ is_turned (rows_of (found_of matches.now)) }
{
    is_set(matches, "rotate")
        || (text_in(matches, "lesson").is_some() && text_in(matches, "dealer").is_none())
}

/// The hands that are written, and whether their points are.
fn show_in(matches: &ArgMatches) -> Show
    ensures { result ≡ show_in (rows_of (found_of matches.now)) }
{
    Show {
        seats: SHOW.given(matches).unwrap_or(Seats::All),
        points: POINTS.given(matches).unwrap_or(true),
    }
}

/// What the options of the boards' look were given, or their defaults.
pub(crate) fn look_in<'a>(matches: &ArgMatches<'a>) -> Look<'a>
    requires { MayGive64 (codes "first-board") (rows_of (found_of matches.now)) }
    ensures { look_of result ≡ look_in (rows_of (found_of matches.now)) }
{
    Look {
        format: FORMAT.given(matches).unwrap_or(Format::Pbn),
        show: show_in(matches),
        first_board: u64_in(matches, "first-board"),
        event: text_in(matches, "event"),
        site: text_in(matches, "site"),
        date: text_in(matches, "date"),
        dealer: DEALER.given(matches),
        vulnerable: VULNERABLE.given(matches),
        rotate: is_turned(matches),
    }
}

/// What the options of `show` were given, or their defaults.
pub(crate) fn shown_look<'a>(matches: &ArgMatches<'a>) -> Look<'a>
    ensures { look_of result ≡ shown_look (rows_of (found_of matches.now)) }
{
    Look {
        show: show_in(matches),
        event: text_in(matches, "event"),
        site: text_in(matches, "site"),
        date: text_in(matches, "date"),
        ..Look::plain(FORMAT.given(matches).unwrap_or(Format::Pbn))
    }
}
