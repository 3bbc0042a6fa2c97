//! Which deals are tried and accepted: options of a search, and of its speed.

ghost use Rattle.std.specs.Prelude.{◌≡◌, is_some, option_map};
ghost use Rattle.clap.specs.Words.{found_of, rows_of};
ghost use Rattle.command_line.specs.internal.Readings.{SearchValues};
ghost use Rattle.command_line.specs.options.Search.{has_bad_workers, hands_in, number32};
ghost use Rattle.command_line.specs.options.Search.{search_in, workers_in, workers_meant};
ghost use Rattle.requests.specs.Lessons.{lesson_of};
ghost use Rattle.requests.specs.PredealtHands.{given_by};
ghost use Rattle.requests.specs.Requests.{search_of};

use crate::given::{text_in, u32_in, u64_in};
use crate::helps::Section;
use crate::lesson_names::lesson_in;
use crate::rows::{OptionRow, Takes, optional, required};
use cards::MAX_CAPACITY;
use clap::ArgMatches;
use requests::lessons::Lesson;
use requests::{PredealtHands, Search, Workers};

pub(crate) const SEED_ROWS: &[OptionRow] = &[required! { 's' "seed" Takes::U32("S", u32::MAX) }];

pub(crate) const SEARCH_ROWS: &[OptionRow] = &[
    optional! { "lesson" Takes::Word("NAME") },
    optional! { 'w' "where" Takes::Text("TEXT") },
    optional! { "let" Takes::Text("TEXT") },
    optional! { 'n' "boards" Takes::U32("M", u32::MAX) },
    optional! { "candidates" Takes::U64("N") },
    optional! { "first" Takes::U64("K") },
];

pub(crate) const HAND_ROWS: &[OptionRow] = &[
    optional! { "north" Takes::Text("HAND") },
    optional! { "east" Takes::Text("HAND") },
    optional! { "south" Takes::Text("HAND") },
    optional! { "west" Takes::Text("HAND") },
];

pub(crate) const SPEED_ROWS: &[OptionRow] = &[
    optional! { "workers" Takes::Workers("W") },
    optional! { "lane" Takes::U32("C", MAX_CAPACITY) },
];

const WHICH: &str = "Which deals";

pub(crate) const HELP: &[Section] = &[
    Section {
        of: "",
        heading: WHICH,
        entries: "seed 7: A number from 0 to 4294967295: the same one gives the
same deals again. Any number will do for a lesson;
for a club draw one by deals seed

lesson stayman: Deals a lesson, as stayman; deals lessons prints their
names. Each deal is turned, as with --rotate, unless
--dealer is given [default: none]

where 'hcp(north)>=15': What each deal has to meet, in quotes, as
'hcp(north)>=15'; deals help conditions explains it
[default: every deal]

let 'let fit is (len(north,spades)+len(south,spades))': \
Names that conditions and questions may use, as
'let fit(suit) is (len(north,suit)+len(south,suit))'
[default: none]

boards 36: How many boards, 1 to 4294967295; fewer come if no more
of the deals that are tried match [default: no limit]

candidates 100000: How many deals are tried, with --first together at most
1099511627776 [default: all, if --boards is given]

first 36: Where to begin: at deal K, to go on after an earlier
run [default: 0]

north AKQ32.K..A: Cards that North gets, as AKQ32.K..A: spades, hearts,
diamonds and clubs, with dots between; the rest is
dealt [default: none]

east AKQ32.K..A: Cards that East gets, in the same form [default: none]

south AKQ32.K..A: Cards that South gets, in the same form [default: none]

west AKQ32.K..A: Cards that West gets, in the same form [default: none]",
    },
    Section {
        of: "find count",
        heading: WHICH,
        entries: "lesson: The deals of a lesson, as stayman; deals lessons prints
their names [default: none]",
    },
    Section {
        of: "pick",
        heading: WHICH,
        entries: "seed: The seed of the search that found the numbers, 0 to
4294967295",
    },
    Section {
        of: "",
        heading: "Speed",
        entries: "workers 3: How many threads search, 1 to 16; auto: as many as
suit this computer [default: 1]

lane 4096: How far a worker may search ahead, 1 to 4096 deals
[default: 64, and 4096 in find and count and with
--workers auto]",
    },
];

/// The number of 32 bits that a text writes in digits.
fn number32(text: &str) -> Option<u32>
    ensures { result ≡ number32 text.now }
{
    text.parse().ok()
}

/// What a text of `--workers` means, if it means anything: a number, or `auto`. clap knows it as a
/// text, since it knows no parser for a number or a word; one that means nothing is refused as
/// clap refuses a number.
fn workers_meant(text: &str) -> Option<Workers>
    ensures { result ≡ workers_meant text.now }
{
    if text == "auto" {
        return Some(Workers::Auto);
    }
    Some(Workers::Number(number32(text)?))
}

/// How many workers were asked for, one if the option wasn't given.
fn workers_in(matches: &ArgMatches) -> Workers
    ensures { result ≡ workers_in (rows_of (found_of matches.now)) }
{
    match text_in(matches, "workers") {
        Some(text) => workers_meant(text).unwrap_or(Workers::Number(1)),
        None => Workers::Number(1),
    }
}

/// The text that was given, if it means nothing.
pub(crate) fn bad_workers_in<'a>(matches: &ArgMatches<'a>) -> Option<&'a str>
    ensures { is_some result ≡ has_bad_workers (rows_of (found_of matches.now)) }
{
    match text_in(matches, "workers") {
        Some(text) if workers_meant(text).is_none() => Some(text),
        _ => None,
    }
}

/// Why the text isn't a number of 32 bits, as std's parse says it.
pub(crate) fn why_no_number(text: &str) -> &'static str {
    if text.is_empty() {
        return "cannot parse integer from empty string";
    }
    let digits = text.strip_prefix('+').unwrap_or(text);
    if digits.is_empty() || !digits.bytes().all(|byte| byte.is_ascii_digit()) {
        return "invalid digit found in string";
    }
    "number too large to fit in target type"
}

/// The texts of hands that the options were given.
fn hands_in<'a>(matches: &ArgMatches<'a>) -> PredealtHands<'a>
    ensures { given_by result ≡ hands_in (rows_of (found_of matches.now)) }
{
    PredealtHands {
        north: text_in(matches, "north"),
        east: text_in(matches, "east"),
        south: text_in(matches, "south"),
        west: text_in(matches, "west"),
    }
}

/// The text of the lesson's condition.
fn condition_of(lesson: Option<Lesson>) -> Option<&'static str>
    ensures { option_map (λ t. t.now) result
        ≡ option_map (λ l. l.condition) (option_map lesson_of lesson) }
{
    match lesson {
        Some(lesson) => Some(lesson.condition),
        None => None,
    }
}

/// What the options of a search were given, or their defaults.
pub(crate) fn search_in<'a>(matches: &ArgMatches<'a>) -> Search<'a>
    requires { SearchValues (rows_of (found_of matches.now)) }
    ensures { search_of result ≡ search_in (rows_of (found_of matches.now)) }
{
    Search {
        seed: u32_in(matches, "seed").unwrap(),
        candidates: u64_in(matches, "candidates"),
        first: u64_in(matches, "first").unwrap_or(0),
        workers: workers_in(matches),
        lane: u32_in(matches, "lane"),
        lesson: condition_of(lesson_in(matches, "lesson")),
        let_text: text_in(matches, "let"),
        where_text: text_in(matches, "where"),
        boards: u32_in(matches, "boards"),
        hands: hands_in(matches),
    }
}
