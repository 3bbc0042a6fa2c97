//! What is counted: options of the questions, and of their table.

ghost use Rattle.std.specs.Prelude.{◌≡◌, is_some, length, map, option_map};
ghost use Rattle.clap.specs.Words.{found_of, rows_of};
ghost use Rattle.command_line.specs.options.Questions.{has_by_alone, has_extra, of_texts};
ghost use Rattle.command_line.specs.options.Questions.{questions_from, questions_in, style_in};
ghost use Rattle.requests.specs.Requests.{questions_of};

use crate::given::{OptionWords, text_in};
use crate::helps::Section;
use crate::refusals::{COLUMNS_OF_SEVERAL, TOO_MANY};
use crate::rows::{OptionRow, Takes, optional};
use boards::STYLES;
use clap::ArgMatches;
use requests::{MAX_QUESTIONS, Questions, TableStyle, Texts};

pub(crate) const QUESTION_ROWS: &[OptionRow] = &[
    optional! { "of" Takes::Texts("TEXT") },
    optional! { "by" Takes::Text("TEXT") },
];

const COUNTED: &str = "What is counted";

pub(crate) const HELP: &[Section] = &[
    Section {
        of: "",
        heading: COUNTED,
        entries: "of 'hcp(south)': What is counted of each deal: a value, as
'hcp(south)', or a condition; up to eight times
[default: only how many deals there are]

by 'longest(south)': A second value or condition, for the columns of the
table [default: none]",
    },
    Section {
        of: "count",
        heading: COUNTED,
        entries: "format: How the table is written: table for people, csv for
spreadsheets, html for a page, json for programs
[default: table]
[possible values: table, csv, html, json]",
    },
];

/// The format of `count`.
pub(crate) static STYLE: OptionWords<TableStyle> = OptionWords {
    id: "format",
    words: STYLES,
};

/// How the table is written.
pub(crate) fn style_in(matches: &ArgMatches) -> TableStyle
    ensures { result ≡ style_in (rows_of (found_of matches.now)) }
{
    STYLE.given(matches).unwrap_or(TableStyle::Table)
}

/// What the options of questions were given.
pub(crate) fn questions_in<'a>(matches: &ArgMatches<'a>) -> Questions<'a>
    ensures { questions_of result ≡ questions_in (rows_of (found_of matches.now)) }
{
    match matches.get_strs("of") {
        Some(texts) => questions_from(texts, text_in(matches, "by")),
        None => Questions::None,
    }
}

/// The questions of these texts: one for the columns counts only beside a single other.
fn questions_from<'a>(texts: &[&'a str], by: Option<&'a str>) -> Questions<'a>
    ensures { questions_of result
        ≡ questions_from (map (λ t. t.now) texts.now) (option_map (λ t. t.now) by.entry) }
{
    if texts.is_empty() {
        return Questions::None;
    }
    if texts.len() > 1 {
        return Questions::Each(Texts::of(texts));
    }
    match by {
        None => Questions::One(texts[0]),
        Some(by) => Questions::Two { of: texts[0], by },
    }
}

/// How many texts the option of questions was given.
fn count_of(matches: &ArgMatches) -> usize
    ensures { result ≡ length (of_texts (rows_of (found_of matches.now))) }
{
    match matches.get_strs("of") {
        Some(texts) => texts.len(),
        None => 0,
    }
}

/// Why the questions can't be asked beside one another, if they can't.
pub(crate) fn extra_of(matches: &ArgMatches) -> Option<&'static str>
    ensures { is_some result ≡ has_extra (rows_of (found_of matches.now)) }
{
    let count = count_of(matches);
    if count > MAX_QUESTIONS {
        return Some(TOO_MANY);
    }
    if count > 1 && text_in(matches, "by").is_some() {
        return Some(COLUMNS_OF_SEVERAL);
    }
    None
}

/// Whether there is a question for the columns of a table, and none for its rows.
pub(crate) fn has_by_alone(matches: &ArgMatches) -> bool
    ensures { result ≡ has_by_alone (rows_of (found_of matches.now)) }
{
    text_in(matches, "by").is_some() && text_in(matches, "of").is_none()
}
