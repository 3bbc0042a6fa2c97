//! What is said beside the boards: options of notices, and the flag for help.

ghost use Rattle.std.specs.Prelude.{◌≡◌, codes, is_some};
ghost use Rattle.clap.specs.Words.{found_of, rows_of};
ghost use Rattle.command_line.specs.options.Notices.{has_unknown_time, notices_in, when_in};

use crate::given::{OptionWords, Unknown, is_set};
use crate::helps::Section;
use crate::rows::{OptionRow, Takes, optional};
use clap::ArgMatches;
use requests::{Notices, TIMES, When};

pub(crate) const REPORT_ROWS: &[OptionRow] = &[optional! { "report" Takes::Nothing }];

pub(crate) const PROGRESS_ROWS: &[OptionRow] = &[optional! { "progress" Takes::Word("WHEN") }];

pub(crate) const HINTS_ROWS: &[OptionRow] = &[optional! { "hints" Takes::Word("WHEN") }];

/// The flag for help, which each command has.
pub(crate) const HELP_ROWS: &[OptionRow] = &[optional! { 'h' "help" Takes::Help }];

const SAID: &str = "What is said";

const HELP_ENTRY: &str = "help: Print help";

pub(crate) const HELP: &[Section] = &[
    Section {
        of: "",
        heading: SAID,
        entries: "report: Says afterwards how many boards there are, and how
to go on with the next deals

progress always: When to show how far the search is; auto: on a
terminal [default: auto]
[possible values: auto, always, never]

hints always: When to say what helps, below a refusal and in notes
on a run; auto: on a terminal [default: auto]
[possible values: auto, always, never]",
    },
    Section {
        of: "",
        heading: "Options",
        entries: HELP_ENTRY,
    },
    Section {
        of: "make find count pick show",
        heading: SAID,
        entries: HELP_ENTRY,
    },
];

static PROGRESS: OptionWords<When> = OptionWords {
    id: "progress",
    words: TIMES,
};

static HINTS: OptionWords<When> = OptionWords {
    id: "hints",
    words: TIMES,
};

/// The first word given to one of these options that is none of its own.
pub(crate) fn unknown_in<'a>(matches: &ArgMatches<'a>) -> Option<Unknown<'a>>
    ensures { is_some result ≡ has_unknown_time (rows_of (found_of matches.now)) }
{
    PROGRESS.unknown(matches).or(HINTS.unknown(matches))
}

/// When hints are said, by the option.
pub(crate) fn hints_in(matches: &ArgMatches) -> When
    ensures { result ≡ when_in (codes "hints") (rows_of (found_of matches.now)) }
{
    HINTS.given(matches).unwrap_or(When::Auto)
}

/// What the options of notices were given, or their defaults.
pub(crate) fn notices_in(matches: &ArgMatches) -> Notices
    ensures { result ≡ notices_in (rows_of (found_of matches.now)) }
{
    Notices {
        report: is_set(matches, "report"),
        progress: PROGRESS.given(matches).unwrap_or(When::Auto),
        hints: hints_in(matches),
    }
}
