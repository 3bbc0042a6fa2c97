//! Options of subcommands that deal nothing.

ghost use Rattle.std.specs.Prelude.{◌≡◌, codes};
ghost use Rattle.clap.specs.Words.{found_of, rows_of};
ghost use Rattle.command_line.specs.Given.{number_or};
ghost use Rattle.command_line.specs.internal.Readings.{StreamValues};

use crate::given::{u32_in, u64_in};
use crate::helps::Section;
use crate::rows::{OptionRow, Takes, optional, required};
use clap::ArgMatches;
use requests::StreamRequest;

/// The name of a lesson.
pub(crate) const NAME_ROWS: &[OptionRow] = &[optional! { "name" Takes::Value("NAME") }];

/// How many values.
pub(crate) const COUNT_ROWS: &[OptionRow] = &[required! { "count" Takes::Count("N") }];

const OPTIONS: &str = "Options";

pub(crate) const HELP: &[Section] = &[
    Section {
        of: "stream",
        heading: OPTIONS,
        entries: "seed: The seed, 0 to 4294967295

count 3: How many numbers, 0 to 1099511627776",
    },
    Section {
        of: "lessons",
        heading: OPTIONS,
        entries: "name: The lesson to tell of: what it shows, its condition, and a
command [default: the names of all]",
    },
];

/// What the options of `stream` were given.
pub(crate) fn stream_request(matches: &ArgMatches) -> StreamRequest
    requires { StreamValues (rows_of (found_of matches.now)) }
    ensures seed { result.seed ≡ number_or 0 (codes "seed") (rows_of (found_of matches.now)) }
    ensures count { result.count ≡ number_or 0 (codes "count") (rows_of (found_of matches.now)) }
{
    StreamRequest {
        seed: u32_in(matches, "seed").unwrap(),
        count: u64_in(matches, "count").unwrap(),
    }
}
