//! Options that are missing, that have no value, and that occur twice.

use crate::words::{instead, joined, valued};
use command_line::known_option;
use std::alloc::Global;

/// How to come to a seed for new boards: two hints.
const HOW_TO_SEED: &str = "  hint: for a lesson any number is a good seed: --seed 7
  hint: for a club draw one that nobody can guess: deals seed
";

/// What is perhaps so where a seed has no value.
const NO_SEED: &str = "a variable may be empty here: write the seed of your boards, as --seed 7";

/// How to come to a seed.
pub(crate) const TO_DRAW: &str = "; to draw one: deals seed";

const SEED_OF_SEARCH: &str =
    "write the seed of the search that found the numbers: deals pick --seed 7";

const FOR_ROWS: &str = "--by comes beside --of: --of 'hcp(south)' --by 'longest(south)'";

/// What helps where there are columns beside several questions.
pub(crate) const ONE_QUESTION: &str =
    "--by has columns for one --of: ask the others in a second run";

const EIGHT_QUESTIONS: &str = "ask the others in a second run";

const ONE_CONDITION: &str = "join conditions by and: --where 'hcp(north)>=15 and balanced(north)'";

const HOW_MANY_TRIED: &str = "--candidates 1000000 says how many deals are tried";

const HOW_MANY_NUMBERS: &str = "write --count 3 for three numbers";

pub(crate) const NO_COMMAND: &str =
    "write deals make --seed 7 --boards 36 for boards, or deals --help";

/// Options that may be missing, the command or all, and what helps there.
static ROWS: [(&str, &str, &str); 5] = [
    ("--seed", "pick", SEED_OF_SEARCH),
    ("--seed", "", HOW_TO_SEED),
    ("--candidates", "count", HOW_MANY_TRIED),
    ("--of", "", FOR_ROWS),
    ("--count", "", HOW_MANY_NUMBERS),
];

/// What helps where these options are missing.
pub(crate) fn of_options(command: &str, missing: &str) -> Option<&'static str> {
    for (option, asked, text) in &ROWS {
        if missing.contains(*option) && (asked.is_empty() || *asked == command) {
            return Some(*text);
        }
    }
    if missing.contains("--candidates") {
        return instead::of_option("--count");
    }
    None
}

/// What helps where this option has no value.
pub(crate) fn of_value(alloc: Global, option: &str) -> Option<String> {
    if option == "--seed" {
        return joined(alloc, &[NO_SEED, TO_DRAW]);
    }
    let sample = known_option(option)?.sample;
    valued(alloc, "write its value after it: ", option, sample, "")
}

/// What helps where this option occurs too often.
pub(crate) fn of_repeat(alloc: Global, option: &str) -> Option<String> {
    match option {
        "--where" => joined(alloc, &[ONE_CONDITION]),
        "--of" => joined(alloc, &[EIGHT_QUESTIONS]),
        _ => joined(alloc, &["write ", option, " once"]),
    }
}
