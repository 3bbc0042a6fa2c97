//! Names of lessons among the words, and those that are nearest to a name that no lesson has.
//!
//! clap knows a name as a text. One that no lesson has is refused as clap refuses a value.

ghost use Rattle.std.specs.Prelude.{◌≡◌, is_some, option_map};
ghost use Rattle.clap.specs.Words.{found_of, rows_of};
ghost use Rattle.command_line.specs.options.Search.{is_no_lesson, lesson_in};
ghost use Rattle.requests.specs.Lessons.{lesson_of};

use crate::given::text_in;
use clap::ArgMatches;
use requests::lessons::{Lesson, name_at, named};
use std::alloc::{AllocError, Global};
use strsim::osa_distance;

/// The shortest name in which two letters may differ, and the shortest part that says a name.
const LONG: usize = 6;

const PART: usize = 3;

/// The most names that are told.
const MOST: usize = 3;

/// The lesson whose name was given, if there is one.
pub fn lesson_in(matches: &ArgMatches, id: &str) -> Option<Lesson>
    ensures { option_map lesson_of result
        ≡ lesson_in id.now (rows_of (found_of matches.now)) }
{
    match text_in(matches, id) {
        Some(name) => named(name),
        None => None,
    }
}

/// The name that was given, if no lesson has it.
pub fn no_lesson_in<'a>(matches: &ArgMatches<'a>, id: &str) -> Option<&'a str>
    ensures { is_some result ≡ is_no_lesson id.now (rows_of (found_of matches.now)) }
{
    match text_in(matches, id) {
        Some(name) if named(name).is_none() => Some(name),
        _ => None,
    }
}

/// Whether the name is near to what was tried: one has the other as a part, or few letters differ.
fn is_near(alloc: Global, tried: &str, name: &str) -> Result<bool, AllocError> {
    let is_part = tried.len() >= PART && (name.contains(tried) || tried.contains(name));
    let most = if tried.len() < LONG { 1 } else { 2 };
    Ok(is_part || osa_distance(alloc, tried, name)? <= most)
}

/// Returns what helps with a name that no lesson has: the nearest names, or where the names are.
///
/// # Errors
/// `AllocError` if an allocation failed.
pub fn tip(alloc: Global, tried: &str) -> Result<String, AllocError> {
    let mut tip = String::new(alloc);
    let mut told: usize = 0;
    for index in 0..usize::MAX {
        let Some(name) = name_at(index) else {
            break;
        };
        if told == MOST || !is_near(alloc, tried, name)? {
            continue;
        }
        tip.push_str(if told == 0 { "similar names: '" } else { ", '" })?;
        tip.push_str(name)?;
        tip.push('\'')?;
        told = told.saturating_add(1);
    }
    if told == 0 {
        tip.push_str("deals lessons prints the names")?;
    }
    Ok(tip)
}
