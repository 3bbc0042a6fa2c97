//! From the words of a command line to a request.

ghost use Rattle.std.specs.Prelude.{◌≡◌, ◌∷◌, [], IfOk, List, codes, is_some, map};
ghost use Rattle.std.specs.Prelude.{string_bytes};
ghost use Rattle.clap.specs.Kinds.{HasKind};
ghost use Rattle.clap.specs.Walk.{Text};
ghost use Rattle.clap.specs.Words.{found_of, kind_of, rows_of};
ghost use Rattle.clap.specs.declared.error.kind.ErrorKind.{ErrorKind};
ghost use Rattle.command_line.specs.CommandLine.{asks_page, has_no_end, has_unknown};
ghost use Rattle.command_line.specs.CommandLine.{has_unknown_format, lacks_option, made_by};
ghost use Rattle.command_line.specs.Reading.{AreRead};
ghost use Rattle.command_line.specs.internal.Asking.{Asks, HasValues};
ghost use Rattle.command_line.specs.internal.Readings.{DealingValues, MayGive64};
ghost use Rattle.requests.specs.Requests.{search_of, wish_of};

use crate::given::{Unknown, is_set};
use crate::lesson_names::{lesson_in, no_lesson_in};
use crate::options::look::{look_in, shown_look};
use crate::options::notices::{hints_in, notices_in};
use crate::options::others::stream_request;
use crate::options::questions::{extra_of, has_by_alone, questions_in, style_in};
use crate::options::search::{bad_workers_in, search_in};
use crate::options::{look, notices, questions};
use crate::refusals::{
    NO_END, NO_QUESTION, conflicting_option, invalid_name, invalid_number, invalid_value,
    missing_option,
};
use crate::subcommands::{Dealing, Subcommand, command, subcommand_named};
use clap::{ArgMatches, Error};
use requests::{Request, Search};
use std::alloc::{AllocError, Global};

/// The format, if it is none of those of the subcommand.
fn unknown_format<'a>(subcommand: Subcommand, matches: &ArgMatches<'a>) -> Option<Unknown<'a>>
    ensures { is_some result ≡ has_unknown_format subcommand (rows_of (found_of matches.now)) }
{
    match subcommand {
        Subcommand::Deals(Dealing::Count) => questions::STYLE.unknown(matches),
        _ => look::FORMAT.unknown(matches),
    }
}

/// The first word that is none of its option's values.
fn unknown_in<'a>(subcommand: Subcommand, matches: &ArgMatches<'a>) -> Option<Unknown<'a>>
    ensures { is_some result ≡ has_unknown subcommand (rows_of (found_of matches.now)) }
{
    unknown_format(subcommand, matches)
        .or(look::unknown_in(matches))
        .or(notices::unknown_in(matches))
}

/// Whether neither a number of candidates nor a limit of boards was given, where one is needed.
fn has_no_end(dealing: Dealing, search: &Search<'_>) -> bool
    ensures { result ≡ has_no_end dealing (search_of search.now) }
{
    match dealing {
        Dealing::Pick => false,
        Dealing::Make | Dealing::Find | Dealing::Count => {
            search.candidates.is_none() && search.boards.is_none()
        }
    }
}

/// The options of which one is missing, as clap's refusal names them.
fn missing_of(dealing: Dealing, search: &Search<'_>, matches: &ArgMatches) -> Option<&'static str>
    ensures { is_some result
        ≡ lacks_option dealing (search_of search.now) (rows_of (found_of matches.now)) }
{
    if has_no_end(dealing, search) {
        return Some(NO_END);
    }
    if has_by_alone(matches) {
        return Some(NO_QUESTION);
    }
    None
}

/// What a subcommand asks for that deals candidates.
fn request_by<'a>(dealing: Dealing, search: Search<'a>, matches: &ArgMatches<'a>) -> Request<'a>
    requires { MayGive64 (codes "first-board") (rows_of (found_of matches.now)) }
    ensures { wish_of result
        ≡ made_by dealing (search_of search.entry) (rows_of (found_of matches.now)) }
{
    let notices = notices_in(matches);
    match dealing {
        Dealing::Make => Request::Make {
            search,
            look: look_in(matches),
            tricks: is_set(matches, "tricks"),
            notices,
        },
        Dealing::Find => {
            let search = search.with_long_lanes();
            Request::Find { search, notices }
        }
        Dealing::Count => Request::Count {
            search: search.with_long_lanes(),
            questions: questions_in(matches),
            style: style_in(matches),
            notices,
        },
        Dealing::Pick => {
            let Search { seed, hands, .. } = search;
            Request::Pick {
                seed,
                hands,
                look: look_in(matches),
                tricks: is_set(matches, "tricks"),
                hints: notices.hints,
            }
        }
    }
}

/// Whether the words ask for the page of the language by `help`.
fn asks_page(words: &[String]) -> bool
    ensures { result ≡ asks_page (map string_bytes words.now) }
{
    words.len() == 3 && words[1].as_str() == "help" && words[2].as_str() == "conditions"
}

/// What the words ask for, the program's name first.
///
/// # Errors
///
/// `Error`, with clap's text, if the words are refused, or ask for help or the version; for words
/// that make a request only if memory ran out.
pub fn read_words<'a>(alloc: Global, words: &'a [String]) -> Result<Request<'a>, Error>
    ensures { AreRead (map string_bytes words.entry.now) result }
{
    if asks_page(words) {
        return Ok(Request::Conditions);
    }
    let matches = command(alloc)?.try_get_matches_from(words)?;
    let (name, inner) = matches.subcommand().unwrap();
    request_of(alloc, subcommand_named(name).unwrap(), inner)
}

/// The refusal, or that memory ran out before its text was written.
fn or_out_of_memory(refusal: Result<Error, AllocError>) -> Error
    ensures { (kind : ErrorKind) → IfOk refusal (λ e. kind_of e ≡ kind)
        → HasKind (kind ∷ []) result }
{
    match refusal {
        Ok(error) => error,
        Err(error) => error.into(),
    }
}

/// What the words ask for that name `lessons` and give its value so.
fn lessons_request<'a>(alloc: Global, matches: &ArgMatches<'a>) -> Result<Request<'a>, Error>
    ensures { (words : List Text) → Asks words Subcommand.Lessons (rows_of (found_of matches.now))
        → AreRead words result }
{
    if let Some(word) = no_lesson_in(matches, "name") {
        return Err(or_out_of_memory(invalid_name(alloc, Subcommand::Lessons, "[NAME]", word)));
    }
    Ok(Request::Lessons(lesson_in(matches, "name")))
}

/// What the words ask for that name `show` and give its options these values.
fn show_request<'a>(alloc: Global, matches: &ArgMatches<'a>) -> Result<Request<'a>, Error>
    ensures { (words : List Text) → Asks words Subcommand.Show (rows_of (found_of matches.now))
        → AreRead words result }
{
    if let Some(unknown) = unknown_in(Subcommand::Show, matches) {
        return Err(or_out_of_memory(invalid_value(alloc, Subcommand::Show, &unknown)));
    }
    Ok(Request::Show {
        look: shown_look(matches),
        hints: hints_in(matches),
    })
}

/// What the words ask for that name a subcommand which deals candidates, and give its options these
/// values.
fn dealing_request<'a>(
    alloc: Global,
    dealing: Dealing,
    matches: &ArgMatches<'a>,
) -> Result<Request<'a>, Error>
    requires { DealingValues (rows_of (found_of matches.now)) }
    ensures { (words : List Text)
        → Asks words (Subcommand.Deals dealing) (rows_of (found_of matches.now))
        → AreRead words result }
{
    let subcommand = Subcommand::Deals(dealing);
    if let Some(unknown) = unknown_in(subcommand, matches) {
        return Err(or_out_of_memory(invalid_value(alloc, subcommand, &unknown)));
    }
    if let Some(word) = no_lesson_in(matches, "lesson") {
        return Err(or_out_of_memory(invalid_name(alloc, subcommand, "--lesson <NAME>", word)));
    }
    if let Some(word) = bad_workers_in(matches) {
        return Err(or_out_of_memory(invalid_number(alloc, subcommand, word)));
    }
    let search = search_in(matches);
    if let Some(options) = missing_of(dealing, &search, matches) {
        return Err(or_out_of_memory(missing_option(alloc, subcommand, options)));
    }
    if let Some(why) = extra_of(matches) {
        return Err(or_out_of_memory(conflicting_option(alloc, subcommand, why)));
    }
    Ok(request_by(dealing, search, matches))
}

/// What the words ask for that name this subcommand and give its options these values.
fn request_of<'a>(
    alloc: Global,
    subcommand: Subcommand,
    matches: &ArgMatches<'a>,
) -> Result<Request<'a>, Error>
    requires { HasValues subcommand (rows_of (found_of matches.now)) }
    ensures { (words : List Text) → Asks words subcommand (rows_of (found_of matches.now))
        → AreRead words result }
{
    match subcommand {
        Subcommand::Deals(dealing) => dealing_request(alloc, dealing, matches),
        Subcommand::Show => show_request(alloc, matches),
        Subcommand::Conditions => Ok(Request::Conditions),
        Subcommand::Lessons => lessons_request(alloc, matches),
        Subcommand::Seed => Ok(Request::Seed),
        Subcommand::Stream => Ok(Request::Stream(stream_request(matches))),
    }
}
