//! Options as rows of tables, and `clap`'s rules of them.

ghost use Rattle.std.specs.Prelude.{◌≡◌, IfOk, false, fold, map};
ghost use Rattle.clap.specs.Words.{app_of, rule_of, with_rule};
ghost use Rattle.clap.specs.declared.Command.TheViews.{out-Command as fields_of};
ghost use Rattle.command_line.specs.Rules.{asking_rule, flag_rule, option_rule, value_rule};
ghost use Rattle.command_line.specs.internal.Rows.{rule_for, taking};

use crate::helps::help_of;
use cards::MAX_CANDIDATES;
use clap::builder::ValueParser;
use clap::{Arg, ArgAction, Command, value_parser};
use std::alloc::{AllocError, Global};

/// The most values that `stream` prints: the same as the most candidates of a seed.
const MAX_VALUES: i64 = MAX_CANDIDATES as i64;

/// What an option takes, with the name that the help gives to its value.
pub(crate) enum Takes {
    /// A flag, which takes none.
    Nothing,
    /// clap's flag for help, which takes none either.
    Help,
    Text(&'static str),
    /// A text, and another each time that it is given again.
    Texts(&'static str),
    /// One of a few words, which is a text to `clap`.
    Word(&'static str),
    /// A number of workers, or `auto`: a text to `clap`.
    Workers(&'static str),
    /// A value on its own, without the option's name.
    Value(&'static str),
    /// A number, of which this is the greatest that isn't refused.
    U32(&'static str, u32),
    /// A number up to 2^40.
    U64(&'static str),
    /// A number up to 2^40; `clap` refuses any other.
    Count(&'static str),
}

/// An option `--id`. What help says of it is beside its row, and not in it: with the texts a table
/// would be too large for the prover, which computes the whole of it.
pub(crate) struct OptionRow {
    pub(crate) id: &'static str,
    /// The letter of `-s`, where it has one.
    pub(crate) short: Option<char>,
    pub(crate) takes: Takes,
    pub(crate) is_required: bool,
}

/// An option `--id NAME`.
fn option<'a>(alloc: Global, id: &'a str, parser: ValueParser<'a>, name: &'a str) -> Arg<'a>
    ensures rule { rule_of result ≡ option_rule id.entry.now parser.entry }
    ensures local { result.global ≡ false }
{
    Arg::new(alloc, id)
        .long(id)
        .value_parser(parser)
        .value_name(name)
}

/// A value on its own, without `--id`.
fn value<'a>(alloc: Global, id: &'a str, name: &'a str) -> Arg<'a>
    ensures rule { rule_of result ≡ value_rule id.entry.now }
    ensures local { result.global ≡ false }
{
    Arg::new(alloc, id)
        .value_parser(ValueParser::String)
        .value_name(name)
}

/// The flag `--help`.
fn help_flag<'a>(alloc: Global, id: &'a str) -> Arg<'a>
    ensures rule { rule_of result ≡ asking_rule id.entry.now }
    ensures local { result.global ≡ false }
{
    Arg::new(alloc, id).long(id).action(ArgAction::Help)
}

/// A flag `--id`.
fn flag<'a>(alloc: Global, id: &'a str) -> Arg<'a>
    ensures rule { rule_of result ≡ flag_rule id.entry.now }
    ensures local { result.global ≡ false }
{
    Arg::new(alloc, id).long(id).action(ArgAction::SetTrue)
}

/// The option or flag of this id.
fn taking<'a>(alloc: Global, takes: &Takes, id: &'static str) -> Arg<'a>
    ensures rule { rule_of result ≡ taking takes.now id.now }
    ensures local { result.global ≡ false }
{
    let (parser, name) = match *takes {
        Takes::Nothing => return flag(alloc, id),
        Takes::Help => return help_flag(alloc, id),
        Takes::Text(name) | Takes::Word(name) | Takes::Workers(name) => {
            (ValueParser::String, name)
        }
        Takes::Texts(name) => {
            return option(alloc, id, ValueParser::String, name).action(ArgAction::Append);
        }
        Takes::Value(name) => return value(alloc, id, name),
        Takes::U32(name, _) => (value_parser!(u32), name),
        Takes::U64(name) => (value_parser!(u64), name),
        Takes::Count(name) => (value_parser!(u64).range(..=MAX_VALUES), name),
    };
    option(alloc, id, parser, name)
}

/// The row as `clap` has it, in the subcommand of this name.
fn arg_of<'a>(alloc: Global, name: &str, row: &OptionRow) -> Arg<'a>
    ensures rule { rule_of result ≡ rule_for row.entry.now }
    ensures local { result.global ≡ false }
{
    let (heading, text) = help_of(name, row.id);
    let arg = taking(alloc, &row.takes, row.id)
        .required(row.is_required)
        .help_heading(heading)
        .help(text);
    match row.short {
        Some(letter) => arg.short(letter),
        None => arg,
    }
}

/// The command with one more option.
fn with_option<'a>(command: Command<'a>, arg: Arg<'a>) -> Result<Command<'a>, AllocError>
    requires { arg.global ≡ false }
    ensures app { IfOk result (λ c. app_of c
        ≡ with_rule (app_of command.entry) (rule_of arg.entry)) }
    ensures local { IfOk result (λ c. (fields_of c).has_globals
        ≡ (fields_of command.entry).has_globals) }
{
    command.arg(arg)
}

/// The command of this name with an option for each row.
fn with_rows<'a>(
    alloc: Global,
    name: &str,
    command: Command<'a>,
    rows: &[OptionRow],
) -> Result<Command<'a>, AllocError>
    ensures app { IfOk result (λ c. app_of c
        ≡ fold with_rule (app_of command.entry) (map rule_for rows.entry.now)) }
    ensures local { IfOk result (λ c. (fields_of c).has_globals
        ≡ (fields_of command.entry).has_globals) }
{
    let mut command = command;
    for row in rows {
        command = with_option(command, arg_of(alloc, name, row))?;
    }
    Ok(command)
}

/// The command of this name with an option for each row of these groups.
pub(crate) fn with_groups<'a>(
    alloc: Global,
    name: &str,
    command: Command<'a>,
    groups: &[&[OptionRow]],
) -> Result<Command<'a>, AllocError>
    ensures app { IfOk result (λ c. app_of c
        ≡ fold (fold with_rule) (app_of command.entry)
        (map (λ rows. map rule_for rows.now) groups.entry.now)) }
    ensures local { IfOk result (λ c. (fields_of c).has_globals
        ≡ (fields_of command.entry).has_globals) }
{
    let mut command = command;
    for rows in groups {
        command = with_rows(alloc, name, command, rows)?;
    }
    Ok(command)
}

/// An option by its id, and what it takes.
macro_rules! optional {
    ($id:literal $takes:expr) => {
        OptionRow {
            id: $id,
            short: None,
            takes: $takes,
            is_required: false,
        }
    };
    ($letter:literal $id:literal $takes:expr) => {
        OptionRow {
            id: $id,
            short: Some($letter),
            takes: $takes,
            is_required: false,
        }
    };
}

pub(crate) use optional;

/// An option that has to be given.
macro_rules! required {
    ($id:literal $takes:expr) => {
        OptionRow {
            id: $id,
            short: None,
            takes: $takes,
            is_required: true,
        }
    };
    ($letter:literal $id:literal $takes:expr) => {
        OptionRow {
            id: $id,
            short: Some($letter),
            takes: $takes,
            is_required: true,
        }
    };
}

pub(crate) use required;
