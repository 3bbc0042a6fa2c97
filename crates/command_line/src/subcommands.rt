//! The subcommands, as a table in the order of the help, and `clap`'s command of them.

ghost use Rattle.std.specs.Prelude.{◌≡◌, IfOk, false, fold, map};
ghost use Rattle.clap.specs.Words.{app_of, with_subcommand};
ghost use Rattle.clap.specs.declared.Command.TheViews.{out-Command as fields_of};
ghost use Rattle.command_line.specs.Given.{meant_by};
ghost use Rattle.command_line.specs.CommandLine.{names, subcommand_named};
ghost use Rattle.command_line.specs.Commands.{deals, deals_top, subcommands};
ghost use Rattle.command_line.specs.internal.Rows.{app_for, top_for};

use crate::helps::{about_of, examples_of};
use crate::options::look::{BOARD_ROWS, FORMAT_ROWS, SHOW_ROWS, TEXT_ROWS};
use crate::options::notices::{HELP_ROWS, HINTS_ROWS, PROGRESS_ROWS, REPORT_ROWS};
use crate::options::others::{COUNT_ROWS, NAME_ROWS};
use crate::options::questions::QUESTION_ROWS;
use crate::options::search::{HAND_ROWS, SEARCH_ROWS, SEED_ROWS, SPEED_ROWS};
use crate::rows::{OptionRow, with_groups};
use crate::texts::{ABOUT, PROGRAM_EXAMPLES};
use clap::Command;
use std::alloc::{AllocError, Global};

/// A subcommand that deals candidates.
#[derive(Clone, Copy, PartialEq, Eq)]
pub enum Dealing {
    Make,
    Find,
    Count,
    Pick,
}

/// A subcommand.
#[derive(Clone, Copy, PartialEq, Eq)]
pub enum Subcommand {
    Deals(Dealing),
    Show,
    Conditions,
    Lessons,
    Seed,
    Stream,
}

/// How a subcommand is called. What help says of it is in `helps`.
pub(crate) struct SubcommandRow {
    pub(crate) subcommand: Subcommand,
    pub(crate) name: &'static str,
    /// The program's name and its own, as `clap` names it in a refusal.
    in_full: &'static str,
    /// Its options, in the order of the help: which deals, how they look, speed, and what is said.
    pub(crate) groups: &'static [&'static [OptionRow]],
}

static SUBCOMMANDS: [SubcommandRow; 9] = [
    SubcommandRow {
        subcommand: Subcommand::Deals(Dealing::Make),
        name: "make",
        in_full: "deals make",
        groups: &[
            SEED_ROWS,
            SEARCH_ROWS,
            HAND_ROWS,
            FORMAT_ROWS,
            SHOW_ROWS,
            BOARD_ROWS,
            TEXT_ROWS,
            SPEED_ROWS,
            REPORT_ROWS,
            PROGRESS_ROWS,
            HINTS_ROWS,
            HELP_ROWS,
        ],
    },
    SubcommandRow {
        subcommand: Subcommand::Deals(Dealing::Find),
        name: "find",
        in_full: "deals find",
        groups: &[
            SEED_ROWS,
            SEARCH_ROWS,
            HAND_ROWS,
            SPEED_ROWS,
            REPORT_ROWS,
            PROGRESS_ROWS,
            HINTS_ROWS,
            HELP_ROWS,
        ],
    },
    SubcommandRow {
        subcommand: Subcommand::Deals(Dealing::Count),
        name: "count",
        in_full: "deals count",
        groups: &[
            SEED_ROWS,
            SEARCH_ROWS,
            HAND_ROWS,
            QUESTION_ROWS,
            FORMAT_ROWS,
            SPEED_ROWS,
            PROGRESS_ROWS,
            HINTS_ROWS,
            HELP_ROWS,
        ],
    },
    SubcommandRow {
        subcommand: Subcommand::Deals(Dealing::Pick),
        name: "pick",
        in_full: "deals pick",
        groups: &[
            SEED_ROWS,
            HAND_ROWS,
            FORMAT_ROWS,
            SHOW_ROWS,
            BOARD_ROWS,
            TEXT_ROWS,
            HINTS_ROWS,
            HELP_ROWS,
        ],
    },
    SubcommandRow {
        subcommand: Subcommand::Show,
        name: "show",
        in_full: "deals show",
        groups: &[FORMAT_ROWS, SHOW_ROWS, TEXT_ROWS, HINTS_ROWS, HELP_ROWS],
    },
    SubcommandRow {
        subcommand: Subcommand::Conditions,
        name: "conditions",
        in_full: "deals conditions",
        groups: &[HELP_ROWS],
    },
    SubcommandRow {
        subcommand: Subcommand::Lessons,
        name: "lessons",
        in_full: "deals lessons",
        groups: &[NAME_ROWS, HELP_ROWS],
    },
    SubcommandRow {
        subcommand: Subcommand::Seed,
        name: "seed",
        in_full: "deals seed",
        groups: &[HELP_ROWS],
    },
    SubcommandRow {
        subcommand: Subcommand::Stream,
        name: "stream",
        in_full: "deals stream",
        groups: &[SEED_ROWS, COUNT_ROWS, HELP_ROWS],
    },
];

/// The subcommands: one function alone names the table, since a proof reads all of it.
pub(crate) fn subcommands() -> &'static [SubcommandRow; 9]
    ensures made { map top_for result.now ≡ map (λ p. p.1.top) subcommands }
    ensures named { map (λ row. (row.name.now, row.subcommand)) result.now ≡ names }
{
    &SUBCOMMANDS
}

/// The subcommand of this name among these rows.
fn named_in(mut rows: &[SubcommandRow], name: &str) -> Option<Subcommand>
    ensures { result
        ≡ meant_by (map (λ row. (row.name.now, row.subcommand)) rows.entry.now) name.now }
{
    while let [row, rest @ ..] = rows {
        if name == row.name {
            return Some(row.subcommand);
        }
        rows = rest;
    }
    None
}

/// The subcommand of this name.
pub(crate) fn subcommand_named(name: &str) -> Option<Subcommand>
    ensures { result ≡ subcommand_named name.now }
{
    named_in(subcommands(), name)
}

/// The subcommand as `clap` has it. Its flag for help is a row, so that it is with others in the
/// help, and not before them.
fn command_of<'a>(alloc: Global, row: &SubcommandRow) -> Result<Command<'a>, AllocError>
    ensures app { IfOk result (λ c. app_of c ≡ app_for row.now) }
    ensures local { IfOk result (λ c. (fields_of c).has_globals ≡ false) }
{
    let command = Command::new(alloc, row.name)
        .disable_help_flag(true)
        .about(about_of(row.name))
        .after_help(examples_of(row.name));
    with_groups(alloc, row.name, command, row.groups)
}

/// The subcommand by itself, as `clap` names it in a refusal.
///
/// # Errors
/// `AllocError` if an allocation failed.
pub fn command_alone<'a>(alloc: Global, subcommand: Subcommand) -> Result<Command<'a>, AllocError> {
    match subcommands()
        .iter()
        .find(|row| row.subcommand == subcommand)
    {
        Some(row) => command_of(alloc, row)?.bin_name(row.in_full),
        None => top(alloc),
    }
}

/// The command `deals` without subcommands. Its texts call it so, whatever its file is called.
///
/// # Errors
/// `AllocError` if an allocation failed.
fn top<'a>(alloc: Global) -> Result<Command<'a>, AllocError>
    ensures app { IfOk result (λ c. app_of c ≡ deals_top) }
    ensures local { IfOk result (λ c. (fields_of c).has_globals ≡ false) }
{
    Command::new(alloc, "deals")
        .version("0.3.0")
        .about(ABOUT)
        .after_help(PROGRAM_EXAMPLES)
        .subcommand_required(true)
        .bin_name("deals")
}

/// The command with each of these subcommands.
fn with_subcommands<'a>(
    alloc: Global,
    command: Command<'a>,
    rows: &[SubcommandRow],
) -> Result<Command<'a>, AllocError>
    ensures { IfOk result (λ c. app_of c
        ≡ fold with_subcommand (app_of command.entry) (map top_for rows.entry.now)) }
{
    let mut command = command;
    for row in rows {
        command = command.subcommand(command_of(alloc, row)?)?;
    }
    Ok(command)
}

/// The program's whole command line.
///
/// # Errors
/// `AllocError` if an allocation failed.
pub fn command<'a>(alloc: Global) -> Result<Command<'a>, AllocError>
    ensures { IfOk result (λ c. app_of c ≡ deals) }
{
    with_subcommands(alloc, top(alloc)?, subcommands())
}
