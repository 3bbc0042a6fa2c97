//! What is known of an option by its name, for hints below refusals.

use crate::helps::sample_of;
use crate::rows::{OptionRow, Takes};
use crate::subcommands::{SubcommandRow, subcommands};
use cards::{MAX_CANDIDATES, MAX_WORKERS};

/// What an option takes.
#[derive(Clone, Copy)]
pub enum Taken {
    /// A number, at most this one.
    Number { most: u64 },
    /// A text that a person writes.
    Text,
    /// One of a few words.
    Word,
    Nothing,
}

/// An option of a command.
#[derive(Clone, Copy)]
pub struct KnownOption {
    /// Its name, without hyphens.
    pub id: &'static str,
    /// The first command that takes it, in the order of the help.
    pub command: &'static str,
    pub takes: Taken,
    /// A value that it could have, as a person types it; empty if it takes none.
    pub sample: &'static str,
}

/// Returns the option of this name, with its two hyphens or without, or of this letter, as `-s`.
/// The flag for help isn't one.
pub fn known_option(name: &str) -> Option<KnownOption> {
    subcommands().iter().find_map(|sub| known_in(sub, name))
}

/// Returns whether the command takes the option of this name or letter.
pub fn takes_option(command: &str, name: &str) -> bool {
    subcommands()
        .iter()
        .any(|sub| sub.name == command && row_in(sub, name).is_some())
}

/// The option, if this command takes it.
fn known_in(sub: &SubcommandRow, name: &str) -> Option<KnownOption> {
    let row = row_in(sub, name)?;
    Some(KnownOption {
        id: row.id,
        command: sub.name,
        takes: taken_by(row)?,
        sample: sample_of(row.id),
    })
}

fn row_in(sub: &SubcommandRow, name: &str) -> Option<&'static OptionRow> {
    sub.groups
        .iter()
        .find_map(|rows| rows.iter().find(|row| is_named(row, name)))
}

fn is_named(row: &OptionRow, name: &str) -> bool {
    if name.strip_prefix("--").unwrap_or(name) == row.id {
        return true;
    }
    match (row.short, name.strip_prefix('-')) {
        (Some(letter), Some(rest)) => matches!(rest.strip_prefix(letter), Some("")),
        _ => false,
    }
}

/// What the row's option takes; none if it is the flag for help, or a value without a name.
fn taken_by(row: &OptionRow) -> Option<Taken> {
    let most = match row.takes {
        Takes::Help | Takes::Value(_) => return None,
        Takes::Nothing => return Some(Taken::Nothing),
        Takes::Text(_) | Takes::Texts(_) => return Some(Taken::Text),
        Takes::Word(_) => return Some(Taken::Word),
        Takes::Workers(_) => u64::from(MAX_WORKERS),
        Takes::U32(_, most) => u64::from(most),
        Takes::U64(_) | Takes::Count(_) => MAX_CANDIDATES,
    };
    Some(Taken::Number { most })
}

/// The name that help gives to the words of an option that has one of a few.
pub(crate) fn value_name(id: &str) -> &'static str {
    let row = subcommands().iter().find_map(|sub| row_in(sub, id));
    match row.map(|row| &row.takes) {
        Some(Takes::Word(name)) => name,
        _ => "WORD",
    }
}
