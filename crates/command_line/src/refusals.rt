//! Refusals of what clap's own parse takes, in clap's form.

ghost use Rattle.std.specs.Prelude.{◌≡◌, IfOk};
ghost use Rattle.clap.specs.Words.{kind_of};

use crate::given::Unknown;
use crate::known::value_name;
use crate::lesson_names::tip;
use crate::options::search::why_no_number;
use crate::subcommands::{Subcommand, command_alone};
use clap::Error;
use clap::error::ErrorKind;
use std::alloc::{AllocError, Global};

/// What is missing where no end of a search is given.
pub const NO_END: &str = "the following required arguments were not provided:
  --candidates <N> or --boards <M>";

/// What is missing where a table has a question for its columns, and none for its rows.
pub const NO_QUESTION: &str = "the following required arguments were not provided:
  --of <TEXT>";

/// Why one question more can't be asked.
pub const TOO_MANY: &str = "the argument '--of <TEXT>' cannot be used more than 8 times";

/// Why a question for columns can't be asked beside several that have a table each.
pub const COLUMNS_OF_SEVERAL: &str =
    "the argument '--by <TEXT>' cannot be used with more than one '--of <TEXT>'";

/// A refusal of this kind, with this message, by this subcommand.
fn refusal(
    alloc: Global,
    by: Subcommand,
    kind: ErrorKind,
    message: &str,
) -> Result<Error, AllocError>
    ensures { IfOk result (λ e. kind_of e ≡ kind) }
{
    let mut command = command_alone(alloc, by)?;
    command.error(kind, message)
}

/// clap's refusal of words in which an option is missing.
pub fn missing_option(alloc: Global, by: Subcommand, missing: &str) -> Result<Error, AllocError>
    ensures { IfOk result (λ e. kind_of e ≡ ErrorKind.MissingRequiredArgument) }
{
    refusal(alloc, by, ErrorKind::MissingRequiredArgument, missing)
}

/// clap's refusal of words in which an option doesn't go with others.
pub fn conflicting_option(alloc: Global, by: Subcommand, why: &str) -> Result<Error, AllocError>
    ensures { IfOk result (λ e. kind_of e ≡ ErrorKind.ArgumentConflict) }
{
    refusal(alloc, by, ErrorKind::ArgumentConflict, why)
}

/// clap's refusal of a number of workers that is none.
pub fn invalid_number(alloc: Global, by: Subcommand, word: &str) -> Result<Error, AllocError>
    ensures { IfOk result (λ e. kind_of e ≡ ErrorKind.ValueValidation) }
{
    let why = why_no_number(word);
    let message = format!(in alloc; "invalid value '{word}' for '--workers <W>': {why}")?;
    refusal(alloc, by, ErrorKind::ValueValidation, message.as_str())
}

/// clap's refusal of a name that no lesson has.
pub fn invalid_name(
    alloc: Global,
    by: Subcommand,
    option: &str,
    word: &str,
) -> Result<Error, AllocError>
    ensures { IfOk result (λ e. kind_of e ≡ ErrorKind.InvalidValue) }
{
    let tip = tip(alloc, word)?;
    let tip = tip.as_str();
    let message = format!(in alloc;
        "invalid value '{word}' for '{option}': no lesson has this name\n\n  tip: {tip}"
    )?;
    refusal(alloc, by, ErrorKind::InvalidValue, message.as_str())
}

/// clap's refusal of a word that is none of an option's values.
pub fn invalid_value(
    alloc: Global,
    by: Subcommand,
    unknown: &Unknown<'_>,
) -> Result<Error, AllocError>
    ensures { IfOk result (λ e. kind_of e ≡ ErrorKind.InvalidValue) }
{
    let Unknown { word, id, values } = *unknown;
    let name = value_name(id);
    let message = format!(in alloc;
        "invalid value '{word}' for '--{id} <{name}>'\n  [possible values: {values}]"
    )?;
    refusal(alloc, by, ErrorKind::InvalidValue, message.as_str())
}
