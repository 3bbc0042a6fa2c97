//! What clap refuses, by the text that it says of it.

/// What is refused of the words.
#[derive(Clone, Copy)]
pub(crate) enum What {
    /// An option, or another word, that isn't expected.
    Argument,
    /// The name of a command.
    Command,
    /// These options are missing, with a line for each.
    Missing,
    /// There is no command.
    NoCommand,
    /// The value of an option.
    Value,
    /// This option has no value.
    NoValue,
    /// This option occurs too often.
    TooOften,
    /// Columns are asked for beside several questions.
    Columns,
    /// This flag has a value.
    Flag,
}

/// What is refused, with the word and the option that clap names, or nothing.
#[derive(Clone, Copy)]
pub(crate) struct Refused<'a> {
    pub(crate) what: What,
    pub(crate) word: &'a str,
    pub(crate) option: &'a str,
}

/// How clap's text begins, what is after the word that it names there, and what is refused. Where
/// an option is shown after that, it is as in `--seed <S>'`.
static FORMS: [(&str, &str, What); 9] = [
    ("unexpected argument '", "' found", What::Argument),
    ("unrecognized subcommand '", "'\n", What::Command),
    (
        "the following required arguments were not provided:",
        "\n\n",
        What::Missing,
    ),
    ("requires a subcommand", "", What::NoCommand),
    ("invalid value '", "' for '", What::Value),
    ("a value is required for '", "", What::NoValue),
    (
        "the argument '--by <TEXT>' cannot be used with",
        "",
        What::Columns,
    ),
    ("the argument '", "", What::TooOften),
    ("unexpected value '", "' for '", What::Flag),
];

/// What clap's text says that is refused.
pub(crate) fn read(refusal: &str) -> Option<Refused<'_>> {
    let text = refusal.strip_prefix("error: ")?;
    for (beginning, end, what) in &FORMS {
        if let Some(rest) = rest_of(text, beginning, *what) {
            return naming(*what, rest, end);
        }
    }
    None
}

/// What is after the beginning, if the text has it. A missing command is said later in a text.
fn rest_of<'a>(text: &'a str, beginning: &str, what: What) -> Option<&'a str> {
    if what == What::NoCommand {
        return text.contains(beginning).then_some("");
    }
    text.strip_prefix(beginning)
}

/// What is refused, with the word up to its end, and the option after that.
fn naming<'a>(what: What, rest: &'a str, end: &str) -> Option<Refused<'a>> {
    let (word, shown) = rest.split_once(end)?;
    let (option, _) = shown.split_once(['\'', ' ']).unwrap_or((shown, ""));
    Some(Refused { what, word, option })
}
