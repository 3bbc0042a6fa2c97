//! What help says of each command and option, and samples of values: the texts are beside the rows
//! of the options. A line of help has at most 80 columns, with what help puts before it.

use crate::options::{look, notices, others, questions, search};
use crate::texts::{SUBCOMMAND_TEXTS, SubcommandText};

/// What help says of some options.
pub(crate) struct Section {
    /// The subcommands that say it, separated by spaces; empty for what all others say.
    pub(crate) of: &'static str,
    /// The heading that the options are under.
    pub(crate) heading: &'static str,
    /// An entry for each option, separated by empty lines: its name, a space and a value of it as a
    /// person types it, where it takes one, then a colon and the text. The value is in the entry
    /// for all subcommands alone, unless one alone has the option.
    pub(crate) entries: &'static str,
}

/// What help says of an option: the heading that it is under, and the text.
pub(crate) type Help = (&'static str, &'static str);

/// A value of an option, empty if its entry has none, and its text.
type HelpEntry = (&'static str, &'static str);

static SECTIONS: [&[Section]; 5] = [
    search::HELP,
    questions::HELP,
    look::HELP,
    notices::HELP,
    others::HELP,
];

/// The entry, if it is that of the option.
fn named(entry: &'static str, id: &str) -> Option<HelpEntry> {
    let (head, text) = entry.split_once(": ")?;
    let (name, value) = head.split_once(' ').unwrap_or((head, ""));
    (name == id).then_some((value, text))
}

impl Section {
    fn entry(&self, id: &str) -> Option<HelpEntry> {
        self.entries
            .split("\n\n")
            .find_map(|entry| named(entry, id))
    }

    /// What it says of the option, if anything.
    fn help(&self, id: &str) -> Option<Help> {
        let (_, text) = self.entry(id)?;
        Some((self.heading, text))
    }

    /// The value that it has of the option, if any.
    fn sample(&self, id: &str) -> Option<&'static str> {
        let (value, _) = self.entry(id)?;
        (!value.is_empty()).then_some(value)
    }

    /// Whether the subcommand of this name says it, or all others if there is no name.
    fn is_of(&self, name: &str) -> bool {
        self.of.split(' ').any(|of| of == name)
    }
}

/// What these say of an option in the subcommand of this name, or in all others.
fn help_among(sections: &'static [Section], name: &str, id: &str) -> Option<Help> {
    sections
        .iter()
        .filter(|section| section.is_of(name))
        .find_map(|section| section.help(id))
}

/// What is said of an option in the subcommand of this name, or in all others.
fn help_in(name: &str, id: &str) -> Option<Help> {
    SECTIONS
        .iter()
        .find_map(|sections| help_among(sections, name, id))
}

/// What help says of the subcommand of this name.
fn subcommand_text(name: &str) -> Option<&'static SubcommandText> {
    SUBCOMMAND_TEXTS.iter().find(|text| text.name == name)
}

/// What the subcommand of this name does.
pub(crate) fn about_of(name: &str) -> &'static str {
    subcommand_text(name).map_or("", |text| text.about)
}

/// The examples that help has of a subcommand.
pub(crate) fn examples_of(name: &str) -> &'static str {
    subcommand_text(name).map_or("", |text| text.examples)
}

/// A value of the option; empty if it takes none.
pub(crate) fn sample_of(id: &str) -> &'static str {
    SECTIONS
        .iter()
        .find_map(|sections| sections.iter().find_map(|section| section.sample(id)))
        .unwrap_or("")
}

/// What help says of an option of a subcommand.
pub(crate) fn help_of(name: &str, id: &str) -> Help {
    help_in(name, id).or(help_in("", id)).unwrap_or(("", ""))
}
