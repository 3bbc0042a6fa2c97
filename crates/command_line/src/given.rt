//! What an option was given, as `clap` read it: a number, a text, a flag, or one of a few words.
//!
//! clap knows such words as texts. It could compare them with a list of values itself, but the
//! command would then hold where in memory that list is, and no two commands would be the same to a
//! proof.

ghost use Rattle.std.specs.Prelude.{◌≡◌, is_some, map, option_map};
ghost use Rattle.clap.specs.Words.{first_of, found_of, rows_of};
ghost use Rattle.command_line.specs.Given.{choice_in, is_set, is_unknown, meant_by, number_in};
ghost use Rattle.command_line.specs.internal.Choices.{table_of};
ghost use Rattle.command_line.specs.internal.Readings.{MayGive32, MayGive64};

use boards::Words;
use clap::ArgMatches;

/// What an option of 32 bits was given.
pub(crate) fn u32_in(matches: &ArgMatches, id: &str) -> Option<u32>
    requires { MayGive32 id.now (rows_of (found_of matches.now)) }
    ensures { result ≡ number_in id.now (rows_of (found_of matches.now)) }
{
    matches.get_one::<u32>(id)
}

/// What an option of 64 bits was given.
pub(crate) fn u64_in(matches: &ArgMatches, id: &str) -> Option<u64>
    requires { MayGive64 id.now (rows_of (found_of matches.now)) }
    ensures { result ≡ number_in id.now (rows_of (found_of matches.now)) }
{
    matches.get_one::<u64>(id)
}

/// The text that an option was given.
pub(crate) fn text_in<'a>(matches: &ArgMatches<'a>, id: &str) -> Option<&'a str>
    ensures { option_map (λ s. s.now) result ≡ first_of id.now (rows_of (found_of matches.now)) }
{
    matches.get_str(id)
}

/// Whether a flag is given.
pub(crate) fn is_set(matches: &ArgMatches, id: &str) -> bool
    ensures { result ≡ is_set id.now (rows_of (found_of matches.now)) }
{
    match text_in(matches, id) {
        Some(text) => text == "true",
        None => false,
    }
}

/// An option that has one of a few words.
pub struct OptionWords<T: Copy + 'static> {
    pub(crate) id: &'static str,
    pub(crate) words: Words<T>,
}

/// A word that is none of its option's values.
#[derive(Clone, Copy)]
pub struct Unknown<'a> {
    pub word: &'a str,
    /// The option, without its hyphens.
    pub id: &'static str,
    /// The option's values, as help lists them.
    pub values: &'static str,
}

/// What a word means in such a table.
pub(crate) fn look_up<T: Copy>(mut table: &[(&str, T)], word: &str) -> Option<T>
    ensures { result ≡ meant_by (map (λ p. (p.0.now, p.1)) table.entry.now) word.now }
{
    while let [(name, value), rest @ ..] = table {
        if word == *name {
            return Some(*value);
        }
        table = rest;
    }
    None
}

impl<T: Copy + 'static> OptionWords<T> {
    /// What the word means that was given, if it means anything.
    pub fn given(&self, matches: &ArgMatches) -> Option<T>
        ensures { result
            ≡ choice_in (table_of self.now) self.now.id.now (rows_of (found_of matches.now)) }
    {
        match text_in(matches, self.id) {
            Some(word) => look_up(self.words.table, word),
            None => None,
        }
    }

    /// The word that was given, if it means nothing.
    pub(crate) fn unknown<'a>(&self, matches: &ArgMatches<'a>) -> Option<Unknown<'a>>
        ensures { is_some result
            ≡ is_unknown (table_of self.now) self.now.id.now (rows_of (found_of matches.now)) }
    {
        match text_in(matches, self.id) {
            Some(word) if look_up(self.words.table, word).is_none() => Some(Unknown {
                word,
                id: self.id,
                values: self.words.list,
            }),
            _ => None,
        }
    }
}
