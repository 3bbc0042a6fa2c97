//! The texts of the questions of a `count`.

ghost use Rattle.std.specs.Prelude.{◌≡◌, None, map, option_map, slice_get, slice_index_or, take};
ghost use Rattle.requests.specs.Requests.{places_of, questions_of, text_named, texts_of};

use crate::names::QuestionName;

/// How many questions can have a table each.
pub const MAX_QUESTIONS: usize = 8;

/// The texts of several questions: at most eight, in the order of the fields.
#[derive(Clone, Copy)]
pub struct Texts<'a> {
    pub first: Option<&'a str>,
    pub second: Option<&'a str>,
    pub third: Option<&'a str>,
    pub fourth: Option<&'a str>,
    pub fifth: Option<&'a str>,
    pub sixth: Option<&'a str>,
    pub seventh: Option<&'a str>,
    pub eighth: Option<&'a str>,
}

impl<'a> Texts<'a> {
    /// The first `MAX_QUESTIONS` of the texts, or all if there are fewer.
    pub fn of(given: &[&'a str]) -> Texts<'a>
        ensures { texts_of result ≡ take 8 (map (λ t. t.now) given.now) }
    {
        Texts {
            first: text_at(given, 0),
            second: text_at(given, 1),
            third: text_at(given, 2),
            fourth: text_at(given, 3),
            fifth: text_at(given, 4),
            sixth: text_at(given, 5),
            seventh: text_at(given, 6),
            eighth: text_at(given, 7),
        }
    }

    /// Returns the text in this place, the first of which is 0, if there is one.
    pub fn get(&self, place: usize) -> Option<&'a str>
        ensures { option_map (λ t. t.now) result ≡ slice_index_or (places_of self.now) place None }
    {
        match place {
            0 => self.first,
            1 => self.second,
            2 => self.third,
            3 => self.fourth,
            4 => self.fifth,
            5 => self.sixth,
            6 => self.seventh,
            7 => self.eighth,
            _ => None,
        }
    }
}

/// Returns the text in this place, if there is one.
fn text_at<'a>(given: &[&'a str], place: usize) -> Option<&'a str>
    ensures { option_map (λ t. t.now) result ≡ slice_get (map (λ t. t.now) given.now) place }
{
    if place < given.len() {
        Some(given[place])
    } else {
        None
    }
}

/// The texts of the questions that are asked of the accepted deals.
#[derive(Clone, Copy)]
pub enum Questions<'a> {
    /// Only how many deals there are.
    None,
    One(&'a str),
    /// One for the rows of the table, and one for its columns.
    Two { of: &'a str, by: &'a str },
    /// Several, with a table each.
    Each(Texts<'a>),
}

impl<'a> Questions<'a> {
    /// Returns the text of the question of this name. There is none if none or several have it.
    pub fn text(&self, name: QuestionName) -> Option<&'a str>
        ensures { option_map (λ t. t.now) result ≡ text_named name (questions_of self.now) }
    {
        match (self, name) {
            (Questions::One(text), QuestionName::Of) => Some(*text),
            (Questions::Two { of, .. }, QuestionName::Of) => Some(*of),
            (Questions::Two { by, .. }, QuestionName::By) => Some(*by),
            _ => None,
        }
    }
}
