//! What is asked of the deals.

ghost use Rattle.std.specs.Prelude.{◌≡◌, IfOk, nat_lt};
ghost use Rattle.statistics.specs.Counting.{cells_of, most_rows, title_of};
ghost use Rattle.statistics.specs.Json.{string_of};
ghost use Rattle.statistics.specs.Subjects.{subject_of};

use crate::json::string_of;
use crate::title::Title;
use conditions::Question;
use std::alloc::{AllocError, Global};
use std::marker::Model;

/// A question, the title that it has in a table, and its text as a string of JSON.
pub struct TitledQuestion {
    pub(crate) question: Question,
    pub(crate) title: Title,
    pub(crate) string: Vec<u8>,
}

impl Model for TitledQuestion {
    ghost use Rattle.statistics.specs.Counting.{TitledQuestion as ATitledQuestion};
    ghost use Rattle.statistics.specs.internal.Codes.{asked_code};

    ghost Value = { ATitledQuestion };

    ghost coded = { asked_code };

    ghost view = { λ a. record {
      question = a.question;
      title = a.title;
      string = a.string.items;
    } };
}

// By hand, so that to drop one is a call (docs/DECISIONS.md).
impl Drop for TitledQuestion {
    fn drop(self) {
        let TitledQuestion {
            question: _,
            title: _,
            string: _,
        } = self;
    }
}

impl TitledQuestion {
    /// The question, with its text as its title. A text that has more than 72 bytes, or one that
    /// isn't printable ASCII, gives the title `value`.
    ///
    /// # Errors
    /// `AllocError` if the allocation of the text as a string failed.
    pub fn new(alloc: Global, question: Question, text: &[u8]) -> Result<TitledQuestion, AllocError>
        ensures question { IfOk result (λ a. a.question ≡ question) }
        ensures title { IfOk result (λ a. a.title ≡ title_of text.now) }
        ensures string { IfOk result (λ a. a.string ≡ string_of text.now) }
    {
        Ok(TitledQuestion {
            question,
            title: Title::of(text),
            string: string_of(alloc, text)?,
        })
    }
}

/// What is asked of the deals.
#[derive(Drop)]
pub enum Subject {
    /// Nothing but how many there are.
    DealsAlone,
    /// One question.
    ByOne(TitledQuestion),
    /// Two questions: that of the rows, and that of the columns.
    ByTwo(TitledQuestion, TitledQuestion),
    /// Several questions, each with a table of its own.
    ByEach(Vec<TitledQuestion>),
}

/// How many rows a table of one question can have at most, or how many cells one of two.
pub const MAX_CELLS: u64 = 1_048_576;

impl Subject {
    /// Whether a table of the answers can have more than `MAX_CELLS` cells, or rows if it is of one
    /// question; with several tables, whether one of them can.
    pub fn is_too_large(&self) -> bool
        ensures { result ≡ nat_lt MAX_CELLS (cells_of (subject_of self.now)) }
    {
        match self {
            Subject::DealsAlone => false,
            Subject::ByOne(asked) => asked.question.rows() > MAX_CELLS,
            Subject::ByTwo(of, by) => {
                of.question.rows().saturating_mul(by.question.rows()) > MAX_CELLS
            }
            Subject::ByEach(asked) => most_rows(asked) > MAX_CELLS,
        }
    }
}

/// The most rows that a table of one of the questions can have: 0 if there are none.
fn most_rows(asked: &[TitledQuestion]) -> u64
    ensures { result ≡ most_rows asked.now }
{
    let mut most = 0;
    for asked in asked {
        most = most.max(asked.question.rows());
    }
    most
}
