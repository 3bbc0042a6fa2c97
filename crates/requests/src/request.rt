//! The requests: one variant for each subcommand.

ghost use Rattle.std.specs.Prelude.{◌≡◌, None, option_map, slice_index_or};
ghost use Rattle.requests.specs.Requests.{hints_of, look_of, places_in, question_named};
ghost use Rattle.requests.specs.Requests.{search_of, searched, wish_of};

use crate::hands::PredealtHands;
use crate::lessons::Lesson;
use crate::look::Look;
use crate::names::QuestionName;
use crate::questions::Questions;
use crate::search::Search;
use crate::stream::StreamRequest;
use crate::when::When;
use boards::{Format, TableStyle};

/// What a person is told while a run lasts and when it has ended. Nothing else depends on it.
#[derive(Clone, Copy)]
pub struct Notices {
    /// Whether the boards and the candidates are counted for a report.
    pub report: bool,
    /// When the counts are shown while the run lasts.
    pub progress: When,
    /// When a person is told what helps: below a refusal, and in notes on a run.
    pub hints: When,
}

/// What is asked for.
#[derive(Clone, Copy)]
pub enum Request<'a> {
    /// The boards of the accepted candidates.
    Make {
        search: Search<'a>,
        look: Look<'a>,
        /// Whether the input tells the boards' tricks, a line for each.
        tricks: bool,
        notices: Notices,
    },
    /// The numbers of the accepted candidates.
    Find {
        search: Search<'a>,
        notices: Notices,
    },
    /// A table of what the accepted deals answer.
    Count {
        search: Search<'a>,
        questions: Questions<'a>,
        style: TableStyle,
        notices: Notices,
    },
    /// The boards of the candidates whose numbers the input gives.
    Pick {
        seed: u32,
        hands: PredealtHands<'a>,
        look: Look<'a>,
        /// Whether each line tells the board's tricks after its number.
        tricks: bool,
        hints: When,
    },
    /// The boards of the games that the input has. Only the look's format, hands that are written
    /// and labels are used.
    Show {
        look: Look<'a>,
        hints: When,
    },
    /// The page of the language.
    Conditions,
    /// What is told of a lesson, or without one the list of all.
    Lessons(Option<Lesson>),
    /// A seed that the first bytes of the input draw.
    Seed,
    Stream(StreamRequest),
}

impl<'a> Request<'a> {
    /// Returns the search and the look of a request that deals or shows boards. The search of a
    /// `pick` or a `show` tries no candidates; the look of a `find` or a `count` is plain.
    pub fn searched(&self) -> Option<(Search<'a>, Look<'a>)>
        ensures { option_map (λ p. (search_of p.0, look_of p.1)) result
            ≡ searched (wish_of self.now) }
    {
        match self {
            Request::Make { search, look, .. } => Some((*search, *look)),
            Request::Find { search, .. } | Request::Count { search, .. } => {
                Some((*search, Look::plain(Format::Numbers)))
            }
            Request::Pick {
                seed,
                hands,
                look,
                ..
            } => Some((Search::none(*seed, *hands), *look)),
            Request::Show { look, .. } => { Some((Search::none(0, PredealtHands::none()), *look)) }
            Request::Conditions | Request::Lessons(_) | Request::Seed | Request::Stream(_) => None,
        }
    }

    /// Returns the text of this question, if the request has one of this name.
    pub fn question(&self, name: QuestionName) -> Option<&'a str>
        ensures { option_map (λ t. t.now) result ≡ question_named name (wish_of self.now) }
    {
        match self {
            Request::Count { questions, .. } => questions.text(name),
            _ => None,
        }
    }

    /// Returns the text in this place of several questions, the first of which is 0.
    pub fn question_at(&self, place: usize) -> Option<&'a str>
        ensures { option_map (λ t. t.now) result ≡ slice_index_or (places_in self.now) place None }
    {
        match self {
            Request::Count {
                questions: Questions::Each(texts),
                ..
            } => texts.get(place),
            _ => None,
        }
    }

    /// Returns when a person is told what helps.
    pub fn hints(&self) -> When
        ensures { result ≡ hints_of (wish_of self.now) }
    {
        match self {
            Request::Make { notices, .. }
            | Request::Find { notices, .. }
            | Request::Count { notices, .. } => notices.hints,
            Request::Pick { hints, .. } | Request::Show { hints, .. } => *hints,
            Request::Conditions | Request::Lessons(_) | Request::Seed | Request::Stream(_) => {
                When::Auto
            }
        }
    }
}
