//! Which candidates are tried and accepted.

ghost use Rattle.std.specs.Prelude.{◌≡◌};
ghost use Rattle.requests.specs.PredealtHands.{given_by};
ghost use Rattle.requests.specs.Defaults.{candidates_of, lane_of, with_long_lanes, workers_in};
ghost use Rattle.requests.specs.Requests.{no_search, search_of};

use crate::hands::PredealtHands;
use crate::workers::Workers;
use cards::MAX_CANDIDATES;

/// How many verdicts a lane holds where nobody waits for the first ones.
const LONG_LANE: u32 = 4096;

/// Which candidates of a seed are tried, and which of them are accepted. An option that isn't given
/// is `None`, or has its default.
#[derive(Clone, Copy)]
pub struct Search<'a> {
    pub seed: u32,
    /// How many candidates are tried; all that there are from the first on, if it isn't given.
    pub candidates: Option<u64>,
    /// The number of the first candidate.
    pub first: u64,
    /// How many workers judge them.
    pub workers: Workers,
    /// How many verdicts a worker's lane holds. If it isn't given: 64, or 4,096 if `workers` is
    /// `Auto`.
    pub lane: Option<u32>,
    /// The text of the lesson's condition.
    pub lesson: Option<&'a str>,
    /// The text of definitions, whose names the condition and the questions see.
    pub let_text: Option<&'a str>,
    /// The text of the condition. With a lesson a deal meets both.
    pub where_text: Option<&'a str>,
    /// How many boards are written at most.
    pub boards: Option<u32>,
    /// The cards that are fixed at the seats, as texts of hands.
    pub hands: PredealtHands<'a>,
}

impl<'a> Search<'a> {
    /// Returns the search of a `pick` or a `show`, which tries no candidates of its own.
    pub fn none(seed: u32, hands: PredealtHands<'a>) -> Search<'a>
        ensures { search_of result ≡ no_search seed (given_by hands.entry) }
    {
        Search {
            seed,
            candidates: Some(0),
            first: 0,
            workers: Workers::Number(1),
            lane: Some(1),
            lesson: None,
            let_text: None,
            where_text: None,
            boards: None,
            hands,
        }
    }

    /// Returns how many candidates are tried.
    pub fn candidates(&self) -> u64
        ensures { result ≡ candidates_of (search_of self.now) }
    {
        let all = MAX_CANDIDATES.saturating_sub(self.first);
        self.candidates.unwrap_or(all)
    }

    /// Returns how many workers a plan has: 1 until it is known how many suit the machine.
    pub fn workers(&self) -> u32
        ensures { result ≡ workers_in self.now.workers }
    {
        match self.workers {
            Workers::Number(number) => number,
            Workers::Auto => 1,
        }
    }

    /// Returns how many verdicts a worker's lane holds.
    pub fn lane(&self) -> u32
        ensures { result ≡ lane_of (search_of self.now) }
    {
        let default = match self.workers {
            Workers::Number(_) => 64,
            Workers::Auto => LONG_LANE,
        };
        self.lane.unwrap_or(default)
    }

    /// Returns the same search with lanes of 4,096 verdicts, unless their capacity is given: that
    /// of a `find` or a `count`, which write little or nothing before their end.
    pub fn with_long_lanes(self) -> Search<'a>
        ensures { search_of result ≡ with_long_lanes (search_of self.entry) }
    {
        Search {
            lane: Some(self.lane.unwrap_or(LONG_LANE)),
            ..self
        }
    }
}
