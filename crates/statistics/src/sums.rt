//! The sums of some answers.

ghost use Rattle.std.specs.Prelude.{◌≡◌, ◌<◌, ◌≤◌, []};
ghost use Rattle.statistics.specs.Counting.{most_counted};
ghost use Rattle.statistics.specs.Counting.{most_deals};
ghost use Rattle.statistics.specs.internal.Kept.{AreSmall, sums_of, with_one};

/// How many answers there are, their sum, the sum of their squares, and the least and the greatest
/// of them, which are 0 if there are none.
#[derive(Clone, Copy, Drop)]
pub(crate) struct Sums {
    pub(crate) deals: u64,
    pub(crate) sum: u64,
    pub(crate) squares: u128,
    pub(crate) least: u32,
    pub(crate) greatest: u32,
}

impl Sums {
    /// The sums of no answers.
    pub(crate) fn new() -> Sums
        ensures sums { result ≡ sums_of [] }
        ensures small { AreSmall result }
    {
        Sums {
            deals: 0,
            sum: 0,
            squares: 0,
            least: 0,
            greatest: 0,
        }
    }

    /// Adds an answer.
    pub(crate) fn add(&mut self, answer: u32)
        requires sums { AreSmall self.old }
        requires few { self.old.deals < most_deals }
        requires small { answer ≤ most_counted }
        ensures sums { self.new ≡ with_one self.old answer }
        ensures small { AreSmall self.new }
    {
        self.least = if self.deals == 0 {
            answer
        } else {
            self.least.min(answer)
        };
        self.greatest = self.greatest.max(answer);
        self.deals += 1;
        self.sum += u64::from(answer);
        self.squares += u128::from(answer) * u128::from(answer);
    }
}
