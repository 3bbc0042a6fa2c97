//! A question about a deal: a condition, or a value.

ghost use Rattle.std.specs.Prelude.{◌≡◌, ◌+◌, ◌<◌, ◌≤◌};
ghost use Rattle.conditions.specs.Form.{amount_of};
ghost use Rattle.conditions.specs.Questions.{IsSmall, answer, asks_condition, asks_value};
ghost use Rattle.conditions.specs.Questions.{is_condition, most_answer, rows_of};

use crate::condition::Cond;
use crate::meaning;
use crate::tree::Value;
use cards::{Deal, Seat};
use std::marker::Model;

/// A question about a deal, whose answer is a number: of a condition 1 if the deal meets it and 0
/// if it doesn't, of a value the number that it is.
///
/// Contracts see it as the condition's form or the value's.
pub struct Question {
    asked: Asked,
}

#[derive(Drop)]
enum Asked {
    Condition(Cond),
    Value(Value),
}

impl Model for Question {
    ghost use Rattle.conditions.specs.Questions.{IsAskable, Question as AQuestion};
    ghost use Rattle.conditions.specs.internal.Asked.{question_of};
    ghost use Rattle.conditions.specs.internal.FormCode.{question_code};

    ghost Value = { AQuestion };

    ghost coded = { question_code };

    ghost view = { λ q. question_of q.asked };

    ghost invariant = { λ q. IsAskable (question_of q.asked) };
}

// By hand, so that to drop one is a call (docs/DECISIONS.md).
impl Drop for Question {
    fn drop(self) {
        let Question { asked: _ } = self;
    }
}

impl Question {
    /// The question whether a deal meets the condition.
    pub fn of_condition(condition: Cond) -> Question
        ensures { result ≡ asks_condition condition }
    {
        Question {
            asked: Asked::Condition(condition),
        }
    }

    /// The question what number the value is.
    pub fn of_value(value: Value) -> Question
        requires { IsSmall (amount_of value) }
        ensures { result ≡ asks_value (amount_of value) }
    {
        Question {
            asked: Asked::Value(value),
        }
    }

    /// Whether it is a condition, whose answers are `no` and `yes`.
    pub fn is_condition(&self) -> bool
        ensures { result ≡ is_condition self.now }
    {
        matches!(self.asked, Asked::Condition(_))
    }

    /// How many rows a table of the answers can have: 1 more than the greatest answer, so at most
    /// 6,552,944,641.
    pub fn rows(&self) -> u64
        ensures value { result ≡ rows_of self.now }
        ensures few { result ≤ most_answer + 1 }
    {
        match &self.asked {
            Asked::Condition(_) => 2,
            Asked::Value(value) => value.greatest() + 1,
        }
    }

    /// The answer of the deal, which is less than `rows`.
    pub fn answer(&self, deal: &Deal) -> u64
        ensures value { result ≡ answer self.now deal.now }
        ensures within { result < rows_of self.now }
    {
        match &self.asked {
            Asked::Condition(condition) => u64::from(condition.holds(deal)),
            Asked::Value(value) => {
                // A hand's contract tells that the deal is a partition.
                let _hand = deal.hand(Seat::North);
                meaning::value_in(value, deal)
            }
        }
    }
}
