//! What is kept of one question.

ghost use Rattle.std.specs.Prelude.{◌≡◌, ◌≤◌, ◌<◌, ◌+◌, ◌++◌, ◌∷◌, ◌^◌, [], IfOk, List, length};
ghost use Rattle.std.specs.Prelude.{slice_index, slice_set};
ghost use Rattle.cards.specs.declared.seat.Seat.{Seat};
ghost use Rattle.conditions.specs.Questions.{answer, is_condition, rows_of};
ghost use Rattle.statistics.specs.Answers.{answers_of};
ghost use Rattle.statistics.specs.Counting.{most_deals};
ghost use Rattle.statistics.specs.internal.Kept.{AreSmall, CountsOne, IsKeptOne, with_answer};

mod json;
mod part;
mod table;

use crate::subject::TitledQuestion;
use crate::sums::Sums;
use cards::Deal;
use std::alloc::{AllocError, Global};
use std::marker::Model;

/// A question, the sums of the answers so far, and how often each number is among them.
pub(crate) struct One {
    asked: TitledQuestion,
    sums: Sums,
    counts: Vec<u64>,
}

impl Model for One {
    ghost use Rattle.statistics.specs.internal.Codes.{one_code};
    ghost use Rattle.statistics.specs.internal.Kept.{IsKeptOne, KeptOne};

    ghost Value = { KeptOne };

    ghost coded = { one_code };

    ghost view = { λ o. record { asked = o.asked; sums = o.sums; counts = o.counts.items } };

    ghost invariant = { λ o. IsKeptOne
        (record { asked = o.asked; sums = o.sums; counts = o.counts.items }) };
}

// By hand, so that to drop one is a call (docs/DECISIONS.md).
impl Drop for One {
    fn drop(self) {
        let One {
            asked: _,
            sums: _,
            counts: _,
        } = self;
    }
}

impl One {
    /// Nothing is counted yet.
    ///
    /// # Errors
    /// `AllocError` if the allocation of a number for each row failed.
    pub(crate) fn new(alloc: Global, asked: TitledQuestion) -> Result<One, AllocError>
        requires { rows_of asked.question ≤ 2 ^ 20 }
        ensures asked { IfOk result (λ one. one.asked ≡ asked) }
        ensures counted { IfOk result (λ one. CountsOne one []) }
        ensures kept { IfOk result (λ one. IsKeptOne one) }
    {
        let rows = asked.question.rows() as usize;
        let counts = vec![in alloc; 0u64; rows]?;
        Ok(One {
            asked,
            sums: Sums::new(),
            counts,
        })
    }

    /// How many deals were counted.
    pub(crate) fn deals(&self) -> u64
        ensures value { result ≡ self.now.sums.deals }
        ensures few { result ≤ most_deals }
    {
        self.sums.deals
    }

    /// Counts the deal.
    pub(crate) fn count(&mut self, deal: &Deal)
        requires { self.old.sums.deals < most_deals }
        ensures asked { self.new.asked ≡ self.old.asked }
        ensures number { self.new.sums.deals ≡ self.old.sums.deals + 1 }
        ensures counted { (deals : List (List Seat))
            → CountsOne self.old (answers_of self.old.asked.question deals)
            → CountsOne self.new (answers_of self.old.asked.question (deals ++ deal.now ∷ [])) }
    {
        let answer = self.answer(deal);
        self.add(answer);
    }

    /// What the deal answers to the question.
    pub(crate) fn answer(&self, deal: &Deal) -> u32
        ensures value { result ≡ answer self.now.asked.question deal.now }
        ensures within { result < length self.now.counts }
    {
        let _ = &self.counts;
        self.asked.question.answer(deal) as u32
    }

    /// How many rows a table can have.
    pub(crate) fn rows(&self) -> usize
        ensures { result ≡ length self.now.counts }
    {
        self.counts.len()
    }

    /// Whether the question is a condition.
    pub(crate) fn is_condition(&self) -> bool
        ensures { result ≡ is_condition self.now.asked.question }
    {
        self.asked.question.is_condition()
    }

    /// The question's title.
    pub(crate) fn title(&self) -> &[u8]
        ensures value { result.now ≡ self.now.asked.title }
        ensures few { length result.now ≤ 72 }
    {
        self.asked.title.as_bytes()
    }

    /// The question's text as a string of JSON.
    pub(crate) fn string(&self) -> &[u8]
        ensures { result.now ≡ self.now.asked.string }
    {
        self.asked.string.as_slice()
    }

    /// The sums of the answers.
    pub(crate) fn sums(&self) -> Sums
        ensures value { result ≡ self.now.sums }
        ensures small { AreSmall result }
    {
        let _ = &self.counts;
        self.sums
    }

    /// How often the number is among the answers.
    pub(crate) fn count_of(&self, number: u32) -> u64
        requires { number < length self.now.counts }
        ensures { result ≡ slice_index self.now.counts number }
    {
        self.counts[number as usize]
    }

    /// Adds an answer.
    pub(crate) fn add(&mut self, answer: u32)
        requires few { self.old.sums.deals < most_deals }
        requires within { answer < length self.old.counts }
        ensures one { self.new ≡ with_answer self.old answer }
        ensures kept { IsKeptOne self.new }
    {
        self.counts[answer as usize] += 1;
        self.sums.add(answer);
    }
}
