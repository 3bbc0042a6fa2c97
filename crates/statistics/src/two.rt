//! What is kept of two questions.

ghost use Rattle.std.specs.Prelude.{◌≡◌, ◌≤◌, ◌<◌, ◌+◌, ◌*◌, ◌++◌, ◌∷◌, ◌^◌, [], IfOk, List};
ghost use Rattle.std.specs.Prelude.{length};
ghost use Rattle.cards.specs.declared.seat.Seat.{Seat};
ghost use Rattle.conditions.specs.Questions.{answer, rows_of};
ghost use Rattle.statistics.specs.Counting.{most_deals, pairs_of};
ghost use Rattle.statistics.specs.internal.Kept.{CountsTwo, with_pair};

mod json;
mod page;
mod table;

use crate::one::One;
use crate::subject::TitledQuestion;
use crate::sums::Sums;
use cards::Deal;
use std::alloc::{AllocError, Global};
use std::marker::Model;

/// Two questions, and what is kept of their answers: besides that of the rows, the sums of the
/// columns' answers, how many deals each cell has, row by row, and of each column its deals and the
/// sum of their rows.
pub(crate) struct Two {
    of: One,
    by: TitledQuestion,
    by_sums: Sums,
    cells: Vec<u64>,
    column_deals: Vec<u64>,
    column_sums: Vec<u64>,
}

impl Model for Two {
    ghost use Rattle.statistics.specs.internal.Codes.{two_code};
    ghost use Rattle.statistics.specs.internal.Kept.{IsKeptTwo, KeptTwo};

    ghost Value = { KeptTwo };

    ghost coded = { two_code };

    ghost view = { λ t. record {
      of = t.of;
      by = t.by;
      by_sums = t.by_sums;
      cells = t.cells.items;
      column_deals = t.column_deals.items;
      column_sums = t.column_sums.items;
    } };

    ghost invariant = { λ t. IsKeptTwo (record {
      of = t.of;
      by = t.by;
      by_sums = t.by_sums;
      cells = t.cells.items;
      column_deals = t.column_deals.items;
      column_sums = t.column_sums.items;
    }) };
}

// By hand, so that to drop one is a call (docs/DECISIONS.md).
impl Drop for Two {
    fn drop(self) {
        let Two {
            of: _,
            by: _,
            by_sums: _,
            cells: _,
            column_deals: _,
            column_sums: _,
        } = self;
    }
}

impl Two {
    /// Nothing is counted yet.
    ///
    /// # Errors
    /// `AllocError` if the allocation of a number for each cell failed.
    pub(crate) fn new(
        alloc: Global,
        of: TitledQuestion,
        by: TitledQuestion,
    ) -> Result<Two, AllocError>
        requires { rows_of of.question * rows_of by.question ≤ 2 ^ 20 }
        ensures rows { IfOk result (λ two. two.of.asked ≡ of) }
        ensures columns { IfOk result (λ two. two.by ≡ by) }
        ensures counted { IfOk result (λ two. CountsTwo two []) }
    {
        let columns = by.question.rows() as usize;
        let of = One::new(alloc, of)?;
        let cells = vec![in alloc; 0u64; of.rows() * columns]?;
        let column_deals = vec![in alloc; 0u64; columns]?;
        let column_sums = vec![in alloc; 0u64; columns]?;
        Ok(Two {
            of,
            by,
            by_sums: Sums::new(),
            cells,
            column_deals,
            column_sums,
        })
    }

    /// How many deals were counted.
    pub(crate) fn deals(&self) -> u64
        ensures value { result ≡ self.now.of.sums.deals }
        ensures few { result ≤ most_deals }
    {
        self.of.deals()
    }

    /// The title of the rows' question.
    pub(crate) fn title(&self) -> &[u8]
        ensures value { result.now ≡ self.now.of.asked.title }
        ensures few { length result.now ≤ 72 }
    {
        self.of.title()
    }

    /// The title of the columns' question.
    pub(crate) fn by_title(&self) -> &[u8]
        ensures value { result.now ≡ self.now.by.title }
        ensures few { length result.now ≤ 72 }
    {
        self.by.title.as_bytes()
    }

    /// The text of the rows' question as a string of JSON.
    pub(crate) fn string(&self) -> &[u8]
        ensures { result.now ≡ self.now.of.asked.string }
    {
        self.of.string()
    }

    /// The text of the columns' question as a string of JSON.
    pub(crate) fn by_string(&self) -> &[u8]
        ensures { result.now ≡ self.now.by.string }
    {
        self.by.string.as_slice()
    }

    /// Counts the deal.
    pub(crate) fn count(&mut self, deal: &Deal)
        requires { self.old.of.sums.deals < most_deals }
        ensures rows { self.new.of.asked ≡ self.old.of.asked }
        ensures columns { self.new.by ≡ self.old.by }
        ensures counted { (deals : List (List Seat))
            → CountsTwo self.old (pairs_of self.old.of.asked.question self.old.by.question deals)
            → CountsTwo self.new (pairs_of self.old.of.asked.question self.old.by.question
            (deals ++ deal.now ∷ [])) }
    {
        let row = self.of.answer(deal);
        let column = self.column(deal);
        self.add(row, column);
    }

    /// The column that the deal has.
    fn column(&self, deal: &Deal) -> u32
        ensures value { result ≡ answer self.now.by.question deal.now }
        ensures within { result < length self.now.column_deals }
    {
        let _ = &self.cells;
        self.by.question.answer(deal) as u32
    }

    /// Adds a deal of the row and the column.
    fn add(&mut self, row: u32, column: u32)
        requires few { self.old.of.sums.deals < most_deals }
        requires row { row < length self.old.of.counts }
        requires column { column < length self.old.column_deals }
        ensures { self.new ≡ with_pair self.old row column }
    {
        let cell = row as usize * self.column_deals.len() + column as usize;
        self.cells[cell] += 1;
        self.column_deals[column as usize] += 1;
        self.column_sums[column as usize] += u64::from(row);
        self.by_sums.add(column);
        self.of.add(row);
    }
}
