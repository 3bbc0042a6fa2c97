//! What counts the deals of a run.

ghost use Rattle.std.specs.Prelude.{◌≡◌, ◌≤◌, ◌^◌, [], IfOk};
ghost use Rattle.statistics.specs.Counting.{cells_of, counting};
ghost use Rattle.statistics.specs.Subjects.{subject_of};

use crate::kept::Kept;
use crate::line_style::LineStyle;
use crate::subject::Subject;
use boards::{Board, Notation, TableStyle};
use cards::MAX_CANDIDATES;
use sinks::{Sink, SinkFault};
use std::alloc::{AllocError, Global};

/// How many deals are counted at most: no plan has more candidates.
const MAX_DEALS: u64 = MAX_CANDIDATES;

/// Counts the deals of boards by their answers. As a notation it writes no board: its footer is the
/// table. Only the first 2^40 boards are counted: no run has more.
///
/// It takes the memory for the numbers of a table once, when it is created, and none to count.
pub struct Counter {
    style: TableStyle,
    kept: Kept,
}

// By hand, so that to drop one is a call (docs/DECISIONS.md).
impl Drop for Counter {
    fn drop(self) {
        let Counter { style: _, kept: _ } = self;
    }
}

impl Counter {
    /// Returns a counter of a subject that isn't too large, in this style. It has counted nothing.
    ///
    /// # Errors
    /// `AllocError` if the allocation of a number for each row or cell failed.
    pub fn new(alloc: Global, style: TableStyle, subject: Subject) -> Result<Counter, AllocError>
        requires { cells_of (subject_of subject) ≤ 2 ^ 20 }
        ensures layout { IfOk result (λ c.
            ⟦<Counter as Notation>⟧.layout c ≡ counting style (subject_of subject)) }
        ensures printed { IfOk result (λ c. ⟦<Counter as Notation>⟧.printed c ≡ []) }
        ensures counted { IfOk result (λ c. ⟦<Counter as Notation>⟧.has_printed c []) }
    {
        Ok(Counter {
            style,
            kept: Kept::new(alloc, subject)?,
        })
    }
}

impl Notation for Counter {
    ghost use Rattle.std.specs.Prelude.{[]};
    ghost use Rattle.statistics.specs.Counting.{counting};
    ghost use Rattle.statistics.specs.internal.Counters.{Counts, asked_of, deals_of};

    ghost layout = { λ c. counting c.style (asked_of c.kept) };

    ghost printed = { λ _. [] };

    ghost has_printed = { λ c boards. Counts c.kept (deals_of boards) };

    fn header(&self) -> &[u8] {
        b""
    }

    fn print(&mut self, board: &Board) {
        if self.kept.deals() < MAX_DEALS {
            self.kept.count(&board.deal);
        }
    }

    fn text(&self) -> &[u8] {
        b""
    }

    fn put_footer<S: Sink>(&self, tried: u64, sink: &mut S) -> Result<(), SinkFault> {
        match self.style {
            TableStyle::Table => self.kept.put_table(tried, sink),
            TableStyle::Csv => self.kept.put_body(LineStyle::Csv, tried, sink),
            TableStyle::Html => self.kept.put_page(tried, sink),
            TableStyle::Json => self.kept.put_json(tried, sink),
        }
    }
}
