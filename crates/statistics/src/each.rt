//! What is kept of several questions.

ghost use Rattle.std.specs.Prelude.{◌≡◌, ◌≤◌, ◌<◌, ◌+◌, ◌-◌, ◌++◌, ◌∷◌, ◌^◌, [], IfOk, List};
ghost use Rattle.cards.specs.declared.seat.Seat.{Seat};
ghost use Rattle.sinks.specs.Sinks.{AppendsOrBreaksOff, CountsFault};
ghost use Rattle.statistics.specs.Counting.{most_deals, most_rows, parts_text};
ghost use Rattle.statistics.specs.internal.Kept.{CountsEach, asked_each};
ghost use Rattle.statistics.specs.internal.Parts.{TellsDeals, each_text};
ghost use Rattle.statistics.specs.internal.Texts.{HasDeals};

use crate::csv_lines::counts_text;
use crate::line_style::LineStyle;
use crate::one::One;
use crate::pieces::put_piece;
use crate::subject::TitledQuestion;
use boards::TableStyle;
use cards::Deal;
use sinks::{Sink, SinkFault};
use std::alloc::{AllocError, Global};
use std::marker::Model;

/// How many deals were counted, and what is kept of their answers to each of several questions.
pub(crate) struct Each {
    deals: u64,
    ones: Vec<One>,
}

impl Model for Each {
    ghost use Rattle.statistics.specs.internal.Codes.{each_code};
    ghost use Rattle.statistics.specs.internal.Kept.{IsKeptEach, KeptEach};

    ghost Value = { KeptEach };

    ghost coded = { each_code };

    ghost view = { λ e. record { deals = e.deals; ones = e.ones.items } };

    ghost invariant = { λ e. IsKeptEach (record { deals = e.deals; ones = e.ones.items }) };
}

// By hand, so that to drop one is a call (docs/DECISIONS.md).
impl Drop for Each {
    fn drop(self) {
        let Each { deals: _, ones: _ } = self;
    }
}

impl Each {
    /// Nothing is counted yet.
    ///
    /// # Errors
    /// `AllocError` if the allocation of a number for each row of a table failed.
    pub(crate) fn new(alloc: Global, asked: Vec<TitledQuestion>) -> Result<Each, AllocError>
        requires { most_rows asked.items ≤ 2 ^ 20 }
        ensures asked { IfOk result (λ each. asked_each each ≡ asked.items) }
        ensures counted { IfOk result (λ each. CountsEach each []) }
    {
        let mut ones = Vec::with_capacity(alloc, asked.len())?;
        for question in asked {
            ones.push(One::new(alloc, question)?)?;
        }
        Ok(Each { deals: 0, ones })
    }

    /// How many deals were counted.
    pub(crate) fn deals(&self) -> u64
        ensures value { result ≡ self.now.deals }
        ensures few { result ≤ most_deals }
    {
        let _ = &self.ones;
        self.deals
    }

    /// Counts the deal.
    pub(crate) fn count(&mut self, deal: &Deal)
        requires { self.old.deals < most_deals }
        ensures asked { asked_each self.new ≡ asked_each self.old }
        ensures counted { (deals : List (List Seat)) → CountsEach self.old deals
            → CountsEach self.new (deals ++ deal.now ∷ []) }
    {
        self.deals += 1;
        for one in self.ones.iter_mut() {
            one.count(deal);
        }
    }

    /// Writes what is told below the sentence. A table for people has a deal.
    ///
    /// # Errors
    /// `SinkFault` if the sink failed: a proper prefix of the text was written.
    pub(crate) fn put<S: Sink>(
        &self,
        style: LineStyle,
        tried: u64,
        sink: &mut S,
    ) -> Result<(), SinkFault>
        requires deals { HasDeals style self.now.deals }
        requires faults { S.faults sink.old < 2 ^ 64 - 1 }
        ensures bytes { (deals : List (List Seat)) → CountsEach self.now deals
            → AppendsOrBreaksOff (S.bytes sink.old) (S.bytes sink.new) result
            (each_text style (asked_each self.now) deals tried) }
        ensures faults { CountsFault (S.faults sink.old) (S.faults sink.new) result }
    {
        match style {
            LineStyle::Table => self.put_parts(TableStyle::Table, sink),
            LineStyle::Csv => {
                put_piece(sink, &counts_text(self.deals(), tried))?;
                self.put_parts(TableStyle::Csv, sink)
            }
            LineStyle::Html => self.put_parts(TableStyle::Html, sink),
        }
    }

    /// Writes what is told of each question, one after the other. A table for people has a deal.
    ///
    /// # Errors
    /// `SinkFault` if the sink failed: a proper prefix of the text was written.
    pub(crate) fn put_parts<S: Sink>(
        &self,
        style: TableStyle,
        sink: &mut S,
    ) -> Result<(), SinkFault>
        requires deals { TellsDeals style self.now.deals }
        requires faults { S.faults sink.old < 2 ^ 64 - 1 }
        ensures bytes { (deals : List (List Seat)) → CountsEach self.now deals
            → AppendsOrBreaksOff (S.bytes sink.old) (S.bytes sink.new) result
            (parts_text style (asked_each self.now) deals) }
        ensures faults { CountsFault (S.faults sink.old) (S.faults sink.new) result }
    {
        for (index, one) in self.ones.iter().enumerate() {
            one.put_part(style, index as u64 + 1, sink)?;
        }
        Ok(())
    }
}
