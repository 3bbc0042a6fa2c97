//! What is kept of the deals that were counted.

ghost use Rattle.std.specs.Prelude.{◌≡◌, ◌≤◌, ◌<◌, ◌-◌, ◌++◌, ◌∷◌, ◌^◌, [], IfOk, List, length};
ghost use Rattle.boards.specs.declared.style.TableStyle.TheVariants.{Html, Table};
ghost use Rattle.cards.specs.declared.seat.Seat.{Seat};
ghost use Rattle.sinks.specs.Sinks.{AppendsOrBreaksOff, CountsFault};
ghost use Rattle.statistics.specs.Counting.{cells_of, count_text, most_deals, page_title};
ghost use Rattle.statistics.specs.internal.Counters.{Counts, alone_text, asked_of, body_text};
ghost use Rattle.statistics.specs.internal.Counters.{deals_kept, head_kept, page_part};
ghost use Rattle.statistics.specs.internal.Counters.{sentence_line};
ghost use Rattle.statistics.specs.internal.Texts.{HasDeals};
ghost use Rattle.statistics.specs.Subjects.{subject_of};

mod json;

use crate::csv_lines::put_total;
use crate::deals::Deals;
use crate::each::Each;
use crate::line_style::LineStyle;
use crate::one::One;
use crate::page::put_page_head;
use crate::pieces::put_piece;
use crate::sentence::put_sentence;
use crate::subject::Subject;
use crate::two::Two;
use boards::TextBuffer;
use boards::html::HTML_END;
use cards::Deal;
use sinks::{Sink, SinkFault, put_all};
use std::alloc::{AllocError, Global};

/// What is kept of the deals that were counted, for what is asked.
#[derive(Drop)]
pub(crate) enum Kept {
    /// How many there are.
    Alone(Deals),
    /// The answers to one question.
    Rows(One),
    /// The answers to two.
    Cells(Two),
    /// The answers to several, of which each has a table of its own.
    Each(Each),
}

impl Kept {
    /// Nothing is counted yet.
    ///
    /// # Errors
    /// `AllocError` if the allocation of a number for each row or cell failed.
    pub(crate) fn new(alloc: Global, subject: Subject) -> Result<Kept, AllocError>
        requires { cells_of (subject_of subject) ≤ 2 ^ 20 }
        ensures asked { IfOk result (λ kept. asked_of kept ≡ subject_of subject) }
        ensures counted { IfOk result (λ kept. Counts kept []) }
    {
        match subject {
            Subject::DealsAlone => Ok(Kept::Alone(Deals::new())),
            Subject::ByOne(asked) => Ok(Kept::Rows(One::new(alloc, asked)?)),
            Subject::ByTwo(of, by) => Ok(Kept::Cells(Two::new(alloc, of, by)?)),
            Subject::ByEach(asked) => Ok(Kept::Each(Each::new(alloc, asked)?)),
        }
    }

    /// How many deals were counted.
    pub(crate) fn deals(&self) -> u64
        ensures value { result ≡ deals_kept self.now }
        ensures few { result ≤ most_deals }
    {
        match self {
            Kept::Alone(deals) => deals.count(),
            Kept::Rows(one) => one.deals(),
            Kept::Cells(two) => two.deals(),
            Kept::Each(each) => each.deals(),
        }
    }

    /// Counts the deal.
    pub(crate) fn count(&mut self, deal: &Deal)
        requires { deals_kept self.old < most_deals }
        ensures asked { asked_of self.new ≡ asked_of self.old }
        ensures counted { (deals : List (List Seat)) → Counts self.old deals
            → Counts self.new (deals ++ deal.now ∷ []) }
    {
        match self {
            Kept::Alone(deals) => deals.add(),
            Kept::Rows(one) => one.count(deal),
            Kept::Cells(two) => two.count(deal),
            Kept::Each(each) => each.count(deal),
        }
    }

    /// Writes all that is told, for people: the sentence, and the table if there is a deal.
    ///
    /// # Errors
    /// `SinkFault` if the sink failed: a proper prefix of the text was written.
    pub(crate) fn put_table<S: Sink>(&self, tried: u64, sink: &mut S) -> Result<(), SinkFault>
        requires { S.faults sink.old < 2 ^ 64 - 1 }
        ensures bytes { (deals : List (List Seat)) → Counts self.now deals
            → AppendsOrBreaksOff (S.bytes sink.old) (S.bytes sink.new) result
            (count_text Table (asked_of self.now) deals tried) }
        ensures faults { CountsFault (S.faults sink.old) (S.faults sink.new) result }
    {
        put_piece(sink, &sentence_line(self.deals(), tried))?;
        if self.deals() == 0 {
            Ok(())
        } else {
            self.put_body(LineStyle::Table, tried, sink)
        }
    }

    /// Writes all that is told, as a page: its head with the sentence, and the table if there is a
    /// deal.
    ///
    /// # Errors
    /// `SinkFault` if the sink failed: a proper prefix of the text was written.
    pub(crate) fn put_page<S: Sink>(&self, tried: u64, sink: &mut S) -> Result<(), SinkFault>
        requires { S.faults sink.old < 2 ^ 64 - 1 }
        ensures bytes { (deals : List (List Seat)) → Counts self.now deals
            → AppendsOrBreaksOff (S.bytes sink.old) (S.bytes sink.new) result
            (count_text Html (asked_of self.now) deals tried) }
        ensures faults { CountsFault (S.faults sink.old) (S.faults sink.new) result }
    {
        put_piece(sink, &self.page_head(tried))?;
        self.put_page_part(tried, sink)?;
        put_all(sink, HTML_END)
    }

    /// Writes the table of the page, if there is a deal.
    ///
    /// # Errors
    /// `SinkFault` if the sink failed: a proper prefix of the table was written.
    fn put_page_part<S: Sink>(&self, tried: u64, sink: &mut S) -> Result<(), SinkFault>
        requires { S.faults sink.old < 2 ^ 64 - 1 }
        ensures bytes { (deals : List (List Seat)) → Counts self.now deals
            → AppendsOrBreaksOff (S.bytes sink.old) (S.bytes sink.new) result
            (page_part (asked_of self.now) deals) }
        ensures faults { CountsFault (S.faults sink.old) (S.faults sink.new) result }
    {
        if self.deals() == 0 {
            Ok(())
        } else {
            self.put_body(LineStyle::Html, tried, sink)
        }
    }

    /// The head of the page.
    fn page_head(&self, tried: u64) -> TextBuffer
        ensures { result ≡ head_kept self.now tried }
    {
        let mut text = TextBuffer::new();
        let title = self.title();
        put_page_head(&mut text, title.as_bytes(), self.deals(), tried);
        text
    }

    /// The title of the page.
    fn title(&self) -> TextBuffer
        ensures title { result ≡ page_title (asked_of self.now) }
        ensures few { length result ≤ 148 }
    {
        let mut title = TextBuffer::new();
        match self {
            Kept::Alone(_) | Kept::Each(_) => title.put(b"Deals"),
            Kept::Rows(one) => title.put(one.title()),
            Kept::Cells(two) => {
                title.put(two.title());
                title.put(b" by ");
                title.put(two.by_title());
            }
        }
        title
    }

    /// Writes what is told below the sentence. A table for people has a deal.
    ///
    /// # Errors
    /// `SinkFault` if the sink failed: a proper prefix of the text was written.
    pub(crate) fn put_body<S: Sink>(
        &self,
        style: LineStyle,
        tried: u64,
        sink: &mut S,
    ) -> Result<(), SinkFault>
        requires deals { HasDeals style (deals_kept self.now) }
        requires faults { S.faults sink.old < 2 ^ 64 - 1 }
        ensures bytes { (deals : List (List Seat)) → Counts self.now deals
            → AppendsOrBreaksOff (S.bytes sink.old) (S.bytes sink.new) result
            (body_text style (asked_of self.now) deals tried) }
        ensures faults { CountsFault (S.faults sink.old) (S.faults sink.new) result }
    {
        match self {
            Kept::Alone(deals) => put_piece(sink, &alone_text(style, deals.count(), tried)),
            Kept::Rows(one) => one.put(style, one.widths(), sink),
            Kept::Cells(two) => two.put(style, sink),
            Kept::Each(each) => each.put(style, tried, sink),
        }
    }
}

/// The sentence, and the end of its line.
#[tactic(auto, unfolding(crate::specs::internal::Counters::sentence_line))]
fn sentence_line(deals: u64, tried: u64) -> TextBuffer
    requires { deals ≤ most_deals }
    ensures { result ≡ sentence_line deals tried }
{
    let mut text = TextBuffer::new();
    put_sentence(&mut text, deals, tried);
    text.put(b"\n");
    text
}

/// What is told below the sentence, where nothing but the number of the deals is asked.
#[tactic(auto, unfolding(crate::specs::internal::Counters::alone_text))]
fn alone_text(style: LineStyle, deals: u64, tried: u64) -> TextBuffer
    ensures { result ≡ alone_text style deals tried }
{
    let mut text = TextBuffer::new();
    match style {
        LineStyle::Table | LineStyle::Html => {}
        LineStyle::Csv => put_total(&mut text, deals, tried),
    }
    text
}
