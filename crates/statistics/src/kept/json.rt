//! What is kept, as JSON.

ghost use Rattle.std.specs.Prelude.{◌≡◌, ◌<◌, ◌-◌, ◌^◌, List};
ghost use Rattle.boards.specs.declared.style.TableStyle.TheVariants.{Json};
ghost use Rattle.cards.specs.declared.seat.Seat.{Seat};
ghost use Rattle.sinks.specs.Sinks.{AppendsOrBreaksOff, CountsFault};
ghost use Rattle.statistics.specs.Counting.{count_text, json_questions};
ghost use Rattle.statistics.specs.internal.Counters.{Counts, asked_of, json_start};

use crate::json::put_member;
use crate::kept::Kept;
use crate::pieces::put_piece;
use boards::{TableStyle, TextBuffer};
use sinks::{Sink, SinkFault, put_all};

impl Kept {
    /// Writes all that is told, as one object.
    ///
    /// # Errors
    /// `SinkFault` if the sink failed: a proper prefix of the object was written.
    pub(crate) fn put_json<S: Sink>(&self, tried: u64, sink: &mut S) -> Result<(), SinkFault>
        requires { S.faults sink.old < 2 ^ 64 - 1 }
        ensures bytes { (deals : List (List Seat)) → Counts self.now deals
            → AppendsOrBreaksOff (S.bytes sink.old) (S.bytes sink.new) result
            (count_text Json (asked_of self.now) deals tried) }
        ensures faults { CountsFault (S.faults sink.old) (S.faults sink.new) result }
    {
        put_piece(sink, &json_start(self.deals(), tried))?;
        self.put_questions(sink)?;
        put_all(sink, b"]}\n")
    }

    /// Writes the questions and their answers.
    ///
    /// # Errors
    /// `SinkFault` if the sink failed: a proper prefix of them was written.
    fn put_questions<S: Sink>(&self, sink: &mut S) -> Result<(), SinkFault>
        requires { S.faults sink.old < 2 ^ 64 - 1 }
        ensures bytes { (deals : List (List Seat)) → Counts self.now deals
            → AppendsOrBreaksOff (S.bytes sink.old) (S.bytes sink.new) result
            (json_questions (asked_of self.now) deals) }
        ensures faults { CountsFault (S.faults sink.old) (S.faults sink.new) result }
    {
        match self {
            Kept::Alone(_) => Ok(()),
            Kept::Rows(one) => one.put_json(sink),
            Kept::Cells(two) => two.put_json(sink),
            Kept::Each(each) => each.put_parts(TableStyle::Json, sink),
        }
    }
}

/// What comes before the questions.
#[tactic(auto, unfolding(crate::specs::internal::Counters::json_start))]
fn json_start(deals: u64, tried: u64) -> TextBuffer
    ensures { result ≡ json_start deals tried }
{
    let mut text = TextBuffer::new();
    put_member(&mut text, b"{\"candidates\":", u128::from(tried));
    put_member(&mut text, b",\"deals\":", u128::from(deals));
    text.put(b",\"questions\":[");
    text
}
