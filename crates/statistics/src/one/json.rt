//! One question as JSON.

ghost use Rattle.std.specs.Prelude.{◌≡◌, ◌<◌, ◌-◌, ◌^◌, drop};
ghost use Rattle.sinks.specs.Sinks.{AppendsOrBreaksOff, CountsFault};
ghost use Rattle.statistics.specs.internal.Items.{one_json, sums_kept, values_kept};
ghost use Rattle.statistics.specs.internal.Kept.{IsKeptOne};

use crate::json::{json_value, put_between, put_item, put_member};
use crate::one::One;
use crate::pieces::put_piece;
use boards::TextBuffer;
use sinks::{Sink, SinkFault};

impl One {
    /// Writes the question and its answers as an object.
    ///
    /// # Errors
    /// `SinkFault` if the sink failed: a proper prefix of the object was written.
    pub(crate) fn put_json<S: Sink>(&self, sink: &mut S) -> Result<(), SinkFault>
        requires { S.faults sink.old < 2 ^ 64 - 1 }
        ensures bytes { AppendsOrBreaksOff (S.bytes sink.old) (S.bytes sink.new) result
            (one_json self.now) }
        ensures faults { CountsFault (S.faults sink.old) (S.faults sink.new) result }
        ensures kept { IsKeptOne self.now }
    {
        let _ = &self.counts;
        put_between(sink, b"{\"of\":", self.string(), b",\"values\":[")?;
        self.put_values(sink)?;
        put_piece(sink, &self.json_sums())
    }

    /// Writes an item for each number that came.
    ///
    /// # Errors
    /// `SinkFault` if the sink failed: a proper prefix of the items was written.
    fn put_values<S: Sink>(&self, sink: &mut S) -> Result<(), SinkFault>
        requires { S.faults sink.old < 2 ^ 64 - 1 }
        ensures bytes { AppendsOrBreaksOff (S.bytes sink.old) (S.bytes sink.new) result
            (drop 1 (values_kept self.now)) }
        ensures faults { CountsFault (S.faults sink.old) (S.faults sink.new) result }
    {
        let rows = self.rows_shown();
        let mut any = false;
        for number in rows.first..rows.end {
            any = put_item(sink, any, &json_value(number, self.count_of(number)))?;
        }
        Ok(())
    }

    /// What comes after the items: of a value the sums.
    #[tactic(auto, unfolding(crate::specs::internal::Items::sums_kept))]
    fn json_sums(&self) -> TextBuffer
        ensures { result ≡ sums_kept self.now }
    {
        let mut text = TextBuffer::new();
        text.put(b"]");
        if !self.is_condition() {
            put_member(&mut text, b",\"sum\":", u128::from(self.sums.sum));
            put_member(&mut text, b",\"squares\":", self.sums.squares);
        }
        text.put(b"}");
        text
    }
}
