//! Two questions as JSON.

ghost use Rattle.std.specs.Prelude.{◌≡◌, ◌<◌, ◌-◌, ◌^◌, ◌||◌, IfOk, drop, length};
ghost use Rattle.sinks.specs.Sinks.{AppendsOrBreaksOff, CountsFault};
ghost use Rattle.statistics.specs.internal.Items.{after, has_some, pairs_kept, row_kept, two_json};
ghost use Rattle.statistics.specs.internal.Items.{two_start};
ghost use Rattle.statistics.specs.internal.Kept.{IsKeptTwo};

use crate::json::{json_pair, put_between, put_item};
use crate::two::Two;
use sinks::{Sink, SinkFault, put_all};

impl Two {
    /// Writes the questions and their answers as an object.
    ///
    /// # Errors
    /// `SinkFault` if the sink failed: a proper prefix of the object was written.
    pub(crate) fn put_json<S: Sink>(&self, sink: &mut S) -> Result<(), SinkFault>
        requires { S.faults sink.old < 2 ^ 64 - 1 }
        ensures bytes { AppendsOrBreaksOff (S.bytes sink.old) (S.bytes sink.new) result
            (two_json self.now) }
        ensures faults { CountsFault (S.faults sink.old) (S.faults sink.new) result }
        ensures kept { IsKeptTwo self.now }
    {
        let _ = &self.cells;
        self.put_texts(sink)?;
        self.put_pairs(sink)?;
        put_all(sink, b"]}")
    }

    /// Writes what comes before the items.
    ///
    /// # Errors
    /// `SinkFault` if the sink failed: a proper prefix of it was written.
    fn put_texts<S: Sink>(&self, sink: &mut S) -> Result<(), SinkFault>
        requires { S.faults sink.old < 2 ^ 64 - 1 }
        ensures bytes { AppendsOrBreaksOff (S.bytes sink.old) (S.bytes sink.new) result
            (two_start self.now) }
        ensures faults { CountsFault (S.faults sink.old) (S.faults sink.new) result }
    {
        put_between(sink, b"{\"of\":", self.string(), b",\"by\":")?;
        put_between(sink, b"", self.by_string(), b",\"values\":[")
    }

    /// Writes an item for each pair of numbers that came.
    ///
    /// # Errors
    /// `SinkFault` if the sink failed: a proper prefix of the items was written.
    fn put_pairs<S: Sink>(&self, sink: &mut S) -> Result<(), SinkFault>
        requires { S.faults sink.old < 2 ^ 64 - 1 }
        ensures bytes { AppendsOrBreaksOff (S.bytes sink.old) (S.bytes sink.new) result
            (drop 1 (pairs_kept self.now)) }
        ensures faults { CountsFault (S.faults sink.old) (S.faults sink.new) result }
    {
        let rows = self.of.rows_shown();
        let mut any = false;
        for number in rows.first..rows.end {
            any = self.put_row_pairs(any, number, sink)?;
        }
        Ok(())
    }

    /// Writes an item for each pair of numbers that came in the row. Returns whether some item was
    /// written by then.
    ///
    /// # Errors
    /// `SinkFault` if the sink failed: a proper prefix of the items was written.
    fn put_row_pairs<S: Sink>(&self, any: bool, row: u32, sink: &mut S) -> Result<bool, SinkFault>
        requires row { row < length self.now.of.counts }
        requires faults { S.faults sink.old < 2 ^ 64 - 1 }
        ensures any { IfOk result (λ b. b ≡ any || has_some (row_kept self.now row)) }
        ensures bytes { AppendsOrBreaksOff (S.bytes sink.old) (S.bytes sink.new) result
            (after any (row_kept self.now row)) }
        ensures faults { CountsFault (S.faults sink.old) (S.faults sink.new) result }
    {
        let columns = self.columns_shown();
        let mut some = any;
        for column in columns.first..columns.end {
            some = put_item(sink, some, &json_pair(row, column, self.cell(row, column)))?;
        }
        Ok(some)
    }
}
