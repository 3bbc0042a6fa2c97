//! Pieces of a text.

ghost use Rattle.std.specs.Prelude.{◌≡◌, ◌≤◌, ◌<◌, ◌-◌, ◌^◌, length};
ghost use Rattle.sinks.specs.Sinks.{AppendsOrBreaksOff, CountsFault};
ghost use Rattle.statistics.specs.Columns.{commas};
ghost use Rattle.statistics.specs.internal.Texts.{first_kept};

use crate::numbers::put_commas;
use boards::TextBuffer;
use sinks::{Sink, SinkFault, put_all};

/// Writes the piece.
///
/// # Errors
/// `SinkFault` if the sink failed: a proper prefix of the piece was written.
pub(crate) fn put_piece<S: Sink>(sink: &mut S, piece: &TextBuffer) -> Result<(), SinkFault>
    requires { S.faults sink.old < 2 ^ 64 - 1 }
    ensures bytes { AppendsOrBreaksOff (S.bytes sink.old) (S.bytes sink.new) result piece.now }
    ensures faults { CountsFault (S.faults sink.old) (S.faults sink.new) result }
{
    put_all(sink, piece.as_bytes())
}

/// How many bytes the number has with its commas.
pub(crate) fn commas_len(number: u64) -> usize
    ensures value { result ≡ length (commas number) }
    ensures few { result ≤ 27 }
{
    let mut text = TextBuffer::new();
    put_commas(&mut text, number);
    text.len()
}

/// How wide the first column is, where this is the greatest answer.
pub(crate) fn first_len(is_condition: bool, greatest: u32) -> usize
    ensures value { result ≡ first_kept is_condition greatest }
    ensures few { result ≤ 27 }
{
    if is_condition {
        5
    } else {
        commas_len(u64::from(greatest)).max(5)
    }
}
