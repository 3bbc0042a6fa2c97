//! Boards that are read while a sink is told how many there were.

ghost use Rattle.std.specs.Prelude.{◌≡◌, ◌-◌, ◌<◌, ◌^◌};
ghost use Rattle.input.specs.Readers.{InputFaults, IsFed, IsReady, OnBoard, ReadsNext};
ghost use Rattle.input.specs.internal.Endings.{next_found};

use crate::Source;
use crate::records::game::Told;
use crate::records::reader::{BoardReader, Found, ReadFault};
use sinks::Sink;

/// Reads on to the next board of an input, which is then told, and of which `boards` were read
/// before. The sink hears of these before the input is asked for more.
///
/// # Errors
/// `Refused`: the first line that is refused. `Input`: the input couldn't be read.
pub(crate) fn next_watched<I: Source, S: Sink>(
    reader: &mut BoardReader,
    boards: u64,
    input: &mut I,
    sink: &mut S,
    told: &mut Told,
) -> Result<Found, ReadFault>
    requires ready { IsReady reader.old }
    requires fed { IsFed reader.old (I.given input.old) }
    requires faults { I.faults input.old < 2 ^ 64 - 1 }
    ensures reads { ReadsNext reader.old reader.new (next_found result told.new)
        (I.rest input.old) (I.rest input.new) }
    ensures ready { OnBoard (next_found result told.new) (IsReady reader.new) }
    ensures fed { OnBoard (next_found result told.new) (IsFed reader.new (I.given input.new)) }
    ensures more { OnBoard (next_found result told.new) (reader.old.taken < reader.new.taken) }
    ensures input { InputFaults result (I.faults input.old) (I.faults input.new) }
    ensures bytes { S.bytes sink.new ≡ S.bytes sink.old }
    ensures faults { S.faults sink.new ≡ S.faults sink.old }
{
    match reader.take_piece(told) {
        Ok(true) => return Ok(Found::Board),
        Ok(false) => {}
        Err(line) => return Err(ReadFault::Refused(line)),
    }
    sink.watch(boards, boards);
    reader.find(input, told)
}
