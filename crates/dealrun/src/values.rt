//! The stream of `nrand48` values.

ghost use Rattle.std.specs.Prelude.{◌≡◌, ◌-◌, ◌^◌, ◌<◌, ◌≤◌};
ghost use Rattle.sinks.specs.Sinks.{CountsFault, AppendsOrBreaksOff};
ghost use Rattle.dealrun.specs.Values.{line, lines};

use arrayvec::ArrayVec;
use itoa::Buffer;
use lcg48::Lcg48;
use sinks::{Sink, SinkFault, put_all};

/// A value and a line feed.
fn line_of(value: u32) -> ArrayVec<u8, 11>
    ensures { result.items ≡ line value }
{
    let mut buffer = Buffer::new();
    let mut text = ArrayVec::new();
    let _ = text.try_extend_from_slice(buffer.format(value).as_bytes());
    text.push(b'\n');
    text
}

/// Writes the first `count` values of a seed, at most 2^40 (POSIX `nrand48` after `srand48`), in
/// decimal, one per line.
///
/// # Errors
/// `SinkFault` if the sink failed: a proper prefix of that text was written.
pub fn stream<S: Sink>(seed: u32, count: u64, sink: &mut S) -> Result<(), SinkFault>
    requires faults { S.faults sink.old < 2 ^ 64 - 1 }
    requires count { count ≤ 2 ^ 40 }
    ensures bytes { AppendsOrBreaksOff (S.bytes sink.old) (S.bytes sink.new) result
        (lines seed count) }
    ensures faults { CountsFault (S.faults sink.old) (S.faults sink.new) result }
{
    let mut generator = Lcg48::seeded(seed);
    for _ in 0..count {
        put_all(sink, line_of(generator.nrand()).as_slice())?;
    }
    Ok(())
}
