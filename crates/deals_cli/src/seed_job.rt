//! Drawing a seed.

ghost use Rattle.std.specs.Prelude.{◌≡◌, ◌-◌, ◌+◌, ◌^◌, ◌<◌, ◌++◌, ◌∷◌, [], IfErr, decimal};
ghost use Rattle.jobs.specs.Failures.{CountsInput, faults_in, status_of};
ghost use Rattle.deals_cli.specs.internal.Ends.{EndsDraw};
ghost use Rattle.sinks.specs.Sinks.{AppendsOrBreaksOff, CountsFault};

use boards::Cause;
use input::{BytesFault, Source, read_four};
use itoa::Buffer;
use jobs::Failure;
use sinks::{Sink, SinkFault, put_all};

/// Writes the number that the next four bytes of the input are, the lowest first. What was written
/// before is passed on where the input is at fault.
pub(crate) fn draw<I: Source, O: Sink>(input: &mut I, out: &mut O) -> Result<(), Failure>
    requires output { O.faults out.old < 2 ^ 64 - 1 }
    requires input { I.faults input.old < 2 ^ 64 - 1 }
    ensures ends { EndsDraw result (I.rest input.old) (I.rest input.new)
        (O.bytes out.old) (O.bytes out.new) }
    ensures faults { O.faults out.new ≡ O.faults out.old + faults_in result }
    ensures input { CountsInput result (I.faults input.old) (I.faults input.new) }
    ensures flushed { IfErr result (λ e. status_of e ≡ 7 → O.is_flushed out.new) }
{
    let bytes = match read_four(input) {
        Ok(bytes) => bytes,
        Err(BytesFault::Failed) => {
            out.flush()?;
            return Err(Failure::Input);
        }
        Err(BytesFault::Ended) => {
            out.flush()?;
            return Err(Failure::EndOfInput);
        }
    };
    match put_seed(u32::from_le_bytes(bytes), out) {
        Ok(()) => Ok(()),
        Err(_) => Err(Failure::Interrupted(Cause::Output)),
    }
}

/// Writes the number and LF.
fn put_seed<O: Sink>(seed: u32, out: &mut O) -> Result<(), SinkFault>
    requires { O.faults out.old < 2 ^ 64 - 1 }
    ensures bytes { AppendsOrBreaksOff (O.bytes out.old) (O.bytes out.new) result
        (decimal seed ++ (10 ∷ [])) }
    ensures faults { CountsFault (O.faults out.old) (O.faults out.new) result }
{
    put_all(out, Buffer::new().format(seed).as_bytes())?;
    put_all(out, b"\n")
}
