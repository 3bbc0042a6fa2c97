//! What was written before a fault of the input is passed on.

ghost use Rattle.std.specs.Prelude.{◌≡◌, ◌≢◌, ◌-◌, ◌+◌, ◌^◌, ◌<◌, ℕ, Err, IfErr};
ghost use Rattle.input.specs.Told.{FaultsIn, InputFaultsIn};
ghost use Rattle.jobs.specs.Failures.{CountsInput, faults_in, status_of};
ghost use Rattle.deals_cli.specs.internal.Ends.{EndsRead};

use boards::Cause;
use input::numbers::PickFault;
use jobs::Failure;
use sinks::Sink;

/// Returns how a job ends whose input was read so. What was written before a fault of the input is
/// passed on.
pub(crate) fn pass_on<O: Sink>(read: Result<(), PickFault>, out: &mut O) -> Result<(), Failure>
    requires { read ≢ Err PickFault.Output → O.faults out.old < 2 ^ 64 - 1 }
    ensures ends { EndsRead read result }
    ensures bytes { O.bytes out.new ≡ O.bytes out.old }
    // Both counts are from before the input was read.
    ensures faults { (before : ℕ) → FaultsIn read before (O.faults out.old)
        → O.faults out.new ≡ before + faults_in result }
    ensures input { (before after : ℕ) → InputFaultsIn read before after
        → CountsInput result before after }
    ensures flushed { IfErr result (λ e. status_of e ≡ 7 → O.is_flushed out.new) }
{
    match read {
        Ok(()) => Ok(()),
        Err(PickFault::Output) => Err(Failure::Interrupted(Cause::Output)),
        Err(PickFault::Refused(line)) => {
            out.flush()?;
            Err(Failure::Line(line))
        }
        Err(PickFault::Input) => {
            out.flush()?;
            Err(Failure::Input)
        }
    }
}
