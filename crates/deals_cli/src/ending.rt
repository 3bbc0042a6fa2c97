//! How the program ends: what it says, and its status.

ghost use Rattle.std.specs.Prelude.{◌≡◌, ◌-◌, ◌+◌, ◌^◌, ◌<◌, ◌≤◌};
ghost use Rattle.jobs.specs.Failures.{status_in};
ghost use Rattle.deals_cli.specs.Reported.{Says, SaysReport};

use boards::Report;
use jobs::Failure;
use sinks::Sink;

/// Says the report, if there is one.
fn say_report<E: Sink>(report: &Option<Report>, err: &mut E)
    requires { E.faults err.old < 2 ^ 64 - 1 }
    ensures says { SaysReport report.now (E.faults err.new ≡ E.faults err.old)
        (E.bytes err.old) (E.bytes err.new) }
    ensures faults { (E.faults err.old ≤ E.faults err.new)
        × (E.faults err.new ≤ E.faults err.old + 1) }
{
    if let Some(report) = report {
        let _ = report.say(err);
    }
}

/// Prints the report, if there is one, or the line of the failure, and returns the status. Faults
/// of the error output are ignored.
pub fn conclude<E: Sink>(ended: &Result<Option<Report>, Failure>, err: &mut E) -> u8
    requires { E.faults err.old < 2 ^ 64 - 1 }
    ensures status { result ≡ status_in ended.now }
    ensures says { Says ended.now (E.faults err.new ≡ E.faults err.old)
        (E.bytes err.old) (E.bytes err.new) }
    // A fault of the error output is at most one.
    ensures faults { (E.faults err.old ≤ E.faults err.new)
        × (E.faults err.new ≤ E.faults err.old + 1) }
{
    match ended {
        Ok(report) => {
            say_report(report, err);
            0
        }
        Err(failure) => {
            let _ = failure.say(err);
            failure.status()
        }
    }
}
