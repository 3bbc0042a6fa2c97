//! The runs that write Portable Bridge Notation: the runs in any notation, at PBN's printers.

ghost use Rattle.std.specs.Prelude.{◌≡◌, ◌-◌, ◌^◌, ◌<◌, length, IfOk};
ghost use Rattle.pbn_text.specs.Games.{pbn};
ghost use Rattle.dealrun.specs.Headline.{TakesWhatIsOwed, WritesTextIn};
ghost use Rattle.dealrun.specs.Interrupted.{FailsAtOutput, StandsIn};
ghost use Rattle.boards.specs.Reference.{WritesPlainIn};
ghost use Rattle.sinks.specs.Sinks.{CountsFault};
ghost use Rattle.boards.specs.Text.{accepted};

use crate::runs::{Report, RunFault, out_of_memory, run_in};
use boards::{PlainFault, Plan, run_plain_in};
use conditions::Cond;
use lanes::Gate;
use pbn_text::{Printer, Reference};
use sinks::Sink;
use std::alloc::Global;
use std::sync::{Arc, Wait};
use std::thread::Threads;

/// Writes the games of the accepted candidates of a plan, judged by its workers in threads of their
/// own.
///
/// All memory is taken first: a lane and a clone of the condition for each worker, and 128 KiB for
/// the printer. So the calling thread needs little stack: a plain `make` of the program `deals`
/// needs 88 KiB, all in all. Then one worker starts for each lane, and the caller's thread writes
/// while they run. It may wait for its workers.
///
/// # Errors
///
/// The first of these that is due. `Memory`: an allocation failed, before any thread started.
/// `Spawn`: a thread could not be started; those that were are stopped and joined, which no clause
/// says. `Output`: the sink failed. `Stopped`: a worker ended before it had sent all, and the limit
/// of boards was not met. `Unclosed`: a lane can't say how it ended.
pub fn run<
    R: Threads + Wait + Clone + Send + 'static,
    G: Gate + Drop + Send + Sync + 'static,
    S: Sink,
>(
    rt: &R,
    alloc: Global,
    plan: &Plan,
    cond: Cond,
    sink: &mut S,
    gate: Arc<G, Global>,
) -> Result<Report, RunFault>
    requires { S.faults sink.old < 2 ^ 64 - 1 }
    // What was taken from each lane is its worker's verdicts, and all that is needed.
    ensures lanes { IfOk result (λ r. TakesWhatIsOwed plan.now cond r.lanes.items r.boards) }
    // The bytes are the games of the accepted deals, within the limit, in order.
    ensures text { IfOk result (λ r. WritesTextIn (pbn plan.now.heading) plan.now cond r.boards
        (S.bytes sink.old) (S.bytes sink.new)) }
    // However the run ends: the lanes as they are, and the bytes of what was taken from them.
    ensures stands { StandsIn (pbn plan.now.heading) plan.now cond result
        (S.bytes sink.old) (S.bytes sink.new) }
    // The sink failed, once, if and only if the cause is Output.
    ensures faults { FailsAtOutput result (S.faults sink.old) (S.faults sink.new) }
{
    match Printer::new(alloc, plan.heading()) {
        Ok(mut printer) => run_in(rt, alloc, plan, cond, &mut printer, sink, gate),
        Err(_) => Err(out_of_memory(alloc)),
    }
}

/// Tries the plan's candidates in order, and writes the header and the games of those that meet the
/// condition, at most the plan's limit of them. It takes no memory. Returns how many games were
/// written.
///
/// # Errors
///
/// `PlainFault` if the sink failed: a proper prefix of that text is written, and the fault has the
/// number of whole games in it.
pub fn run_plain<S: Sink>(plan: &Plan, cond: &Cond, sink: &mut S) -> Result<u64, PlainFault>
    requires { S.faults sink.old < 2 ^ 64 - 1 }
    ensures bytes { WritesPlainIn (pbn plan.now.heading) plan.now cond.now result
        (S.bytes sink.old) (S.bytes sink.new) }
    ensures boards { IfOk result (λ boards. boards ≡ length (accepted plan.now cond.now)) }
    ensures faults { CountsFault (S.faults sink.old) (S.faults sink.new) result }
{
    run_plain_in(plan, cond, &mut Reference::new(plan.heading()), sink)
}
