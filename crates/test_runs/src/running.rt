//! Runs of plans with every deal a board, over lanes and plainly.

ghost use Rattle.std.specs.Prelude.{◌-◌, ◌^◌, ◌<◌};

use cond_lang::Cond;
use dealrun::{Cause, Fuse, MemSink, PlainFault, Plan, Report, RunFault, Sink, run, run_plain};
use lanes::Gate;
use std::alloc::Global;
use std::process::Abort;
use std::sync::{Arc, Wait};
use std::thread::Threads;

/// The plan of the first candidates of seed 0, this many, over this many workers.
pub fn plan_of(rt: &impl Abort, count: u64, workers: u32) -> Plan {
    Plan::new(0, 0, count, workers, 64).expect(rt, "a plan")
}

/// Runs a plan over lanes, with every deal a board.
pub fn run_all<
    R: Threads + Wait + Clone + Send + 'static,
    G: Gate + Drop + Send + Sync + 'static,
    S: Sink,
>(
    rt: &R,
    alloc: Global,
    plan: &Plan,
    sink: &mut S,
    gate: Arc<G, Global>,
) -> Result<Report, RunFault>
    requires { S.faults sink.old < 2 ^ 64 - 1 }
{
    run(rt, alloc, plan, Cond::any(alloc), sink, gate)
}

/// How a run over lanes ended: its boards, or why it was interrupted and its boards until then.
pub type Ended = Result<u64, (Cause, u64)>;

/// Runs a plan over lanes, with every deal a board, and tells how that ended.
pub fn ended<
    R: Abort + Threads + Wait + Clone + Send + 'static,
    G: Gate + Drop + Send + Sync + 'static,
    S: Sink,
>(rt: &R, alloc: Global, plan: &Plan, sink: &mut S, gate: G) -> Ended
    requires { S.faults sink.old < 2 ^ 64 - 1 }
{
    let gate = Arc::new(alloc, gate).expect(rt, "memory");
    match run_all(rt, alloc, plan, sink, gate) {
        Ok(report) => Ok(report.boards),
        Err(fault) => Err((fault.cause, fault.boards)),
    }
}

/// The plain run of a plan, with every deal a board: how it ended, and what it wrote.
pub fn run_all_plainly(alloc: Global, plan: &Plan) -> (Result<u64, PlainFault>, MemSink) {
    let mut sink = MemSink::new(alloc);
    let boards = run_plainly(plan, &Cond::any(alloc), &mut sink);
    (boards, sink)
}

/// The plain run of a plan.
pub fn run_plainly<S: Sink>(plan: &Plan, cond: &Cond, sink: &mut S) -> Result<u64, PlainFault>
    requires { S.faults sink.old < 2 ^ 64 - 1 }
{
    run_plain(plan, cond, sink)
}
