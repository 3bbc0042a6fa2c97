//! Runs: after `Memory` and `Spawn` nothing was written, and a sink without memory keeps a
//! beginning of the text.

use crate::support::{equals, holds};
use cond_lang::{Cond, parse};
use dealrun::{Cause, MemSink, Plan, Report, RunFault, run, run_plain};
use lanes::OpenGate;
use std::alloc::Global;
use std::process::Abort;
use std::sync::{Arc, Wait};
use std::thread::Threads;

/// Twenty candidates of seed 0 are 2,496 bytes.
const WHOLE: usize = 2_496;

fn checks_report<R: Abort>(rt: &R, report: &Report, workers: u32, bytes: &[u8]) {
    equals(rt, &(report.boards, bytes.len()), &(20, WHOLE));
    equals(rt, &report.lanes.len(), &(workers as usize));
    let are_settled = report.lanes.iter().all(|lane| lane.is_settled());
    holds(rt, "all lanes are settled", are_settled);
}

/// Whether the lanes of the workers that were started are settled, and no lane after them.
fn is_partly_settled(fault: &RunFault) -> bool {
    let settled = fault.lanes.iter().take_while(|lane| lane.is_settled());
    let settled = settled.count();
    let mut others = fault.lanes.iter().skip(settled);
    settled < fault.lanes.len() && !others.any(|lane| lane.is_settled())
}

fn checks_fault<R: Abort>(rt: &R, fault: &RunFault, workers: u32, bytes: &[u8]) {
    match fault.cause {
        Cause::Memory => {
            let is_nothing = fault.lanes.is_empty() && fault.boards == 0 && bytes.is_empty();
            holds(rt, "nothing was begun", is_nothing);
        }
        Cause::Spawn => {
            equals(rt, &fault.lanes.len(), &(workers as usize));
            holds(
                rt,
                "nothing is written",
                fault.boards == 0 && bytes.is_empty(),
            );
            holds(
                rt,
                "the started lanes are settled",
                is_partly_settled(fault),
            );
        }
        Cause::Output => {
            equals(rt, &fault.lanes.len(), &(workers as usize));
            holds(rt, "not all is written", bytes.len() < WHOLE);
        }
        Cause::Stopped { worker } | Cause::Unclosed { worker } => {
            assert!(rt; false, "worker {worker}");
        }
    }
}

/// Compares a text with that of one thread.
fn checks_text<R: Abort>(rt: &R, alloc: Global, plan: &Plan, bytes: &[u8]) {
    let mut plain = MemSink::new(alloc);
    let is_whole = run_plain(plan, &Cond::any(alloc), &mut plain).is_ok();
    let plain = plain.bytes();
    equals(rt, &is_whole, &(plain.len() == WHOLE));
    let is_same = plain.starts_with(bytes) || bytes.starts_with(plain);
    holds(rt, "one text begins with the other", is_same);
}

/// Runs a plan under a condition, if there is memory for it. Returns how it ended and its sink.
fn run_under<R: Abort + Threads + Wait + Clone + Send + 'static>(
    rt: &R,
    alloc: Global,
    plan: &Plan,
    text: &[u8],
) -> Option<(Result<Report, RunFault>, MemSink)> {
    let condition = parse(alloc, text).ok()?;
    let gate = Arc::new(alloc, OpenGate).ok()?;
    let mut sink = MemSink::new(alloc);
    let ended = run(rt, alloc, plan, condition, &mut sink, gate);
    Some((ended, sink))
}

/// Runs a plan under a condition that holds of every deal, and compares its text with that of one
/// thread.
fn runs_or_tells_why<R: Abort + Threads + Wait + Clone + Send + 'static>(
    rt: &R,
    alloc: Global,
    workers: u32,
    text: &[u8],
) {
    let Ok(plan) = Plan::new(0, 0, 20, workers, 4) else {
        assert!(rt; false);
        return;
    };
    let Some((ended, sink)) = run_under(rt, alloc, &plan, text) else {
        return;
    };
    match &ended {
        Ok(report) => checks_report(rt, report, workers, sink.bytes()),
        Err(fault) => checks_fault(rt, fault, workers, sink.bytes()),
    }
    checks_text(rt, alloc, &plan, sink.bytes());
}

#[test]
fn one_worker(rt: HostRuntime) {
    runs_or_tells_why(&rt, rt.alloc(), 1, b"0==0");
}

#[test]
fn three_workers(rt: HostRuntime) {
    runs_or_tells_why(
        &rt,
        rt.alloc(),
        3,
        b"hcp(north)+hcp(east)+hcp(south)+hcp(west)==40",
    );
}

#[test]
fn sixteen_workers(rt: HostRuntime) {
    runs_or_tells_why(
        &rt,
        rt.alloc(),
        16,
        b"not (1==2 or balanced(north) and not balanced(north))",
    );
}
