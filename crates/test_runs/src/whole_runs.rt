//! Runs over lanes that end well: the same bytes as the plain run, whatever the workers and the
//! capacity.

use crate::running::{ended, plan_of, run_all, run_all_plainly, run_plainly};
use crate::support::same;
use cond_lang::{Cond, parse};
use dealrun::{Fuse, MemSink, Plan, run};
use lanes::OpenGate;
use std::alloc::Global;
use std::process::Abort;
use std::sync::{Arc, Wait};
use std::thread::Threads;

#[test]
fn writes_the_plain_text(rt: HostRuntime) {
    for text in [b"0==0".as_slice(), b"hcp(north)>=15", b"not hcp(north)>=15"] {
        let condition = parse(rt.alloc(), text).expect(&rt, "a condition");
        let plan = plan_of(&rt, 200, 1);
        let mut plain = MemSink::new(rt.alloc());
        let boards = run_plainly(&plan, &condition, &mut plain).ok();
        for (workers, capacity) in [(1, 1), (1, 64), (3, 1), (3, 64), (16, 1), (16, 64)] {
            let plan = Plan::new(0, 0, 200, workers, capacity).expect(&rt, "a plan");
            writes(&rt, rt.alloc(), &plan, &condition, boards, plain.bytes());
        }
    }
}

/// The run over lanes ends well with these boards and this text.
fn writes<R: Abort + Threads + Wait + Clone + Send + 'static>(
    rt: &R,
    alloc: Global,
    plan: &Plan,
    condition: &Cond,
    boards: Option<u64>,
    text: &[u8],
) {
    let condition = condition.try_clone().expect(rt, "memory");
    let (made, sink) = run_in_memory(rt, alloc, plan, condition);
    same(rt, made, boards);
    assert!(rt; sink.bytes() == text);
}

/// The boards of a run that ends well, and what it wrote.
fn run_in_memory<R: Abort + Threads + Wait + Clone + Send + 'static>(
    rt: &R,
    alloc: Global,
    plan: &Plan,
    condition: Cond,
) -> (Option<u64>, MemSink) {
    let mut sink = MemSink::new(alloc);
    let gate = Arc::new(alloc, OpenGate).expect(rt, "memory");
    let report = run(rt, alloc, plan, condition, &mut sink, gate);
    (report.ok().map(|report| report.boards), sink)
}

/// A sink that takes one byte a write gets the same bytes, as do more workers than candidates, and
/// a run of none.
#[test]
fn writes_the_plain_text_byte_by_byte(rt: HostRuntime) {
    for (count, workers, bytes) in [(200, 3, 25_052), (3, 16, 381), (0, 1, 10)] {
        let plan = plan_of(&rt, count, workers);
        let (boards, plain) = run_all_plainly(rt.alloc(), &plan);
        same(&rt, (boards, plain.bytes().len()), (Ok(count), bytes));
        writes_byte_by_byte(&rt, rt.alloc(), &plan, count, plain.bytes());
    }
}

/// The run over lanes writes this many boards as this text, a byte at a time.
fn writes_byte_by_byte<R: Abort + Threads + Wait + Clone + Send + 'static>(
    rt: &R,
    alloc: Global,
    plan: &Plan,
    boards: u64,
    text: &[u8],
) {
    let mut sink = Fuse::new(MemSink::new(alloc), 0, 1, true);
    let end = ended(rt, alloc, plan, &mut sink, OpenGate);
    same(rt, end, Ok(boards));
    assert!(rt; sink.bytes() == text);
}

/// With a limit no candidate is taken after it is met, and what is left of a lane comes next.
#[test]
fn stops_at_a_limit(rt: HostRuntime) {
    let plan = plan_of(&rt, 200, 3).limited(5).expect(&rt, "a plan");
    let mut sink = MemSink::new(rt.alloc());
    let gate = Arc::new(rt.alloc(), OpenGate).expect(&rt, "memory");
    let end = run_all(&rt, rt.alloc(), &plan, &mut sink, gate);
    let mut report = end.ok().expect(&rt, "a report");
    same(&rt, report.boards, 5);
    for (lane, number) in report.lanes.iter_mut().zip([6, 7, 5]) {
        assert!(rt; lane.take().is_none_or(|verdict| verdict.number == number));
    }
    same(&rt, sink.bytes().len(), 628);
}
