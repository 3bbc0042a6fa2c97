//! Threads at work at the same time: two workers, and a worker beside the writer.

use crate::gates::{CountsCalls, TwoWay, WaitsForBytes, Watcher};
use crate::running::{ended, plan_of};
use crate::support::same;
use dealrun::{MemSink, Piped, Plan};
use std::alloc::Global;
use std::process::Abort;
use std::sync::atomic::{AtomicU64, Ordering};
use std::sync::{Arc, Wait};
use std::thread::Threads;

/// Each worker waits for the other at its first candidate.
#[test]
fn two_workers_at_once(rt: HostRuntime) {
    let plan = plan_of(&rt, 4, 2);
    let mut sink = MemSink::new(rt.alloc());
    let marks = [AtomicU64::new(0), AtomicU64::new(0)];
    let end = ended(&rt, rt.alloc(), &plan, &mut sink, TwoWay { marks });
    assert!(rt; end.is_ok());
}

/// The worker waits at its second candidate until more than the header was written.
#[test]
fn writes_beside_the_worker(rt: HostRuntime) {
    let plan = plan_of(&rt, 10, 1);
    let written = Arc::new(rt.alloc(), AtomicU64::new(0)).expect(&rt, "memory");
    let watcher = Watcher {
        written: Arc::try_clone(&written).expect(&rt, "memory"),
        watched: Arc::new(rt.alloc(), AtomicU64::new(0)).expect(&rt, "memory"),
        most: Arc::new(rt.alloc(), AtomicU64::new(0)).expect(&rt, "memory"),
        looks: 0,
    };
    let waits = WaitsForBytes {
        number: 1,
        more_than: 10,
        written,
    };
    let mut sink = Piped::new(watcher);
    let end = ended(&rt, rt.alloc(), &plan, &mut sink, waits);
    same(&rt, end, Ok(10));
}

/// Before the writer takes anything, a worker sends as many verdicts as its lane holds, and asks
/// its gate for one more.
#[test]
fn waits_for_the_writer(rt: HostRuntime) {
    for capacity in [1, 4, 64, 65] {
        let most = most_ahead(&rt, rt.alloc(), capacity);
        assert!(rt; most <= u64::from(capacity) + 1);
    }
}

/// For how many candidates the gate of a lane of this capacity was asked while the writer wrote the
/// header.
fn most_ahead<R: Abort + Threads + Wait + Clone + Send + 'static>(
    rt: &R,
    alloc: Global,
    capacity: u32,
) -> u64 {
    let plan = Plan::new(0, 0, 300, 1, capacity).expect(rt, "a plan");
    let calls = Arc::new(alloc, AtomicU64::new(0)).expect(rt, "memory");
    let most = Arc::new(alloc, AtomicU64::new(0)).expect(rt, "memory");
    let watcher = Watcher {
        written: Arc::new(alloc, AtomicU64::new(0)).expect(rt, "memory"),
        watched: Arc::try_clone(&calls).expect(rt, "memory"),
        most: Arc::try_clone(&most).expect(rt, "memory"),
        looks: 1_000_000,
    };
    let mut sink = Piped::new(watcher);
    let end = ended(rt, alloc, &plan, &mut sink, CountsCalls(calls));
    same(rt, end, Ok(300));
    most.load(Ordering::SeqCst)
}
