//! Runs over lanes that are interrupted: failing sinks and stopping gates.

use crate::gates::StopsAt;
use crate::running::{ended, plan_of, run_all, run_all_plainly};
use crate::support::same;
use dealrun::{Cause, Fuse, MemSink, Plan};
use lanes::{Core, Event, LaneOut, OpenGate};
use std::alloc::Global;
use std::process::Abort;
use std::sync::{Arc, Wait};
use std::thread::Threads;

/// The text of 200 candidates of seed 0, all accepted.
fn whole_text(rt: &impl Abort, alloc: Global) -> MemSink {
    let (boards, whole) = run_all_plainly(alloc, &plan_of(rt, 200, 1));
    boards.expect(rt, "the whole text");
    whole
}

/// A sink that fails at its n-th write, n counting up until the run ends Ok.
#[test]
fn fails_at_each_write(rt: HostRuntime) {
    let whole = whole_text(&rt, rt.alloc());
    for workers in [1, 3, 16] {
        let plan = plan_of(&rt, 200, workers);
        for fails_at in 1..=202u64 {
            fails_at_write(&rt, rt.alloc(), &plan, fails_at, whole.bytes());
        }
    }
}

/// The run ends at this write, all boards written at 202, and the text begins like the whole.
fn fails_at_write<R: Abort + Threads + Wait + Clone + Send + 'static>(
    rt: &R,
    alloc: Global,
    plan: &Plan,
    fails_at: u64,
    whole: &[u8],
) {
    let mut sink = Fuse::new(MemSink::new(alloc), fails_at, 4096, true);
    let end = ended(rt, alloc, plan, &mut sink, OpenGate);
    if fails_at == 202 {
        same(rt, end, Ok(200));
    } else {
        same(rt, end, Err((Cause::Output, fails_at.saturating_sub(2))));
    }
    assert!(rt; whole.starts_with(sink.bytes()));
}

/// A sink of one byte a write: a fault before the last byte of a game leaves it out of the count.
#[test]
fn counts_whole_games(rt: HostRuntime) {
    let plan = plan_of(&rt, 200, 3);
    for (fails_at, bytes, boards) in [(1, 0, 0), (135, 134, 0), (136, 135, 1)] {
        let mut sink = Fuse::new(MemSink::new(rt.alloc()), fails_at, 1, true);
        let end = ended(&rt, rt.alloc(), &plan, &mut sink, OpenGate);
        same(&rt, end, Err((Cause::Output, boards)));
        same(&rt, sink.bytes().len(), bytes);
    }
}

/// A gate that answers false at each number in turn.
#[test]
fn stops_at_each_number(rt: HostRuntime) {
    let whole = whole_text(&rt, rt.alloc());
    for workers in [1, 3, 16] {
        let plan = plan_of(&rt, 200, workers);
        for number in 0..200u64 {
            let first = plan_of(&rt, number, 1);
            let (boards, before) = run_all_plainly(rt.alloc(), &first);
            same(&rt, boards, Ok(number));
            assert!(rt; whole.bytes().starts_with(before.bytes()));
            stops_at(&rt, rt.alloc(), &plan, number, before.bytes());
        }
    }
}

/// The run stops at this number, and its text begins like the text before it.
fn stops_at<R: Abort + Threads + Wait + Clone + Send + 'static>(
    rt: &R,
    alloc: Global,
    plan: &Plan,
    number: u64,
    before: &[u8],
) {
    let mut sink = MemSink::new(alloc);
    match ended(rt, alloc, plan, &mut sink, StopsAt(number)) {
        Err((Cause::Stopped { .. }, boards)) => assert!(rt; boards <= number),
        _ => assert!(rt; false),
    }
    assert!(rt; before.starts_with(sink.bytes()));
}

/// A fault of the sink comes before a worker that was stopped.
#[test]
fn names_the_first_cause(rt: HostRuntime) {
    let plan = plan_of(&rt, 200, 3);
    let mut sink = Fuse::new(MemSink::new(rt.alloc()), 1, 4096, true);
    let end = ended(&rt, rt.alloc(), &plan, &mut sink, StopsAt(5));
    same(&rt, end, Err((Cause::Output, 0)));
}

/// A gate that stops one worker at its fifth candidate: the bytes begin the text of the four before
/// it.
#[test]
fn stops_a_lone_worker(rt: HostRuntime) {
    let (boards, four) = run_all_plainly(rt.alloc(), &plan_of(&rt, 4, 1));
    same(&rt, boards, Ok(4));
    let mut sink = MemSink::new(rt.alloc());
    let plan = plan_of(&rt, 10, 1);
    let end = ended(&rt, rt.alloc(), &plan, &mut sink, StopsAt(4));
    same(
        &rt,
        end.err().map(|(cause, _)| cause),
        Some(Cause::Stopped { worker: 0 }),
    );
    assert!(rt; four.bytes().starts_with(sink.bytes()));
}

/// How many verdicts the lanes still give, each lane at most this many.
fn left_in(lanes: &mut Vec<LaneOut>, most: u64) -> u64 {
    let mut left = 0u64;
    for lane in lanes.iter_mut() {
        for _ in 0..most {
            left = left.saturating_add(u64::from(lane.take().is_some()));
        }
    }
    left
}

/// What an interrupted run leaves is a state of the core.
#[test]
fn replays_on_the_core(rt: HostRuntime) {
    let plan = plan_of(&rt, 10, 1);
    let mut sink = MemSink::new(rt.alloc());
    let gate = Arc::new(rt.alloc(), StopsAt(4)).expect(&rt, "memory");
    let end = run_all(&rt, rt.alloc(), &plan, &mut sink, gate);
    let mut fault = end.err().expect(&rt, "a fault");
    same(&rt, fault.cause, Cause::Stopped { worker: 0 });
    let left = left_in(&mut fault.lanes, 4);
    same(&rt, fault.boards.saturating_add(left), 4);
    core_stops(&rt, fault.boards, left);
}

/// The core allows these events: this many verdicts sent and taken, this many sent and left, the
/// flag, the lane closed.
fn core_stops(rt: &impl Abort, taken: u64, left: u64) {
    let core = &mut Core::new(10, 1, 64).expect(rt, "a core");
    for _ in 0..taken {
        assert!(rt; core.step(Event::Send(0)));
        assert!(rt; core.step(Event::Take));
    }
    for _ in 0..left {
        assert!(rt; core.step(Event::Send(0)));
    }
    assert!(rt; core.step(Event::Stop));
    assert!(rt; core.step(Event::Close(0)));
    same(rt, (core.taken(0), core.sent(0)), (taken, 4));
    same(rt, core.turn(), taken);
}

/// A writer that stops at its limit raises the flag after its last take: what its worker still
/// sent, and the lane that it closed then, are events that the core allows.
#[test]
fn replays_a_limit_on_the_core(rt: HostRuntime) {
    let plan = plan_of(&rt, 10, 1).limited(3).expect(&rt, "a plan");
    let mut sink = MemSink::new(rt.alloc());
    let gate = Arc::new(rt.alloc(), OpenGate).expect(&rt, "memory");
    let end = run_all(&rt, rt.alloc(), &plan, &mut sink, gate);
    let mut report = end.ok().expect(&rt, "a report");
    same(&rt, report.boards, 3);
    let left = left_in(&mut report.lanes, 10);
    core_ends(&rt, left);
}

/// The core allows these events: three verdicts sent and taken, the flag, this many sent and left,
/// the lane closed. It allows no more to be taken.
fn core_ends(rt: &impl Abort, left: u64) {
    let core = &mut Core::new(10, 1, 64).expect(rt, "a core");
    for _ in 0..3 {
        assert!(rt; core.step(Event::Send(0)));
        assert!(rt; core.step(Event::Take));
    }
    assert!(rt; core.step(Event::Stop));
    for _ in 0..left {
        assert!(rt; core.step(Event::Send(0)));
    }
    assert!(rt; core.step(Event::Close(0)));
    assert!(rt; !core.step(Event::Take));
    same(
        rt,
        (core.taken(0), core.sent(0)),
        (3, left.saturating_add(3)),
    );
}
