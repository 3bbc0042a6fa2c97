//! The plain run and plans.

use crate::running::{plan_of, run_all_plainly, run_plainly};
use crate::support::same;
use cond_lang::Cond;
use dealrun::{Fuse, MemSink, PlainFault, Plan, PlanError};
use std::alloc::Global;
use std::process::Abort;

/// Ten candidates of seed 7 from candidate 5 on, at most three boards from 19 on.
fn numbered_plan() -> Result<Plan, PlanError> {
    Plan::new(7, 5, 10, 4, 64)?.limited(3)?.numbered(19)
}

#[test]
fn tells_what_it_plans(rt: HostRuntime) {
    let plan = numbered_plan().expect(&rt, "a plan");
    same(&rt, (plan.seed(), plan.first(), plan.count()), (7, 5, 10));
    same(
        &rt,
        (plan.workers(), plan.capacity(), plan.limit()),
        (4, 64, Some(3)),
    );
    same(
        &rt,
        (plan.first_board(), plan.heading().event.is_none()),
        (19, true),
    );
}

#[test]
fn writes_all_deals(rt: HostRuntime) {
    let plan = plan_of(&rt, 200, 1);
    let (boards, all) = run_all_plainly(rt.alloc(), &plan);
    same(&rt, (boards, all.bytes().len()), (Ok(200), 25_052));
    let (boards, first) = run_all_plainly(rt.alloc(), &plan.limited(5).expect(&rt, "a plan"));
    same(&rt, (boards, first.bytes().len()), (Ok(5), 628));
    assert!(rt; all.bytes().starts_with(first.bytes()));
}

/// A sink of one byte a write: a fault before the last byte of a game leaves it out of the count.
#[test]
fn counts_whole_games(rt: HostRuntime) {
    let plan = plan_of(&rt, 200, 1);
    for (fails_at, bytes, want) in [
        (1, 0, Err(PlainFault { boards: 0 })),
        (10, 9, Err(PlainFault { boards: 0 })),
        (135, 134, Err(PlainFault { boards: 0 })),
        (136, 135, Err(PlainFault { boards: 1 })),
        (0, 25_052, Ok(200)),
    ] {
        let mut sink = Fuse::new(MemSink::new(rt.alloc()), fails_at, 1, true);
        let boards = run_plainly(&plan, &Cond::any(rt.alloc()), &mut sink);
        same(&rt, (boards, sink.bytes().len()), (want, bytes));
    }
}

/// A sink that fails at its n-th write, n counting up until the run ends Ok.
#[test]
fn fails_at_each_write(rt: HostRuntime) {
    let plan = plan_of(&rt, 200, 1);
    let (boards, whole) = run_all_plainly(rt.alloc(), &plan);
    same(&rt, boards, Ok(200));
    for fails_at in 1..=202 {
        fails_at_write(&rt, rt.alloc(), &plan, fails_at, whole.bytes());
    }
}

/// The run ends at this write, all boards written at 202, and the text begins like the whole.
fn fails_at_write(rt: &impl Abort, alloc: Global, plan: &Plan, fails_at: u64, whole: &[u8]) {
    let mut sink = Fuse::new(MemSink::new(alloc), fails_at, 4096, true);
    let answer = run_plainly(plan, &Cond::any(alloc), &mut sink);
    assert!(rt; whole.starts_with(sink.bytes()));
    if fails_at == 202 {
        same(rt, answer, Ok(200));
    } else {
        let boards = fails_at.saturating_sub(2);
        same(rt, answer, Err(PlainFault { boards }));
    }
}
