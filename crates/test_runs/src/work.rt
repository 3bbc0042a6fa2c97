//! Shares that are worked to their end, and shares that are stopped.

ghost use Rattle.std.specs.Prelude.{◌≡◌, []};

use crate::support::holds;
use crate::verdicts::takes_just;
use cond_lang::Cond;
use lanes::{
    Gate, Job, LaneIn, LaneOut, OpenGate, Pace, Share, WorkEnd, lane, lane_in_blocks, work,
};
use std::alloc::Global;
use std::sync::atomic::{AtomicBool, Ordering};
use std::sync::{Arc, Wait};
use std::test::Fail;

/// Stops at a number.
#[derive(Drop)]
struct StopsAt(u64);

impl Gate for StopsAt {
    fn pass(&self, _worker: u32, number: u64) -> bool {
        number != self.0
    }
}

/// The work on every candidate of a share.
fn job(alloc: Global, [first, count]: [u64; 2], [workers, worker]: [u32; 2]) -> Result<Job, Fail> {
    Ok(Job {
        seed: 0,
        share: Share::new(first, count, workers, worker).ok_or("a share")?,
        cond: Cond::any(alloc),
    })
}

/// Takes accepted verdicts on these candidates and no more, and says whether they came so.
fn takes_all_of(taker: &mut LaneOut, numbers: &[u64]) -> bool {
    for number in numbers {
        if !matches!(taker.take(), Some(taken) if taken.number == *number && taken.accepted) {
            return false;
        }
    }
    taker.take().is_none()
}

/// A gate for a worker, and a stop flag for it and for another owner.
fn shared<G: Gate + Drop>(
    alloc: Global,
    gate: G,
) -> Result<(Arc<G>, Arc<AtomicBool>, Arc<AtomicBool>), Fail> {
    let gate = Arc::new(alloc, gate)?;
    let stop = Arc::new(alloc, AtomicBool::new(false))?;
    let other = Arc::try_clone(&stop)?;
    Ok((gate, stop, other))
}

/// Works a share. Returns how it ended, and whether the stop flag is up then.
fn works<G: Gate + Drop>(
    rt: &impl Wait,
    alloc: Global,
    job: Job,
    sender: LaneIn,
    gate: G,
) -> Result<(WorkEnd, bool), Fail>
    requires { sender.sent ≡ [] }
{
    let (gate, seen, stop) = shared(alloc, gate)?;
    let end = work(rt, job, sender, gate, seen);
    Ok((end, stop.load(Ordering::SeqCst)))
}

/// Works a share after the stop flag was raised.
fn works_stopped(rt: &impl Wait, alloc: Global, job: Job, sender: LaneIn) -> Result<WorkEnd, Fail>
    requires { sender.sent ≡ [] }
{
    let (gate, seen, stop) = shared(alloc, OpenGate)?;
    stop.store(true, Ordering::SeqCst);
    Ok(work(rt, job, sender, gate, seen))
}

#[test]
fn a_whole_share(rt: HostRuntime) -> Result<(), Fail> {
    let (sender, mut taker) = lane(rt.alloc(), 4)?;
    let job = job(rt.alloc(), [5, 10], [4, 1])?;
    let (end, stopped) = works(&rt, rt.alloc(), job, sender, OpenGate)?;
    holds(&rt, "done", matches!(&end, WorkEnd::Done(_)));
    holds(&rt, "no stop flag", !stopped);
    holds(&rt, "its verdicts", takes_all_of(&mut taker, &[6, 10, 14]));
    Ok(())
}

/// The share ends before the 21st verdict, whose block has begun and is not sent to its end.
#[test]
fn a_share_stopped_within_a_block(rt: HostRuntime) -> Result<(), Fail> {
    let (sender, mut taker) = lane_in_blocks(rt.alloc(), 64, Pace::Spins)?;
    let job = job(rt.alloc(), [5, 30], [1, 0])?;
    let (end, stopped) = works(&rt, rt.alloc(), job, sender, StopsAt(25))?;
    holds(&rt, "stopped", matches!(&end, WorkEnd::Stopped(_)));
    holds(&rt, "a stop flag", stopped);
    holds(&rt, "its verdicts", takes_just(&mut taker, 5..25));
    Ok(())
}

/// The stop flag is up before the work begins: nothing is sent, though there is room.
#[test]
fn a_share_stopped_at_once(rt: HostRuntime) -> Result<(), Fail> {
    let (sender, mut taker) = lane_in_blocks(rt.alloc(), 64, Pace::Spins)?;
    let job = job(rt.alloc(), [5, 30], [1, 0])?;
    let end = works_stopped(&rt, rt.alloc(), job, sender)?;
    holds(&rt, "stopped", matches!(&end, WorkEnd::Stopped(_)));
    holds(&rt, "nothing sent", taker.take().is_none());
    Ok(())
}
