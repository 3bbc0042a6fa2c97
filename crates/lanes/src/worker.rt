//! A worker: it judges its share of the candidates and sends the verdicts into its lane, and asks
//! its gate before each whether it may go on.

ghost use Rattle.std.specs.Prelude.{◌≡◌, ◌+◌, ◌*◌, ◌^◌, ◌<◌, ◌≤◌, [], ◌∷◌, ◌++◌, List, MatchBool};
ghost use Rattle.std.specs.Prelude.{MatchResult, length, true, false, take};
ghost use Rattle.cards.specs.CandidateWalks.{GoesOnAt};
ghost use Rattle.cards.specs.Fixed.{candidate_around};
ghost use Rattle.cards.specs.Packed.{undealt};
ghost use Rattle.lanes.specs.Jobs.{verdicts_around, verdicts_of};
ghost use Rattle.lanes.specs.Prefixes.{IsProperPrefix};
ghost use Rattle.lanes.specs.Slots.{verdict_in, verdicts_in};
ghost use Rattle.lanes.specs.Verdicts.{turns, verdict_of};
ghost use Rattle.lanes.specs.Work.{Ends};
ghost use Rattle.lanes.specs.declared.verdict.Verdict.{Verdict as AVerdict};
ghost use Rattle.lanes.specs.internal.Screens.{DealsNext, IsScreenOf};

use crate::ends::{Closed, LaneIn};
use crate::job::{Job, JobAround};
use crate::screening::Screening;
use crate::verdict::{MAX_BLOCK, Slot, Verdict};
use crate::wait::{Raised, raise};
use cards::{Candidates, Deal, Fixed, Packed};
use std::alloc::Global;
use std::sync::atomic::{AtomicBool, Ordering};
use std::sync::{Arc, Wait};

/// Decides whether a run may go on. Unless the gate is open, each worker asks it once for each of
/// its candidates, before it sends the verdict; `false` stops the whole run. By then the worker may
/// have judged the candidate and up to 15 of its share after it. The workers' threads share the
/// gate, and it may block.
pub trait Gate {
    /// Returns whether this worker may go on with the candidate of this number.
    fn pass(&self, worker: u32, number: u64) -> bool;

    /// Returns whether every candidate may pass. Then the gate need not be asked, and verdicts are
    /// sent many at a time.
    fn is_open(&self) -> bool {
        false
    }
}

/// A gate that lets every candidate pass.
#[derive(Clone, Copy)]
pub struct OpenGate;

impl Gate for OpenGate {
    fn pass(&self, _worker: u32, _number: u64) -> bool
        ensures { result ≡ true }
    {
        true
    }

    fn is_open(&self) -> bool
        ensures { result ≡ true }
    {
        true
    }
}

/// How a worker ended.
#[derive(Drop)]
pub enum WorkEnd {
    /// Its whole share was sent.
    Done(Closed),
    /// It stopped before that: the gate returned false, or the stop flag was up.
    Stopped(Closed),
    /// The lane can't say how it ended, since the other end was let go before.
    Unclosed,
}

/// Sends the verdicts of the job's share in order into a lane that is unused so far, until all are
/// sent, the gate returns false or the stop flag is up; in the last two cases it raises the flag.
/// Then it closes the lane. It may block.
pub fn work<R: Wait + Drop, G: Gate + Drop>(
    rt: R,
    job: Job,
    lane: LaneIn,
    gate: Arc<G, Global>,
    stop: Arc<AtomicBool, Global>,
) -> WorkEnd
    requires { lane.sent ≡ [] }
    ensures { Ends (verdicts_of job) lane.ring result }
{
    work_around(rt, job.around(Fixed::none()), lane, gate, stop)
}

/// The same as `work`, with the candidates dealt around the job's fixed cards.
pub fn work_around<R: Wait + Drop, G: Gate + Drop>(
    rt: R,
    job: JobAround,
    lane: LaneIn,
    gate: Arc<G, Global>,
    stop: Arc<AtomicBool, Global>,
) -> WorkEnd
    requires { lane.sent ≡ [] }
    ensures { Ends (verdicts_around job) lane.ring result }
{
    let mut lane = lane;
    let sent = send_or_stop(&rt, &job, &mut lane, &*gate, &stop);
    ended(lane, sent)
}

/// Closes the lane, in which the whole share was sent, or a part of it before the stop flag was
/// raised.
fn ended(lane: LaneIn, sent: Result<(), Raised>) -> WorkEnd
    ensures { (verdicts : List AVerdict)
        → MatchResult sent
        (λ _. lane.sent ≡ verdicts)
        (λ _. IsProperPrefix lane.sent verdicts)
        → Ends verdicts lane.ring result }
{
    match sent {
        Ok(()) => match lane.close() {
            Some(closed) => WorkEnd::Done(closed),
            None => WorkEnd::Unclosed,
        },
        Err(raised) => match lane.close_short(&raised) {
            Some(closed) => WorkEnd::Stopped(closed),
            None => WorkEnd::Unclosed,
        },
    }
}

/// Sends the whole share, or a part of it and raises the stop flag.
fn send_or_stop<R: Wait, G: Gate>(
    rt: &R,
    job: &JobAround,
    lane: &mut LaneIn,
    gate: &G,
    stop: &AtomicBool,
) -> Result<(), Raised>
    requires { lane.old.sent ≡ [] }
    ensures ring { lane.new.ring ≡ lane.old.ring }
    ensures sent { MatchResult result
        (λ _. lane.new.sent ≡ verdicts_around job.now)
        (λ _. IsProperPrefix lane.new.sent (verdicts_around job.now)) }
{
    if send_all(rt, job, lane, gate, stop) {
        return Ok(());
    }
    Err(raise(stop))
}

/// Returns true when the whole share was sent.
fn send_all<R: Wait, G: Gate>(
    rt: &R,
    job: &JobAround,
    lane: &mut LaneIn,
    gate: &G,
    stop: &AtomicBool,
) -> bool
    requires { lane.old.sent ≡ [] }
    ensures ring { lane.new.ring ≡ lane.old.ring }
    ensures sent { MatchBool result
        (lane.new.sent ≡ verdicts_around job.now)
        (IsProperPrefix lane.new.sent (verdicts_around job.now)) }
{
    let first = job.share.first + u64::from(job.share.worker);
    let mut candidates = Candidates::around(job.seed, first, job.share.workers, &job.fixed);
    let source = Packed::of_source(job.seed, &job.fixed);
    let mut screening = Screening::new(&job.cond, &job.fixed);
    // As the lane keeps them: to copy a verdict that was made just now takes 9 ns.
    let mut verdicts = [Slot::of(&Verdict::of_no_candidate()); MAX_BLOCK];
    let count = job.share.len();
    let mut place = 0;
    while place < count {
        let ahead = (count - place).min(lane.ahead() as u64);
        let block = &mut verdicts[..ahead as usize];
        judge(job, &mut candidates, &mut screening, &source, place, block);
        if !send_block(rt, job, lane, gate, stop, block) {
            return false;
        }
        place += ahead;
    }
    true
}

/// Judges the share's candidates from this place on, as many as the block has verdicts.
fn judge(
    job: &JobAround,
    candidates: &mut Candidates,
    screening: &mut Screening,
    source: &Packed,
    place: u64,
    block: &mut [Slot],
)
    requires source { source.now
        ≡ undealt (record { seed = job.now.seed; fixed = job.now.fixed }) }
    requires screening { IsScreenOf screening.old job.now.cond job.now.fixed }
    requires fits { place + length block.old < 2 ^ 64 }
    requires within { place + length block.old
        ≤ turns job.now.share.workers job.now.share.worker job.now.share.count }
    requires at { GoesOnAt candidates.old job.now.fixed job.now.seed
        (job.now.share.first + job.now.share.worker + place * job.now.share.workers)
        job.now.share.workers }
    ensures len { length block.new ≡ length block.old }
    ensures screening { IsScreenOf screening.new job.now.cond job.now.fixed }
    ensures at { GoesOnAt candidates.new job.now.fixed job.now.seed
        (job.now.share.first + job.now.share.worker
        + (place + length block.old) * job.now.share.workers)
        job.now.share.workers }
    ensures block { take place (verdicts_around job.now) ++ verdicts_in block.new
        ≡ take (place + length block.old) (verdicts_around job.now) }
{
    for i in 0..block.len() {
        let number = job.share.at(place + i as u64);
        block[i] = judge_next(job, candidates, screening, source, number);
    }
}

/// Judges the next candidate, which has this number.
#[inline(always)]
fn judge_next(
    job: &JobAround,
    candidates: &mut Candidates,
    screening: &mut Screening,
    source: &Packed,
    number: u64,
) -> Slot
    requires source { source.now
        ≡ undealt (record { seed = job.now.seed; fixed = job.now.fixed }) }
    requires screening { IsScreenOf screening.old job.now.cond job.now.fixed }
    requires number { number < 2 ^ 40 }
    requires at { GoesOnAt candidates.old job.now.fixed job.now.seed number
        job.now.share.workers }
    ensures screening { IsScreenOf screening.new job.now.cond job.now.fixed }
    ensures at { GoesOnAt candidates.new job.now.fixed job.now.seed
        (number + job.now.share.workers) job.now.share.workers }
    ensures slot { verdict_in result
        ≡ verdict_of (candidate_around job.now.fixed job.now.seed) job.now.cond number }
{
    match deal_next(job, candidates, screening) {
        Some(deal) => Slot::of(&Verdict {
            number,
            accepted: true,
            deal,
        }),
        None => Slot::rejected(number, source),
    }
}

/// Deals the next candidate, and returns its deal if it is accepted.
#[inline(always)]
fn deal_next(
    job: &JobAround,
    candidates: &mut Candidates,
    screening: &mut Screening,
) -> Option<Deal>
    requires { IsScreenOf screening.old job.now.cond job.now.fixed }
    ensures screening { IsScreenOf screening.new job.now.cond job.now.fixed }
    ensures next { DealsNext job.now.cond job.now.fixed candidates.old candidates.new result }
{
    if screening.is_on() {
        return deal_by_hand(job, candidates, screening);
    }
    let deal = candidates.next();
    if job.cond.holds(&deal) {
        Some(deal)
    } else {
        None
    }
}

/// Deals the next candidate hand by hand, and no further once it is known to be rejected. Returns
/// its deal if it is accepted.
#[inline(always)]
fn deal_by_hand(
    job: &JobAround,
    candidates: &mut Candidates,
    screening: &mut Screening,
) -> Option<Deal>
    requires { IsScreenOf screening.old job.now.cond job.now.fixed }
    ensures screening { IsScreenOf screening.new job.now.cond job.now.fixed }
    ensures next { DealsNext job.now.cond job.now.fixed candidates.old candidates.new result }
{
    let west = candidates.deal_west();
    if screening.gives_up_west(&west) {
        candidates.skip();
        return None;
    }
    let south = candidates.deal_south();
    if screening.gives_up_south(&west, &south) {
        candidates.skip();
        return None;
    }
    let deal = candidates.finish();
    if job.cond.holds(&deal) {
        Some(deal)
    } else {
        None
    }
}

/// Sends the block's verdicts, all at once if the gate is open and there is room. Returns false,
/// and sends no more, if the gate returns false or the stop flag is up.
fn send_block<R: Wait, G: Gate>(
    rt: &R,
    job: &JobAround,
    lane: &mut LaneIn,
    gate: &G,
    stop: &AtomicBool,
    block: &[Slot],
) -> bool
    ensures ring { lane.new.ring ≡ lane.old.ring }
    ensures all { result ≡ true → lane.new.sent ≡ lane.old.sent ++ verdicts_in block.now }
    ensures some { result ≡ false → IsProperPrefix lane.new.sent
        (lane.old.sent ++ verdicts_in block.now) }
{
    // A load of the stop flag isn't an event of the core.
    if gate.is_open() && !stop.load(Ordering::SeqCst) {
        // If the lane is full, the block waits for room once: to send its verdicts one by one moves
        // the ring's cache lines between the cores for each.
        if lane.try_send_block(block)
            || lane.wait_for_room(rt, stop) && lane.try_send_block(block)
        {
            return true;
        }
    }
    send_each(rt, job, lane, gate, stop, block)
}

/// Asks the gate before each verdict of the block, and sends it. Returns false, and sends no more,
/// if the gate returns false or the stop flag is up.
fn send_each<R: Wait, G: Gate>(
    rt: &R,
    job: &JobAround,
    lane: &mut LaneIn,
    gate: &G,
    stop: &AtomicBool,
    block: &[Slot],
) -> bool
    ensures ring { lane.new.ring ≡ lane.old.ring }
    ensures all { result ≡ true → lane.new.sent ≡ lane.old.sent ++ verdicts_in block.now }
    ensures some { result ≡ false → IsProperPrefix lane.new.sent
        (lane.old.sent ++ verdicts_in block.now) }
{
    for i in 0..block.len() {
        let verdict = &block[i];
        // A load of the stop flag isn't an event of the core.
        if stop.load(Ordering::SeqCst) || !gate.pass(job.share.worker, verdict.number()) {
            return false;
        }
        if !send(rt, lane, verdict, stop) {
            return false;
        }
    }
    true
}

/// Sends a verdict as soon as there is room. Returns false, and sends nothing, if the stop flag is
/// up.
fn send<R: Wait>(rt: &R, lane: &mut LaneIn, verdict: &Slot, stop: &AtomicBool) -> bool
    ensures ring { lane.new.ring ≡ lane.old.ring }
    ensures sent { MatchBool result
        (lane.new.sent ≡ lane.old.sent ++ verdict_in verdict.now ∷ [])
        (lane.new.sent ≡ lane.old.sent) }
{
    if !lane.has_room() && !lane.wait_for_room(rt, stop) {
        return false;
    }
    lane.send_slot(*verdict);
    true
}
