//! How a run ends: the workers joined, their lanes settled, and why it is interrupted, if it is.

ghost use Rattle.std.specs.Prelude.{◌≡◌, ◌+◌, ◌<◌, ◌≤◌, ℕ, All, map, take, vec_len, slice_index_or};
ghost use Rattle.std.specs.Prelude.{false};
ghost use Rattle.lanes.specs.Jobs.{verdicts_around};
ghost use Rattle.dealrun.specs.internal.Handles.{owed_by};
ghost use Rattle.dealrun.specs.internal.Joins.{JoinsAs, JoinedAs};
ghost use Rattle.dealrun.specs.internal.Causes.{cause_by};

use crate::start::Started;
use boards::Cause;
use lanes::{LaneOut, WorkEnd};
use std::thread::Threads;

/// The least worker that was stopped, and the least whose lane was not closed.
#[derive(Clone, Copy, Drop)]
pub(crate) struct Joined {
    pub(crate) stopped: Option<u32>,
    pub(crate) unclosed: Option<u32>,
}

impl Joined {
    ghost use Rattle.dealrun.specs.internal.Joins.{stopped_after, unclosed_after};

    fn none() -> Joined
        ensures { (result.stopped ≡ None) × (result.unclosed ≡ None) }
    {
        Joined {
            stopped: None,
            unclosed: None,
        }
    }

    /// Notes how a worker ended. Workers are noted in the order of their numbers.
    fn record(&mut self, worker: u32, end: WorkEnd)
        ensures stopped { self.new.stopped ≡ stopped_after end worker self.old.stopped }
        ensures unclosed { self.new.unclosed ≡ unclosed_after end worker self.old.unclosed }
    {
        match end {
            WorkEnd::Done(_) => {}
            WorkEnd::Stopped(_) => self.stopped = self.stopped.or(Some(worker)),
            WorkEnd::Unclosed => self.unclosed = self.unclosed.or(Some(worker)),
        }
    }
}

/// Joins a worker, and settles its lane if it was closed.
fn join_one<R: Threads>(rt: &R, handle: Started, lane: &mut LaneOut) -> WorkEnd
    requires { handle.promise.lane.value.ring ≡ lane.old.ring }
    ensures same { (lane.new.ring ≡ lane.old.ring) × (lane.new.taken ≡ lane.old.taken) }
    ensures joined { JoinsAs (verdicts_around handle.promise.job.value) lane.old lane.new result }
{
    match handle.join(rt) {
        WorkEnd::Done(mut closed) => {
            lane.settle(&mut closed);
            WorkEnd::Done(closed)
        }
        WorkEnd::Stopped(mut closed) => {
            lane.settle(&mut closed);
            WorkEnd::Stopped(closed)
        }
        WorkEnd::Unclosed => WorkEnd::Unclosed,
    }
}

/// Joins the workers in order, and settles the lanes that were closed.
pub(crate) fn join_all<R: Threads>(
    rt: &R,
    handles: Vec<Started>,
    lanes: &mut Vec<LaneOut>,
) -> Joined
    requires counts { (vec_len handles ≤ vec_len lanes.old) × (vec_len lanes.old ≤ 16) }
    requires rings { map (λ h. h.promise.lane.value.ring) handles.items
        ≡ take (vec_len handles) (map (λ l. l.ring) lanes.old.items) }
    requires unsettled { All (λ l. l.settled ≡ false) lanes.old.items }
    ensures taken { map (λ l. l.taken) lanes.new.items ≡ map (λ l. l.taken) lanes.old.items }
    ensures len { vec_len lanes.new ≡ vec_len lanes.old }
    ensures joined { JoinedAs (vec_len handles) (owed_by handles.items) lanes.new.items
        result.stopped result.unclosed }
    ensures rest { (k : ℕ) (e : _)
        → vec_len handles ≤ k
        → k < vec_len lanes.new
        → (slice_index_or lanes.new.items k e).settled ≡ false }
{
    let mut joined = Joined::none();
    let mut worker = 0u32;
    for handle in handles {
        let lane = &mut lanes[worker as usize];
        let end = join_one(rt, handle, lane);
        joined.record(worker, end);
        worker += 1;
    }
    joined
}

/// What the writer wrote beside the workers.
#[derive(Clone, Copy, Drop)]
pub(crate) enum Written {
    /// The sink failed.
    Failed,
    /// The limit of boards was met.
    Full,
    /// Neither: what is left in the lanes is still to be written.
    Open,
}

/// Why the run is interrupted, if it is. That a worker was stopped isn't a cause once the limit of
/// boards is met.
pub(crate) fn cause_of(written: Written, joined: Joined) -> Option<Cause>
    ensures { result ≡ cause_by written joined.stopped joined.unclosed }
{
    match (written, joined.stopped, joined.unclosed) {
        (Written::Failed, _, _) => Some(Cause::Output),
        (Written::Full, _, None) => None,
        (Written::Full, _, Some(worker)) => Some(Cause::Unclosed { worker }),
        (Written::Open, None, None) => None,
        (Written::Open, None, Some(worker)) => Some(Cause::Unclosed { worker }),
        (Written::Open, Some(worker), _) => Some(Cause::Stopped { worker }),
    }
}
