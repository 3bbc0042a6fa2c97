//! The workers of a run, before and when they start.

ghost use Rattle.std.specs.Prelude.{◌≡◌, ◌<◌, ◌≤◌, [], All, IfOk, IfSome, map, take};
ghost use Rattle.std.specs.Prelude.{vec_len, vec_capacity, false, true};
ghost use Rattle.std.specs.List.{range_with_len};
ghost use Rattle.lanes.specs.Jobs.{verdicts_around, verdicts_for};
ghost use Rattle.lanes.specs.Work.{Ends};
ghost use Rattle.dealrun.specs.internal.Handles.{IsIdle};

use boards::Plan;
use conditions::Cond;
use lanes::{Gate, JobAround, LaneIn, LaneOut, Pace, WorkEnd, lane_in_blocks, work_around};
use std::alloc::{AllocError, Global};
use std::snapshot::Snapshot;
use std::sync::atomic::AtomicBool;
use std::sync::{Arc, Wait};
use std::thread;
use std::thread::{Promise, PromisedHandle, Threads};

/// The promise that a worker ends as its job asks, on the ring of its lane.
#[derive(Drop)]
pub(crate) struct EndsAsAssigned {
    job: Snapshot<JobAround>,
    lane: Snapshot<LaneIn>,
}

impl Promise<WorkEnd> for EndsAsAssigned {
    ghost kept_by = { λ p r. Ends (verdicts_around p.job.value) p.lane.value.ring r };
}

/// The handle of a worker that was started.
pub(crate) type Started = PromisedHandle<WorkEnd, EndsAsAssigned>;

/// What all workers of a run have: their gate, and the flag that stops them.
#[derive(Drop)]
pub(crate) struct Shared<G> {
    pub(crate) gate: Arc<G, Global>,
    pub(crate) stop: Arc<AtomicBool, Global>,
}

/// All that a worker starts with.
#[derive(Drop)]
pub(crate) struct Assignment<R, G> {
    job: JobAround,
    lane: LaneIn,
    rt: R,
    shared: Shared<G>,
    ghost fresh: { lane.sent ≡ [] },
}

/// How the ends of a run's lanes wait for each other, on the cores that it may use. If these can't
/// be told, as on one.
fn pace_of<R: Threads>(rt: &R, plan: &Plan) -> Pace {
    let cores = thread::available_parallelism(rt).map_or(1, |cores| cores.get());
    Pace::of(plan.workers(), cores)
}

/// What a worker has of it. `Err` only if it can't be cloned.
fn share<G: Drop>(shared: &Shared<G>) -> Result<Shared<G>, AllocError> {
    Ok(Shared {
        gate: Arc::try_clone(&shared.gate)?,
        stop: Arc::try_clone(&shared.stop)?,
    })
}

/// The assignment of one worker, and the other end of its lane, whose ends wait at this pace. `Err`
/// only if an allocation failed.
fn assign<R: Clone, G: Drop>(
    rt: &R,
    alloc: Global,
    plan: &Plan,
    cond: &Cond,
    worker: u32,
    pace: Pace,
    shared: &Shared<G>,
) -> Result<(Assignment<R, G>, LaneOut), AllocError>
    requires { worker < plan.now.workers }
    ensures job { IfOk result (λ r.
        verdicts_around r.0.job ≡ verdicts_for plan.now cond.now worker) }
    ensures ring { IfOk result (λ r. r.0.lane.ring ≡ r.1.ring) }
    ensures taker { IfOk result (λ r. IsIdle r.1) }
{
    let job = JobAround::of(plan, cond, worker)?;
    let Ok((lane, taker)) = lane_in_blocks(alloc, plan.capacity(), pace) else {
        return Err(AllocError);
    };
    let rt = rt.clone()?;
    let shared = share(shared)?;
    let assignment = Assignment {
        job,
        lane,
        rt,
        shared,
    };
    Ok((assignment, taker))
}

/// The assignments of all workers of a plan, and the other ends of their lanes. `Err` only if an
/// allocation failed.
pub(crate) fn assign_all<R: Threads + Clone, G: Drop>(
    rt: &R,
    alloc: Global,
    plan: &Plan,
    cond: &Cond,
    shared: &Shared<G>,
) -> Result<(Vec<Assignment<R, G>>, Vec<LaneOut>), AllocError>
    ensures len { IfOk result (λ r. (vec_len r.0 ≡ plan.now.workers)
        × (vec_len r.1 ≡ plan.now.workers)) }
    ensures few { IfOk result (λ _. (0 < plan.now.workers) × (plan.now.workers ≤ 16)) }
    ensures jobs { IfOk result (λ r. map (λ a. verdicts_around a.job) r.0.items
        ≡ map (verdicts_for plan.now cond.now) (range_with_len 0 plan.now.workers)) }
    ensures rings { IfOk result (λ r. map (λ a. a.lane.ring) r.0.items
        ≡ map (λ l. l.ring) r.1.items) }
    ensures idle { IfOk result (λ r. All IsIdle r.1.items) }
{
    let pace = pace_of(rt, plan);
    let mut assignments = Vec::new(alloc);
    let mut lanes = Vec::new(alloc);
    for worker in 0..plan.workers() {
        let (assignment, lane) = assign(rt, alloc, plan, cond, worker, pace, shared)?;
        assignments.push(assignment)?;
        lanes.push(lane)?;
    }
    Ok((assignments, lanes))
}

/// Starts a worker in a thread. `None` if no thread can be made.
fn start<T: Threads, R: Wait + Drop + Send + 'static, G: Gate + Drop + Send + Sync + 'static>(
    rt: &T,
    assignment: Assignment<R, G>,
) -> Option<Started>
    ensures job { IfSome result (λ h. verdicts_around h.promise.job.value
        ≡ verdicts_around assignment.job) }
    ensures ring { IfSome result (λ h. h.promise.lane.value.ring ≡ assignment.lane.ring) }
{
    let Assignment {
        job,
        lane,
        rt: mine,
        shared,
    } = assignment;
    let Shared { gate, stop } = shared;
    let promise = EndsAsAssigned {
        job: Snapshot::of(&job),
        lane: Snapshot::of(&lane),
    };
    thread::spawn_with(
        rt,
        promise,
        move || work_around(mine, job, lane, gate, stop),
    )
    .ok()
}

/// Starts the workers in order, until a thread can't be made. True if all were started.
pub(crate) fn start_all<
    T: Threads,
    R: Wait + Drop + Send + 'static,
    G: Gate + Drop + Send + Sync + 'static,
>(rt: &T, assignments: Vec<Assignment<R, G>>, handles: &mut Vec<Started>) -> bool
    requires empty { handles.old.items ≡ [] }
    requires room { vec_len assignments ≤ vec_capacity handles.old }
    ensures all { result ≡ true → vec_len handles.new ≡ vec_len assignments }
    ensures not_all { result ≡ false → vec_len handles.new < vec_len assignments }
    ensures jobs { map (λ h. verdicts_around h.promise.job.value) handles.new.items
        ≡ take (vec_len handles.new) (map (λ a. verdicts_around a.job) assignments.items) }
    ensures rings { map (λ h. h.promise.lane.value.ring) handles.new.items
        ≡ take (vec_len handles.new) (map (λ a. a.lane.ring) assignments.items) }
{
    for assignment in assignments {
        match start(rt, assignment) {
            Some(handle) => handles.push_reserved(handle),
            None => return false,
        }
    }
    true
}
