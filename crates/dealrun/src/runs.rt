//! A run: the workers beside the writer, from the first allocation to how it ended.
//!
//! `run_in` makes the stop flag, `start_and_write` the lanes and the workers, and `write_all` has
//! the text written (`writer.rt`), joins the workers, and reports how that ended.

ghost use Rattle.std.specs.Prelude.{◌≡◌, ◌-◌, ◌^◌, ◌<◌, ◌≤◌, [], IfOk, vec_len};
ghost use Rattle.conditions.specs.Form.{Form};
ghost use Rattle.boards.specs.declared.cause.Cause.TheVariants.{Memory};
ghost use Rattle.dealrun.specs.Headline.{TakesWhatIsOwed, WritesTextIn};
ghost use Rattle.dealrun.specs.Interrupted.{FailsAtOutput, StandsIn};
ghost use Rattle.dealrun.specs.Interrupted.{report_of};
ghost use Rattle.boards.specs.Text.{end_of};
ghost use Rattle.dealrun.specs.internal.Ends.{EndsRun};
ghost use Rattle.dealrun.specs.internal.Handles.{HaveLanes, owed_by};
ghost use Rattle.dealrun.specs.internal.Joins.{Owes};

use crate::join::{Written, cause_of, join_all};
use crate::start::{Shared, Started, assign_all, start_all};
use crate::writer::Writer;
use boards::{Cause, Notation, Plan};
use conditions::Cond;
use lanes::{Gate, LaneOut};
use sinks::Sink;
use std::alloc::Global;
use std::sync::atomic::{AtomicBool, Ordering};
use std::sync::{Arc, Wait};
use std::thread::Threads;

/// A run that wrote all that its plan asks for: its lanes, one for each worker, and the number of
/// its boards.
#[derive(Drop)]
pub struct Report {
    pub lanes: Vec<LaneOut>,
    pub boards: u64,
}

/// A run that wrote all that its plan asks for, and how many candidates that took.
#[derive(Drop)]
pub struct Counted {
    pub report: Report,
    /// The candidates up to the one whose board met the limit, or all.
    pub candidates: u64,
}

/// A run that was interrupted: why, its lanes as they are, and the number of whole
/// boards.
#[derive(Drop)]
pub struct RunFault {
    pub cause: Cause,
    pub lanes: Vec<LaneOut>,
    pub boards: u64,
}

/// Writes the boards of the accepted candidates of a plan in a notation that has printed nothing,
/// judged by the plan's workers in threads of their own: the notation's header, the boards in
/// order, and its footer.
///
/// All memory is taken first: a lane and a clone of the condition for each worker. Then one worker
/// starts for each lane, and the caller's thread writes while they run. It may wait for its
/// workers.
///
/// # Errors
///
/// The first of these that is due. `Memory`: an allocation failed, before any thread started.
/// `Spawn`: a thread could not be started; those that were are stopped and joined, which no clause
/// says. `Output`: the sink failed. `Stopped`: a worker ended before it had sent all, and the limit
/// of boards was not met. `Unclosed`: a lane can't say how it ended.
pub fn run_in<
    R: Threads + Wait + Clone + Send + 'static,
    G: Gate + Drop + Send + Sync + 'static,
    N: Notation,
    S: Sink,
>(
    rt: &R,
    alloc: Global,
    plan: &Plan,
    cond: Cond,
    notation: &mut N,
    sink: &mut S,
    gate: Arc<G, Global>,
) -> Result<Report, RunFault>
    requires faults { S.faults sink.old < 2 ^ 64 - 1 }
    requires printed { N.has_printed notation.old [] }
    ensures layout { N.layout notation.new ≡ N.layout notation.old }
    // What was taken from each lane is its worker's verdicts, and all that is needed.
    ensures lanes { IfOk result (λ r. TakesWhatIsOwed plan.now cond r.lanes.items r.boards) }
    // The bytes are the header, the boards of the accepted deals, within the limit, in order, and
    // the footer.
    ensures text { IfOk result (λ r. WritesTextIn (N.layout notation.old) plan.now cond r.boards
        (S.bytes sink.old) (S.bytes sink.new)) }
    // However the run ends: the lanes as they are, and the bytes of what was taken from them.
    ensures stands { StandsIn (N.layout notation.old) plan.now cond result
        (S.bytes sink.old) (S.bytes sink.new) }
    // The sink failed, once, if and only if the cause is Output.
    ensures faults { FailsAtOutput result (S.faults sink.old) (S.faults sink.new) }
{
    let Counted { report, .. } = run_and_count(rt, alloc, plan, cond, notation, sink, gate)?;
    Ok(report)
}

/// Writes as `run_in` does, and counts the candidates: those up to the one whose board met the
/// limit, or all.
///
/// # Errors
///
/// Those of `run_in`.
pub fn run_and_count<
    R: Threads + Wait + Clone + Send + 'static,
    G: Gate + Drop + Send + Sync + 'static,
    N: Notation,
    S: Sink,
>(
    rt: &R,
    alloc: Global,
    plan: &Plan,
    cond: Cond,
    notation: &mut N,
    sink: &mut S,
    gate: Arc<G, Global>,
) -> Result<Counted, RunFault>
    requires faults { S.faults sink.old < 2 ^ 64 - 1 }
    requires printed { N.has_printed notation.old [] }
    ensures layout { N.layout notation.new ≡ N.layout notation.old }
    ensures lanes { IfOk result (λ r.
        TakesWhatIsOwed plan.now cond r.report.lanes.items r.report.boards) }
    ensures text { IfOk result (λ r. WritesTextIn (N.layout notation.old) plan.now cond
        r.report.boards (S.bytes sink.old) (S.bytes sink.new)) }
    // This many candidates are needed.
    ensures candidates { IfOk result (λ r. r.candidates ≡ end_of plan.now cond) }
    ensures few { IfOk result (λ r.
        (r.report.boards ≤ r.candidates) × (r.candidates ≤ plan.now.count)) }
    ensures stands { StandsIn (N.layout notation.old) plan.now cond (report_of result)
        (S.bytes sink.old) (S.bytes sink.new) }
    ensures faults { FailsAtOutput result (S.faults sink.old) (S.faults sink.new) }
{
    match Arc::new(alloc, AtomicBool::new(false)) {
        Ok(stop) => {
            start_and_write(rt, alloc, plan, cond, notation, sink, Shared { gate, stop })
        }
        Err(_) => Err(out_of_memory(alloc)),
    }
}

/// Takes the memory of the lanes and the workers, starts the workers, whose flag is down, and
/// writes.
fn start_and_write<
    R: Threads + Wait + Clone + Send + 'static,
    G: Gate + Drop + Send + Sync + 'static,
    N: Notation,
    S: Sink,
>(
    rt: &R,
    alloc: Global,
    plan: &Plan,
    cond: Cond,
    notation: &mut N,
    sink: &mut S,
    shared: Shared<G>,
) -> Result<Counted, RunFault>
    requires faults { S.faults sink.old < 2 ^ 64 - 1 }
    requires printed { N.has_printed notation.old [] }
    ensures layout { N.layout notation.new ≡ N.layout notation.old }
    ensures ends { EndsRun (N.layout notation.old) plan.now cond result
        (S.bytes sink.old) (S.bytes sink.new) }
    ensures faults { FailsAtOutput result (S.faults sink.old) (S.faults sink.new) }
{
    let Ok((assignments, mut lanes)) = assign_all(rt, alloc, plan, &cond, &shared) else {
        return Err(out_of_memory(alloc));
    };
    let Ok(mut handles) = Vec::with_capacity(alloc, assignments.len()) else {
        return Err(out_of_memory(alloc));
    };
    if !start_all(rt, assignments, &mut handles) {
        // A store to the stop flag is the core's Stop.
        shared.stop.store(true, Ordering::SeqCst);
        wake_workers(&lanes);
        join_all(rt, handles, &mut lanes);
        return Err(RunFault {
            cause: Cause::Spawn,
            lanes,
            boards: 0,
        });
    }
    write_all(rt, plan, handles, lanes, notation, sink, &shared.stop)
}

pub(crate) fn out_of_memory(alloc: Global) -> RunFault
    ensures { (result.cause ≡ Memory) × (result.lanes.items ≡ []) × (result.boards ≡ 0) }
{
    RunFault {
        cause: Cause::Memory,
        lanes: Vec::new(alloc),
        boards: 0,
    }
}

/// Wakes the workers that wait for room in these lanes, so that they see the stop flag.
fn wake_workers(lanes: &Vec<LaneOut>) {
    for lane in lanes.iter() {
        lane.wake_worker();
    }
}

/// Writes while the workers run, joins them, and writes the rest unless the run is interrupted.
/// Once nothing more is to be written, the workers are stopped.
fn write_all<R: Threads + Wait, N: Notation, S: Sink>(
    rt: &R,
    plan: &Plan,
    handles: Vec<Started>,
    lanes: Vec<LaneOut>,
    notation: &mut N,
    sink: &mut S,
    stop: &AtomicBool,
) -> Result<Counted, RunFault>
    requires faults { S.faults sink.old < 2 ^ 64 - 1 }
    requires printed { N.has_printed notation.old [] }
    requires counts { (vec_len handles ≡ plan.now.workers) × (vec_len lanes ≡ plan.now.workers) }
    requires workers { (0 < plan.now.workers) × (plan.now.workers ≤ 16) }
    requires lanes { HaveLanes handles.items lanes.items }
    ensures layout { N.layout notation.new ≡ N.layout notation.old }
    ensures ends { (form : Form)
        → Owes plan.now form (owed_by handles.items)
        → EndsRun (N.layout notation.old) plan.now form result
        (S.bytes sink.old) (S.bytes sink.new) }
    ensures faults { FailsAtOutput result (S.faults sink.old) (S.faults sink.new) }
{
    let mut writer = Writer::new(plan, lanes);
    let written = writer.write_beside_workers(rt, notation, sink, stop);
    if !matches!(written, Written::Open) {
        // A store to the stop flag is the core's Stop.
        stop.store(true, Ordering::SeqCst);
    }
    wake_workers(&writer.lanes);
    let joined = join_all(rt, handles, &mut writer.lanes);
    match cause_of(written, joined) {
        Some(cause) => return Err(fault(cause, writer)),
        None => {}
    }
    if writer.write_rest(rt, notation, sink, stop).is_err() {
        return Err(fault(Cause::Output, writer));
    }
    let Writer {
        lanes,
        progress,
        ..
    } = writer;
    Ok(Counted {
        report: Report {
            lanes,
            boards: progress.boards,
        },
        candidates: progress.taken,
    })
}

/// An interrupted run, as its writer left it.
fn fault(cause: Cause, writer: Writer) -> RunFault
    ensures { result
        ≡ record { cause = cause; lanes = writer.lanes; boards = writer.progress.boards } }
{
    let Writer {
        lanes,
        progress,
        ..
    } = writer;
    RunFault {
        cause,
        lanes,
        boards: progress.boards,
    }
}
