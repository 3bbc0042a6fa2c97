//! How jobs are done.

ghost use Rattle.std.specs.Prelude.{IfErr, ◌≡◌, ◌-◌, ◌+◌, ◌^◌, ◌<◌};
ghost use Rattle.jobs.specs.Failures.{CountsInput, faults_in, status_of};
ghost use Rattle.jobs.specs.Jobs.{IsReady, ReadsInput};
ghost use Rattle.jobs.specs.declared.job.Job.TheVariants.{Boards};
ghost use Rattle.requests.specs.Requests.{Wish};
ghost use Rattle.deals_cli.specs.Served.{Serves};
ghost use Rattle.deals_cli.specs.Wishes.{language_page};
ghost use Rattle.deals_cli.specs.internal.Ends.{EndsBoards, EndsCount, FaultsOfRun};
ghost use Rattle.sinks.specs.Sinks.{AppendsOrBreaksOff, CountsFault};

use crate::pick_job::pick_boards;
use crate::seed_job::draw;
use crate::show_job::show_boards;
use crate::tricks_job::write_with_tricks;
use crate::workers::worked;
use crate::written::write_plan;
use boards::{Cause, Report};
use cond_lang::LANGUAGE;
use input::Source;
use jobs::{BoardsJob, CountJob, Failure, Job};
use notations::AnyPrinter;
use sinks::{Sink, SinkFault, put_all};
use statistics::Counter;
use std::alloc::Global;
use std::sync::Wait;
use std::thread::Threads;

/// Writes the boards, and counts them.
// Not in line, so that no other job takes its stack.
#[inline(never)]
fn write_boards<R: Threads + Wait + Clone + Send + 'static, O: Sink>(
    rt: &R,
    alloc: Global,
    job: BoardsJob,
    out: &mut O,
) -> Result<Report, Cause>
    requires { O.faults out.old < 2 ^ 64 - 1 }
    ensures ends { EndsBoards job result (O.bytes out.old) (O.bytes out.new) }
    ensures faults { FaultsOfRun result (O.faults out.old) (O.faults out.new) }
{
    let BoardsJob {
        plan,
        condition,
        heading,
        format,
        show,
        workers,
        ..
    } = job;
    let run = worked(rt, &plan, workers);
    let Ok(mut printer) = AnyPrinter::showing(alloc, format, show, &heading) else {
        return Err(Cause::Memory);
    };
    let written = write_plan(rt, alloc, &run, condition, &mut printer, out)?;
    Ok(Report {
        plan,
        format,
        candidates: written.candidates,
        boards: written.boards,
    })
}

/// Writes the table.
// Not in line, so that no other job takes its stack.
#[inline(never)]
fn write_table<R: Threads + Wait + Clone + Send + 'static, O: Sink>(
    rt: &R,
    alloc: Global,
    job: CountJob,
    out: &mut O,
) -> Result<(), Cause>
    requires { O.faults out.old < 2 ^ 64 - 1 }
    ensures ends { EndsCount job result (O.bytes out.old) (O.bytes out.new) }
    ensures faults { FaultsOfRun result (O.faults out.old) (O.faults out.new) }
{
    let CountJob {
        plan,
        condition,
        workers,
        style,
        subject,
    } = job;
    let run = worked(rt, &plan, workers);
    // The plan tells how many deals there are at most.
    let _count = plan.count();
    let Ok(mut counter) = Counter::new(alloc, style, subject) else {
        return Err(Cause::Memory);
    };
    write_plan(rt, alloc, &run, condition, &mut counter, out)?;
    Ok(())
}

/// Writes the page of the language.
fn put_language<O: Sink>(out: &mut O) -> Result<(), SinkFault>
    requires { O.faults out.old < 2 ^ 64 - 1 }
    ensures bytes { AppendsOrBreaksOff (O.bytes out.old) (O.bytes out.new) result language_page }
    ensures faults { CountsFault (O.faults out.old) (O.faults out.new) result }
{
    let [before, measures, after] = LANGUAGE;
    put_all(out, before.as_bytes())?;
    put_all(out, measures.as_bytes())?;
    put_all(out, after.as_bytes())
}

/// Writes the boards, with tricks or without, as the job says, and returns its report if one is
/// asked for.
fn serve_boards<R: Threads + Wait + Clone + Send + 'static, I: Source, O: Sink>(
    rt: &R,
    alloc: Global,
    job: BoardsJob,
    input: &mut I,
    out: &mut O,
) -> Result<Option<Report>, Failure>
    requires output { O.faults out.old < 2 ^ 64 - 1 }
    requires input { I.faults input.old < 2 ^ 64 - 1 }
    ensures serves { (w : Wish) → IsReady w (Boards job) → Serves w result
        (I.rest input.old) (I.rest input.new) (O.bytes out.old) (O.bytes out.new) }
    ensures faults { O.faults out.new ≡ O.faults out.old + faults_in result }
    ensures input { CountsInput result (I.faults input.old) (I.faults input.new) }
    ensures unread { (ReadsInput (Boards job) → ⊥) → (I.rest input.new ≡ I.rest input.old)
        × (I.faults input.new ≡ I.faults input.old) }
    ensures flushed { IfErr result (λ e. status_of e ≡ 7 → O.is_flushed out.new) }
{
    let is_reported = job.report;
    if job.tricks {
        return match write_with_tricks(rt, alloc, job, input, out) {
            Ok(report) if is_reported => Ok(Some(report)),
            Ok(_) => Ok(None),
            Err(failure) => Err(failure),
        };
    }
    match write_boards(rt, alloc, job, out) {
        Ok(report) if is_reported => Ok(Some(report)),
        Ok(_) => Ok(None),
        Err(cause) => Err(Failure::Interrupted(cause)),
    }
}

/// Does the job, and returns its report if one is asked for. It may wait for its workers, and for
/// its input: only a `pick`, a `show`, boards with tricks and the drawing of a seed read it.
///
/// # Errors
///
/// `Interrupted`: the output failed, memory ran out, a thread wasn't started, or a worker ended too
/// soon. `Line` or `Record`, with the first line of the input that is refused, or `Input`, if it
/// couldn't be read: the boards up to there were written and passed on. `EndOfInput`: there are not
/// as many bytes as a seed is drawn from.
pub fn serve<R: Threads + Wait + Clone + Send + 'static, I: Source, O: Sink>(
    rt: &R,
    alloc: Global,
    job: Job,
    input: &mut I,
    out: &mut O,
) -> Result<Option<Report>, Failure>
    requires output { O.faults out.old < 2 ^ 64 - 1 }
    requires input { I.faults input.old < 2 ^ 64 - 1 }
    ensures serves { (w : Wish) → IsReady w job → Serves w result
        (I.rest input.old) (I.rest input.new) (O.bytes out.old) (O.bytes out.new) }
    // The output failed once if the failure says so, and else not.
    ensures faults { O.faults out.new ≡ O.faults out.old + faults_in result }
    // The input failed once if the failure says so, and else not unless the output failed after it.
    ensures input { CountsInput result (I.faults input.old) (I.faults input.new) }
    ensures unread { (ReadsInput job → ⊥) → (I.rest input.new ≡ I.rest input.old)
        × (I.faults input.new ≡ I.faults input.old) }
    // What was written before a failure of the input is passed on.
    ensures flushed { IfErr result (λ e. status_of e ≡ 7 → O.is_flushed out.new) }
{
    match job {
        Job::Boards(job) => serve_boards(rt, alloc, job, input, out),
        Job::Count(job) => match write_table(rt, alloc, job, out) {
            Ok(()) => Ok(None),
            Err(cause) => Err(Failure::Interrupted(cause)),
        },
        Job::Pick(job) => match pick_boards(alloc, &job, input, out) {
            Ok(()) => Ok(None),
            Err(failure) => Err(failure),
        },
        Job::Show(job) => match show_boards(alloc, &job, input, out) {
            Ok(()) => Ok(None),
            Err(failure) => Err(failure),
        },
        Job::Conditions => match put_language(out) {
            Ok(()) => Ok(None),
            Err(_) => Err(Failure::Interrupted(Cause::Output)),
        },
        Job::Lessons(text) => match put_all(out, text.as_bytes()) {
            Ok(()) => Ok(None),
            Err(_) => Err(Failure::Interrupted(Cause::Output)),
        },
        Job::Seed => match draw(input, out) {
            Ok(()) => Ok(None),
            Err(failure) => Err(failure),
        },
        Job::Stream(job) => match dealrun::stream(job.seed, job.count, out) {
            Ok(()) => Ok(None),
            Err(_) => Err(Failure::Interrupted(Cause::Output)),
        },
    }
}
