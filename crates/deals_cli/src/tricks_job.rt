//! The job of a `make` with tricks: the candidates are found first, and then their boards are
//! written, each as soon as its line of tricks was read.

ghost use Rattle.std.specs.Prelude.{◌≡◌, ◌-◌, ◌+◌, ◌^◌, ◌<◌, IfErr};
ghost use Rattle.jobs.specs.Failures.{CountsInput, faults_in, status_of};
ghost use Rattle.requests.specs.Defaults.{workers_in};
ghost use Rattle.deals_cli.specs.internal.Ends.{EndsFinding, EndsReady, finding_cause};

use crate::passed::pass_on;
use crate::workers::worked;
use crate::written::{BoardsWritten, write_plan};
use boards::{Captions, Cause, Format, Plan, Report};
use cond_lang::Cond;
use input::Source;
use input::tricks::{numbers_of, tell};
use jobs::{BoardsJob, Failure};
use notations::AnyPrinter;
use requests::Workers;
use sinks::{MemSink, Sink};
use std::alloc::Global;
use std::sync::Wait;
use std::thread::Threads;

/// The numbers of the accepted candidates, and how many candidates that took.
#[derive(Drop)]
pub(crate) struct FoundNumbers {
    pub(crate) numbers: Vec<u64>,
    pub(crate) written: BoardsWritten,
}

/// Why finding was interrupted, if this interrupted the run that writes the numbers to memory.
fn finding_cause(cause: Cause) -> Cause
    ensures { result ≡ finding_cause cause }
{
    match cause {
        Cause::Output => Cause::Memory,
        cause => cause,
    }
}

/// Finds the accepted candidates of the plan.
fn find<R: Threads + Wait + Clone + Send + 'static>(
    rt: &R,
    alloc: Global,
    plan: &Plan,
    condition: Cond,
    workers: Workers,
) -> Result<FoundNumbers, Cause>
    requires { plan.now.workers ≡ workers_in workers }
    ensures { EndsFinding plan.now workers condition result }
{
    let run = worked(rt, plan, workers);
    // The plan tells that its candidates are below 2^40.
    let _first = plan.first();
    let Ok(mut printer) = AnyPrinter::new(alloc, Format::Numbers, &Captions::none()) else {
        return Err(Cause::Memory);
    };
    let mut sink = MemSink::new(alloc);
    let written = match write_plan(rt, alloc, &run, condition, &mut printer, &mut sink) {
        Ok(written) => written,
        Err(cause) => return Err(finding_cause(cause)),
    };
    match numbers_of(alloc, sink.bytes()) {
        Ok(numbers) => Ok(FoundNumbers { numbers, written }),
        Err(_) => Err(Cause::Memory),
    }
}

/// Writes boards with the tricks that the input tells, and counts them. What was written before a
/// fault of the input is passed on.
// Not in line, so that no other job takes its stack.
#[inline(never)]
pub(crate) fn write_with_tricks<R: Threads + Wait + Clone + Send + 'static, I: Source, O: Sink>(
    rt: &R,
    alloc: Global,
    job: BoardsJob,
    input: &mut I,
    out: &mut O,
) -> Result<Report, Failure>
    requires output { O.faults out.old < 2 ^ 64 - 1 }
    requires input { I.faults input.old < 2 ^ 64 - 1 }
    ensures ends { EndsReady job result (I.rest input.old) (I.rest input.new)
        (O.bytes out.old) (O.bytes out.new) }
    ensures faults { O.faults out.new ≡ O.faults out.old + faults_in result }
    ensures input { CountsInput result (I.faults input.old) (I.faults input.new) }
    ensures flushed { IfErr result (λ e. status_of e ≡ 7 → O.is_flushed out.new) }
{
    let BoardsJob {
        plan,
        condition,
        heading,
        format,
        show,
        workers,
        ..
    } = job;
    let found = match find(rt, alloc, &plan, condition, workers) {
        Ok(found) => found,
        Err(cause) => return Err(Failure::Interrupted(cause)),
    };
    let mut printer = AnyPrinter::with_tricks(alloc, format, show, &heading)?;
    let told = tell(&plan, found.numbers.as_slice(), &mut printer, input, out);
    drop(printer);
    pass_on(told, out)?;
    Ok(Report {
        plan,
        format,
        candidates: found.written.candidates,
        boards: found.written.boards,
    })
}
