//! The job of a `pick`: the boards of the candidates whose numbers the input gives.

ghost use Rattle.std.specs.Prelude.{◌≡◌, ◌-◌, ◌+◌, ◌^◌, ◌<◌, IfErr, false, true};
ghost use Rattle.jobs.specs.Failures.{CountsInput, faults_in, status_of};
ghost use Rattle.deals_cli.specs.internal.Ends.{CountsPicked, EndsPicked, EndsPicking, FaultsPicked};

use crate::passed::pass_on;
use input::Source;
use input::numbers::PickFault;
use jobs::{Failure, PickJob};
use notations::AnyPrinter;
use sinks::Sink;
use std::alloc::{AllocError, Global};

/// Writes the boards without tricks.
// In line it would take the stack of a `make` too: a printer and a piece of the input.
#[inline(never)]
fn pick_alone<I: Source, O: Sink>(
    alloc: Global,
    job: &PickJob,
    input: &mut I,
    out: &mut O,
) -> Result<Result<(), PickFault>, AllocError>
    requires output { O.faults out.old < 2 ^ 64 - 1 }
    requires input { I.faults input.old < 2 ^ 64 - 1 }
    ensures ends { EndsPicked false job.now result (I.rest input.old) (I.rest input.new)
        (O.bytes out.old) (O.bytes out.new) }
    ensures faults { FaultsPicked result (O.faults out.old) (O.faults out.new) }
    ensures input { CountsPicked result (I.faults input.old) (I.faults input.new) }
{
    let mut printer = AnyPrinter::showing(alloc, job.format, job.show, &job.heading)?;
    let picked = input::numbers::pick(&job.plan, &mut printer, input, out);
    // Here and not at each end, which would take room on the stack for each.
    drop(printer);
    match picked {
        Ok(_) => Ok(Ok(())),
        Err(fault) => Ok(Err(fault)),
    }
}

/// Writes the boards, each with the tricks that its line tells.
#[inline(never)]
fn pick_with_tricks<I: Source, O: Sink>(
    alloc: Global,
    job: &PickJob,
    input: &mut I,
    out: &mut O,
) -> Result<Result<(), PickFault>, AllocError>
    requires output { O.faults out.old < 2 ^ 64 - 1 }
    requires input { I.faults input.old < 2 ^ 64 - 1 }
    ensures ends { EndsPicked true job.now result (I.rest input.old) (I.rest input.new)
        (O.bytes out.old) (O.bytes out.new) }
    ensures faults { FaultsPicked result (O.faults out.old) (O.faults out.new) }
    ensures input { CountsPicked result (I.faults input.old) (I.faults input.new) }
{
    let mut printer = AnyPrinter::with_tricks(alloc, job.format, job.show, &job.heading)?;
    let picked = input::tricks::pick(&job.plan, &mut printer, input, out);
    drop(printer);
    Ok(picked)
}

/// Writes the boards, with tricks or without, as the job says.
fn pick_read<I: Source, O: Sink>(
    alloc: Global,
    job: &PickJob,
    input: &mut I,
    out: &mut O,
) -> Result<Result<(), PickFault>, AllocError>
    requires output { O.faults out.old < 2 ^ 64 - 1 }
    requires input { I.faults input.old < 2 ^ 64 - 1 }
    ensures ends { EndsPicked job.now.tricks job.now result (I.rest input.old) (I.rest input.new)
        (O.bytes out.old) (O.bytes out.new) }
    ensures faults { FaultsPicked result (O.faults out.old) (O.faults out.new) }
    ensures input { CountsPicked result (I.faults input.old) (I.faults input.new) }
{
    if job.tricks {
        pick_with_tricks(alloc, job, input, out)
    } else {
        pick_alone(alloc, job, input, out)
    }
}

/// Writes the boards of the candidates whose numbers the input gives. What was written before a
/// fault of the input is passed on.
// Not in line, so that no other job takes its stack.
#[inline(never)]
pub(crate) fn pick_boards<I: Source, O: Sink>(
    alloc: Global,
    job: &PickJob,
    input: &mut I,
    out: &mut O,
) -> Result<(), Failure>
    requires output { O.faults out.old < 2 ^ 64 - 1 }
    requires input { I.faults input.old < 2 ^ 64 - 1 }
    ensures ends { EndsPicking job.now result (I.rest input.old) (I.rest input.new)
        (O.bytes out.old) (O.bytes out.new) }
    ensures faults { O.faults out.new ≡ O.faults out.old + faults_in result }
    ensures input { CountsInput result (I.faults input.old) (I.faults input.new) }
    ensures flushed { IfErr result (λ e. status_of e ≡ 7 → O.is_flushed out.new) }
{
    let picked = pick_read(alloc, job, input, out)?;
    pass_on(picked, out)
}
