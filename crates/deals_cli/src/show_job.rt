//! The job of a `show`: the boards of the games that the input has.

ghost use Rattle.std.specs.Prelude.{◌≡◌, ◌-◌, ◌+◌, ◌^◌, ◌<◌, IfErr, IfOk};
ghost use Rattle.jobs.specs.Failures.{CountsInput, faults_in, status_of};
ghost use Rattle.deals_cli.specs.Shown.{expects, labelled, labels_told};
ghost use Rattle.deals_cli.specs.internal.Ends.{CountsShown, EndsShowing, EndsShown, FaultsShown};

use boards::{Captions, Cause};
use input::Source;
use input::records::{BoardReader, Next, ReadFault, ShowFault, show};
use jobs::{Failure, ShowJob};
use notations::SolvedPrinter;
use sinks::Sink;
use std::alloc::{AllocError, Global};

/// Returns each label of the job, or else that of the game that was read first.
fn labelled(given: &Captions, first: &Result<Next, ReadFault>) -> Captions
    ensures { result ≡ labelled given.now (labels_told first.now) }
{
    let game = match first {
        Ok(Next::Board(told) | Next::Last(told)) => told.heading,
        _ => Captions::none(),
    };
    Captions::new(
        given.event().or(*game.event()),
        given.site().or(*game.site()),
        given.date().or(*game.date()),
    )
}

/// Whether the board that was read first has tricks.
fn expects(first: &Result<Next, ReadFault>) -> bool
    ensures { result ≡ expects first.now }
{
    match first {
        Ok(Next::Board(told) | Next::Last(told)) => !told.tricks.digits().is_empty(),
        _ => false,
    }
}

/// Writes the boards of the input. Nothing is written if its first read fails.
fn show_read<I: Source, O: Sink>(
    alloc: Global,
    job: &ShowJob,
    input: &mut I,
    out: &mut O,
) -> Result<Result<u64, ShowFault>, AllocError>
    requires output { O.faults out.old < 2 ^ 64 - 1 }
    requires input { I.faults input.old < 2 ^ 64 - 1 }
    ensures shows { IfOk result (λ shown. EndsShown job.now shown
        (I.rest input.old) (I.rest input.new) (O.bytes out.old) (O.bytes out.new)) }
    ensures memory { IfErr result (λ _. O.bytes out.new ≡ O.bytes out.old) }
    ensures faults { FaultsShown result (O.faults out.old) (O.faults out.new) }
    ensures input { CountsShown result (I.faults input.old) (I.faults input.new) }
{
    let mut reader = BoardReader::new();
    let first = reader.next(input);
    if let Err(ReadFault::Input) = first {
        return Ok(Err(ShowFault::Input));
    }
    let heading = labelled(&job.heading, &first);
    let expects = expects(&first);
    let mut printer = SolvedPrinter::new(alloc, job.format, job.show, &heading, expects)?;
    Ok(show(&mut reader, first, &mut printer, input, out))
}

/// Writes the boards of the input. What was written before a fault of the input is passed on.
// Not in line, so that no other job takes its stack.
#[inline(never)]
pub(crate) fn show_boards<I: Source, O: Sink>(
    alloc: Global,
    job: &ShowJob,
    input: &mut I,
    out: &mut O,
) -> Result<(), Failure>
    requires output { O.faults out.old < 2 ^ 64 - 1 }
    requires input { I.faults input.old < 2 ^ 64 - 1 }
    ensures ends { EndsShowing job.now result (I.rest input.old) (I.rest input.new)
        (O.bytes out.old) (O.bytes out.new) }
    ensures faults { O.faults out.new ≡ O.faults out.old + faults_in result }
    ensures input { CountsInput result (I.faults input.old) (I.faults input.new) }
    ensures flushed { IfErr result (λ e. status_of e ≡ 7 → O.is_flushed out.new) }
{
    match show_read(alloc, job, input, out)? {
        Ok(_) => Ok(()),
        Err(ShowFault::Output) => Err(Failure::Interrupted(Cause::Output)),
        Err(ShowFault::Refused(line)) => {
            out.flush()?;
            Err(Failure::Record(line))
        }
        Err(ShowFault::Input) => {
            out.flush()?;
            Err(Failure::Input)
        }
    }
}
