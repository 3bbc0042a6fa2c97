//! Tasks: what words ask for, ready to be done.

ghost use Rattle.std.specs.Prelude.{◌≡◌, ◌-◌, ◌+◌, ◌^◌, ◌<◌, IfErr, IfOk, List, map};
ghost use Rattle.std.specs.Prelude.{string_bytes, true};
ghost use Rattle.clap.specs.Walk.{Text};
ghost use Rattle.clap.specs.Words.{kind_of};
ghost use Rattle.command_line.specs.Reading.{AreRead};
ghost use Rattle.deals_cli.specs.Program.{Answers, AreRefused, IsFlushedAfter, IsTaskFor};
ghost use Rattle.deals_cli.specs.Program.{ReadsTask, WritesText, is_shown};
ghost use Rattle.deals_cli.specs.internal.Kinds.{RefusesError};
ghost use Rattle.jobs.specs.Failures.{CountsInput, faults_in, status_in, status_of};

use crate::service::serve;
use boards::Report;
use clap::Error;
use clap::error::ErrorKind;
use command_line::shown_text;
use dealrun::Cause;
use input::Source;
use jobs::{Failure, Job};
use requests::Request;
use sinks::{Sink, put_all};
use std::alloc::Global;
use std::sync::Wait;
use std::thread::Threads;

/// What words ask for, ready to be done.
#[derive(Drop)]
pub enum Task {
    /// A text of clap: help, or the version.
    Show(String),
    Do(Job),
}

/// Returns the text that clap shows for words without a request. The words in it are shown as a
/// terminal can show them. It is refused unless it was asked for.
#[tactic(auto, using(crate::proofs::Statuses::kinds))]
fn text_of(alloc: Global, words: &[String], error: &Error) -> Result<String, Failure>
    ensures shown { IfOk result (λ _. is_shown (kind_of error.now) ≡ true) }
    ensures refused { IfErr result (RefusesError (kind_of error.now)) }
{
    if error.kind() == ErrorKind::OutOfMemory {
        return Err(Failure::Interrupted(Cause::Memory));
    }
    let text = shown_text(alloc, words, error.to_string(alloc)?.as_str())?;
    if error.use_stderr() {
        return Err(Failure::CommandLine(text));
    }
    Ok(text)
}

/// Returns the task that the words ask for, where `read` is what `read_words` made of them.
///
/// # Errors
///
/// `CommandLine` if the words are refused; else the first refusal, as for `jobs::prepare`;
/// `Interrupted` if memory ran out.
pub fn prepare(
    alloc: Global,
    words: &[String],
    read: &Result<Request<'_>, Error>,
) -> Result<Task, Failure>
    requires { AreRead (map string_bytes words.now) read.now }
    ensures ready { IfOk result (IsTaskFor (map string_bytes words.now)) }
    ensures refused { IfErr result (AreRefused (map string_bytes words.now)) }
{
    match read {
        Ok(request) => match jobs::prepare(alloc, request) {
            Ok(job) => Ok(Task::Do(job)),
            Err(failure) => Err(failure),
        },
        Err(error) => match text_of(alloc, words, error) {
            Ok(text) => Ok(Task::Show(text)),
            Err(failure) => Err(failure),
        },
    }
}

/// Does the task, and leaves the output unflushed.
fn write<R: Threads + Wait + Clone + Send + 'static, I: Source, O: Sink>(
    rt: &R,
    alloc: Global,
    task: Task,
    input: &mut I,
    out: &mut O,
) -> Result<Option<Report>, Failure>
    requires output { O.faults out.old < 2 ^ 64 - 1 }
    requires input { I.faults input.old < 2 ^ 64 - 1 }
    ensures answers { (words : List Text) → IsTaskFor words task → Answers words result
        (I.rest input.old) (I.rest input.new) (O.bytes out.old) (O.bytes out.new) }
    ensures shown { WritesText task result (O.bytes out.old) (O.bytes out.new) }
    ensures faults { O.faults out.new ≡ O.faults out.old + faults_in result }
    ensures input { CountsInput result (I.faults input.old) (I.faults input.new) }
    ensures unread { (ReadsTask task → ⊥) → (I.rest input.new ≡ I.rest input.old)
        × (I.faults input.new ≡ I.faults input.old) }
    ensures flushed { IfErr result (λ e. status_of e ≡ 7 → O.is_flushed out.new) }
{
    match task {
        Task::Show(text) => match put_all(out, text.as_bytes()) {
            Ok(()) => Ok(None),
            Err(_) => Err(Failure::Interrupted(Cause::Output)),
        },
        Task::Do(job) => serve(rt, alloc, job, input, out),
    }
}

/// Does the task, and flushes the output once it is done. Returns the report, if one was asked
/// for. `pick`, `show`, `seed` and `make --tricks` alone read the input; where that is refused or
/// fails, what was written is flushed, after any other failure it may not be. It may wait for its
/// workers and its input.
///
/// # Errors
///
/// Those of `serve`, and `Interrupted` by the output if it can't be flushed.
pub fn perform<R: Threads + Wait + Clone + Send + 'static, I: Source, O: Sink>(
    rt: &R,
    alloc: Global,
    task: Task,
    input: &mut I,
    out: &mut O,
) -> Result<Option<Report>, Failure>
    requires output { O.faults out.old < 2 ^ 64 - 1 }
    requires input { I.faults input.old < 2 ^ 64 - 1 }
    ensures answers { (words : List Text) → IsTaskFor words task → Answers words result
        (I.rest input.old) (I.rest input.new) (O.bytes out.old) (O.bytes out.new) }
    ensures shown { WritesText task result (O.bytes out.old) (O.bytes out.new) }
    ensures faults { O.faults out.new ≡ O.faults out.old + faults_in result }
    ensures input { CountsInput result (I.faults input.old) (I.faults input.new) }
    ensures unread { (ReadsTask task → ⊥) → (I.rest input.new ≡ I.rest input.old)
        × (I.faults input.new ≡ I.faults input.old) }
    ensures flushed { IsFlushedAfter (status_in result) (O.is_flushed out.new) }
{
    match write(rt, alloc, task, input, out) {
        Ok(report) => match out.flush() {
            Ok(()) => Ok(report),
            Err(_) => Err(Failure::Interrupted(Cause::Output)),
        },
        Err(failure) => Err(failure),
    }
}
