//! The program `deals`: its words and standard streams, and its status.
//!
//! What is said on standard error of a refusal is one line, or clap's text, for programs to read.
//! For a person more is said below it, and while a run lasts its boards are passed on as they are
//! found, and its counts are shown (`streams.rt`).
#![tactic(auto)]

mod endings;
mod help;
mod notes;
mod rare;
mod seen;
mod streams;
mod unread;

ghost use Rattle.std.specs.Prelude.{◌-◌, ◌^◌, ◌<◌, map, string_bytes};
ghost use Rattle.command_line.specs.Reading.{AreRead};

use crate::endings::{cut_off, for_person, say_more};
use crate::help::help;
use crate::notes::{as_asked, note_after, put_note, put_notes, with_count};
use crate::seen::Seen;
use crate::streams::{ErrOutput, Input, Output, hints_are_on, hints_of, open};
use clap::Error;
use command_line::read_words;
use deals_cli::{Failure, Report, Request, Task, conclude, perform, prepare};
use explain::Reasons;
use input::Reader;
use sinks::{Piped, Sink, put_all};
use std::cell::Cell;
use std::io::ErrorKind;
use std::process::ExitCode;
use std::sync::Wait;
use std::thread::Threads;
use std::{env, io};

/// The words that the program was called with.
fn words_of(rt: &HostRuntime) -> io::Result<Vec<String>> {
    Ok(env::args(rt)?.collect(rt.alloc())?)
}

/// Says why nothing was begun: memory ran out, or a word isn't UTF-8.
fn not_begun(rt: &HostRuntime, error: &io::Error) -> ExitCode {
    if error.kind() != ErrorKind::OutOfMemory {
        put_note(rt, unread::hint(rt));
        return ExitCode::from(2);
    }
    let _ = put_all(&mut Piped::new(rt.stderr()), b"out of memory\n");
    ExitCode::from(5)
}

/// Returns the task that the words ask for. If hints are on, notes on it are printed first, and its
/// boards are counted.
fn noted(
    rt: &HostRuntime,
    words: &[String],
    read: &Result<Request<'_>, Error>,
    hints: bool,
) -> Result<Task, Failure>
    requires { AreRead (map string_bytes words.now) read.now }
{
    let task = prepare(rt.alloc(), words, read)?;
    if !hints {
        return Ok(task);
    }
    put_notes(rt, words, read, &task);
    Ok(with_count(task))
}

/// Says how it ended to a person, and what helps with a failure. Returns the status.
fn tell(
    rt: &HostRuntime,
    words: &[String],
    read: &Result<Request<'_>, Error>,
    ended: Result<Option<Report>, Failure>,
    reasons: Reasons<'_>,
    err: &mut ErrOutput,
) -> u8
    requires { ⟦<ErrOutput as Sink>⟧.faults err.old < 2 ^ 64 - 1 }
{
    let ended = for_person(rt, ended);
    let status = conclude(&ended, err);
    if let Err(failure) = &ended {
        let request = read.as_ref().ok();
        say_more(help(rt.alloc(), words, request, failure, reasons), err);
    }
    status
}

/// Does what the words ask for, and says how it ended. Returns the status. `threads` is the same
/// handle as `rt`, of a type that `perform` can start threads with.
fn answer<R: Threads + Wait + Clone + Send + 'static>(
    threads: &R,
    rt: &HostRuntime,
    words: &[String],
    read: &Result<Request<'_>, Error>,
    out: &mut Output,
    err: &mut ErrOutput,
) -> u8
    requires read { AreRead (map string_bytes words.now) read.now }
    requires out { ⟦<Output as Sink>⟧.faults out.old < 2 ^ 64 - 1 }
    requires err { ⟦<ErrOutput as Sink>⟧.faults err.old < 2 ^ 64 - 1 }
{
    let hints = hints_are_on(rt, hints_of(words, read));
    let reason = Cell::new(None);
    let seen = Cell::new(Seen::nothing());
    let mut input = Reader::new(Input::new(rt, read, &reason, &seen));
    let ended = match noted(rt, words, read, hints) {
        Ok(task) => perform(threads, rt.alloc(), task, &mut input, out),
        Err(failure) => Err(failure),
    };
    if let Some(status) = cut_off(&ended, out.reason()) {
        return status;
    }
    if !hints {
        return conclude(&ended, err);
    }
    let reasons = Reasons {
        output: out.reason(),
        input: reason.get(),
    };
    let note = note_after(rt.alloc(), read, &ended, seen.get());
    let status = tell(rt, words, read, as_asked(read, ended), reasons, err);
    say_more(note, err);
    status
}

fn main(rt: HostRuntime) -> ExitCode {
    let words = match words_of(&rt) {
        Ok(words) => words,
        Err(error) => return not_begun(&rt, &error),
    };
    let words = words.as_slice();
    let read = read_words(rt.alloc(), words);
    match open(&rt, words, &read) {
        Ok((mut out, mut err)) => {
            ExitCode::from(answer(&rt, &rt, words, &read, &mut out, &mut err))
        }
        Err(error) => not_begun(&rt, &error),
    }
}
