//! What is noted for a person before a run begins, and once it has ended.

use crate::seen::Seen;
use cards::MAX_CANDIDATES;
use clap::Error;
use deals_cli::{Failure, Job, Report, Request, Task};
use explain::{dealt_again, fewer_boards, no_board, one_line};
use explain_conditions::slip;
use sinks::{Piped, put_all};
use std::alloc::Global;
use std::io::IsTerminal;

/// Notes what there is to note of a task.
pub fn put_notes(
    rt: &HostRuntime,
    words: &[String],
    read: &Result<Request<'_>, Error>,
    task: &Task,
) {
    if let (Ok(request), Task::Do(job)) = (read, task) {
        put_note(rt, note(rt.alloc(), words, request, job));
        put_note(rt, keyboard_note(rt, job));
    }
}

/// What there is to note of the job of a request: that no deal meets its condition, that this has a
/// slip, or that boards with later numbers are the first deals again. None if memory runs out.
fn note(alloc: Global, words: &[String], request: &Request<'_>, job: &Job) -> Option<String> {
    let (condition, plan) = match job {
        Job::Boards(job) => (&job.condition, &job.plan),
        Job::Count(job) => (&job.condition, &job.plan),
        _ => return None,
    };
    match explain_conditions::note(alloc, condition, plan.fixed()) {
        Ok(None) => match slip_of(alloc, request) {
            Some(slip) => Some(slip),
            None => dealt_again(alloc, words, request),
        },
        Ok(Some(noted)) => Some(with_lesson(noted, request)),
        Err(_) => None,
    }
}

/// The note on a condition that no deal meets, and below it that a lesson's is a part of it.
fn with_lesson(mut noted: String, request: &Request<'_>) -> String {
    let has_lesson = match request.searched() {
        Some((search, _)) => search.lesson.is_some(),
        None => false,
    };
    if has_lesson {
        let _ = noted.push_str(
            "note: the lesson's own condition counts too: deals lessons NAME prints it\n",
        );
    }
    noted
}

/// The note on a slip in the condition of a request. None if it has none, or if memory runs out.
fn slip_of(alloc: Global, request: &Request<'_>) -> Option<String> {
    let (search, _) = request.searched()?;
    let condition = search.where_text?;
    slip(alloc, condition.as_bytes()).unwrap_or(None)
}

/// Notes it for a person, before a line of counts is drawn.
pub fn put_note(rt: &HostRuntime, text: Option<String>) {
    if let Some(text) = text {
        let _ = put_all(&mut Piped::new(rt.stderr()), text.as_bytes());
    }
}

/// Where the tricks or the boards are read from, if that is the keyboard.
fn keyboard_note(rt: &HostRuntime, job: &Job) -> Option<String> {
    let text = match job {
        Job::Boards(job) if job.tricks => {
            "note: the tricks are read from the keyboard: for a file write --tricks < FILE\n"
        }
        Job::Show(_) => {
            "note: the boards are read from the keyboard: for a file write deals show < FILE\n"
        }
        _ => return None,
    };
    if !rt.stdin().is_terminal() {
        return None;
    }
    String::from_str(rt.alloc(), text).ok()
}

/// The task, whose boards are counted, so that it can be noted if fewer come than were asked for.
pub fn with_count(task: Task) -> Task {
    match task {
        Task::Do(Job::Boards(mut job)) => {
            job.report = true;
            Task::Do(Job::Boards(job))
        }
        task => task,
    }
}

/// Whether the words ask for a report, which tells that itself.
fn asks_report(read: &Result<Request<'_>, Error>) -> bool {
    match read {
        Ok(Request::Make { notices, .. } | Request::Find { notices, .. }) => notices.report,
        _ => false,
    }
}

/// How a run of such a task ended: with its report if that was asked for.
pub fn as_asked(
    read: &Result<Request<'_>, Error>,
    ended: Result<Option<Report>, Failure>,
) -> Result<Option<Report>, Failure> {
    match ended {
        Ok(_) if !asks_report(read) => Ok(None),
        ended => ended,
    }
}

/// What there is to note of a run that ended well: that fewer boards came than were asked for,
/// unless all deals were tried; or, of a `show`, that the input had no boards, or that CR alone
/// ends its lines.
pub fn note_after(
    alloc: Global,
    read: &Result<Request<'_>, Error>,
    ended: &Result<Option<Report>, Failure>,
    seen: Seen,
) -> Option<String> {
    match (read, ended) {
        (_, Ok(Some(report))) if !asks_report(read) && report.candidates < MAX_CANDIDATES => {
            fewer_boards(alloc, report)
        }
        (Ok(Request::Show { .. }), Ok(_)) if seen.ends_in_cr() => one_line(alloc),
        (Ok(Request::Show { .. }), Ok(_)) => no_board(alloc, seen.first(), seen.has_deal()),
        _ => None,
    }
}
