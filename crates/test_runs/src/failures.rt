//! The line and the status of failures that no words bring about.

use crate::support::same;
use dealrun::{Cause, MemSink};
use deals_cli::Failure;
use input::{LineFault, RefusedLine};

/// A refused line of the input is named, with what is wrong with it.
fn of_line(fault: LineFault) -> Failure {
    Failure::Line(RefusedLine { line: 3, fault })
}

#[test]
fn failures_are_told(rt: HostRuntime) {
    for (failure, status, line) in [
        (
            Failure::Interrupted(Cause::Spawn),
            6,
            "thread not started\n",
        ),
        (
            Failure::Interrupted(Cause::Stopped { worker: 3 }),
            6,
            "worker 3 stopped\n",
        ),
        (
            Failure::Interrupted(Cause::Unclosed { worker: 15 }),
            6,
            "worker 15 not closed\n",
        ),
        (
            of_line(LineFault::NotANumber),
            7,
            "input refused at line 3: not a number\n",
        ),
        (
            of_line(LineFault::NotBelow),
            7,
            "input refused at line 3: not below 1099511627776\n",
        ),
        (
            of_line(LineFault::TooMany),
            7,
            "input refused at line 3: too many numbers\n",
        ),
        (
            of_line(LineFault::NotTricks),
            7,
            "input refused at line 3: not tricks\n",
        ),
        (
            of_line(LineFault::Missing),
            7,
            "input refused at line 3: missing\n",
        ),
        (
            of_line(LineFault::OtherDeal),
            7,
            "input refused at line 3: tricks of another deal\n",
        ),
        (
            of_line(LineFault::MoreThanBoards),
            7,
            "input refused at line 3: more than the boards\n",
        ),
        (Failure::Input, 7, "input failed\n"),
        (Failure::EndOfInput, 7, "input failed\n"),
    ] {
        let mut err = MemSink::new(rt.alloc());
        assert!(rt; failure.say(&mut err).is_ok());
        same(&rt, err.bytes(), line.as_bytes());
        same(&rt, failure.status(), status);
    }
}
