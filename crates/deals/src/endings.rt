//! How a run ended, as a person is told.

ghost use Rattle.std.specs.Prelude.{◌≡◌, IfSome};
ghost use Rattle.jobs.specs.Failures.{status_in};

use crate::streams::ErrOutput;
use deals_cli::{Failure, Report};
use explain::without_far_tips;
use sinks::put_all;
use std::io;
use std::io::ErrorKind;

/// The status of an output that failed.
const OUTPUT_FAILED: u8 = 4;

/// How it ended, as a person is told: without tips that lead astray.
pub fn for_person(
    rt: &HostRuntime,
    ended: Result<Option<Report>, Failure>,
) -> Result<Option<Report>, Failure> {
    match ended {
        Err(Failure::CommandLine(text)) => {
            let text = without_far_tips(rt.alloc(), text.as_str()).unwrap_or(text);
            Err(Failure::CommandLine(text))
        }
        ended => ended,
    }
}

/// The status, if what read the output has gone, as `head` goes when it has enough: nothing is said
/// of that, since the whole pipe is to end quietly.
pub fn cut_off(ended: &Result<Option<Report>, Failure>, reason: Option<&io::Error>) -> Option<u8>
    // Of nothing but a failure of the output.
    ensures { IfSome result (λ status. (status ≡ status_in ended.now) × (status ≡ 4)) }
{
    let Err(failure) = ended else {
        return None;
    };
    if failure.status() != OUTPUT_FAILED || reason?.kind() != ErrorKind::BrokenPipe {
        return None;
    }
    Some(OUTPUT_FAILED)
}

/// Says it to a person, if there is something to say.
pub fn say_more(text: Option<String>, err: &mut ErrOutput) {
    if err.fault_count() > 0 {
        return;
    }
    if let Some(text) = text {
        let _ = put_all(err, text.as_bytes());
    }
}
