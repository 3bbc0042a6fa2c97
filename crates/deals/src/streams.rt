//! The program's standard streams, and whether hints are said on them.

ghost use Rattle.std.specs.Prelude.{◌≡◌, IfOk};

use crate::rare::Rare;
use crate::seen::Seen;
use clap::Error;
use deals_cli::{Request, When};
use explain::hints_among;
use sinks::console::{Counts, Drawn, GATHERED_MILLIS, OverLine, Prompt, Style, millis};
use sinks::{Piped, Sink};
use std::cell::Cell;
use std::fs::File;
use std::io;
use std::io::{BufWriter, IsTerminal, Read};

/// How much output is gathered before it is passed on, unless a fifth of a second passes first. A
/// board that doesn't fit any more is passed on with the next ones, and so whole.
const BUFFER: usize = 64 * 1024;

/// The number of the error that a descriptor isn't open: EBADF.
const NOT_OPEN: i32 = 9;

/// Where a seed is drawn from.
const RANDOM: &str = "/dev/urandom";

/// Where the input comes from.
#[derive(Drop)]
enum Origin {
    /// Standard input, which is empty if it is closed.
    Stdin(io::Stdin),
    /// What the kernel draws.
    Random(File),
    /// There is none, which reading tells.
    Missing,
}

/// The input of a request: standard input, and for a seed what the kernel draws.
#[derive(Drop)]
pub struct Input<'a> {
    origin: Origin,
    /// The number of the system's error, once reading failed.
    reason: &'a Cell<Option<i32>>,
    /// What was seen of boards.
    seen: Option<&'a Cell<Seen>>,
}

impl<'a> Input<'a> {
    /// The input of this request, which notes there why it couldn't be read, and what was seen of
    /// boards.
    pub fn new(
        rt: &HostRuntime,
        read: &Result<Request<'_>, Error>,
        reason: &'a Cell<Option<i32>>,
        seen: &'a Cell<Seen>,
    ) -> Input<'a> {
        let origin = match read {
            Ok(Request::Seed) => random(rt, reason),
            _ => Origin::Stdin(rt.stdin()),
        };
        let seen = match read {
            Ok(Request::Show { .. }) => Some(seen),
            _ => None,
        };
        Input {
            origin,
            reason,
            seen,
        }
    }

    /// Notes what is seen in a piece of which this much was read.
    fn look(&self, piece: &[u8], count: usize) {
        if let Some(cell) = self.seen {
            cell.set(cell.get().with(piece.get(..count).unwrap_or(&[])));
        }
    }
}

/// What the kernel draws, if it can be opened.
fn random(rt: &HostRuntime, reason: &Cell<Option<i32>>) -> Origin {
    match File::open(rt, RANDOM) {
        Ok(file) => Origin::Random(file),
        Err(error) => {
            reason.set(error.raw_os_error());
            Origin::Missing
        }
    }
}

/// The error of an input that there isn't.
fn missing() -> io::Error {
    io::Error::from(io::ErrorKind::NotFound)
}

impl Read for Input<'_> {
    fn read(&mut self, piece: &mut [u8]) -> io::Result<usize> {
        let ended = match &mut self.origin {
            Origin::Stdin(stdin) => match stdin.read(piece) {
                Err(error) if error.raw_os_error() == Some(NOT_OPEN) => Ok(0),
                ended => ended,
            },
            Origin::Random(file) => file.read(piece),
            Origin::Missing => return Err(missing()),
        };
        match &ended {
            Ok(count) => self.look(piece, *count),
            Err(error) => self.reason.set(error.raw_os_error()),
        }
        ended
    }
}

/// Standard output, as the boards are written to it.
pub type Output = Prompt<OverLine<io::Stdout, io::Stderr>, HostRuntime, io::Stderr, Rare>;

/// Standard error, over the line of counts.
pub type ErrOutput = Piped<OverLine<io::Stderr, io::Stderr>>;

/// How the counts of a run are shown.
fn style_of(rt: &HostRuntime, progress: When) -> Style {
    match (progress, rt.stderr().is_terminal()) {
        (When::Auto, true) | (When::Always, true) => Style::Redrawn,
        (When::Always, false) => Style::Lines,
        (When::Auto, false) | (When::Never, _) => Style::Never,
    }
}

/// The counts of this request, which are shown of a run alone.
fn counts_of(
    rt: &HostRuntime,
    words: &[String],
    read: &Result<Request<'_>, Error>,
    drawn: Drawn,
) -> Counts<io::Stderr, Rare> {
    let (style, all) = match read {
        Ok(
            Request::Make {
                search,
                notices,
                ..
            }
            | Request::Find {
                search,
                notices,
                ..
            }
            | Request::Count {
                search,
                notices,
                ..
            },
        ) => { (style_of(rt, notices.progress), search.candidates) }
        _ => (Style::Never, None),
    };
    let now = millis(rt).unwrap_or(0);
    let rare = Rare::of(rt, words, read);
    Counts::new(rt.alloc(), rt.stderr(), rare, drawn, style, all, now)
}

/// For how many milliseconds boards are gathered: not at all where numbers or boards are read,
/// since the next one may come much later.
fn gathered_millis(read: &Result<Request<'_>, Error>) -> u64 {
    match read {
        Ok(Request::Pick { .. } | Request::Show { .. }) => 0,
        _ => GATHERED_MILLIS,
    }
}

/// The output and the error output for what the words ask for.
///
/// Boards on a terminal wipe the line of counts. That both are one terminal can't be known, so they
/// do it on each.
pub fn open(
    rt: &HostRuntime,
    words: &[String],
    read: &Result<Request<'_>, Error>,
) -> io::Result<(Output, ErrOutput)>
    ensures out { IfOk result (λ r. ⟦<Output as Sink>⟧.faults r.0 ≡ 0) }
    ensures err { IfOk result (λ r. ⟦<ErrOutput as Sink>⟧.faults r.1 ≡ 0) }
{
    let drawn = Drawn::new(rt.alloc())?;
    let below = if rt.stdout().is_terminal() {
        Some(drawn.try_clone()?)
    } else {
        None
    };
    let stdout = OverLine::new(rt.stdout(), rt.stderr(), below);
    let stderr = OverLine::new(rt.stderr(), rt.stderr(), Some(drawn.try_clone()?));
    let writer = BufWriter::with_capacity(rt.alloc(), BUFFER, stdout)?;
    let counts = counts_of(rt, words, read, drawn);
    let out = Prompt::new(writer, *rt, counts, gathered_millis(read));
    Ok((out, Piped::new(stderr)))
}

/// When hints are said, by the option `--hints`: also where it is among words that are refused.
pub fn hints_of(words: &[String], read: &Result<Request<'_>, Error>) -> When {
    match read {
        Ok(request) => request.hints(),
        Err(_) => hints_among(words),
    }
}

/// Whether hints are said; with `Auto`, whether standard error is a terminal.
pub fn hints_are_on(rt: &HostRuntime, when: When) -> bool {
    match when {
        When::Auto => rt.stderr().is_terminal(),
        When::Always => true,
        When::Never => false,
    }
}
