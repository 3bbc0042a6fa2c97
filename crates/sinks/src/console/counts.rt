//! The line of counts: as it is drawn while a run lasts, and what is written over it.

use crate::console::style::Style;
use crate::console::tally::{Tally, tally_line};
use std::alloc::{AllocError, Global};
use std::io;
use std::io::Write;
use std::sync::Arc;
use std::sync::atomic::{AtomicBool, Ordering};

/// In the first second nothing is shown.
const QUIET_MILLIS: u64 = 1000;

/// After this many candidates without a board something is said.
const LONG: u64 = 10_000_000;

/// What there is to say of a run that has found nothing for long.
pub trait Remark {
    /// A line with its end, if there is anything to say.
    fn line(&self) -> Option<String>;
}

/// Draws a run's counts on a writer, and a remark once.
pub struct Counts<E, R> {
    err: E,
    remark: R,
    /// Whether it was time for the remark.
    remarked: bool,
    alloc: Global,
    style: Style,
    all: Option<u64>,
    started: u64,
    due: u64,
    /// Whether a line was drawn.
    shows: bool,
    drawn: Drawn,
}

// By hand, so that to drop one is a call (docs/DECISIONS.md).
impl<E: Drop, R: Drop> Drop for Counts<E, R> {
    fn drop(self) {
        let Counts {
            err: _,
            remark: _,
            remarked: _,
            alloc: _,
            style: _,
            all: _,
            started: _,
            due: _,
            shows: _,
            drawn: _,
        } = self;
    }
}

impl<E: Write, R: Remark> Counts<E, R> {
    /// The counts of a run over `all` candidates, if it is known how many, that started at `now`.
    pub fn new(
        alloc: Global,
        err: E,
        remark: R,
        drawn: Drawn,
        style: Style,
        all: Option<u64>,
        now: u64,
    ) -> Counts<E, R> {
        Counts {
            err,
            remark,
            remarked: false,
            alloc,
            style,
            all,
            started: now,
            due: now.saturating_add(QUIET_MILLIS),
            shows: false,
            drawn,
        }
    }

    /// Whether it is time to show how far the run is: the line has stood long enough, or something
    /// was written over it. Times are in milliseconds.
    pub(crate) fn is_due(&self, now: u64) -> bool {
        match self.style {
            Style::Never => false,
            Style::Redrawn if self.shows && !self.drawn.is_drawn() => true,
            Style::Redrawn | Style::Lines => now >= self.due,
        }
    }

    /// Shows how far the run is.
    pub(crate) fn show(&mut self, now: u64, candidates: u64, boards: u64) {
        if boards == 0 && candidates >= LONG && !self.remarked {
            self.say_remark();
        }
        self.shows = true;
        self.due = now.saturating_add(self.style.interval());
        let tally = Tally {
            candidates,
            boards,
            all: self.all,
            millis: now.saturating_sub(self.started),
        };
        // Where memory runs out no line is drawn.
        let _ = self.draw(&tally);
    }

    /// Says the remark, if there is one.
    fn say_remark(&mut self) {
        self.remarked = true;
        if let Some(line) = self.remark.line() {
            self.wipe();
            let _ = self.err.write_all(line.as_bytes());
        }
    }

    /// Draws the line of these counts.
    fn draw(&mut self, tally: &Tally) -> Result<(), AllocError> {
        let text = tally_line(self.alloc, tally)?;
        let drawn = if self.style == Style::Redrawn {
            self.drawn.note();
            // A line longer than the terminal is wide is cut there, and not broken in two.
            ["\r\x1b[?7l", text.as_str(), "\x1b[K\x1b[?7h"].concat(self.alloc)?
        } else {
            [text.as_str(), "\n"].concat(self.alloc)?
        };
        let _ = self.err.write_all(drawn.as_bytes());
        Ok(())
    }

    /// Wipes the line, if one is drawn.
    pub(crate) fn wipe(&mut self) {
        self.drawn.wipe(&mut self.err);
    }
}

/// Back to the first column, and the line empty from there on.
const WIPE: &[u8] = b"\r\x1b[K";

/// Whether a line of counts is on the terminal. Its clones tell the same.
#[derive(Drop)]
pub struct Drawn {
    is_drawn: Arc<AtomicBool, Global>,
}

impl Drawn {
    /// No line is drawn.
    ///
    /// # Errors
    ///
    /// Only if memory ran out.
    pub fn new(alloc: Global) -> Result<Drawn, AllocError> {
        Ok(Drawn {
            is_drawn: Arc::new(alloc, AtomicBool::new(false))?,
        })
    }

    /// The same, for another owner.
    ///
    /// # Errors
    ///
    /// Only if it has too many owners already.
    pub fn try_clone(&self) -> Result<Drawn, AllocError> {
        Ok(Drawn {
            is_drawn: Arc::try_clone(&self.is_drawn)?,
        })
    }

    /// Whether a line is drawn.
    pub(crate) fn is_drawn(&self) -> bool {
        self.is_drawn.load(Ordering::SeqCst)
    }

    /// Notes that a line is drawn.
    pub(crate) fn note(&self) {
        self.is_drawn.store(true, Ordering::SeqCst);
    }

    /// Wipes the line, if one is drawn, on the output that it was drawn on.
    pub(crate) fn wipe<E: Write>(&self, err: &mut E) {
        if self.is_drawn.swap(false, Ordering::SeqCst) {
            let _ = err.write_all(WIPE);
        }
    }
}

/// A writer that wipes the line of counts on the error output before it writes. Each piece is
/// written at once. It tells the bytes that the writer below tells.
pub struct OverLine<W, E> {
    writer: W,
    err: E,
    /// None where the writer's bytes don't come to the terminal that the line is on.
    drawn: Option<Drawn>,
}

// By hand, so that to drop one is a call (docs/DECISIONS.md).
impl<W: Drop, E: Drop> Drop for OverLine<W, E> {
    fn drop(self) {
        let OverLine {
            writer: _,
            err: _,
            drawn: _,
        } = self;
    }
}

impl<W: Write, E: Write> OverLine<W, E> {
    /// A writer over a line that may be on `err`.
    pub fn new(writer: W, err: E, drawn: Option<Drawn>) -> OverLine<W, E> {
        OverLine { writer, err, drawn }
    }
}

impl<W: Write, E: Write> Write for OverLine<W, E> {
    ghost contents = { λ o. W.contents o.writer };

    fn write(&mut self, buf: &[u8]) -> io::Result<usize> {
        if let Some(drawn) = &self.drawn {
            drawn.wipe(&mut self.err);
        }
        self.writer.write(buf)
    }

    fn flush(&mut self) -> io::Result<()> {
        self.writer.flush()
    }
}
