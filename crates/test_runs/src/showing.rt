//! What is on the output and on the terminal, by a clock that is set by hand.

use crate::support::{equals, holds};
use sinks::console::{Counts, Drawn, GATHERED_MILLIS, OverLine, Prompt, Remark, Style};
use sinks::{Sink, put_all};
use std::alloc::Global;
use std::cell::{Cell, RefCell};
use std::io;
use std::io::{BufWriter, ErrorKind, Write};
use std::process::Abort;
use std::test::Fail;
use std::time::{Clock, Duration};

/// A clock that is set by hand, in milliseconds.
#[derive(Clone, Copy)]
struct Hand<'a> {
    millis: &'a Cell<u64>,
}

impl Clock for Hand<'_> {
    fn monotonic(&self) -> io::Result<Duration> {
        Ok(Duration::from_millis(self.millis.get()))
    }

    fn since_1970(&self) -> io::Result<Duration> {
        self.monotonic()
    }
}

/// A writer on paper, which is read beside it.
#[derive(Clone, Copy)]
struct Pen<'a> {
    paper: &'a RefCell<Vec<u8>>,
}

impl Write for Pen<'_> {
    fn write(&mut self, buf: &[u8]) -> io::Result<usize> {
        let mut paper = self.paper.try_borrow_mut()?;
        paper.extend_from_slice(buf)?;
        Ok(buf.len())
    }

    fn flush(&mut self) -> io::Result<()> {
        Ok(())
    }
}

/// A pen that can break.
#[derive(Drop)]
struct Breakable<'a> {
    pen: Pen<'a>,
    broken: &'a Cell<bool>,
}

impl Write for Breakable<'_> {
    fn write(&mut self, buf: &[u8]) -> io::Result<usize> {
        if self.broken.get() {
            return Err(io::Error::from(ErrorKind::StorageFull));
        }
        self.pen.write(buf)
    }

    fn flush(&mut self) -> io::Result<()> {
        self.pen.flush()
    }
}

/// There is nothing to say of a run.
#[derive(Drop)]
struct Nothing;

impl Remark for Nothing {
    fn line(&self) -> Option<String> {
        None
    }
}

/// The sink of a test.
type OnDesk<'a> = Prompt<Breakable<'a>, Hand<'a>, Pen<'a>, Nothing>;

/// All that a test sets and reads.
#[derive(Drop)]
struct Desk {
    millis: Cell<u64>,
    broken: Cell<bool>,
    out: RefCell<Vec<u8>>,
    err: RefCell<Vec<u8>>,
}

impl Desk {
    fn new(alloc: Global) -> Desk {
        Desk {
            millis: Cell::new(5000),
            broken: Cell::new(false),
            out: RefCell::new(Vec::new(alloc)),
            err: RefCell::new(Vec::new(alloc)),
        }
    }

    /// A run of a thousand candidates that starts now.
    fn prompt(&self, alloc: Global, style: Style, drawn: Drawn) -> io::Result<OnDesk<'_>> {
        let err = Pen { paper: &self.err };
        let now = self.millis.get();
        let counts = Counts::new(alloc, err, Nothing, drawn, style, Some(1000), now);
        let clock = Hand {
            millis: &self.millis,
        };
        let pen = Breakable {
            pen: Pen { paper: &self.out },
            broken: &self.broken,
        };
        let writer = BufWriter::new(alloc, pen)?;
        Ok(Prompt::new(writer, clock, counts, GATHERED_MILLIS))
    }
}

/// Writes a piece. True if the sink took it.
fn put(prompt: &mut OnDesk<'_>, piece: &[u8]) -> bool {
    prompt.fault_count() < u64::MAX && put_all(prompt, piece).is_ok()
}

/// Flushes. True if the sink could.
fn flush(prompt: &mut OnDesk<'_>) -> bool {
    prompt.fault_count() < u64::MAX && prompt.flush().is_ok()
}

/// Looks at the clock when there are this many candidates and boards.
fn watch_at(desk: &Desk, prompt: &mut OnDesk<'_>, millis: u64, candidates: u64, boards: u64) {
    desk.millis.set(millis);
    prompt.watch(candidates, boards);
}

/// Aborts unless just this is on a paper, which is empty then.
fn stands(rt: &impl Abort, paper: &RefCell<Vec<u8>>, text: &[u8]) {
    let Ok(mut paper) = paper.try_borrow_mut() else {
        assert!(rt; false);
        return;
    };
    equals(rt, &paper.as_slice(), &text);
    paper.clear();
}

#[test]
fn a_board_is_passed_on_after_a_fifth_of_a_second(rt: HostRuntime) -> Result<(), Fail> {
    let desk = Desk::new(rt.alloc());
    let mut prompt = desk.prompt(rt.alloc(), Style::Never, Drawn::new(rt.alloc())?)?;
    passes_on(&rt, &desk, &mut prompt);
    Ok(())
}

/// The first board is passed on at once, and the next one only in its time.
fn passes_on(rt: &impl Abort, desk: &Desk, prompt: &mut OnDesk<'_>) {
    holds(rt, "one is put", put(prompt, b"one"));
    stands(rt, &desk.out, b"");
    prompt.watch(10, 1);
    stands(rt, &desk.out, b"one");
    holds(rt, "two is put", put(prompt, b"two"));
    watch_at(desk, prompt, 5199, 20, 2);
    stands(rt, &desk.out, b"");
    watch_at(desk, prompt, 5200, 30, 2);
    stands(rt, &desk.out, b"two");
    stands(rt, &desk.err, b"");
}

/// Milliseconds, candidates and boards, and the line that is drawn then.
const DRAWN: [(u64, u64, u64, &[u8]); 4] = [
    (5999, 100, 0, b""),
    (
        6000,
        200,
        1,
        b"\r\x1b[?7l20%  200 of 1,000 candidates  1 board  200 /s  4 s left\x1b[K\x1b[?7h",
    ),
    (6249, 210, 1, b""),
    (
        6250,
        250,
        2,
        b"\r\x1b[?7l25%  250 of 1,000 candidates  2 boards  200 /s  4 s left\x1b[K\x1b[?7h",
    ),
];

#[test]
fn counts_are_drawn_and_wiped(rt: HostRuntime) -> Result<(), Fail> {
    let desk = Desk::new(rt.alloc());
    let mut prompt = desk.prompt(rt.alloc(), Style::Redrawn, Drawn::new(rt.alloc())?)?;
    draws(&rt, &desk, &mut prompt);
    wipes_once(&rt, &desk, &mut prompt);
    Ok(())
}

fn draws(rt: &impl Abort, desk: &Desk, prompt: &mut OnDesk<'_>) {
    for (millis, candidates, boards, line) in DRAWN.iter() {
        watch_at(desk, prompt, *millis, *candidates, *boards);
        stands(rt, &desk.err, line);
    }
}

fn wipes_once(rt: &impl Abort, desk: &Desk, prompt: &mut OnDesk<'_>) {
    holds(rt, "flushed", flush(prompt));
    stands(rt, &desk.err, b"\r\x1b[K");
    holds(rt, "flushed again", flush(prompt));
    stands(rt, &desk.err, b"");
}

#[test]
fn a_line_a_second_without_a_terminal(rt: HostRuntime) -> Result<(), Fail> {
    let desk = Desk::new(rt.alloc());
    let mut prompt = desk.prompt(rt.alloc(), Style::Lines, Drawn::new(rt.alloc())?)?;
    for millis in 50..80 {
        watch_at(&desk, &mut prompt, millis * 100, millis, 0);
    }
    holds(&rt, "flushed", flush(&mut prompt));
    let lines = b"6%  60 of 1,000 candidates  0 boards  60 /s  16 s left\n\
        7%  70 of 1,000 candidates  0 boards  35 /s  27 s left\n";
    stands(&rt, &desk.err, lines);
    Ok(())
}

#[test]
fn what_is_said_wipes_the_line(rt: HostRuntime) -> Result<(), Fail> {
    let desk = Desk::new(rt.alloc());
    let drawn = Drawn::new(rt.alloc())?;
    let pen = Pen { paper: &desk.err };
    let mut err = OverLine::new(pen, pen, Some(drawn.try_clone()?));
    let mut prompt = desk.prompt(rt.alloc(), Style::Redrawn, drawn)?;
    let said = say_around_a_line(&desk, &mut prompt, &mut err);
    holds(&rt, "all is said", said.is_ok());
    let text = b"before\n\r\x1b[?7l0%  0 of 1,000 candidates  0 boards  0 /s  16 min 40 s left\
        \x1b[K\x1b[?7h\r\x1b[Kworker 1 not closed\nmore\n";
    stands(&rt, &desk.err, text);
    Ok(())
}

/// Says something before a line of counts is drawn, and twice after it.
fn say_around_a_line(
    desk: &Desk,
    prompt: &mut OnDesk<'_>,
    err: &mut OverLine<Pen<'_>, Pen<'_>>,
) -> io::Result<()> {
    err.write_all(b"before\n")?;
    watch_at(desk, prompt, 6000, 0, 0);
    err.write_all(b"worker 1 not closed\n")?;
    err.write_all(b"more\n")
}

#[test]
fn counted_boards_were_passed_on(rt: HostRuntime) -> Result<(), Fail> {
    let desk = Desk::new(rt.alloc());
    let mut prompt = desk.prompt(rt.alloc(), Style::Lines, Drawn::new(rt.alloc())?)?;
    counts_two(&rt, &desk, &mut prompt);
    Ok(())
}

/// The second board is passed on with the counts, though it isn't due yet.
fn counts_two(rt: &impl Abort, desk: &Desk, prompt: &mut OnDesk<'_>) {
    holds(rt, "one is put", put(prompt, b"one"));
    watch_at(desk, prompt, 5900, 10, 1);
    stands(rt, &desk.out, b"one");
    holds(rt, "two is put", put(prompt, b"two"));
    watch_at(desk, prompt, 6000, 20, 2);
    stands(rt, &desk.out, b"two");
    stands(
        rt,
        &desk.err,
        b"2%  20 of 1,000 candidates  2 boards  20 /s  49 s left\n",
    );
}

#[test]
fn boards_wipe_the_line_of_their_terminal(rt: HostRuntime) -> Result<(), Fail> {
    let desk = Desk::new(rt.alloc());
    let drawn = Drawn::new(rt.alloc())?;
    let pen = Pen { paper: &desk.err };
    let mut out = OverLine::new(pen, pen, Some(drawn.try_clone()?));
    let mut prompt = desk.prompt(rt.alloc(), Style::Redrawn, drawn)?;
    let written = write_over_a_line(&desk, &mut prompt, &mut out);
    holds(&rt, "all is written", written.is_ok());
    let text = b"\r\x1b[?7l0%  0 of 1,000 candidates  0 boards  0 /s  16 min 40 s left\
        \x1b[K\x1b[?7h\r\x1b[Ka board\n\
        \r\x1b[?7l0%  1 of 1,000 candidates  1 board  0 /s  16 min 39 s left\x1b[K\x1b[?7h";
    stands(&rt, &desk.err, text);
    Ok(())
}

/// Writes a board over a line of counts, which is drawn anew at once.
fn write_over_a_line(
    desk: &Desk,
    prompt: &mut OnDesk<'_>,
    out: &mut OverLine<Pen<'_>, Pen<'_>>,
) -> io::Result<()> {
    watch_at(desk, prompt, 6000, 0, 0);
    out.write_all(b"a board\n")?;
    watch_at(desk, prompt, 6001, 1, 1);
    Ok(())
}

#[test]
fn a_failure_is_told_by_the_next_call(rt: HostRuntime) -> Result<(), Fail> {
    let desk = Desk::new(rt.alloc());
    let mut prompt = desk.prompt(rt.alloc(), Style::Redrawn, Drawn::new(rt.alloc())?)?;
    fails_once(&rt, &desk, &mut prompt);
    stands(&rt, &desk.out, b"onethree");
    let line = b"\r\x1b[?7l0%  1 of 1,000 candidates  1 board  0 /s  16 min 39 s left\
        \x1b[K\x1b[?7h\r\x1b[K";
    stands(&rt, &desk.err, line);
    Ok(())
}

/// The writer fails within a watch, and goes on once the next call has told it.
fn fails_once(rt: &impl Abort, desk: &Desk, prompt: &mut OnDesk<'_>) {
    holds(rt, "one is put", put(prompt, b"one"));
    desk.broken.set(true);
    watch_at(desk, prompt, 7000, 1, 1);
    holds(rt, "two is refused", !put(prompt, b"two"));
    let reason = prompt.reason();
    let is_full = matches!(reason, Some(told) if told.kind() == ErrorKind::StorageFull);
    holds(rt, "the storage is full", is_full);
    desk.broken.set(false);
    holds(rt, "three is put", put(prompt, b"three"));
    holds(rt, "flushed", flush(prompt));
}
