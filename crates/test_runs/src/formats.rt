//! Runs in a notation of this file's own: a header, a line a board, and a footer.

ghost use Rattle.std.specs.Prelude.{◌≡◌, ◌<◌};

use crate::support::same;
use boards::{Board, Notation};
use cond_lang::Cond;
use dealrun::{
    Cause, Fuse, MemSink, PlainFault, Plan, Sink, SinkFault, put_all, run_in, run_plain_in,
};
use lanes::OpenGate;
use std::alloc::Global;
use std::process::Abort;
use std::sync::{Arc, Wait};
use std::thread::Threads;

/// A line a board: the last digit of its number, a space, and the last digit of its candidate. The
/// footer has the last digits of how many boards there are, and of how many candidates were tried.
#[derive(Drop)]
struct Digits {
    line: [u8; 4],
    /// The last digit of how many boards were printed.
    boards: u8,
    ghost digit: { boards < 10 },
}

impl Digits {
    ghost use Rattle.std.specs.Prelude.{◌<◌};

    fn new() -> Digits
        ensures { result.boards ≡ 0 }
    {
        Digits {
            line: [0; 4],
            boards: 0,
        }
    }
}

impl Notation for Digits {
    ghost use Rattle.std.specs.Prelude.{◌≡◌, ◌+◌, ◌%◌, ◌∷◌, [], codes, length};

    ghost layout = { λ _. record {
      header = codes "begin\n";
      board = λ b. (48 + b.number % 10) ∷ 32 ∷ (48 + b.candidate % 10) ∷ 10 ∷ [];
      footer = λ boards tried. (48 + length boards % 10) ∷ 32 ∷ (48 + tried % 10) ∷ 10 ∷ [];
    } };

    ghost printed = { λ digits. digits.line };

    ghost has_printed = { λ digits boards. digits.boards ≡ length boards % 10 };

    fn header(&self) -> &[u8] {
        b"begin\n"
    }

    fn print(&mut self, board: &Board) {
        let number = (board.number % 10) as u8;
        let candidate = (board.candidate % 10) as u8;
        self.line = [48 + number, b' ', 48 + candidate, b'\n'];
        self.boards = (self.boards + 1) % 10;
    }

    fn text(&self) -> &[u8] {
        self.line.as_slice()
    }

    fn put_footer<S: Sink>(&self, tried: u64, sink: &mut S) -> Result<(), SinkFault> {
        let tried = (tried % 10) as u8;
        put_all(sink, &[48 + self.boards, b' ', 48 + tried, b'\n'])
    }
}

/// Candidates 7 to 11 as boards from 98 on.
const TEXT: &[u8] = b"begin\n8 7\n9 8\n0 9\n1 0\n2 1\n5 5\n";

/// The plan of this many candidates of seed 0 from 7 on, as boards from 98 on.
fn plan_from_7(rt: &impl Abort, count: u64, workers: u32, capacity: u32) -> Plan {
    let plan = Plan::new(0, 7, count, workers, capacity).expect(rt, "a plan");
    plan.numbered(98).expect(rt, "a plan")
}

#[test]
fn writes_header_boards_and_footer(rt: HostRuntime) {
    for workers in [1, 3, 16] {
        for capacity in [1, 64] {
            for plan in [
                plan_from_7(&rt, 5, workers, capacity),
                plan_from_7(&rt, 200, workers, capacity)
                    .limited(5)
                    .expect(&rt, "a plan"),
            ] {
                plain_writes_all(&rt, rt.alloc(), &plan);
                lanes_write_all(&rt, rt.alloc(), &plan);
            }
        }
    }
}

/// The plain run writes the five boards.
fn plain_writes_all(rt: &impl Abort, alloc: Global, plan: &Plan) {
    let mut sink = MemSink::new(alloc);
    let boards = run_plain_in(plan, &Cond::any(alloc), &mut Digits::new(), &mut sink);
    same(rt, boards, Ok(5));
    same(rt, sink.bytes(), TEXT);
}

/// The run over lanes writes the five boards.
fn lanes_write_all<R: Abort + Threads + Wait + Clone + Send + 'static>(
    rt: &R,
    alloc: Global,
    plan: &Plan,
) {
    let mut sink = MemSink::new(alloc);
    let gate = Arc::new(alloc, OpenGate).expect(rt, "memory");
    let cond = Cond::any(alloc);
    let mut digits = Digits::new();
    let report = run_in(rt, alloc, plan, cond, &mut digits, &mut sink, gate);
    same(rt, report.ok().map(|report| report.boards), Some(5));
    same(rt, sink.bytes(), TEXT);
}

/// A sink that breaks off in the footer has all boards, which are counted.
#[test]
fn breaks_off_in_the_footer(rt: HostRuntime) {
    let plan = plan_from_7(&rt, 5, 3, 64);
    for (fails_at, most, bytes) in [(7, 64, 26), (29, 1, 28), (30, 1, 29)] {
        plain_breaks_off(&rt, rt.alloc(), &plan, fails_at, most, &TEXT[..bytes]);
        lanes_break_off(&rt, rt.alloc(), &plan, fails_at, most, &TEXT[..bytes]);
    }
}

/// The plain run has written these bytes, and five boards, when its sink fails.
fn plain_breaks_off(
    rt: &impl Abort,
    alloc: Global,
    plan: &Plan,
    fails_at: u64,
    most: usize,
    bytes: &[u8],
)
    requires { 0 < most }
{
    let mut sink = Fuse::new(MemSink::new(alloc), fails_at, most, true);
    let boards = run_plain_in(plan, &Cond::any(alloc), &mut Digits::new(), &mut sink);
    same(rt, boards, Err(PlainFault { boards: 5 }));
    same(rt, sink.bytes(), bytes);
}

/// The run over lanes has written these bytes, and five boards, when its sink fails.
fn lanes_break_off<R: Abort + Threads + Wait + Clone + Send + 'static>(
    rt: &R,
    alloc: Global,
    plan: &Plan,
    fails_at: u64,
    most: usize,
    bytes: &[u8],
)
    requires { 0 < most }
{
    let mut sink = Fuse::new(MemSink::new(alloc), fails_at, most, true);
    let gate = Arc::new(alloc, OpenGate).expect(rt, "memory");
    let cond = Cond::any(alloc);
    let mut digits = Digits::new();
    match run_in(rt, alloc, plan, cond, &mut digits, &mut sink, gate) {
        Ok(_) => assert!(rt; false),
        Err(fault) => {
            same(rt, (fault.cause, fault.boards), (Cause::Output, 5));
            assert!(rt; fault.lanes.iter().all(|lane| lane.is_settled()));
        }
    }
    same(rt, sink.bytes(), bytes);
}
