//! A job's run: in any notation, with a gate that is open.

ghost use Rattle.std.specs.Prelude.{◌≡◌, ◌-◌, ◌^◌, ◌<◌, []};
ghost use Rattle.deals_cli.specs.internal.Ends.{EndsWritten, FaultsOfRun};

use crate::rejected::write_no_board;
use boards::{Cause, Notation, Plan};
use cond_lang::Cond;
use dealrun::run_and_count;
use lanes::OpenGate;
use screens::unmet::is_never;
use sinks::Sink;
use std::alloc::Global;
use std::sync::{Arc, Wait};
use std::thread::Threads;

/// How many candidates a run needed, and how many boards it wrote.
#[derive(Clone, Copy, Drop)]
pub(crate) struct BoardsWritten {
    pub(crate) candidates: u64,
    pub(crate) boards: u64,
}

/// Writes the boards of the plan's accepted candidates, and counts both. If no deal meets the
/// condition, and that is seen, none is dealt.
pub(crate) fn write_plan<R: Threads + Wait + Clone + Send + 'static, N: Notation, O: Sink>(
    rt: &R,
    alloc: Global,
    plan: &Plan,
    condition: Cond,
    notation: &mut N,
    out: &mut O,
) -> Result<BoardsWritten, Cause>
    requires printed { N.has_printed notation.old [] }
    requires faults { O.faults out.old < 2 ^ 64 - 1 }
    ensures ends { EndsWritten (N.layout notation.old) plan.now condition result
        (O.bytes out.old) (O.bytes out.new) }
    ensures faults { FaultsOfRun result (O.faults out.old) (O.faults out.new) }
{
    if is_never(&condition, plan.fixed()) {
        return write_no_board(plan, notation, out);
    }
    let Ok(gate) = Arc::new(alloc, OpenGate) else {
        return Err(Cause::Memory);
    };
    match run_and_count(rt, alloc, plan, condition, notation, out, gate) {
        Ok(counted) => Ok(BoardsWritten {
            candidates: counted.candidates,
            boards: counted.report.boards,
        }),
        Err(fault) => Err(fault.cause),
    }
}
