//! A run of which it is known before that no candidate is accepted.

ghost use Rattle.std.specs.Prelude.{◌≡◌, ◌-◌, ◌^◌, ◌<◌, []};
ghost use Rattle.cond_lang.specs.Form.{Form};
ghost use Rattle.deals_cli.specs.internal.Ends.{AcceptsNone, EndsWritten, FaultsOfRun};

use crate::written::BoardsWritten;
use boards::{Cause, Notation, Plan};
use sinks::{Sink, put_all};

/// Writes what a run over all candidates of the plan writes if none is accepted, and deals none.
pub(crate) fn write_no_board<N: Notation, O: Sink>(
    plan: &Plan,
    notation: &N,
    out: &mut O,
) -> Result<BoardsWritten, Cause>
    requires printed { N.has_printed notation.now [] }
    requires faults { O.faults out.old < 2 ^ 64 - 1 }
    ensures ends { (form : Form) → AcceptsNone plan.now form
        → EndsWritten (N.layout notation.now) plan.now form result
        (O.bytes out.old) (O.bytes out.new) }
    ensures faults { FaultsOfRun result (O.faults out.old) (O.faults out.new) }
{
    // They are asked for what their contracts say: there are workers, and a limit isn't 0.
    let (_workers, _limit, _fixed) = (plan.workers(), plan.limit(), plan.fixed());
    if put_all(out, notation.header()).is_err() {
        return Err(Cause::Output);
    }
    match notation.put_footer(plan.count(), out) {
        Ok(()) => Ok(BoardsWritten {
            candidates: plan.count(),
            boards: 0,
        }),
        Err(_) => Err(Cause::Output),
    }
}
