//! The reference run: one thread and no lane, written as the definition of the text reads. It runs
//! in tests alone, and the run over lanes is compared with it.

ghost use Rattle.std.specs.Prelude.{◌≡◌, ◌-◌, ◌<◌, ◌^◌, [], length, IfOk, MatchResult};
ghost use Rattle.sinks.specs.Appended.{AppendsAll};
ghost use Rattle.sinks.specs.Sinks.{CountsFault};
ghost use Rattle.boards.specs.Reference.{BreaksOffIn, WritesPlainIn};
ghost use Rattle.boards.specs.Text.{accepted, boards_of, end_of, text_of};

use crate::next_board::{is_full, put_board};
use crate::{Notation, Plan};
use cards::Candidates;
use conditions::Cond;
use sinks::{Sink, put_all};

/// The sink failed, after this many whole boards.
#[derive(Clone, Copy, Debug, PartialEq, Eq)]
pub struct PlainFault {
    pub boards: u64,
}

/// How many boards were written, and how many candidates were tried for them.
#[derive(Clone, Copy)]
struct RunCounts {
    boards: u64,
    tried: u64,
}

/// Writes the header, and the boards of the accepted candidates in order, up to the plan's limit.
fn write_accepted<N: Notation, S: Sink>(
    plan: &Plan,
    cond: &Cond,
    notation: &mut N,
    sink: &mut S,
) -> Result<RunCounts, PlainFault>
    requires faults { S.faults sink.old < 2 ^ 64 - 1 }
    requires printed { N.has_printed notation.old [] }
    ensures layout { N.layout notation.new ≡ N.layout notation.old }
    ensures bytes { MatchResult result
        (λ _. AppendsAll (S.bytes sink.old) (S.bytes sink.new)
        (text_of (N.layout notation.old) plan.now (accepted plan.now cond.now)))
        (λ e. BreaksOffIn (N.layout notation.old) (S.bytes sink.old) (S.bytes sink.new)
        plan.now cond.now e.boards) }
    ensures boards { IfOk result (λ counts. counts.boards ≡ length (accepted plan.now cond.now)) }
    ensures tried { IfOk result (λ counts. counts.tried ≡ end_of plan.now cond.now) }
    ensures printed { IfOk result (λ _.
        N.has_printed notation.new (boards_of plan.now (accepted plan.now cond.now))) }
    ensures faults { CountsFault (S.faults sink.old) (S.faults sink.new) result }
{
    let mut boards = 0;
    let mut tried = 0;
    if put_all(sink, notation.header()).is_err() {
        return Err(PlainFault { boards });
    }
    let first = plan.first();
    let mut candidates = Candidates::around(plan.seed(), first, 1, plan.fixed());
    for place in 0..plan.count() {
        if is_full(plan, boards) {
            break;
        }
        let deal = candidates.next();
        if cond.holds(&deal) {
            let candidate = first + place;
            if put_board(plan, notation, boards, candidate, &deal, sink).is_err() {
                return Err(PlainFault { boards });
            }
            boards += 1;
        }
        tried = place + 1;
    }
    Ok(RunCounts { boards, tried })
}

/// Tries the plan's candidates in order, and writes the header, the boards of those that meet the
/// condition, at most the plan's limit of them, and the footer, in a notation that has printed
/// nothing. Returns how many boards were written.
///
/// # Errors
///
/// `PlainFault` if the sink failed: a proper prefix of that text is written, and the fault has the
/// number of whole boards in it.
pub fn run_plain_in<N: Notation, S: Sink>(
    plan: &Plan,
    cond: &Cond,
    notation: &mut N,
    sink: &mut S,
) -> Result<u64, PlainFault>
    requires faults { S.faults sink.old < 2 ^ 64 - 1 }
    requires printed { N.has_printed notation.old [] }
    ensures layout { N.layout notation.new ≡ N.layout notation.old }
    ensures bytes { WritesPlainIn (N.layout notation.old) plan.now cond.now result
        (S.bytes sink.old) (S.bytes sink.new) }
    ensures boards { IfOk result (λ boards. boards ≡ length (accepted plan.now cond.now)) }
    ensures faults { CountsFault (S.faults sink.old) (S.faults sink.new) result }
{
    match write_accepted(plan, cond, notation, sink) {
        Ok(RunCounts { boards, tried }) => match notation.put_footer(tried, sink) {
            Ok(()) => Ok(boards),
            Err(_) => Err(PlainFault { boards }),
        },
        Err(fault) => Err(fault),
    }
}
