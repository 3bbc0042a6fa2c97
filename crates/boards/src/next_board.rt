//! Boards as they are written: the limit of them, and the text of the next one.

ghost use Rattle.std.specs.Prelude.{◌≡◌, ◌-◌, ◌≤◌, ◌<◌, ◌^◌, ◌↔◌, ◌++◌, ◌∷◌, [], IsTrue, List, Some};
ghost use Rattle.boards.specs.declared.board.Board.{Board as ABoard};
ghost use Rattle.boards.specs.Text.{board_of};
ghost use Rattle.sinks.specs.Sinks.{AppendsOrBreaksOff, CountsFault};

use crate::{Board, Notation, Plan};
use cards::Deal;
use sinks::{Sink, SinkFault, put_all};

/// Returns whether the plan's limit of boards is reached; false if it has none.
pub fn is_full(plan: &Plan, boards: u64) -> bool
    ensures { IsTrue result ↔ (plan.now.limit ≡ Some boards) }
{
    match plan.limit() {
        Some(most) => boards == u64::from(most),
        None => false,
    }
}

/// Returns the board of a candidate's deal after `boards` others, at most 2^40, by the setting.
pub fn board_after(plan: &Plan, boards: u64, candidate: u64, deal: &Deal) -> Board
    requires { boards ≤ 2 ^ 40 }
    ensures { result ≡ board_of plan.now boards candidate deal.now }
{
    let number = plan.first_board() + boards;
    plan.setting().board(number, candidate, *deal)
}

/// Writes the board of a candidate's deal, after `boards` of them.
///
/// # Errors
/// `SinkFault` if the sink failed: a proper prefix of the board's text was written.
#[inline(always)]
pub fn put_board<N: Notation, S: Sink>(
    plan: &Plan,
    notation: &mut N,
    boards: u64,
    candidate: u64,
    deal: &Deal,
    sink: &mut S,
) -> Result<(), SinkFault>
    requires faults { S.faults sink.old < 2 ^ 64 - 1 }
    requires boards { boards ≤ 2 ^ 40 }
    ensures layout { N.layout notation.new ≡ N.layout notation.old }
    ensures bytes { AppendsOrBreaksOff (S.bytes sink.old) (S.bytes sink.new) result
        ((N.layout notation.old).board (board_of plan.now boards candidate deal.now)) }
    ensures printed { (before : List ABoard) → N.has_printed notation.old before
        → N.has_printed notation.new
        (before ++ board_of plan.now boards candidate deal.now ∷ []) }
    ensures faults { CountsFault (S.faults sink.old) (S.faults sink.new) result }
{
    notation.print(&board_after(plan, boards, candidate, deal));
    put_all(sink, notation.text())
}
