//! A board: one deal, as it is played at a table.

ghost use Rattle.std.specs.Prelude.{◌≡◌, ◌≤◌};
ghost use Rattle.boards.specs.Law2.{board_by_law};

use crate::{Vul, dealer, vulnerable};
use cards::{Deal, Seat};

/// A board: its number, at least 1, the number of the candidate that it deals, or 2^40 if it deals
/// none, the dealer, the vulnerable sides, and the deal.
#[derive(Clone, Copy, Drop)]
pub struct Board {
    pub number: u64,
    pub candidate: u64,
    pub dealer: Seat,
    pub vulnerable: Vul,
    pub deal: Deal,
}

impl Board {
    /// The board of this number, at least 1, with the dealer and the vulnerability that Law 2 gives
    /// it.
    pub fn by_law(number: u64, candidate: u64, deal: Deal) -> Board
        requires { 1 ≤ number }
        ensures { result ≡ board_by_law number candidate deal }
    {
        Board {
            number,
            candidate,
            dealer: dealer(number),
            vulnerable: vulnerable(number),
            deal,
        }
    }
}
