//! Who deals and which side is vulnerable, by the number of the board (Law 2) or by a setting, and
//! whether deals are turned to the dealer.

ghost use Rattle.std.specs.Prelude.{◌≡◌, ◌≤◌};
ghost use Rattle.boards.specs.Settings.{board_in, by_law, deal_in};
ghost use Rattle.boards.specs.Law2.{dealer_of, vulnerable_of};

use crate::Board;
use cards::{Deal, Seat};

/// The sides that are vulnerable.
#[derive(Clone, Copy)]
pub enum Vul {
    Neither,
    NorthSouth,
    EastWest,
    Both,
}

/// The dealer of the board, whose number is at least 1.
pub fn dealer(board: u64) -> Seat
    requires { 1 ≤ board }
    ensures { result ≡ dealer_of board }
{
    match (board - 1) % 16 % 4 {
        0 => Seat::North,
        1 => Seat::East,
        2 => Seat::South,
        _ => Seat::West,
    }
}

/// The vulnerability of the board, whose number is at least 1.
pub fn vulnerable(board: u64) -> Vul
    requires { 1 ≤ board }
    ensures { result ≡ vulnerable_of board }
{
    match (board - 1) % 16 {
        0 | 7 | 10 | 13 => Vul::Neither,
        1 | 4 | 11 | 14 => Vul::NorthSouth,
        2 | 5 | 8 | 15 => Vul::EastWest,
        _ => Vul::Both,
    }
}

/// The dealer and the vulnerability of every board, where they are given, and else Law 2's; and
/// whether each deal is turned so that the hand which a condition calls north is the dealer's.
#[derive(Clone, Copy)]
pub struct Setting {
    pub dealer: Option<Seat>,
    pub vulnerable: Option<Vul>,
    pub rotate: bool,
}

impl Setting {
    /// Nothing is set: the dealer and the vulnerability are Law 2's, and no deal is turned.
    pub fn by_law() -> Setting
        ensures { result ≡ by_law }
    {
        Setting {
            dealer: None,
            vulnerable: None,
            rotate: false,
        }
    }

    /// The deal as it is played: turned to this dealer, or as it is.
    fn dealt(&self, dealer: Seat, deal: Deal) -> Deal
        ensures { result ≡ deal_in self.now dealer deal }
    {
        if self.rotate {
            deal.turned(dealer)
        } else {
            deal
        }
    }

    /// The board of this number, at least 1, that deals this candidate's deal.
    pub fn board(&self, number: u64, candidate: u64, deal: Deal) -> Board
        requires { 1 ≤ number }
        ensures { result ≡ board_in self.now number candidate deal }
    {
        let dealer = self.dealer.unwrap_or(dealer(number));
        Board {
            number,
            candidate,
            dealer,
            vulnerable: self.vulnerable.unwrap_or(vulnerable(number)),
            deal: self.dealt(dealer, deal),
        }
    }
}
