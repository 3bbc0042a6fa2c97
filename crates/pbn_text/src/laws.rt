//! Laws of this crate's definitions: functions that do nothing, whose contracts are the laws.

ghost use Rattle.std.specs.Prelude.{◌≡◌, ℕ, List, length};
ghost use Rattle.cards.specs.declared.seat.Seat.{Seat};
ghost use Rattle.pbn_text.specs.Games.{HeadingView, game};

/// At one board and heading no two deals have the same text. A deal here is any list of 52 seats.
pub fn one_deal_a_text()
    ensures { (board : ℕ) (heading : HeadingView) (deal other : List Seat)
        → length deal ≡ 52
        → length other ≡ 52
        → game board heading deal ≡ game board heading other
        → deal ≡ other }
{}
