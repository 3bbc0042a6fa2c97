//! Laws of reading: functions that do nothing, whose contracts are the laws.

ghost use Rattle.std.specs.Prelude.{◌≡◌, ◌+◌, ◌≤◌, ◌^◌, ℕ, All, List, length};
ghost use Rattle.boards.specs.declared.board.Board.{Board as ABoard};
ghost use Rattle.boards.specs.Headings.{HeadingView};
ghost use Rattle.pbn_text.specs.Games.{pbn};
ghost use Rattle.cards.specs.Fixed.{IsFixed};
ghost use Rattle.boards.specs.Plans.{Planned};
ghost use Rattle.boards.specs.Text.{boards_of, text_of, text_of_boards};
ghost use Rattle.input.specs.Made.{IsHeading, IsMade, all_read};
ghost use Rattle.input.specs.Texts.{spelled};

/// The games of boards that `make` writes in PBN spell these boards, with their numbers, dealers,
/// vulnerabilities, deals and labels, and none else.
#[tactic(auto, using(crate::proofs::MadeGames::text_read))]
pub fn games_spell_their_boards()
    ensures { (heading : HeadingView) (boards : List ABoard)
        → IsHeading heading
        → All IsMade boards
        → spelled (text_of_boards (pbn heading) boards)
        ≡ all_read heading boards }
{}

/// So does the text of any candidates of a plan whose boards have numbers up to 2^40.
#[tactic(auto, using(crate::proofs::MadeGames::plan_read))]
pub fn plans_spell_their_boards()
    ensures { (plan : Planned) (numbers : List ℕ)
        → IsHeading plan.heading
        → IsFixed plan.fixed
        → 1 ≤ plan.first_board
        → plan.first_board + length numbers ≤ 2 ^ 40 + 1
        → spelled (text_of (pbn plan.heading) plan numbers)
        ≡ all_read plan.heading (boards_of plan numbers) }
{}
