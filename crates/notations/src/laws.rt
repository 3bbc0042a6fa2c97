//! Laws of the formats: functions that do nothing, whose contracts are the laws.

ghost use Rattle.std.specs.Prelude.{◌≡◌, ℕ, List, false};
ghost use Rattle.boards.specs.declared.board.Board.{Board as ABoard};
ghost use Rattle.boards.specs.Headings.{HeadingView};
ghost use Rattle.boards.specs.Layouts.{EndsAlike};
ghost use Rattle.notations.specs.Formats.{layout_showing, layout_solved};
ghost use Rattle.notations.specs.Games.{game_in};
ghost use Rattle.boards.specs.declared.format.Format.{Format as AFormat};
ghost use Rattle.boards.specs.declared.show.Show.{Show as AShow};
ghost use Rattle.boards.specs.declared.show.Seats.TheVariants.{All};
ghost use Rattle.pbn_text.specs.Games.{game_text};
ghost use Rattle.boards.specs.TricksLines.{nothing_known};

/// A game with all hands and without tricks is that of `pbn_text`.
#[tactic(auto, using(crate::proofs::GameLemmas::plain_game))]
pub fn plain_games_are_games()
    ensures { (heading : HeadingView) (show : AShow) (board : ABoard)
        → show.seats ≡ All → game_in heading show nothing_known board ≡ game_text heading board }
{}

/// With chosen hands, too, no footer depends on how many candidates were tried.
#[tactic(auto, using(crate::proofs::LayoutLemmas::showing_ends_alike))]
pub fn chosen_hands_end_alike()
    ensures { (format : AFormat) (show : AShow) (heading : HeadingView)
        → EndsAlike (layout_showing format show heading) }
{}

/// Where tricks aren't expected and none are known, a text is as the format has it.
pub fn boards_without_tricks_are_plain()
    ensures header { (format : AFormat) (show : AShow) (heading : HeadingView)
        → (layout_solved format show heading false).header
        ≡ (layout_showing format show heading).header }
    ensures boards { (format : AFormat) (show : AShow) (heading : HeadingView) (board : ABoard)
        → (layout_solved format show heading false).board nothing_known board
        ≡ (layout_showing format show heading).board board }
    ensures footer { (format : AFormat) (show : AShow) (heading : HeadingView)
        (boards : List ABoard) (tried : ℕ)
        → (layout_solved format show heading false).footer
        ≡ (layout_showing format show heading).footer boards tried }
{}
