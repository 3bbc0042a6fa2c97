//! What is written of a board beside the hands that are shown.

ghost use Rattle.std.specs.Prelude.{◌≡◌, true};
ghost use Rattle.std.specs.Option.{option_copied};
ghost use Rattle.boards.specs.declared.show.Seats.TheVariants.{All};
ghost use Rattle.notations.specs.Formats.{beside_hands};
ghost use Rattle.notations.specs.Tricks.{or_nothing};

use boards::{Seats, Show, Tricks};

/// Whether all hands are written.
pub(crate) fn is_all(show: Show) -> bool
    ensures { result ≡ true → show.seats ≡ All }
{
    matches!(show.seats, Seats::All)
}

/// What is written of the tricks beside these hands: nothing, unless they are all.
pub(crate) fn beside(show: Show, tricks: &Tricks) -> Option<&Tricks>
    ensures { or_nothing (option_copied result) ≡ beside_hands show tricks.now }
{
    match show.seats {
        Seats::All => Some(tricks),
        _ => None,
    }
}
