//! What is proved of the definitions alone: the function's contract is a law, and its body does
//! nothing.

ghost use Rattle.std.specs.Prelude.{ℕ, List, Option};
ghost use Rattle.cards.specs.declared.seat.Seat.{Seat as ASeat};
ghost use Rattle.cards.specs.declared.seat.Seat.TheVariants.{West};
ghost use Rattle.cards.specs.Fixed.{IsFixed, candidate_around};
ghost use Rattle.cards.specs.Hands.{hand_of};
ghost use Rattle.screens.specs.Completions.{IsCompletion};

/// A candidate around fixed cards completes the hand that West has in it.
pub fn candidates_complete_their_hands()
    ensures { (fixed : List (Option ASeat)) (seed k : ℕ)
        → IsFixed fixed
        → IsCompletion fixed (hand_of (candidate_around fixed seed k) West)
        (candidate_around fixed seed k) }
{}
