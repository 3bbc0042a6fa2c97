//! Laws of settings and captions: functions that do nothing, whose contracts are the laws.

ghost use Rattle.std.specs.Prelude.{◌≡◌, ℕ, List, true};
ghost use Rattle.boards.specs.Captions.{AreLabels, captions_in};
ghost use Rattle.boards.specs.Headings.{HeadingView};
ghost use Rattle.boards.specs.Law2.{board_by_law};
ghost use Rattle.boards.specs.Settings.{board_in, by_law, dealer_in};
ghost use Rattle.boards.specs.declared.format.Format.{Format as AFormat};
ghost use Rattle.boards.specs.declared.setting.Setting.{Setting};
ghost use Rattle.cards.specs.Deals.{IsPartition};
ghost use Rattle.cards.specs.Hands.{hand_of};
ghost use Rattle.cards.specs.Turning.{goes_to};
ghost use Rattle.cards.specs.declared.seat.Seat.{Seat};
ghost use Rattle.cards.specs.declared.seat.Seat.TheVariants.{North};

/// Where nothing is set, a board is Law 2's, with its deal as it is.
pub fn boards_by_law()
    ensures { (number candidate : ℕ) (deal : List Seat)
        → board_in by_law number candidate deal ≡ board_by_law number candidate deal }
{}

/// A deal that is turned has the same hands: North's is the dealer's, and each seat's goes where
/// it goes with North's at the dealer.
pub fn rotating_keeps_hands()
    ensures dealer { (setting : Setting) (number candidate : ℕ) (deal : List Seat)
        → setting.rotate ≡ true
        → hand_of (board_in setting number candidate deal).deal (dealer_in setting number)
        ≡ hand_of deal North }
    ensures hands { (setting : Setting) (number candidate : ℕ) (deal : List Seat) (seat : Seat)
        → setting.rotate ≡ true
        → hand_of (board_in setting number candidate deal).deal
        (goes_to (dealer_in setting number) seat) ≡ hand_of deal seat }
{}

/// The deal of a board is a partition of the pack if the candidate's is.
pub fn boards_deal_partitions()
    ensures { (setting : Setting) (number candidate : ℕ) (deal : List Seat)
        → IsPartition deal → IsPartition (board_in setting number candidate deal).deal }
{}

/// Every format writes labels as they are.
#[tactic(auto, using(crate::proofs::Tested::labels_stay))]
pub fn every_format_has_labels()
    ensures { (format : AFormat) (given : HeadingView)
        → AreLabels given → captions_in format given ≡ given }
{}
