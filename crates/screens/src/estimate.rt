//! Estimates: the least or the greatest that a value can be once some hands are known.
//!
//! An estimate takes for each card what it counts at the least, or at the greatest, at a seat whose
//! hand isn't known. So the rest of the pack is shared out by itself. Once a hand is known, what
//! was taken for its cards is replaced by what they count there.

ghost use Rattle.std.specs.Prelude.{◌≡◌, ℕ, ◌*◌, ◌<◌, ◌≤◌, None, slice_index, slice_index_or};
ghost use Rattle.std.specs.List.{sum_by};
ghost use Rattle.cards.specs.Shuffle.{pack};
ghost use Rattle.conditions.specs.declared.limits.TheConstants.{MOST_PARTS};
ghost use Rattle.conditions.specs.Form.{amount_of};
ghost use Rattle.conditions.specs.Limits.{atoms_of};
ghost use Rattle.screens.specs.internal.Shares.{open_weight, weight_at};
ghost use Rattle.screens.specs.internal.Estimates.{IsEstimate};

use crate::shares::{beside, open_weight, weight_at};
use crate::stage::{Bound, Stage};
use cards::{Fixed, Seat};
use conditions::Value;

/// A bound of a value, for any hands that may become known.
#[derive(Drop)]
pub(crate) struct Estimate {
    /// What the value is beside its cards, and what is taken for each card of the pack.
    pub(crate) total: u64,
    /// What is taken for each card.
    pub(crate) taken: [u32; 52],
    /// What each card counts in West's hand.
    pub(crate) west: [u32; 52],
    /// What each card counts in South's hand, or what is taken for it where that hand isn't known.
    pub(crate) south: [u32; 52],
}

impl Estimate {
    /// The estimate of the value.
    pub(crate) fn of(value: &Value, bound: Bound, stage: Stage, fixed: &Fixed) -> Estimate
        requires { atoms_of (amount_of value.now) ≤ MOST_PARTS }
        ensures { IsEstimate bound stage fixed.now (amount_of value.now) result }
    {
        let taken = open_weights(value, bound, stage, fixed);
        let south = match stage {
            Stage::OneHand => taken,
            Stage::TwoHands => held_weights(value, Seat::South),
        };
        Estimate {
            total: beside(value, bound) + u64::from(total_of(&taken)),
            taken,
            west: held_weights(value, Seat::West),
            south,
        }
    }
}

/// What each card counts if the seat has it.
fn held_weights(value: &Value, seat: Seat) -> [u32; 52]
    requires { atoms_of (amount_of value.now) ≤ MOST_PARTS }
    ensures { (c : ℕ) → c < 52 → slice_index result c ≡ weight_at (amount_of value.now) c seat }
{
    let mut weights = [0; 52];
    for card in 0..weights.len() {
        weights[card] = weight_at(value, card, seat);
    }
    weights
}

/// What is taken for each card as long as it is in no known hand.
fn open_weights(value: &Value, bound: Bound, stage: Stage, fixed: &Fixed) -> [u32; 52]
    requires { atoms_of (amount_of value.now) ≤ MOST_PARTS }
    ensures each { (c : ℕ) → c < 52 → slice_index result c
        ≡ open_weight bound stage (amount_of value.now) c (slice_index_or fixed.now c None) }
    ensures most { (c : ℕ) → c < 52 → slice_index result c ≤ 3825 * MOST_PARTS }
{
    let seats = fixed.as_array();
    let mut weights = [0; 52];
    for card in 0..weights.len() {
        weights[card] = open_weight(value, bound, stage, card, seats[card]);
    }
    weights
}

/// The weights of all cards together.
fn total_of(weights: &[u32; 52]) -> u32
    requires { (c : ℕ) → c < 52 → slice_index weights.now c ≤ 3825 * MOST_PARTS }
    ensures value { result ≡ sum_by (λ c. slice_index weights.now c) pack }
    ensures most { result ≤ 52 * 3825 * MOST_PARTS }
{
    let mut total = 0;
    for card in 0..weights.len() {
        total += weights[card];
    }
    total
}
