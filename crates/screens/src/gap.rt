//! Gaps between the bounds of two values: how much has to be known for the one to be less than the
//! other in any case.

ghost use Rattle.std.specs.Prelude.{◌≡◌, ℕ, ◌+◌, ◌-◌, ◌<◌, ◌≤◌, List, Bool, IfOk, min, nat_lt, slice_index};
ghost use Rattle.screens.specs.internal.Estimates.{surplus_of, weighed_by};
ghost use Rattle.screens.specs.internal.Gaps.{IsGap, IsShift, is_open};

use crate::estimate::Estimate;
use cards::{CardWeights, Hand};

/// A comparison that opens a gap: once the low side, with the losses of the known hands, is less
/// than the high side, with their gains, no deal that is still possible brings them together.
#[derive(Drop)]
pub(crate) struct Gap {
    /// The most that one value can be.
    pub(crate) low: u64,
    /// The least that the other can be, or one more than that.
    pub(crate) high: u64,
    /// What West's cards put on the two sides.
    pub(crate) west: Shift,
    /// What South's cards put on the two sides: nothing where that hand isn't known.
    pub(crate) south: Shift,
}

/// How much a seat's cards open a gap, and how much they close it. `None` weighs nothing.
#[derive(Drop)]
pub(crate) struct Shift {
    pub(crate) gain: Option<CardWeights>,
    pub(crate) loss: Option<CardWeights>,
}

/// A card's weight is 16 or more.
#[derive(Drop)]
pub(crate) struct TooHeavy;

impl Gap {
    /// The gap that is open where the value with the first bound, its greatest, is less than the
    /// value with the second one, its least, or equal to it if that counts too.
    ///
    /// # Errors
    /// `TooHeavy` if a card opens or closes it by 16 or more.
    pub(crate) fn between(
        most: &Estimate,
        least: &Estimate,
        or_equal: bool,
    ) -> Result<Gap, TooHeavy>
        ensures { IfOk result (λ gap. IsGap most.now least.now or_equal gap) }
    {
        let west = Shift::between(&most.west, &most.taken, &least.west, &least.taken)?;
        let south = Shift::between(&most.south, &most.taken, &least.south, &least.taken)?;
        Ok(Gap {
            low: most.total,
            high: least.total.saturating_add(u64::from(or_equal)),
            west,
            south,
        })
    }

    /// Whether the gap is open with these hands of West and South.
    pub(crate) fn is_open(&self, west: &Hand, south: &Hand) -> bool
        ensures { result ≡ is_open self.now west.now south.now }
    {
        let gain = weigh(&self.west.gain, west) + weigh(&self.south.gain, south);
        let loss = weigh(&self.west.loss, west) + weigh(&self.south.loss, south);
        is_less(self.low, loss, self.high, gain)
    }

    /// Whether known hands can open the gap, as far as can be told at once: if it isn't open from
    /// the start, some card has to open it.
    pub(crate) fn can_open(&self) -> bool {
        self.low < self.high || self.west.gain.is_some() || self.south.gain.is_some()
    }
}

impl Shift {
    /// What a seat's cards do to a gap: from what they count there and what was taken for them, for
    /// the value that is to be less and then for the other one.
    fn between(
        held: &[u32; 52],
        taken: &[u32; 52],
        other_held: &[u32; 52],
        other_taken: &[u32; 52],
    ) -> Result<Shift, TooHeavy>
        ensures { IfOk result (λ shift.
            IsShift held.now taken.now other_held.now other_taken.now shift) }
    {
        let opening = sums(taken, other_held);
        let closing = sums(held, other_taken);
        let gain = surplus(&opening, &closing)?;
        let loss = surplus(&closing, &opening)?;
        Ok(Shift { gain, loss })
    }
}

/// Whether the low side with its loss is less than the high one with its gain.
#[inline]
fn is_less(low: u64, loss: u32, high: u64, gain: u32) -> bool
    ensures { result ≡ nat_lt (low + loss) (high + gain) }
{
    u128::from(low) + u128::from(loss) < u128::from(high) + u128::from(gain)
}

/// What the hand weighs, or 0 if nothing weighs anything.
#[inline]
fn weigh(weights: &Option<CardWeights>, hand: &Hand) -> u32
    ensures value { result ≡ weighed_by weights.now hand.now }
    ensures most { result ≤ 780 }
{
    match weights {
        Some(weights) => weights.weigh(hand),
        None => 0,
    }
}

/// The cards' numbers of both lists together.
fn sums(left: &[u32; 52], right: &[u32; 52]) -> [u64; 52]
    ensures { (c : ℕ) → c < 52 → slice_index result c
        ≡ slice_index left.now c + slice_index right.now c }
{
    let mut sums = [0; 52];
    for card in 0..sums.len() {
        sums[card] = u64::from(left[card]) + u64::from(right[card]);
    }
    sums
}

/// By how much the cards' numbers on the left are above those on the right. `None` if none is.
fn surplus(left: &[u64; 52], right: &[u64; 52]) -> Result<Option<CardWeights>, TooHeavy>
    ensures { IfOk result (λ weights. (hand : List Bool)
        → weighed_by weights hand ≡ surplus_of left.now right.now hand) }
{
    let weights = differences(left, right);
    if weights.iter().all(|weight| *weight == 0) {
        return Ok(None);
    }
    match CardWeights::new(&weights) {
        Some(weights) => Ok(Some(weights)),
        None => Err(TooHeavy),
    }
}

/// By how much each number on the left is above the one on the right, or 16 if that is more.
fn differences(left: &[u64; 52], right: &[u64; 52]) -> [u8; 52]
    ensures { (c : ℕ) → c < 52 → slice_index result c
        ≡ min (slice_index left.now c - slice_index right.now c) 16 }
{
    let mut weights = [0; 52];
    for card in 0..weights.len() {
        weights[card] = left[card].saturating_sub(right[card]).min(16) as u8;
    }
    weights
}
