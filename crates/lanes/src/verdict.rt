//! What a worker says of one candidate; the same as a lane keeps it, in 32 bytes, so that two of
//! them share a cache line on their way from one core to another; and the verdicts that the writer
//! has out of a lane's ring and has not yet taken.
//!
//! Each look at the ring may wait for memory that the worker wrote last, from one core to another.
//! So the writer takes what is there out of the ring at once, up to a block.

ghost use Rattle.std.specs.Prelude.{◌≡◌, ◌<◌, ◌≤◌, ◌↔◌, [], ◌∷◌, ◌++◌, length, IsTrue};
ghost use Rattle.std.specs.Prelude.{true, false};
ghost use Rattle.cards.specs.Deals.{IsPartition};
ghost use Rattle.cards.specs.Packed.{HasNumber};
ghost use Rattle.rtrb.specs.Ring.{received, known_items, SameConsumer};
ghost use Rattle.lanes.specs.Prefixes.{IsPrefix};
ghost use Rattle.lanes.specs.Slots.{verdict_in};
ghost use Rattle.lanes.specs.internal.Rejected.{FirstIsRejected};

use cards::{Deal, Packed, Places};
use lcg48::Lcg48;
use rtrb::Consumer;
use std::marker::Model;

/// The verdict on a candidate: its number, whether the condition accepts it, and its deal.
#[derive(Clone, Copy, Drop)]
pub struct Verdict {
    pub number: u64,
    pub accepted: bool,
    pub deal: Deal,
}

impl Verdict {
    /// A verdict that holds the place of others, and that nobody reads.
    pub(crate) fn of_no_candidate() -> Verdict {
        Verdict {
            number: 0,
            accepted: false,
            deal: Deal::shuffled(&Places::draw(&mut Lcg48::seeded(0))),
        }
    }
}

/// A verdict as a lane keeps it: of a rejected candidate it may have only what the candidate is
/// dealt from, whose deal is drawn when somebody asks for it.
#[derive(Clone, Copy, Drop)]
pub struct Slot {
    number: u64,
    packed: Packed,
}

impl Model for Slot {
    ghost use Rattle.std.specs.Prelude.{refl};
    ghost use Rattle.cards.specs.Packed.{HasNumber};
    ghost use Rattle.lanes.specs.Slots.{SlotView};

    ghost Value = { SlotView };

    ghost view = { λ s. record { number = s.number; kept = s.packed } };

    ghost invariant = { λ s. HasNumber s.packed s.number };

    ghost inverse = { λ v. record { number = v.number; packed = v.kept } };

    ghost inverse_ok = { λ s ok. refl };
}

impl Slot {
    /// The slot of a verdict, with its deal.
    #[inline(always)]
    pub(crate) fn of(verdict: &Verdict) -> Slot
        ensures { verdict_in result ≡ verdict.now }
    {
        Slot {
            number: verdict.number,
            packed: Packed::of_deal(&verdict.deal, verdict.accepted),
        }
    }

    /// The slot of a rejected candidate, with what it is dealt from.
    pub(crate) fn rejected(number: u64, source: &Packed) -> Slot
        requires { HasNumber source.now number }
        ensures { result ≡ record { number = number; kept = source.now } }
    {
        Slot {
            number,
            packed: *source,
        }
    }

    /// The number of the verdict's candidate.
    #[inline(always)]
    pub fn number(&self) -> u64
        ensures { result ≡ (verdict_in self.now).number }
    {
        self.number
    }

    /// Whether the candidate is accepted.
    #[inline(always)]
    pub fn accepted(&self) -> bool
        ensures { result ≡ (verdict_in self.now).accepted }
    {
        self.packed.flag()
    }

    /// The candidate's deal. It is drawn now if the slot has only what it is dealt from.
    #[inline(always)]
    pub fn deal(&self) -> Deal
        ensures value { result ≡ (verdict_in self.now).deal }
        ensures partition { IsPartition result }
    {
        self.packed.deal(self.number)
    }

    /// The verdict, whose deal is drawn now if the slot has only what it is dealt from.
    pub fn verdict(&self) -> Verdict
        ensures { result ≡ verdict_in self.now }
    {
        Verdict {
            number: self.number,
            accepted: self.accepted(),
            deal: self.deal(),
        }
    }
}

/// The most verdicts that an end of a lane keeps beside its ring.
pub(crate) const MAX_BLOCK: usize = 16;

/// Up to `most` verdicts, which contracts see as the list of their slots, oldest first.
#[derive(Drop)]
pub(crate) struct Block {
    slots: [Slot; 16],
    start: usize,
    end: usize,
    most: usize,
}

impl Model for Block {
    ghost use Rattle.std.specs.Prelude.{◌≡◌, ◌≤◌, List, length, take, drop};
    ghost use Rattle.lanes.specs.Slots.{SlotView};

    ghost Value = { List SlotView };

    ghost view = { λ b. drop b.start (take b.end b.slots) };

    ghost invariant = { λ b.
        (length b.slots ≡ 16) × (b.start ≤ b.end) × (b.end ≤ 16) × (b.most ≤ 16) };
}

impl Block {
    /// No verdicts yet, and at most this many, 16 at most, from now on.
    pub(crate) fn new(most: usize) -> Block
        requires { most ≤ 16 }
        ensures { result ≡ [] }
    {
        Block {
            slots: [Slot::of(&Verdict::of_no_candidate()); 16],
            start: 0,
            end: 0,
            most,
        }
    }

    /// How many verdicts there are.
    #[tactic(auto, using(crate::proofs::Blocks::length_part))]
    pub(crate) fn len(&self) -> usize
        ensures len { result ≡ length self.now }
        ensures few { result ≤ 16 }
    {
        self.end - self.start
    }

    /// Whether there is no verdict.
    #[tactic(auto, using(crate::proofs::Blocks::length_part))]
    #[inline(always)]
    pub(crate) fn is_empty(&self) -> bool
        ensures { IsTrue result ↔ (length self.now ≡ 0) }
    {
        self.start == self.end
    }

    /// Takes the oldest verdict.
    #[inline(always)]
    pub(crate) fn take_first(&mut self) -> Slot
        requires { 0 < length self.old }
        ensures { self.old ≡ result ∷ self.new }
    {
        let slot = self.slots[self.start];
        self.start += 1;
        slot
    }

    /// Takes the oldest verdict if its candidate was rejected, and returns whether it did.
    #[inline(always)]
    pub(crate) fn take_rejected(&mut self) -> bool
        ensures taken { result ≡ true → FirstIsRejected self.old self.new }
        ensures kept { result ≡ false → self.new ≡ self.old }
    {
        if self.start == self.end || self.slots[self.start].accepted() {
            return false;
        }
        self.start += 1;
        true
    }

    /// Takes out of the ring what is there, up to a block. Never blocks.
    pub(crate) fn fill(&mut self, consumer: &mut Consumer<Slot>)
        requires { self.old ≡ [] }
        ensures ring { SameConsumer consumer.old consumer.new }
        ensures received { received consumer.new ≡ received consumer.old ++ self.new }
        ensures known { IsPrefix (known_items consumer.old)
            (self.new ++ known_items consumer.new) }
    {
        self.start = 0;
        // Up to 16 verdicts leave the ring here. That isn't an event of the core, whose Take comes
        // when the writer takes one out of the block.
        self.end = consumer.pop_partial_slice(&mut self.slots[..self.most]);
    }
}
