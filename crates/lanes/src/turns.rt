//! Whose turn it is when the lanes are taken one after another.

ghost use Rattle.std.specs.Prelude.{◌≡◌, ◌+◌, ◌%◌, ◌<◌, ◌≤◌, ◌^◌, ◌↔◌, IsSome, IfSome};

use cards::MAX_WORKERS;
use std::marker::Model;

/// The turns of 1 to 16 lanes, which contracts see as the turn's number and the number of lanes.
#[derive(Drop)]
pub struct Turns {
    turn: u64,
    workers: u32,
    // The lane whose turn it is, since a division at each turn takes longer.
    lane: u32,
}

impl Model for Turns {
    ghost use Rattle.std.specs.Prelude.{◌≡◌, ◌%◌, ◌≤◌, ◌^◌};
    ghost use Rattle.lanes.specs.Ends.{TurnsView};

    ghost Value = { TurnsView };

    ghost view = { λ t. record { turn = t.turn; workers = t.workers } };

    ghost invariant = { λ t.
        (1 ≤ t.workers) × (t.workers ≤ 16) × (t.turn ≤ 2 ^ 40)
        × (t.lane ≡ t.turn % t.workers) };
}

impl Turns {
    /// The turns of this many lanes, from turn 0.
    pub fn at_start(workers: u32) -> Turns
        requires { (1 ≤ workers) × (workers ≤ 16) }
        ensures { result ≡ record { turn = 0; workers = workers } }
    {
        Turns {
            turn: 0,
            workers,
            lane: 0,
        }
    }

    /// The turns of this many lanes, from turn 0. It returns `None` if there are not 1 to 16 lanes.
    pub fn new(workers: u32) -> Option<Turns>
        ensures range { IsSome result ↔ ((1 ≤ workers) × (workers ≤ 16)) }
        ensures start { IfSome result (λ t. (t.turn ≡ 0) × (t.workers ≡ workers)) }
    {
        if workers < 1 || workers > MAX_WORKERS {
            return None;
        }
        Some(Turns::at_start(workers))
    }

    /// The lane whose turn it is.
    #[inline(always)]
    pub fn lane(&self) -> u32
        ensures lane { result ≡ self.now.turn % self.now.workers }
        ensures below { result < self.now.workers }
    {
        self.lane
    }

    /// Goes on to the next turn.
    #[inline(always)]
    pub fn advance(&mut self)
        requires { self.old.turn < 2 ^ 40 }
        ensures turn { self.new.turn ≡ self.old.turn + 1 }
        ensures workers { self.new.workers ≡ self.old.workers }
    {
        self.turn += 1;
        self.lane += 1;
        if self.lane == self.workers {
            self.lane = 0;
        }
    }
}
