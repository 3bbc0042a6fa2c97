//! How many deals were counted.

ghost use Rattle.std.specs.Prelude.{◌≡◌, ◌≤◌, ◌<◌, ◌+◌};
ghost use Rattle.statistics.specs.Counting.{most_deals};

use std::marker::Model;

/// How many deals were counted, which contracts see as a number.
#[derive(Drop)]
pub(crate) struct Deals {
    count: u64,
}

impl Model for Deals {
    ghost use Rattle.std.specs.Prelude.{ℕ, ◌≤◌};
    ghost use Rattle.statistics.specs.Counting.{most_deals};

    ghost Value = { ℕ };

    ghost view = { λ d. d.count };

    ghost invariant = { λ d. d.count ≤ most_deals };
}

impl Deals {
    /// None yet.
    pub(crate) fn new() -> Deals
        ensures { result ≡ 0 }
    {
        Deals { count: 0 }
    }

    /// How many there are.
    pub(crate) fn count(&self) -> u64
        ensures value { result ≡ self.now }
        ensures few { result ≤ most_deals }
    {
        self.count
    }

    /// One more.
    pub(crate) fn add(&mut self)
        requires { self.old < most_deals }
        ensures { self.new ≡ self.old + 1 }
    {
        self.count += 1;
    }
}
