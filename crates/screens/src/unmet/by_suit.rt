//! A number for each suit of a hand.

ghost use Rattle.std.specs.Prelude.{◌≡◌, ◌≤◌};
ghost use Rattle.screens.specs.Suits.{HasUpTo, in_order, ordered_in, total_in};

use cards::Order;

/// A number for each suit.
#[derive(Clone, Copy)]
pub(crate) struct BySuit {
    pub(crate) spades: u64,
    pub(crate) hearts: u64,
    pub(crate) diamonds: u64,
    pub(crate) clubs: u64,
}

impl BySuit {
    /// The number of this order among the four.
    pub(crate) fn ordered(self, order: Order) -> u64
        ensures value { result ≡ ordered_in order self }
        ensures few { HasUpTo 65535 self → result ≤ 65535 }
    {
        order.of(self.spades, self.hearts, self.diamonds, self.clubs)
    }

    /// All four together.
    pub(crate) fn total(self) -> u64
        requires { HasUpTo 65535 self }
        ensures value { result ≡ total_in self }
        ensures few { result ≤ 262140 }
    {
        self.spades + self.hearts + self.diamonds + self.clubs
    }

    /// The numbers in the order of the suits.
    pub(crate) fn in_order(self) -> [u16; 4]
        requires { HasUpTo 65535 self }
        ensures { result ≡ in_order self }
    {
        [
            self.spades as u16,
            self.hearts as u16,
            self.diamonds as u16,
            self.clubs as u16,
        ]
    }
}
