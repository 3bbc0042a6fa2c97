//! The lengths of a hand's suits in descending order.

ghost use Rattle.std.specs.Prelude.{◌≡◌, ◌<◌, ◌≤◌, length, max};
ghost use Rattle.cards.specs.Orders.{greatest_of_two, greatest_ordered, least_ordered, ordered};
ghost use Rattle.cards.specs.Orders.{order_number, orders};

/// Which of the lengths of a hand's four suits, in descending order.
#[derive(Clone, Copy)]
pub enum Order {
    /// The greatest.
    Longest,
    /// The second greatest: of 5-5-2-1 it is 5.
    Second,
    /// The least.
    Shortest,
}

impl Order {
    /// How many orders there are.
    pub const COUNT: usize = 3;

    /// The place of the order among all, from 0 on.
    pub fn place(self) -> usize
        ensures value { result ≡ order_number self }
        ensures within { result < length orders }
    {
        self as usize
    }

    /// Returns the greatest, the second greatest or the least of four lengths, as the order says.
    #[inline(always)]
    pub fn of(self, spades: u64, hearts: u64, diamonds: u64, clubs: u64) -> u64
        ensures value { result ≡ ordered self spades hearts diamonds clubs }
        ensures most { result ≤ max (max spades hearts) (max diamonds clubs) }
    {
        match self {
            Order::Longest => spades.max(hearts).max(diamonds.max(clubs)),
            Order::Second => second(spades, hearts, diamonds, clubs),
            Order::Shortest => spades.min(hearts).min(diamonds.min(clubs)),
        }
    }

    /// The least length that a hand of thirteen cards has there.
    pub fn least(self) -> u32
        ensures value { result ≡ least_ordered self }
        ensures few { result ≤ 4 }
    {
        match self {
            Order::Longest => 4,
            Order::Second | Order::Shortest => 0,
        }
    }

    /// The greatest length that a hand of thirteen cards has there.
    pub fn greatest(self) -> u32
        ensures value { result ≡ greatest_ordered self }
        ensures few { result ≤ 13 }
    {
        match self {
            Order::Longest => 13,
            Order::Second => 6,
            Order::Shortest => 3,
        }
    }
}

/// The second greatest of four numbers.
#[inline(always)]
fn second(spades: u64, hearts: u64, diamonds: u64, clubs: u64) -> u64
    ensures value { result ≡ greatest_of_two spades hearts diamonds clubs }
    ensures most { result ≤ max (max spades hearts) (max diamonds clubs) }
{
    let alike = spades.min(hearts).max(diamonds.min(clubs));
    alike.max(spades.max(hearts).min(diamonds.max(clubs)))
}
