//! Whether two counts are the same.

ghost use Rattle.std.specs.Prelude.{◌≡◌};
ghost use Rattle.cards.specs.Hands.{is_same};
ghost use Rattle.screens.specs.Facts.{count_code, honours_number, is_same_count};

use cards::Honours;
use conditions::Count;

/// Whether both count the same of a hand.
#[tactic(auto, unfolding(crate::specs::Facts::is_same_count))]
#[inline(always)]
pub(crate) fn is_same_count(one: Count, other: Count) -> bool
    ensures { result ≡ is_same_count one other }
{
    is_same(count_code(one), count_code(other))
}

#[inline(always)]
fn is_same(one: [u8; 4], other: [u8; 4]) -> bool
    ensures { result ≡ is_same one other }
{
    let ([a, b, c, d], [e, f, g, h]) = (one, other);
    a == e && (b == f && (c == g && d == h))
}

/// What is counted, by numbers: what, whose, in which suit, and by which measure, of which order or
/// of which ranks.
#[inline(always)]
fn count_code(count: Count) -> [u8; 4]
    ensures { result ≡ count_code count }
{
    match count {
        Count::Total(measure, seat) => [1, seat as u8, 0, measure as u8],
        Count::SuitTotal(measure, seat, suit) => [2, seat as u8, suit as u8, measure as u8],
        Count::Length(seat, suit) => [3, seat as u8, suit as u8, 0],
        Count::Ordered(order, seat) => [4, seat as u8, 0, order as u8],
        Count::Cards(seat, ranks) => [5, seat as u8, 0, honours_number(ranks)],
        Count::SuitCards(seat, suit, ranks) => {
            [6, seat as u8, suit as u8, honours_number(ranks)]
        }
    }
}

/// The number of a set of honours: 16 for an ace, 8 for a king, and so on.
#[inline(always)]
fn honours_number(ranks: Honours) -> u8
    ensures value { result ≡ honours_number ranks }
{
    16 * u8::from(ranks.ace)
        + 8 * u8::from(ranks.king)
        + 4 * u8::from(ranks.queen)
        + 2 * u8::from(ranks.jack)
        + u8::from(ranks.ten)
}
