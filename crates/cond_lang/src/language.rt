//! The page of the language, for a terminal.

use crate::words::MEASURE_LINES;

/// The language of conditions on one page, in parts that follow one another, each of whole
/// lines: plain text of ASCII, 80 columns at most, with ten examples, each on a line of its own
/// that begins with four spaces.
pub const LANGUAGE: [&str; 3] = [BEFORE_MEASURES, MEASURE_LINES, BEHIND_MEASURES];

const BEFORE_MEASURES: &str = "\
A condition says which deals you want. It is one text, after --where.

What you can ask of a hand:
";

const BEHIND_MEASURES: &str =
    "  cards(north,akq)            how many aces, kings and queens; the ranks are a,
                              k, q, j and t
  cards(north,spades,akq)     how many of them in spades
  len(north,spades)           how many spades
  longest(north)              how many cards the longest suit has
  second(north)               how many cards the second longest suit has
  shortest(north)             how many cards the shortest suit has
  stops(north,spades)         the ace, or the king with one more card, the queen
                              with two or the jack with three
  balanced(north)             4-3-3-3, 4-4-3-2 or 5-3-3-2, in any order
  shape(north,5-3-3-2)        5 spades, 3 hearts, 3 diamonds and 2 clubs
  pattern(north,5-3-3-2)      these lengths, whichever suit is which
  shape(north,5-x-x-3)        x is any length, in a pattern too

Seats:        north, east, south, west; partner(north) is South, left(north) the
              next clockwise, East, right(north) West
Suits:        spades, hearts, diamonds, clubs
Comparisons:  ==  !=  <  <=  >  >=
Sums:         hcp(north)+hcp(south)>=25; 6*cards(north,a) is six for each ace
Ranges:       hcp(north) in 15-17, both ends included
Tests:        and, or, not, and brackets around tests; and binds tighter than
              or, not belongs to the one test after it
Some suit:    any suit (len(north,suit)>=6) is true with some suit in the place
              of the word suit, every suit (..) with each of the four; major is
              spades or hearts, minor diamonds or clubs, and inside the brackets
              any other (..) goes through all suits but that one
Some seat:    any seat (hcp(seat)>=20) likewise with some seat, every seat (..)
              with each of the four; ns is north or south, ew east or west
Names:        before the condition, let quiet(seat) is (hcp(seat)<9) gives a
              test or a value a name: quiet(east), quiet(partner(north)); a name
              has (seat), (suit), (seat,suit) or no brackets

Everything is written in small letters. Spaces and new lines don't matter, and a
comment goes from # to the end of its line. A condition has at most 1024 bytes,
a number at most four digits.

Examples:
  a strong notrump
    balanced(north) and hcp(north) in 15-17
  a weak two in spades
    shape(north,6-x-x-x) and hcp(north) in 6-10 and cards(north,spades,akq)>=2
  an opening in a five-card major
    hcp(north)>=12 and any major (len(north,major)>=5)
  a strong two clubs
    hcp(south)>=22 or hcp(south)>=18 and losers(south)<=3
  a preempt in any suit
    any suit (len(east,suit)>=7 and cards(east,suit,akq)>=1) and hcp(east)<10
  an eight-card fit
    any suit (len(north,suit)+len(south,suit)>=8)
  a notrump hand that stops each suit
    hcp(north) in 18-19 and balanced(north) and every suit (stops(north,suit))
  a two-suiter
    pattern(north,5-5-x-x)
  a void with South
    shortest(south)==0
  a notrump hand with quiet opponents
    let quiet(seat) is (hcp(seat)<9) balanced(north) and every ew (quiet(ew))
";
