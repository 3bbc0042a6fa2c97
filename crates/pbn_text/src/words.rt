//! The words of Portable Bridge Notation for seats and vulnerable sides.

ghost use Rattle.std.specs.Prelude.{◌≡◌, ◌≤◌, length};
ghost use Rattle.pbn_text.specs.Games.{dealer_text, vulnerable_text};

use boards::Vul;
use cards::Seat;

/// Returns the seat as a letter, as for the dealer or a declarer.
pub fn seat_letter(seat: Seat) -> [u8; 1]
    ensures { result ≡ dealer_text seat }
{
    match seat {
        Seat::North => *b"N",
        Seat::East => *b"E",
        Seat::South => *b"S",
        Seat::West => *b"W",
    }
}

/// Returns the word for the vulnerable sides.
pub fn vulnerable_word(sides: Vul) -> &'static [u8]
    ensures value { result.now ≡ vulnerable_text sides }
    ensures most { length result.now ≤ 4 }
{
    match sides {
        Vul::Neither => b"None",
        Vul::NorthSouth => b"NS",
        Vul::EastWest => b"EW",
        Vul::Both => b"All",
    }
}
