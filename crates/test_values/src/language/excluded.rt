//! Screens: which hands they exclude. That they exclude too little no clause says.

use super::*;
use crate::written::fixed_in;
use cards::{Candidates, Fixed, Hand, Seat, Suit};
use screens::Screen;

/// How many candidates are tried for each condition.
const TRIED: usize = 400;

/// Conditions, cards that are fixed, and what excludes West's hand, and West's and South's.
const CONDITIONS: [(&str, &[u8], Plain, Plain); 14] = [
    (
        "hcp(north)+hcp(south)>=33",
        b"",
        Plain::West(8),
        Plain::West(8),
    ),
    (
        "hcp(north)+hcp(south)>20",
        b"",
        Plain::West(20),
        Plain::West(20),
    ),
    ("hcp(north)>=29", b"", Plain::West(12), Plain::Both(12)),
    ("not (hcp(north)<29)", b"", Plain::West(12), Plain::Both(12)),
    ("29<=hcp(north)", b"", Plain::West(12), Plain::Both(12)),
    ("hcp(north)==29", b"", Plain::West(12), Plain::Both(12)),
    (
        "hcp(east)+hcp(west)<=12",
        b"",
        Plain::West(13),
        Plain::West(13),
    ),
    (
        "hcp(north)+hcp(east)<23",
        b"",
        Plain::Never,
        Plain::NotBoth(18),
    ),
    (
        "hcp(north) in 29-31 and balanced(north)",
        b"",
        Plain::West(12),
        Plain::Both(12),
    ),
    (
        "hcp(north)>=29 or hcp(east)>=27",
        b"",
        Plain::West(14),
        Plain::Both(14),
    ),
    (
        "len(north,spades)>=8",
        b"",
        Plain::Spades(6),
        Plain::BothSpades(6),
    ),
    ("hcp(east)>=20", b"A.A.A.A", Plain::West(5), Plain::Both(5)),
    (
        "hcp(north)+hcp(east)>=31",
        b" ... A.",
        Plain::West(6),
        Plain::Both(10),
    ),
    (
        "hcp(north)+losers(north)>=32",
        b"",
        Plain::West(21),
        Plain::Both(21),
    ),
];

/// What excludes hands of West and South, as a person counts it.
#[derive(Clone, Copy)]
enum Plain {
    /// Nothing.
    Never,
    /// This many points or more of West.
    West(u8),
    /// This many points or more of the two.
    Both(u8),
    /// Fewer points than these of the two.
    NotBoth(u8),
    /// This many spades or more of West.
    Spades(u8),
    /// This many spades or more of the two.
    BothSpades(u8),
}

impl Plain {
    fn excludes(self, west: &Hand, south: &Hand) -> bool {
        let points = west.points() + south.points();
        let spades = west.length(Suit::Spades) + south.length(Suit::Spades);
        match self {
            Plain::Never => false,
            Plain::West(least) => west.points() >= least,
            Plain::Both(least) => points >= least,
            Plain::NotBoth(enough) => points < enough,
            Plain::Spades(least) => west.length(Suit::Spades) >= least,
            Plain::BothSpades(least) => spades >= least,
        }
    }
}

#[test]
fn what_is_excluded(rt: HostRuntime) -> Result<(), Fail> {
    for (text, hands, by_west, by_both) in CONDITIONS.iter() {
        let condition = parse(rt.alloc(), text.as_bytes())?;
        let fixed = Fixed::new(fixed_in(hands)).ok_or("too many")?;
        let screen = Screen::new(&condition, &fixed).ok_or("no memory")?;
        let mut candidates = Candidates::around(1, 0, 1, &fixed);
        for _ in 0..TRIED {
            let deal = candidates.next();
            let west = deal.hand(Seat::West);
            let south = deal.hand(Seat::South);
            let one = screen.excludes_west(&west);
            let two = screen.excludes_west_and_south(&west, &south);
            assert_eq!(rt; one, by_west.excludes(&west, &south), "{text}");
            assert_eq!(rt; two, by_both.excludes(&west, &south), "{text}");
            assert!(rt; !two || !condition.holds(&deal), "{text}");
        }
    }
    Ok(())
}

/// Conditions, and whether a screen of them can exclude anything.
const USES: [(&str, bool); 11] = [
    ("hcp(north)>=29", true),
    ("hcp(north)>=29 and balanced(north)", true),
    ("hcp(north)>=29 or balanced(north)", false),
    ("not (hcp(north)>=29 and balanced(north))", false),
    ("not (hcp(north)<29 or balanced(north))", true),
    ("balanced(north)", false),
    ("losers(north)<=3", false),
    ("hcp(north)!=3", false),
    ("0==0", false),
    ("1==0", true),
    ("hcp(north)+hcp(north)+hcp(north)+hcp(north)>=80", false),
];

#[test]
fn what_can_exclude(rt: HostRuntime) -> Result<(), Fail> {
    for (text, can_exclude) in USES.iter() {
        let condition = parse(rt.alloc(), text.as_bytes())?;
        let screen = Screen::new(&condition, &Fixed::none()).ok_or("no memory")?;
        assert_eq!(rt; screen.can_exclude_west(), *can_exclude, "{text}");
        assert_eq!(rt; screen.can_exclude_west_and_south(), *can_exclude, "{text}");
    }
    Ok(())
}
