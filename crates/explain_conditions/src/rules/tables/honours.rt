//! Honours, top honours, and key cards.

pub(crate) const RULES: &str = "
    NotInCall ^ Named:honours|honors|honour|honor ( Seat , SUITS ) => \
        for ace to ten write \"cards(%n2,%n4,akqjt)\", for ace to queen \"cards(%n2,%n4,akq)\"
    NotInCall ^ Named:honours|honors|honour|honor ( Seat ) => \
        for ace to ten write \"cards(%n2,akqjt)\", for ace to queen \"cards(%n2,akq)\"
    NotInCall ^ Named:honours|honors|honour|honor => \
        for honours write cards with ranks, as in cards(north,spades,akqjt)
    In:cards Except:( ^ Named:honours|honors|honour|honor => \
        name the ranks: akqjt for ace to ten, akq for ace to queen

    NotInCall ^ Named:top|tops 2 ( Seat , SUITS ) => write \"cards(%n3,%n5,ak)\"
    NotInCall ^ Named:top|tops 3 ( Seat , SUITS ) => write \"cards(%n3,%n5,akq)\"
    NotInCall ^ Named:top|tops 4 ( Seat , SUITS ) => write \"cards(%n3,%n5,akqj)\"
    NotInCall ^ Named:top|tops 5 ( Seat , SUITS ) => write \"cards(%n3,%n5,akqjt)\"
    NotInCall ^ Named:top|tops ( Seat , SUITS ) => write \"cards(%n2,%n4,akq)\"
    NotInCall ^ Named:top|tops ( Seat ) => write \"cards(%n2,akq)\"
    NotInCall ^ Named:top|tops => \
        for top honours write cards with ranks, as in cards(north,spades,akq)
    In:cards Except:( ^ Named:top|tops => name the ranks, as in akq

    NotInCall ^ Named:keycards|keycard|rkc|rkcb ( Seat , SUITS ) => \
        for key cards write \"cards(%n2,a)+cards(%n2,%n4,k)\"
    NotInCall ^ Named:keycards|keycard|rkc|rkcb => \
        for key cards add the king of trumps, as in cards(%u2,a)+cards(%u2,spades,k)
";
