//! Single cards, and cards of a rank by its name.

pub(crate) const RULES: &str = "
    ^ Card in|with SEATS|NEIGHBOURS => for a single card write: cards(%u2,%p0)==1
    ^ Rank of Suit in|with SEATS|NEIGHBOURS => for a single card write: cards(%u4,%n2,%q0)==1
    STARTS ^ Card ( SEATS ) ENDS => for a single card write: cards(%u2,%p0)==1
    STARTS ^ Card ENDS => for a single card write cards, as in cards(north,%p0)==1
    not ^ Rank => \
        for none leave \"not\" out, and write cards with ranks and ==0, as in cards(%u2,%q0)==0
    ^ Rank of Suit => \
        for single cards write cards with a suit and ranks, as in cards(north,%n2,%q0)==1
    NotInCall k ^ Begins:\u{F6} nig|nige ( Seat , SUITS => write \"cards(%n3,%n5,k)\"
    NotInCall k ^ Begins:\u{F6} nigin|niginnen => write \"cards(%u3,q)\"
    NotInCall ^ K Begins:\u{F6} nigin|niginnen => write \"cards(%u4,q)\"
    NotInCall k ^ Begins:\u{F6} nig|nige => write \"cards(%u3,k)\"
    NotInCall ^ K Begins:\u{F6} nig|nige ( Seat , SUITS => write \"cards(%n4,%n6,k)\"
    NotInCall ^ K Begins:\u{F6} nig|nige => write \"cards(%u4,k)\"
    NotInCall ^ Rank ( Seat , SUITS => write \"cards(%n2,%n4,%q0)\"
    NotInCall ^ Rank => write \"cards(%u2,%q0)\"
";
