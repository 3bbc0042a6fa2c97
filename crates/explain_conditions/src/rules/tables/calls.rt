//! What is in the brackets after a word: seat, suit, ranks.

pub(crate) const RULES: &str = "
    Can:Open Cannot:Not NEIGHBOURS ^ Seat => write \"%b1(%n0)\"
    Can:Open Cannot:Not NEIGHBOURS ^ => say whose, as in %b1(north)
    Can:Open Cannot:Not ^ Seat => write \"%b1(%n0%e1\"
    Can:Open Cannot:Not ^ => say whose, as in %b1(%u0%e1

    Can:Seat ^ Suit , Seat => the seat comes first: \"%w0(%n2,%n0)\"
    Can:Seat InCount ^ Suit => the seat comes first, as in %w0(north,%n0)
    Can:Seat ^ Word => the seats are north, east, south and west
    Can:Seat ^ => say whose, as in %w0(north%e0

    Can:Ranks ^ 10 => for the ten write \"t\"
    Can:Ranks ^ => the ranks are a, k, q, j and t, as in cards(north,akq)
    Can:Suit NotIn:len ^ Seat => \
        for both together write \"%w0(%b2)+%w0(%n0)\", for each a test of its own
    Can:Suit NotIn:len Seat , ^ Amount => after the bracket write: %w0(%b2)%a0
    Can:Suit ^ => the suits are spades, hearts, diamonds and clubs

    Can:Comma Cannot:Close Suit ^ ) => \
        name ranks too, as in cards(%u0,%b1,akq); for a length write len(%u0,%b1)
    Can:Comma Cannot:Close In:len|stops ^ ) => name a suit too, as in %w0(%b1%e0
    Can:Comma Cannot:Close In:cards ^ ) => name ranks too, as in cards(%b1%e0
    Can:Comma Cannot:Close ^ ) => name four lengths too, as in %w0(%b1%e0
    Can:Close Cannot:And InCount Seat ^ + Seat => write \"%w0(%b1)+%w0(%n1)\"
    Can:Close Cannot:And In:balanced Seat ^ + Seat => write \"balanced(%b1) and balanced(%n1)\"
    InCount Seat , Suit ^ Relation Number ) => \
        with the bracket before the comparison write: %w0(%b3,%b1)%n0%n1
    InCount ( Seat ^ Relation Number ) => \
        with the bracket before the comparison write: %w0(%b1)%n0%n1
    Can:Close Cannot:And In:cards Seat , Ranks ^ , Suit ) => \
        the suit comes before the ranks, as in cards(%b3,%n1,%b1)
    Can:Close Cannot:And In:cards Ranks ^ +|and|-|, Ranks => \
        write all ranks as one word, as in %b1%n1
    Can:Close Cannot:And ^ ==|!=|<|<=|>|>=|in|+|and|or => a \")\" is missing before this
    Can:Close Cannot:And In:cards Ranks ^ 10 => for the ten write \"t\"
    Can:Close Cannot:And In:cards Ranks ^ Number => \
        a, k, q, j and t alone are counted: leave \"%n0\" out
    Can:Close Cannot:And In:cards ^ => write all ranks as one word, as in akq
    Can:Close Cannot:And Seat ^ , => name the seat alone, as in %w0(%b1)
";
