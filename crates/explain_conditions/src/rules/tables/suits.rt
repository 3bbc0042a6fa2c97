//! Several suits where one is wanted, and a class of suits outside of any and every.

pub(crate) const RULES: &str = "
    ORDERS ( Seat ) ==|!= ^ Suit => for this write: len(%b3,%n0)%b1%b5(%b3)
    ORDERS ( Seat ) ^ = Suit => for this write: len(%b2,%n1)==%b4(%b2)
    ORDERS ( Seat ) ^ is Suit => for this write: len(%b2,%n1)==%b4(%b2)
    InCount NotIn:cards|ORDERS Seat , Suit ^ , Suit ) => \
        for both together write \"%w0(%b3,%b1)+%w0(%b3,%n1)\", for each a test of its own
    In:stops Seat , Suit ^ , Suit ) => \
        with one suit in each test write: stops(%b3,%b1) and stops(%b3,%n1)
    InCount NotIn:cards|ORDERS Seat , ^ all|each|every other|others => \
        in the brackets of any suit write \"every other (%w0(%b2,other)%x3)\"
    Can:MajorClass Seat , ^ suit|suits => in these brackets write \"major\"
    Can:MinorClass Seat , ^ suit|suits => in these brackets write \"minor\"
    InCount NotIn:cards|ORDERS Seat , ^ Named:oberfarbe|oberfarben|majeure|majeures ) <|<= => \
        for each major write: every major (%w0(%b2,major)%x2)
    In:stops Seat , ^ Named:oberfarbe|oberfarben|majeure|majeures => \
        for some major write: any major (stops(%b2,major))
    InCount NotIn:cards|ORDERS Seat , ^ Named:oberfarbe|oberfarben|majeure|majeures => \
        for some major write: any major (%w0(%b2,major)%x2)
    InCount NotIn:cards|ORDERS Seat , ^ Named:unterfarbe|unterfarben|mineure|mineures ) <|<= => \
        for each minor write: every minor (%w0(%b2,minor)%x2)
    In:stops Seat , ^ Named:unterfarbe|unterfarben|mineure|mineures => \
        for some minor write: any minor (stops(%b2,minor))
    InCount NotIn:cards|ORDERS Seat , ^ Named:unterfarbe|unterfarben|mineure|mineures => \
        for some minor write: any minor (%w0(%b2,minor)%x2)
    InCount NotIn:cards|ORDERS Seat , ^ suit|major|minor ) <|<= => \
        for each %n0 write: every %n0 (%w0(%b2,%n0)%x2)
    In:len Seat , ^ suit ) >= 1|2|3 => for each suit write: every suit (len(%b2,suit)%x2)
    In:len Seat , ^ suit ) > 0|1|2 => for each suit write: every suit (len(%b2,suit)%x2)
    InCount NotIn:cards|ORDERS Seat , ^ suit|major|minor => \
        for some %n0 write: any %n0 (%w0(%b2,%n0)%x2)
    InCount NotIn:cards|ORDERS Seat , ^ majors ) <|<= => \
        for both together write %w0(%b2,spades)+%w0(%b2,hearts), for each of them every major \
        (%w0(%b2,major)%x2)
    InCount NotIn:cards|ORDERS Seat , ^ minors ) <|<= => \
        for both together write %w0(%b2,diamonds)+%w0(%b2,clubs), for each of them every minor \
        (%w0(%b2,minor)%x2)
    InCount NotIn:cards|ORDERS Seat , ^ majors => \
        for both together write %w0(%b2,spades)+%w0(%b2,hearts), for one of them any major \
        (%w0(%b2,major)%x2)
    InCount NotIn:cards|ORDERS Seat , ^ minors => \
        for both together write %w0(%b2,diamonds)+%w0(%b2,clubs), for one of them any minor \
        (%w0(%b2,minor)%x2)
    InCount NotIn:cards|ORDERS Seat , ^ suits => for some suit write: any suit (%w0(%b2,suit)%x2)
    InCount NotIn:cards|ORDERS Seat , ^ any|some suit|major|minor ) <|<= => \
        for each %n1 write: every %n1 (%w0(%b2,%n1)%x3)
    InCount NotIn:cards|ORDERS Seat , ^ any|some suit|major|minor => \
        for some %n1 write: any %n1 (%w0(%b2,%n1)%x3)
    In:cards Seat , ^ suit|major|minor , Ranks ) => \
        for some %n0 write: any %n0 (cards(%b2,%n0,%n2)%x4)
    InCount NotIn:cards|ORDERS Seat , ^ any ) <|<= => \
        for each suit write: every suit (%w0(%b2,suit)%x2)
    InCount NotIn:cards|ORDERS Seat , ^ any ) => for some suit write: any suit (%w0(%b2,suit)%x2)
    In:stops Seat , ^ all|each|every|both ) => for each suit write: every suit (stops(%b2,suit))
    In:stops Seat , Suit ^ OR Suit ) => \
        with one suit in each test write: stops(%b3,%b1) or stops(%b3,%n1)
    In:stops Seat , Suit ^ AND Suit ) => \
        with one suit in each test write: stops(%b3,%b1) and stops(%b3,%n1)
    In:stops Seat , ^ any ) => for some suit write: any suit (stops(%b2,suit))
    In:stops Seat , ^ suit|major|minor => for some %n0 write: any %n0 (stops(%b2,%n0))
    InCount NotIn:cards|ORDERS Seat , Suit ^ OR Suit => \
        with one suit in each test write: %w0(%b3,%b1)%x3 or %w0(%b3,%n1)%x3
    InCount NotIn:cards|ORDERS Seat , Suit ^ AND Suit => \
        with one suit in each test write: %w0(%b3,%b1)%x3 and %w0(%b3,%n1)%x3
    InCount NotIn:cards|ORDERS Seat , Suit ^ + Suit => write \"%w0(%b3,%b1)+%w0(%b3,%n1)\"
    InCount NotIn:ORDERS Seat , Suit ^ JOINED Suit => \
        name one suit, and join two tests with \"or\"
    InCount ( Seat ^ Suit ) => with a comma write \"%w0(%b1,%n0)\"
    Can:Suit InCount Seat , ^ other|others => \
        other comes in the brackets of any other, as in any other (len(%b2,other)>=4)
    InCall ^ suit|suits|major|majors|minor|minors|other|others => \
        a class goes in the brackets of any or every, as in any suit (len(north,suit)>=5)
";
