//! Comparisons in words, as `more than`, and what a seat has.

pub(crate) const RULES: &str = "
    ^ more|greater|higher|larger than => for \"%n0 than\" write \">\"
    ^ less|fewer|lower|smaller than => for \"%n0 than\" write \"<\"
    ^ more|fewer|less Word than => compare two values, as in hcp(north)>hcp(south)
    at ^ least Number Suit => for this length write len, as in len(north,%n2)>=%n1
    at ^ most Number Suit => for this length write len, as in len(north,%n2)<=%n1
    at ^ least => for \"at least\" write \">=\"
    at ^ most => for \"at most\" write \"<=\"
    STARTS ^ exactly Number SUITS in|with|for Seat => for this length write: len(%n4,%n2)==%n1
    STARTS ^ exactly Number SUITS ( Seat ) => for this length write: len(%n4,%n2)==%n1
    ^ Named:exactly Word => leave \"exactly\" out
    ^ Named:exactly => for an exact number write \"==\", as in len(north,spades)==5
    Seat ^ HOLDS more|fewer|less Word than Seat => compare two values, as in hcp(%b1)>hcp(%n4)
    Seat ^ HOLDS at least Number Suit => with the seat in brackets write: len(%b1,%n4)>=%n3
    Seat ^ HOLDS at least Number POINTS => with the seat in brackets write: hcp(%b1)>=%n3
    Seat ^ HOLDS no void => with the seat in brackets write: shortest(%b1)>=1
    Seat ^ HOLDS Number card|cards in Suit => with the seat in brackets write: len(%b1,%n4)==%n1
    Seat ^ HOLDS Card => with the seat in brackets write: cards(%b1,%p1)==1
    Seat ^ HOLDS Rank of Suit => with the seat in brackets write: cards(%b1,%n3,%q1)==1
    Seat ^ HOLDS the Rank of Suit => with the seat in brackets write: cards(%b1,%n4,%q2)==1
    Seat ^ HOLDS => begin with what you ask of the seat, as in hcp(%b1)>=15
    NEIGHBOURS ^ HOLDS => \
        begin with what you ask of the seat, as in hcp(%b1(north))>=15
";
