//! Numbers with `or more` or `or less`.

pub(crate) const RULES: &str = "
    Value Number or ^ MORE => for %b2 or more write: %v3>=%b2
    Value Number or ^ FEWER => for %b2 or less write: %v3<=%b2
    Relation Number or ^ MORE => for %b2 or more write: %v4>=%b2
    Relation Number or ^ FEWER => for %b2 or less write: %v4<=%b2
    Number or ^ MORE Suit => for this length write len, as in len(north,%n1)>=%b2
    Number or ^ FEWER Suit => for this length write len, as in len(north,%n1)<=%b2
    Number or ^ MORE => for \"or more\" write \">=\", as in hcp(north)>=%b2
    Number or ^ FEWER => for \"or %n0\" write \"<=\", as in hcp(north)<=%b2
    Seat ^ HOLDS Number or MORE POINTS => with the seat in brackets write: hcp(%b1)>=%n1
    Seat ^ HOLDS Number or MORE Suit => with the seat in brackets write: len(%b1,%n4)>=%n1
";
