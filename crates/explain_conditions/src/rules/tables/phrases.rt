//! Lengths and points in phrases, as `7 card suit`, `5-4 in the majors` and `10 points or more`.

pub(crate) const RULES: &str = "
    Number ^ card|cards suit|major|minor => \
        for exactly %b1 with \"==\", for %b1 or more write: any %n1 (len(%u3,%n1)>=%b1)
    Number -|+ ^ card|cards suit|major|minor => \
        for exactly %b2 with \"==\", for %b2 or more write: any %n1 (len(%u3,%n1)>=%b2)
    Number ^ card|cards in|of a suit|major|minor => \
        for exactly %b1 with \"==\", for %b1 or more write: any %n3 (len(%u5,%n3)>=%b1)
    STARTS ^ one|a|an|some Number card|cards suit|major|minor => \
        for exactly %n1 with \"==\", for %n1 or more write: any %n3 (len(%u5,%n3)>=%n1)
    Seat ^ HOLDS one|a|an|some Number card|cards suit|major|minor => \
        for exactly %n2 with \"==\", for %n2 or more write: any %n4 (len(%b1,%n4)>=%n2)
    Number ^ card|cards Suit => for a suit's length write len, as in len(north,%n1)>=%b1
    Number - ^ card|cards Suit => for a suit's length write len, as in len(north,%n1)>=%b2
    Number ^ card|cards in|of Suit => for a suit's length write len, as in len(north,%n2)>=%b1
    Number ^ card|cards fit => \
        for a fit add lengths up, as in any suit (len(north,suit)+len(south,suit)>=%b1)
    Number - ^ card|cards fit => \
        for a fit add lengths up, as in any suit (len(north,suit)+len(south,suit)>=%b2)
    STARTS Number + ^ Suit => for a suit's length write len, as in len(north,%n0)>=%b2

    Number - Number ^ majors|major => \
        for both ways round write: shape(%u2,%b3-%b1-x-x) or shape(%u2,%b1-%b3-x-x)
    Number - Number in ^ majors|major => \
        for both ways round write: shape(%u2,%b4-%b2-x-x) or shape(%u2,%b2-%b4-x-x)
    Number - Number in ^ the majors|major => \
        for both ways round write: shape(%u3,%b4-%b2-x-x) or shape(%u3,%b2-%b4-x-x)
    Number - Number ^ minors|minor => \
        for both ways round write: shape(%u2,x-x-%b3-%b1) or shape(%u2,x-x-%b1-%b3)
    Number - Number in ^ minors|minor => \
        for both ways round write: shape(%u2,x-x-%b4-%b2) or shape(%u2,x-x-%b2-%b4)
    Number - Number in ^ the minors|minor => \
        for both ways round write: shape(%u3,x-x-%b4-%b2) or shape(%u3,x-x-%b2-%b4)

    in Number - Number ^ POINTS Except:( => leave \"%n0\" out
    STARTS Number - Number ^ POINTS ENDS => for points write hcp, as in hcp(north) in %b3-%b1
    STARTS Number ^ - Number POINTS ENDS => for points write hcp, as in hcp(north) in %b1-%n1
    STARTS Number + ^ POINTS ENDS => for points write hcp, as in hcp(north)>=%b2
    STARTS Number ^ POINTS or MORE => for points write hcp, as in hcp(north)>=%b1
    STARTS Number ^ POINTS or FEWER => for points write hcp, as in hcp(north)<=%b1
    STARTS Number ^ POINTS each => \
        with a test for each seat write: hcp(north)>=%b1 and hcp(south)>=%b1
    STARTS Number ^ POINTS ENDS => for points write hcp, as in hcp(north)>=%b1
";
