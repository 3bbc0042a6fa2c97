//! Shapes that a person compares or names by their numbers, and two lengths for both majors or
//! minors.

pub(crate) const RULES: &str = "
    shape|pattern ( Seat ) ^ EQUAL Number - Number - Number - Number => \
        in any order of the suits write: pattern(%b2,%n1-%n3-%n5-%n7)
    shape|pattern ( Seat ^ ) EQUAL Number - Number - Number - Number => \
        in any order of the suits write: pattern(%b1,%n2-%n4-%n6-%n8)
    shape|pattern ( Seat ) ^ EQUAL Digits:4 => in any order of the suits write: pattern(%b2,%g1)
    shape|pattern ( Seat ^ ) EQUAL Digits:4 => in any order of the suits write: pattern(%b1,%g2)
    Digits:4 ^ ( Seat ) => in any order of the suits write: pattern(%n1,%d1)
    Number ^ - Number - Number - Number ( Seat ) => \
        in any order of the suits write: pattern(%n7,%b1-%n1-%n3-%n5)
    STARTS Number ^ - Number ( Seat ) => for these lengths write: pattern(%n3,%b1-%n1-x-x)
    shape ( Seat , Length - Length - Length - Length ) or Number ^ - Number - Number - Number => \
        with the seat in brackets write: shape(%u0,%b1-%n1-%n3-%n5)
    STARTS Number ^ - Number - Number - Number ENDS => \
        for a shape in any order write pattern, as in pattern(north,%b1-%n1-%n3-%n5)
    In:len Seat , ^ majors|major ) EQUAL 5|6|7 - 3|4 => \
        for both ways round write: shape(%b2,%n3-%n5-x-x) or shape(%b2,%n5-%n3-x-x)
    In:len Seat , ^ majors ) EQUAL Number - Number => \
        for both ways round write: shape(%b2,%n3-%n5-x-x) or shape(%b2,%n5-%n3-x-x)
    In:len Seat , ^ minors|minor ) EQUAL 5|6|7 - 3|4 => \
        for both ways round write: shape(%b2,x-x-%n3-%n5) or shape(%b2,x-x-%n5-%n3)
    In:len Seat , ^ minors ) EQUAL Number - Number => \
        for both ways round write: shape(%b2,x-x-%n3-%n5) or shape(%b2,x-x-%n5-%n3)
    NotInCall Call ^ by Count => deals count --of takes one, and --by the other
    Can:End NotInCall Call ^ , Count => ask one thing here, and the other by --by
    Nothing ^ Named:average|avg|mean Count => \
        leave \"%n0\" out: deals count --of has the mean below its table
";
