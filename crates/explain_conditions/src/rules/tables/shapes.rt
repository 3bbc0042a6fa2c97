//! Lengths of a shape or a pattern.

pub(crate) const RULES: &str = "
    In:shape|pattern Seat , Digits:4 ^ or|+|, Digits:4 ) => \
        with one shape in each test write: %w0(%b3,%d1) or %w0(%b3,%g1)
    In:shape|pattern Seat , Digits:4 ^ or|+|, Digits:4 => \
        name one shape in each test, and join the tests with \"or\"
    In:shape Seat , Digits:4 ^ => \
        in any order of the suits that is pattern(%b3,%d1); in this one write: shape(%b3,%d1)
    In:pattern Seat , Digits:4 ^ => with dashes write: pattern(%b3,%d1)
    In:shape|pattern Seat , Length - Length - Length - Length ^ or|+|, Length - Length - Length - \
        Length ) => \
        with one shape in each test write: %w0(%b9,%b7-%b5-%b3-%b1) or %w0(%b9,%n1-%n3-%n5-%n7)
    In:shape|pattern - Length ^ or|+|, Length - => \
        name one shape in each test, and join the tests with \"or\"
    In:shape Seat , Number ^ + - x - x - x ) => for %b1 or more write: len(%b3,spades)>=%b1
    In:pattern Seat , Number ^ + - x - x - x ) => for %b1 or more write: longest(%b3)>=%b1
    In:shape|pattern Seat , ^ any Digits:4 or|+|, any Digits:4 ) => \
        with one pattern in each test write: pattern(%b2,%g1) or pattern(%b2,%g4)
    In:shape|pattern - ^ Named:any => for any length write \"x\"
    In:shape|pattern Except:( ^ Named:any => \
        for any order write \"pattern\", as in pattern(north,5-3-3-2)
    In:shape Seat , Length - Number ^ + => \
        a length of %b1 or more is asked by itself, as in len(%b5,hearts)>=%b1
    In:shape Seat , Length - Length - Number ^ + => \
        a length of %b1 or more is asked by itself, as in len(%b7,diamonds)>=%b1
    In:shape Seat , Length - Length - Length - Number ^ + => \
        a length of %b1 or more is asked by itself, as in len(%b9,clubs)>=%b1
    In:shape|pattern Number ^ + => \
        a length of %b1 or more is asked by itself, as in len(north,spades)>=%b1
    In:shape|pattern Length ^ |)|- => name four lengths, as in 5-3-3-2
    In:shape|pattern Length ^ => put \"-\" between the lengths, as in 5-3-3-2
";
