//! Ranges in ways that aren't in the language.

pub(crate) const RULES: &str = "
    Relation Number ^ - Number => for a range write: %t2%v3 in %f1
    EQUAL Number ^ / Number Except:( => for a range write: %v3 in %f1
    in Number - Number ^ , Number - Number => \
        for two ranges write: %v5 in %b3-%b1 or %v5 in %n1-%n3
    ^ = Number - Number => for a range write: %v1%a0
    ^ = Number . . Number => for a range write: %v1 in %r4
    ^ = Number to|bis Number => for a range write: %v1 in %r3
    in Number - Above ^ - => a range has two ends, as in %v5 in %b3-%b1
    in Number - Number ^ - => a range has two ends, as in hcp(north) in 15-17
    Relation Number ^ Number - => join the tests with \"and\" or \"or\"
    Value ^ Number - Number => for a range write: %v1%a0
    Value ^ : Amount => without \":\" write: %v1%a1
    IN Number ^ Number Except:COUNTED => for a range write: %t2%v3 in %f0
    IN Number ^ . . Number => for a range write: %t2%v3 in %f2
    ^ between Number Any Number => for a range write: %v1 in %r3
    IN Number ^ to|bis Number => for a range write: %t2%v3 in %f1
    Number ^ to|bis Number => for a range write: %v2 in %f1
    STARTS Number ^ - Number MEASURES|ORDERS Seat => for a range write: %n2(%n3) in %f1
    STARTS Number ^ - Number balanced => \
        say what is from %b1 to %n1, as in hcp(north) in %f1 and balanced(north)
    STARTS Number ^ - Number Count ( Any ) => for a range write: %n2(%n4) in %f1
    STARTS Number ^ - Number Count ( Any , Any ) => for a range write: %n2(%n4,%n6) in %f1
    Count ^ Number - Number => with a seat in brackets write: %b1(%u0%e1%a0
    Count ^ = Number - Number => with a seat in brackets write: %b1(%u0%e1%a0
    Count ^ Number +|- NoValue => with a seat in brackets write: %b1(%u0%e1%a0
    Count ^ = Number +|- NoValue => with a seat in brackets write: %b1(%u0%e1%a0
";
