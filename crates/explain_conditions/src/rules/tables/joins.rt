//! How tests are joined, brackets, and values where tests are wanted.

pub(crate) const RULES: &str = "
    Can:Number and|or|not ^ Nothing => a test is missing after \"%b1\", such as balanced(north)
    Can:Number and ^ and => write \"and\" once
    Can:Number or ^ or => write \"or\" once
    Can:Number and|or ^ and|or => leave out \"%b1\" or \"%n0\"
    Can:Number Nothing ^ and|or => begin with a test: leave out \"%n0\"
    Can:Number Relation Number or ^ Suit Relation Number => \
        for a suit's length write: %v4%b3%b2 or len(%u0,%n0)%n1%n2
    Can:Number ^ Suit => for a suit's length write \"len(%u2,%n0)\"
    Can:Number Can:Not ^ Seat => begin with what you ask of the seat, as in hcp(%n0)>=15
    Can:Number ^ Seat => begin with what you ask of the seat, as in hcp(%n0)
    Can:Number ^ <> => for \"<>\" write \"!=\"
    Can:Number < ^ > => for \"<>\" write \"!=\"
    Can:Number == ^ ( Number or Number ) => \
        to compare it with each write: %v2==%n1 or %v2==%n3
    Can:Number Relation ^ ( => no brackets come after \"%b1\": leave them out
    Can:Number ^ Relation => a value is missing before this sign, as in hcp(north)>=15
    Can:Number ^ qt ( => \
        quick tricks aren't counted: for an ace 2 and a king 1 write controls, as in \
        controls(north)>=3
    Can:Number ^ Ranks => for cards of a rank write \"cards(north,%n0)\"

    Can:Relation |( Digits:4 ^ |) => for lengths in any order write: pattern(north,%d1)
    Can:Relation Bracketed ^ ) * Number => \
        give each value its number, as in %n2*hcp(north)+%n2*hcp(south)
    Can:Relation Through ^ ) Amount => put the comparison in the brackets, as in (%v1%a1)
    Can:Relation Through ^ ) => compare it in the brackets, as in (%v1%c1)
    InQuestion Can:Relation Bracketed ^ ) => leave out the brackets around the sum
    Can:Relation Bracketed ^ ) Amount => without brackets around the sum write: %v1%a1
    Can:Relation Bracketed ^ ) ENDS => without brackets around the sum write: %v1%c1
    Can:Relation Bracketed ^ ) => leave out the brackets around the sum
    Can:Relation ^ <> => for \"<>\" write \"!=\"
    Can:Relation Number ^ Suit in Seat => with the seat in brackets write: len(%n2,%n0)==%b1
    Can:Relation not Number ^ Suit => for a suit's length write len, as in len(north,%n0)!=%b1
    Can:Relation Number ^ Suit => for a suit's length write len, as in len(north,%n0)>=%b1
    Can:Relation Call ^ and Count ( Seat ) Relation Number => \
        together that is %v1+%n1(%n3)%n5%n6; for each write: %v1%n5%n6 and %n1(%n3)%n5%n6
    Can:Relation Call ^ and Count ( Seat , Suit ) Relation Number => \
        together that is %v1+%n1(%n3,%n5)%n7%n8; for each write: %v1%n7%n8 and %n1(%n3,%n5)%n7%n8
    Can:Relation Call ^ or Count ( Seat ) Relation Number => \
        to compare each write: %v1%n5%n6 or %n1(%n3)%n5%n6
    Can:Relation Number ^ Count ( Seat ) Amount => write \"%b1*%n0(%n2)\"
    Can:Relation Number ^ Count ( Seat ) + => write \"%b1*%n0(%n2)\"
    Can:Relation STARTS Number ^ ( => \
        give each value its number, as in %b1*hcp(north)+%b1*hcp(south)
    Can:Relation STARTS Number ^ => say of what, as in hcp(north)>=%b1
    Can:Relation Value ^ => compare it, as in %v1%c1

    Can:And Can:End ^ ) => this \")\" closes nothing
    Can:And Cannot:End ^ Nothing => a \")\" is missing at the end
    Can:And Cannot:Plus ^ == 0 => write \"not\" before this test, and leave \"%n0%n1\" out
    Can:And Cannot:Plus ^ < 1 => write \"not\" before this test, and leave \"%n0%n1\" out
    Can:And Cannot:Plus balanced ( Seat ) ^ + balanced ( Seat ) ENDS => \
        for both hands write: balanced(%b2) and balanced(%n3)
    Can:And Cannot:Plus ^ + => join the tests with \"and\" or \"or\"
    Can:And Cannot:Plus ^ Relation => this test is whole, and needs no comparison
    Can:And ^ , => for \",\" write \"and\"
    Can:And ^ Word => join the tests with \"and\" or \"or\"
    Can:And ^ ( => join the tests with \"and\" or \"or\"
    Can:And ^ Number => join the tests with \"and\" or \"or\"
    Cannot:Number Cannot:Relation Cannot:End ^ Nothing => a \")\" is missing at the end
";
