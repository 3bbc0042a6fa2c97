//! What goes through suits, and the classes that it goes through.

pub(crate) const RULES: &str = "
    Can:SuitClass any|every ^ other => \
        other comes in the brackets of another, as in any suit (len(north,suit)>=5 and any other \
        (len(north,other)>=5))
    any|every ^ suits|s|color|colour|farbe => \
        write \"%b1 suit\", as in %b1 suit (len(north,suit)>=5)
    any|every ^ majors => write \"%b1 major\", as in %b1 major (len(north,major)>=5)
    any|every ^ minors => write \"%b1 minor\", as in %b1 minor (len(north,minor)>=5)
    any|every ^ seats|player|hand|spieler => write \"%b1 seat\", as in %b1 seat (hcp(seat)>=12)
    any 2 ^ suits => \
        for two suits write: any suit (len(north,suit)>=5 and any other (len(north,other)>=5))
    any ^ two suits => \
        for two suits write: any suit (len(north,suit)>=5 and any other (len(north,other)>=5))
    any ^ black => name the suits, as in len(north,spades)>=5 or len(north,clubs)>=5
    any ^ red => name the suits, as in len(north,hearts)>=5 or len(north,diamonds)>=5
    every ^ black => name the suits, as in len(north,spades)>=4 and len(north,clubs)>=4
    every ^ red => name the suits, as in len(north,hearts)>=4 and len(north,diamonds)>=4
    any|every ^ Named:opponent|opponents|opp|opps => \
        for east and west write \"%b1 ew\", as in %b1 ew (hcp(ew)>=12)
    any|every ^ Seat => a seat alone is named in a test, as in hcp(%n0)>=12
    any|every ^ SEAT_CLASSES => \
        %n0 stands for a seat here already: begin this test after the bracket
    any|every ^ Suit => a suit alone is named in a test, as in len(north,%n0)>=5
    any|every ^ SUIT_CLASSES => \
        %n0 stands for a suit here already: begin this test after the bracket
    Can:SuitClass any|every ^ Except:suits|majors|minors|seats => \
        say of what, as in %b1 suit (len(north,suit)>=5)
    Can:Open Cannot:Not any|every other ^ suit|suits|major|minor => \
        leave \"%n0\" out, and write other for it in the brackets
    Can:Open Cannot:Not any|every CLASSES ^ => with the test in brackets write: %b2 %b1 (%o0)
    Can:Open Cannot:Not any|every SUIT_CLASSES ^ => \
        say what in brackets, as in %b2 %b1 (len(north,%b1)>=5)
    Can:Open Cannot:Not any|every SEAT_CLASSES ^ => \
        say what in brackets, as in %b2 %b1 (hcp(%b1)>=12)
    ORDERS ^ suit ( Seat ) => write \"%b1(%n2)\"
    any|every suit|major|minor ( ^ Seat ) => for its length write: %b3 %b2 (len(%n0,%b2)%a2)
    NotInCall ^ suit|major|minor ( Seat ) <|<= => for each %n0 write: every %n0 (len(%n2,%n0)%a4)
    NotInCall ^ suit|major|minor ( Seat ) => for some %n0 write: any %n0 (len(%n2,%n0)%a4)
    NotInCall ^ suit ( Seat , Suit ) => for a suit's length write \"len(%n2,%n4)\"
    any|every CLASSES ^ : => with the test in brackets write: %b2 %b1 (%o1)
    any|every SUIT_CLASSES ^ : => say what in brackets, as in %b2 %b1 (len(north,%b1)>=5)
    NotInCall ^ some|either suit|major|minor => \
        for some %n1 write \"any %n1\", as in any %n1 (len(north,%n1)>=5)
    NotInCall ^ all|each|both suit|major|minor => \
        for each %n1 write \"every %n1\", as in every %n1 (stops(north,%n1))
    NotInCall ^ no suit|major|minor => write \"not any %n1\"
    NotInCall ^ both majors ( Seat ) => \
        for each major write every major, as in every major (len(%n3,major)>=4)
    NotInCall ^ all|each|both majors => \
        for each major write \"every major\", as in every major (stops(north,major))
    NotInCall ^ all|each|both minors => \
        for each minor write \"every minor\", as in every minor (stops(north,minor))
    NotInCall ^ some|anysuit|anymajor|anyminor => \
        for some suit write \"any suit\", as in any suit (len(north,suit)>=5)
    NotInCall ^ all|each|everysuit suit|suits|major|majors|minor|minors => \
        for each suit write \"every suit\", as in every suit (stops(north,suit))
    ^ seat|seats|ns|ew => \
        a class goes in the brackets of any or every, as in any seat (hcp(seat)>=20)
    ^ suit|suits|major|majors|minor|minors|other|others|it => \
        a class goes in the brackets of any or every, as in any suit (len(north,suit)>=5)
";
