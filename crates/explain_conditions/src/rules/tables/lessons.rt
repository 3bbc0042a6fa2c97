//! Names of conventions and of lessons, where a lesson has such boards.

pub(crate) const RULES: &str = "
    NotInCall ^ Named:stayman => there is a lesson of that: --lesson stayman
    NotInCall ^ Named:michaels => there is a lesson of that: --lesson michaels
    NotInCall ^ Named:jacoby => there is a lesson of that: --lesson jacoby-2nt
    NotInCall ^ Named:splinter|splinters => there is a lesson of that: --lesson splinter
    NotInCall ^ Named:transfer|transfers => \
        there are lessons of that: --lesson transfer-hearts, or transfer-spades
    NotInCall ^ Named:gambling => there is a lesson of that: --lesson gambling-3nt
    NotInCall ^ Named:inverted => there is a lesson of that: --lesson inverted-minor
    NotInCall ^ reverse flannery => there is a lesson of that: --lesson reverse-flannery
    NotInCall ^ Named:reverse|reverses => there is a lesson of that: --lesson reverse
    NotInCall ^ Named:takeout => there is a lesson of that: --lesson takeout-double
    NotInCall ^ Named:overcall|overcalls => there is a lesson of that: --lesson overcall
    NotInCall ^ negative double|doubles => there is a lesson of that: --lesson negative-double
    NotInCall ^ responsive double|doubles => there is a lesson of that: --lesson responsive-double
    NotInCall ^ unusual => there is a lesson of that: --lesson unusual-notrump
    NotInCall ^ Named:moysian => there is a lesson of that: --lesson moysian
    NotInCall ^ Named:balancing => there is a lesson of that: --lesson balancing
    NotInCall ^ Named:bergen => there is a lesson of that: --lesson bergen-raise
    NotInCall ^ Named:drury => there is a lesson of that: --lesson drury
    NotInCall ^ Named:ogust => there is a lesson of that: --lesson ogust
    NotInCall ^ Named:lebensohl => there is a lesson of that: --lesson lebensohl
    NotInCall ^ Named:checkback|newminor => \
        there is a lesson of that: --lesson two-way-checkback
    NotInCall ^ Named:flannery => there is a lesson of that: --lesson reverse-flannery
    NotInCall ^ support double|doubles => there is a lesson of that: --lesson support-double
    NotInCall ^ Named:blackwood => there is a lesson of that: --lesson keycard
    NotInCall ^ Named:misfit|misfits => there is a lesson of that: --lesson misfit
    NotInCall ^ Named:slam|slams => deals lessons has five of slams, as --lesson suit-slam
";
