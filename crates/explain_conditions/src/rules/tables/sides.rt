//! Sides and players in the place of a seat, and two seats in the place of one.

pub(crate) const RULES: &str = "
    In:MEASURES ( ^ Named:ns|northsouth ) => \
        for both together write \"%w0(north)+%w0(south)\", for either put your test in any ns (..)
    In:MEASURES ( ^ Named:ew|eastwest ) => \
        for both together write \"%w0(east)+%w0(west)\", for either put your test in any ew (..)
    In:MEASURES ( ^ Named:n -|/|+|& s|S ) => \
        for both together write \"%w0(north)+%w0(south)\", for each a test of its own
    In:MEASURES ( ^ Named:e -|/|+|& w|W ) => \
        for both together write \"%w0(east)+%w0(west)\", for each a test of its own
    In:MEASURES ( ^ Named:n , s|S ) => \
        for both together write \"%w0(north)+%w0(south)\", for one suit \"%w0(north,spades)\"
    In:MEASURES ( ^ Named:s , n|N ) => \
        for both together write \"%w0(south)+%w0(north)\", for each a test of its own
    In:MEASURES ( ^ Named:e , w|W ) => \
        for both together write \"%w0(east)+%w0(west)\", for each a test of its own
    In:MEASURES ( ^ Named:w , e|E ) => \
        for both together write \"%w0(west)+%w0(east)\", for each a test of its own
    In:MEASURES ( east|south|west , ^ Named:n ) => \
        for both together write \"%w0(%b2)+%w0(north)\", for each a test of its own
    In:MEASURES ( north|south|west , ^ Named:e ) => \
        for both together write \"%w0(%b2)+%w0(east)\", for each a test of its own
    In:MEASURES ( north|east|south , ^ Named:w ) => \
        for both together write \"%w0(%b2)+%w0(west)\", for each a test of its own
    In:MEASURES ( ^ Named:both ) => \
        for both together write \"%w0(north)+%w0(south)\", for each a test of its own
    In:MEASURES|len ( ^ Named:both , SUITS ) => \
        for both together write \"%w0(north,%n2)+%w0(south,%n2)\", for each a test of its own
    In:MEASURES ( Seat ^ -|/|&|and Seat ) => \
        for both together write \"%w0(%b1)+%w0(%n1)\", for each a test of its own
    In:MEASURES ( Seat ^ Seat ) => \
        for both together write \"%w0(%b1)+%w0(%n0)\", for each a test of its own
    In:MEASURES|len ( ^ Named:ns|northsouth , SUITS ) => \
        for both together write \"%w0(north,%n2)+%w0(south,%n2)\", for either put \
        your test in any ns (..)
    In:MEASURES|len ( ^ Named:ew|eastwest , SUITS ) => \
        for both together write \"%w0(east,%n2)+%w0(west,%n2)\", for either put \
        your test in any ew (..)
    In:MEASURES|len ( Seat ^ -|/|&|and|+ Seat , SUITS ) => \
        for both together write \"%w0(%b1,%n3)+%w0(%n1,%n3)\", for each a test of its own
    In:cards ( ^ Named:ns|northsouth , Ranks ) => \
        for both together write \"cards(north,%n2)+cards(south,%n2)\", for either put \
        your test in any ns (..)
    In:cards ( ^ Named:ew|eastwest , Ranks ) => \
        for both together write \"cards(east,%n2)+cards(west,%n2)\", for either put \
        your test in any ew (..)
    In:cards ( ^ Named:ns|northsouth , SUITS , Ranks ) => \
        for both together write \"cards(north,%n2,%n4)+cards(south,%n2,%n4)\", for either put \
        your test in any ns (..)
    In:cards ( ^ Named:ew|eastwest , SUITS , Ranks ) => \
        for both together write \"cards(east,%n2,%n4)+cards(west,%n2,%n4)\", for either put \
        your test in any ew (..)

    In:balanced ( ^ Named:ns|northsouth|both ) => \
        for both hands write: balanced(north) and balanced(south)
    In:balanced ( ^ Named:ew|eastwest ) => for both hands write: balanced(east) and balanced(west)
    In:balanced ( Seat ^ -|/|&|and Seat ) => for both hands write: balanced(%b1) and balanced(%n1)
    In:balanced ( Seat ^ or Seat ) => \
        with one seat in each test write: balanced(%b1) or balanced(%n1)
    InCount ( Seat ^ or Seat ) Amount => \
        with one seat in each test write: %w0(%b1)%a3 or %w0(%n1)%a3

    InCall ( ^ Named:ns|ew|northsouth|eastwest => \
        name one seat, north, east, south or west, and join two tests with \"and\" or \"or\"
    InCall ( Seat ^ -|/|&|and|or Seat => name one seat, and join two tests with \"and\" or \"or\"
    InCall ( ^ Named:dealer => \
        name the seat: north, east, south or west; with --rotate the dealer has north's hand
    InCall ( ^ Named:left|lho|next => \
        for the seat after north write left(north), as in %w0(left(north)%e0
    InCall ( ^ Named:right|rho => \
        for the seat before north write right(north), as in %w0(right(north)%e0
    InCall ( ^ Named:partner|partners|pard => \
        for the seat across from north write partner(north), as in %w0(partner(north)%e0
    Can:Not NotInCall ^ NEIGHBOURS => \
        begin with what you ask of the seat, as in hcp(%n0(north))>=15
    NotInCall ^ NEIGHBOURS => begin with what you ask of the seat, as in hcp(%n0(north))
    Can:NorthSouthClass InCall ( ^ seat => in these brackets write \"ns\"
    Can:EastWestClass InCall ( ^ seat => in these brackets write \"ew\"
    InCall ( ^ seat => \
        seat goes in the brackets of any or every, as in any seat (hcp(seat)>=20)
    InCall ( ^ Named:PLAYERS => name the seat: north, east, south or west
";
