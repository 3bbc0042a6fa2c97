//! What there is in place of words that aren't in the language.

pub(crate) const RULES: &str = "
    Seat ^ unbalanced => in the language's own words write: not balanced(%b1)
    ^ unbalanced => in the language's own words write: not balanced(%u2)
    ^ weak two|twos|2 in|of Suit => \
        say what the hand has, as in hcp(north) in 6-10 and len(north,%n3)==6
    ^ weak two|twos|2 Suit => say what the hand has, as in hcp(north) in 6-10 and len(north,%n2)==6
    ^ weak two|twos|2 => \
        say what the hand has, as in hcp(north) in 6-10 and any suit (len(north,suit)==6)
    ^ preempt|preempts|preemptive => \
        say what the hand has, as in hcp(north) in 6-10 and any suit (len(north,suit)>=7)
    ^ pass|passes|passed => there is no bidding: say what the hand has, as in hcp(%u2)<=11
    ^ opens|open|opening|opener|bids|bid => \
        there is no bidding: say what the hand has, as in hcp(%u2) in 15-17 and balanced(%u2)
    Nothing Number ^ Named:c|d|h|s|n|nt|sa => \
        there is no bidding: say what the hand has, as in hcp(%u2) in 15-17 and balanced(%u2)
    Seat Number ^ Named:c|d|h|s|n|nt|sa => \
        there is no bidding: say what the hand has, as in hcp(%u2) in 15-17 and balanced(%u2)
    Nothing 1|2|3|4|5|6|7 ^ Begins:SUIT_SIGNS => \
        there is no bidding: say what the hand has, as in hcp(%u2) in 15-17 and balanced(%u2)
    Seat 1|2|3|4|5|6|7 ^ Begins:SUIT_SIGNS => \
        there is no bidding: say what the hand has, as in hcp(%u2) in 15-17 and balanced(%u2)
    STARTS Number ^ Named:nt|notrump|sa => \
        there is no bidding: say what the hand has, as in hcp(%u2) in 15-17 and balanced(%u2)
    STARTS Number ^ Named:no trump => \
        there is no bidding: say what the hand has, as in hcp(%u2) in 15-17 and balanced(%u2)
    NotInCall ^ Named:nt |)|and|or|hand|opening|opener|range => \
        for a notrump hand write: hcp(%u2) in 15-17 and balanced(%u2)
    NotInCall ^ Named:nt ( Seat ) => \
        for a notrump hand write: hcp(%n2) in 15-17 and balanced(%n2)
    NotInCall ^ Named:notrump|notrumps => \
        for a notrump hand write: hcp(%u2) in 15-17 and balanced(%u2)
    NotInCall ^ Named:no trump|trumps|Trump|Trumps|TRUMP|TRUMPS => \
        for a notrump hand write: hcp(%u3) in 15-17 and balanced(%u3)
    NotInCall ^ Named:no - trump|trumps|Trump|Trumps|TRUMP|TRUMPS => \
        for a notrump hand write: hcp(%u4) in 15-17 and balanced(%u4)
    ^ quality => for a suit's quality count its honours, as in cards(north,spades,akq)
    ^ stopper|stop|stopped|guard ( Seat , Suit ) => \
        in the language's own words write: stops(%n2,%n4)
    ^ stopper|stop|stopped|guard in|of Suit => for a stopper write \"stops\", as in stops(north,%n2)
    ^ stopper|stoppers|stop|stopped|guard|guards => \
        for a stopper write \"stops\", as in stops(north,spades)
    ^ Named:zar|zars|zarpoints => \
        for Zar points write: \
        hcp(%u2)+controls(%u2)+2*longest(%u2)+second(%u2)>=26+shortest(%u2)
    ^ Named:dp|dpts|tp|totalpoints ( => \
        points for length aren't counted: add lengths up, as in \
        hcp(%u2)+longest(%u2)+second(%u2)>=20
    ^ Named:lott|ltt => \
        for a law of total tricks ask for fits, as in any suit (len(north,suit)+len(south,suit)>=9)
    ^ Named:cccc|knr|kr|kaplan => \
        this count isn't there: weigh honours, as in 3*cards(%u2,a)+2*cards(%u2,k)+cards(%u2,q)>=9
    ^ quicktricks|quicktrick|quick => \
        quick tricks aren't counted: for an ace 2 and a king 1 write controls, as in \
        controls(north)>=3
    ^ tricks ( => \
        tricks are counted of whole boards: deals make .. | deals-tricks --makes 4S-NS
    ^ tricks => for eight tricks ask for few losers, as in losers(north)<=5
    ^ fit => for a fit add lengths up, as in len(north,spades)+len(south,spades)
    ^ Named:PEOPLE => name the seat: north, east, south or west
    ^ has|hascard|hascards|holds ( Seat , Card ) => for a single card write: cards(%n2,%p4)==1
    ^ has|hascard|hascards|holds ( => \
        for single cards write cards with a suit and ranks, as in cards(north,spades,a)
";
