//! Voids, singletons and doubletons, of a hand and of a suit.

pub(crate) const RULES: &str = "
    ^ no Rank => for none write cards with ranks and ==0, as in cards(%u3,%q1)==0
    ^ no Suit => for no %n1 write: len(%u1,%n1)==0
    ^ no void|voids|singleton|singletons or|and void|voids|singleton|singletons => \
        for neither write: shortest(%u5)>=2
    ^ no void|voids => for no void write: shortest(%u3)>=1
    ^ no singleton|singletons => for no singleton write: not any suit (len(%u3,suit)==1)
    ^ void|singleton|doubleton|unbalanced ( Any -|/|&|and|or Any ) => \
        name one seat, and join two tests with \"and\" or \"or\"
    not ^ void => in place of \"not void\" write: shortest(%u2)>=1
    ^ void - free => for no void write: shortest(%u4)>=1
    Suit ^ void ( Seat ) => for a void in one suit write \"len(%n2,%b1)==0\"
    Suit ^ singleton ( Seat ) => for a singleton in one suit write \"len(%n2,%b1)==1\"
    Suit ^ doubleton ( Seat ) => for a doubleton in one suit write \"len(%n2,%b1)==2\"
    ^ void ( Any , SUITS ) => for a void in one suit write \"len(%u2,%n4)==0\"
    ^ void in|(|of SUITS => for a void in one suit write len, as in len(north,%n2)==0
    ^ void => in the language's own words write: shortest(%u2)==0
    ^ singleton ( Any , SUITS ) => for a singleton in one suit write \"len(%u2,%n4)==1\"
    ^ singleton in|(|of SUITS => for a singleton in one suit write len, as in len(north,%n2)==1
    ^ singleton => in the language's own words write: any suit (len(%u2,suit)==1)
    ^ doubleton ( Any , SUITS ) => for a doubleton in one suit write \"len(%u2,%n4)==2\"
    ^ doubleton in|(|of SUITS => for a doubleton in one suit write len, as in len(north,%n2)==2
    ^ doubleton => in the language's own words write: any suit (len(%u2,suit)==2)
    ^ short in|(|of Suit => for at most two cards in a suit write len, as in len(%u3,%n2)<=2
";
