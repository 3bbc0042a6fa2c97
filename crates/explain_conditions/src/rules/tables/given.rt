//! Names that a text gives, or tries to.

pub(crate) const RULES: &str = "
    let ^ Ranks => \"%n0\" means ranks: choose another name
    let ^ Known => \"%n0\" is a word of the language: choose another name
    Cannot:Let ^ let => names come first, before the condition
    let ^ Capital => a name has small letters alone
    let ^ Name => \"%n0\" is given already: choose another name
    let ^ => after \"let\" comes a name, as in let strong(seat) is (hcp(seat)>=15)
    let Word ^ _|-|. => a name has small letters alone
    let Word ^ Number => a name has small letters alone
    let Word ^ =|==|: ( => for \"%n0\" write \"is\", as in let %b1 is (hcp(north)>=15)
    let Word ^ : = => for \":=\" write \"is\", as in let %b1 is (hcp(north)>=15)
    let Word ( seat|suit ) ^ =|==|: => for \"%n0\" write \"is\"
    let Word ( seat , suit ) ^ =|==|: => for \"%n0\" write \"is\"
    let Word ^ =|==|: => \
        write \"is\", and brackets around the rest, as in let %b1 is (hcp(north)>=15)
    let Word ^ => write \"is\" after the name, as in let %b1 is (hcp(north)>=15)
    let Word ( ^ Known ( => write \"is\" before the brackets, as in let %b2 is (hcp(north)>=15)
    let Word ( ^ => \
        a name's brackets have seat, suit or both, as in let %b2(seat) is (hcp(seat)>=15)
    let Word ( suit ^ , => \
        the seat comes first, as in let %b3(seat,suit) is (len(seat,suit)>=5)
    let Word ( seat ^ suit => write \"seat,suit\"
    let Word ( seat , ^ => \
        after the seat comes \"suit\", as in let %b4(seat,suit) is (len(seat,suit)>=5)
    Can:Is Cannot:Open ^ => write \"is\" before what the name stands for
    Can:Open is ^ => put brackets around what the name stands for, as in is (hcp(north)>=15)
    Can:Let ^ ,|; => leave \"%n0\" out: names follow one another without a sign
    Defined ^ ; => leave \"%n0\" out: names follow one another without a sign
    Can:Let Defined ^ and|or => leave \"%n0\" out: the condition follows the names
    Can:Let ) ^ Nothing => after the names comes the condition that uses them
    ^ Later => \"%n0\" is given only after this: move its \"let\" before it
    let Number ^ Name => a name has small letters alone
    let Word -|_|. ^ Name => a name has small letters alone
    ^ Name ( seat|suit ) is => names begin with let: write \"let\" before \"%n0\"
    ^ Name ( seat , suit ) is => names begin with let: write \"let\" before \"%n0\"
    ^ Name is ( => names begin with let: write \"let\" before \"%n0\"
    InPlainBody ^ seat => \
        for any seat give the name brackets, as in let strong(seat) is (hcp(seat)>=15)
    InPlainBody ^ suit => \
        for any suit give the name brackets, as in let long(suit) is (len(north,suit)>=6)
    ^ Own => \"%n0\" isn't known in its own brackets, only after them

    Call ^ is not Number => for this write: %v1!=%n2
    Call ^ is Number => write \"==\"
    Call is at ^ least Number => for this write: %v3>=%n1
    Call is at ^ most Number => for this write: %v3<=%n1
    ^ Seat is balanced => with the seat in brackets write: balanced(%n0)

    Can:Open Cannot:Not Name ^ => write \"%b1%h1\"
    Cannot:Open Name ^ ( => \"%b1\" has no brackets where it is given: write it alone
    InName Can:Close Cannot:And ^ , => write \"%w0%h0\"
    InName Can:Comma ^ => a seat and a suit are wanted, as in %w0%h0
    InName Can:Seat ^ => a seat is wanted, as in %w0%h0
    InName Can:Suit ^ => a suit is wanted, as in %w0%h0
";
