//! Signs that aren't in the language.

pub(crate) const RULES: &str = "
    <|>|= ^ = => write \"%b1=\" without a space
    ^ = = => write \"==\" without a space
    ^ = <|> => write \"%n1=\" without a space
    ^ ! = => write \"!=\" without a space

    In:shape|pattern ^ =|.|/|: => put \"-\" between the lengths, as in 5-3-3-2
    In:shape|pattern ^ ?|_ => for any length write \"x\"

    ^ =|=== => for \"%n0\" write \"==\"
    ^ =>|>==|!< => for \"%n0\" write \">=\"
    ^ =<|<==|!> => for \"%n0\" write \"<=\"
    ^ <>|><|=!|!== => for \"%n0\" write \"!=\"
    ^ ;|. Nothing => leave \"%n0\" out
    ^ &&|&|; => for \"%n0\" write \"and\"
    ^ BARS => for \"%n0\" write \"or\"
    ^ !|~ => for \"%n0\" write \"not\"
    ^ [|{ => for \"%n0\" write \"(\"
    ^ ]|} => for \"%n0\" write \")\"

    ^ Begins:\u{2265} => for this sign write \">=\"
    ^ Begins:\u{2264} => for this sign write \"<=\"
    ^ Begins:\u{2260} => for this sign write \"!=\"
    ^ Begins:\u{2660} => for this sign write \"spades\"
    ^ Begins:\u{2665} => for this sign write \"hearts\"
    ^ Begins:\u{2666} => for this sign write \"diamonds\"
    ^ Begins:\u{2663} => for this sign write \"clubs\"
    ^ Begins:\u{2013}|\u{2014}|\u{2212} => for this sign write \"-\"
    ^ Begins:\u{2227} => for this sign write \"and\"
    ^ Begins:\u{2228} => for this sign write \"or\"
    ^ Begins:\u{AC} => for this sign write \"not\"
    ^ Begins:\u{A0} => for this sign write \" \"
    ^ Begins:QUOTES => in the shell write plain quotes, ' or \", around the whole condition

    Call ^ / Number Relation Number => there is no \"/\": compare with %n1 times that number
    ^ / Number => there is no \"/\": multiply the other side, as in 2*hcp(north)>=hcp(south)
    ^ ? => \
        for one test or another write both, as in balanced(north) and hcp(north)>=15 or not \
        balanced(north) and hcp(north)>=12
    Count ^ . Seat => write \"%b1(%n1%e1\"
    balanced ^ . Seat => write \"balanced(%n1)\"
    NotInCall Seat ^ .|: MEASURES|ORDERS Amount => with the seat in brackets write: %n1(%b1)%a2
    NotInCall Seat ^ . balanced => with the seat in brackets write: balanced(%b1)
    NotInCall Seat ^ .|: => begin with what you ask of the seat, as in hcp(%b1)>=15
    ^ / / => for a comment write \"#\"
    ^ \"|'|` => leave the quotes out
";
