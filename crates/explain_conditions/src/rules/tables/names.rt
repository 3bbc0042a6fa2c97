//! Words from elsewhere, and what a person means by each.

pub(crate) const RULES: &str = "
    InCall ( ^ s|S Begins:\u{FC} d|den => write \"south\"
    InCall ( ^ Named:n|nord => write \"north\"
    InCall ( ^ Named:e|ost|est => write \"east\"
    InCall ( ^ Named:s|sud|sued => write \"south\"
    InCall ( ^ Named:w|ouest => write \"west\"
    InCall Except:( ^ Named:s|spade|pik|pique => write \"spades\"
    InCall Except:( ^ Named:h|heart|herz|coeur => write \"hearts\"
    InCall Except:( ^ Named:d|diamond|karo|carreau => write \"diamonds\"
    InCall Except:( ^ Named:c|club|treff|trefle|kreuz => write \"clubs\"
    InCall Except:( ^ c|C Begins:\u{153} ur|urs => write \"hearts\"
    InCall Except:( ^ tr|Tr Begins:\u{E8} fle|fles => write \"clubs\"
    In:cards Except:( ^ Rank => write \"%q0\"

    NotInCall STARTS ^ Named:nord => write \"north\"
    NotInCall STARTS ^ Named:ost|est => write \"east\"
    NotInCall STARTS ^ Named:sud|sued => write \"south\"
    NotInCall STARTS ^ s|S Begins:\u{FC} d|den => write \"south\"
    NotInCall STARTS ^ Named:ouest => write \"west\"
    Count ^ Named:n => write \"%b1(north%e1\"
    Count ^ Named:e => write \"%b1(east%e1\"
    Count ^ Named:w => write \"%b1(west%e1\"
    Count ^ Named:s|h|d|c => say whose, as in %b1(north%e1
    balanced ^ Named:n => write \"balanced(north)\"
    balanced ^ Named:e => write \"balanced(east)\"
    balanced ^ Named:s => write \"balanced(south)\"
    balanced ^ Named:w => write \"balanced(west)\"

    NotInCall ^ Named:points|point|pts|hp => write \"hcp\"
    NotInCall ^ Named:length|lengths => write \"len\"
    NotInCall ^ Named:distribution|dist => write \"shape\"
    NotInCall ^ Named:ltc => write \"losers\"
    NotInCall ^ Named:und|et|with|but|where|when => write \"and\"
    NotInCall ^ Named:unless => write \"and not\"
    NotInCall ^ Named:oder|ou => write \"or\"
    NotInCall ^ Named:no|nicht|never => write \"not\"
    NotInCall Call ^ Named:est|ist Number => write \"==\"
    NotInCall ^ Named:equals|equal => write \"==\"
    NotInCall ^ either => leave \"either\" out
    NotInCall ^ Named:the => leave \"the\" out
    NotInCall ^ Named:plus => write \"+\"
";
