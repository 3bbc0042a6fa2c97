//! Words of other programs' scripts, and functions of other languages.

pub(crate) const RULES: &str = "
    ^ dealer => with --rotate the dealer has the hand that is north's here
    ^ vul|vulnerable|vulnerability => a condition asks of the four hands alone, and not of the board
    Nothing ^ Word = Word => give a test a name before the condition: let %n0 is (hcp(north)>=15)
    Nothing ^ Named:define|def|set|alias Word => \
        give a test a name before the condition: let %n1 is (hcp(north)>=15)
    Nothing ^ produce => write the condition alone: --boards 36 says how many boards
    Nothing ^ generate => write the condition alone: --candidates 1000 says how many deals are tried
    Nothing ^ predeal => cards that a seat gets come after an option, as in --north AKQ32.K..A
    Nothing ^ action|print|printall|printpbn|printcompact|printoneline|printew => \
        write the condition alone: --format says how boards are written
    Nothing ^ accept|reject|deal => write the condition alone: it says which deals are kept

    ^ [ MEASURES|ORDERS|balanced Seat ] => write \"%n1(%n2)\"
    ^ [ Suit Seat ] => for a suit's length write \"len(%n2,%n1)\"

    NotInCall ^ max|maximum|min|minimum ( => \
        compare each value by itself, and join the tests with \"and\" or \"or\"
    NotInCall ^ sum ( => add values up with \"+\", as in hcp(north)+hcp(south)
    NotInCall ^ rnd|rand|random ( => a condition asks of the four hands alone, and not of the board
    NotInCall ^ quiet|milton ( => \
        the file standard.names gives such names: --let \"$(cat standard.names)\"
    NotInCall ^ neither|nor => \
        for neither write \"not\", as in not (balanced(north) or balanced(south))
    InCall Except:( ^ Named:trump|trumps|nt|notrump => \
        name the suit: spades, hearts, diamonds or clubs
";
