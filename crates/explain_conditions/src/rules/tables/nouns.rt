//! Nouns of other languages and programs, numbers in words, and what is asked in other ways.

pub(crate) const RULES: &str = "
    Relation ^ Named:NUMBERS => write the number in digits, as in hcp(north)>=15
    in ^ Named:NUMBERS => write the number in digits, as in hcp(north)>=15
    NotInCall ^ Named:hpc|hcps|hpcs|punkte|pkt|fp => write \"hcp\"
    NotInCall ^ Named:bal|balance|flat|ausgeglichen => write \"balanced\"
    NotInCall ^ Named:semibalanced => \
        for semi-balanced write: balanced(%u2) or pattern(%u2,5-4-2-2) or pattern(%u2,6-3-2-2)
    NotInCall ^ Named:semi - balanced => \
        for semi-balanced write: balanced(%u4) or pattern(%u4,5-4-2-2) or pattern(%u4,6-3-2-2)
    NotInCall ^ two - suiter|suited|suiters => for two five-card suits write: pattern(%u4,5-5-x-x)
    NotInCall ^ Named:verlierer|perdantes => write \"losers\"
    NotInCall ^ Named:kontrollen|controles => write \"controls\"
    NotInCall ^ Named:s|spade|pik|pique|piques ( Seat => \
        for a suit's length write \"len(%n2,spades)\"
    NotInCall ^ Named:h|heart|herz|coeur|coeurs ( Seat => \
        for a suit's length write \"len(%n2,hearts)\"
    NotInCall ^ Named:d|diamond|karo|carreau|carreaux ( Seat => \
        for a suit's length write \"len(%n2,diamonds)\"
    NotInCall ^ Named:c|club|treff|kreuz|trefle|trefles ( Seat => \
        for a suit's length write \"len(%n2,clubs)\"
    NotInCall ^ c|C Begins:\u{153} ur|urs ( Seat => \
        for a suit's length write \"len(%n4,hearts)\"
    NotInCall ^ tr|Tr Begins:\u{E8} fle|fles ( Seat => \
        for a suit's length write \"len(%n4,clubs)\"
    NotInCall ^ tr|Tr Begins:\u{E8} fle|fles => \
        for a suit's length write len, as in len(north,clubs)
    NotInCall ^ Named:s|spade|pik|pique|piques ( => \
        for a suit's length write len, as in len(north,spades)
    NotInCall ^ Named:h|heart|herz|coeur|coeurs ( => \
        for a suit's length write len, as in len(north,hearts)
    NotInCall ^ Named:d|diamond|karo|carreau|carreaux ( => \
        for a suit's length write len, as in len(north,diamonds)
    NotInCall ^ Named:club|treff|kreuz|trefle|trefles Except:|) => \
        for a suit's length write len, as in len(north,clubs)
    ^ Named:average|avg|mean|frequency|count|probability => \
        to count deals, or for an average: deals count --of
    NotInCall ^ xor => \
        for one of two alone write both ways, as in balanced(north) and not balanced(south) or not \
        balanced(north) and balanced(south)
    NotInCall ^ if => \
        for a test that counts only then write \"not\" and \"or\", as in not balanced(north) or \
        hcp(north)>=12
    or ^ so Nothing => numbers are exact: leave \"or so\" out
    InCall ( ^ Named:all|everyone|everybody|anyone|anybody|someone|somebody|any => \
        name the seat: north, east, south or west
    Seat ^ is dealer|vul|vulnerable => \
        a condition asks of the four hands alone, and not of the board
    Number ^ % => write the number alone
    Nothing ^ ? => all that a condition can say: deals conditions
";
