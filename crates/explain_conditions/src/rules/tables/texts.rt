//! Texts that are no condition at all: nothing, what looks like a file's name, a call for help.

pub(crate) const RULES: &str = "
    Nothing ^ Nothing => \
        there is no condition here (is a file missing?); for 15 points or more with North write: \
        hcp(north)>=15
    Nothing ^ @ => the text itself goes here; from a file: \"$(cat FILE)\"
    Nothing ^ /|.|~ .|/ => the text itself goes here; from a file: \"$(cat FILE)\"
    Nothing ^ /|\\ Word => the text itself goes here; from a file: \"$(cat FILE)\"
    Nothing ^ Word .|/|\\ => the text itself goes here; from a file: \"$(cat FILE)\"
    Nothing ^ $ ( => the shell reads a file in double quotes alone: \"$(cat FILE)\"
    ^ Begins:\u{FEFF} => a byte order mark is here: leave it out
    Nothing ^ help|usage => all that a condition can say: deals conditions
    Nothing x ^ =|: => \
        give a test a name before the condition, as in let strong is (hcp(north)>=15)
    Nothing MEASURES|ORDERS ^ Nothing => \
        say whose, in quotes, as in '%b1(north)': the shell takes ( and > for itself
    Nothing ^ condition|where|if Nothing => write the condition alone, as in hcp(north)>=15
    Nothing ^ condition|where|if => leave out \"%n0\", and write the condition alone
    Nothing any ^ Digits:4 + any Digits:4 Nothing => \
        with one pattern in each test write: pattern(north,%g0) or pattern(north,%g3)
    Nothing any ^ Digits:4 => for any order write \"pattern\", as in pattern(north,5-3-3-2)
    Nothing any ^ Number - Number - => for any order write \"pattern\", as in pattern(north,5-3-3-2)
    ^ any|some Suit => a suit is named alone, as in len(north,%n1)
";
