//! Words that are like none of the language, and numbers of five digits or more.

pub(crate) const RULES: &str = "
    NotInCall ^ Word ( => \
        a hand has %l0cards, len, %l1balanced, shape, pattern, stops
    ^ Capital => conditions are written in small letters
    NotInCall STARTS ^ Word => deals conditions has all words, with examples
    ^ Zeros => without leading zeros write \"%z0\"
    ^ Number => a number has at most four digits
";
