//! Lists of texts that rules name (`rule`), with blanks between them.

/// What may come before and after a whole test; or nothing.
pub(crate) const STARTS: &str = " ( and or not";

pub(crate) const ENDS: &str = " ) and or";

/// What goes through a class.
pub(crate) const THROUGH: &str = "any every";

/// What binds a class.
pub(crate) const BINDS: &str = "any every let";

static LISTS: [(&str, &str); 20] = [
    ("STARTS", STARTS),
    ("ENDS", ENDS),
    // The signs of the suits.
    ("SUIT_SIGNS", "\u{2660} \u{2665} \u{2666} \u{2663}"),
    // How a person joins two suits of which one is meant, two that are both meant, and either.
    ("OR", "or / | ||"),
    ("AND", "and & &&"),
    ("JOINED", "or / | || and & && +"),
    ("BARS", "|| |"),
    // What is taken for a range, before its first number.
    ("IN", "in == != < <= > >="),
    // How a person compares for being equal: a value, and a test with true.
    ("EQUAL", "= == is in"),
    ("SAME", "= == === is"),
    // How a person says that a hand has something, and what a person writes between a seat and it.
    ("HOLDS", "has have holds with hat mit"),
    ("HAS", "has have holds with is hat mit"),
    // What comes after a number and `or`.
    ("MORE", "more greater higher above up longer better"),
    ("FEWER", "less fewer lower below under shorter"),
    // How a person says that a number counts points.
    ("POINTS", "points point pts hp hcp punkte"),
    // What says of a number what it counts: then it isn't a second one for the same value.
    (
        "COUNTED",
        "- spades hearts diamonds clubs spade heart diamond club suit suits card cards hcp point \
        points pts hp punkte",
    ),
    // Small numbers in words.
    (
        "NUMBERS",
        "zero one two three four five six seven eight nine ten eleven twelve thirteen fourteen \
        fifteen sixteen seventeen eighteen nineteen twenty",
    ),
    // Who a person speaks of in place of a seat, and who may be in its brackets.
    (
        "PEOPLE",
        "partner pard me my i we us you opponent opponents opps lho rho",
    ),
    (
        "PLAYERS",
        "opener responder overcaller advancer doubler declarer dummy defender leader opponent \
        opponents opps partner partners pard me my i we us you lho rho",
    ),
    // Quotation marks as printers set them.
    (
        "QUOTES",
        "\u{2018} \u{2019} \u{201A} \u{201B} \u{201C} \u{201D} \u{201E} \u{201F} \u{2039} \
        \u{203A} \u{AB} \u{BB}",
    ),
];

/// The texts that are meant, and what is between them: a list of this name, or what stands there.
pub(crate) fn listed(texts: &str) -> (&str, char) {
    let list = LISTS.iter().find(|(name, _)| *name == texts);
    list.map_or((texts, '|'), |(_, list)| (*list, ' '))
}
