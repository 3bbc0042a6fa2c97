//! Part scores.

use crate::lessons::lesson::LessonRow;

pub(crate) const PART_SCORES: &[LessonRow] = &[
    (
        "part-score",
        "A fight for the part score",
        "Both sides have a fit and about half of the points. On nine of ten neither side has a \
         game.",
        "hcp(north)+hcp(south) in 19-21 and losers(north)+losers(south) in 15-18 and \
         losers(east)+losers(west) in 15-18 and any suit (len(north,suit)+len(south,suit)==8) \
         and every suit (len(north,suit)+len(south,suit) in 5-8)",
    ),
    (
        "misfit",
        "A misfit",
        "North and South have no eight-card fit, and each a long suit.",
        "hcp(north) in 12-14 and len(north,spades)==5 and second(north)<5 and hcp(south) in 6-9 \
         and len(south,spades)<2 and every suit (len(north,suit)+len(south,suit)<8) and \
         hcp(east)<10 and longest(east)<6 and second(east)<5",
    ),
];
