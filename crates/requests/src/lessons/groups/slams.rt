//! Slams.

use crate::lessons::lesson::LessonRow;

pub(crate) const SLAMS: &[LessonRow] = &[
    (
        "notrump-slam",
        "A slam at notrump",
        "North and South have 33 points and three aces or more. It makes on 19 of 20.",
        "every ns (balanced(ns)) and hcp(north)+hcp(south) in 33-36 and \
         cards(north,a)+cards(south,a)>=3",
    ),
    (
        "suit-slam",
        "A slam by controls and losers",
        "North and South have a fit, few losers and the controls for a slam. It makes on 29 of 30.",
        "any major (len(north,major)>=5 and len(south,major)>=4 and \
         cards(north,major,akq)+cards(south,major,akq)==3) and losers(north)+losers(south)<=12 \
         and controls(north)+controls(south)>=10 and hcp(north)+hcp(south)>=29",
    ),
    (
        "grand-slam",
        "A grand slam in hearts",
        "North and South have nine hearts, all aces and kings, and few losers. It makes on 99 of \
         100.",
        "len(north,hearts)+len(south,hearts)>=9 and \
         cards(north,hearts,akq)+cards(south,hearts,akq)==3 and cards(north,a)+cards(south,a)==4 \
         and cards(north,k)+cards(south,k)==4 and losers(north)+losers(south)<=11",
    ),
    (
        "keycard",
        "Keycard",
        "North and South have a major fit and points for a slam: the key cards decide.",
        "any major (len(north,major)>=5 and len(south,major)>=4 and \
         cards(north,major,akq)+cards(south,major,akq)>=2) and hcp(north) in 15-19 and hcp(south) \
         in 14-17 and every ns (shortest(ns)>0)",
    ),
    (
        "missing-ace",
        "A slam without an ace",
        "North and South have 31 points and a fit, and lack one ace. Twelve tricks are there on \
         29 of 30.",
        "cards(north,a)+cards(south,a)==3 and cards(north,k)+cards(south,k)==4 and \
         hcp(north)+hcp(south)>=31 and any suit (len(north,suit)+len(south,suit)>=9)",
    ),
];
