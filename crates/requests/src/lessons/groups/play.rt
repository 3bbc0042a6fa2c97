//! Contracts to play, by the shape of the hands.

use crate::lessons::lesson::LessonRow;

pub(crate) const PLAY: &[LessonRow] = &[
    (
        "three-notrump",
        "3NT with each suit stopped",
        "North and South have 26 to 28 points, a stopper in each suit and no major fit. It makes \
         on nearly nine of ten.",
        "hcp(north)+hcp(south) in 26-28 and every ns (shortest(ns)>1) and every suit (any ns \
         (stops(ns,suit))) and every major (len(north,major)+len(south,major)<8)",
    ),
    (
        "major-game",
        "Game in a major",
        "North and South have a fit in a major, and points and losers for game. It makes on nine \
         of ten.",
        "any major (len(north,major)>=5 and len(south,major)>=3) and hcp(north)+hcp(south) in \
         25-27 and losers(north)+losers(south) in 13-14",
    ),
    (
        "moysian",
        "A fit of four and three",
        "North has four hearts and South three, with the honours, and spades are open for notrump. \
         Four hearts make on four of five.",
        "hcp(north)+hcp(south) in 25-28 and len(north,hearts)==4 and len(south,hearts)==3 and \
         cards(north,hearts,akq)+cards(south,hearts,akq)==3 and every ns (not stops(ns,spades)) \
         and len(south,spades)<3 and losers(north)+losers(south)<=14 and every ew \
         (len(ew,hearts)<5)",
    ),
    (
        "king-onside",
        "A finesse that works",
        "North and South have nine spades without the king, which East holds, who plays before \
         the ace.",
        "len(north,spades)==5 and len(south,spades)==4 and cards(south,spades,aq)==2 and \
         len(east,spades)==2 and cards(east,spades,k)==1 and hcp(north)+hcp(south) in 25-28",
    ),
    (
        "hold-up",
        "A hold-up",
        "North and South play 3NT with the ace alone in the suit that is led.",
        "hcp(north)+hcp(south) in 26-28 and every ns (balanced(ns) and len(ns,hearts)==3) and \
         cards(south,hearts,akq)==1 and cards(south,hearts,a)==1 and cards(north,hearts,akqj)==0 \
         and len(west,hearts)==5",
    ),
    (
        "bad-break",
        "A bad break",
        "North and South play four spades with nine trumps, and one of the others has all four.",
        "len(north,spades)>=5 and len(north,spades)+len(south,spades)==9 and \
         hcp(north)+hcp(south) in 26-29 and any ew (len(ew,spades)==4)",
    ),
];
