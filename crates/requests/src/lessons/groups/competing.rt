//! Overcalls and doubles of an opening.

use crate::lessons::lesson::LessonRow;

pub(crate) const COMPETING: &[LessonRow] = &[
    (
        "takeout-double",
        "A take-out double",
        "North opens 1D, and East doubles with support for the other suits.",
        "len(north,diamonds)>=5 and len(north,diamonds)>len(north,clubs) and hcp(north) in 12-14 \
         and hcp(east)>=12 and not (balanced(east) and hcp(east) in 15-18) and \
         len(east,diamonds)<3 and len(east,clubs) in 3-4 and every major (len(north,major)<5 and \
         len(east,major) in 3-4)",
    ),
    (
        "overcall",
        "An overcall in spades",
        "North opens another suit, and East overcalls 1S.",
        "hcp(north) in 12-14 and longest(north)>4 and second(north)<5 and len(north,spades)<5 and \
         hcp(east) in 9-14 and len(east,spades)==5 and second(east)<5 and cards(east,spades,akq)>1",
    ),
    (
        "notrump-overcall",
        "An overcall of 1NT",
        "North opens 1D, and East overcalls 1NT with 15 to 18 points and a stopper.",
        "hcp(north) in 12-14 and len(north,diamonds)>=4 and len(north,diamonds)>len(north,clubs) \
         and balanced(east) and hcp(east) in 15-18 and every major (len(north,major)<5 and \
         len(east,major)<5) and stops(east,diamonds)",
    ),
    (
        "weak-jump-overcall",
        "A weak jump overcall",
        "North opens 1D, and East jumps in a six-card major.",
        "hcp(north) in 12-14 and len(north,diamonds)>=4 and len(north,diamonds)>len(north,clubs) \
         and every major (len(north,major)<5) and any major (len(east,major)==6 and \
         cards(east,major,akq)>=2) and hcp(east) in 6-9 and second(east)<4",
    ),
    (
        "michaels",
        "Michaels",
        "North opens 1D, and East shows both majors by 2D.",
        "hcp(north) in 12-14 and len(north,diamonds)>=4 and len(north,diamonds)>len(north,clubs) \
         and every major (len(north,major)<5 and len(east,major)>=5) and hcp(east) in 7-15",
    ),
    (
        "unusual-notrump",
        "The unusual notrump",
        "North opens a major, and East shows both minors by 2NT.",
        "hcp(north) in 12-15 and (hcp(north)<15 or not balanced(north)) and any major \
         (len(north,major)>=5) and second(north)<5 and every minor (len(east,minor)>=5) and \
         hcp(east) in 7-15",
    ),
    (
        "majors-against-notrump",
        "The majors against 1NT",
        "North opens 1NT, and East shows both majors.",
        "balanced(north) and hcp(north) in 15-17 and every major (len(north,major)<5 and \
         len(east,major)>=4) and len(east,spades)+len(east,hearts)>=9 and hcp(east) in 10-14",
    ),
];
