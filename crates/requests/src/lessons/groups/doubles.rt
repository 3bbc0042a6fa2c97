//! What follows an overcall or a double.

use crate::lessons::lesson::LessonRow;

pub(crate) const DOUBLES: &[LessonRow] = &[
    (
        "negative-double",
        "A negative double",
        "North opens 1D, East overcalls 1S, and South doubles with four hearts.",
        "hcp(north) in 12-14 and len(north,diamonds)>=4 and len(north,diamonds)>len(north,clubs) \
         and every major (len(north,major)<5) and len(east,spades)==5 and \
         cards(east,spades,akqjt)>=2 and hcp(east) in 9-14 and second(east)<5 and \
         len(south,hearts)==4 and len(south,spades)<4 and not stops(south,spades) and \
         len(south,diamonds)<4 and longest(south)<6 and hcp(south) in 6-11",
    ),
    (
        "support-double",
        "A support double",
        "North opens 1D, South bids 1H, West overcalls 1S, and North doubles with three hearts.",
        "hcp(north) in 12-14 and len(north,diamonds)>=4 and len(north,diamonds)>len(north,clubs) \
         and len(north,hearts)==3 and len(north,spades)<4 and hcp(east)<8 and longest(east)<6 and \
         second(east)<5 and len(south,hearts)>=4 and len(south,spades)<4 and longest(south)<6 and \
         hcp(south) in 6-11 and len(west,spades)==5 and cards(west,spades,akq)>=2 and hcp(west) \
         in 9-14 and second(west)<5",
    ),
    (
        "raise-of-overcall",
        "A raise of an overcall",
        "North opens 1D, East overcalls 1S, South passes, and West raises.",
        "hcp(north) in 12-14 and len(north,diamonds)>=4 and len(north,diamonds)>len(north,clubs) \
         and every major (len(north,major)<5) and len(east,spades)==5 and \
         cards(east,spades,akq)>=2 and hcp(east) in 9-14 and second(east)<5 and hcp(south)<6 and \
         longest(south)<6 and len(west,spades)==3 and hcp(west) in 7-9",
    ),
    (
        "balancing",
        "A balancing action",
        "North opens 1H, East and South pass, and West has to act.",
        "hcp(north) in 12-14 and len(north,hearts)==5 and second(north)<5 and hcp(east)<11 and \
         longest(east)<5 and hcp(south)<5 and longest(south)<6 and len(south,hearts)<3 and \
         hcp(west) in 10-13 and len(west,hearts)<3 and len(west,spades)==4",
    ),
    (
        "responsive-double",
        "A responsive double",
        "North opens 1H, East doubles, South raises, and West doubles with both minors.",
        "let opens(seat) is (hcp(seat) in 12-17 and (hcp(seat)<15 or not balanced(seat)))\n\
         opens(north) and len(north,hearts)>=5 and second(north)<5 and opens(east) and \
         len(east,hearts)<3 and len(east,spades) in 3-4 and every minor (len(east,minor) in 3-4 \
         and len(west,minor)>=4) and len(south,hearts)==3 and hcp(south) in 6-9 and \
         len(west,spades)<4 and hcp(west) in 6-10",
    ),
    (
        "lebensohl",
        "Lebensohl",
        "North opens 1NT, East overcalls 2S, and South has a suit of five or six and no game.",
        "balanced(north) and hcp(north) in 15-17 and every major (len(north,major)<5) and \
         len(east,spades)==6 and second(east)<4 and hcp(east) in 10-14 and longest(south) in 5-6 \
         and len(south,spades)<4 and hcp(south) in 5-8",
    ),
];
