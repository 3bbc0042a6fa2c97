//! Responses and rebids.

use crate::lessons::lesson::LessonRow;

pub(crate) const RESPONSES: &[LessonRow] = &[
    (
        "one-over-one",
        "A new suit at the one level",
        "North opens 1D, and South bids a four-card major.",
        "hcp(north) in 12-14 and len(north,diamonds)>=4 and len(north,diamonds)>len(north,clubs) \
         and every major (len(north,major)<5) and any major (len(south,major)==4) and \
         longest(south)==4 and hcp(south) in 6-11 and hcp(east)<8 and longest(east)<6 and \
         second(east)<5",
    ),
    (
        "one-notrump-response",
        "One notrump in answer",
        "North opens 1S, and South has 6 to 9 points and no fit.",
        "len(north,spades)==5 and second(north)<5 and hcp(north) in 12-21 and (hcp(north)<15 or \
         not balanced(north)) and len(south,spades)<3 and hcp(south) in 6-9 and longest(south)<6 \
         and hcp(east)<8 and longest(east)<6 and second(east)<5",
    ),
    (
        "two-way-checkback",
        "Two-way checkback",
        "North opens a minor and rebids 1NT over 1S, and South asks with five spades by 2C or 2D.",
        "balanced(north) and hcp(north) in 12-14 and every major (len(north,major)<5) and \
         len(north,spades)<4 and len(south,spades)==5 and second(south)<5 and hcp(south) in 11-15 \
         and hcp(east)<8 and longest(east)<6 and second(east)<5",
    ),
    (
        "reverse-flannery",
        "Reverse Flannery",
        "North opens a minor, and South shows five spades, four hearts and 6 to 8 points by 2H.",
        "hcp(north) in 12-14 and every major (len(north,major)<5) and len(south,spades)==5 and \
         len(south,hearts)==4 and hcp(south) in 6-8 and hcp(east)<8 and longest(east)<6 and \
         second(east)<5",
    ),
    (
        "two-over-one",
        "Two over one",
        "North opens 1S, and South bids 2C with points for game.",
        "len(north,spades)==5 and second(north)<5 and hcp(north) in 12-21 and (hcp(north)<15 or \
         not balanced(north)) and len(south,spades)<3 and hcp(south) in 13-16 and \
         len(south,clubs)>=5 and second(south)<5 and hcp(east)<8 and longest(east)<6 and \
         second(east)<5",
    ),
    (
        "reverse",
        "A reverse",
        "North opens a minor, and bids 2H over 1S.",
        "hcp(north) in 17-21 and any minor (len(north,minor)>=5 and len(north,hearts)==4) and \
         second(north)==4 and len(north,spades)<4 and len(south,spades)>=4 and \
         len(south,hearts)<4 and longest(south)==len(south,spades) and hcp(south) in 6-12 and \
         hcp(east)<8 and longest(east)<6 and second(east)<5",
    ),
    (
        "fourth-suit",
        "Fourth suit forcing",
        "North bids 1D and 2C, South 1S; South has points for game and asks by 2H.",
        "hcp(north) in 12-15 and len(north,diamonds)==5 and len(north,clubs)==4 and \
         len(north,spades)<3 and len(south,spades)==5 and len(south,hearts)<4 and not \
         stops(south,hearts) and len(south,diamonds)<3 and len(south,clubs)<4 and hcp(south) in \
         13-16 and hcp(east)<8 and longest(east)<6 and second(east)<5",
    ),
    (
        "strong-two-suiter",
        "A strong two-suiter",
        "North has two five-card suits, one of them a major, and 15 points or more.",
        "pattern(north,5-5-x-x) and any major (len(north,major)==5) and hcp(north) in 15-20",
    ),
];
