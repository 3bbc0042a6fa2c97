//! Raises of an opening.

use crate::lessons::lesson::LessonRow;

pub(crate) const RAISES: &[LessonRow] = &[
    (
        "single-raise",
        "A single raise of a major",
        "North opens a major, and South raises it to two.",
        "any major (len(north,major)>=5 and len(south,major)==3) and second(north)<5 and \
         hcp(north) in 12-21 and (hcp(north)<15 or not balanced(north)) and hcp(south) in 6-9 and \
         longest(south)<6 and hcp(east)<8 and longest(east)<6 and second(east)<5",
    ),
    (
        "bergen-raise",
        "A Bergen raise",
        "North opens a major, and South shows four trumps and 7 to 9 points by 3C.",
        "any major (len(north,major)>=5 and len(south,major)==4) and second(north)<5 and \
         hcp(north) in 12-21 and (hcp(north)<15 or not balanced(north)) and hcp(south) in 7-9 and \
         shortest(south)>1 and longest(south)<6 and hcp(east)<8 and longest(east)<6 and \
         second(east)<5",
    ),
    (
        "limit-raise",
        "A limit raise",
        "North opens a major, and South raises it to three with four trumps and 10 to 12 points.",
        "any major (len(north,major)>=5 and len(south,major)==4) and second(north)<5 and \
         hcp(north) in 12-21 and (hcp(north)<15 or not balanced(north)) and hcp(south) in 10-12 \
         and shortest(south)>1 and hcp(east)<8 and longest(east)<6 and second(east)<5",
    ),
    (
        "preemptive-raise",
        "A preemptive raise to game",
        "North opens a major, and South raises it to four with five trumps and little else.",
        "any major (len(north,major)>=5 and len(south,major)>=5) and second(north)<5 and \
         hcp(north) in 12-21 and (hcp(north)<15 or not balanced(north)) and hcp(south) in 3-7 and \
         shortest(south)<2 and longest(south)<7 and hcp(east)<8 and longest(east)<6 and \
         second(east)<5",
    ),
    (
        "jacoby-2nt",
        "Jacoby 2NT",
        "North opens a major, and South asks by 2NT with four trumps, 13 points and no shortage.",
        "any major (len(north,major)>=5 and len(south,major)==4) and second(north)<5 and \
         hcp(north) in 12-21 and (hcp(north)<15 or not balanced(north)) and hcp(south) in 13-17 \
         and shortest(south)>1 and longest(south)==4 and hcp(east)<8 and longest(east)<6 and \
         second(east)<5",
    ),
    (
        "splinter",
        "A splinter",
        "North opens a major, and South bids the suit of a singleton, with four trumps and 10 to \
         13 points.",
        "any major (len(north,major)>=5 and len(south,major)==4) and second(north)<5 and \
         hcp(north) in 12-21 and (hcp(north)<15 or not balanced(north)) and hcp(south) in 10-13 \
         and shortest(south)==1 and second(south)<5 and longest(south)<6 and every suit \
         (len(south,suit)>1 or cards(south,suit,ak)==0) and hcp(east)<8 and longest(east)<6 and \
         second(east)<5",
    ),
    (
        "inverted-minor",
        "An inverted minor",
        "North opens 1D, and South raises it with five cards, 11 points and no major.",
        "hcp(north) in 12-14 and len(north,diamonds)>=4 and len(north,diamonds)>len(north,clubs) \
         and every major (len(north,major)<5 and len(south,major)<4) and len(south,diamonds)==5 \
         and hcp(south) in 11-14 and len(south,clubs)<5 and hcp(east)<8 and longest(east)<6 and \
         second(east)<5",
    ),
    (
        "drury",
        "Drury",
        "North and East pass, South opens a major, and North shows a fit and 10 or 11 points by \
         2C.",
        "any major (len(south,major)>=5 and len(north,major)>=3) and second(south)<5 and \
         hcp(south) in 11-14 and hcp(north) in 10-11 and \
         hcp(north)+longest(north)+second(north)<20 and longest(north)<6 and every ew (hcp(ew)<10 \
         and longest(ew)<6 and second(ew)<5)",
    ),
];
