//! Openings.

use crate::lessons::lesson::LessonRow;

pub(crate) const OPENINGS: &[LessonRow] = &[
    (
        "strong-notrump",
        "A strong notrump",
        "North opens 1NT with 15 to 17 points and a balanced hand.",
        "balanced(north) and hcp(north) in 15-17 and every major (len(north,major)<5)",
    ),
    (
        "five-card-major",
        "An opening in a five-card major",
        "North opens the longer major, with 12 to 21 points.",
        "any major (len(north,major)>=5 and len(north,major)==longest(north)) and hcp(north) in \
         12-21 and (hcp(north)<15 or not balanced(north))",
    ),
    (
        "better-minor",
        "An opening in a minor",
        "North has no five-card major and too little for 1NT, and opens a minor.",
        "hcp(north) in 12-14 and every major (len(north,major)<5)",
    ),
    (
        "two-notrump",
        "An opening of 2NT",
        "North opens 2NT with 20 or 21 points and a balanced hand.",
        "balanced(north) and hcp(north) in 20-21",
    ),
    (
        "strong-two-clubs",
        "A strong two clubs",
        "North opens 2C with 22 points or more.",
        "hcp(north)>=22",
    ),
    (
        "rule-of-20",
        "The rule of 20",
        "North opens with 10 or 11 points, since they and the two longest suits make 20.",
        "hcp(north) in 10-11 and hcp(north)+longest(north)+second(north)>=20 and \
         longest(north)<7 and second(north)>3",
    ),
    (
        "third-seat",
        "A light opening in third seat",
        "North and East pass, and South opens a good major with 10 or 11 points.",
        "hcp(north)<10 and longest(north)<6 and hcp(east)<10 and longest(east)<6 and \
         second(east)<5 and hcp(south) in 10-11 and any major (len(south,major)==5 and \
         cards(south,major,akq)>=2) and second(south)<4",
    ),
];
