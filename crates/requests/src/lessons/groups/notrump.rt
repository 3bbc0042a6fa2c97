//! Answers to openings in notrump.

use crate::lessons::lesson::LessonRow;

pub(crate) const NOTRUMP: &[LessonRow] = &[
    (
        "stayman",
        "Stayman",
        "North opens 1NT, and South asks for a major by 2C.",
        "balanced(north) and hcp(north) in 15-17 and every ns (every major (len(ns,major)<5)) and \
         hcp(south) in 8-14 and any major (len(south,major)==4) and longest(south)<6 and not \
         pattern(south,4-3-3-3) and every ew (hcp(ew)<10 and longest(ew)<6 and second(ew)<5 and \
         len(ew,spades)+len(ew,hearts)<9)",
    ),
    (
        "transfer-hearts",
        "A transfer to hearts",
        "North opens 1NT, and South shows five hearts by 2D.",
        "balanced(north) and hcp(north) in 15-17 and every major (len(north,major)<5) and \
         len(south,hearts)>=5 and len(south,spades)<4 and longest(south)==len(south,hearts) and \
         every ew (hcp(ew)<10 and longest(ew)<6 and second(ew)<5 and \
         len(ew,spades)+len(ew,hearts)<9)",
    ),
    (
        "transfer-spades",
        "A transfer to spades",
        "North opens 1NT, and South shows five spades by 2H.",
        "balanced(north) and hcp(north) in 15-17 and every major (len(north,major)<5) and \
         len(south,spades)>=5 and len(south,hearts)<4 and longest(south)==len(south,spades) and \
         every ew (hcp(ew)<10 and longest(ew)<6 and second(ew)<5 and \
         len(ew,spades)+len(ew,hearts)<9)",
    ),
    (
        "weak-transfer",
        "A transfer with a weak hand",
        "North opens 1NT, and South transfers and passes.",
        "balanced(north) and hcp(north) in 15-17 and every major (len(north,major)<5) and any \
         major (len(south,major)>=5) and second(south)<4 and hcp(south)<8 and every ew \
         (hcp(ew)<10 and longest(ew)<6 and second(ew)<5 and len(ew,spades)+len(ew,hearts)<9)",
    ),
    (
        "notrump-invitation",
        "An invitation to 3NT",
        "North opens 1NT, and South has 8 or 9 points, a balanced hand and no major.",
        "every ns (balanced(ns)) and hcp(north) in 15-17 and hcp(south) in 8-9 and every major \
         (len(north,major)<5 and len(south,major)<4) and every ew (hcp(ew)<10 and longest(ew)<6 \
         and second(ew)<5 and len(ew,spades)+len(ew,hearts)<9)",
    ),
    (
        "notrump-game",
        "From 1NT to 3NT",
        "North opens 1NT, and South raises it to game without a major.",
        "every ns (balanced(ns)) and hcp(north) in 15-17 and hcp(south) in 10-14 and every major \
         (len(north,major)<5 and len(south,major)<4) and every ew (hcp(ew)<10 and longest(ew)<6 \
         and second(ew)<5 and len(ew,spades)+len(ew,hearts)<9)",
    ),
    (
        "quantitative-4nt",
        "A quantitative four notrump",
        "North opens 1NT, and South invites a slam by 4NT.",
        "every ns (balanced(ns)) and hcp(north) in 15-17 and hcp(south) in 16-17 and every major \
         (len(north,major)<5 and len(south,major)<4)",
    ),
    (
        "both-majors-opposite",
        "Both majors opposite 1NT",
        "North opens 1NT, and South has five cards in each major.",
        "balanced(north) and hcp(north) in 15-17 and hcp(south)>=8 and every major \
         (len(north,major)<5 and len(south,major)>=5) and every ew (hcp(ew)<10 and longest(ew)<6 \
         and second(ew)<5 and len(ew,spades)+len(ew,hearts)<9)",
    ),
    (
        "stayman-over-2nt",
        "Stayman over 2NT",
        "North opens 2NT, and South asks for a major by 3C.",
        "balanced(north) and hcp(north) in 20-21 and every ns (every major (len(ns,major)<5)) and \
         hcp(south) in 5-10 and any major (len(south,major)==4) and longest(south)<6 and not \
         pattern(south,4-3-3-3) and hcp(east)<10 and longest(east)<6 and second(east)<5",
    ),
];
