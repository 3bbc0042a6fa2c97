//! Preempts and weak twos.

use crate::lessons::lesson::LessonRow;

pub(crate) const PREEMPTS: &[LessonRow] = &[
    (
        "weak-two",
        "A weak two in a major",
        "North opens 2H or 2S with a good six-card suit and 6 to 9 points.",
        "any major (len(north,major)==6 and cards(north,major,akq)>=2) and hcp(north) in 6-9 and \
         second(north)<4 and shortest(north)>0",
    ),
    (
        "weak-two-diamonds",
        "A weak two in diamonds",
        "North opens 2D with a good six-card suit and 6 to 9 points.",
        "len(north,diamonds)==6 and cards(north,diamonds,akq)>=2 and hcp(north) in 6-9 and \
         second(north)<4 and shortest(north)>0",
    ),
    (
        "ogust",
        "Ogust",
        "North opens a weak two in a major, and South asks by 2NT how good it is.",
        "any major (len(north,major)==6 and cards(north,major,akq)>=2 and len(south,major)>=2) \
         and hcp(north) in 6-9 and second(north)<4 and shortest(north)>0 and hcp(south) in 15-18 \
         and hcp(east)<10 and longest(east)<6 and second(east)<5",
    ),
    (
        "preempt",
        "A preempt",
        "North opens at the three level with a good seven-card suit and little else.",
        "any suit (len(north,suit)==7 and cards(north,suit,akq)>=1 and \
         cards(north,suit,akqjt)>=3 and hcp(north)<=hcp(north,suit)+3) and hcp(north) in 5-9 and \
         second(north)<4 and (hcp(north)<9 or controls(north)<3)",
    ),
    (
        "four-level-preempt",
        "A preempt at the four level",
        "North opens 4H or 4S with eight good cards and little else.",
        "any major (len(north,major)==8 and cards(north,major,akq)>=1 and \
         cards(north,major,akqjt)>=3 and hcp(north)<=hcp(north,major)+3) and hcp(north) in 5-9 \
         and second(north)<4",
    ),
    (
        "gambling-3nt",
        "A gambling three notrump",
        "North opens 3NT with a solid seven-card minor and nothing beside it.",
        "any minor (len(north,minor)==7 and cards(north,minor,akq)==3 and \
         hcp(north)<=hcp(north,minor)+2) and hcp(north)<=11 and second(north)<4 and \
         shortest(north)>0",
    ),
];
