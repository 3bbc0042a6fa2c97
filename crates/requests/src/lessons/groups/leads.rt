//! Leads.

use crate::lessons::lesson::LessonRow;

pub(crate) const LEADS: &[LessonRow] = &[
    (
        "lead-from-honours",
        "A lead from a row of honours",
        "North and South bid 3NT, and West leads from king, queen and jack.",
        "hcp(north)+hcp(south) in 26-28 and every ns (balanced(ns)) and every major \
         (len(north,major)+len(south,major)<8) and any suit (cards(west,suit,kqj)==3 and \
         len(west,suit)>=5)",
    ),
    (
        "fourth-best",
        "A lead of the fourth best",
        "North and South bid 3NT, and West leads from a long suit without a row of honours.",
        "hcp(north)+hcp(south) in 26-28 and every ns (balanced(ns)) and every major \
         (len(north,major)+len(south,major)<8) and any suit (len(west,suit)==5 and \
         cards(west,suit,akqj) in 1-2) and second(west)<5",
    ),
    (
        "singleton-lead",
        "A lead of a singleton",
        "North and South bid four of a major, and West has a singleton and three small trumps.",
        "any major (len(north,major)>=5 and len(south,major)>=3 and len(west,major)==3 and \
         cards(west,major,kqj)==0) and hcp(north)+hcp(south) in 25-27 and any suit \
         (len(west,suit)==1)",
    ),
];
