//! The groups of the lessons, in the order in which they are listed.

ghost use Rattle.std.specs.Prelude.{◌≡◌, map};
ghost use Rattle.requests.specs.Lessons.{groups};
ghost use Rattle.requests.specs.internal.Groups.{title_and_lessons};

pub(crate) mod competing;
pub(crate) mod doubles;
pub(crate) mod leads;
pub(crate) mod notrump;
pub(crate) mod openings;
pub(crate) mod part_scores;
pub(crate) mod play;
pub(crate) mod preempts;
pub(crate) mod raises;
pub(crate) mod responses;
pub(crate) mod slams;

use crate::lessons::groups::competing::COMPETING;
use crate::lessons::groups::doubles::DOUBLES;
use crate::lessons::groups::leads::LEADS;
use crate::lessons::groups::notrump::NOTRUMP;
use crate::lessons::groups::openings::OPENINGS;
use crate::lessons::groups::part_scores::PART_SCORES;
use crate::lessons::groups::play::PLAY;
use crate::lessons::groups::preempts::PREEMPTS;
use crate::lessons::groups::raises::RAISES;
use crate::lessons::groups::responses::RESPONSES;
use crate::lessons::groups::slams::SLAMS;
use crate::lessons::lesson::{Group, LessonRow};

/// The lessons under this title.
fn group(title: &'static str, rows: &'static [LessonRow]) -> Group
    ensures title { result.title.now ≡ title.entry.now }
    ensures rows { result.rows.now ≡ rows.entry.now }
{
    Group { title, rows }
}

/// All groups.
pub(crate) fn groups() -> [Group; 11]
    ensures { map title_and_lessons result ≡ groups }
{
    [
        group("Openings", OPENINGS),
        group("Preempts and weak twos", PREEMPTS),
        group("Raises", RAISES),
        group("Responses and rebids", RESPONSES),
        group("Notrump", NOTRUMP),
        group("Competing", COMPETING),
        group("After an overcall or a double", DOUBLES),
        group("Slams", SLAMS),
        group("Part scores", PART_SCORES),
        group("Play by shape", PLAY),
        group("Leads", LEADS),
    ]
}
