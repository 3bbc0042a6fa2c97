//! The job of a `count`.

ghost use Rattle.std.specs.Prelude.{◌≡◌, ◌≤◌, ◌^◌};
ghost use Rattle.boards.specs.Settings.{by_law};
ghost use Rattle.requests.specs.Defaults.{workers_in};
ghost use Rattle.statistics.specs.Counting.{cells_of};
ghost use Rattle.statistics.specs.Subjects.{subject_of};

use boards::{Plan, TableStyle};
use cond_lang::Cond;
use requests::Workers;
use statistics::Subject;

/// A table of what the accepted ones among a plan's candidates answer.
#[derive(Drop)]
pub struct CountJob {
    pub plan: Plan,
    pub condition: Cond,
    /// How many workers are asked for: with `Auto` the plan has one, until the job is run.
    pub workers: Workers,
    ghost workers_are: { plan.workers ≡ workers_in workers },
    pub style: TableStyle,
    pub subject: Subject,
    ghost small: { cells_of (subject_of subject) ≤ 2 ^ 20 },
    // Nothing sets another dealer, and no deal is turned.
    ghost plain: { plan.setting ≡ by_law },
}
