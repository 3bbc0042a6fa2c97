//! The job of a `make` or a `find`.

ghost use Rattle.std.specs.Prelude.{◌≡◌};
ghost use Rattle.requests.specs.Defaults.{workers_in};

use boards::{Captions, Format, Plan, Show};
use cond_lang::Cond;
use requests::Workers;

/// A run: the boards of the accepted ones among a plan's candidates.
#[derive(Drop)]
pub struct BoardsJob {
    pub plan: Plan,
    pub condition: Cond,
    /// What is above the boards, as far as the format can write it.
    pub heading: Captions,
    pub format: Format,
    pub show: Show,
    /// Whether the input tells what can be made on each board.
    pub tricks: bool,
    /// How many workers are asked for: with `Auto` the plan has one, until the job is run.
    pub workers: Workers,
    ghost workers_are: { plan.workers ≡ workers_in workers },
    /// Whether the boards and the candidates are counted for a report.
    pub report: bool,
}
