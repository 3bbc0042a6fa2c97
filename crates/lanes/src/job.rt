//! What a worker is to do.

ghost use Rattle.std.specs.Prelude.{◌≡◌, ◌<◌, IfOk};
ghost use Rattle.lanes.specs.Jobs.{verdicts_around, verdicts_for};

use crate::share::Share;
use boards::Plan;
use cards::Fixed;
use conditions::Cond;
use std::alloc::AllocError;

/// What a worker is to do: judge its share of the seed's candidates by the condition.
#[derive(Drop)]
pub struct Job {
    pub seed: u32,
    pub share: Share,
    pub cond: Cond,
}

/// A job whose candidates are dealt around fixed cards.
pub struct JobAround {
    pub seed: u32,
    pub share: Share,
    pub cond: Cond,
    pub fixed: Fixed,
}

// By hand, so that to drop one is a call (docs/DECISIONS.md).
impl Drop for JobAround {
    fn drop(self) {
        let JobAround {
            seed: _,
            share: _,
            cond: _,
            fixed: _,
        } = self;
    }
}

impl Job {
    /// The job with its candidates dealt around these cards.
    pub fn around(self, fixed: Fixed) -> JobAround
        ensures { result ≡ record {
          seed = self.seed;
          share = self.share;
          cond = self.cond;
          fixed = fixed;
        } }
    {
        let Job { seed, share, cond } = self;
        JobAround {
            seed,
            share,
            cond,
            fixed,
        }
    }
}

impl JobAround {
    /// The job of one of the plan's workers, from 0.
    ///
    /// # Errors
    /// `AllocError` if the condition can't be cloned.
    pub fn of(plan: &Plan, cond: &Cond, worker: u32) -> Result<JobAround, AllocError>
        requires { worker < plan.now.workers }
        ensures { IfOk result (λ job. verdicts_around job ≡ verdicts_for plan.now cond.now worker) }
    {
        let Ok(cond) = cond.try_clone() else {
            return Err(AllocError);
        };
        let share = Share {
            first: plan.first(),
            count: plan.count(),
            workers: plan.workers(),
            worker,
        };
        Ok(JobAround {
            seed: plan.seed(),
            share,
            cond,
            fixed: *plan.fixed(),
        })
    }
}
