//! The share of the candidates that one worker judges.

ghost use Rattle.std.specs.Prelude.{◌≡◌, ◌+◌, ◌*◌, ◌<◌, ◌≤◌, ◌^◌, ◌↔◌, IsSome, IfSome};
ghost use Rattle.lanes.specs.Verdicts.{turns};

use cards::{MAX_CANDIDATES, MAX_WORKERS};

/// Of the `count` candidates from `first` on, every `workers`-th one, from the one numbered `first
/// + worker`.
#[derive(Clone, Copy, Drop)]
pub struct Share {
    pub first: u64,
    pub count: u64,
    pub workers: u32,
    pub worker: u32,
    pub ghost within: { first + count ≤ 2 ^ 40 },
    pub ghost one_of: { worker < workers },
    pub ghost few: { workers ≤ 16 },
}

impl Share {
    /// The share of worker `worker` of `workers`, from 0. `None` if there are not 1 to 16 workers,
    /// if `worker` is not below `workers`, or if `first + count` is above 2^40.
    pub fn new(first: u64, count: u64, workers: u32, worker: u32) -> Option<Share>
        ensures range { IsSome result
            ↔ ((first + count ≤ 2 ^ 40) × (1 ≤ workers) × (workers ≤ 16) × (worker < workers)) }
        ensures numbers { IfSome result (λ s.
            (s.first ≡ first) × (s.count ≡ count)
            × (s.workers ≡ workers) × (s.worker ≡ worker)) }
    {
        let in_range = first <= MAX_CANDIDATES && count <= MAX_CANDIDATES - first;
        if !in_range || workers > MAX_WORKERS || worker >= workers {
            return None;
        }
        Some(Share {
            first,
            count,
            workers,
            worker,
        })
    }

    /// How many candidates the share has.
    pub fn len(&self) -> u64
        ensures { result ≡ turns self.now.workers self.now.worker self.now.count }
    {
        let workers = u64::from(self.workers);
        let whole_turns = self.count / workers;
        if u64::from(self.worker) < self.count % workers {
            whole_turns + 1
        } else {
            whole_turns
        }
    }

    /// The number of the share's `i`-th candidate, from 0.
    pub fn at(&self, i: u64) -> u64
        requires { i < turns self.now.workers self.now.worker self.now.count }
        ensures { result ≡ self.now.first + self.now.worker + i * self.now.workers }
    {
        self.first + u64::from(self.worker) + i * u64::from(self.workers)
    }
}
