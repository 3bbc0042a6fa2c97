//! What the two ends of a lane share beside its ring: their bells, the load, and how long each
//! waited.

use crate::bell::Bell;
use crate::load::Load;
use std::sync::atomic::{AtomicU64, Ordering};

/// One of a lane's two ends.
#[derive(Clone, Copy, Drop)]
pub(crate) enum LaneEnd {
    Worker,
    Writer,
}

impl LaneEnd {
    /// The other end.
    pub(crate) fn other(self) -> LaneEnd {
        match self {
            LaneEnd::Worker => LaneEnd::Writer,
            LaneEnd::Writer => LaneEnd::Worker,
        }
    }
}

/// What the two ends of a lane share beside its ring.
#[derive(Drop)]
pub(crate) struct Signals {
    // So that no cache line that is written for each verdict, or in each wait, is read with the
    // bells.
    _before: [u64; 8],
    pub(crate) worker: Bell,
    pub(crate) writer: Bell,
    pub(crate) load: Load,
    _between: [u64; 8],
    worker_spins: AtomicU64,
    _after_worker: [u64; 8],
    writer_spins: AtomicU64,
    _after: [u64; 8],
}

impl Signals {
    /// Those of two ends that are awake and never waited.
    pub(crate) fn new() -> Signals {
        Signals {
            _before: [0; 8],
            worker: Bell::new(),
            writer: Bell::new(),
            load: Load::new(),
            _between: [0; 8],
            worker_spins: AtomicU64::new(0),
            _after_worker: [0; 8],
            writer_spins: AtomicU64::new(0),
            _after: [0; 8],
        }
    }

    /// What wakes the end on this side.
    pub(crate) fn bell(&self, side: LaneEnd) -> &Bell {
        match side {
            LaneEnd::Worker => &self.worker,
            LaneEnd::Writer => &self.writer,
        }
    }

    /// How many spins the end on this side waited so far, modulo 2^64.
    pub(crate) fn spins(&self, side: LaneEnd) -> u64 {
        self.counter(side).load(Ordering::SeqCst)
    }

    /// Counts spins of the end on this side, which alone calls it.
    pub(crate) fn count_spins(&self, side: LaneEnd, spins: u64) {
        let counter = self.counter(side);
        let before = counter.load(Ordering::SeqCst);
        counter.store(before.wrapping_add(spins), Ordering::SeqCst);
    }

    /// The counter of the spins on this side.
    fn counter(&self, side: LaneEnd) -> &AtomicU64 {
        match side {
            LaneEnd::Worker => &self.worker_spins,
            LaneEnd::Writer => &self.writer_spins,
        }
    }
}
