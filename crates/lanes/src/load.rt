//! What the ends of a lane know of the machine's load: whether it is quiet, so that a yield takes
//! next to no time, or busy. It counts as busy for the first waits; a short run has no others.
//! After long yields, which `pause.rt` detects, it counts as busy again for a number of waits, and
//! for four times as many if more long yields come soon after.

use std::sync::atomic::{AtomicU64, Ordering};

/// For how many waits the machine counts as busy while nothing is known of it.
const FIRST_WAITS: u64 = 4096;

/// For how many waits it does after the first long yields.
const FEWEST_WAITS: u64 = 512;

/// The most such waits. With this many, little is lost by the yields between.
const MOST_WAITS: u64 = 16_384;

/// How many times as many follow each time.
const GROWTH: u64 = 4;

/// Long yields count as soon after the last ones for this many times as many waits.
const TIMES_SOON: u64 = 4;

/// How high the load is, as far as it is known. It is shared by both ends of a lane, and not
/// written while yields are short.
#[derive(Drop)]
pub(crate) struct Load {
    // For how many waits the machine counts as busy from now on.
    waits: AtomicU64,
    // For how many it did the last time, or 0 once that is long ago.
    length: AtomicU64,
    // After how many waits more that is so.
    soon: AtomicU64,
}

impl Load {
    /// That of a machine of which nothing is known.
    pub(crate) fn new() -> Load {
        Load {
            waits: AtomicU64::new(FIRST_WAITS),
            length: AtomicU64::new(0),
            soon: AtomicU64::new(0),
        }
    }

    /// Whether the machine counts as busy, so that an end is not to yield.
    pub(crate) fn is_high(&self) -> bool {
        self.waits.load(Ordering::SeqCst) > 0
    }

    /// Notes that yields are long.
    pub(crate) fn note_long(&self) {
        let last = self.length.load(Ordering::SeqCst);
        let length = last
            .saturating_mul(GROWTH)
            .max(FEWEST_WAITS)
            .min(MOST_WAITS);
        self.length.store(length, Ordering::SeqCst);
        self.soon.store(length * TIMES_SOON, Ordering::SeqCst);
        self.waits.store(length, Ordering::SeqCst);
    }

    /// Notes that yields are short.
    pub(crate) fn note_quiet(&self) {
        self.waits.store(0, Ordering::SeqCst);
        self.length.store(0, Ordering::SeqCst);
    }

    /// Notes a wait with yields of which nothing shows that they were long.
    pub(crate) fn note_short(&self) {
        if self.length.load(Ordering::SeqCst) == 0 {
            return;
        }
        let soon = self.soon.load(Ordering::SeqCst);
        if soon > 0 {
            self.soon.store(soon - 1, Ordering::SeqCst);
        } else {
            self.length.store(0, Ordering::SeqCst);
        }
    }

    /// Notes a wait without a yield.
    pub(crate) fn note_wait(&self) {
        let waits = self.waits.load(Ordering::SeqCst);
        if waits > 0 {
            self.waits.store(waits - 1, Ordering::SeqCst);
        }
    }
}
