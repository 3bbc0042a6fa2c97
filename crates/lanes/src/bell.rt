//! How an end of a lane sleeps, and how the other end wakes it.
//!
//! An end says that it listens, looks once more at what it waits for and at the stop flag, and
//! sleeps only then, until its bell rings. The other end looks at the bell after it has made what
//! is waited for. All steps are in one order, as each is `SeqCst`: so either the first end sees at
//! its last look what was made, or the other one sees that it listens.
//!
//! Waking a thread takes longer than judging many candidates. So a bell rings for a block only once
//! half a lane or more is ready, or all of a short one. It also rings when the worker sends a
//! single verdict, is about to wait, or closes the lane, and when the run is stopped.

use std::sync::Wait;
use std::sync::atomic::{AtomicU64, Ordering};
use std::time::Duration;

/// The end is awake, and nobody has to ring.
const AWAKE: u64 = 0;

/// The end listens for its bell: it sleeps, or is about to.
const LISTENS: u64 = 1;

/// The longest sleep, in milliseconds. An end looks again after it, since little may wait in a lane
/// whose other end is slow; and a bell that is lost costs no more.
const LONGEST_SLEEP: u64 = 4;

/// How many verdicts or slots are worth waking an end for: to wake it takes as long as judging
/// dozens of candidates.
const WORTH_WAKING: usize = 64;

/// How many slots or verdicts a ring of this capacity has left, at most, once the end that listens
/// is to be woken: half of the ring, or none.
pub(crate) fn left_by_worth_waking(capacity: usize) -> usize {
    let worth = (capacity / 2).max(WORTH_WAKING);
    capacity.saturating_sub(worth)
}

/// What wakes an end of a lane.
#[derive(Drop)]
pub(crate) struct Bell {
    state: AtomicU64,
}

impl Bell {
    /// The bell of an end that is awake.
    pub(crate) fn new() -> Bell {
        Bell {
            state: AtomicU64::new(AWAKE),
        }
    }

    /// Says that the end listens from now on. It has to look once more before it sleeps.
    pub(crate) fn listen(&self) {
        self.state.store(LISTENS, Ordering::SeqCst);
    }

    /// Says that the end is awake.
    pub(crate) fn stop_listening(&self) {
        self.state.store(AWAKE, Ordering::SeqCst);
    }

    /// Whether the end listens, so that it may have to be woken. On a quiet machine nobody writes
    /// the bell, and to ask costs nothing.
    #[inline(always)]
    pub(crate) fn listens(&self) -> bool {
        self.state.load(Ordering::SeqCst) == LISTENS
    }

    /// Sleeps until the bell rings, unless it rang since the end listens. It may also return for no
    /// reason, and does after some milliseconds.
    pub(crate) fn sleep<R: Wait>(&self, rt: &R) {
        self.state
            .park_timeout(rt, LISTENS as u32, Duration::from_millis(LONGEST_SLEEP));
        self.stop_listening();
    }

    /// Wakes the end if it listens. Never blocks.
    #[inline(always)]
    pub(crate) fn ring(&self) {
        if self.listens() {
            self.wake();
        }
    }

    /// Wakes the end, which listens. Never blocks.
    #[inline(never)]
    pub(crate) fn wake(&self) {
        self.stop_listening();
        self.state.wake_one();
    }
}
