//! How an end of a lane waits for the other one. The ring keeps the verdicts in order, and each end
//! knows some of it from its last look at the other:
//!
//! ```text
//! worker  -- Send -->  | v | v | v |   |   |  -- Take -->  writer
//!                        known to the   known to the
//!                        writer         worker as free
//! ```
//!
//! While an end knows of a slot or a verdict, it goes on and looks at nobody. When it knows of
//! none, it looks at the other end's counter, whose cache line then moves between the cores. So it
//! does not look at once for each verdict, but pauses between two looks (`pause.rt`), and goes on
//! with about half a lane's content.
//!
//! Each end waits in one loop: look at the stop flag, pause, count. The loop ends once there is
//! enough, or less while the other end makes no progress, or when the flag is up.

ghost use Rattle.std.specs.Prelude.{◌≡◌, ◌+◌, ◌<◌, ◌≤◌, ◌↔◌, true, false};
ghost use Rattle.lanes.specs.declared.wait.Pace.TheVariants.{Spins};

use crate::ends::{LaneIn, LaneOut};
use std::sync::Wait;
use std::sync::atomic::{AtomicBool, Ordering};

/// How an end of a lane waits for the other one.
#[derive(Clone, Copy, Drop)]
pub enum Pace {
    /// It spins for a while before it yields or sleeps: the other end has a core of its own.
    Spins,
    /// It sleeps at once: there are more threads than cores.
    Sleeps,
}

impl Pace {
    /// The pace of a run with this many workers on this many cores: its ends sleep at once unless
    /// there is a core for each worker and one for the writer.
    pub fn of(workers: u32, cores: usize) -> Pace
        ensures { (result ≡ Spins) ↔ (workers + 1 ≤ cores) }
    {
        if (workers as usize) < cores {
            Pace::Spins
        } else {
            Pace::Sleeps
        }
    }
}

/// Evidence that the stop flag was raised: only `raise` makes it.
#[derive(Clone, Copy)]
pub(crate) struct Raised(());

/// Raises the stop flag, which ends waiting on both sides.
pub(crate) fn raise(stop: &AtomicBool) -> Raised {
    // A store to the stop flag is the core's Stop.
    stop.store(true, Ordering::SeqCst);
    Raised(())
}

impl LaneIn {
    /// Waits until a slot is free. Returns true once one is, and false if the stop flag is up.
    pub(crate) fn wait_for_room<R: Wait>(&mut self, rt: &R, stop: &AtomicBool) -> bool
        ensures ring { self.new.ring ≡ self.old.ring }
        ensures sent { self.new.sent ≡ self.old.sent }
        ensures room { result ≡ true → 0 < self.new.room }
    {
        let mut pause = self.begin_wait();
        for _ in rt.forever() {
            // A load of the stop flag isn't an event of the core.
            if stop.load(Ordering::SeqCst) {
                return false;
            }
            pause.wait(rt, self.signals());
            if pause.is_enough(self.count_room()) {
                self.end_wait(&pause);
                return true;
            }
        }
        unreachable!()
    }
}

impl LaneOut {
    /// Blocks until a verdict can be taken. Returns true once one can, and false if the stop flag
    /// is up and none waits. On a settled lane with nothing left it blocks until the flag is up.
    #[inline(always)]
    pub fn wait_for_verdict<R: Wait>(&mut self, rt: &R, stop: &AtomicBool) -> bool
        ensures same { (self.new.ring ≡ self.old.ring) × (self.new.settled ≡ self.old.settled) }
        ensures taken { self.new.taken ≡ self.old.taken }
        ensures left { self.new.left ≡ self.old.left }
        ensures known { self.old.known ≤ self.new.known }
        ensures some { result ≡ true → 0 < self.new.known }
        ensures none { result ≡ false → self.new.known ≡ 0 }
    {
        self.has_verdict() || self.pause_for_verdict(rt, stop)
    }

    /// As `wait_for_verdict`, when no verdict is known yet.
    #[inline(never)]
    fn pause_for_verdict<R: Wait>(&mut self, rt: &R, stop: &AtomicBool) -> bool
        ensures same { (self.new.ring ≡ self.old.ring) × (self.new.settled ≡ self.old.settled) }
        ensures taken { self.new.taken ≡ self.old.taken }
        ensures left { self.new.left ≡ self.old.left }
        ensures known { self.old.known ≤ self.new.known }
        ensures some { result ≡ true → 0 < self.new.known }
        ensures none { result ≡ false → self.new.known ≡ 0 }
    {
        let mut pause = self.begin_wait();
        for _ in rt.forever() {
            // A load of the stop flag isn't an event of the core.
            if stop.load(Ordering::SeqCst) {
                // The worker may have sent since the last look.
                return self.has_verdict();
            }
            pause.wait(rt, self.signals());
            if pause.is_enough(self.count_verdicts()) {
                self.end_wait(&pause);
                return true;
            }
        }
        unreachable!()
    }
}
