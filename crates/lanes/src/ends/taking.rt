//! What the end of a lane does that the writer takes from.

ghost use Rattle.std.specs.Prelude.{◌≡◌, ◌+◌, ◌<◌, ◌≤◌, ◌↔◌, [], ◌∷◌, ◌++◌, length};
ghost use Rattle.std.specs.Prelude.{IsTrue, IsSome, IfSome, IfNone, true, false};
ghost use Rattle.lanes.specs.Slots.{verdict_in};

use crate::bell::left_by_worth_waking;
use crate::ends::{Closed, LaneOut};
use crate::pause::Pause;
use crate::signals::{LaneEnd, Signals};
use crate::verdict::{Slot, Verdict};

impl LaneOut {
    ghost use Rattle.lanes.specs.Ends.{TakesOfLeft, TakesRejected};

    /// Takes the next verdict, or returns `None` if none waits. Never blocks. Once the lane
    /// is settled, it returns what is left, one after another, and then `None`.
    pub fn take(&mut self) -> Option<Verdict>
        ensures ring { self.new.ring ≡ self.old.ring }
        ensures settled { self.new.settled ≡ self.old.settled }
        ensures some { IfSome result (λ v. self.new.taken ≡ self.old.taken ++ v ∷ []) }
        ensures none { IfNone result (self.new ≡ self.old) }
        ensures known { IfSome result (λ _. self.old.known ≤ self.new.known + 1) }
        ensures succeeds { 0 < self.old.known → IsSome result }
        ensures left { IfSome result (λ v. TakesOfLeft self.old v self.new) }
        ensures all_left { self.old.settled ≡ true → (IsSome result ↔ (0 < length self.old.left)) }
    {
        if !self.has_verdict() {
            return None;
        }
        Some(self.take_known())
    }

    /// Whether a verdict waits to be taken. It looks at the other end only if none is known. Never
    /// blocks.
    #[inline(always)]
    pub fn has_verdict(&mut self) -> bool
        ensures same { (self.new.ring ≡ self.old.ring) × (self.new.settled ≡ self.old.settled) }
        ensures taken { self.new.taken ≡ self.old.taken }
        ensures left { self.new.left ≡ self.old.left }
        ensures known { self.old.known ≤ self.new.known }
        ensures some { result ≡ true → 0 < self.new.known }
        ensures none { result ≡ false → self.new ≡ self.old }
        ensures none_known { result ≡ false → self.new.known ≡ 0 }
        ensures all_left { self.old.settled ≡ true → (IsTrue result ↔ (0 < length self.old.left)) }
    {
        // To look for a verdict isn't an event of the core.
        if !self.block.is_empty() {
            return true;
        }
        if self.settled {
            return self.consumer.cached_slots() > 0;
        }
        self.block.fill(&mut self.consumer);
        if self.signals.worker.listens() {
            self.wake_if_worth();
        }
        !self.block.is_empty() || !self.consumer.is_empty()
    }

    /// Wakes the worker, which listens, once so much room waits for it that this is worth it.
    #[inline(never)]
    fn wake_if_worth(&self) {
        let most = left_by_worth_waking(self.consumer.capacity());
        if self.consumer.cached_slots() <= most {
            self.signals.worker.wake();
        }
    }

    /// How many verdicts wait, at present. Never blocks.
    pub fn count_verdicts(&mut self) -> usize
        ensures same { (self.new.ring ≡ self.old.ring) × (self.new.settled ≡ self.old.settled) }
        ensures taken { self.new.taken ≡ self.old.taken }
        ensures left { self.new.left ≡ self.old.left }
        ensures known { self.old.known ≤ self.new.known }
        ensures value { result ≡ self.new.known }
        ensures all_left { self.old.settled ≡ true → result ≡ length self.old.left }
    {
        // To look for a verdict isn't an event of the core.
        if self.settled {
            return self.block.len() + self.consumer.cached_slots();
        }
        self.block.len() + self.consumer.slots()
    }

    /// Takes the next verdict, which is known to wait. Never blocks.
    pub fn take_known(&mut self) -> Verdict
        requires { 0 < self.old.known }
        ensures same { (self.new.ring ≡ self.old.ring) × (self.new.settled ≡ self.old.settled) }
        ensures taken { self.new.taken ≡ self.old.taken ++ result ∷ [] }
        ensures known { self.old.known ≡ self.new.known + 1 }
        ensures left { TakesOfLeft self.old result self.new }
    {
        self.take_slot().verdict()
    }

    /// Takes the next verdict, which is known to wait, as the lane keeps it. Never blocks.
    #[inline(always)]
    pub fn take_slot(&mut self) -> Slot
        requires { 0 < self.old.known }
        ensures same { (self.new.ring ≡ self.old.ring) × (self.new.settled ≡ self.old.settled) }
        ensures taken { self.new.taken ≡ self.old.taken ++ verdict_in result ∷ [] }
        ensures known { self.old.known ≡ self.new.known + 1 }
        ensures left { TakesOfLeft self.old (verdict_in result) self.new }
    {
        // This is the core's Take while the run goes on, and no event afterwards.
        if self.block.is_empty() {
            return self.consumer.pop_known();
        }
        self.block.take_first()
    }

    /// Takes the next verdict if it is out of the ring already and its candidate was rejected, and
    /// returns whether it did. It doesn't look at the other end. Never blocks.
    #[inline(always)]
    pub fn take_rejected(&mut self) -> bool
        ensures same { (self.new.ring ≡ self.old.ring) × (self.new.settled ≡ self.old.settled) }
        ensures taken { result ≡ true → TakesRejected self.old self.new }
        ensures kept { result ≡ false → self.new ≡ self.old }
    {
        // This is the core's Take while the run goes on, and no event afterwards.
        self.block.take_rejected()
    }

    /// Settles the lane by what its closed end left, and returns how many verdicts are left to
    /// take. Never blocks.
    pub fn settle(&mut self, closed: &mut Closed) -> u64
        requires { self.old.ring ≡ closed.old.ring }
        ensures closed { closed.new ≡ closed.old }
        ensures ring { self.new.ring ≡ self.old.ring }
        ensures taken { self.new.taken ≡ self.old.taken }
        ensures settled { self.new.settled ≡ true }
        ensures count { result ≡ length self.new.left }
        ensures known { self.new.known ≡ length self.new.left }
        ensures fifo { self.new.taken ++ self.new.left ≡ closed.old.sent }
    {
        self.settled = true;
        // Settling isn't an event of the core.
        (self.block.len() + self.consumer.slots_after(&mut closed.finished)) as u64
    }

    /// Whether the lane is settled. Then the verdicts known to wait are those that are left.
    pub fn is_settled(&self) -> bool
        ensures value { result ≡ self.now.settled }
        ensures known { result ≡ true → self.now.known ≡ length self.now.left }
    {
        self.settled
    }

    /// Wakes the worker if it sleeps: once the stop flag is raised, so that it is seen. Never
    /// blocks.
    pub fn wake_worker(&self) {
        self.signals.worker.ring();
    }

    /// Begins to wait for a verdict.
    pub(crate) fn begin_wait(&self) -> Pause {
        let capacity = self.consumer.capacity();
        Pause::new(
            LaneEnd::Writer,
            capacity,
            self.pace,
            self.habit,
            &self.signals.load,
        )
    }

    /// Ends a wait.
    pub(crate) fn end_wait(&mut self, pause: &Pause)
        ensures { self.new ≡ self.old }
    {
        self.habit = pause.end(&self.signals);
    }

    /// What both ends share beside the ring.
    pub(crate) fn signals(&self) -> &Signals {
        &self.signals
    }
}
