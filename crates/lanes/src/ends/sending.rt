//! What the sending end of a lane does.

ghost use Rattle.std.specs.Prelude.{◌≡◌, ◌+◌, ◌<◌, ◌≤◌, ◌↔◌, [], ◌∷◌, ◌++◌};
ghost use Rattle.std.specs.Prelude.{IsTrue, IsOk, OnOk, IfErr, IfSome, true, false, MatchBool};
ghost use Rattle.lanes.specs.Slots.{verdict_in, verdicts_in};

use crate::bell::left_by_worth_waking;
use crate::ends::{Closed, LaneIn};
use crate::pause::Pause;
use crate::signals::{LaneEnd, Signals};
use crate::verdict::{Slot, Verdict};
use crate::wait::Raised;

impl LaneIn {
    /// Sends a verdict. Never blocks.
    ///
    /// # Errors
    /// The verdict is handed back if the lane is full.
    pub fn try_send(&mut self, verdict: Verdict) -> Result<(), Verdict>
        ensures ring { self.new.ring ≡ self.old.ring }
        ensures sent { OnOk result (self.new.sent ≡ self.old.sent ++ verdict ∷ []) }
        ensures room { OnOk result (self.old.room ≤ self.new.room + 1) }
        ensures back { IfErr result (λ v. (v ≡ verdict) × (self.new ≡ self.old)) }
        ensures succeeds { 0 < self.old.room → IsOk result }
    {
        if !self.has_room() {
            return Err(verdict);
        }
        self.send_reserved(verdict);
        Ok(())
    }

    /// Whether the lane has a free slot. It looks at the other end only if none is known. Never
    /// blocks.
    pub fn has_room(&mut self) -> bool
        ensures ring { self.new.ring ≡ self.old.ring }
        ensures sent { self.new.sent ≡ self.old.sent }
        ensures room { self.old.room ≤ self.new.room }
        ensures value { IsTrue result ↔ (0 < self.new.room) }
    {
        // To look for a free slot isn't an event of the core.
        !self.producer.is_full()
    }

    /// How many slots are free, at present. Never blocks.
    pub fn count_room(&mut self) -> usize
        ensures ring { self.new.ring ≡ self.old.ring }
        ensures sent { self.new.sent ≡ self.old.sent }
        ensures room { self.old.room ≤ self.new.room }
        ensures value { result ≡ self.new.room }
    {
        // To look for a free slot isn't an event of the core.
        self.producer.slots()
    }

    /// Sends a verdict into a slot that is known to be free. Never blocks.
    pub fn send_reserved(&mut self, verdict: Verdict)
        requires { 0 < self.old.room }
        ensures ring { self.new.ring ≡ self.old.ring }
        ensures sent { self.new.sent ≡ self.old.sent ++ verdict ∷ [] }
        ensures room { self.old.room ≡ self.new.room + 1 }
    {
        self.send_slot(Slot::of(&verdict));
    }

    /// Sends a verdict, as the lane keeps it, into a slot that is known to be free. Never blocks.
    pub(crate) fn send_slot(&mut self, verdict: Slot)
        requires { 0 < self.old.room }
        ensures ring { self.new.ring ≡ self.old.ring }
        ensures sent { self.new.sent ≡ self.old.sent ++ verdict_in verdict ∷ [] }
        ensures room { self.old.room ≡ self.new.room + 1 }
    {
        // A push is the core's Send.
        self.producer.push_reserved(verdict);
        // The worker may now wait at its gate, for longer than the writer is to sleep.
        self.signals.writer.ring();
    }

    /// Sends all these verdicts, as the lane keeps them, or none if too few slots are free. Never
    /// blocks.
    pub(crate) fn try_send_block(&mut self, verdicts: &[Slot]) -> bool
        ensures ring { self.new.ring ≡ self.old.ring }
        ensures sent { MatchBool result
            (self.new.sent ≡ self.old.sent ++ verdicts_in verdicts.now)
            (self.new.sent ≡ self.old.sent) }
    {
        // To push n verdicts at once is n of the core's Sends, one after another.
        let is_sent = self.producer.push_entire_slice(verdicts).is_ok();
        if self.signals.writer.listens() {
            self.wake_if_worth();
        }
        is_sent
    }

    /// Wakes the writer, which listens, once enough verdicts wait for it.
    #[inline(never)]
    fn wake_if_worth(&mut self)
        ensures ring { self.new.ring ≡ self.old.ring }
        ensures sent { self.new.sent ≡ self.old.sent }
    {
        let most = left_by_worth_waking(self.producer.capacity());
        if self.producer.slots() <= most {
            self.signals.writer.wake();
        }
    }

    /// Begins to wait for room, once the writer is awake.
    pub(crate) fn begin_wait(&self) -> Pause {
        self.signals.writer.ring();
        let capacity = self.producer.capacity();
        Pause::new(
            LaneEnd::Worker,
            capacity,
            self.pace,
            self.habit,
            &self.signals.load,
        )
    }

    /// Ends a wait.
    pub(crate) fn end_wait(&mut self, pause: &Pause)
        ensures { self.new ≡ self.old }
    {
        self.habit = pause.end(&self.signals);
    }

    /// What both ends share beside the ring.
    pub(crate) fn signals(&self) -> &Signals {
        &self.signals
    }

    /// How many candidates the worker is to judge before it sends their verdicts.
    pub(crate) fn ahead(&self) -> usize
        ensures { (1 ≤ result) × (result ≤ 16) }
    {
        self.ahead
    }

    /// Closes the lane, and returns a record of all that was sent. Returns `None` if the other end
    /// was dropped before, since the ring then can't say how it ended. Never blocks.
    pub fn close(self) -> Option<Closed>
        ensures sent { IfSome result (λ c. (c.sent ≡ self.sent) × (c.ring ≡ self.ring)) }
        ensures whole { IfSome result (λ c. c.is_short ≡ false) }
    {
        self.finish(false)
    }

    /// Closes the lane as `close` does, after the stop flag was raised.
    pub(crate) fn close_short(self, _raised: &Raised) -> Option<Closed>
        ensures sent { IfSome result (λ c. (c.sent ≡ self.sent) × (c.ring ≡ self.ring)) }
        ensures short { IfSome result (λ c. c.is_short ≡ true) }
    {
        self.finish(true)
    }

    /// Closes the lane, and wakes the writer.
    fn finish(self, is_short: bool) -> Option<Closed>
        ensures sent { IfSome result (λ c. (c.sent ≡ self.sent) × (c.ring ≡ self.ring)) }
        ensures short { IfSome result (λ c. c.is_short ≡ is_short) }
    {
        let LaneIn {
            producer,
            ahead: _,
            pace: _,
            habit: _,
            signals,
        } = self;
        // Giving up the producing end is the core's Close.
        let finished = producer.finish();
        signals.writer.ring();
        Some(Closed {
            finished: finished?,
            is_short,
        })
    }
}
