//! The core of a run: which events are allowed in which state of the lanes, and what they change.

ghost use Rattle.std.specs.Prelude.{◌≡◌, ◌+◌, ◌<◌, ◌≤◌, ◌^◌, ◌⊎◌, ◌↔◌, ℕ, true, false, IsSome};
ghost use Rattle.std.specs.Prelude.{IfSome};
ghost use Rattle.lanes.specs.declared.model.event.Event.TheVariants.{Send, Take, Close, Stop};

use crate::model::event::Event;
use crate::share::Share;
use cards::{MAX_CANDIDATES, MAX_CAPACITY, MAX_WORKERS};
use std::marker::Model;

/// The counters of a run's lanes, one flag and the turn. Contracts see the machine, with an entry
/// for each worker's lane.
#[derive(Drop)]
pub struct Core {
    count: u64,
    workers: u32,
    capacity: u32,
    sent: [u64; 16],
    taken: [u64; 16],
    closed: [bool; 16],
    stopped: bool,
    turn: u64,
}

impl Model for Core {
    ghost use Rattle.lanes.specs.Machine.{Machine};

    ghost Value = { Machine };

    ghost use Rattle.lanes.specs.internal.Cores.{machine_of, IsCore};

    ghost view = { machine_of };

    ghost invariant = { IsCore };
}

impl Core {
    ghost use Rattle.lanes.specs.Machine.{new_machine, sent_of, taken_of, is_closed, share_of};
    ghost use Rattle.lanes.specs.Machine.{is_allowed, after, changes_made};
    ghost use Rattle.lanes.specs.Machine.{next_lane as lane_in_turn};
    ghost use Rattle.lanes.specs.Runs.{IsSameRun};
    ghost use Rattle.lanes.specs.Sound.{IsSound};

    /// Returns the core of a run over at most 2^40 candidates, by 1 to 16 workers, with lanes of 1
    /// to 4,096 items: nothing was sent or taken yet. It returns `None` if a number is out of its
    /// range.
    pub fn new(count: u64, workers: u32, capacity: u32) -> Option<Core>
        ensures range { IsSome result
            ↔ ((count ≤ 2 ^ 40) × (1 ≤ workers) × (workers ≤ 16)
            × (1 ≤ capacity) × (capacity ≤ 4096)) }
        ensures start { IfSome result (λ c. c ≡ new_machine count workers capacity) }
    {
        let in_range = count <= MAX_CANDIDATES
            && workers <= MAX_WORKERS
            && capacity <= MAX_CAPACITY;
        if !in_range || workers == 0 || capacity == 0 {
            return None;
        }
        Some(Core {
            count,
            workers,
            capacity,
            sent: [0; 16],
            taken: [0; 16],
            closed: [false; 16],
            stopped: false,
            turn: 0,
        })
    }

    /// Returns whether the event is allowed. If it is, it happens; if not, nothing changes.
    pub fn step(&mut self, event: Event) -> bool
        ensures allowed { result ≡ is_allowed self.old event }
        ensures after { self.new ≡ after self.old event }
        ensures one_change { (self.new ≡ self.old)
            ⊎ (changes_made self.new ≡ changes_made self.old + 1) }
        ensures closed_stays { (w : ℕ) → is_closed self.old w ≡ true → is_closed self.new w ≡ true }
        ensures same_run { IsSameRun self.old self.new }
        ensures sound { IsSound self.new }
    {
        match event {
            Event::Send(worker) => self.send(worker),
            Event::Take => self.take(),
            Event::Close(worker) => self.close(worker),
            Event::Stop => self.stop(),
        }
    }

    /// How many items worker `worker` sent.
    pub fn sent(&self, worker: u32) -> u64
        requires { worker < self.now.workers }
        ensures { result ≡ sent_of self.now worker }
    {
        self.sent[worker as usize]
    }

    /// How many items were taken from the lane of worker `worker`.
    pub fn taken(&self, worker: u32) -> u64
        requires { worker < self.now.workers }
        ensures { result ≡ taken_of self.now worker }
    {
        self.taken[worker as usize]
    }

    /// Whether the lane of worker `worker` is closed.
    pub fn closed(&self, worker: u32) -> bool
        requires { worker < self.now.workers }
        ensures { result ≡ is_closed self.now worker }
    {
        self.closed[worker as usize]
    }

    /// Whether the run was stopped.
    pub fn stopped(&self) -> bool
        ensures { result ≡ self.now.stopped }
    {
        self.stopped
    }

    /// How many items were taken in all.
    pub fn turn(&self) -> u64
        ensures value { result ≡ self.now.turn }
        ensures sound { IsSound self.now }
    {
        self.turn
    }

    fn send(&mut self, worker: u32) -> bool
        ensures allowed { result ≡ is_allowed self.old (Send worker) }
        ensures after { self.new ≡ after self.old (Send worker) }
        ensures sound { IsSound self.old }
        ensures room { 1 ≤ self.old.capacity }
    {
        if !self.may_send(worker) {
            return false;
        }
        self.sent[worker as usize] += 1;
        true
    }

    fn may_send(&self, worker: u32) -> bool
        ensures { result ≡ is_allowed self.now (Send worker) }
    {
        if worker >= self.workers {
            return false;
        }
        let lane = worker as usize;
        let (sent, taken) = (self.sent[lane], self.taken[lane]);
        if self.closed[lane] || sent - taken >= u64::from(self.capacity) {
            return false;
        }
        sent < self.share_len(worker)
    }

    fn take(&mut self) -> bool
        ensures allowed { result ≡ is_allowed self.old Take }
        ensures after { self.new ≡ after self.old Take }
        ensures sound { IsSound self.old }
        ensures room { 1 ≤ self.old.capacity }
    {
        if !self.may_take() {
            return false;
        }
        let lane = self.next_lane();
        self.taken[lane] += 1;
        self.turn += 1;
        true
    }

    fn may_take(&self) -> bool
        ensures { result ≡ is_allowed self.now Take }
    {
        let lane = self.next_lane();
        !self.stopped && self.taken[lane] < self.sent[lane]
    }

    fn close(&mut self, worker: u32) -> bool
        ensures allowed { result ≡ is_allowed self.old (Close worker) }
        ensures after { self.new ≡ after self.old (Close worker) }
        ensures sound { IsSound self.old }
        ensures room { 1 ≤ self.old.capacity }
    {
        if !self.may_close(worker) {
            return false;
        }
        self.closed[worker as usize] = true;
        true
    }

    fn may_close(&self, worker: u32) -> bool
        ensures { result ≡ is_allowed self.now (Close worker) }
    {
        if worker >= self.workers {
            return false;
        }
        let lane = worker as usize;
        if self.closed[lane] {
            return false;
        }
        self.stopped || self.sent[lane] == self.share_len(worker)
    }

    fn stop(&mut self) -> bool
        ensures allowed { result ≡ true }
        ensures after { self.new ≡ after self.old Stop }
        ensures sound { IsSound self.old }
        ensures room { 1 ≤ self.old.capacity }
    {
        self.stopped = true;
        true
    }

    /// The lane whose turn it is.
    fn next_lane(&self) -> usize
        ensures value { result ≡ lane_in_turn self.now }
        ensures below { result < self.now.workers }
    {
        (self.turn % u64::from(self.workers)) as usize
    }

    /// How many items the worker owes.
    fn share_len(&self, worker: u32) -> u64
        requires { worker < self.now.workers }
        ensures { result ≡ share_of self.now worker }
    {
        let share = Share {
            first: 0,
            count: self.count,
            workers: self.workers,
            worker,
        };
        share.len()
    }
}
