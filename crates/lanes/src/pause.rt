//! The pauses of an end of a lane that waits: it spins, and then yields or sleeps.
//!
//! A yield lets other threads run. Where nothing else wants the core, it takes less than a
//! microsecond. Where other work waits for it, it gives a whole time slice away, three milliseconds
//! or more. No clock can be read with the handles of a run. But the other end soon waits too, and
//! counts its spins (`signals.rt`): after a long yield it has spun for long.
//!
//! Two long yields with few others between them show that the machine is busy (`load.rt`). From
//! then on an end doesn't yield: it spins, and then sleeps until the other end wakes it. To be
//! woken takes as long as dozens of candidates even if a core is free. So an end that had to sleep
//! spins half as long the next time, and one that hadn't twice as long. But two ends that spin for
//! less time than it takes to be woken send each other to sleep for ever, on a quiet machine too:
//! so after some waits with a sleep an end spins as long as it ever does. And where the machine is
//! a virtual one, whose host is busy, to be woken takes far longer than to yield: so after more
//! such waits an end yields in one, and goes on so if that shows that the machine isn't busy.

ghost use Rattle.std.specs.Prelude.{◌≡◌, ◌<◌, true};

use crate::load::Load;
use crate::signals::{LaneEnd, Signals};
use crate::wait::Pace;
use std::sync::Wait;
use std::{hint, thread};

/// The fewest spins between two looks, for a lane of one verdict.
const MIN_SPINS: usize = 4;

/// The most spins between two looks: some microseconds, so that a flag that goes up is soon seen.
const MAX_SPINS: usize = 4096;

/// How many spins a verdict of the other end takes, about, so that a pause lasts about half a
/// lane's content.
const SPINS_A_VERDICT: usize = 2;

/// A spinning end goes on with a lane's capacity divided by this: with half of it, one end works
/// while the other does.
const PARTS_OF_A_LANE: usize = 2;

/// How many spins without progress an end waits before it yields: some microseconds.
const PATIENCE: usize = 640;

/// A yield took long if the other end waited meanwhile for this many spins. That is less than
/// its patience, since it then yields too.
const LONG_YIELD: u64 = 384;

/// A long yield shows nothing once this many others came after it.
const YIELDS_BETWEEN: u32 = 8;

/// After this many yields in one wait, which take some milliseconds, its end sleeps.
const YIELDS_IN_VAIN: u32 = 8192;

/// The fewest spins without progress before an end of a busy machine sleeps.
const LEAST_PATIENCE: usize = 64;

/// The most: longer than it takes to be woken on a quiet machine.
const MOST_PATIENCE: usize = 16_384;

/// After this many waits with a sleep an end spins that long once: the fewest, and the most.
const FEWEST_BEFORE_SPINS: u32 = 2;

const MOST_BEFORE_SPINS: u32 = 64;

/// After this many it yields in one wait, in place of sleeping: the fewest, and the most.
const FEWEST_BEFORE_YIELDS: u32 = 1024;

const MOST_BEFORE_YIELDS: u32 = 16_384;

/// This many yields in that wait show that the machine isn't busy: else the other end would have
/// had its turn during the first ones.
const SHORT_YIELDS: u32 = 16;

/// When an end that sleeps tries something else: after a number of waits with a sleep, and after
/// twice as many if that was in vain.
#[derive(Clone, Copy, Drop)]
struct Trial {
    // After how many waits with a sleep it is due.
    left: u32,
    // After how many the next one is, if this one is in vain.
    between: u32,
}

impl Trial {
    /// One that is due after this many waits with a sleep.
    fn after(sleeps: u32) -> Trial {
        Trial {
            left: sleeps,
            between: sleeps,
        }
    }

    fn is_due(self) -> bool {
        self.left == 0
    }

    /// One wait with a sleep later.
    fn sooner(self) -> Trial {
        Trial {
            left: self.left.saturating_sub(1),
            ..self
        }
    }

    /// After one that was in vain.
    fn again(self, most: u32) -> Trial {
        Trial {
            left: self.between,
            between: self.between.saturating_mul(2).min(most),
        }
    }
}

/// What an end of a lane keeps from one wait to the next.
#[derive(Clone, Copy, Drop)]
pub(crate) struct Habit {
    // How many spins without progress it waits before it sleeps, while the machine is busy.
    patience: usize,
    // When it spins as long as it ever does.
    spins: Trial,
    // When it yields.
    yields: Trial,
    // After how many yields more the last long one shows nothing.
    yields_left: u32,
}

impl Habit {
    /// That of an end that never waited.
    pub(crate) fn new() -> Habit {
        Habit {
            patience: MOST_PATIENCE,
            spins: Trial::after(FEWEST_BEFORE_SPINS),
            yields: Trial::after(FEWEST_BEFORE_YIELDS),
            yields_left: 0,
        }
    }

    /// How many spins without progress the end waits the next time before it sleeps.
    fn patience(self) -> usize {
        if self.spins.is_due() {
            MOST_PATIENCE
        } else {
            self.patience
        }
    }

    /// The habit after a wait in which the end slept.
    fn after_sleep(self) -> Habit {
        let spins = if self.spins.is_due() {
            self.spins.again(MOST_BEFORE_SPINS)
        } else {
            self.spins.sooner()
        };
        Habit {
            patience: (self.patience / 2).max(LEAST_PATIENCE),
            spins,
            yields: self.yields.sooner(),
            ..self
        }
    }

    /// The habit after a wait in which spins, or yields of a machine that isn't busy, were enough.
    fn after_spins(self) -> Habit {
        let spins = if self.spins.is_due() {
            Trial {
                between: FEWEST_BEFORE_SPINS,
                ..self.spins
            }
        } else {
            self.spins
        };
        Habit {
            patience: self.patience.saturating_mul(2).min(MOST_PATIENCE),
            spins,
            ..self
        }
    }

    /// The habit after a wait in which the end yielded to find out whether the machine is busy.
    fn after_yields(self, is_busy: bool) -> Habit {
        let yields = if is_busy {
            self.yields.again(MOST_BEFORE_YIELDS)
        } else {
            Trial::after(FEWEST_BEFORE_YIELDS)
        };
        Habit { yields, ..self }
    }
}

/// How far an end that waits has come.
#[derive(Clone, Copy, Drop)]
enum WaitStage {
    /// It spins between two looks.
    Spins,
    /// It yields between two looks.
    Yields,
    /// It said that it listens for its bell, and looks once more.
    Listens,
    /// It slept.
    Slept,
}

/// The pauses of an end that waits. One that spins does so again as long as the other end makes
/// progress, and yields or sleeps once that stopped and its patience is used up.
#[derive(Drop)]
pub(crate) struct Pause {
    side: LaneEnd,
    pace: Pace,
    spins: usize,
    enough: usize,
    seen: usize,
    patience: usize,
    yields: u32,
    /// Whether it yields although the machine counts as busy.
    tries: bool,
    stage: WaitStage,
    habit: Habit,
}

impl Pause {
    /// The pauses at a ring of this capacity, of the end on this side.
    pub(crate) fn new(
        side: LaneEnd,
        capacity: usize,
        pace: Pace,
        habit: Habit,
        load: &Load,
    ) -> Pause {
        let is_busy = load.is_high();
        let tries = is_busy && habit.yields.is_due();
        let (enough, patience) = match pace {
            Pace::Sleeps => (1, 0),
            Pace::Spins if tries => (capacity / PARTS_OF_A_LANE, 0),
            Pace::Spins if is_busy => (capacity / PARTS_OF_A_LANE, habit.patience()),
            Pace::Spins => (capacity / PARTS_OF_A_LANE, PATIENCE),
        };
        Pause {
            side,
            pace,
            spins: capacity
                .saturating_mul(SPINS_A_VERDICT)
                .max(MIN_SPINS)
                .min(MAX_SPINS),
            enough,
            seen: 0,
            patience,
            yields: 0,
            tries,
            stage: WaitStage::Spins,
            habit,
        }
    }

    /// Waits a little, or says that the end listens for its bell. After that a look is due, and
    /// then the end sleeps.
    pub(crate) fn wait<R: Wait>(&mut self, rt: &R, signals: &Signals) {
        if self.patience > 0 {
            for _ in 0..self.spins {
                hint::spin_loop();
            }
            signals.count_spins(self.side, self.spins as u64);
            return;
        }
        self.stage = match self.stage {
            WaitStage::Listens => {
                signals.bell(self.side).sleep(rt);
                WaitStage::Slept
            }
            WaitStage::Spins | WaitStage::Yields | WaitStage::Slept => self.yield_or_listen(
                signals,
            ),
        };
    }

    /// Lets other threads run, or says that the end listens for its bell.
    fn yield_or_listen(&mut self, signals: &Signals) -> WaitStage {
        let sleeps = matches!(self.pace, Pace::Sleeps) || self.yields >= YIELDS_IN_VAIN;
        if sleeps || (signals.load.is_high() && !self.tries) {
            signals.bell(self.side).listen();
            return WaitStage::Listens;
        }
        let before = signals.spins(self.side.other());
        thread::yield_now();
        let meanwhile = signals.spins(self.side.other()).wrapping_sub(before);
        self.yields = self.yields.saturating_add(1);
        if self.tries && self.yields == SHORT_YIELDS {
            signals.load.note_quiet();
        }
        self.note_yield(&signals.load, meanwhile >= LONG_YIELD);
        WaitStage::Yields
    }

    /// Notes a yield that took long, or not.
    fn note_yield(&mut self, load: &Load, is_long: bool) {
        let left = self.habit.yields_left;
        self.habit.yields_left = match (is_long, left) {
            (true, 0) => YIELDS_BETWEEN,
            (true, _) => {
                load.note_long();
                0
            }
            (false, _) => left.saturating_sub(1),
        };
    }

    /// Whether to go on with this many verdicts or slots: with enough, if no more come, or once the
    /// end was woken for them.
    pub(crate) fn is_enough(&mut self, count: usize) -> bool
        ensures { result ≡ true → 0 < count }
    {
        let stands_still = count == self.seen;
        self.seen = count;
        if stands_still {
            self.patience = self.patience.saturating_sub(self.spins);
        }
        let is_all = stands_still || matches!(self.stage, WaitStage::Slept);
        count > 0 && (is_all || count >= self.enough)
    }

    /// Ends the wait. Returns what its end keeps for the next one.
    pub(crate) fn end(&self, signals: &Signals) -> Habit {
        match self.stage {
            WaitStage::Yields => signals.load.note_short(),
            WaitStage::Listens => {
                signals.bell(self.side).stop_listening();
                signals.load.note_wait();
            }
            WaitStage::Spins | WaitStage::Slept => signals.load.note_wait(),
        }
        match self.stage {
            WaitStage::Slept => self.habit.after_sleep(),
            _ if self.tries => self.habit.after_yields(signals.load.is_high()),
            _ => self.habit.after_spins(),
        }
    }
}
