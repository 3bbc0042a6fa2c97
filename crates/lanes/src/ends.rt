//! The two ends of a lane, which is a bounded ring between one worker and the writer: what they
//! have, and how they are made.

ghost use Rattle.std.specs.Prelude.{◌≡◌, ◌+◌, ◌*◌, ◌/◌, ◌<◌, ◌≤◌, ◌↔◌, ◌⊎◌, min, [], false};
ghost use Rattle.std.specs.Prelude.{IsErrOf, IfOk};
ghost use Rattle.lanes.specs.declared.ends.LaneError.TheVariants.{Capacity, Memory};
ghost use Rattle.lanes.specs.declared.wait.Pace.TheVariants.{Spins, Sleeps};

mod sending;
mod taking;

use crate::pause::Habit;
use crate::signals::Signals;
use crate::verdict::{Block, MAX_BLOCK, Slot};
use crate::wait::Pace;
use cards::MAX_CAPACITY;
use rtrb::{Consumer, Finished, Producer, RingBuffer};
use std::alloc::Global;
use std::marker::Model;
use std::sync::Arc;
use thiserror::Error;

/// A block is the capacity divided by this: two blocks and the ring between them share it.
const PARTS_WITH_A_BLOCK: usize = 4;

/// The same where the ends sleep at once: each sleep is for nearly a whole ring, and there is no
/// cache line to be spared.
const PARTS_OF_SLEEPERS: usize = 8;

/// Why there is no lane.
#[derive(Debug, Drop, Error)]
pub enum LaneError {
    /// The capacity is not 1 to 4,096.
    #[error("a lane holds 1 to 4096 verdicts")]
    Capacity,
    /// There was no memory for it.
    #[error("out of memory")]
    Memory,
}

/// The end that a worker sends into. Contracts see all that was sent so far, how many slots are
/// known to be free, and which ring it is.
pub struct LaneIn {
    producer: Producer<Slot>,
    // How many candidates the worker judges before it sends their verdicts.
    ahead: usize,
    pace: Pace,
    habit: Habit,
    signals: Arc<Signals, Global>,
}

impl Model for LaneIn {
    ghost use Rattle.std.specs.Prelude.{◌≤◌};
    ghost use Rattle.rtrb.specs.Ring.{sent, known_free};
    ghost use Rattle.lanes.specs.Ends.{InView};
    ghost use Rattle.lanes.specs.Slots.{verdicts_in};
    ghost use Rattle.lanes.specs.internal.Rings.{ring_of_producer};

    ghost Value = { InView };

    ghost view = { λ l. record {
      sent = verdicts_in (sent l.producer);
      room = known_free l.producer;
      ring = ring_of_producer l.producer;
    } };

    ghost invariant = { λ l. (1 ≤ l.ahead) × (l.ahead ≤ 16) };
}

/// What a closed sending end leaves. Contracts see all that was ever sent, which ring it is, and
/// whether the end was closed short: by a worker that had raised the stop flag.
#[derive(Drop)]
pub struct Closed {
    finished: Finished<Slot>,
    is_short: bool,
}

impl Model for Closed {
    ghost use Rattle.rtrb.specs.Ring.{all_sent};
    ghost use Rattle.lanes.specs.Ends.{ClosedView};
    ghost use Rattle.lanes.specs.Slots.{verdicts_in};
    ghost use Rattle.lanes.specs.internal.Rings.{ring_of_finished};

    ghost Value = { ClosedView };

    ghost view = { λ c. record {
      sent = verdicts_in (all_sent c.finished);
      ring = ring_of_finished c.finished;
      is_short = c.is_short;
    } };
}

/// The end that the writer takes from. Contracts see all that was taken so far, how many verdicts
/// are known to wait, which ring it is, whether it is settled, and from then on what is left.
pub struct LaneOut {
    consumer: Consumer<Slot>,
    block: Block,
    settled: bool,
    pace: Pace,
    habit: Habit,
    signals: Arc<Signals, Global>,
}

impl Model for LaneOut {
    ghost use Rattle.std.specs.Prelude.{◌≡◌, ◌++◌, cond, [], length};
    ghost use Rattle.rtrb.specs.Ring.{received, known_items};
    ghost use Rattle.lanes.specs.Slots.{verdicts_in};
    ghost use Rattle.lanes.specs.Views.{OutView};
    ghost use Rattle.lanes.specs.internal.Rings.{ring_of_consumer, without_last};

    ghost Value = { OutView };

    // The block's verdicts are out of the ring and not yet taken.
    ghost view = { λ l. record {
      taken = verdicts_in (without_last (length l.block) (received l.consumer));
      known = length (l.block ++ known_items l.consumer);
      ring = ring_of_consumer l.consumer;
      settled = l.settled;
      left = cond l.settled (verdicts_in (l.block ++ known_items l.consumer)) [];
    } };

    ghost invariant = { λ l. received l.consumer
        ≡ without_last (length l.block) (received l.consumer) ++ l.block };
}

/// Makes a lane that holds at most `capacity` verdicts, and returns its two ends.
///
/// # Errors
/// `Capacity` unless that is 1 to 4,096; `Memory` if an allocation failed.
pub fn lane(alloc: Global, capacity: u32) -> Result<(LaneIn, LaneOut), LaneError>
    ensures capacity { IsErrOf result Capacity ↔ ((capacity ≡ 0) ⊎ (4096 < capacity)) }
    ensures ring { IfOk result (λ r. r.0.ring ≡ r.1.ring) }
    ensures sender { IfOk result (λ r. (r.0.sent ≡ []) × (r.0.room ≡ capacity)) }
    ensures taker { IfOk result (λ r. (r.1.taken ≡ []) × (r.1.settled ≡ false)) }
{
    ends_with_blocks(alloc, capacity, 0, Pace::Spins)
}

/// Makes a lane as `lane` does, whose ends wait at this pace. They handle blocks of verdicts: the
/// worker judges a block of candidates before it sends their verdicts, and the writer takes a block
/// out of the ring at once.
///
/// A block is a quarter of the capacity, at most 16 verdicts, and none below a capacity of 4; at a
/// pace that sleeps an eighth, at most 8 verdicts, and none below 8. The ring is smaller by the two
/// blocks, so that a worker with blocks is never more than `capacity` candidates ahead of the
/// writer.
///
/// # Errors
/// Those of `lane`.
pub fn lane_in_blocks(
    alloc: Global,
    capacity: u32,
    pace: Pace,
) -> Result<(LaneIn, LaneOut), LaneError>
    ensures capacity { IsErrOf result Capacity ↔ ((capacity ≡ 0) ⊎ (4096 < capacity)) }
    ensures ring { IfOk result (λ r. r.0.ring ≡ r.1.ring) }
    ensures sender { IfOk result (λ r. r.0.sent ≡ []) }
    ensures spins { pace ≡ Spins → IfOk result (λ r.
        r.0.room + 2 * min 16 (capacity / 4) ≡ capacity) }
    ensures sleeps { pace ≡ Sleeps → IfOk result (λ r.
        r.0.room + 2 * min 8 (capacity / 8) ≡ capacity) }
    ensures taker { IfOk result (λ r. (r.1.taken ≡ []) × (r.1.settled ≡ false)) }
{
    let whole = capacity as usize;
    let block = match pace {
        Pace::Spins => (whole / PARTS_WITH_A_BLOCK).min(MAX_BLOCK),
        Pace::Sleeps => (whole / PARTS_OF_SLEEPERS).min(MAX_BLOCK / 2),
    };
    ends_with_blocks(alloc, capacity, block, pace)
}

/// The two ends of a lane, each with blocks of this many verdicts, and the ring with the rest of
/// the capacity.
fn ends_with_blocks(
    alloc: Global,
    capacity: u32,
    block: usize,
    pace: Pace,
) -> Result<(LaneIn, LaneOut), LaneError>
    requires { (block ≤ 16) × (2 * block ≤ capacity) }
    ensures capacity { IsErrOf result Capacity ↔ ((capacity ≡ 0) ⊎ (4096 < capacity)) }
    ensures ring { IfOk result (λ r. r.0.ring ≡ r.1.ring) }
    ensures sender { IfOk result (λ r. (r.0.sent ≡ [])
        × (r.0.room + 2 * block ≡ capacity)) }
    ensures taker { IfOk result (λ r. (r.1.taken ≡ []) × (r.1.settled ≡ false)) }
{
    if capacity == 0 || capacity > MAX_CAPACITY {
        return Err(LaneError::Capacity);
    }
    let slots = capacity as usize - 2 * block;
    // Making a ring isn't an event of the run's core.
    let Ok((producer, consumer)) = RingBuffer::new(alloc, slots) else {
        return Err(LaneError::Memory);
    };
    let Ok(signals) = Arc::new(alloc, Signals::new()) else {
        return Err(LaneError::Memory);
    };
    let Ok(theirs) = Arc::try_clone(&signals) else {
        return Err(LaneError::Memory);
    };
    let sender = LaneIn {
        producer,
        ahead: block.max(1),
        pace,
        habit: Habit::new(),
        signals: theirs,
    };
    let taker = LaneOut {
        consumer,
        block: Block::new(block),
        settled: false,
        pace,
        habit: Habit::new(),
        signals,
    };
    Ok((sender, taker))
}

// By hand, so that to drop one is a call (docs/DECISIONS.md).
impl Drop for LaneIn {
    fn drop(self) {
        let LaneIn {
            producer: _,
            ahead: _,
            pace: _,
            habit: _,
            signals: _,
        } = self;
    }
}

// By hand, so that to drop one is a call (docs/DECISIONS.md).
impl Drop for LaneOut {
    fn drop(self) {
        let LaneOut {
            consumer: _,
            block: _,
            settled: _,
            pace: _,
            habit: _,
            signals: _,
        } = self;
    }
}
