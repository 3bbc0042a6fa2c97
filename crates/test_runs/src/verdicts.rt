//! Verdicts through a lane, one by one and in blocks.

ghost use Rattle.std.specs.Prelude.{◌≡◌};

use crate::support::{equals, holds};
use cards::{Deal, Places};
use lanes::{LaneError, LaneIn, LaneOut, Pace, Verdict, lane, lane_in_blocks};
use lcg48::Lcg48;
use std::alloc::Global;
use std::ops::Range;
use std::process::Abort;
use std::sync::atomic::{AtomicBool, Ordering};
use std::test::Fail;

/// A verdict on this candidate.
fn verdict_of(number: u64, accepted: bool) -> Verdict {
    let places = Places::draw(&mut Lcg48::seeded(0));
    Verdict {
        number,
        accepted,
        deal: Deal::shuffled(&places),
    }
}

/// A verdict that accepts this candidate.
fn verdict(number: u64) -> Verdict {
    verdict_of(number, true)
}

/// Sends the verdict on this candidate, and says whether there was room for it.
fn sends(sender: &mut LaneIn, number: u64) -> bool
    ensures { sender.new.ring ≡ sender.old.ring }
{
    sender.try_send(verdict(number)).is_ok()
}

/// Whether the verdict on this candidate comes back, since there is no room.
fn sends_back(sender: &mut LaneIn, number: u64) -> bool
    ensures { sender.new.ring ≡ sender.old.ring }
{
    matches!(sender.try_send(verdict(number)), Err(back) if back.number == number)
}

/// Takes a verdict, and says whether it is the one on this candidate.
fn takes(taker: &mut LaneOut, number: u64) -> bool
    ensures { taker.new.ring ≡ taker.old.ring }
{
    matches!(taker.take(), Some(taken) if taken.number == number)
}

/// Sends the verdicts on these candidates, and says whether there was room for all.
fn send_all(sender: &mut LaneIn, numbers: Range<u64>) -> bool {
    for number in numbers {
        if !sends(sender, number) {
            return false;
        }
    }
    true
}

/// Takes the verdicts on these candidates, and says whether they came in this order.
pub fn take_all(taker: &mut LaneOut, numbers: Range<u64>) -> bool {
    for number in numbers {
        if !takes(taker, number) {
            return false;
        }
    }
    true
}

/// Takes the verdicts on these candidates, and says whether they came so and no more.
pub fn takes_just(taker: &mut LaneOut, numbers: Range<u64>) -> bool {
    take_all(taker, numbers) && taker.take().is_none()
}

/// Whether there is no lane, since the capacity is out of range.
fn is_refused(made: &Result<(LaneIn, LaneOut), LaneError>) -> bool {
    matches!(made, Err(LaneError::Capacity))
}

#[test]
fn refused_capacities(rt: HostRuntime) {
    for capacity in [0, 4097] {
        let plain = lane(rt.alloc(), capacity);
        holds(&rt, "no lane", is_refused(&plain));
        let in_blocks = lane_in_blocks(rt.alloc(), capacity, Pace::Spins);
        holds(&rt, "no lane in blocks", is_refused(&in_blocks));
    }
}

/// A capacity, and the room between the two blocks.
const ROOMS: [(u32, usize); 7] = [
    (1, 1),
    (3, 3),
    (4, 2),
    (9, 5),
    (64, 32),
    (65, 33),
    (4096, 4064),
];

/// How much room is in a new lane.
fn room_in_blocks(alloc: Global, capacity: u32) -> Result<usize, LaneError> {
    let (mut sender, _taker) = lane_in_blocks(alloc, capacity, Pace::Spins)?;
    Ok(sender.count_room())
}

#[test]
fn capacities(rt: HostRuntime) -> Result<(), Fail> {
    holds(&rt, "a lane", lane(rt.alloc(), 4096).is_ok());
    for (capacity, room) in ROOMS.iter() {
        equals(&rt, &room_in_blocks(rt.alloc(), *capacity)?, room);
    }
    Ok(())
}

#[test]
fn a_lane_of_one_verdict(rt: HostRuntime) -> Result<(), Fail> {
    let (mut sender, mut taker) = lane(rt.alloc(), 1)?;
    holds(&rt, "a verdict is sent", sends(&mut sender, 3));
    holds(&rt, "the next comes back", sends_back(&mut sender, 4));
    let mut closed = sender.close().ok_or("a closed lane")?;
    holds(&rt, "not yet settled", !taker.is_settled());
    equals(&rt, &taker.settle(&mut closed), &1);
    holds(&rt, "settled", taker.is_settled());
    holds(&rt, "a verdict is taken", takes_just(&mut taker, 3..4));
    Ok(())
}

/// Aborts unless the lane has this room, and this many verdicts wait.
fn counts(rt: &impl Abort, sender: &mut LaneIn, taker: &mut LaneOut, wanted: (usize, usize)) {
    equals(rt, &(sender.count_room(), taker.count_verdicts()), &wanted);
}

#[test]
fn what_is_known_to_wait(rt: HostRuntime) -> Result<(), Fail> {
    let (mut sender, mut taker) = lane(rt.alloc(), 2)?;
    holds(&rt, "none waits at first", !taker.has_verdict());
    equals(&rt, &sender.count_room(), &2);
    holds(&rt, "room for two", fills(&mut sender));
    counts(&rt, &mut sender, &mut taker, (0, 2));
    holds(&rt, "two wait", empties(&mut taker));
    counts(&rt, &mut sender, &mut taker, (2, 0));
    Ok(())
}

/// Fills a lane of two verdicts. True if there was room for both, and for no more.
fn fills(sender: &mut LaneIn) -> bool {
    for number in [3, 4] {
        if !sender.has_room() {
            return false;
        }
        sender.send_reserved(verdict(number));
    }
    !sender.has_room()
}

/// Takes two verdicts. True if they waited, in their order, and no other.
fn empties(taker: &mut LaneOut) -> bool {
    for number in [3, 4] {
        if !taker.has_verdict() || taker.take_known().number != number {
            return false;
        }
    }
    !taker.has_verdict()
}

#[test]
fn blocks_of_a_lane(rt: HostRuntime) -> Result<(), Fail> {
    let (mut sender, mut taker) = lane_in_blocks(rt.alloc(), 64, Pace::Spins)?;
    holds(&rt, "room for 32", send_all(&mut sender, 0..32));
    holds(&rt, "and for no more", !sends(&mut sender, 32));
    // The writer has a block out of the ring, and then there is room for as much.
    holds(&rt, "the first is taken", take_all(&mut taker, 0..1));
    counts(&rt, &mut sender, &mut taker, (16, 31));
    holds(&rt, "room for 16", send_all(&mut sender, 32..48));
    holds(&rt, "all are taken", takes_just(&mut taker, 1..48));
    Ok(())
}

/// Sends verdicts on candidates 3 to 6, of which 5 alone is accepted, and says whether there was
/// room for all.
fn sends_one_accepted(sender: &mut LaneIn) -> bool {
    for number in 3..7 {
        if sender.try_send(verdict_of(number, number == 5)).is_err() {
            return false;
        }
    }
    true
}

/// Takes rejected verdicts as long as there are some in the block, and says how many.
fn take_rejected(taker: &mut LaneOut) -> u32 {
    for count in 0..16 {
        if !taker.take_rejected() {
            return count;
        }
    }
    16
}

#[test]
fn rejected_verdicts_of_a_block(rt: HostRuntime) -> Result<(), Fail> {
    let (mut sender, mut taker) = lane_in_blocks(rt.alloc(), 64, Pace::Spins)?;
    holds(&rt, "all are sent", sends_one_accepted(&mut sender));
    equals(&rt, &take_rejected(&mut taker), &0);
    // A look for a verdict has a block out of the ring.
    holds(&rt, "one waits", taker.has_verdict());
    equals(&rt, &take_rejected(&mut taker), &2);
    holds(&rt, "the accepted one is next", takes(&mut taker, 5));
    equals(&rt, &take_rejected(&mut taker), &1);
    holds(&rt, "no more", taker.take().is_none());
    Ok(())
}

/// A lane is settled while the writer has a verdict in its block.
#[test]
fn a_settled_lane_with_a_block(rt: HostRuntime) -> Result<(), Fail> {
    let (mut sender, mut taker) = lane_in_blocks(rt.alloc(), 8, Pace::Spins)?;
    holds(&rt, "the first is sent", sends(&mut sender, 3));
    holds(&rt, "the second is sent", sends(&mut sender, 4));
    holds(&rt, "the third is sent", sends(&mut sender, 5));
    holds(&rt, "the first is taken", takes(&mut taker, 3));
    let mut closed = sender.close().ok_or("a closed lane")?;
    equals(&rt, &taker.settle(&mut closed), &2);
    holds(&rt, "the others are taken", takes_just(&mut taker, 4..6));
    Ok(())
}

#[test]
fn a_wait_for_a_verdict(rt: HostRuntime) -> Result<(), Fail> {
    let stop = AtomicBool::new(false);
    let (mut sender, mut taker) = lane(rt.alloc(), 2)?;
    holds(&rt, "the first is sent", sends(&mut sender, 3));
    holds(&rt, "it waits", taker.wait_for_verdict(&rt, &stop));
    stop.store(true, Ordering::SeqCst);
    taker.wake_worker();
    holds(&rt, "it still waits", taker.wait_for_verdict(&rt, &stop));
    holds(&rt, "it is taken", takes(&mut taker, 3));
    holds(&rt, "none waits", !taker.wait_for_verdict(&rt, &stop));
    holds(&rt, "the second is sent", sends(&mut sender, 4));
    holds(&rt, "the second waits", taker.wait_for_verdict(&rt, &stop));
    holds(&rt, "the second is taken", takes(&mut taker, 4));
    Ok(())
}
