//! Lanes: a refused growth is `Memory`, and a capacity out of range is told first.

use cards::{Deal, Places};
use lanes::{LaneError, LaneIn, LaneOut, Verdict, lane};
use lcg48::Lcg48;

/// Whether the lane takes a verdict, and gives it back.
fn carries_a_verdict(sender: &mut LaneIn, taker: &mut LaneOut) -> bool {
    let verdict = Verdict {
        number: 7,
        accepted: true,
        deal: Deal::shuffled(&Places::draw(&mut Lcg48::seeded(0))),
    };
    sender.try_send(verdict).is_ok() && matches!(taker.take(), Some(taken) if taken.number == 7)
}

#[test]
fn makes_a_lane_or_wants_memory(rt: HostRuntime) {
    for capacity in [0, 1, 64, 4096, 4097] {
        let in_range = capacity != 0 && capacity != 4097;
        let is_right = match lane(rt.alloc(), capacity) {
            Ok((mut sender, mut taker)) => in_range && carries_a_verdict(&mut sender, &mut taker),
            Err(LaneError::Memory) => in_range,
            Err(LaneError::Capacity) => !in_range,
        };
        assert!(rt; is_right, "capacity {capacity}");
    }
}
