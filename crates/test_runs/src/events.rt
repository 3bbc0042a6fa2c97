//! The model of a run's events: which are allowed, and the counters after them.

ghost use Rattle.std.specs.Prelude.{◌≡◌, ◌<◌};

use crate::support::{equals, holds};
use lanes::{Core, Event};
use std::process::Abort;
use std::test::Fail;

/// Each event is allowed or not as the table beside it says.
fn replay(rt: &impl Abort, core: &mut Core, events: &[(Event, bool)])
    ensures { core.new.workers ≡ core.old.workers }
{
    for (event, allowed) in events {
        assert_eq!(rt; core.step(*event), *allowed);
    }
}

/// What was sent into a lane, what was taken out of it, and whether it is closed.
type Lane = (u64, u64, bool);

/// Events of a core of two lanes, and its counters after them.
#[derive(Clone, Copy)]
struct Course {
    count: u64,
    capacity: u32,
    events: &'static [(Event, bool)],
    lanes: [Lane; 2],
    turn: u64,
    stopped: bool,
}

const COURSES: [Course; 4] = [
    Course {
        count: 3,
        capacity: 1,
        events: &[
            (Event::Send(0), true),
            (Event::Send(0), false),
            (Event::Take, true),
            (Event::Take, false),
            (Event::Send(1), true),
            (Event::Close(1), true),
            (Event::Close(0), false),
            (Event::Send(5), false),
            (Event::Stop, true),
            (Event::Take, false),
            (Event::Close(0), true),
            (Event::Close(0), false),
        ],
        lanes: [(1, 1, true), (1, 0, true)],
        turn: 1,
        stopped: true,
    },
    // To its end: then nothing changes any more.
    Course {
        count: 3,
        capacity: 1,
        events: &[
            (Event::Send(0), true),
            (Event::Take, true),
            (Event::Send(1), true),
            (Event::Take, true),
            (Event::Send(0), true),
            (Event::Take, true),
            (Event::Close(0), true),
            (Event::Close(1), true),
            (Event::Stop, true),
            (Event::Stop, true),
            (Event::Take, false),
        ],
        lanes: [(2, 2, true), (1, 1, true)],
        turn: 3,
        stopped: true,
    },
    // The writer meets its limit of boards with its second Take, and stops the run. Each worker
    // may be about to send, and sends; then it sees the flag, and closes its lane.
    Course {
        count: 8,
        capacity: 2,
        events: &[
            (Event::Send(0), true),
            (Event::Send(1), true),
            (Event::Take, true),
            (Event::Take, true),
            (Event::Close(0), false),
            (Event::Stop, true),
            (Event::Take, false),
            (Event::Send(1), true),
            (Event::Close(1), true),
            (Event::Send(0), true),
            (Event::Send(1), false),
            (Event::Close(0), true),
            (Event::Send(0), false),
            (Event::Take, false),
        ],
        lanes: [(2, 1, true), (2, 1, true)],
        turn: 2,
        stopped: true,
    },
    Course {
        count: 3,
        capacity: 1,
        events: &[
            (Event::Send(0), true),
            (Event::Take, true),
            (Event::Send(1), true),
            (Event::Close(1), true),
        ],
        lanes: [(1, 1, false), (1, 0, true)],
        turn: 1,
        stopped: false,
    },
];

/// The counters of a worker's lane.
fn lane_of(core: &Core, worker: u32) -> Lane
    requires two { core.now.workers ≡ 2 }
    requires within { worker < 2 }
{
    (core.sent(worker), core.taken(worker), core.closed(worker))
}

#[test]
fn cores_of_two_lanes(rt: HostRuntime) -> Result<(), Fail> {
    for row in COURSES.iter() {
        let mut core = Core::new(row.count, 2, row.capacity).ok_or("a core")?;
        replay(&rt, &mut core, row.events);
        equals(&rt, &[lane_of(&core, 0), lane_of(&core, 1)], &row.lanes);
        equals(
            &rt,
            &(core.turn(), core.stopped()),
            &(row.turn, row.stopped),
        );
    }
    Ok(())
}

/// Candidates, workers and capacity of which there is no core.
const NO_CORES: [(u64, u32, u32); 5] = [
    (1, 0, 1),
    ((1 << 40) + 1, 1, 1),
    (1, 17, 1),
    (1, 1, 0),
    (1, 1, 4097),
];

#[test]
fn an_empty_core_and_none(rt: HostRuntime) -> Result<(), Fail> {
    let mut empty = Core::new(0, 1, 1).ok_or("a core")?;
    holds(&rt, "nothing to send", !empty.step(Event::Send(0)));
    holds(&rt, "nothing to take", !empty.step(Event::Take));
    holds(&rt, "a lane to close", empty.step(Event::Close(0)));
    for (count, workers, capacity) in NO_CORES.iter() {
        holds(
            &rt,
            "no core",
            Core::new(*count, *workers, *capacity).is_none(),
        );
    }
    Ok(())
}
