//! Laws of the core, over its definition alone.

ghost use Rattle.std.specs.Prelude.{◌≡◌, ◌+◌, ◌*◌, ◌/◌, ◌%◌, ◌<◌, ◌≤◌, ◌⊎◌, ℕ, List, ◌∷◌, map};
ghost use Rattle.std.specs.Prelude.{true, false};
ghost use Rattle.std.specs.List.{range_with_len};
ghost use Rattle.lanes.specs.declared.model.event.Event.{Event};
ghost use Rattle.lanes.specs.declared.model.event.Event.TheVariants.{Send, Take, Close};
ghost use Rattle.lanes.specs.Machine.{Machine, new_machine, after, is_allowed, does_change};
ghost use Rattle.lanes.specs.Machine.{changes_in};
ghost use Rattle.lanes.specs.Machine.{sent_of, taken_of};
ghost use Rattle.lanes.specs.Sound.{IsSound};
ghost use Rattle.lanes.specs.Runs.{after_all, item_of, items_sent, items_taken};

/// Of any list of events, in any order, only a bounded number change anything in a new core: each
/// worker sends and the writer takes each candidate at most once, each lane is closed at most once,
/// and the run is stopped once.
pub fn few_events_change()
    ensures { (count workers capacity : ℕ) (events : List Event) → 1 ≤ workers
        → changes_in (new_machine count workers capacity) events ≤ 2 * count + workers + 1 }
{}

/// An event that is not counted as a change leaves the core as it was.
pub fn the_others_change_nothing()
    ensures { (m : Machine) (e : Event) → does_change m e ≡ false → after m e ≡ m }
{}

/// After any list of events the core is sound: the items were taken in turn, no more was taken than
/// sent, no more was sent than owed, no lane holds more than its capacity, and no lane was closed
/// early unless the run was stopped.
pub fn every_run_is_sound()
    ensures { (count workers capacity : ℕ) (events : List Event) → 1 ≤ workers → 1 ≤ capacity
        → IsSound (after_all (new_machine count workers capacity) events) }
{}

/// The core is never stuck: after any list of events, short of the last turn and not stopped, the
/// writer may take, or the worker whose turn it is may send.
pub fn no_run_is_stuck()
    ensures { (count workers capacity : ℕ) (events : List Event) → 1 ≤ workers → 1 ≤ capacity
        → let m = after_all (new_machine count workers capacity) events in
        m.turn < count → m.stopped ≡ false
        → (is_allowed m Take ≡ true) ⊎ (is_allowed m (Send (m.turn % workers)) ≡ true) }
{}

/// After any list of events the next Take is from lane `turn mod workers`, of the item that this
/// worker sent as number `turn div workers`, and this is the candidate with the turn's number.
pub fn each_turn_takes_its_item()
    ensures { (count workers capacity : ℕ) (events : List Event) → 1 ≤ workers
        → let m = after_all (new_machine count workers capacity) events in
        let lane = m.turn % workers in
        (taken_of m lane ≡ m.turn / workers) × (item_of workers lane (taken_of m lane) ≡ m.turn) }
{}

/// The items taken in any list of events are the first candidates in order, one for each turn.
pub fn items_are_taken_in_order()
    ensures { (count workers capacity : ℕ) (events : List Event) → 1 ≤ workers
        → let m = new_machine count workers capacity in
        items_taken m events ≡ range_with_len 0 (after_all m events).turn }
{}

/// The items that a worker sends in any list of events are the first ones of its share in order.
pub fn items_are_sent_in_order()
    ensures { (count workers capacity w : ℕ) (events : List Event) → w < workers
        → let m = new_machine count workers capacity in
        items_sent w m events
        ≡ map (item_of workers w) (range_with_len 0 (sent_of (after_all m events) w)) }
{}

/// Once a lane was closed, its worker may not send any more, whatever happens.
pub fn a_closed_lane_sends_nothing()
    ensures { (count workers capacity w : ℕ) (before later : List Event) → 1 ≤ workers
        → let m = after_all (new_machine count workers capacity) before in
        is_allowed m (Close w) ≡ true
        → is_allowed (after_all m (Close w ∷ later)) (Send w) ≡ false }
{}
