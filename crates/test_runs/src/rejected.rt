//! Verdicts of shares most of whose candidates are rejected, and given up before they are dealt.

ghost use Rattle.std.specs.Prelude.{◌≡◌, []};

use crate::support::{equals, holds};
use boards::Plan;
use cards::{Candidates, Fixed, Seat};
use cond_lang::{Cond, parse};
use lanes::{JobAround, LaneIn, LaneOut, OpenGate, WorkEnd, lane, work_around};
use std::alloc::Global;
use std::process::Abort;
use std::sync::atomic::AtomicBool;
use std::sync::{Arc, Wait};
use std::test::Fail;

/// The seed of the candidates, and how many there are: more than a test of hands is asked at first.
const SEED: u32 = 7;

const COUNT: u64 = 2500;

/// Conditions, the cards that are fixed, and at which seat. Tests of hands give up most candidates
/// of some of them, and a few or none of others.
const JOBS: [(&str, &[usize], Seat); 8] = [
    ("hcp(north)+hcp(south)>=33", &[], Seat::North),
    ("hcp(north)+hcp(south)>=26", &[], Seat::North),
    ("hcp(north)>=22", &[], Seat::North),
    // AKQ32.K..A
    (
        "hcp(north)+hcp(east)>=30",
        &[0, 1, 2, 11, 12, 14, 39],
        Seat::North,
    ),
    // .AKQ..
    ("len(west,spades)>=8", &[13, 14, 15], Seat::West),
    ("hcp(north) in 15-17 and balanced(north)", &[], Seat::North),
    ("hcp(west)<=37", &[], Seat::North),
    ("1==0", &[], Seat::North),
];

/// These cards at the seat.
fn fixed_at(cards: &[usize], seat: Seat) -> Result<Fixed, &'static str> {
    let mut seats = [None; 52];
    for card in cards {
        *seats.get_mut(*card).ok_or("a card")? = Some(seat);
    }
    Fixed::new(seats).ok_or("too many")
}

/// The work on every second one of the candidates, from the second on.
fn job(cond: &Cond, fixed: Fixed) -> Result<JobAround, Fail> {
    let plan = Plan::new(SEED, 0, 2 * COUNT, 2, 1).ok().ok_or("a plan")?;
    Ok(JobAround::of(&plan.with_fixed(fixed), cond, 1)?)
}

/// Works the whole job.
fn works(rt: &impl Wait, alloc: Global, job: JobAround, sender: LaneIn) -> Result<WorkEnd, Fail>
    requires { sender.sent ≡ [] }
{
    let gate = Arc::new(alloc, OpenGate)?;
    let stop = Arc::new(alloc, AtomicBool::new(false))?;
    Ok(work_around(rt, job, sender, gate, stop))
}

/// Aborts unless the verdicts are those on the candidates, with their deals.
fn are_verdicts(rt: &impl Abort, taker: &mut LaneOut, cond: &Cond, fixed: &Fixed) {
    let mut candidates = Candidates::around(SEED, 1, 2, fixed);
    for place in 0..COUNT {
        let deal = candidates.next();
        let taken = taker
            .take()
            .map(|taken| (taken.number, taken.accepted, taken.deal));
        equals(rt, &taken, &Some((2 * place + 1, cond.holds(&deal), deal)));
    }
    holds(rt, "no more", taker.take().is_none());
}

#[test]
fn rejected_candidates(rt: HostRuntime) -> Result<(), Fail> {
    for (text, cards, seat) in JOBS.iter() {
        let cond = parse(rt.alloc(), text.as_bytes())?;
        let fixed = fixed_at(cards, *seat)?;
        let (sender, mut taker) = lane(rt.alloc(), 4096)?;
        let end = works(&rt, rt.alloc(), job(&cond, fixed)?, sender)?;
        holds(&rt, "done", matches!(&end, WorkEnd::Done(_)));
        are_verdicts(&rt, &mut taker, &cond, &fixed);
    }
    Ok(())
}
