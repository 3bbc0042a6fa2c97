//! Shares of the candidates, turns among the lanes, and the pace of their ends.

use crate::support::{equals, holds};
use lanes::{Pace, Share, Turns};
use std::test::Fail;

/// The candidates from 5 on that each of four workers has of ten.
const SHARES: [&[u64]; 4] = [&[5, 9, 13], &[6, 10, 14], &[7, 11], &[8, 12]];

#[test]
fn shares_leave_nothing_out(rt: HostRuntime) -> Result<(), Fail> {
    for (worker, numbers) in SHARES.iter().enumerate() {
        let share = Share::new(5, 10, 4, worker as u32).ok_or("a share")?;
        equals(&rt, &share.len(), &(numbers.len() as u64));
        for i in 0..share.len() {
            equals(&rt, &Some(&share.at(i)), &numbers.get(i as usize));
        }
    }
    Ok(())
}

/// First candidate, count, workers and worker of a share, and whether there is one.
const RANGES: [(u64, u64, u32, u32, bool); 5] = [
    ((1 << 40) - 1, 1, 1, 0, true),
    ((1 << 40) - 1, 2, 1, 0, false),
    (u64::MAX, u64::MAX, 1, 0, false),
    (0, 1, 17, 0, false),
    (0, 1, 1, 1, false),
];

#[test]
fn shares_within_the_numbers(rt: HostRuntime) -> Result<(), Fail> {
    for (first, count, workers, worker, is_share) in RANGES.iter() {
        let share = Share::new(*first, *count, *workers, *worker);
        equals(&rt, &share.is_some(), is_share);
    }
    Ok(())
}

#[test]
fn turns(rt: HostRuntime) -> Result<(), Fail> {
    let mut turns = Turns::new(3).ok_or("turns")?;
    equals(&rt, &turns.lane(), &0);
    turns.advance();
    equals(&rt, &turns.lane(), &1);
    turns.advance();
    equals(&rt, &turns.lane(), &2);
    turns.advance();
    equals(&rt, &turns.lane(), &0);
    equals(&rt, &Turns::at_start(16).lane(), &0);
    let are_none = Turns::new(0).is_none() && Turns::new(17).is_none();
    holds(&rt, "no turns", are_none);
    Ok(())
}

/// Workers, cores, and whether the ends of the lanes spin: each worker is a thread, and so is the
/// writer.
const PACES: [(u32, usize, bool); 16] = [
    (0, 1, true),
    (1, 2, true),
    (1, 4, true),
    (2, 4, true),
    (3, 4, true),
    (15, 16, true),
    (16, 17, true),
    (u32::MAX, usize::MAX, true),
    (0, 0, false),
    (1, 0, false),
    (1, 1, false),
    (2, 2, false),
    (4, 4, false),
    (5, 4, false),
    (16, 16, false),
    (16, 1, false),
];

#[test]
fn paces(rt: HostRuntime) -> Result<(), Fail> {
    for (workers, cores, spins) in PACES.iter() {
        let pace = Pace::of(*workers, *cores);
        equals(&rt, &matches!(pace, Pace::Spins), spins);
    }
    Ok(())
}
