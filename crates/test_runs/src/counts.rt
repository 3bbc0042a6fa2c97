//! The line of counts, at examples.

use crate::support::equals;
use sinks::console::{Tally, tally_line};
use std::test::Fail;

/// Candidates tried, boards, candidates in all where that is known, milliseconds, and the line.
const TALLIES: [(u64, u64, Option<u64>, u64, &str); 7] = [
    (
        12_000_000,
        3,
        Some(100_000_000),
        384,
        "12%  12,000,000 of 100,000,000 candidates  3 boards  31.2 M/s  3 s left",
    ),
    (
        4096,
        1,
        Some(4097),
        1024,
        "99%  4,096 of 4,097 candidates  1 board  4.0 k/s  1 s left",
    ),
    (
        999,
        0,
        Some(1_099_511_627_776),
        1000,
        "0%  999 of 1,099,511,627,776 candidates  0 boards  999 /s  12738 d 13 h left",
    ),
    (
        1_000_000,
        1000,
        Some(3_000_000_000),
        1000,
        "0%  1,000,000 of 3,000,000,000 candidates  1,000 boards  1.0 M/s  49 min 59 s left",
    ),
    (
        50_000_000,
        0,
        Some(450_000_000_000),
        2000,
        "0%  50,000,000 of 450,000,000,000 candidates  0 boards  25.0 M/s  4 h 59 min left",
    ),
    (
        1_234_567,
        2,
        None,
        100_000,
        "1,234,567 candidates  2 boards  12.3 k/s",
    ),
    (
        u64::MAX,
        u64::MAX,
        Some(0),
        0,
        "18446744073709551615%  18,446,744,073,709,551,615 of 0 candidates  \
            18,446,744,073,709,551,615 boards  18446744073709.5 M/s  0 s left",
    ),
];

#[test]
fn lines_of_counts(rt: HostRuntime) -> Result<(), Fail> {
    for (candidates, boards, all, millis, line) in TALLIES.iter() {
        let tally = Tally {
            candidates: *candidates,
            boards: *boards,
            all: *all,
            millis: *millis,
        };
        let drawn = tally_line(rt.alloc(), &tally)?;
        equals(&rt, &drawn.as_str(), line);
    }
    Ok(())
}
