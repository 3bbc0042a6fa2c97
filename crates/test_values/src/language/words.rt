//! Kinds in their order, and runs of letters and of digits: values counted by hand.

use cond_lang::{Kind, digit_run_len, letter_run_len};

/// Texts, and how many letters and how many digits are in front.
const RUNS: [(&[u8], usize, usize); 7] = [
    (b"", 0, 0),
    (b"hcp(north)", 3, 0),
    (b"hCP", 1, 0),
    (b"15-17", 0, 2),
    (b"2c", 0, 1),
    (b"c2", 1, 0),
    (b" 1", 0, 0),
];

#[test]
fn kinds_and_runs(rt: HostRuntime) {
    for (text, letters, digits) in RUNS.iter() {
        let runs = [letter_run_len(text), digit_run_len(text)];
        assert_eq!(rt; runs, [*letters, *digits]);
    }
    assert!(rt; are_in_order());
}

/// Whether each kind is at its place.
fn are_in_order() -> bool {
    for (i, kind) in Kind::ALL.iter().enumerate() {
        if kind.place() != i {
            return false;
        }
    }
    true
}
