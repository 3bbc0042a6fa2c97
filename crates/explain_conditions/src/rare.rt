//! Which tests of a condition hardly ever hold.

use crate::rules::joined_tests;
use cards::{Candidates, Fixed};
use cond_lang::{Cond, CondError, parse};
use itoa::Buffer;
use sinks::put_shown;
use std::alloc::{AllocError, Global};

/// Of how many deals each test is asked.
const ASKED: u32 = 100_000;

/// A test that holds of fewer of them than this is rare.
const RARE: u64 = 1_000;

/// Returns a line on a condition that no deal has met for long: which of its tests that are joined
/// by `and` hold of fewer than one deal in a hundred, each by itself, by the first 100,000 deals of
/// the seed. None if it doesn't join tests.
///
/// # Errors
/// `AllocError` if an allocation failed.
pub fn rare_tests(
    alloc: Global,
    condition: &[u8],
    seed: u32,
    fixed: &Fixed,
) -> Result<Option<String>, AllocError> {
    let tests = joined_tests(alloc, condition)?;
    if tests.len() < 2 {
        return Ok(None);
    }
    let mut rare = 0_u32;
    let mut out = String::from_str(alloc, "note: no board yet; of 100,000 deals ")?;
    for test in tests.iter() {
        let held = match parse(alloc, test) {
            Ok(condition) => times_met(&condition, seed, fixed),
            Err(CondError::Memory) => return Err(AllocError),
            Err(_) => return Ok(None),
        };
        if held < RARE {
            put_test(&mut out, rare > 0, test, held)?;
            rare = rare.saturating_add(1);
        }
    }
    if rare == 0 {
        out.push_str(
            "each test by itself holds of 1,000 or more: perhaps none meets them together",
        )?;
    }
    out.push_str("\n")?;
    Ok(Some(out))
}

/// Appends a test, and of how many deals it holds.
fn put_test(out: &mut String, is_next: bool, test: &[u8], held: u64) -> Result<(), AllocError> {
    if is_next {
        out.push_str(", ")?;
    }
    put_shown(out, test)?;
    out.push_str(" holds of ")?;
    out.push_str(Buffer::new().format(held))
}

/// How many of the first deals of the seed meet the condition.
fn times_met(condition: &Cond, seed: u32, fixed: &Fixed) -> u64 {
    let mut deals = Candidates::around(seed, 0, 1, fixed);
    let mut held = 0_u64;
    for _ in 0..ASKED {
        if condition.holds(&deals.next()) {
            held = held.saturating_add(1);
        }
    }
    held
}
