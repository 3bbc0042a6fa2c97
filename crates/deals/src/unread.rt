//! Words that aren't UTF-8, which end the program with nothing said but to a person.

use crate::streams::hints_are_on;
use explain::{hints_among, not_utf8};
use std::env::{Env, FillError};

/// How many words are looked at, and the longest of them.
const MOST: usize = 4096;

const LONGEST: usize = 8192;

/// What helps with words of which one isn't UTF-8, if it is time for that; none where memory runs
/// out.
pub fn hint(rt: &HostRuntime) -> Option<String> {
    let mut words = Vec::new(rt.alloc());
    let mut text = None;
    let mut buffer = [0u8; LONGEST];
    for i in 0..MOST {
        let len = match rt.arg(i, &mut buffer) {
            Ok(len) => len,
            Err(FillError::NotPresent) => break,
            Err(FillError::TooLong) => 0,
        };
        let word = buffer.get(..len)?;
        match str::from_utf8(word) {
            Ok(word) => words.push(String::from_str(rt.alloc(), word).ok()?).ok()?,
            Err(error) if text.is_none() => {
                text = not_utf8(rt.alloc(), word, error.valid_up_to());
            }
            Err(_) => {}
        }
    }
    if hints_are_on(rt, hints_among(words.as_slice())) {
        text
    } else {
        None
    }
}
