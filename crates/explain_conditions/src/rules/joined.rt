//! The tests of a condition that are joined by `and`.

use crate::rules::kinds::Kinds;
use crate::rules::outside::has_or;
use crate::rules::parts::Parts;
use crate::rules::words::{depth_after, is};
use std::alloc::{AllocError, Global};

/// Returns the tests that the condition joins by `and`, as they are written. One that has an `or`
/// outside brackets, or names of its own, has none.
///
/// # Errors
/// `AllocError` if an allocation failed.
pub fn joined_tests<'t>(alloc: Global, condition: &'t [u8]) -> Result<Vec<&'t [u8]>, AllocError> {
    let parts = Parts::of(alloc, condition, condition.len(), Kinds::none())?;
    let mut tests = Vec::new(alloc);
    if parts.has("let") || has_or(&parts, 1, parts.count()) {
        return Ok(tests);
    }
    let mut first = 1;
    let mut depth: usize = 0;
    for i in 1..parts.count() {
        let part = parts.at(i);
        depth = depth_after(depth, part);
        if depth == 0 && is(part, "and") {
            tests.push(parts.written(first, i - 1).unwrap_or(b""))?;
            first = i.saturating_add(1);
        }
    }
    tests.push(
        parts
            .written(first, parts.count().saturating_sub(1))
            .unwrap_or(b""),
    )?;
    Ok(tests)
}
