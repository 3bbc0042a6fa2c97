//! The program over sinks in memory. `tests/rows` gives the built program many more words.

use crate::support::same;
use dealrun::{Fuse, MemSink};
use deals_cli::program;
use std::alloc::{AllocError, Global};

/// The words of `stream` for these numbers.
fn words_of(alloc: Global, seed: &str, count: &str) -> Result<Vec<String>, AllocError> {
    let mut words = Vec::new(alloc);
    for word in ["deals", "stream", "--seed", seed, "--count", count] {
        words.push(String::from_str(alloc, word)?)?;
    }
    Ok(words)
}

/// The error output fails at its first write.
#[test]
fn ignores_a_standard_error_that_fails(rt: HostRuntime) {
    let words = words_of(rt.alloc(), "4294967296", "3").expect(&rt, "memory");
    let mut out = MemSink::new(rt.alloc());
    let mut err = Fuse::new(MemSink::new(rt.alloc()), 1, 4096, true);
    same(
        &rt,
        program(&rt, rt.alloc(), words.as_slice(), &mut out, &mut err),
        2,
    );
    assert!(rt; out.bytes().is_empty() && err.bytes().is_empty());
}
