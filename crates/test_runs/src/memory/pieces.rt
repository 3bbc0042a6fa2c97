//! Sinks over memory: a piece is taken whole or not at all, and a later one goes on from there.

use crate::support::{equals, holds};
use dealrun::{Fuse, MemSink, Sink};
use std::process::Abort;

const SHORT: &[u8] = b"seven.\n";

const LONG: &[u8] = b"A longer piece, so that the memory for the first one does not do.\n";

/// How many bytes are after a write of a piece, which was taken whole or not at all.
fn after<R: Abort>(rt: &R, before: usize, piece: &[u8], is_taken: bool, bytes: &[u8]) -> usize {
    if is_taken {
        equals(rt, &bytes.len(), &before.saturating_add(piece.len()));
        holds(rt, "the piece stands last", bytes.ends_with(piece));
    } else {
        equals(rt, &bytes.len(), &before);
    }
    bytes.len()
}

#[test]
fn takes_a_piece_or_nothing(rt: HostRuntime) {
    let mut sink = MemSink::new(rt.alloc());
    let is_taken = sink.write(SHORT).is_ok();
    let first = after(&rt, 0, SHORT, is_taken, sink.bytes());
    let is_taken = sink.write(LONG).is_ok();
    let second = after(&rt, first, LONG, is_taken, sink.bytes());
    let is_taken = sink.write(SHORT).is_ok();
    after(&rt, second, SHORT, is_taken, sink.bytes());
    holds(&rt, "flushed", sink.flush().is_ok());
}

#[test]
fn a_fuse_takes_a_piece_or_nothing(rt: HostRuntime) {
    let mut sink = Fuse::new(MemSink::new(rt.alloc()), 2, 4096, true);
    let is_taken = sink.write(SHORT).is_ok();
    let first = after(&rt, 0, SHORT, is_taken, sink.bytes());
    holds(&rt, "the second write fails", sink.write(LONG).is_err());
    equals(&rt, &sink.bytes().len(), &first);
    let is_taken = sink.write(LONG).is_ok();
    after(&rt, first, LONG, is_taken, sink.bytes());
    equals(&rt, &sink.writes(), &3);
    holds(&rt, "flushed", sink.flush().is_ok());
}
