//! Sinks that take a byte a time, or fail.

use crate::support::same;
use dealrun::{Fuse, MemSink, put_all};

#[test]
fn writes_three_times_into_a_sink_of_one_byte(rt: HostRuntime) {
    let mut sink = Fuse::new(MemSink::new(rt.alloc()), 0, 1, true);
    assert!(rt; put_all(&mut sink, b"abc").is_ok());
    same(&rt, sink.bytes(), b"abc".as_slice());
    same(&rt, sink.writes(), 3);
}

#[test]
fn stops_at_a_fault_and_goes_on_later(rt: HostRuntime) {
    let mut sink = Fuse::new(MemSink::new(rt.alloc()), 2, 1, true);
    assert!(rt; put_all(&mut sink, b"abc").is_err());
    same(&rt, sink.bytes(), b"a".as_slice());
    same(&rt, sink.writes(), 2);
    assert!(rt; put_all(&mut sink, b"d").is_ok());
    same(&rt, sink.bytes(), b"ad".as_slice());
}
