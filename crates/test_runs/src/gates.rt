//! Gates and a writer that the tests of runs share.

use lanes::Gate;
use std::alloc::Global;
use std::io::Write;
use std::sync::Arc;
use std::sync::atomic::{AtomicU64, Ordering};

/// The most loads of a gate that waits, before it gives up.
const MOST_LOADS: u64 = 100_000_000;

/// Answers false at one number.
#[derive(Drop)]
pub struct StopsAt(pub u64);

impl Gate for StopsAt {
    fn pass(&self, _worker: u32, number: u64) -> bool {
        number != self.0
    }
}

/// Each of two workers raises its mark and waits until the other's is up.
#[derive(Drop)]
pub struct TwoWay {
    pub marks: [AtomicU64; 2],
}

impl Gate for TwoWay {
    fn pass(&self, worker: u32, _number: u64) -> bool {
        let mine = (worker % 2) as usize;
        self.marks[mine].store(1, Ordering::SeqCst);
        for _ in 0..MOST_LOADS {
            if self.marks[1 - mine].load(Ordering::SeqCst) == 1 {
                return true;
            }
        }
        false
    }
}

/// At one number waits until more than this many bytes were written.
#[derive(Drop)]
pub struct WaitsForBytes {
    pub number: u64,
    pub more_than: u64,
    pub written: Arc<AtomicU64, Global>,
}

impl Gate for WaitsForBytes {
    fn pass(&self, _worker: u32, number: u64) -> bool {
        if number != self.number {
            return true;
        }
        for _ in 0..MOST_LOADS {
            if self.written.load(Ordering::SeqCst) > self.more_than {
                return true;
            }
        }
        false
    }
}

/// Counts its calls.
#[derive(Drop)]
pub struct CountsCalls(pub Arc<AtomicU64, Global>);

impl Gate for CountsCalls {
    fn pass(&self, _worker: u32, _number: u64) -> bool {
        self.0.fetch_add(1, Ordering::SeqCst);
        true
    }
}

/// A writer that takes whole pieces and counts their bytes. At its first piece it watches a counter
/// for a while, and keeps the most that it saw.
#[derive(Drop)]
pub struct Watcher {
    pub written: Arc<AtomicU64, Global>,
    pub watched: Arc<AtomicU64, Global>,
    pub most: Arc<AtomicU64, Global>,
    pub looks: u64,
}

impl Write for Watcher {
    fn write(&mut self, piece: &[u8]) -> std::io::Result<usize> {
        for _ in 0..self.looks {
            let seen = self.watched.load(Ordering::SeqCst);
            if seen > self.most.load(Ordering::SeqCst) {
                self.most.store(seen, Ordering::SeqCst);
            }
        }
        self.looks = 0;
        self.written.fetch_add(piece.len() as u64, Ordering::SeqCst);
        Ok(piece.len())
    }

    fn flush(&mut self) -> std::io::Result<()> {
        Ok(())
    }
}
