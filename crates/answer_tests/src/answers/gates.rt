//! A gate that holds a worker back until another has come.

use obim_engine::Gate;
use std::sync::Wait;
use std::sync::atomic::{AtomicU64, Ordering};
use std::thread::yield_now;

/// The most yields of the first call.
const TURNS: u32 = 10_000_000;

/// Holds the first call back until another worker calls.
#[derive(Drop)]
pub(crate) struct Meeting {
    calls: AtomicU64,
    met: AtomicU64,
    workers: AtomicU64,
}

impl Meeting {
    pub fn new() -> Meeting {
        Meeting {
            calls: AtomicU64::new(0),
            met: AtomicU64::new(0),
            workers: AtomicU64::new(0),
        }
    }

    /// A bit for each worker that called, worker 0 the lowest.
    pub fn workers(&self) -> u64 {
        self.workers.load(Ordering::SeqCst)
    }

    /// Tells if the first call saw the second in time.
    pub fn met(&self) -> bool {
        self.met.load(Ordering::SeqCst) > 0
    }
}

impl Gate for Meeting {
    fn pass<H: Wait>(&self, _rt: &H, worker: u32, _vertex: u32) {
        self.workers.fetch_or(1 << worker.min(63), Ordering::SeqCst);
        if self.calls.fetch_add(1, Ordering::SeqCst) > 0 {
            return;
        }
        for _ in 0..TURNS {
            if self.calls.load(Ordering::SeqCst) > 1 {
                self.met.store(1, Ordering::SeqCst);
                return;
            }
            yield_now();
        }
    }
}
