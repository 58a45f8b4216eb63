//! A gate at which workers let others go first.

use obim_engine::Gate;
use std::sync::Wait;
use std::sync::atomic::{AtomicU64, Ordering};
use std::thread::yield_now;

/// Yields the processor before one visit in eight, at random.
#[derive(Debug, Drop)]
pub(crate) struct Yielding {
    state: AtomicU64,
}

impl Yielding {
    /// Draws from this seed on.
    pub(crate) fn new(seed: u64) -> Yielding {
        Yielding {
            state: AtomicU64::new(seed),
        }
    }
}

impl Gate for Yielding {
    fn pass<H: Wait>(&self, _rt: &H, _worker: u32, _vertex: u32) {
        // Knuth's increment, and a mix of the bits (splitmix64).
        let mut bits = self.state.fetch_add(1442695040888963407, Ordering::Relaxed);
        bits = (bits ^ bits >> 30).wrapping_mul(0xbf58476d1ce4e5b9);
        bits = (bits ^ bits >> 27).wrapping_mul(0x94d049bb133111eb);
        if bits >> 61 == 0 {
            yield_now();
        }
    }
}
