//! A gate that counts, for `--stats`.

use obim_engine::{Gate, Worklist};
use route_walks::Memory;
use std::alloc::Global;
use std::sync::Wait;
use std::sync::atomic::{AtomicU64, Ordering};

/// Words between two workers' counts, which so share no line of a cache.
const COUNT_STRIDE_WORDS: usize = 16;

/// A gate that counts each worker's visits, and what the worklist held.
#[derive(Debug, Drop)]
pub struct Counter {
    visits: Vec<AtomicU64>,
    most_buckets: AtomicU64,
    looks: AtomicU64,
    chunks: AtomicU64,
}

impl Counter {
    /// A count of 0 for each worker.
    pub fn open(alloc: Global, workers: u32) -> Result<Counter, Memory> {
        let mut visits = Vec::with_capacity(alloc, workers as usize * COUNT_STRIDE_WORDS)?;
        for _ in 0..workers as usize * COUNT_STRIDE_WORDS {
            visits.push(AtomicU64::new(0))?;
        }
        Ok(Counter {
            visits,
            most_buckets: AtomicU64::new(0),
            looks: AtomicU64::new(0),
            chunks: AtomicU64::new(0),
        })
    }

    /// The visits of this worker.
    pub fn visits_of(&self, worker: u32) -> u64 {
        match self.visits.get(worker as usize * COUNT_STRIDE_WORDS) {
            Some(count) => count.load(Ordering::Relaxed),
            None => 0,
        }
    }

    /// The figures of the worklist: the most buckets of a run, and the looks and chunks of all.
    pub fn worklist(&self) -> Worklist {
        Worklist {
            buckets: self.most_buckets.load(Ordering::Relaxed),
            looks: self.looks.load(Ordering::Relaxed),
            chunks: self.chunks.load(Ordering::Relaxed),
        }
    }
}

impl Gate for Counter {
    fn pass<H: Wait>(&self, _rt: &H, worker: u32, _vertex: u32) {
        if let Some(count) = self.visits.get(worker as usize * COUNT_STRIDE_WORDS) {
            count.fetch_add(1, Ordering::Relaxed);
        }
    }

    fn end<H: Wait>(&self, _rt: &H, worklist: Worklist) {
        self.most_buckets
            .fetch_max(worklist.buckets, Ordering::Relaxed);
        self.looks.fetch_add(worklist.looks, Ordering::Relaxed);
        self.chunks.fetch_add(worklist.chunks, Ordering::Relaxed);
    }
}
