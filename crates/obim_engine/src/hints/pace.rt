//! The pace of workers.
//!
//! If the system takes the processor of a worker with the lowest labels, all that others do falls again. So each shows
//! the bucket that it visits, and one that is far ahead naps.

ghost use Rattle.std.specs.Prelude.{◌≡◌, ◌<◌, false};

use crossbeam_utils::CachePadded;
use obim_pool::bucket_of;
use route_walks::{INF, Memory};
use std::alloc::Global;
use std::sync::atomic::{AtomicBool, AtomicU64, Ordering};
use std::thread::sleep;
use std::time::{Clock, Duration};

/// Visits between two looks at the others, by each worker; by all together if it was far ahead.
const VISITS_A_LOOK: u32 = 64;

/// A worker is far ahead if its metric is more than this many buckets above another's.
const FAR_AHEAD_BUCKETS: u64 = 8;

/// A nap, in microseconds.
const NAP_MICROS: u64 = 100;

/// The most naps between two visits: first one, then twice as many each time that they don't help.
const MAX_NAPS: u32 = 128;

/// The figures that workers show one another.
#[derive(Drop)]
pub(crate) struct Pace {
    workers: u32,
    /// By worker, the bucket that it visits, or that of `INF` while it has nothing to do.
    buckets: Vec<CachePadded<AtomicU64>>,
    /// True if since the last sweep the pool refused a vertex, or a worker left that had spent its budget.
    sweep_due: AtomicBool,
    started: AtomicBool,
}

impl Pace {
    pub(crate) fn open(alloc: Global, workers: u32) -> Result<Pace, Memory> {
        let mut buckets = Vec::with_capacity(alloc, workers as usize)?;
        for _ in 0..workers {
            buckets.push(CachePadded::new(AtomicU64::new(bucket_of(INF))))?;
        }
        Ok(Pace {
            workers,
            buckets,
            sweep_due: AtomicBool::new(false),
            started: AtomicBool::new(false),
        })
    }

    pub(crate) fn is_alone(&self) -> bool {
        self.workers == 1
    }

    /// Shows that the worker visits a vertex with this metric, or rests if it is `INF`. It stores only changes, since a
    /// store is a locked step.
    pub(crate) fn show(&self, worker: u32, metric: u64) {
        let bucket = bucket_of(metric);
        if let Some(shown) = self.buckets.get(worker as usize) {
            if shown.load(Ordering::Relaxed) != bucket {
                shown.store(bucket, Ordering::Relaxed);
            }
        }
    }

    /// Asks for a sweep, since the pool refused a vertex.
    pub(crate) fn request_sweep(&self) {
        self.sweep_due.store(true, Ordering::Relaxed);
    }

    /// Notes that a worker leaves with its budget spent: a sweep has to find what its side keeps.
    pub(crate) fn worker_left(&self, worker: u32) {
        self.show(worker, INF);
        self.request_sweep();
    }

    pub(crate) fn sweep_started(&self) {
        self.sweep_due.store(false, Ordering::Relaxed);
    }

    /// Tells if a sweep was asked for since the last one began.
    pub(crate) fn needs_sweep(&self) -> bool {
        self.sweep_due.load(Ordering::Relaxed)
    }

    pub(crate) fn mark_started(&self) {
        if !self.has_started() {
            self.started.store(true, Ordering::Relaxed);
        }
    }

    /// Tells if the first vertices have been drawn. Until then one that draws nothing may be early.
    pub(crate) fn has_started(&self) -> bool {
        self.started.load(Ordering::Relaxed)
    }

    pub(crate) fn is_lowest(&self, worker: u32, metric: u64) -> bool {
        let bucket = bucket_of(metric);
        for (other, shown) in self.buckets.iter().enumerate() {
            if other != worker as usize && shown.load(Ordering::Relaxed) < bucket {
                return false;
            }
        }
        true
    }

    /// Tells if another worker shows a far lower bucket.
    fn is_far_ahead(&self, worker: u32) -> bool {
        let mut least = u64::MAX;
        for bucket in self.buckets.iter() {
            least = least.min(bucket.load(Ordering::Relaxed));
        }
        match self.buckets.get(worker as usize) {
            Some(own) => own.load(Ordering::Relaxed) > least.saturating_add(FAR_AHEAD_BUCKETS),
            None => false,
        }
    }
}

/// A monitor of a worker's lead over the others.
#[derive(Drop)]
pub(crate) struct LeadMonitor {
    worker: u32,
    left: u32,
    /// Naps to take if it is far ahead then.
    naps: u32,
}

impl LeadMonitor {
    pub(crate) fn new(worker: u32, first: u32) -> LeadMonitor
        ensures { 0 < result.left }
    {
        LeadMonitor {
            worker,
            left: VISITS_A_LOOK.min(first).max(1),
            naps: 1,
        }
    }

    /// Looks again after this many visits at most.
    pub(crate) fn look_within(&mut self, visits: u32)
        ensures { 0 < self.new.left }
    {
        self.left = self.left.min(visits).max(1);
    }

    #[inline(always)]
    pub(crate) fn visited(&mut self) -> bool
        requires { 0 < self.old.left }
        ensures { result ≡ false → 0 < self.new.left }
    {
        self.left -= 1;
        self.left == 0
    }

    pub(crate) fn is_far_ahead(&self, pace: &Pace) -> bool {
        pace.is_far_ahead(self.worker)
    }

    /// Naps while the worker is far ahead, if it was.
    pub(crate) fn look<C: Clock>(&mut self, clock: &C, pace: &Pace, is_far: bool)
        ensures { 0 < self.new.left }
    {
        if is_far && self.nap(clock, pace) {
            self.naps = self.naps.saturating_mul(2).min(MAX_NAPS);
            self.left = VISITS_A_LOOK;
        } else {
            self.naps = 1;
            self.left = VISITS_A_LOOK.saturating_mul(pace.workers.max(1));
        }
    }

    /// Naps until the worker isn't far ahead. Returns true if it still is.
    fn nap<C: Clock>(&self, clock: &C, pace: &Pace) -> bool {
        for _ in 0..self.naps {
            sleep(clock, Duration::from_micros(NAP_MICROS));
            if !self.is_far_ahead(pace) {
                return false;
            }
        }
        true
    }
}
