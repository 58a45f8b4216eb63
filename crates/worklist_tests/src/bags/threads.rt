//! Threads that share a log, or one bag of it, lose no chunk and get none twice.

ghost use Rattle.std.specs.Prelude.{◌≡◌, ◌≤◌, All};
ghost use Rattle.obim_bags.specs.Logs.{IsMirrorOf};

use crate::bags::helpers::{chunk_of, open_log, put_by_metric};
use obim_bags::{BagLog, Chunk, ChunkId, Mirror};
use std::alloc::Global;
use std::process::Abort;
use std::sync::Wait;
use std::sync::atomic::{AtomicU64, Ordering};
use std::thread::{Threads, for_each_mut};

// The chunks of each thread.
const CHUNKS: u64 = 5000;

// The number of times that each chunk came, by worker and serial.
fn open_counts(rt: &impl Abort, alloc: Global, workers: u32) -> Vec<AtomicU64> {
    let mut counts = Vec::new(alloc);
    for _ in 0..u64::from(workers) * CHUNKS {
        assert!(rt; counts.push(AtomicU64::new(0)).is_ok());
    }
    counts
}

fn count(rt: &impl Abort, counts: &[AtomicU64], chunk: &Chunk) {
    let ChunkId { worker, serial } = chunk.id();
    assert!(rt; serial < CHUNKS);
    let at = (u64::from(worker) * CHUNKS + serial) as usize;
    assert!(rt; at < counts.len());
    counts[at].fetch_add(1, Ordering::SeqCst);
}

// Asserts that each chunk came once, with those left.
fn expect_each_once(rt: &impl Abort, counts: &[AtomicU64], left: &[Chunk]) {
    for chunk in left {
        count(rt, counts, chunk);
    }
    for count in counts {
        assert!(rt; count.load(Ordering::SeqCst) == 1);
    }
}

// Puts chunks of this worker at metrics in turn, and after every second one gets what is there.
fn work<R: Wait + Abort>(
    rt: &R,
    alloc: Global,
    log: &BagLog,
    mirror: &mut Mirror,
    number: usize,
    metrics: u64,
    counts: &[AtomicU64],
)
    requires mirror { mirror.old.log ≡ log.now }
    requires metrics { 1 ≤ metrics }
    ensures { mirror.new.log ≡ log.now }
{
    let worker = u32::try_from(number).expect(rt, "few workers");
    for serial in 0..CHUNKS {
        let metric = (serial ^ u64::from(worker)) % metrics;
        let chunk = chunk_of(rt, worker, serial, &[worker]);
        put_by_metric(rt, alloc, log, mirror, metric, chunk);
        if serial % 2 == 0 {
            get_each(rt, log, mirror, counts);
        }
    }
}

// Gets a chunk of each bag, if there is one.
fn get_each<R: Wait + Abort>(rt: &R, log: &BagLog, mirror: &mut Mirror, counts: &[AtomicU64])
    requires { mirror.old.log ≡ log.now }
    ensures { mirror.new.log ≡ log.now }
{
    for place in 0..mirror.len() {
        if place < mirror.len() {
            if let Some(chunk) = log.get_at(rt, mirror, place) {
                count(rt, counts, &chunk);
            }
        }
    }
}

fn work_by_threads<R: Threads + Wait + Abort + Sync>(
    rt: &R,
    alloc: Global,
    log: &BagLog,
    mirrors: &mut [Mirror],
    metrics: u64,
    counts: &[AtomicU64],
)
    requires mirrors { All (IsMirrorOf log.now) mirrors.old }
    requires metrics { 1 ≤ metrics }
    ensures { All (IsMirrorOf log.now) mirrors.new }
{
    for_each_mut(
        rt,
        mirrors,
        8,
        &|number, mirror| work(rt, alloc, log, mirror, number, metrics, counts),
    );
}

fn share<R: Threads + Wait + Abort + Sync>(rt: &R, alloc: Global, workers: u32, metrics: u64)
    requires { (1 ≤ workers) × (1 ≤ metrics) }
{
    let counts = open_counts(rt, alloc, workers);
    let (log, mut mirrors) = open_log(rt, alloc, workers);
    work_by_threads(rt, alloc, &log, &mut mirrors, metrics, &counts);
    let left = log.drain(rt, alloc, mirrors);
    expect_each_once(rt, &counts, &left.expect(rt, "all mirrors"));
}

#[test]
fn a_bag_of_two_and_of_four_threads(rt: HostRuntime) {
    share(&rt, rt.alloc(), 2, 1);
    share(&rt, rt.alloc(), 4, 1);
}

#[test]
fn a_log_of_two_and_of_four_threads(rt: HostRuntime) {
    share(&rt, rt.alloc(), 2, 7);
    share(&rt, rt.alloc(), 4, 7);
}
