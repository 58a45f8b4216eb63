//! Threads that share a pool pop each vertex once and lose none.

ghost use Rattle.std.specs.Prelude.{All};

use crate::pools::obim::open_pool;
use obim_pool::{LockedPool, WorkPool};
use std::alloc::Global;
use std::process::Abort;
use std::sync::Wait;
use std::sync::atomic::{AtomicU64, Ordering};
use std::thread::{Threads, for_each_mut};

// The vertices that each thread pushes, and their metrics.
const PUSHES: u32 = 5000;

const METRICS: u32 = 7;

// The number of times that each vertex was popped.
fn open_counts<R: Abort>(rt: &R, alloc: Global, workers: usize) -> Vec<AtomicU64> {
    let mut counts = Vec::new(alloc);
    for _ in 0..workers.saturating_mul(PUSHES as usize) {
        assert!(rt; counts.push(AtomicU64::new(0)).is_ok());
    }
    counts
}

fn pop<P: WorkPool, R: Wait + Abort>(
    rt: &R,
    pool: &P,
    side: &mut P::Side,
    counts: &[AtomicU64],
) -> bool
    requires { P.is_side pool.now side.old }
    ensures { P.is_side pool.now side.new }
{
    let Some(v) = pool.pop(rt, side) else {
        return false;
    };
    let count = counts
        .get(v as usize)
        .expect(rt, "a vertex that was pushed");
    count.fetch_add(1, Ordering::SeqCst);
    true
}

// Pushes this worker's vertices, and pops after two of three pushes.
fn work<P: WorkPool, R: Wait + Abort>(
    rt: &R,
    pool: &P,
    side: &mut P::Side,
    number: usize,
    counts: &[AtomicU64],
)
    requires { P.is_side pool.now side.old }
    ensures { P.is_side pool.now side.new }
{
    let worker = u32::try_from(number).expect(rt, "few workers");
    let first = worker.wrapping_mul(PUSHES);
    for at in 0..PUSHES {
        let v = first.wrapping_add(at);
        assert!(rt; pool.push(rt, side, v, u64::from(v % METRICS)));
        if at % 3 > 0 {
            pop(rt, pool, side, counts);
        }
    }
}

fn pop_rest<P: WorkPool, R: Wait + Abort>(
    rt: &R,
    pool: &P,
    side: &mut P::Side,
    counts: &[AtomicU64],
)
    requires { P.is_side pool.now side.old }
    ensures { P.is_side pool.now side.new }
{
    for _ in 0..counts.len() {
        pop(rt, pool, side, counts);
    }
    assert!(rt; !pop(rt, pool, side, counts));
}

// Each worker by a thread of its own; then each pops what is left. Every vertex was popped once.
fn share<P: WorkPool<Side = S> + Sync, S: Send, R: Threads + Wait + Abort + Sync>(
    rt: &R,
    pool: &P,
    sides: &mut [S],
    counts: &[AtomicU64],
)
    requires { All (P.is_side pool.now) sides.old }
    ensures { All (P.is_side pool.now) sides.new }
{
    for_each_mut(
        rt,
        sides,
        8,
        &|number, side| work(rt, pool, side, number, counts),
    );
    for_each_mut(rt, sides, 1, &|_, side| pop_rest(rt, pool, side, counts));
    for count in counts {
        assert!(rt; count.load(Ordering::SeqCst) == 1);
    }
}

#[test]
fn of_a_pool_of_bags(rt: HostRuntime) {
    let alloc = rt.alloc();
    for (workers, chunk) in [(2, 16), (4, 2), (8, 1)] {
        let (pool, mut sides) = open_pool(&rt, alloc, workers, chunk);
        let counts = open_counts(&rt, alloc, sides.len());
        share(&rt, &pool, &mut sides, &counts);
        let left = pool.settle(&rt, alloc, sides);
        assert!(rt; left.is_ok_and(|left| left.is_empty()), "{workers} workers");
    }
}

#[test]
fn of_a_locked_pool(rt: HostRuntime) {
    let (pool, mut sides) = LockedPool::open(rt.alloc(), 2).expect(&rt, "memory for a pool");
    let counts = open_counts(&rt, rt.alloc(), 2);
    share(&rt, &pool, &mut sides, &counts);
}
