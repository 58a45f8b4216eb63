//! Tests of what a gate and a pool see of workers, and of random yields.

ghost use Rattle.std.specs.Prelude.{◌<◌, ⊤};

use crate::runs::gates::settings_of;
use crate::runs::graphs::{random_arcs, rows_of, same_labels, star};
use crate::runs::pools::{Unused, Useless};
use crate::runs::settings;
use crate::runs::yielding::Yielding;
use csr_graph::Csr;
use obim_engine::{Gate, OpenGate, distances, run};
use obim_pool::WorkPool;
use route_walks::EXAMPLE_SEEDS;
use std::alloc::Global;
use std::process::Abort;
use std::sync::Wait;
use std::sync::atomic::{AtomicU64, Ordering};
use std::test::Fail;
use std::thread::{Threads, yield_now};
use std::time::Clock;

/// The most turns that a worker waits.
const TURNS: u32 = 10_000_000;

/// Holds each worker at its first leaf until all have one, and keeps their numbers.
#[derive(Drop)]
struct Numbers {
    came: AtomicU64,
    all: u64,
}

impl Gate for Numbers {
    fn pass<H: Wait>(&self, _rt: &H, worker: u32, vertex: u32) {
        let bit = 1_u64 << worker.min(63);
        if vertex == 0 || self.came.fetch_or(bit, Ordering::SeqCst) & bit != 0 {
            return;
        }
        for _ in 0..TURNS {
            if self.came.load(Ordering::SeqCst) == self.all {
                return;
            }
            yield_now();
        }
    }
}

/// The workers, and a bit for each.
const NUMBERS: &[(u32, u64)] = &[(1, 0b1), (2, 0b11), (4, 0b1111)];

#[test]
fn each_worker_has_its_number(rt: HostRuntime) -> Result<(), Fail> {
    let alloc = rt.alloc();
    let csr = star(&rt, alloc, 65, 1)?;
    for &(workers, all) in NUMBERS {
        let came = AtomicU64::new(0);
        let gate = Numbers { came, all };
        distances(&rt, alloc, &csr, 0, &settings_of(&rt, workers, 1), &gate)?;
        assert!(rt;
            gate.came.load(Ordering::SeqCst) == all,
            "{workers} workers"
        );
    }
    Ok(())
}

/// Gives vertex 1 to the other worker at once, and keeps its pusher in the push until the other has popped again.
#[derive(Drop)]
struct Relay {
    /// The vertex that waits, plus 1; 0 for none.
    waiting: AtomicU64,
    /// The pops since vertex 1 was given, with that one.
    pops: AtomicU64,
    /// These pops when vertex 1 was visited.
    pops_at_visit: AtomicU64,
}

impl WorkPool for Relay {
    type Side = Unused;

    ghost is_side = { λ _ _. ⊤ };

    fn push<H: Wait>(&self, _rt: &H, _side: &mut Unused, v: u32, _metric: u64) -> bool {
        self.waiting.store(u64::from(v) + 1, Ordering::SeqCst);
        for _ in 0..TURNS {
            if v == 0 || self.pops.load(Ordering::SeqCst) > 1 {
                break;
            }
            yield_now();
        }
        true
    }

    fn pop<H: Wait>(&self, _rt: &H, _side: &mut Unused) -> Option<u32> {
        let found = self.waiting.swap(0, Ordering::SeqCst);
        if found == 2 || self.pops.load(Ordering::SeqCst) > 0 {
            self.pops.fetch_add(1, Ordering::SeqCst);
        }
        u32::try_from(found.checked_sub(1)?).ok()
    }
}

impl Gate for Relay {
    fn pass<H: Wait>(&self, _rt: &H, _worker: u32, vertex: u32) {
        if vertex == 1 {
            let pops = self.pops.load(Ordering::SeqCst);
            self.pops_at_visit.store(pops, Ordering::SeqCst);
        }
    }
}

// A vertex is marked before it is pushed, so a worker that gets it at once visits it.
#[test]
fn a_vertex_is_marked_before_it_is_pushed(rt: HostRuntime) -> Result<(), Fail> {
    let (alloc, seeds) = (rt.alloc(), EXAMPLE_SEEDS);
    let csr = star(&rt, alloc, 2, 1)?;
    let relay = Relay {
        waiting: AtomicU64::new(0),
        pops: AtomicU64::new(0),
        pops_at_visit: AtomicU64::new(0),
    };
    let mut sides = Useless::sides(alloc, 2)?;
    let settings = settings(&rt, 2, 0, false);
    let labels = run(
        &rt, alloc, &csr, &seeds, &settings, &relay, &mut sides, &relay,
    )?;
    same_labels(&rt, 0, &labels, &[0, 1]);
    assert!(rt; relay.pops_at_visit.load(Ordering::SeqCst) == 1);
    Ok(())
}

/// Holds a worker before one random visit in eight for up to 248 turns of a loop, and before one in 2,048 until other
/// processes have had the processor.
#[derive(Drop)]
struct Dawdling {
    state: AtomicU64,
    yielding: Yielding,
}

impl Dawdling {
    fn new(seed: u64) -> Dawdling {
        Dawdling {
            state: AtomicU64::new(seed),
            yielding: Yielding::new(seed),
        }
    }
}

impl Gate for Dawdling {
    fn pass<H: Wait>(&self, rt: &H, worker: u32, vertex: u32) {
        // Knuth's increment, and a mix of the bits (splitmix64).
        let bits = self.state.fetch_add(1442695040888963407, Ordering::Relaxed);
        let drawn = (bits ^ bits >> 30).wrapping_mul(0xbf58476d1ce4e5b9) >> 56;
        if drawn == 0 {
            self.yielding.pass(rt, worker, vertex);
        } else if drawn < 32 {
            for _ in 0..8 * drawn {
                self.state.load(Ordering::SeqCst);
            }
        }
    }
}

fn expect_held<H: Threads + Wait + Clock + Abort + Sync>(
    rt: &H,
    alloc: Global,
    csr: &Csr,
    want: &[u64],
    round: u32,
    workers: u32,
) -> Result<(), Fail>
    requires { 0 < csr.now.n }
{
    let gate = Dawdling::new(u64::from(round) * 8 + u64::from(workers));
    let settings = settings(rt, workers, 3 + round % 8, false);
    let labels = distances(rt, alloc, csr, 0, &settings, &gate)?;
    assert!(rt;
        labels.as_slice() == want,
        "round {round}, workers {workers}"
    );
    Ok(())
}

// On a graph that has many bags: the same labels each time.
#[test]
fn workers_that_are_held_at_random(rt: HostRuntime) -> Result<(), Fail> {
    let (alloc, n) = (rt.alloc(), 20_000);
    let csr = rows_of(&rt, alloc, n, &random_arcs(alloc, n, 80_000)?)?;
    let one = distances(&rt, alloc, &csr, 0, &settings(&rt, 1, 7, false), &OpenGate)?;
    for round in 0..24_u32 {
        for workers in [2, 4, 8] {
            expect_held(&rt, alloc, &csr, &one, round, workers)?;
        }
    }
    Ok(())
}
