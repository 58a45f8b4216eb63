//! A gate that holds a worker back and counts.

use crate::runs::graphs::{random_arcs, rows_of, star, street_arcs};
use csr_graph::Csr;
use obim_engine::{Gate, Settings, Worklist, distances};
use std::alloc::Global;
use std::process::Abort;
use std::sync::Wait;
use std::sync::atomic::{AtomicU64, Ordering};
use std::test::Fail;
use std::thread::{Threads, sleep};
use std::time::{Clock, Duration};

/// Holds one worker at one of its visits, as a busy machine does, and counts visits and chunks.
#[derive(Drop)]
pub(crate) struct Holding<'a, C> {
    clock: &'a C,
    held: u32,
    /// The visit, counted from 1; 0 for none.
    at: u64,
    visits_of_held: AtomicU64,
    visits: AtomicU64,
    pub chunks: AtomicU64,
}

impl<'a, C> Holding<'a, C> {
    pub fn new(clock: &'a C, (held, at): (u32, u64)) -> Holding<'a, C> {
        Holding {
            clock,
            held,
            at,
            visits_of_held: AtomicU64::new(0),
            visits: AtomicU64::new(0),
            chunks: AtomicU64::new(0),
        }
    }
}

impl<'a, C: Clock> Gate for Holding<'a, C> {
    fn pass<H: Wait>(&self, _rt: &H, worker: u32, _vertex: u32) {
        self.visits.fetch_add(1, Ordering::Relaxed);
        if worker != self.held {
            return;
        }
        let before = self.visits_of_held.fetch_add(1, Ordering::Relaxed);
        if before.wrapping_add(1) == self.at {
            sleep(self.clock, Duration::from_millis(50));
        }
    }

    fn end<H: Wait>(&self, _rt: &H, worklist: Worklist) {
        self.chunks.fetch_add(worklist.chunks, Ordering::Relaxed);
    }
}

/// The labels, visits and chunks of a run.
#[derive(Drop)]
struct Counted {
    labels: Vec<u64>,
    visits: u64,
    chunks: u64,
}

/// Counts over a run with a worker held at one of its visits for a twentieth of a second.
fn count<H: Threads + Wait + Clock + Abort + Sync>(
    rt: &H,
    alloc: Global,
    csr: &Csr,
    source: u32,
    settings: &Settings,
    held: (u32, u64),
) -> Result<Counted, Fail> {
    let gate = Holding::new(rt, held);
    let within = source < csr.n();
    assert!(rt; within);
    let labels = distances(rt, alloc, csr, source, settings, &gate)?;
    Ok(Counted {
        labels,
        visits: gate.visits.load(Ordering::Relaxed),
        chunks: gate.chunks.load(Ordering::Relaxed),
    })
}

/// Chunks of a size, and the narrowest buckets.
pub(crate) fn settings_of(rt: &impl Abort, workers: u32, chunk: usize) -> Settings {
    let settings = Settings::new(workers, 0, chunk);
    settings.expect(rt, "settings within their limits")
}

/// A chunk's size, and the chunks that one worker opens on a star of 64 leaves, with even buckets and with widening
/// ones. These put vertex 0 into the bucket of the leaves, which go on with its chunk if it isn't full.
const CHUNKS: &[(usize, u64, u64)] = &[
    (1, 65, 65),
    (3, 23, 22),
    (16, 5, 4),
    (64, 2, 1),
    (256, 2, 1),
];

fn chunks_by<H: Threads + Wait + Clock + Abort + Sync>(
    rt: &H,
    alloc: Global,
    csr: &Csr,
    settings: &Settings,
) -> Result<u64, Fail> {
    Ok(count(rt, alloc, csr, 0, settings, (0, 0))?.chunks)
}

#[test]
fn chunks_are_of_the_size_asked(rt: HostRuntime) -> Result<(), Fail> {
    let csr = star(&rt, rt.alloc(), 65, 1)?;
    for &(chunk, chunks, wide) in CHUNKS {
        let narrow = settings_of(&rt, 1, chunk);
        let in_narrow = chunks_by(&rt, rt.alloc(), &csr, &narrow)?;
        assert!(rt; in_narrow == chunks, "chunks of {chunk}");
        let in_wide = chunks_by(&rt, rt.alloc(), &csr, &narrow.with_widening_buckets())?;
        assert!(rt; in_wide == wide, "wide, chunks of {chunk}");
    }
    Ok(())
}

/// A shift, or widening buckets, and the most visits of one worker to 3,000 vertices: a tenth more than it makes.
const VISITS: &[(Option<u32>, u64)] = &[(None, 3_300), (Some(4), 3_300), (Some(10), 3_900)];

fn settings_by(rt: &impl Abort, shift: Option<u32>) -> Settings {
    let narrow = Settings::new(1, shift.unwrap_or(0), 256);
    let narrow = narrow.expect(rt, "settings within their limits");
    if shift.is_some() {
        narrow
    } else {
        narrow.with_widening_buckets()
    }
}

fn expect_visits<H: Threads + Wait + Clock + Abort + Sync>(
    rt: &H,
    alloc: Global,
    csr: &Csr,
    settings: &Settings,
    most: u64,
) -> Result<(), Fail> {
    let visits = count(rt, alloc, csr, 0, settings, (0, 0))?.visits;
    assert!(rt; visits <= most, "{visits} visits of at most {most}");
    Ok(())
}

// A random graph whose vertices are nearly all reached: a sweep would find a lost vertex too early for its label.
#[test]
fn few_visits_of_random_arcs(rt: HostRuntime) -> Result<(), Fail> {
    let alloc = rt.alloc();
    let csr = rows_of(&rt, alloc, 3_000, &random_arcs(alloc, 3_000, 15_000)?)?;
    for &(shift, most) in VISITS {
        expect_visits(&rt, alloc, &csr, &settings_by(&rt, shift), most)?;
    }
    Ok(())
}

// A long strip of streets: buckets that only widen make 1.17 visits a vertex of it.
#[test]
fn few_visits_of_a_long_strip(rt: HostRuntime) -> Result<(), Fail> {
    let alloc = rt.alloc();
    let csr = rows_of(
        &rt,
        alloc,
        268_800,
        &street_arcs(alloc, 2100, 128, 24, 1877)?,
    )?;
    expect_visits(&rt, alloc, &csr, &settings_by(&rt, None), 295_680)
}

/// The number of workers, and the worker and visit that are held.
const HELD: &[(u32, u64)] = &[
    (2, 1),
    (2, 20),
    (2, 200),
    (2, 5000),
    (4, 1),
    (4, 20),
    (4, 200),
    (4, 5000),
    (8, 1),
    (8, 200),
];

fn count_in_grid<H: Threads + Wait + Clock + Abort + Sync>(
    rt: &H,
    alloc: Global,
    csr: &Csr,
    workers: u32,
    held: (u32, u64),
) -> Result<Counted, Fail> {
    let settings = settings_of(rt, workers, 16).with_widening_buckets();
    count(rt, alloc, csr, 125_250, &settings, held)
}

/// Asserts the labels of one worker alone, for not much more work.
fn expect_like(rt: &impl Abort, row: usize, counted: &Counted, alone: &Counted) {
    assert!(rt;
        counted.labels.as_slice() == alone.labels.as_slice(),
        "row {row}"
    );
    let few = counted.visits <= alone.visits.saturating_mul(13) / 10;
    assert!(rt; few, "row {row}: {} visits", counted.visits);
    let dense = counted.chunks <= alone.chunks.saturating_mul(3) / 2;
    assert!(rt; dense, "row {row}: {} chunks", counted.chunks);
}

/// A square of 500 by 500 vertices with streets both ways, of lengths 200 to 3199.
fn grid(rt: &impl Abort, alloc: Global) -> Result<Csr, Fail> {
    let arcs = street_arcs(alloc, 500, 500, 200, 3000)?;
    rows_of(rt, alloc, 250_000, &arcs)
}

// The others wait for a worker that is held with much of the work.
#[test]
fn a_worker_that_is_held(rt: HostRuntime) -> Result<(), Fail> {
    let alloc = rt.alloc();
    let csr = grid(&rt, alloc)?;
    let alone = count_in_grid(&rt, alloc, &csr, 1, (0, 0))?;
    for round in 0..4_u32 {
        for (row, &(workers, at)) in HELD.iter().enumerate() {
            let held = (round + row as u32) % workers.max(1);
            let counted = count_in_grid(&rt, alloc, &csr, workers, (held, at))?;
            expect_like(&rt, row, &counted, &alone);
        }
    }
    Ok(())
}
