//! The operators: distances, hop levels and components.

ghost use Rattle.std.specs.Prelude.{◌≡◌, ◌<◌, ◌≤◌, ◌^◌, length, All, IfOk};
ghost use Rattle.obim_engine.specs.Workers.{CanLead};
ghost use Rattle.route_walks.specs.Label.{AreLeastLabels};
ghost use Rattle.route_walks.specs.Operators.{seeds_from, seeds_all, unit_weights, both_ways};
ghost use Rattle.route_walks.specs.Walk.{AreSeeds, HaveSameArcs};

use crate::gate::Gate;
use crate::hints::widths::widths_of;
use crate::opened::Opened;
use crate::runs::{RunFault, solve};
use crate::settings::{Buckets, MAX_SHIFT, MAX_WORKERS, Settings, Setup};
use crate::shared::Run;
use csr_graph::Csr;
use obim_pool::{ObimPool, ObimSide, WideningPool, WorkPool, Worklist};
use route_walks::{Memory, Seed, seeds_all, seeds_from, unit_weights};
use std::alloc::Global;
use std::sync::Wait;
use std::thread::Threads;
use std::time::Clock;

/// The least cost of a walk from the source to each vertex; `INF` if no walk leads there.
pub fn distances<H: Threads + Wait + Clock + Sync, G: Gate + Sync>(
    rt: &H,
    alloc: Global,
    csr: &Csr,
    source: u32,
    settings: &Settings,
    gate: &G,
) -> Result<Vec<u64>, RunFault>
    requires { source < csr.now.n }
    ensures { IfOk result
        (λ labels. AreLeastLabels csr.now.n csr.now.arcs (seeds_from source) labels.items) }
{
    let seeds = seeds_from(alloc, source)?;
    least_labels(rt, alloc, csr, seeds, settings, gate)
}

/// The fewest arcs of a walk from the source to each vertex; `INF` if no walk leads there. Each call makes a graph with
/// weights of 1: for many sources make it once, and ask for `distances`.
pub fn levels<H: Threads + Wait + Clock + Sync, G: Gate + Sync>(
    rt: &H,
    alloc: Global,
    csr: &Csr,
    source: u32,
    settings: &Settings,
    gate: &G,
) -> Result<Vec<u64>, RunFault>
    requires { source < csr.now.n }
    ensures { IfOk result (λ labels.
        AreLeastLabels csr.now.n (unit_weights csr.now.arcs) (seeds_from source) labels.items) }
{
    let units = unit_rows(alloc, csr)?;
    // What is least in the rows is least for the list that they were built of.
    route_walks::laws::least_labels_follow_the_arcs();
    distances(rt, alloc, &units, source, settings, gate)
}

/// The least number, from 0, of a vertex connected with each vertex, whichever way arcs point. The graph has at most
/// 2^31 arcs.
pub fn components<H: Threads + Wait + Clock + Sync, G: Gate + Sync>(
    rt: &H,
    alloc: Global,
    csr: &Csr,
    settings: &Settings,
    gate: &G,
) -> Result<Vec<u64>, RunFault>
    requires { length csr.now.arcs ≤ 2 ^ 31 }
    ensures { IfOk result (λ labels.
        AreLeastLabels csr.now.n (both_ways csr.now.arcs) (seeds_all csr.now.n) labels.items) }
{
    let both = both_rows(rt, alloc, csr, settings.workers as usize)?;
    let seeds = seeds_all(alloc, csr.n())?;
    // What is least in the rows is least for the list that they were built of.
    route_walks::laws::least_labels_follow_the_arcs();
    least_labels(rt, alloc, &both, seeds, settings, gate)
}

/// The least label of each vertex, over a pool that the settings choose. The seeds are freed before workers start.
fn least_labels<H: Threads + Wait + Clock + Sync, G: Gate + Sync>(
    rt: &H,
    alloc: Global,
    csr: &Csr,
    seeds: Vec<Seed>,
    settings: &Settings,
    gate: &G,
) -> Result<Vec<u64>, RunFault>
    requires { AreSeeds csr.now.n seeds.items }
    ensures { IfOk result
        (λ labels. AreLeastLabels csr.now.n csr.now.arcs seeds.items labels.items) }
{
    let opened = Opened::from_seeds(alloc, csr, &seeds)?;
    drop(seeds);
    let (workers, chunk) = (settings.workers, settings.chunk);
    match settings.buckets {
        Buckets::Widening => {
            let widths = widths_of(csr);
            let (pool, mut sides) = WideningPool::open(alloc, workers, chunk, widths.scale)?;
            let even = Settings {
                workers,
                buckets: Buckets::Even(widths.shift.min(MAX_SHIFT)),
                chunk,
            };
            let setup = Setup {
                settings: &even,
                pool: &pool,
                gate,
            };
            solve_by(rt, alloc, csr, opened, &setup, &mut sides)
        }
        Buckets::Even(_) => {
            let (pool, mut sides) = ObimPool::open(alloc, workers, chunk)?;
            let even = *settings;
            let setup = Setup {
                settings: &even,
                pool: &pool,
                gate,
            };
            solve_by(rt, alloc, csr, opened, &setup, &mut sides)
        }
    }
}

/// Runs on open words to the end, and shows the gate what the worklist did.
fn solve_by<H, P, G>(
    rt: &H,
    alloc: Global,
    csr: &Csr,
    opened: Opened,
    setup: &Setup<'_, P, G>,
    sides: &mut [ObimSide],
) -> Result<Vec<u64>, RunFault>
where
    H: Threads + Wait + Clock + Sync,
    P: WorkPool<Side = ObimSide> + Sync,
    G: Gate + Sync,
    requires seat { CanLead csr.now MAX_WORKERS opened.seat }
    requires some { 1 ≤ length sides.old }
    requires few { length sides.old ≤ MAX_WORKERS }
    requires sides { All (P.is_side setup.now.pool.now) sides.old }
    ensures { IfOk result
        (λ labels. AreLeastLabels csr.now.n csr.now.arcs opened.seat.known.seeds labels.items) }
{
    let run = Run::whole(csr, setup, None);
    let labels = solve(rt, alloc, opened, &run, sides)?;
    setup.gate.end(rt, Worklist::of(sides));
    Ok(labels)
}

fn unit_rows(alloc: Global, csr: &Csr) -> Result<Csr, Memory>
    ensures vertices { IfOk result (λ units. units.n ≡ csr.now.n) }
    ensures arcs { IfOk result (λ units. HaveSameArcs units.arcs (unit_weights csr.now.arcs)) }
{
    let arcs = csr.arcs(alloc)?;
    let units = unit_weights(alloc, &arcs)?;
    drop(arcs);
    Csr::build(alloc, csr.n(), &units)
}

/// The rows of the arcs both ways, free.
fn both_rows<H: Threads + Sync>(
    rt: &H,
    alloc: Global,
    csr: &Csr,
    threads: usize,
) -> Result<Csr, Memory>
    requires { length csr.now.arcs ≤ 2 ^ 31 }
    ensures vertices { IfOk result (λ both. both.n ≡ csr.now.n) }
    ensures arcs { IfOk result (λ both. HaveSameArcs both.arcs (both_ways csr.now.arcs)) }
{
    let arcs = csr.arcs(alloc)?;
    Csr::build_both_ways(rt, alloc, csr.n(), arcs, threads)
}
