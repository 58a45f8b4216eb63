//! Tests of `run` and the operators: a table of graphs, with labels by another program.

ghost use Rattle.std.specs.Prelude.{IfOk};
ghost use Rattle.route_walks.specs.Label.{AreLeastLabels};
ghost use Rattle.route_walks.specs.Walk.{AreSeeds};
ghost use Rattle.obim_engine.specs.Goal.{IsGoalWithin};

use crate::runs::graphs::{SIX_LABELS, rows_of, same_labels};
use crate::runs::pieces::{Kind, Piece, pause_after};
use crate::runs::settings;
use csr_graph::Csr;
use obim_engine::{
    Goal, OpenGate, RunFault, Settings, Setup, components, distances, levels, resume_until, run,
    run_until,
};
use obim_pool::{LockedPool, ObimPool};
use route_walks::{ArcRec, EXAMPLE_ARCS, EXAMPLE_SEEDS, INF, Seed, arcs, are_seeds};
use std::alloc::Global;
use std::process::Abort;
use std::sync::Wait;
use std::test::Fail;
use std::thread::Threads;
use std::time::Clock;

/// A call, with its source or its seeds.
#[derive(Clone, Copy)]
pub(crate) enum Ask {
    Run(&'static [Seed]),
    Distances(u32),
    Levels(u32),
    Components,
    RunUntil(&'static [Seed], Goal<'static>),
    ResumeUntil(&'static [Seed], Goal<'static>),
}

use Ask::{Components, Distances, Levels, ResumeUntil, Run, RunUntil};

const CIRCLE: [ArcRec; 3] = arcs![(2, 1, 5), (0, 1, 0), (1, 0, 0)];

const HEAVY: [ArcRec; 2] = arcs![(0, 1, u32::MAX), (1, 2, u32::MAX)];

const PARALLEL: [ArcRec; 3] = arcs![(0, 1, 7), (0, 1, 3), (0, 0, 0)];

const AGAINST: [ArcRec; 1] = arcs![(1, 0, 5)];

/// In no order, two of them at one vertex.
const SEVERAL: [Seed; 3] = [
    Seed {
        vertex: 4,
        start: 3,
    },
    Seed {
        vertex: 2,
        start: 9,
    },
    Seed {
        vertex: 2,
        start: 1,
    },
];

const FROM_1: [Seed; 1] = [Seed {
    vertex: 1,
    start: 0,
}];

const FROM_2: [Seed; 1] = [Seed {
    vertex: 2,
    start: 0,
}];

/// The vertex with the greatest label.
pub(crate) const FARTHEST: Goal<'static> = Goal::Targets(&[5]);

/// Vertices, arcs, what is asked, and the labels.
const ROWS: &[(u32, &[ArcRec], Ask, &[u64])] = &[
    (6, &EXAMPLE_ARCS, Distances(0), &SIX_LABELS),
    (6, &EXAMPLE_ARCS, Distances(2), &[INF, 0, 0, 2, 0, 5]),
    (6, &EXAMPLE_ARCS, Distances(4), &[INF, 0, 2, 2, 0, 5]),
    (6, &EXAMPLE_ARCS, Levels(0), &[0, 1, 1, 2, 2, 3]),
    (6, &EXAMPLE_ARCS, Levels(2), &[INF, 2, 0, 3, 1, 2]),
    (6, &EXAMPLE_ARCS, Levels(4), &[INF, 1, 3, 2, 0, 1]),
    (6, &EXAMPLE_ARCS, Components, &[0; 6]),
    (6, &EXAMPLE_ARCS, Run(&SEVERAL), &[INF, 1, 1, 3, 1, 6]),
    (
        6,
        &EXAMPLE_ARCS,
        RunUntil(&EXAMPLE_SEEDS, FARTHEST),
        &SIX_LABELS,
    ),
    (
        6,
        &EXAMPLE_ARCS,
        RunUntil(&EXAMPLE_SEEDS, Goal::WalksTo(&[3, 5])),
        &SIX_LABELS,
    ),
    (
        6,
        &EXAMPLE_ARCS,
        RunUntil(&EXAMPLE_SEEDS, Goal::Within(15)),
        &SIX_LABELS,
    ),
    (
        6,
        &EXAMPLE_ARCS,
        RunUntil(&SEVERAL, Goal::Targets(&[0, 1])),
        &[INF, 1, 1, 3, 1, 6],
    ),
    (
        6,
        &EXAMPLE_ARCS,
        ResumeUntil(&SEVERAL, FARTHEST),
        &[INF, 1, 1, 3, 1, 6],
    ),
    (
        3,
        &CIRCLE,
        RunUntil(&FROM_2, Goal::WalksTo(&[0])),
        &[5, 5, 0],
    ),
    (
        3,
        &HEAVY,
        RunUntil(&EXAMPLE_SEEDS, Goal::Within(u64::MAX)),
        &[0, 4294967295, 8589934590],
    ),
    (
        3,
        &AGAINST,
        RunUntil(&FROM_1, Goal::Targets(&[2])),
        &[5, 0, INF],
    ),
    (3, &CIRCLE, Distances(2), &[5, 5, 0]),
    (3, &CIRCLE, Levels(2), &[2, 1, 0]),
    (3, &CIRCLE, Components, &[0, 0, 0]),
    (3, &HEAVY, Distances(0), &[0, 4294967295, 8589934590]),
    (3, &HEAVY, Distances(2), &[INF, INF, 0]),
    (3, &HEAVY, Levels(0), &[0, 1, 2]),
    (3, &HEAVY, Levels(2), &[INF, INF, 0]),
    (3, &HEAVY, Components, &[0, 0, 0]),
    (2, &PARALLEL, Distances(0), &[0, 3]),
    (2, &PARALLEL, Levels(0), &[0, 1]),
    (2, &PARALLEL, Components, &[0, 0]),
    (3, &AGAINST, Distances(1), &[5, 0, INF]),
    (3, &AGAINST, Levels(1), &[1, 0, INF]),
    (3, &AGAINST, Components, &[0, 0, 2]),
    (1, &[], Distances(0), &[0]),
    (1, &[], Levels(0), &[0]),
    (1, &[], Components, &[0]),
    (0, &[], Run(&[]), &[]),
    (0, &[], RunUntil(&[], Goal::EachVertex), &[]),
    (0, &[], Components, &[]),
];

/// The labels of a run over each pool of `obim_pool`.
fn run_from<H: Threads + Wait + Clock + Abort + Sync>(
    rt: &H,
    alloc: Global,
    csr: &Csr,
    seeds: &[Seed],
    settings: &Settings,
) -> Result<Vec<u64>, RunFault>
    requires { AreSeeds csr.now.n seeds.now }
    ensures { IfOk result
        (λ labels. AreLeastLabels csr.now.n csr.now.arcs seeds.now labels.items) }
{
    let (pool, mut sides) = LockedPool::open(alloc, settings.workers)?;
    let locked = run(
        rt, alloc, csr, seeds, settings, &pool, &mut sides, &OpenGate,
    )?;
    let (pool, mut sides) = ObimPool::open(alloc, settings.workers, settings.chunk)?;
    let labels = run(
        rt, alloc, csr, seeds, settings, &pool, &mut sides, &OpenGate,
    )?;
    assert!(rt; labels.as_slice() == locked.as_slice());
    Ok(labels)
}

/// A piece that settles no graph with two marked vertices: one worker visits one of them.
fn one_visit(rt: &impl Abort) -> Piece {
    Piece {
        settings: settings(rt, 1, 2, false),
        kind: Kind::Locked,
        budget: 1,
    }
}

/// The labels of a run that stops at a goal.
fn run_as_far<H: Threads + Wait + Clock + Abort + Sync>(
    rt: &H,
    alloc: Global,
    csr: &Csr,
    seeds: &[Seed],
    goal: Goal<'_>,
    settings: &Settings,
) -> Result<Vec<u64>, RunFault>
    requires seeds { AreSeeds csr.now.n seeds.now }
    requires goal { IsGoalWithin csr.now.n goal }
{
    let (pool, mut sides) = ObimPool::open(alloc, settings.workers, settings.chunk)?;
    let setup = Setup {
        settings,
        pool: &pool,
        gate: &OpenGate,
    };
    let reached = run_until(rt, alloc, csr, seeds, goal, &setup, &mut sides)?;
    Ok(reached.closed.into_labels())
}

/// The labels of a run that goes on after one visit, and stops at a goal.
fn resume_as_far<H: Threads + Wait + Clock + Abort + Sync>(
    rt: &H,
    alloc: Global,
    csr: &Csr,
    seeds: &[Seed],
    goal: Goal<'_>,
    settings: &Settings,
) -> Result<Vec<u64>, RunFault>
    requires seeds { AreSeeds csr.now.n seeds.now }
    requires goal { IsGoalWithin csr.now.n goal }
{
    let piece = one_visit(rt);
    let rest = pause_after(rt, alloc, csr, seeds, None, &piece)?;
    let (pool, mut sides) = ObimPool::open(alloc, settings.workers, settings.chunk)?;
    let setup = Setup {
        settings,
        pool: &pool,
        gate: &OpenGate,
    };
    let reached = resume_until(rt, alloc, csr, rest, goal, &setup, &mut sides)?;
    Ok(reached.closed.into_labels())
}

pub(crate) fn labels_of<H: Threads + Wait + Clock + Abort + Sync>(
    rt: &H,
    alloc: Global,
    csr: &Csr,
    ask: Ask,
    settings: &Settings,
) -> Result<Vec<u64>, RunFault> {
    match ask {
        Distances(source) if source < csr.n() => {
            distances(rt, alloc, csr, source, settings, &OpenGate)
        }
        Levels(source) if source < csr.n() => levels(rt, alloc, csr, source, settings, &OpenGate),
        Components if csr.arc_count() <= 1 << 31 => {
            components(rt, alloc, csr, settings, &OpenGate)
        }
        Run(seeds) if are_seeds(csr.n(), seeds) => run_from(rt, alloc, csr, seeds, settings),
        RunUntil(seeds, goal) if are_seeds(csr.n(), seeds) && goal.is_within(csr.n()) => {
            run_as_far(rt, alloc, csr, seeds, goal, settings)
        }
        ResumeUntil(seeds, goal) if are_seeds(csr.n(), seeds) && goal.is_within(csr.n()) => {
            resume_as_far(rt, alloc, csr, seeds, goal, settings)
        }
        _ => panic!(rt; "asked of another graph"),
    }
}

/// The workers, and true if buckets widen.
const SETTINGS: &[(u32, bool)] = &[(1, false), (2, false), (8, false), (1, true), (8, true)];

#[test]
fn each_call_on_small_graphs(rt: HostRuntime) -> Result<(), Fail> {
    let alloc = rt.alloc();
    for (row, &(n, arcs, ask, want)) in ROWS.iter().enumerate() {
        let csr = rows_of(&rt, alloc, n, arcs)?;
        for &(workers, widening) in SETTINGS {
            let settings = settings(&rt, workers, 2, widening);
            let labels = labels_of(&rt, alloc, &csr, ask, &settings)?;
            same_labels(&rt, row, &labels, want);
        }
    }
    Ok(())
}
