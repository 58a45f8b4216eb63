//! Tests of runs that stop at a goal: beside whole runs, and over pools that lose, repeat and invent vertices. They
//! also bound visits.

ghost use Rattle.std.specs.Prelude.{◌≡◌, ◌<◌, length, All, IfOk};
ghost use Rattle.route_walks.specs.Label.{AreLeastLabels};
ghost use Rattle.route_walks.specs.Walk.{AreSeeds};
ghost use Rattle.obim_engine.specs.Goal.{IsGoalWithin};

use crate::runs::draws::Draws;
use crate::runs::graphs::{SIX_LABELS, rows_of, same_labels, six, street_arcs};
use crate::runs::hostile::Hostile;
use crate::runs::pieces::Kind;
use crate::runs::pools::{Misleading, Useless};
use crate::runs::searches::{Search, reach};
use crate::runs::settings;
use csr_graph::Csr;
use obim_engine::{
    Closed, Gate, Goal, OpenGate, RunFault, Settings, Setup, distances, resume_until, run_until,
};
use obim_pool::{LockedPool, ObimPool, Scale, WideningPool, WorkPool};
use route_walks::{ArcRec, EXAMPLE_SEEDS, INF, Memory, Seed};
use std::alloc::Global;
use std::process::Abort;
use std::sync::Wait;
use std::sync::atomic::{AtomicU64, Ordering};
use std::test::Fail;
use std::thread::Threads;
use std::time::Clock;

/// A graph of 3,001 vertices, the last without an arc.
#[derive(Clone, Copy, Debug)]
enum Shape {
    /// Random arcs, with weights below 1,000.
    Random,
    /// Most arcs lead to few vertices.
    Hubs,
    /// Streets both ways.
    Grid,
    /// One vertex after another.
    Path,
    /// Random free arcs.
    Free,
}

const SHAPES: [Shape; 5] = [
    Shape::Random,
    Shape::Hubs,
    Shape::Grid,
    Shape::Path,
    Shape::Free,
];

/// Arcs among 3,000 vertices, most of them to low ones if there are hubs.
fn drawn_arcs(alloc: Global, hubs: bool, weights: u32) -> Result<Vec<ArcRec>, Memory> {
    let mut draws = Draws::new();
    let mut arcs = Vec::new(alloc);
    for _ in 0..15_000_u32 {
        let (tail, mut head) = (draws.below(3_000), draws.below(3_000));
        if hubs {
            head = draws.below(head.saturating_add(1));
            head = draws.below(head.saturating_add(1));
        }
        arcs.push(ArcRec::new(tail, head, draws.below(weights)))?;
    }
    Ok(arcs)
}

fn path_arcs(alloc: Global) -> Result<Vec<ArcRec>, Memory> {
    let mut arcs = Vec::new(alloc);
    for v in 0..2_999_u32 {
        arcs.push(ArcRec::new(v, v + 1, 1))?;
    }
    Ok(arcs)
}

fn graph_of(rt: &impl Abort, alloc: Global, shape: Shape) -> Result<Csr, Fail>
    ensures { IfOk result (λ csr. csr.n ≡ 3001) }
{
    let arcs = match shape {
        Shape::Random => drawn_arcs(alloc, false, 1_000)?,
        Shape::Hubs => drawn_arcs(alloc, true, 1_000)?,
        Shape::Grid => street_arcs(alloc, 60, 50, 200, 3_000)?,
        Shape::Path => path_arcs(alloc)?,
        Shape::Free => drawn_arcs(alloc, false, 1)?,
    };
    rows_of(rt, alloc, 3_001, &arcs)
}

/// The goal of a run, by places in the order of labels.
#[derive(Clone, Copy, Debug)]
enum Wanted {
    Each,
    Nothing,
    Labels(usize, usize),
    Walks(usize, usize),
    Within(usize),
    /// The vertex that has no arc.
    Unreached,
}

const WANTED: [Wanted; 8] = [
    Wanted::Each,
    Wanted::Nothing,
    Wanted::Labels(0, 3),
    Wanted::Labels(400, 30),
    Wanted::Walks(5, 250),
    Wanted::Within(100),
    Wanted::Within(1_500),
    Wanted::Unreached,
];

/// The wanted vertices and bound, by a whole run.
#[derive(Drop)]
struct Named {
    targets: Vec<u32>,
    bound: u64,
}

/// The vertex at a place in the order of labels, and its label.
fn at_place(alloc: Global, whole: &[u64], place: usize) -> Result<(u64, u32), Memory> {
    let mut ranked = Vec::with_capacity(alloc, whole.len())?;
    for (v, label) in whole.iter().enumerate() {
        ranked.push((*label, u32::try_from(v).unwrap_or(0)))?;
    }
    ranked.sort()?;
    Ok(ranked.get(place).copied().unwrap_or((0, 0)))
}

fn names_of(alloc: Global, whole: &[u64], wanted: Wanted) -> Result<Named, Memory> {
    let mut targets = Vec::new(alloc);
    let mut bound = 0;
    match wanted {
        Wanted::Labels(one, other) | Wanted::Walks(one, other) => {
            targets.push(at_place(alloc, whole, one)?.1)?;
            targets.push(at_place(alloc, whole, other)?.1)?;
        }
        Wanted::Within(place) => bound = at_place(alloc, whole, place)?.0,
        Wanted::Unreached => targets.push(3_000)?,
        _ => {}
    }
    Ok(Named { targets, bound })
}

impl Named {
    fn goal(&self, wanted: Wanted) -> Goal<'_> {
        match wanted {
            Wanted::Each => Goal::EachVertex,
            Wanted::Walks(_, _) => Goal::WalksTo(&self.targets),
            Wanted::Within(_) => Goal::Within(self.bound),
            _ => Goal::Targets(&self.targets),
        }
    }
}

/// Tells if labels are the same as far as a limit.
fn agree_up_to(limit: u64, labels: &[u64], whole: &[u64]) -> bool {
    let mut pairs = labels.iter().zip(whole);
    labels.len() == whole.len() && pairs.all(|(one, other)| *one.min(&limit) == *other.min(&limit))
}

#[derive(Drop)]
struct Counting {
    visits: AtomicU64,
}

impl Gate for Counting {
    fn pass<H: Wait>(&self, _rt: &H, _worker: u32, _vertex: u32) {
        self.visits.fetch_add(1, Ordering::Relaxed);
    }
}

/// Asserts the labels of a whole run up to the run's limit. Returns its visits, and true if it stopped early.
fn count_until<H: Threads + Wait + Clock + Abort + Sync>(
    rt: &H,
    alloc: Global,
    csr: &Csr,
    whole: &[u64],
    wanted: Wanted,
    settings: &Settings,
) -> Result<(u64, bool), Fail> {
    let named = names_of(alloc, whole, wanted)?;
    let goal = named.goal(wanted);
    let gate = Counting {
        visits: AtomicU64::new(0),
    };
    let within = goal.is_within(csr.n());
    assert!(rt; within && 0 < csr.n());
    let search = Search { rest: None, goal };
    let reached = reach(rt, alloc, csr, search, settings, &gate)?;
    let same = agree_up_to(reached.limit, reached.closed.labels(), whole);
    assert!(rt; same, "{wanted:?} by {} workers", settings.workers);
    let stopped = matches!(reached.closed, Closed::Paused(_));
    Ok((gate.visits.load(Ordering::Relaxed), stopped))
}

fn whole_of<H: Threads + Wait + Clock + Abort + Sync>(
    rt: &H,
    alloc: Global,
    csr: &Csr,
) -> Result<Vec<u64>, Fail> {
    assert!(rt; 0 < csr.n());
    let one = settings(rt, 1, 4, true);
    Ok(distances(rt, alloc, csr, 0, &one, &OpenGate)?)
}

fn expect_wanted<H: Threads + Wait + Clock + Abort + Sync>(
    rt: &H,
    alloc: Global,
    csr: &Csr,
    whole: &[u64],
) -> Result<(), Fail> {
    for workers in [1, 2, 4] {
        let settings = settings(rt, workers, 4, workers < 4);
        for wanted in WANTED {
            count_until(rt, alloc, csr, whole, wanted, &settings)?;
        }
    }
    Ok(())
}

#[test]
fn goals_beside_whole_runs(rt: HostRuntime) -> Result<(), Fail> {
    for shape in SHAPES {
        let csr = graph_of(&rt, rt.alloc(), shape)?;
        let whole = whole_of(&rt, rt.alloc(), &csr)?;
        expect_wanted(&rt, rt.alloc(), &csr, &whole)?;
    }
    Ok(())
}

/// A graph, a goal, and the most visits.
const FEW: &[(Shape, Wanted, u64)] = &[
    (Shape::Random, Wanted::Nothing, 0),
    (Shape::Random, Wanted::Labels(0, 3), 200),
    (Shape::Random, Wanted::Walks(5, 250), 500),
    (Shape::Random, Wanted::Within(100), 250),
    (Shape::Hubs, Wanted::Labels(0, 3), 300),
    (Shape::Grid, Wanted::Labels(0, 3), 200),
    (Shape::Grid, Wanted::Labels(400, 30), 700),
    (Shape::Path, Wanted::Labels(400, 30), 550),
    (Shape::Path, Wanted::Within(1_500), 1_650),
];

/// Tells if one of eight runs stops early with so few visits. If the system holds back the worker at the lowest labels,
/// others visit more.
fn visits_few<H: Threads + Wait + Clock + Abort + Sync>(
    rt: &H,
    alloc: Global,
    csr: &Csr,
    whole: &[u64],
    (wanted, most): (Wanted, u64),
    settings: &Settings,
) -> Result<bool, Fail> {
    for _ in 0..8 {
        let (visits, stopped) = count_until(rt, alloc, csr, whole, wanted, settings)?;
        if stopped && visits <= most {
            return Ok(true);
        }
    }
    Ok(false)
}

fn expect_few<H: Threads + Wait + Clock + Abort + Sync>(
    rt: &H,
    alloc: Global,
    csr: &Csr,
    whole: &[u64],
    wanted: Wanted,
    most: u64,
) -> Result<(), Fail> {
    for workers in [1, 4] {
        let settings = settings(rt, workers, 4, true);
        let few = visits_few(rt, alloc, csr, whole, (wanted, most), &settings)?;
        assert!(rt; few, "{wanted:?}: more than {most} visits by {workers}");
    }
    Ok(())
}

// A pool that loses nothing: the run stops early.
#[test]
fn few_visits_of_what_is_near(rt: HostRuntime) -> Result<(), Fail> {
    for &(shape, wanted, most) in FEW {
        let csr = graph_of(&rt, rt.alloc(), shape)?;
        let whole = whole_of(&rt, rt.alloc(), &csr)?;
        expect_few(&rt, rt.alloc(), &csr, &whole, wanted, most)?;
    }
    Ok(())
}

/// The labels of a run that stops at a goal and goes on to its end.
fn stop_and_go_on<H: Threads + Wait + Clock + Sync, P: WorkPool + Sync>(
    rt: &H,
    alloc: Global,
    csr: &Csr,
    goal: Goal<'_>,
    setup: &Setup<'_, P, OpenGate>,
    sides: &mut [P::Side],
) -> Result<Vec<u64>, RunFault>
where
    P::Side: Send,
    requires seeds { AreSeeds csr.now.n EXAMPLE_SEEDS }
    requires goal { IsGoalWithin csr.now.n goal }
    requires workers { length sides.old ≡ setup.now.settings.now.workers }
    requires sides { All (P.is_side setup.now.pool.now) sides.old }
{
    let reached = run_until(rt, alloc, csr, &EXAMPLE_SEEDS, goal, setup, sides)?;
    let rest = match reached.closed {
        Closed::Settled(labels) => return Ok(labels),
        Closed::Paused(rest) => rest,
    };
    let reached = resume_until(rt, alloc, csr, rest, Goal::EachVertex, setup, sides)?;
    Ok(reached.closed.into_labels())
}

/// Such labels over a new pool of a kind.
fn over_pool<H: Threads + Wait + Clock + Sync>(
    rt: &H,
    alloc: Global,
    csr: &Csr,
    goal: Goal<'_>,
    settings: &Settings,
    kind: Kind,
) -> Result<Vec<u64>, RunFault>
    requires seeds { AreSeeds csr.now.n EXAMPLE_SEEDS }
    requires goal { IsGoalWithin csr.now.n goal }
{
    let (workers, chunk) = (settings.workers, settings.chunk);
    match kind {
        Kind::Locked => {
            let (pool, mut sides) = LockedPool::open(alloc, workers)?;
            let setup = Setup {
                settings,
                pool: &pool,
                gate: &OpenGate,
            };
            stop_and_go_on(rt, alloc, csr, goal, &setup, &mut sides)
        }
        Kind::Obim => {
            let (pool, mut sides) = ObimPool::open(alloc, workers, chunk)?;
            let setup = Setup {
                settings,
                pool: &pool,
                gate: &OpenGate,
            };
            stop_and_go_on(rt, alloc, csr, goal, &setup, &mut sides)
        }
        Kind::Widening => {
            let scale = Scale::new(2, 8);
            let (pool, mut sides) = WideningPool::open(alloc, workers, chunk, scale)?;
            let setup = Setup {
                settings,
                pool: &pool,
                gate: &OpenGate,
            };
            stop_and_go_on(rt, alloc, csr, goal, &setup, &mut sides)
        }
        Kind::Misleading => {
            let (pool, mut sides) = Misleading::open(alloc, workers)?;
            let setup = Setup {
                settings,
                pool: &pool,
                gate: &OpenGate,
            };
            stop_and_go_on(rt, alloc, csr, goal, &setup, &mut sides)
        }
        Kind::Hostile(draws) => {
            let (pool, mut sides) = Hostile::open(alloc, workers, draws)?;
            let setup = Setup {
                settings,
                pool: &pool,
                gate: &OpenGate,
            };
            stop_and_go_on(rt, alloc, csr, goal, &setup, &mut sides)
        }
        Kind::Useless(accepts, gives) => {
            let pool = Useless { accepts, gives };
            let mut sides = Useless::sides(alloc, workers)?;
            let setup = Setup {
                settings,
                pool: &pool,
                gate: &OpenGate,
            };
            stop_and_go_on(rt, alloc, csr, goal, &setup, &mut sides)
        }
    }
}

/// Pools, some of which keep nothing, the workers, and a goal among the six vertices.
const POOLS: &[(Kind, u32, Goal<'static>)] = &[
    (Kind::Locked, 1, Goal::Targets(&[1])),
    (Kind::Locked, 4, Goal::Targets(&[5, 0])),
    (Kind::Obim, 1, Goal::WalksTo(&[4])),
    (Kind::Obim, 4, Goal::Within(9)),
    (Kind::Widening, 2, Goal::Within(INF)),
    (Kind::Widening, 4, Goal::Targets(&[])),
    (Kind::Misleading, 1, Goal::Targets(&[1])),
    (Kind::Misleading, 2, Goal::Within(9)),
    (Kind::Misleading, 4, Goal::WalksTo(&[1, 2])),
    (Kind::Useless(false, None), 1, Goal::Within(11)),
    (Kind::Useless(true, None), 1, Goal::Targets(&[1])),
    (Kind::Useless(true, None), 2, Goal::Within(11)),
    (Kind::Useless(true, Some(0)), 1, Goal::Within(9)),
    (Kind::Useless(true, Some(0)), 2, Goal::Targets(&[4])),
    (Kind::Useless(false, Some(6)), 2, Goal::Within(10)),
    (Kind::Useless(false, Some(6)), 4, Goal::WalksTo(&[4])),
];

#[test]
fn stops_over_each_pool(rt: HostRuntime) -> Result<(), Fail> {
    let csr = six(rt.alloc())?;
    for (row, &(kind, workers, goal)) in POOLS.iter().enumerate() {
        let settings = settings(&rt, workers, 2, false);
        assert!(rt; goal.is_within(6));
        let labels = over_pool(&rt, rt.alloc(), &csr, goal, &settings, kind)?;
        same_labels(&rt, row, &labels, &SIX_LABELS);
    }
    Ok(())
}

#[test]
fn stops_over_hostile_pools(rt: HostRuntime) -> Result<(), Fail> {
    let csr = graph_of(&rt, rt.alloc(), Shape::Random)?;
    let whole = whole_of(&rt, rt.alloc(), &csr)?;
    let mut draws = Draws::new();
    for round in 0..12_usize {
        let settings = settings(&rt, 1 + round as u32 % 4, 4, false);
        let goal = Goal::Within(u64::from(draws.below(2_000)));
        let kind = Kind::Hostile(draws.other());
        let labels = over_pool(&rt, rt.alloc(), &csr, goal, &settings, kind)?;
        same_labels(&rt, round, &labels, &whole);
    }
    Ok(())
}
