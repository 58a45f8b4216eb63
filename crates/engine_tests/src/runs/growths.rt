//! Runs with a budget, runs that go on, and graphs that grow between.

ghost use Rattle.std.specs.Prelude.{◌≡◌, ◌+◌, ◌≤◌, ◌++◌, length, IfOk};
ghost use Rattle.route_walks.specs.Label.{AreLeastLabels};
ghost use Rattle.route_walks.specs.Walk.{AreSeeds, IsGraph, HaveSameArcs};
ghost use Rattle.label_words.specs.Paused.{IsPause};

use crate::runs::draws::Draws;
use crate::runs::gates::{Holding, settings_of};
use crate::runs::graphs::{SIX_LABELS, fit_rows, random_arcs, rows_of, same_labels, six, star};
use crate::runs::pieces::{Kind, Piece, Plan, go_on, pause_after, settle};
use crate::runs::searches::{Search, reach};
use crate::runs::settings;
use csr_graph::{Csr, MAX_ARCS};
use obim_engine::{Closed, Gate, Goal, Paused, Recorder, RunFault, Settings, grow};
use route_walks::laws::least_labels_follow_the_arcs;
use route_walks::{
    ArcRec, EXAMPLE_SEEDS, INF, Memory, Seed, arcs, are_seeds, is_graph, plain_labels,
};
use std::alloc::Global;
use std::process::Abort;
use std::sync::Wait;
use std::sync::atomic::Ordering;
use std::test::Fail;
use std::thread::Threads;
use std::time::Clock;

/// An arc that is added to the six vertices, and their labels then.
const SHORTER: [ArcRec; 1] = arcs![(0, 5, 4)];

const SHORTER_LABELS: [u64; 6] = [0, 10, 10, 12, 10, 4];

fn settled_pause(
    alloc: Global,
    csr: &Csr,
    seeds: &[Seed],
    labels: Vec<u64>,
) -> Result<Paused, Memory>
    requires seeds { AreSeeds csr.now.n seeds.now }
    requires labels { AreLeastLabels csr.now.n csr.now.arcs seeds.now labels.items }
    ensures { IfOk result (λ rest. IsPause csr.now seeds.now rest) }
{
    let _ = seeds;
    let _n = csr.n();
    Paused::settled(alloc, labels)
}

/// The graph with these arcs added, and a pause of it.
fn grown_pause(
    alloc: Global,
    csr: &Csr,
    seeds: &[Seed],
    rest: Paused,
    added: &[ArcRec],
) -> Result<(Csr, Paused), Memory>
    requires pause { IsPause csr.now seeds.now rest }
    requires ends { IsGraph csr.now.n added.now }
    requires places { length csr.now.arcs + length added.now ≤ MAX_ARCS }
    ensures vertices { IfOk result (λ both. both.0.n ≡ csr.now.n) }
    ensures arcs { IfOk result (λ both. HaveSameArcs both.0.arcs (csr.now.arcs ++ added.now)) }
    ensures pause { IfOk result (λ both. IsPause both.0 seeds.now both.1) }
{
    let _ = seeds;
    let grown = csr.with_arcs(alloc, added)?;
    Ok((grown, grow(rest, added)))
}

/// The least labels of a grown graph, by those that it had: proved from the contracts of the calls.
fn grown_labels<H: Threads + Wait + Clock + Abort + Sync>(
    rt: &H,
    alloc: Global,
    csr: &Csr,
    seeds: &[Seed],
    labels: Vec<u64>,
    added: &[ArcRec],
    plan: &mut Plan,
) -> Result<Vec<u64>, RunFault>
    requires seeds { AreSeeds csr.now.n seeds.now }
    requires labels { AreLeastLabels csr.now.n csr.now.arcs seeds.now labels.items }
    requires ends { IsGraph csr.now.n added.now }
    requires places { length csr.now.arcs + length added.now ≤ MAX_ARCS }
    ensures { IfOk result
        (λ labels. AreLeastLabels csr.now.n (csr.now.arcs ++ added.now) seeds.now labels.items) }
{
    let rest = settled_pause(alloc, csr, seeds, labels)?;
    let (grown, rest) = grown_pause(alloc, csr, seeds, rest, added)?;
    least_labels_follow_the_arcs();
    settle(rt, alloc, &grown, seeds, Some(rest), plan)
}

pub(crate) fn expect_pause(
    rt: &impl Abort,
    row: usize,
    rest: &Paused,
    labels: &[u64],
    marked: &[u32],
)
    requires { length rest.now.marks ≡ 6 }
{
    same_labels(rt, row, rest.labels(), labels);
    for v in 0..6_u32 {
        assert!(rt;
            rest.marked(v) == marked.contains(&v),
            "row {row}: mark of {v}"
        );
    }
}

/// The labels before any visit.
const NO_VISIT: [u64; 6] = [0, INF, INF, INF, INF, INF];

/// The labels after a visit of vertex 0.
pub(crate) const ONE_VISIT: [u64; 6] = [0, 17, 10, INF, INF, INF];

/// A pool, the workers, the visits of each, the labels and marks that are left, and the marks with the shorter arc.
/// Visits of a sweep count: a pool that keeps nothing has no others.
type PauseRow = (
    Kind,
    u32,
    u64,
    &'static [u64],
    &'static [u32],
    &'static [u32],
);

const PAUSES: &[PauseRow] = &[
    (Kind::Locked, 2, 0, &NO_VISIT, &[0], &[0]),
    (Kind::Locked, 1, 1, &ONE_VISIT, &[1, 2], &[0, 1, 2]),
    (
        Kind::Useless(false, None),
        1,
        1,
        &ONE_VISIT,
        &[1, 2],
        &[0, 1, 2],
    ),
];

/// Returns the pause of a run that goes on without visits.
fn pause_without_visits<H: Threads + Wait + Clock + Abort + Sync>(
    rt: &H,
    alloc: Global,
    csr: &Csr,
    rest: Paused,
    piece: &Piece,
) -> Result<Paused, RunFault>
    requires seeds { AreSeeds csr.now.n EXAMPLE_SEEDS }
    requires pause { IsPause csr.now EXAMPLE_SEEDS rest }
    ensures { IfOk result (λ rest. IsPause csr.now EXAMPLE_SEEDS rest) }
{
    let none = Piece {
        settings: piece.settings,
        kind: piece.kind,
        budget: 0,
    };
    pause_after(rt, alloc, csr, &EXAMPLE_SEEDS, Some(rest), &none)
}

/// Asserts a row, and the labels at the end with the shorter arc.
fn expect_row<H: Threads + Wait + Clock + Abort + Sync>(
    rt: &H,
    alloc: Global,
    csr: &Csr,
    at: usize,
    row: &PauseRow,
) -> Result<(), Fail>
    requires six { csr.now.n ≡ 6 }
    requires few { length csr.now.arcs ≡ 8 }
{
    let seeds = EXAMPLE_SEEDS;
    let (kind, workers, budget, labels, marked, grown_marked) = *row;
    let settings = settings(rt, workers, 4, false);
    let mut piece = Piece {
        settings,
        kind,
        budget,
    };
    let rest = pause_after(rt, alloc, csr, &seeds, None, &piece)?;
    expect_pause(rt, at, &rest, labels, marked);
    let rest = pause_without_visits(rt, alloc, csr, rest, &piece)?;
    expect_pause(rt, at, &rest, labels, marked);
    let (grown, rest) = grown_pause(alloc, csr, &seeds, rest, &SHORTER)?;
    expect_pause(rt, at, &rest, labels, grown_marked);
    piece.budget = 1;
    let labels = settle(
        rt,
        alloc,
        &grown,
        &seeds,
        Some(rest),
        &mut Plan::Same(piece),
    )?;
    same_labels(rt, at, &labels, &SHORTER_LABELS);
    Ok(())
}

#[test]
fn pauses_of_a_budget(rt: HostRuntime) -> Result<(), Fail> {
    let csr = six(rt.alloc())?;
    for (at, row) in PAUSES.iter().enumerate() {
        expect_row(&rt, rt.alloc(), &csr, at, row)?;
    }
    Ok(())
}

// Without a vertex nothing is left to do.
#[test]
fn no_vertices_are_settled(rt: HostRuntime) -> Result<(), Fail> {
    let alloc = rt.alloc();
    let csr = Csr::build(alloc, 0, &[])?;
    let piece = Piece {
        settings: settings(&rt, 2, 4, false),
        kind: Kind::Locked,
        budget: 0,
    };
    match go_on(&rt, alloc, &csr, &[], None, &piece)? {
        Closed::Settled(labels) => assert!(rt; labels.is_empty()),
        Closed::Paused(_) => assert!(rt; false, "paused"),
    }
    Ok(())
}

/// A pool, the workers, the visits of each in a piece, and the number of runs.
const POOLS: &[(Kind, u32, u64, u32)] = &[
    (Kind::Locked, 1, 1, 1),
    (Kind::Locked, 1, 1 << 32, 1),
    (Kind::Locked, 2, 1, 1),
    (Kind::Obim, 1, 1, 1),
    (Kind::Obim, 2, 1, 1),
    (Kind::Locked, 4, u64::MAX, 1),
    (Kind::Obim, 4, u64::MAX, 1),
    (Kind::Misleading, 1, u64::MAX, 50),
    (Kind::Misleading, 2, u64::MAX, 50),
    (Kind::Misleading, 8, u64::MAX, 50),
    (Kind::Useless(true, None), 2, u64::MAX, 1),
    (Kind::Useless(false, None), 2, u64::MAX, 1),
    (Kind::Useless(true, Some(0)), 2, u64::MAX, 1),
    (Kind::Useless(false, Some(6)), 2, u64::MAX, 1),
];

/// Asserts the labels of the six vertices, and those with the shorter arc.
fn expect_six<H: Threads + Wait + Clock + Abort + Sync>(
    rt: &H,
    alloc: Global,
    row: usize,
    plan: &mut Plan,
) -> Result<(), Fail> {
    let seeds = EXAMPLE_SEEDS;
    let csr = six(alloc)?;
    let labels = settle(rt, alloc, &csr, &seeds, None, plan)?;
    same_labels(rt, row, &labels, &SIX_LABELS);
    let labels = grown_labels(rt, alloc, &csr, &seeds, labels, &SHORTER, plan)?;
    same_labels(rt, row, &labels, &SHORTER_LABELS);
    Ok(())
}

#[test]
fn labels_over_each_pool(rt: HostRuntime) -> Result<(), Fail> {
    let alloc = rt.alloc();
    for row in 0..POOLS.len() {
        let (kind, workers, budget, rounds) = POOLS[row];
        let settings = settings(&rt, workers, 4, false);
        let mut plan = Plan::Same(Piece {
            settings,
            kind,
            budget,
        });
        for _ in 0..rounds {
            expect_six(&rt, alloc, row, &mut plan)?;
        }
    }
    Ok(())
}

/// The labels of a graph that grows after a piece of a run.
fn labels_that_grow<H: Threads + Wait + Clock + Abort + Sync>(
    rt: &H,
    alloc: Global,
    csr: &Csr,
    seeds: &[Seed],
    added: &[ArcRec],
    plan: &mut Plan,
) -> Result<Vec<u64>, Fail>
    requires seeds { AreSeeds csr.now.n seeds.now }
    requires ends { IsGraph csr.now.n added.now }
    requires places { length csr.now.arcs + length added.now ≤ MAX_ARCS }
{
    let piece = plan.next(rt);
    let rest = match go_on(rt, alloc, csr, seeds, None, &piece)? {
        Closed::Settled(labels) => settled_pause(alloc, csr, seeds, labels)?,
        Closed::Paused(rest) => rest,
    };
    let (grown, rest) = grown_pause(alloc, csr, seeds, rest, added)?;
    Ok(settle(rt, alloc, &grown, seeds, Some(rest), plan)?)
}

/// Asserts that a graph of 3,000 vertices that grows within a run gets the labels of all its arcs.
fn expect_growth<H: Threads + Wait + Clock + Abort + Sync>(
    rt: &H,
    alloc: Global,
    arcs: &[ArcRec],
    added: usize,
    plan: &mut Plan,
) -> Result<(), Fail> {
    let (n, seeds) = (3_000, [Seed::new(0, 5), Seed::new(7, 0)]);
    assert!(rt; added <= arcs.len() && arcs.len() <= MAX_ARCS);
    let (first, last) = arcs.split_at(arcs.len() - added);
    let within = is_graph(n, arcs) && fit_rows(n, first) && fit_rows(n, last);
    assert!(rt; within && are_seeds(n, &seeds));
    let csr = Csr::build(alloc, n, first)?;
    let labels = labels_that_grow(rt, alloc, &csr, &seeds, last, plan)?;
    let plain = plain_labels(alloc, n, arcs, &seeds)?;
    assert!(rt;
        labels.as_slice() == plain.as_slice(),
        "{} arcs, {added} added",
        arcs.len()
    );
    Ok(())
}

#[test]
fn growths_at_random(rt: HostRuntime) -> Result<(), Fail> {
    let alloc = rt.alloc();
    let arcs = random_arcs(alloc, 3_000, 12_000)?;
    let mut draws = Draws::new();
    for _ in 0..50_u32 {
        let count = 6_000 + draws.below(6_000) as usize % 6_000;
        let added = draws.below(60) as usize;
        let mut plan = Plan::Drawn(draws.other());
        assert!(rt; count <= arcs.len());
        expect_growth(&rt, alloc, &arcs[..count], added, &mut plan)?;
    }
    Ok(())
}

/// Goes on after settled labels got these arcs, watched by the gate.
fn go_on_grown<H: Threads + Wait + Clock + Abort + Sync, G: Gate + Sync>(
    rt: &H,
    alloc: Global,
    csr: &Csr,
    added: &[ArcRec],
    settings: &Settings,
    gate: &G,
) -> Result<(), Fail>
    requires seeds { AreSeeds csr.now.n EXAMPLE_SEEDS }
    requires ends { IsGraph csr.now.n added.now }
    requires places { length csr.now.arcs + length added.now ≤ MAX_ARCS }
{
    let seeds = EXAMPLE_SEEDS;
    let mut plan = Plan::Same(Piece {
        settings: *settings,
        kind: Kind::Locked,
        budget: u64::MAX,
    });
    let labels = settle(rt, alloc, csr, &seeds, None, &mut plan)?;
    let rest = settled_pause(alloc, csr, &seeds, labels)?;
    let (grown, rest) = grown_pause(alloc, csr, &seeds, rest, added)?;
    let goal = Goal::EachVertex;
    let search = Search {
        rest: Some(rest),
        goal,
    };
    reach(rt, alloc, &grown, search, settings, gate)?;
    Ok(())
}

fn expect_visited<H: Threads + Wait + Clock + Abort + Sync>(
    rt: &H,
    alloc: Global,
    csr: &Csr,
    added: &[ArcRec],
    want: &[u32],
) -> Result<(), Fail>
    requires { AreSeeds csr.now.n EXAMPLE_SEEDS }
{
    let few = fit_rows(csr.n(), added) && csr.arc_count() + added.len() <= MAX_ARCS;
    assert!(rt; few);
    for workers in [1, 2] {
        let settings = settings(rt, workers, 4, false);
        let gate = Recorder::new(alloc);
        go_on_grown(rt, alloc, csr, added, &settings, &gate)?;
        let mut visited = gate.into_passed();
        // Which of several tails comes first depends on the workers.
        if added.len() > 1 {
            visited.sort()?;
        }
        assert!(rt; visited.as_slice() == want, "{want:?} by {workers}");
    }
    Ok(())
}

/// Arcs that lower no label.
const NO_SHORTER: [ArcRec; 3] = arcs![(17, 0, 3), (9, 9, 0), (17, 0, 3)];

// A second run visits the tails of the added arcs once each, and vertices whose labels fall.
#[test]
fn only_what_changes_is_visited(rt: HostRuntime) -> Result<(), Fail> {
    let alloc = rt.alloc();
    let n = 20_000;
    let csr = rows_of(&rt, alloc, n, &random_arcs(alloc, n, 100_000)?)?;
    expect_visited(&rt, alloc, &csr, &NO_SHORTER, &[9, 17])?;
    expect_visited(&rt, alloc, &csr, &[], &[])?;
    expect_visited(&rt, alloc, &six(alloc)?, &SHORTER, &[0, 5])
}

// If no label falls only marked tails are pushed, each into a chunk of its own.
#[test]
fn tails_of_added_arcs_are_handed_over(rt: HostRuntime) -> Result<(), Fail> {
    let alloc = rt.alloc();
    let csr = star(&rt, alloc, 65, 1)?;
    let fits = fit_rows(csr.n(), &NO_SHORTER) && csr.arc_count() + NO_SHORTER.len() <= MAX_ARCS;
    assert!(rt; fits);
    let narrow = settings_of(&rt, 1, 1);
    for settings in [narrow, narrow.with_widening_buckets()] {
        let gate = Holding::new(&rt, (0, 0));
        go_on_grown(&rt, alloc, &csr, &NO_SHORTER, &settings, &gate)?;
        assert!(rt; gate.chunks.load(Ordering::Relaxed) == 2);
    }
    Ok(())
}
