//! Pairs by landmarks and by a hierarchy: the costs of whole runs, with fewer visits.

ghost use Rattle.std.specs.Prelude.{◌≡◌, IfOk};

use crate::asked::draws::Draws;
use crate::asked::kept::are_within;
use crate::asked::{network_of, path, six};
use least_costs::{Cost, Network, Plan, Solver, Unwatched, Workspace};
use obim_engine::Gate;
use route_walks::{ArcRec, Memory};
use std::alloc::Global;
use std::process::Abort;
use std::sync::Wait;
use std::sync::atomic::{AtomicU64, Ordering};
use std::test::Fail;
use std::thread::Threads;
use std::time::Clock;

/// The workers, true if the thread that asks searches, the landmarks, and true if there is a hierarchy, which stays.
const CALLS: [(u32, bool, u32, bool); 8] = [
    (1, true, 8, false),
    (1, false, 8, false),
    (2, false, 3, false),
    (4, false, 16, false),
    (3, true, 1, false),
    (1, true, 0, false),
    (1, true, 4, true),
    (3, true, 0, true),
];

/// A network of `n` vertices with the streets of a square. No street leads to the vertices that are no crossings.
pub(crate) fn street_network<H: Threads + Abort + Sync>(
    rt: &H,
    alloc: Global,
    draws: &mut Draws,
    side: u32,
    n: u32,
    one_way_in: u32,
) -> Result<Network, Fail>
    ensures { IfOk result (λ network. network.n ≡ n) }
{
    let arcs = streets(alloc, draws, side, one_way_in)?;
    network_of(rt, alloc, n, &arcs, Cost::Weight)
}

/// Streets between the crossings of a square of this side: some are free, and one in so many leads one way.
pub(crate) fn streets(
    alloc: Global,
    draws: &mut Draws,
    side: u32,
    one_way_in: u32,
) -> Result<Vec<ArcRec>, Memory> {
    let mut arcs = Vec::new(alloc);
    for row in 0..side {
        push_row(&mut arcs, draws, side, row, one_way_in)?;
    }
    Ok(arcs)
}

/// Adds the streets that leave one row of crossings to the right and down.
fn push_row(
    arcs: &mut Vec<ArcRec>,
    draws: &mut Draws,
    side: u32,
    row: u32,
    one_way_in: u32,
) -> Result<(), Memory> {
    for column in 0..side {
        let here = row.saturating_mul(side).saturating_add(column);
        if column.saturating_add(1) < side {
            push_street(arcs, draws, here, here.saturating_add(1), one_way_in)?;
        }
        if row.saturating_add(1) < side {
            push_street(arcs, draws, here, here.saturating_add(side), one_way_in)?;
        }
    }
    Ok(())
}

fn push_street(
    arcs: &mut Vec<ArcRec>,
    draws: &mut Draws,
    tail: u32,
    head: u32,
    one_way_in: u32,
) -> Result<(), Memory> {
    let weight = draws.below(4).saturating_mul(draws.below(100));
    arcs.push(ArcRec::new(tail, head, weight))?;
    if draws.below(one_way_in) > 0 {
        arcs.push(ArcRec::new(head, tail, weight))?;
    }
    Ok(())
}

/// The costs of pairs by landmarks of a network, of which there are at most so many, and by a hierarchy if wanted.
fn costs_by<H: Threads + Wait + Clock + Abort + Sync>(
    rt: &H,
    alloc: Global,
    network: &mut Network,
    (workers, searches, count, contracts): (u32, bool, u32, bool),
    pairs: &[(u32, u32)],
) -> Result<Vec<Option<u64>>, Fail> {
    let within = pairs.len() < 1000 && are_within(network.n(), pairs);
    assert!(rt; within);
    let plan = Plan {
        landmarks: count,
        ..Plan::usual(workers)
    };
    let chosen = network.choose_landmarks(rt, alloc, plan)?;
    assert!(rt; chosen <= count as usize && network.has_landmarks());
    if contracts {
        network.make_hierarchy(alloc, usize::MAX);
    }
    let mut kept = Some(Workspace::new().searching(searches));
    let solver = Solver::new(network, plan);
    let found = solver.between_grown(rt, alloc, pairs, None, &mut kept, &mut Unwatched)?;
    assert!(rt; kept.is_some());
    Ok(found.costs)
}

/// Asserts that pairs cost by landmarks, and by a hierarchy, what they cost without.
pub(crate) fn expect_same<H: Threads + Wait + Clock + Abort + Sync>(
    rt: &H,
    alloc: Global,
    network: &mut Network,
    pairs: &[(u32, u32)],
) -> Result<(), Fail> {
    let within = pairs.len() < 1000 && are_within(network.n(), pairs);
    assert!(rt; within);
    let want = Solver::new(network, Plan::usual(1)).between(rt, alloc, pairs)?;
    for call in CALLS {
        let found = costs_by(rt, alloc, network, call, pairs)?;
        assert!(rt; found.as_slice() == want.as_slice(), "{} workers", call.0);
    }
    Ok(())
}

/// Pairs of vertices below `n`, some with several targets of a source, and some of a vertex with itself.
pub(crate) fn drawn_pairs(
    alloc: Global,
    draws: &mut Draws,
    n: u32,
) -> Result<Vec<(u32, u32)>, Memory> {
    let mut pairs = Vec::new(alloc);
    for at in 0..15_u32 {
        let source = draws.below(n);
        pairs.push((source, draws.below(n)))?;
        if at % 5 == 0 {
            pairs.push((source, draws.below(n)))?;
            pairs.push((source, source))?;
        }
    }
    Ok(pairs)
}

/// Asserts of drawn pairs what `expect_same` does.
fn expect_drawn<H: Threads + Wait + Clock + Abort + Sync>(
    rt: &H,
    alloc: Global,
    network: &mut Network,
    draws: &mut Draws,
) -> Result<(), Fail> {
    let pairs = drawn_pairs(alloc, draws, network.n())?;
    expect_same(rt, alloc, network, &pairs)
}

#[test]
fn random_streets(rt: HostRuntime) -> Result<(), Fail> {
    for seed in [1, 2] {
        let mut draws = Draws::of_seed(seed);
        let mut network = street_network(&rt, rt.alloc(), &mut draws, 20, 400, 8)?;
        expect_drawn(&rt, rt.alloc(), &mut network, &mut draws)?;
    }
    Ok(())
}

/// A network of 200 vertices and so many arcs that are drawn.
pub(crate) fn random_network<H: Threads + Abort + Sync>(
    rt: &H,
    alloc: Global,
    draws: &mut Draws,
    count: u32,
    cost: Cost,
) -> Result<Network, Fail> {
    let arcs = draws.arcs(alloc, 200, count)?;
    network_of(rt, alloc, 200, &arcs, cost)
}

#[test]
fn random_arcs(rt: HostRuntime) -> Result<(), Fail> {
    for (seed, count, cost) in [
        (1, 300, Cost::Weight),
        (2, 900, Cost::Weight),
        (3, 250, Cost::One),
        (4, 150, Cost::FreeBothWays),
    ] {
        let mut draws = Draws::of_seed(seed);
        let mut network = random_network(&rt, rt.alloc(), &mut draws, count, cost)?;
        expect_drawn(&rt, rt.alloc(), &mut network, &mut draws)?;
    }
    Ok(())
}

// It has no landmark that reaches half of what another one does.
#[test]
fn a_path_that_leads_one_way(rt: HostRuntime) -> Result<(), Fail> {
    let mut network = path(&rt, rt.alloc())?;
    let pairs = [(0, 2_999), (2_999, 0), (7, 7), (100, 1_900)];
    expect_same(&rt, rt.alloc(), &mut network, &pairs)
}

#[test]
fn six_vertices(rt: HostRuntime) -> Result<(), Fail> {
    let mut network = six(&rt, rt.alloc())?;
    let pairs = [(3, 1), (0, 5), (5, 0), (0, 3), (3, 5), (0, 0)];
    expect_same(&rt, rt.alloc(), &mut network, &pairs)
}

/// Arcs between 51 vertices with weights that are as great as can be, or nearly.
fn great_arcs(alloc: Global) -> Result<Vec<ArcRec>, Memory> {
    let mut arcs = Vec::new(alloc);
    for v in 0..50_u32 {
        arcs.push(ArcRec::new(v, v + 1, u32::MAX - v))?;
        arcs.push(ArcRec::new(v + 1, v, u32::MAX - v))?;
        arcs.push(ArcRec::new(v, (v * 7) % 51, u32::MAX))?;
    }
    Ok(arcs)
}

#[test]
fn great_weights(rt: HostRuntime) -> Result<(), Fail> {
    let arcs = great_arcs(rt.alloc())?;
    let mut network = network_of(&rt, rt.alloc(), 60, &arcs, Cost::Weight)?;
    let pairs = [(0, 50), (50, 0), (3, 44), (44, 3), (0, 55), (55, 0)];
    expect_same(&rt, rt.alloc(), &mut network, &pairs)
}

/// Counts visits.
#[derive(Drop)]
struct Counter {
    visits: AtomicU64,
}

impl Gate for Counter {
    fn pass<H: Wait>(&self, _rt: &H, _worker: u32, _v: u32) {
        self.visits.fetch_add(1, Ordering::SeqCst);
    }
}

fn visits_of<H: Threads + Wait + Clock + Abort + Sync>(
    rt: &H,
    alloc: Global,
    network: &mut Network,
    count: u32,
    pairs: &[(u32, u32)],
) -> Result<u64, Fail> {
    let within = pairs.len() < 1000 && are_within(network.n(), pairs);
    assert!(rt; within);
    let plan = Plan {
        landmarks: count,
        ..Plan::usual(1)
    };
    network.choose_landmarks(rt, alloc, plan)?;
    let counted = Solver {
        network,
        plan,
        gate: Counter {
            visits: AtomicU64::new(0),
        },
    };
    counted.between_grown(rt, alloc, pairs, None, &mut None, &mut Unwatched)?;
    Ok(counted.gate.visits.load(Ordering::SeqCst))
}

/// Forty pairs of 3,600 crossings.
fn crossing_pairs(alloc: Global, draws: &mut Draws) -> Result<Vec<(u32, u32)>, Memory> {
    let mut pairs = Vec::new(alloc);
    for _ in 0..40 {
        pairs.push((draws.below(3_600), draws.below(3_600)))?;
    }
    Ok(pairs)
}

fn expect_fewer<H: Threads + Wait + Clock + Abort + Sync>(
    rt: &H,
    alloc: Global,
    network: &mut Network,
    pairs: &[(u32, u32)],
) -> Result<(), Fail> {
    let all = visits_of(rt, alloc, network, 0, pairs)?;
    let few = visits_of(rt, alloc, network, 8, pairs)?;
    assert!(rt; few.saturating_mul(5) < all, "{few} of {all} visits");
    let vain = visits_of(rt, alloc, network, 8, &[(0, 3_600), (3_600, 0)])?;
    assert!(rt; vain <= 2, "{vain} visits");
    Ok(())
}

// Streets of 3,600 crossings: a worker visits less than a fifth by landmarks, and nothing if no walk leads there.
#[test]
fn fewer_visits(rt: HostRuntime) -> Result<(), Fail> {
    let mut draws = Draws { state: 11 };
    let mut network = street_network(&rt, rt.alloc(), &mut draws, 60, 3_601, u32::MAX)?;
    let pairs = crossing_pairs(rt.alloc(), &mut draws)?;
    expect_fewer(&rt, rt.alloc(), &mut network, &pairs)
}
