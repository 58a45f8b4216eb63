//! Networks worked by hand: their costs, or their fault.

ghost use Rattle.std.specs.Prelude.{◌≡◌, ◌<◌, ◌^◌, length};
ghost use Rattle.least_costs.specs.Pairs.{ArePairsWithin};

use crate::asked::{expect_costs, expect_within, network_of, six};
use least_costs::{Cost, Network, NetworkFault, Plan, Solver, Start};
use obim_engine::OpenGate;
use route_walks::{ArcRec, EXAMPLE_ARCS, MAX_VERTICES, arcs};
use std::alloc::Global;
use std::process::Abort;
use std::sync::Wait;
use std::test::Fail;
use std::thread::Threads;
use std::time::Clock;

const ISLANDS: [ArcRec; 3] = arcs![(2, 1, 7), (3, 4, 1), (4, 3, 1)];

/// Vertices, arcs, the cost of an arc, the start and the costs.
const ROWS: [(u32, &[ArcRec], Cost, Start, &[Option<u64>]); 7] = [
    (
        6,
        &EXAMPLE_ARCS,
        Cost::Weight,
        Start::At(0),
        &[Some(0), Some(10), Some(10), Some(12), Some(10), Some(15)],
    ),
    (
        6,
        &EXAMPLE_ARCS,
        Cost::Weight,
        Start::At(2),
        &[None, Some(0), Some(0), Some(2), Some(0), Some(5)],
    ),
    (
        6,
        &EXAMPLE_ARCS,
        Cost::One,
        Start::At(0),
        &[Some(0), Some(1), Some(1), Some(2), Some(2), Some(3)],
    ),
    (
        6,
        &EXAMPLE_ARCS,
        Cost::FreeBothWays,
        Start::At(5),
        &[Some(0); 6],
    ),
    (
        5,
        &ISLANDS,
        Cost::FreeBothWays,
        Start::Everywhere,
        &[Some(0), Some(1), Some(1), Some(3), Some(3)],
    ),
    (
        5,
        &ISLANDS,
        Cost::Weight,
        Start::Everywhere,
        &[Some(0), Some(1), Some(2), Some(3), Some(4)],
    ),
    (1, &[], Cost::Weight, Start::At(0), &[Some(0)]),
];

fn expect_row<H: Threads + Wait + Clock + Abort + Sync>(
    rt: &H,
    alloc: Global,
    row: usize,
    network: &Network,
    start: Start,
    want: &[Option<u64>],
) -> Result<(), Fail> {
    if let Start::At(source) = start {
        assert!(rt; source < network.n());
    }
    let solver = Solver::new(network, Plan::usual(2));
    let costs = solver.costs_from(rt, alloc, start)?;
    expect_costs(rt, row, network, &costs, want);
    Ok(())
}

#[test]
fn costs_from_a_start(rt: HostRuntime) -> Result<(), Fail> {
    for (row, &(n, arcs, cost, start, want)) in ROWS.iter().enumerate() {
        let network = network_of(&rt, rt.alloc(), n, arcs, cost)?;
        expect_row(&rt, rt.alloc(), row, &network, start, want)?;
    }
    Ok(())
}

/// The cost of an arc, and the costs from vertex 0 in the network that is made of that of weights.
const BY_COST: [(Cost, &[Option<u64>]); 3] = [
    (
        Cost::Weight,
        &[Some(0), Some(10), Some(10), Some(12), Some(10), Some(15)],
    ),
    (
        Cost::One,
        &[Some(0), Some(1), Some(1), Some(2), Some(2), Some(3)],
    ),
    (Cost::FreeBothWays, &[Some(0); 6]),
];

#[test]
fn costs_by_another_cost(rt: HostRuntime) -> Result<(), Fail> {
    let alloc = rt.alloc();
    let weights = six(&rt, alloc)?;
    for (row, &(cost, want)) in BY_COST.iter().enumerate() {
        let network = weights.by_cost(&rt, alloc, cost, 2)?;
        expect_row(&rt, alloc, row, &network, Start::At(0), want)?;
    }
    Ok(())
}

const SHORTER: [ArcRec; 1] = arcs![(0, 5, 4)];

/// The cost of an arc, and the costs with the shorter arc.
const GROWN: [(Cost, &[Option<u64>]); 3] = [
    (
        Cost::Weight,
        &[Some(0), Some(10), Some(10), Some(12), Some(10), Some(4)],
    ),
    (
        Cost::One,
        &[Some(0), Some(1), Some(1), Some(2), Some(2), Some(1)],
    ),
    (Cost::FreeBothWays, &[Some(0); 6]),
];

fn expect_grown<H: Threads + Wait + Clock + Abort + Sync>(
    rt: &H,
    alloc: Global,
    row: usize,
    network: &Network,
    want: &[Option<u64>],
) -> Result<(), Fail>
    requires { network.now.n ≡ 6 }
{
    let solver = Solver::new(network, Plan::usual(1));
    let costs = solver.from(rt, alloc, 0)?;
    let grown = network.with_arcs(alloc, &SHORTER)?;
    let after = solver.costs_after(rt, alloc, &grown, costs)?;
    expect_costs(rt, row, &grown, &after, want);
    Ok(())
}

#[test]
fn costs_after_an_arc_is_added(rt: HostRuntime) -> Result<(), Fail> {
    for (row, &(cost, want)) in GROWN.iter().enumerate() {
        let network = network_of(&rt, rt.alloc(), 6, &EXAMPLE_ARCS, cost)?;
        expect_grown(&rt, rt.alloc(), row, &network, want)?;
    }
    Ok(())
}

/// Pairs between which arcs are removed, arcs that are then added, and the costs from vertex 0.
type Changed = (
    &'static [(u32, u32)],
    &'static [ArcRec],
    &'static [Option<u64>],
);

const CHANGED: [Changed; 7] = [
    (
        &[],
        &[],
        &[Some(0), Some(10), Some(10), Some(12), Some(10), Some(15)],
    ),
    // One of two ways to vertex 1, and the only one to vertex 3.
    (
        &[(4, 1)],
        &[],
        &[Some(0), Some(17), Some(10), Some(19), Some(10), Some(22)],
    ),
    (
        &[(1, 3)],
        &[],
        &[Some(0), Some(10), Some(10), None, Some(10), Some(30)],
    ),
    // A pair without arcs, one that is turned, and one that is named twice.
    (
        &[(3, 5), (5, 3), (3, 5), (2, 0)],
        &[],
        &[Some(0), Some(10), Some(10), Some(12), Some(10), Some(30)],
    ),
    // An arc replaced by a longer one, and by several.
    (
        &[(0, 2)],
        &arcs![(0, 2, 30)],
        &[Some(0), Some(17), Some(19), Some(19), Some(19), Some(22)],
    ),
    (
        &[(3, 5)],
        &arcs![(3, 5, 9), (3, 5, 1), (3, 5, 7)],
        &[Some(0), Some(10), Some(10), Some(12), Some(10), Some(13)],
    ),
    (
        &[],
        &SHORTER,
        &[Some(0), Some(10), Some(10), Some(12), Some(10), Some(4)],
    ),
];

#[test]
fn costs_after_arcs_are_removed(rt: HostRuntime) -> Result<(), Fail> {
    let alloc = rt.alloc();
    let network = six(&rt, alloc)?;
    for (row, &(removed, added, want)) in CHANGED.iter().enumerate() {
        let changed = network.changed(alloc, removed, added)?;
        expect_row(&rt, alloc, row, &changed, Start::At(0), want)?;
    }
    Ok(())
}

fn expect_arcs(
    rt: &impl Abort,
    alloc: Global,
    network: &Network,
    pair: (u32, u32),
    want: &[ArcRec],
) -> Result<(), Fail>
    requires { (network.now.n ≡ 6) × (pair.0 < 6) }
{
    let found = network.arcs_between(alloc, pair.0, pair.1)?;
    assert!(rt; found.as_slice() == want, "from {}", pair.0);
    Ok(())
}

const MORE: [ArcRec; 3] = arcs![(3, 5, 9), (3, 2, 4), (3, 5, 1)];

const THREE_ARCS: [ArcRec; 3] = arcs![(3, 5, 3), (3, 5, 9), (3, 5, 1)];

#[test]
fn arcs_between_two_vertices(rt: HostRuntime) -> Result<(), Fail> {
    let alloc = rt.alloc();
    let network = six(&rt, alloc)?;
    expect_arcs(&rt, alloc, &network, (3, 5), &arcs![(3, 5, 3)])?;
    expect_arcs(&rt, alloc, &network, (5, 3), &[])?;
    let changed = network.changed(alloc, &[(3, 2)], &MORE)?;
    expect_arcs(&rt, alloc, &changed, (3, 5), &THREE_ARCS)?;
    expect_arcs(&rt, alloc, &changed, (3, 2), &arcs![(3, 2, 4)])
}

const OUTSIDE: [ArcRec; 3] = arcs![(0, 1, 7), (1, 2, 7), (2, 0, 7)];

const OUTSIDE_OF_SIX: [ArcRec; 1] = arcs![(0, 6, 1)];

/// Vertices, arcs and the fault.
const FAULTS: [(u32, &[ArcRec], NetworkFault); 3] = [
    (MAX_VERTICES + 1, &[], NetworkFault::Vertices),
    (2, &OUTSIDE, NetworkFault::Outside(1)),
    (0, &OUTSIDE, NetworkFault::Outside(0)),
];

const TEXTS: [(NetworkFault, &str); 5] = [
    (NetworkFault::Vertices, "too many vertices"),
    (NetworkFault::Outside(1), "arc 1: an end is no vertex"),
    (NetworkFault::Outside(0), "arc 0: an end is no vertex"),
    (NetworkFault::Arcs, "too many arcs"),
    (NetworkFault::Memory, "out of memory"),
];

#[test]
fn faults_of_networks(rt: HostRuntime) -> Result<(), Fail> {
    let alloc = rt.alloc();
    for (n, arcs, want) in FAULTS {
        let made = Network::new(&rt, alloc, n, arcs.to_vec(alloc)?, Cost::Weight, 1);
        assert!(rt; made.err() == Some(want), "{n} vertices");
    }
    let grown = six(&rt, alloc)?.with_arcs(alloc, &OUTSIDE_OF_SIX);
    assert!(rt; grown.err() == Some(NetworkFault::Outside(0)));
    let changed = six(&rt, alloc)?.changed(alloc, &[(0, 6)], &OUTSIDE_OF_SIX);
    assert!(rt; changed.err() == Some(NetworkFault::Outside(0)));
    Ok(())
}

#[test]
fn faults_print_themselves(rt: HostRuntime) -> Result<(), Fail> {
    for (fault, text) in TEXTS {
        assert!(rt; fault.to_string(rt.alloc())?.as_str() == text, "{text}");
    }
    Ok(())
}

/// Pairs in no order, and the cost of each.
const PAIRS: [(u32, u32); 6] = [(3, 1), (0, 5), (5, 0), (0, 3), (3, 5), (0, 5)];

const PAIR_COSTS: [Option<u64>; 6] = [Some(0), Some(15), None, Some(12), Some(3), Some(15)];

fn expect_between<H: Threads + Wait + Clock + Abort + Sync>(
    rt: &H,
    alloc: Global,
    solver: &Solver<'_, OpenGate>,
    pairs: &[(u32, u32)],
    want: &[Option<u64>],
) -> Result<(), Fail>
    requires few { length pairs.now < 2 ^ 32 }
    requires within { ArePairsWithin solver.now.network.now.n pairs.now }
{
    let costs = solver.between(rt, alloc, pairs)?;
    assert!(rt; costs.as_slice() == want);
    Ok(())
}

#[test]
fn costs_between_pairs(rt: HostRuntime) -> Result<(), Fail> {
    let network = six(&rt, rt.alloc())?;
    for workers in [1, 2] {
        let solver = Solver::new(&network, Plan::usual(workers));
        expect_between(&rt, rt.alloc(), &solver, &PAIRS, &PAIR_COSTS)?;
        expect_between(&rt, rt.alloc(), &solver, &[], &[])?;
    }
    Ok(())
}

/// A bound, and the costs from vertex 0 within it.
const BOUNDS: [(u64, [Option<u64>; 6]); 5] = [
    (0, [Some(0), None, None, None, None, None]),
    (9, [Some(0), None, None, None, None, None]),
    (10, [Some(0), Some(10), Some(10), None, Some(10), None]),
    (14, [Some(0), Some(10), Some(10), Some(12), Some(10), None]),
    (
        u64::MAX,
        [Some(0), Some(10), Some(10), Some(12), Some(10), Some(15)],
    ),
];

fn expect_bound<H: Threads + Wait + Clock + Abort + Sync>(
    rt: &H,
    alloc: Global,
    row: usize,
    network: &Network,
    workers: u32,
    want: (u64, [Option<u64>; 6]),
) -> Result<(), Fail>
    requires { network.now.n ≡ 6 }
{
    let (bound, want) = want;
    let solver = Solver::new(network, Plan::usual(workers));
    let costs = solver.within(rt, alloc, 0, bound)?;
    expect_within(rt, row, network, &costs, &want);
    assert!(rt; costs.source() == 0 && costs.bound() == bound);
    Ok(())
}

#[test]
fn costs_within_bounds(rt: HostRuntime) -> Result<(), Fail> {
    let network = six(&rt, rt.alloc())?;
    for (row, &bound) in BOUNDS.iter().enumerate() {
        expect_bound(&rt, rt.alloc(), row, &network, 1, bound)?;
        expect_bound(&rt, rt.alloc(), row, &network, 2, bound)?;
    }
    Ok(())
}
