//! Each call with one allocation refused: `Memory`, and made once more what was worked by hand.

mod pairs;

ghost use Rattle.std.specs.Prelude.{◌≡◌, IfOk, IfSome};
ghost use Rattle.least_costs.specs.Each.{AreWithin};
ghost use Rattle.least_costs.specs.Network.{GrowsTo};

use crate::asked::{expect_costs, expect_within, six};
use least_costs::{
    AtOnce, Cost, Costs, CostsBelow, CostsWithin, HierarchyUse, Network, NetworkFault,
    NetworkGrowth, Plan, Solver, Start, WarmPool, Workers,
};
use obim_engine::{Goal, OpenGate};
use route_walks::{ArcRec, EXAMPLE_ARCS, Memory, arcs, refusable, tried_again};
use std::alloc::Global;
use std::process::Abort;
use std::sync::Wait;
use std::test::Fail;
use std::thread::Threads;
use std::time::Clock;

const FROM_0: [Option<u64>; 6] = [Some(0), Some(10), Some(10), Some(12), Some(10), Some(15)];

const EVERYWHERE: [Option<u64>; 6] = [Some(0), Some(1), Some(2), Some(3), Some(2), Some(5)];

const SHORTER: [ArcRec; 1] = arcs![(0, 5, 4)];

const SHORTER_FROM_0: [Option<u64>; 6] = [Some(0), Some(10), Some(10), Some(12), Some(10), Some(4)];

const WITHIN_12: [Option<u64>; 6] = [Some(0), Some(10), Some(10), Some(12), Some(10), None];

fn made_again<H: Threads + Abort + Sync>(
    rt: &H,
    alloc: Global,
    cost: Cost,
) -> Result<Network, Fail> {
    let (arcs, again) = (EXAMPLE_ARCS.to_vec(alloc)?, EXAMPLE_ARCS.to_vec(alloc)?);
    match refusable!(alloc, Network::new(rt, alloc, 6, arcs, cost, 2)) {
        Ok(network) => Ok(network),
        Err(fault) => {
            assert!(rt; fault == NetworkFault::Memory);
            Ok(Network::new(rt, alloc, 6, again, cost, 2)?)
        }
    }
}

#[test]
fn of_network_new(rt: HostRuntime) -> Result<(), Fail> {
    for cost in [Cost::Weight, Cost::One, Cost::FreeBothWays] {
        let network = made_again(&rt, rt.alloc(), cost)?;
        assert!(rt; network.n() == 6);
    }
    Ok(())
}

const ONE_ARC: [ArcRec; 1] = arcs![(0, 1, 7)];

#[test]
fn of_network_of_graph(rt: HostRuntime) -> Result<(), Fail> {
    let alloc = rt.alloc();
    let (arcs, again) = (ONE_ARC.to_vec(alloc)?, ONE_ARC.to_vec(alloc)?);
    let network = tried_again!(
        rt,
        alloc,
        Memory,
        Network::of_graph(&rt, alloc, 2, arcs, Cost::Weight, 1),
        Network::of_graph(&rt, alloc, 2, again, Cost::Weight, 1)
    );
    let costs = Solver::new(&network, Plan::usual(1)).from(&rt, alloc, 0)?;
    assert!(rt; network.n() == 2 && costs.to(1) == Some(7));
    Ok(())
}

fn grown_again<H: Threads + Abort + Sync>(
    rt: &H,
    alloc: Global,
    network: &Network,
) -> Result<Network, Fail>
    ensures { IfOk result (GrowsTo network.now) }
{
    match refusable!(alloc, network.with_arcs(alloc, &SHORTER)) {
        Ok(grown) => Ok(grown),
        Err(fault) => {
            assert!(rt; fault == NetworkFault::Memory);
            Ok(network.with_arcs(alloc, &SHORTER)?)
        }
    }
}

#[test]
fn of_network_with_arcs(rt: HostRuntime) -> Result<(), Fail> {
    let network = six(&rt, rt.alloc())?;
    let grown = grown_again(&rt, rt.alloc(), &network)?;
    assert!(rt; grown.n() == 6);
    Ok(())
}

#[test]
fn of_network_changed(rt: HostRuntime) -> Result<(), Fail> {
    let alloc = rt.alloc();
    let network = six(&rt, alloc)?;
    let pairs = [(0, 5), (3, 5)];
    let changed = match refusable!(alloc, network.changed(alloc, &pairs, &SHORTER)) {
        Ok(changed) => changed,
        Err(fault) => {
            assert!(rt; fault == NetworkFault::Memory);
            network.changed(alloc, &pairs, &SHORTER)?
        }
    };
    assert!(rt; changed.n() == 6);
    Ok(())
}

#[test]
fn of_network_arcs_between(rt: HostRuntime) -> Result<(), Fail> {
    let alloc = rt.alloc();
    let network = six(&rt, alloc)?;
    let found = tried_again!(rt, alloc, Memory, network.arcs_between(alloc, 3, 5));
    assert!(rt; found.len() == 1);
    Ok(())
}

#[test]
fn of_network_by_cost(rt: HostRuntime) -> Result<(), Fail> {
    let alloc = rt.alloc();
    let weights = six(&rt, alloc)?;
    for cost in [Cost::Weight, Cost::One, Cost::FreeBothWays] {
        let network = match refusable!(alloc, weights.by_cost(&rt, alloc, cost, 2)) {
            Ok(network) => network,
            Err(Memory) => weights.by_cost(&rt, alloc, cost, 2)?,
        };
        assert!(rt; network.n() == 6);
    }
    Ok(())
}

/// A call for the costs of the six vertices, also with the shorter arc.
#[derive(Clone, Copy)]
enum Call {
    /// By this many workers.
    From(u32),
    Everywhere,
    After,
    FromWarmPool,
    Copied,
}

/// Costs in the first network, or in the grown one.
fn costs_by<H: Threads + Wait + Clock + Sync>(
    rt: &H,
    alloc: Global,
    call: Call,
    network: &Network,
    grown: &Network,
    warm_pool: &mut WarmPool,
) -> Result<Costs, Memory>
    requires grows { GrowsTo network.now grown.now }
    requires six { (network.now.n ≡ 6) × (grown.now.n ≡ 6) }
    ensures { IfOk result (λ costs. costs.net.n ≡ 6) }
{
    let start = Start::At(0);
    match call {
        Call::From(count) => Solver::new(network, Plan::usual(count)).from(rt, alloc, 0),
        Call::Everywhere => {
            Solver::new(network, Plan::usual(2)).costs_from(rt, alloc, Start::Everywhere)
        }
        Call::After => {
            let costs = warm_pool.costs_from(rt, alloc, network, start, &OpenGate)?;
            Solver::new(network, Plan::usual(2)).costs_after(rt, alloc, grown, costs)
        }
        Call::FromWarmPool => warm_pool.costs_from(rt, alloc, network, start, &OpenGate),
        Call::Copied => {
            let costs = warm_pool.costs_from(rt, alloc, network, start, &OpenGate)?;
            costs.copied(alloc, network)
        }
    }
}

/// The costs, asked once more of the same warm pool if memory was refused.
fn asked_again<H: Threads + Wait + Clock + Sync>(
    rt: &H,
    alloc: Global,
    call: Call,
    network: &Network,
    grown: &Network,
    warm_pool: &mut WarmPool,
) -> Result<Costs, Memory>
    requires grows { GrowsTo network.now grown.now }
    requires six { (network.now.n ≡ 6) × (grown.now.n ≡ 6) }
    ensures { IfOk result (λ costs. costs.net.n ≡ 6) }
{
    match refusable!(alloc, costs_by(rt, alloc, call, network, grown, warm_pool)) {
        Ok(costs) => Ok(costs),
        Err(Memory) => costs_by(rt, alloc, call, network, grown, warm_pool),
    }
}

fn expect_six(rt: &impl Abort, costs: &Costs, want: &[Option<u64>; 6])
    requires { costs.now.net.n ≡ 6 }
{
    for v in 0..6_u32 {
        assert!(rt; costs.to(v) == want[v as usize], "vertex {v}");
    }
}

fn costs_of<H: Threads + Wait + Clock + Sync>(
    rt: &H,
    alloc: Global,
    call: Call,
    network: &Network,
    grown: &Network,
) -> Result<Costs, Memory>
    requires grows { GrowsTo network.now grown.now }
    requires six { (network.now.n ≡ 6) × (grown.now.n ≡ 6) }
    ensures { IfOk result (λ costs. costs.net.n ≡ 6) }
{
    let settings = Plan::usual(2).settings;
    let mut warm_pool = WarmPool::open(alloc, network, &settings)?;
    asked_again(rt, alloc, call, network, grown, &mut warm_pool)
}

fn expect_again<H: Threads + Wait + Clock + Abort + Sync>(
    rt: &H,
    alloc: Global,
    call: Call,
    want: &[Option<u64>; 6],
) -> Result<(), Fail> {
    let network = six(rt, alloc)?;
    let grown = network.with_arcs(alloc, &SHORTER)?;
    assert!(rt; grown.n() == 6);
    let costs = costs_of(rt, alloc, call, &network, &grown)?;
    expect_six(rt, &costs, want);
    Ok(())
}

#[test]
fn of_solver_from(rt: HostRuntime) -> Result<(), Fail> {
    expect_again(&rt, rt.alloc(), Call::From(1), &FROM_0)?;
    expect_again(&rt, rt.alloc(), Call::From(2), &FROM_0)
}

#[test]
fn of_solver_costs_from(rt: HostRuntime) -> Result<(), Fail> {
    expect_again(&rt, rt.alloc(), Call::Everywhere, &EVERYWHERE)
}

#[test]
fn of_solver_costs_after(rt: HostRuntime) -> Result<(), Fail> {
    expect_again(&rt, rt.alloc(), Call::After, &SHORTER_FROM_0)
}

// A pool whose source was refused memory serves the next one.
#[test]
fn of_warm_pool_costs_from(rt: HostRuntime) -> Result<(), Fail> {
    expect_again(&rt, rt.alloc(), Call::FromWarmPool, &FROM_0)
}

/// The costs for walks to vertex 5, asked once more: workers then open another pool.
fn served_again<H: Threads + Wait + Clock + Sync>(
    rt: &H,
    alloc: Global,
    network: &Network,
    workers: &mut Workers<'_, OpenGate>,
) -> Result<CostsBelow, Memory>
    requires { network.now.n ≡ 6 }
    ensures net { IfOk result (λ costs. costs.net ≡ network.now) }
{
    let (start, goal) = (Start::At(0), Goal::WalksTo(&[5]));
    match refusable!(alloc, workers.costs_for(rt, alloc, network, start, goal)) {
        Ok(costs) => Ok(costs),
        Err(Memory) => workers.costs_for(rt, alloc, network, start, goal),
    }
}

#[test]
fn of_workers_costs_for(rt: HostRuntime) -> Result<(), Fail> {
    let network = six(&rt, rt.alloc())?;
    let mut workers = Workers::new(Plan::usual(2).settings, &OpenGate, None);
    let costs = served_again(&rt, rt.alloc(), &network, &mut workers)?;
    assert!(rt; costs.labels().get(5) == Some(&15) && costs.limit() > 15);
    Ok(())
}

/// The costs for walks to vertex 5 with the shorter arc, from what a run left.
fn served_after<H: Threads + Wait + Clock + Sync>(
    rt: &H,
    alloc: Global,
    network: &Network,
    grown: &Network,
    workers: &mut Workers<'_, OpenGate>,
) -> Result<CostsBelow, Memory>
    requires six { network.now.n ≡ 6 }
    requires grows { GrowsTo network.now grown.now }
{
    let goal = Goal::WalksTo(&[5]);
    let costs = workers.costs_for(rt, alloc, network, Start::At(0), goal)?;
    let growth = NetworkGrowth { network, grown };
    workers.costs_for_after(rt, alloc, &growth, costs, goal)
}

#[test]
fn of_workers_costs_for_after(rt: HostRuntime) -> Result<(), Fail> {
    let alloc = rt.alloc();
    let network = six(&rt, alloc)?;
    let grown = network.with_arcs(alloc, &SHORTER)?;
    let mut workers = Workers::new(Plan::usual(1).settings, &OpenGate, None);
    let found = refusable!(
        alloc,
        served_after(&rt, alloc, &network, &grown, &mut workers)
    );
    let after = match found {
        Ok(after) => after,
        Err(Memory) => served_after(&rt, alloc, &network, &grown, &mut workers)?,
    };
    assert!(rt; after.labels().get(5) == Some(&4) && after.limit() > 4);
    Ok(())
}

#[test]
fn of_costs_copied(rt: HostRuntime) -> Result<(), Fail> {
    expect_again(&rt, rt.alloc(), Call::Copied, &FROM_0)
}

fn opened_again(alloc: Global, network: &Network) -> Result<WarmPool, Memory> {
    let settings = Plan::usual(2).settings;
    match refusable!(alloc, WarmPool::open(alloc, network, &settings)) {
        Ok(warm_pool) => Ok(warm_pool),
        Err(Memory) => WarmPool::open(alloc, network, &settings),
    }
}

#[test]
fn of_warm_pool_open(rt: HostRuntime) -> Result<(), Fail> {
    let network = six(&rt, rt.alloc())?;
    let warm_pool = opened_again(rt.alloc(), &network)?;
    assert!(rt; warm_pool.workers() == 2);
    Ok(())
}

fn within_again<H: Threads + Wait + Clock + Sync>(
    rt: &H,
    alloc: Global,
    network: &Network,
) -> Result<CostsWithin, Memory>
    requires { network.now.n ≡ 6 }
    ensures { IfOk result (λ costs. costs.net ≡ network.now) }
{
    let solver = Solver::new(network, Plan::usual(2));
    match refusable!(alloc, solver.within(rt, alloc, 0, 12)) {
        Ok(costs) => Ok(costs),
        Err(Memory) => solver.within(rt, alloc, 0, 12),
    }
}

#[test]
fn of_solver_within(rt: HostRuntime) -> Result<(), Fail> {
    let network = six(&rt, rt.alloc())?;
    let costs = within_again(&rt, rt.alloc(), &network)?;
    expect_within(&rt, 0, &network, &costs, &WITHIN_12);
    Ok(())
}

/// Asks for the costs from each source, and takes none.
fn ask_for_each(alloc: Global, solver: &Solver<'_, OpenGate>, sources: &[u32])
    requires { AreWithin solver.now.network.now sources.now }
{
    let _each = solver.each(alloc, sources);
}

fn first_costs<H: Threads + Wait + Clock + Sync>(
    rt: &H,
    alloc: Global,
    solver: &Solver<'_, OpenGate>,
) -> Result<Option<Costs>, Memory>
    requires { solver.now.network.now.n ≡ 6 }
    ensures { IfOk result (λ found. IfSome found (λ costs. costs.net ≡ solver.now.network.now)) }
{
    let mut each = solver.each(alloc, &[0]);
    match each.next(rt, alloc) {
        None => Ok(None),
        Some(found) => Ok(Some(found?)),
    }
}

#[test]
fn of_solver_each(rt: HostRuntime) -> Result<(), Fail> {
    let network = six(&rt, rt.alloc())?;
    let solver = Solver::new(&network, Plan::usual(2));
    refusable!(rt.alloc(), ask_for_each(rt.alloc(), &solver, &[0]));
    if let Some(costs) = first_costs(&rt, rt.alloc(), &solver)? {
        expect_costs(&rt, 0, &network, &costs, &FROM_0);
    }
    Ok(())
}

/// The workers, and the sources at once.
const PLANS: [(u32, u32); 3] = [(1, 1), (2, 2), (4, 2)];

/// Returns how many of four sources are refused memory.
fn refused_of_each<H: Threads + Wait + Clock + Abort + Sync>(
    rt: &H,
    alloc: Global,
    network: &Network,
    workers: u32,
    at_once: u32,
) -> u32
    requires { network.now.n ≡ 6 }
{
    let plan = Plan {
        settings: Plan::usual(workers).settings,
        at_once: AtOnce::Most(at_once),
        landmarks: 0,
        hierarchy: HierarchyUse::Never,
    };
    let solver = Solver::new(network, plan);
    let mut each = solver.each(alloc, &[0, 0, 0, 0]);
    let mut refused = 0_u32;
    for row in 0..4_usize {
        match each.next(rt, alloc) {
            Some(Ok(costs)) => expect_costs(rt, row, network, &costs, &FROM_0),
            Some(Err(Memory)) => refused = refused.saturating_add(1),
            None => {}
        }
    }
    refused
}

// One refusal is of at most one source, and side by side of none: it is tried again in its turn.
#[test]
fn of_each_next(rt: HostRuntime) -> Result<(), Fail> {
    let alloc = rt.alloc();
    let network = six(&rt, alloc)?;
    for (workers, at_once) in PLANS {
        let refused = refusable!(
            alloc,
            refused_of_each(&rt, alloc, &network, workers, at_once)
        );
        assert!(rt; refused <= 2 - at_once.min(2));
    }
    Ok(())
}
