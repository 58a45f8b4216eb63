//! Hierarchies that are made as pairs are asked for, and pairs by them.

ghost use Rattle.std.specs.Prelude.{◌≡◌};

use crate::asked::draws::Draws;
use crate::asked::kept::{are_within, expect_cost};
use crate::asked::landmarks::{expect_same, random_network, street_network};
use least_costs::{Cost, HierarchyUse, Network, Plan, Solver, Unwatched, Workspace};
use obim_engine::OpenGate;
use route_walks::Memory;
use std::alloc::Global;
use std::process::Abort;
use std::sync::Wait;
use std::test::Fail;
use std::thread::Threads;
use std::time::Clock;

/// The crossings of each side of the streets.
const SIDE: u32 = 40;

const MOST_PAIRS: usize = 150;

/// Each of some sources, with more targets than are searched one by one. All but the third have the same.
fn many_targets(alloc: Global, n: u32) -> Result<Vec<(u32, u32)>, Memory> {
    let mut pairs = Vec::new(alloc);
    for source in 0..4_u32 {
        let first = if source == 2 { 3 } else { 0 };
        for at in 0..40_u32 {
            pairs.push((source * 90, (first + at * 7) % n.max(1)))?;
        }
    }
    Ok(pairs)
}

#[test]
fn sources_with_many_targets(rt: HostRuntime) -> Result<(), Fail> {
    let mut draws = Draws::of_seed(5);
    let mut network = street_network(&rt, rt.alloc(), &mut draws, 20, 401, 8)?;
    let pairs = many_targets(rt.alloc(), network.n())?;
    expect_same(&rt, rt.alloc(), &mut network, &pairs)
}

/// Asks for pairs of crossings until the network was contracted. Returns the number of pairs.
fn ask_until_contracted<H: Threads + Wait + Clock + Abort + Sync>(
    rt: &H,
    alloc: Global,
    network: &mut Network,
    draws: &mut Draws,
    plan: Plan,
) -> Result<usize, Fail> {
    let mut kept = Workspace::new();
    for asked in 0..MOST_PAIRS {
        if network.was_contracted() {
            return Ok(asked);
        }
        let n = network.n().max(1);
        let pair = (draws.below(n), draws.below(n));
        let pairs = [pair];
        let within = are_within(network.n(), &pairs);
        assert!(rt; within);
        kept.prepare(rt, alloc, network, plan, &OpenGate, &pairs);
        let mut lent = Some(kept);
        let found = Solver::new(network, plan).between_grown(
            rt,
            alloc,
            &pairs,
            None,
            &mut lent,
            &mut Unwatched,
        )?;
        if asked % 16 == 0 {
            expect_cost(rt, alloc, network, pair, found.costs[0])?;
        }
        kept = lent.unwrap_or(Workspace::new());
    }
    Ok(MOST_PAIRS)
}

/// The use of a hierarchy, and the fewest and the most pairs of streets until one is made. Without landmarks a pair visits some
/// half of the crossings, unless a search finds it.
const USES: [(HierarchyUse, usize, usize); 3] = [
    (HierarchyUse::Now, 1, 1),
    (HierarchyUse::Auto, 17, MOST_PAIRS - 1),
    (HierarchyUse::Never, MOST_PAIRS, MOST_PAIRS),
];

#[test]
fn after_far_pairs(rt: HostRuntime) -> Result<(), Fail> {
    for (hierarchy, least, most) in USES {
        let mut draws = Draws { state: 11 };
        let n = SIDE * SIDE;
        let mut network = street_network(&rt, rt.alloc(), &mut draws, SIDE, n, u32::MAX)?;
        let plan = Plan {
            hierarchy,
            landmarks: 0,
            ..Plan::usual(1)
        };
        let asked = ask_until_contracted(&rt, rt.alloc(), &mut network, &mut draws, plan)?;
        assert!(rt; least <= asked && asked <= most, "{asked} pairs");
        assert!(rt; network.has_hierarchy() == (most < MOST_PAIRS));
        assert!(rt; network.has_hierarchy() == (network.hierarchy_arc_count() > 0));
    }
    Ok(())
}

// It looks at more edges than allowed, and the network serves as well.
#[test]
fn given_up(rt: HostRuntime) -> Result<(), Fail> {
    let mut draws = Draws::of_seed(4);
    let mut network = random_network(&rt, rt.alloc(), &mut draws, 900, Cost::Weight)?;
    let made = network.make_hierarchy(rt.alloc(), 10);
    assert!(rt; !made && network.was_contracted() && !network.has_hierarchy());
    assert!(rt; network.hierarchy_arc_count() == 0);
    expect_same(&rt, rt.alloc(), &mut network, &[(0, 100), (100, 0), (7, 7)])
}
