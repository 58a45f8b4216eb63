//! Calls one after another with what is kept: the costs are those of whole runs.

ghost use Rattle.std.specs.Prelude.{◌≡◌, ◌<◌, true};
ghost use Rattle.least_costs.specs.Pairs.{ArePairsWithin};

use crate::asked::{path, six, tree};
use least_costs::{HierarchyUse, Network, Plan, Solver, Unwatched, Workers, Workspace};
use obim_engine::OpenGate;
use route_walks::{INF, Memory};
use std::alloc::Global;
use std::process::Abort;
use std::sync::Wait;
use std::test::Fail;
use std::thread::Threads;
use std::time::Clock;

pub(crate) fn are_within(n: u32, pairs: &[(u32, u32)]) -> bool
    ensures { result ≡ true → ArePairsWithin n pairs.now }
{
    pairs.iter().all(|pair| pair.0 < n && pair.1 < n)
}

/// True if the path of 3,000 vertices is asked, and not the six, and the pairs. In both a search gives up after 512
/// visits.
const CALLS: [(bool, &[(u32, u32)]); 8] = [
    (false, &[(0, 5)]),
    (true, &[(10, 13), (20, 21)]),
    (true, &[(0, 2_999)]),
    (true, &[(2_999, 0), (1_000, 999)]),
    (false, &[(3, 1), (0, 5), (5, 0), (0, 3), (3, 5)]),
    (true, &[(5, 400), (5, 4), (5, 2_000), (7, 7)]),
    (true, &[(30, 1_000), (31, 600), (40, 41)]),
    (false, &[(2, 0), (2, 5)]),
];

pub(crate) fn expect_cost<H: Threads + Wait + Clock + Abort + Sync>(
    rt: &H,
    alloc: Global,
    network: &Network,
    (source, target): (u32, u32),
    cost: Option<u64>,
) -> Result<(), Fail> {
    assert!(rt; source < network.n() && target < network.n());
    let costs = Solver::new(network, Plan::usual(1)).from(rt, alloc, source)?;
    assert!(rt; costs.to(target) == cost, "from {source} to {target}");
    Ok(())
}

/// Asserts the costs of pairs, and that what is kept is returned.
fn expect_pairs<H: Threads + Wait + Clock + Abort + Sync>(
    rt: &H,
    alloc: Global,
    network: &Network,
    pairs: &[(u32, u32)],
    kept: &mut Option<Workspace>,
) -> Result<(), Fail> {
    let within = pairs.len() < 100 && are_within(network.n(), pairs);
    assert!(rt; within);
    let solver = Solver::new(network, Plan::usual(2));
    let found = solver.between_grown(rt, alloc, pairs, None, kept, &mut Unwatched)?;
    assert!(rt; kept.is_some() && found.costs.len() == pairs.len());
    expect_each(rt, alloc, network, pairs, &found.costs)
}

fn expect_each<H: Threads + Wait + Clock + Abort + Sync>(
    rt: &H,
    alloc: Global,
    network: &Network,
    pairs: &[(u32, u32)],
    costs: &[Option<u64>],
) -> Result<(), Fail> {
    for (pair, cost) in pairs.iter().zip(costs) {
        expect_cost(rt, alloc, network, *pair, *cost)?;
    }
    Ok(())
}

fn expect_calls<H: Threads + Wait + Clock + Abort + Sync>(
    rt: &H,
    alloc: Global,
    short: &Network,
    long: &Network,
    kept: &mut Option<Workspace>,
) -> Result<(), Fail> {
    for (is_long, pairs) in CALLS {
        let network = if is_long { long } else { short };
        expect_pairs(rt, alloc, network, pairs, kept)?;
    }
    Ok(())
}

/// Asserts the costs of all calls, by the same room also once the rows are reversed.
fn expect_calls_twice<H: Threads + Wait + Clock + Abort + Sync>(
    rt: &H,
    alloc: Global,
    short: &mut Network,
    long: &mut Network,
    kept: &mut Option<Workspace>,
) -> Result<(), Fail> {
    expect_calls(rt, alloc, short, long, kept)?;
    short.reverse(alloc);
    long.reverse(alloc);
    assert!(rt; short.has_reversed() && long.has_reversed());
    expect_calls(rt, alloc, short, long, kept)
}

#[test]
fn costs_of_one_call_after_another(rt: HostRuntime) -> Result<(), Fail> {
    let mut short = six(&rt, rt.alloc())?;
    let mut long = path(&rt, rt.alloc())?;
    let mut kept = Some(Workspace::new());
    expect_calls_twice(&rt, rt.alloc(), &mut short, &mut long, &mut kept)
}

fn expect_visits<H: Threads + Wait + Clock + Abort + Sync>(
    rt: &H,
    alloc: Global,
    network: &Network,
    kept: &mut Option<Workspace>,
) -> Result<(), Fail> {
    for (pair, visits) in [((10, 13), 3), ((0, 2_999), 515), ((7, 7), 515)] {
        expect_pairs(rt, alloc, network, &[pair], kept)?;
        let seen = kept.as_ref().map(|kept| kept.search_visits());
        assert!(rt; seen == Some(visits), "to {}", pair.1);
    }
    Ok(())
}

// A search visits the vertices that are nearer than its target, and gives up after 512 visits here.
#[test]
fn visits_of_searches_add_up(rt: HostRuntime) -> Result<(), Fail> {
    let long = path(&rt, rt.alloc())?;
    let mut kept = Some(Workspace::new());
    expect_visits(&rt, rt.alloc(), &long, &mut kept)
}

/// Asks for a far target from many vertices, until rows are worth reversing if frontiers are wide.
pub fn ask_in_vain<H: Threads + Wait + Clock + Sync>(
    rt: &H,
    alloc: Global,
    network: &Network,
    kept: &mut Option<Workspace>,
) -> Result<(), Memory>
    requires { network.now.n ≡ 3000 }
{
    let solver = Solver::new(network, Plan::usual(1));
    for source in 0..40_u32 {
        solver.between_grown(rt, alloc, &[(source, 2_900)], None, kept, &mut Unwatched)?;
    }
    Ok(())
}

pub fn prepare<H: Threads + Wait + Clock + Sync>(
    rt: &H,
    alloc: Global,
    network: &mut Network,
    kept: &mut Option<Workspace>,
)
    ensures { network.new ≡ network.old }
{
    if let Some(kept) = kept {
        let plan = Plan {
            hierarchy: HierarchyUse::Never,
            ..Plan::usual(1)
        };
        kept.prepare(rt, alloc, network, plan, &OpenGate, &[]);
    }
}

/// Asserts if a network has reversed rows and landmarks after searches in vain.
fn expect_prepared<H: Threads + Wait + Clock + Abort + Sync>(
    rt: &H,
    alloc: Global,
    network: &mut Network,
    searches: bool,
    want: (bool, bool),
) -> Result<(), Fail>
    requires { network.old.n ≡ 3000 }
{
    let mut kept = Some(Workspace::new().searching(searches));
    prepare(rt, alloc, network, &mut kept);
    assert!(rt; !network.has_reversed() && !network.has_landmarks());
    ask_in_vain(rt, alloc, network, &mut kept)?;
    prepare(rt, alloc, network, &mut kept);
    let prepared = (network.has_reversed(), network.has_landmarks());
    assert!(rt; prepared == want);
    Ok(())
}

#[test]
fn trees_are_reversed_after_searches_in_vain(rt: HostRuntime) -> Result<(), Fail> {
    for searches in [false, true] {
        let mut network = tree(&rt, rt.alloc())?;
        let want = (searches, false);
        expect_prepared(&rt, rt.alloc(), &mut network, searches, want)?;
    }
    Ok(())
}

#[test]
fn paths_have_landmarks_after_searches_in_vain(rt: HostRuntime) -> Result<(), Fail> {
    let mut network = path(&rt, rt.alloc())?;
    expect_prepared(&rt, rt.alloc(), &mut network, true, (false, true))
}

/// A question whose answers the thread that asks finds, or not.
#[derive(Clone, Copy)]
struct Near<'a> {
    is_long: bool,
    source: u32,
    target: u32,
    /// The target's label and walk; `INF` and no vertices if there is no walk.
    walk: Option<(u64, &'a [u32])>,
    bound: u64,
    /// The vertices within the bound, each with its cost.
    within: Option<&'a [(u32, u64)]>,
}

const NEAR: [Near<'static>; 4] = [
    Near {
        is_long: false,
        source: 0,
        target: 5,
        walk: Some((15, &[0, 2, 4, 1, 3, 5])),
        bound: 12,
        within: Some(&[(0, 0), (1, 10), (2, 10), (3, 12), (4, 10)]),
    },
    Near {
        is_long: true,
        source: 10,
        target: 13,
        walk: Some((3, &[10, 11, 12, 13])),
        bound: 2,
        within: Some(&[(10, 0), (11, 1), (12, 2)]),
    },
    Near {
        is_long: true,
        source: 0,
        target: 2_999,
        walk: None,
        bound: 2_000,
        within: None,
    },
    Near {
        is_long: false,
        source: 2,
        target: 0,
        walk: Some((INF, &[])),
        bound: 0,
        within: Some(&[(1, 0), (2, 0), (4, 0)]),
    },
];

/// Asserts what the thread that asks finds, if it searches.
fn expect_near(
    rt: &impl Abort,
    alloc: Global,
    network: &Network,
    workers: &mut Workers<'_, OpenGate>,
    near: &Near,
    searches: bool,
) {
    let (n, source, target) = (network.n(), near.source, near.target);
    assert!(rt; source < n && target < n && near.bound < INF);
    match workers.near_walks(alloc, network, source, &[target]) {
        Some(found) => {
            assert!(rt; found.labels.len() == 1 && found.walks.len() == 1);
            let walk = Some((found.labels[0], found.walks[0].as_slice()));
            assert!(rt; searches && walk == near.walk, "from {source}");
        }
        None => assert!(rt; !searches || near.walk.is_none(), "from {source}"),
    }
    let within = workers.near_within(alloc, network, source, near.bound);
    let within = within.as_ref().map(|within| within.as_slice());
    assert!(rt;
        within == near.within || (!searches && within.is_none()),
        "from {source}"
    );
}

/// Asserts what the thread that asks finds by what is kept, and returns that.
fn expect_kept(
    rt: &impl Abort,
    alloc: Global,
    short: &Network,
    long: &Network,
    kept: Option<Workspace>,
    searches: bool,
) -> Workspace {
    let mut workers = Workers::new(Plan::usual(1).settings, &OpenGate, kept);
    for near in &NEAR {
        let network = if near.is_long { long } else { short };
        expect_near(rt, alloc, network, &mut workers, near, searches);
    }
    workers.into_workspace()
}

#[test]
fn walks_and_bounds_by_the_thread_that_asks(rt: HostRuntime) -> Result<(), Fail> {
    let alloc = rt.alloc();
    let short = six(&rt, alloc)?;
    let long = path(&rt, alloc)?;
    let none = expect_kept(&rt, alloc, &short, &long, None, false);
    let kept = none.searching(true);
    let kept = expect_kept(&rt, alloc, &short, &long, Some(kept), true);
    expect_kept(&rt, alloc, &short, &long, Some(kept), true);
    Ok(())
}
