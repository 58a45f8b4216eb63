//! Many sources: their order, and the workers that solve them.

ghost use Rattle.std.specs.Prelude.{◌≡◌, IfOk, IfSome};

use crate::asked::{expect_costs, network_of, path, six};
use least_costs::{AtOnce, Cost, Costs, HierarchyUse, Network, Plan, Solver, Unwatched};
use obim_engine::{Gate, Settings};
use route_walks::{ArcRec, Memory};
use std::alloc::Global;
use std::process::Abort;
use std::sync::Wait;
use std::sync::atomic::{AtomicU64, Ordering};
use std::test::Fail;
use std::thread::Threads;
use std::time::Clock;

/// Sources, and the costs from each.
const SOURCES: [u32; 5] = [0, 5, 3, 1, 0];

const FROM_0: [Option<u64>; 6] = [Some(0), Some(10), Some(10), Some(12), Some(10), Some(15)];

const COSTS: [[Option<u64>; 6]; 5] = [
    FROM_0,
    [None, None, None, None, None, Some(0)],
    [None, Some(0), Some(0), Some(0), Some(0), Some(3)],
    [None, Some(0), Some(2), Some(2), Some(2), Some(5)],
    FROM_0,
];

/// The workers, true if buckets fit the network, and the sources at once.
const PLANS: [(u32, bool, AtOnce); 6] = [
    (1, true, AtOnce::Auto),
    (2, true, AtOnce::Auto),
    (3, true, AtOnce::Most(2)),
    (4, false, AtOnce::Most(3)),
    (64, false, AtOnce::Auto),
    (2, false, AtOnce::Most(0)),
];

fn plan_of(rt: &impl Abort, workers: u32, fitted: bool, at_once: AtOnce) -> Plan {
    let even = Settings::new(workers, 1, 4).expect(rt, "settings within their limits");
    let settings = if fitted {
        even.with_widening_buckets()
    } else {
        even
    };
    Plan {
        settings,
        at_once,
        landmarks: 0,
        hierarchy: HierarchyUse::Never,
    }
}

fn expect_next(
    rt: &impl Abort,
    row: usize,
    network: &Network,
    found: Option<Result<Costs, Memory>>,
) -> Result<(), Fail>
    requires { IfSome found (λ costs. IfOk costs (λ costs. costs.net ≡ network.now)) }
{
    match (found, COSTS.get(row)) {
        (Some(costs), Some(want)) => expect_costs(rt, row, network, &costs?, want),
        (None, None) => {}
        _ => assert!(rt; false, "row {row}"),
    }
    Ok(())
}

/// Asserts that the first sources come in order, and none after the last.
fn expect_first<H: Threads + Wait + Clock + Abort + Sync>(
    rt: &H,
    alloc: Global,
    network: &Network,
    plan: Plan,
    count: usize,
) -> Result<(), Fail>
    requires { network.now.n ≡ 6 }
{
    let solver = Solver::new(network, plan);
    let mut each = solver.each(alloc, &SOURCES);
    for row in 0..count {
        expect_next(rt, row, network, each.next(rt, alloc))?;
    }
    Ok(())
}

#[test]
fn sources_come_in_order(rt: HostRuntime) -> Result<(), Fail> {
    let network = six(&rt, rt.alloc())?;
    for (workers, fitted, at_once) in PLANS {
        let plan = plan_of(&rt, workers, fitted, at_once);
        expect_first(&rt, rt.alloc(), &network, plan, 7)?;
        // A caller that stops half way leaves nothing behind.
        expect_first(&rt, rt.alloc(), &network, plan, 2)?;
    }
    Ok(())
}

/// Waits at the first visit of each source until two are visited at once, for a while.
#[derive(Drop)]
struct Meeting {
    workers: AtomicU64,
}

impl Gate for Meeting {
    fn pass<H: Wait>(&self, _rt: &H, worker: u32, _vertex: u32) {
        self.workers.fetch_or(1 << (worker % 64), Ordering::Relaxed);
        for _ in 0..1 << 28 {
            if self.workers.load(Ordering::Relaxed) == 0b11 {
                break;
            }
        }
    }
}

// Each source reaches itself alone, so the second worker visits another.
#[test]
fn sources_meet(rt: HostRuntime) -> Result<(), Fail> {
    let alloc = rt.alloc();
    let arcs: [ArcRec; 0] = [];
    let network = network_of(&rt, alloc, 2, &arcs, Cost::Weight)?;
    let solver = Solver {
        network: &network,
        plan: Plan::usual(2),
        gate: Meeting {
            workers: AtomicU64::new(0),
        },
    };
    let mut each = solver.each(alloc, &[0, 1]);
    for _ in 0..2 {
        assert!(rt; each.next(&rt, alloc).is_some_and(|costs| costs.is_ok()));
    }
    assert!(rt; solver.gate.workers.load(Ordering::Relaxed) == 0b11);
    Ok(())
}

#[derive(Drop)]
struct Counting {
    visits: AtomicU64,
}

impl Gate for Counting {
    fn pass<H: Wait>(&self, _rt: &H, _worker: u32, _vertex: u32) {
        self.visits.fetch_add(1, Ordering::Relaxed);
    }
}

fn solver_that_counts(network: &Network) -> Solver<'_, Counting>
    ensures { result.network.now ≡ network.now }
{
    Solver {
        network,
        plan: Plan::usual(1),
        gate: Counting {
            visits: AtomicU64::new(0),
        },
    }
}

// Workers go little further than to the target.
#[test]
fn few_visits_of_near_targets(rt: HostRuntime) -> Result<(), Fail> {
    let network = path(&rt, rt.alloc())?;
    let solver = solver_that_counts(&network);
    let pairs = [(10, 13), (10, 12)];
    let found = solver.between_grown(&rt, rt.alloc(), &pairs, None, &mut None, &mut Unwatched)?;
    assert!(rt; found.costs.as_slice() == [Some(3), Some(2)].as_slice());
    let visits = solver.gate.visits.load(Ordering::Relaxed);
    assert!(rt; visits > 0 && visits <= 100, "{visits} visits");
    Ok(())
}

// If the thread that asks finds the targets, workers visit nothing.
#[test]
fn no_visits_of_targets_found_before(rt: HostRuntime) -> Result<(), Fail> {
    let network = path(&rt, rt.alloc())?;
    let solver = solver_that_counts(&network);
    let costs = solver.between(&rt, rt.alloc(), &[(10, 13), (10, 12)])?;
    assert!(rt; costs.as_slice() == [Some(3), Some(2)].as_slice());
    assert!(rt; solver.gate.visits.load(Ordering::Relaxed) == 0);
    Ok(())
}

// Workers go little further than to the bound.
#[test]
fn few_visits_within_a_bound(rt: HostRuntime) -> Result<(), Fail> {
    let network = path(&rt, rt.alloc())?;
    let solver = solver_that_counts(&network);
    solver.within(&rt, rt.alloc(), 10, 3)?;
    let visits = solver.gate.visits.load(Ordering::Relaxed);
    assert!(rt; visits <= 10, "{visits} visits");
    Ok(())
}
