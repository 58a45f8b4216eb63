//! Pairs, near searches and landmarks with one allocation refused.

ghost use Rattle.std.specs.Prelude.{◌≡◌};
ghost use Rattle.least_costs.specs.Pairs.{GrowsInto};

use crate::asked::kept::{ask_in_vain, prepare};
use crate::asked::refusals::SHORTER;
use crate::asked::{six, tree};
use least_costs::{Network, Plan, Solver, Unwatched, Workers, Workspace};
use obim_engine::OpenGate;
use route_walks::{Memory, refusable, tried_again};
use std::alloc::Global;
use std::process::Abort;
use std::sync::Wait;
use std::test::Fail;
use std::thread::Threads;
use std::time::Clock;

const PAIRS: [(u32, u32); 2] = [(3, 1), (0, 5)];

fn expect_between<H: Threads + Wait + Clock + Abort + Sync>(
    rt: &H,
    alloc: Global,
    network: &Network,
    workers: u32,
) -> Result<(), Fail>
    requires { network.now.n ≡ 6 }
{
    let solver = Solver::new(network, Plan::usual(workers));
    let costs = tried_again!(rt, alloc, Memory, solver.between(rt, alloc, &PAIRS));
    assert!(rt; costs.as_slice() == [Some(0), Some(15)].as_slice());
    Ok(())
}

#[test]
fn of_solver_between(rt: HostRuntime) -> Result<(), Fail> {
    let network = six(&rt, rt.alloc())?;
    expect_between(&rt, rt.alloc(), &network, 1)?;
    expect_between(&rt, rt.alloc(), &network, 2)
}

fn expect_between_grown<H: Threads + Wait + Clock + Abort + Sync>(
    rt: &H,
    alloc: Global,
    network: &Network,
    grown: Option<&Network>,
    after: &[Option<u64>],
) -> Result<(), Fail>
    requires six { network.now.n ≡ 6 }
    requires grown { GrowsInto network.now grown }
{
    let solver = Solver::new(network, Plan::usual(1));
    let mut kept = Some(Workspace::new());
    let found = tried_again!(
        rt,
        alloc,
        Memory,
        solver.between_grown(rt, alloc, &PAIRS, grown, &mut kept, &mut Unwatched)
    );
    assert!(rt; found.costs.as_slice() == [Some(0), Some(15)].as_slice());
    assert!(rt; found.after.as_slice() == after);
    Ok(())
}

#[test]
fn of_solver_between_grown(rt: HostRuntime) -> Result<(), Fail> {
    let mut network = six(&rt, rt.alloc())?;
    let grown = network.with_arcs(rt.alloc(), &SHORTER)?;
    let after = &[Some(0), Some(4)];
    expect_between_grown(&rt, rt.alloc(), &network, Some(&grown), after)?;
    network.reverse(rt.alloc());
    expect_between_grown(&rt, rt.alloc(), &network, None, &[])
}

// A network without reversed rows serves as well.
#[test]
fn of_network_reverse(rt: HostRuntime) -> Result<(), Fail> {
    let alloc = rt.alloc();
    let mut network = six(&rt, alloc)?;
    refusable!(alloc, network.reverse(alloc));
    let solver = Solver::new(&network, Plan::usual(1));
    let costs = solver.between(&rt, alloc, &PAIRS)?;
    assert!(rt; costs.as_slice() == [Some(0), Some(15)].as_slice());
    network.reverse(alloc);
    assert!(rt; network.has_reversed());
    Ok(())
}

fn prepared_again<H: Threads + Wait + Clock + Sync>(
    rt: &H,
    alloc: Global,
    network: &mut Network,
    kept: &mut Option<Workspace>,
) -> Result<(), Memory>
    requires { network.old.n ≡ 3000 }
{
    ask_in_vain(rt, alloc, network, kept)?;
    refusable!(alloc, prepare(rt, alloc, network, kept));
    if !network.has_reversed() {
        ask_in_vain(rt, alloc, network, kept)?;
        prepare(rt, alloc, network, kept);
    }
    Ok(())
}

// It then waits for more fruitless searches before it reverses the rows.
#[test]
fn of_workspace_prepare(rt: HostRuntime) -> Result<(), Fail> {
    let mut network = tree(&rt, rt.alloc())?;
    let mut kept = Some(Workspace::new());
    prepared_again(&rt, rt.alloc(), &mut network, &mut kept)?;
    assert!(rt; network.has_reversed());
    Ok(())
}

// The same workers are asked again, with the lists that the refusal left.
#[test]
fn of_workers_near_walks(rt: HostRuntime) -> Result<(), Fail> {
    let alloc = rt.alloc();
    let network = six(&rt, alloc)?;
    let mut workers = Workers::new(Plan::usual(1).settings, &OpenGate, Some(Workspace::new()));
    let found = refusable!(alloc, workers.near_walks(alloc, &network, 0, &[4]));
    let walks = match found {
        Some(walks) => Some(walks),
        None => workers.near_walks(alloc, &network, 0, &[4]),
    };
    let walks = walks.expect(&rt, "a vertex near the source");
    assert!(rt; walks.labels.as_slice() == [10].as_slice());
    assert!(rt; walks.walks.len() == 1 && walks.walks[0].as_slice() == [0, 2, 4].as_slice());
    Ok(())
}

#[test]
fn of_workers_near_within(rt: HostRuntime) -> Result<(), Fail> {
    let alloc = rt.alloc();
    let network = six(&rt, alloc)?;
    let mut workers = Workers::new(Plan::usual(1).settings, &OpenGate, Some(Workspace::new()));
    let found = refusable!(alloc, workers.near_within(alloc, &network, 3, 2));
    let within = match found {
        Some(within) => Some(within),
        None => workers.near_within(alloc, &network, 3, 2),
    };
    let within = within.expect(&rt, "a bound near the source");
    assert!(rt; within.as_slice() == [(1, 0), (2, 0), (3, 0), (4, 0)].as_slice());
    Ok(())
}

// Pairs cost the same by the landmarks, and without them if memory is refused.
#[test]
fn of_network_choose_landmarks(rt: HostRuntime) -> Result<(), Fail> {
    let alloc = rt.alloc();
    let mut network = six(&rt, alloc)?;
    let plan = Plan {
        landmarks: 2,
        ..Plan::usual(1)
    };
    let chosen = refusable!(alloc, network.choose_landmarks(&rt, alloc, plan));
    assert!(rt; chosen.is_ok() == network.has_landmarks());
    let solver = Solver::new(&network, plan);
    let costs = solver.between(&rt, alloc, &PAIRS)?;
    assert!(rt; costs.as_slice() == [Some(0), Some(15)].as_slice());
    Ok(())
}

// Pairs cost the same by the hierarchy, and without one if memory is refused.
#[test]
fn of_network_make_hierarchy(rt: HostRuntime) -> Result<(), Fail> {
    let alloc = rt.alloc();
    let mut network = six(&rt, alloc)?;
    let made = refusable!(alloc, network.make_hierarchy(alloc, usize::MAX));
    assert!(rt; made == network.has_hierarchy() && network.was_contracted());
    let solver = Solver::new(&network, Plan::usual(1));
    let costs = solver.between(&rt, alloc, &PAIRS)?;
    assert!(rt; costs.as_slice() == [Some(0), Some(15)].as_slice());
    Ok(())
}

#[test]
fn of_solver_between_by_landmarks(rt: HostRuntime) -> Result<(), Fail> {
    let alloc = rt.alloc();
    let mut network = six(&rt, alloc)?;
    let plan = Plan::usual(1);
    network.choose_landmarks(&rt, alloc, plan)?;
    let solver = Solver::new(&network, plan);
    let costs = tried_again!(&rt, alloc, Memory, solver.between(&rt, alloc, &PAIRS));
    assert!(rt; costs.as_slice() == [Some(0), Some(15)].as_slice());
    Ok(())
}
