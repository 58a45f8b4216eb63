//! Callers of a network, and what they know.
//!
//! Five functions as a program writes and proves them over `least_costs`. `cost_matrix` asks for the costs from each
//! of many sources to each of many targets. `nearest_depot` asks for the depot from which a vertex is reached at the
//! least cost, and `nearest_two` for each of many customers which is nearest and which one next. `changes` asks what a
//! new road saves for each of many sources, and `pairs_in_both` for many pairs, by landmarks. The program prints what
//! they give for five crossings, after the example of `docs/LIBRARY.md`.
#![tactic(auto)]

ghost use Rattle.std.specs.Prelude.{◌≡◌};

mod changes;
mod choice;
mod landmarked;
mod matrix;
mod nearest;
mod spare;

use crate::changes::changes;
use crate::landmarked::pairs_in_both;
use crate::matrix::cost_matrix;
use crate::nearest::nearest_depot;
use crate::spare::nearest_two;
use anyhow::Result;
use least_costs::{Cost, Network, Plan, Solver};
use route_walks::{ArcRec, arcs};
use std::alloc::Global;
use std::sync::Wait;
use std::thread::Threads;
use std::time::Clock;

/// The roads between five crossings, each one way, and what each costs.
const ROADS: [ArcRec; 6] = arcs![
    (0, 1, 7),
    (1, 2, 5),
    (2, 3, 4),
    (3, 0, 6),
    (1, 3, 8),
    (4, 2, 1)
];

const NEW_ROAD: [ArcRec; 1] = arcs![(0, 2, 3)];

fn main(rt: HostRuntime) -> Result<()> {
    let alloc = rt.alloc();
    let arcs = vec![in alloc; ArcRec::new(0, 1, 7), ArcRec::new(1, 2, 5)]?;
    let network = Network::new(&rt, alloc, 3, arcs, Cost::Weight, 2)?;
    print_costs(&rt, alloc, &network)?;
    print_callers(&rt, alloc)
}

/// Prints what it costs to get to vertex 2: from vertex 0, from each of the others, and once there is a new road.
fn print_costs<H: Print + Threads + Wait + Clock + Sync>(
    rt: &H,
    alloc: Global,
    network: &Network,
) -> Result<()>
    requires { network.now.n ≡ 3 }
{
    let solver = Solver::new(network, Plan::usual(2));
    let costs = solver.from(rt, alloc, 0)?;
    print_cost(rt, costs.to(2))?;
    print_each(rt, alloc, &solver)?;
    let grown = network.with_arcs(alloc, &[ArcRec::new(0, 2, 3)])?;
    let after = solver.costs_after(rt, alloc, &grown, costs)?;
    print_cost(rt, after.to(2))
}

fn print_each<H: Print + Threads + Wait + Clock + Sync>(
    rt: &H,
    alloc: Global,
    solver: &Solver<'_>,
) -> Result<()>
    requires { solver.now.network.now.n ≡ 3 }
{
    let mut each = solver.each(alloc, &[1, 2]);
    while let Some(found) = each.next(rt, alloc) {
        print_cost(rt, found?.to(2))?;
    }
    Ok(())
}

fn print_cost<H: Print>(rt: &H, cost: Option<u64>) -> Result<()> {
    println!(rt; "{:?}", cost)?;
    Ok(())
}

/// Prints what the five functions give for the crossings.
fn print_callers<H: Print + Threads + Wait + Clock + Sync>(rt: &H, alloc: Global) -> Result<()> {
    let mut network = Network::new(rt, alloc, 5, ROADS.to_vec(alloc)?, Cost::Weight, 2)?;
    print_matrix(rt, alloc, &network)?;
    print_nearest(rt, alloc, &network)?;
    print_spares(rt, alloc, &network)?;
    print_changes(rt, alloc, &network)?;
    print_pairs(rt, alloc, &mut network)
}

fn print_matrix<H: Print + Threads + Wait + Clock + Sync>(
    rt: &H,
    alloc: Global,
    network: &Network,
) -> Result<()>
    requires { network.now.n ≡ 5 }
{
    let rows = cost_matrix(rt, alloc, network, Plan::usual(2), &[0, 3, 4], &[2, 4])?;
    for row in rows.iter() {
        println!(rt; "{:?}", row)?;
    }
    Ok(())
}

fn print_nearest<H: Print + Threads + Wait + Clock + Sync>(
    rt: &H,
    alloc: Global,
    network: &Network,
) -> Result<()>
    requires { network.now.n ≡ 5 }
{
    let depot = nearest_depot(rt, alloc, network, Plan::usual(2), &[3, 4, 2], 0)?;
    println!(rt; "{:?}", depot)?;
    Ok(())
}

/// Prints the two nearest depots of three crossings. Only from 4 itself a walk leads to 4.
fn print_spares<H: Print + Threads + Wait + Clock + Sync>(
    rt: &H,
    alloc: Global,
    network: &Network,
) -> Result<()>
    requires { network.now.n ≡ 5 }
{
    let found = nearest_two(rt, alloc, network, Plan::usual(2), &[3, 4, 2], &[0, 1, 4])?;
    for choices in found.iter() {
        println!(rt; "{:?}", choices)?;
    }
    let found = nearest_two(rt, alloc, network, Plan::usual(2), &[3, 2], &[4])?;
    println!(rt; "{:?}", found)?;
    Ok(())
}

fn print_changes<H: Print + Threads + Wait + Clock + Sync>(
    rt: &H,
    alloc: Global,
    network: &Network,
) -> Result<()>
    requires { network.now.n ≡ 5 }
{
    let grown = network.with_arcs(alloc, &NEW_ROAD)?;
    let changes = changes(rt, alloc, network, &grown, Plan::usual(2), &[0, 1, 3], 2)?;
    for change in changes.iter() {
        println!(rt; "{:?}", change)?;
    }
    Ok(())
}

fn print_pairs<H: Print + Threads + Wait + Clock + Sync>(
    rt: &H,
    alloc: Global,
    network: &mut Network,
) -> Result<()>
    requires { network.old.n ≡ 5 }
{
    let mut changed = network.with_arcs(alloc, &NEW_ROAD)?;
    let pairs = [(0, 2), (1, 2), (3, 2), (2, 4)];
    let found = pairs_in_both(rt, alloc, network, &mut changed, Plan::usual(1), &pairs)?;
    println!(rt; "{:?}", found.costs)?;
    println!(rt; "{:?}", found.after)?;
    Ok(())
}
