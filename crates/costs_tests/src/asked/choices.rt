//! Landmarks that are chosen as pairs are asked for, one after another: a few, then more, or none if they gain little.

ghost use Rattle.std.specs.Prelude.{◌≡◌};

use crate::asked::draws::Draws;
use crate::asked::kept::{are_within, expect_cost, prepare};
use crate::asked::landmarks::{street_network, streets};
use crate::asked::{network_of, path};
use least_costs::{Cost, Network, Plan, Solver, Unwatched, Workspace};
use route_walks::{ArcRec, Memory};
use std::alloc::Global;
use std::process::Abort;
use std::sync::Wait;
use std::test::Fail;
use std::thread::Threads;
use std::time::Clock;

/// The crossings of each side of the streets.
const SIDE: u32 = 60;

const MOST_PAIRS: usize = 400;

/// Asks for the cost of a pair, after the network was prepared for it.
fn ask<H: Threads + Wait + Clock + Abort + Sync>(
    rt: &H,
    alloc: Global,
    network: &mut Network,
    pair: (u32, u32),
    kept: &mut Option<Workspace>,
) -> Result<Option<u64>, Fail>
    ensures { network.new ≡ network.old }
{
    let pairs = [pair];
    let within = are_within(network.n(), &pairs);
    assert!(rt; within);
    prepare(rt, alloc, network, kept);
    let solver = Solver::new(network, Plan::usual(1));
    let found = solver.between_grown(rt, alloc, &pairs, None, kept, &mut Unwatched)?;
    Ok(found.costs[0])
}

/// Asks for pairs of crossings until the network has so many landmarks. Returns the number of pairs.
fn ask_until<H: Threads + Wait + Clock + Abort + Sync>(
    rt: &H,
    alloc: Global,
    network: &mut Network,
    draws: &mut Draws,
    kept: &mut Option<Workspace>,
    landmarks: usize,
) -> Result<usize, Fail> {
    for asked in 0..MOST_PAIRS {
        if network.landmark_count() == landmarks {
            return Ok(asked);
        }
        let pair = (draws.below(SIDE * SIDE), draws.below(SIDE * SIDE));
        let cost = ask(rt, alloc, network, pair, kept)?;
        if asked % 16 == 0 {
            expect_cost(rt, alloc, network, pair, cost)?;
        }
    }
    Ok(MOST_PAIRS)
}

fn expect_few_and_more<H: Threads + Wait + Clock + Abort + Sync>(
    rt: &H,
    alloc: Global,
    network: &mut Network,
    draws: &mut Draws,
    kept: &mut Option<Workspace>,
) -> Result<(), Fail> {
    let few = ask_until(rt, alloc, network, draws, kept, 4)?;
    assert!(rt; few > 5 && few < 20, "{few} pairs");
    let more = ask_until(rt, alloc, network, draws, kept, 16)?;
    assert!(rt; more > 40 && more < MOST_PAIRS, "{more} pairs");
    Ok(())
}

// Pairs without landmarks visit some half of the crossings, if a search of 512 doesn't find them: 8 pairs or more are as
// much as 4 runs. By 4 landmarks hundreds of pairs are as much as 16 runs.
#[test]
fn a_few_first_and_then_more(rt: HostRuntime) -> Result<(), Fail> {
    let mut draws = Draws { state: 11 };
    let n = SIDE * SIDE;
    let mut network = street_network(&rt, rt.alloc(), &mut draws, SIDE, n, u32::MAX)?;
    let mut kept = Some(Workspace::new());
    expect_few_and_more(&rt, rt.alloc(), &mut network, &mut draws, &mut kept)
}

/// Streets, and a vertex so far away that all crossings share a cell.
fn streets_and_far_vertex(alloc: Global, draws: &mut Draws) -> Result<Vec<ArcRec>, Memory> {
    let mut arcs = streets(alloc, draws, SIDE, u32::MAX)?;
    arcs.push(ArcRec::new(0, SIDE * SIDE, u32::MAX))?;
    arcs.push(ArcRec::new(SIDE * SIDE, 0, u32::MAX))?;
    Ok(arcs)
}

fn expect_given_up<H: Threads + Wait + Clock + Abort + Sync>(
    rt: &H,
    alloc: Global,
    network: &mut Network,
    draws: &mut Draws,
    kept: &mut Option<Workspace>,
) -> Result<(), Fail> {
    let few = ask_until(rt, alloc, network, draws, kept, 4)?;
    assert!(rt; few < 20, "{few} pairs");
    let vain = ask_until(rt, alloc, network, draws, kept, 0)?;
    assert!(rt; vain > 7 && vain < 20, "{vain} pairs");
    let again = ask_until(rt, alloc, network, draws, kept, 16)?;
    assert!(rt; again > 20 && again < 80, "{again} pairs");
    Ok(())
}

// By landmarks a search visits as much as without.
#[test]
fn landmarks_that_gain_little_are_given_up(rt: HostRuntime) -> Result<(), Fail> {
    let mut draws = Draws { state: 12 };
    let arcs = streets_and_far_vertex(rt.alloc(), &mut draws)?;
    let mut network = network_of(&rt, rt.alloc(), SIDE * SIDE + 1, &arcs, Cost::Weight)?;
    let mut kept = Some(Workspace::new());
    expect_given_up(&rt, rt.alloc(), &mut network, &mut draws, &mut kept)
}

const FAR_PAIRS: [(u32, u32); 6] = [
    (0, 2_900),
    (1, 2_900),
    (2, 2_900),
    (3, 2_900),
    (4, 2_900),
    (5, 2_900),
];

/// Asks two workers for far pairs at the same time, each by its own room.
fn ask_two<H: Threads + Wait + Clock + Sync>(
    rt: &H,
    alloc: Global,
    network: &Network,
    kept: &mut Option<Workspace>,
) -> Result<(), Memory>
    requires { network.now.n ≡ 3000 }
{
    let solver = Solver::new(network, Plan::usual(2));
    solver.between_grown(rt, alloc, &FAR_PAIRS, None, kept, &mut Unwatched)?;
    Ok(())
}

// What both workers visited counts.
#[test]
fn visits_of_teams_count(rt: HostRuntime) -> Result<(), Fail> {
    let mut network = path(&rt, rt.alloc())?;
    let mut kept = Some(Workspace::new());
    ask_two(&rt, rt.alloc(), &network, &mut kept)?;
    assert!(rt; !network.has_landmarks());
    prepare(&rt, rt.alloc(), &mut network, &mut kept);
    assert!(rt; network.has_landmarks());
    Ok(())
}
