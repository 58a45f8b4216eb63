//! Walks that the thread that asks finds: the same from the source, from both ends and by landmarks.

use crate::asked::draws::Draws;
use crate::asked::landmarks::{drawn_pairs, random_network, street_network};
use least_costs::{Cost, Network, Plan, WalksFound, Workers, Workspace};
use obim_engine::OpenGate;
use std::alloc::Global;
use std::process::Abort;
use std::sync::Wait;
use std::test::Fail;
use std::thread::Threads;
use std::time::Clock;

/// The label and the walk of each pair, by searches that visit as much as they have to.
fn walks_of(
    rt: &impl Abort,
    alloc: Global,
    network: &Network,
    pairs: &[(u32, u32)],
) -> Result<Vec<WalksFound>, Fail> {
    let n = network.n();
    let mut workers = Workers::new(Plan::usual(1).settings, &OpenGate, Some(Workspace::new()));
    let mut walks = Vec::new(alloc);
    for (source, target) in pairs {
        let (source, target) = (*source, *target);
        assert!(rt; source < n && target < n);
        let found = workers.near_walks(alloc, network, source, &[target]);
        walks.push(found.expect(rt, "a walk in a small network"))?;
    }
    Ok(walks)
}

fn are_equal(one: &WalksFound, other: &WalksFound) -> bool {
    let mut both = one.walks.iter().zip(&other.walks);
    one.labels.as_slice() == other.labels.as_slice()
        && one.walks.len() == other.walks.len()
        && both.all(|(walk, same)| walk.as_slice() == same.as_slice())
}

fn expect_equal(rt: &impl Abort, found: &[WalksFound], want: &[WalksFound]) {
    assert_eq!(rt; found.len(), want.len());
    for (one, other) in found.iter().zip(want) {
        assert!(rt; are_equal(one, other));
    }
}

/// Asserts that walks of drawn pairs are the same in a network, with its rows reversed, and with landmarks.
fn expect_drawn_walks<H: Threads + Wait + Clock + Abort + Sync>(
    rt: &H,
    alloc: Global,
    network: &mut Network,
    draws: &mut Draws,
) -> Result<(), Fail> {
    let pairs = drawn_pairs(alloc, draws, network.n())?;
    let want = walks_of(rt, alloc, network, &pairs)?;
    network.reverse(alloc);
    assert!(rt; network.has_reversed());
    expect_equal(rt, &walks_of(rt, alloc, network, &pairs)?, &want);
    let plan = Plan {
        landmarks: 8,
        ..Plan::usual(1)
    };
    let chosen = network.choose_landmarks(rt, alloc, plan)?;
    assert!(rt; chosen > 0);
    expect_equal(rt, &walks_of(rt, alloc, network, &pairs)?, &want);
    Ok(())
}

#[test]
fn walks_in_random_streets(rt: HostRuntime) -> Result<(), Fail> {
    for seed in [3, 4, 5] {
        let mut draws = Draws::of_seed(seed);
        let mut network = street_network(&rt, rt.alloc(), &mut draws, 14, 200, 8)?;
        expect_drawn_walks(&rt, rt.alloc(), &mut network, &mut draws)?;
    }
    Ok(())
}

#[test]
fn walks_along_random_arcs(rt: HostRuntime) -> Result<(), Fail> {
    for (seed, count, cost) in [
        (6, 300, Cost::Weight),
        (7, 900, Cost::Weight),
        (8, 600, Cost::One),
    ] {
        let mut draws = Draws::of_seed(seed);
        let mut network = random_network(&rt, rt.alloc(), &mut draws, count, cost)?;
        expect_drawn_walks(&rt, rt.alloc(), &mut network, &mut draws)?;
    }
    Ok(())
}
