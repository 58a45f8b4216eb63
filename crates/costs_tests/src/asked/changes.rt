//! Landmarks, hierarchies and changes: landmarks that outlive one tell of the changed network, and what does not is gone.

use crate::asked::draws::Draws;
use crate::asked::kept::are_within;
use crate::asked::landmarks::{drawn_pairs, streets};
use crate::asked::network_of;
use least_costs::{Cost, Network, Plan, Solver, Unwatched, Workspace};
use route_walks::{ArcRec, Memory};
use std::alloc::Global;
use std::process::Abort;
use std::sync::Wait;
use std::test::Fail;
use std::thread::Threads;
use std::time::Clock;

/// The crossings of a side.
const SIDE: u32 = 12;

/// Many pairs, of no arc.
const PAIRS_OF_NO_ARC: usize = 1_025;

/// The streets that lead from the fifth column to the sixth, but that of the first row.
fn are_closed(arc: &ArcRec) -> bool {
    arc.tail >= SIDE && arc.tail % SIDE == 4 && arc.head == arc.tail.saturating_add(1)
}

/// The streets that a change closes, slows down or opens, and their ends.
#[derive(Drop)]
struct Closing {
    streets: Vec<ArcRec>,
    ends: Vec<(u32, u32)>,
}

/// Returns some streets with so much more weight.
fn slower(alloc: Global, streets: &[ArcRec], more: u32) -> Result<Vec<ArcRec>, Memory> {
    let mut slower = Vec::new(alloc);
    for street in streets {
        let weight = street.weight.saturating_add(more);
        slower.push(ArcRec { weight, ..*street })?;
    }
    Ok(slower)
}

impl Closing {
    fn of(alloc: Global, streets: &[ArcRec]) -> Result<Closing, Memory> {
        let (mut closed, mut ends) = (Vec::new(alloc), Vec::new(alloc));
        for street in streets {
            if are_closed(street) {
                closed.push(*street)?;
                ends.push((street.tail, street.head))?;
            }
        }
        Ok(Closing {
            streets: closed,
            ends,
        })
    }
}

/// Asserts if a network has landmarks, and that pairs cost what they cost in one of the same arcs without.
fn expect_kept<H: Threads + Wait + Clock + Abort + Sync>(
    rt: &H,
    alloc: Global,
    network: &Network,
    pairs: &[(u32, u32)],
    is_kept: bool,
) -> Result<(), Fail> {
    assert!(rt; (network.landmark_count() > 0) == is_kept);
    let n = network.n();
    let within = pairs.len() < 1000 && are_within(n, pairs);
    assert!(rt; within);
    let arcs = network.rows().arcs(alloc)?;
    let fresh = network_of(rt, alloc, n, &arcs, Cost::Weight)?;
    let want = Solver::new(&fresh, Plan::usual(1)).between(rt, alloc, pairs)?;
    for (workers, searches) in [(1, true), (1, false), (2, false)] {
        let mut kept = Some(Workspace::new().searching(searches));
        let solver = Solver::new(network, Plan::usual(workers));
        let found = solver.between_grown(rt, alloc, pairs, None, &mut kept, &mut Unwatched)?;
        assert!(rt;
            found.costs.as_slice() == want.as_slice(),
            "{workers} workers"
        );
    }
    Ok(())
}

/// A street network with landmarks, what is changed in it, and pairs.
fn begun<H: Threads + Wait + Clock + Abort + Sync>(
    rt: &H,
    alloc: Global,
    seed: u64,
) -> Result<(Network, Closing, Vec<(u32, u32)>), Fail> {
    let mut draws = Draws::of_seed(seed);
    let streets = streets(alloc, &mut draws, SIDE, 8)?;
    let mut network = network_of(rt, alloc, SIDE * SIDE, &streets, Cost::Weight)?;
    let pairs = drawn_pairs(alloc, &mut draws, SIDE * SIDE)?;
    let plan = Plan {
        landmarks: 4,
        ..Plan::usual(1)
    };
    network.choose_landmarks(rt, alloc, plan)?;
    let closing = Closing::of(alloc, &streets)?;
    assert!(rt; closing.ends.len() > 4);
    Ok((network, closing, pairs))
}

// Each change is made of the network that the one before has left.
#[test]
fn landmarks_outlive_what_makes_no_walk_cheaper(rt: HostRuntime) -> Result<(), Fail> {
    let alloc = rt.alloc();
    for seed in [1, 2, 3] {
        let (network, closing, pairs) = begun(&rt, alloc, seed)?;
        let slow = slower(alloc, &closing.streets, 70)?;
        expect_kept(&rt, alloc, &network, &pairs, true)?;
        let closed = network.changed(alloc, &closing.ends, &[])?;
        expect_kept(&rt, alloc, &closed, &pairs, true)?;
        let opened = closed.changed(alloc, &[], &closing.streets)?;
        expect_kept(&rt, alloc, &opened, &pairs, true)?;
        let slowed = opened.changed(alloc, &closing.ends, &slow)?;
        expect_kept(&rt, alloc, &slowed, &pairs, true)?;
        let mended = slowed.changed(alloc, &closing.ends, &closing.streets)?;
        expect_kept(&rt, alloc, &mended, &pairs, true)?;
        // The first network is as it was.
        expect_kept(&rt, alloc, &network, &pairs, true)?;
    }
    Ok(())
}

#[test]
fn landmarks_go_with_a_change_that_makes_a_walk_cheaper(rt: HostRuntime) -> Result<(), Fail> {
    let alloc = rt.alloc();
    let (network, closing, pairs) = begun(&rt, alloc, 4)?;
    let bridge = [ArcRec::new(0, SIDE * SIDE - 1, 1)];
    let bridged = network.changed(alloc, &[], &bridge)?;
    expect_kept(&rt, alloc, &bridged, &pairs, false)?;
    let slow = slower(alloc, &closing.streets, 70)?;
    let slowed = network.changed(alloc, &closing.ends, &slow)?;
    let doubled = slowed.changed(alloc, &[], &bridge)?;
    expect_kept(&rt, alloc, &doubled, &pairs, false)
}

#[test]
fn landmarks_go_with_a_change_of_many_pairs(rt: HostRuntime) -> Result<(), Fail> {
    let alloc = rt.alloc();
    let (network, _, pairs) = begun(&rt, alloc, 5)?;
    let many = vec![in alloc; (0_u32, 0_u32); PAIRS_OF_NO_ARC]?;
    let same = network.changed(alloc, many.as_slice(), &[])?;
    expect_kept(&rt, alloc, &same, &pairs, false)
}

#[test]
fn a_hierarchy_that_was_given_up_is_tried_after_a_large_change(
    rt: HostRuntime,
) -> Result<(), Fail> {
    let alloc = rt.alloc();
    let (mut network, closing, _) = begun(&rt, alloc, 6)?;
    assert!(rt; !network.make_hierarchy(alloc, 0) && network.was_contracted());
    let closed = network.changed(alloc, &closing.ends, &[])?;
    assert!(rt; closed.was_contracted() && !closed.has_hierarchy());
    let many = vec![in alloc; (0_u32, 0_u32); PAIRS_OF_NO_ARC]?;
    let same = closed.changed(alloc, many.as_slice(), &[])?;
    assert!(rt; !same.was_contracted());
    Ok(())
}

#[test]
fn a_hierarchy_goes_with_a_change(rt: HostRuntime) -> Result<(), Fail> {
    let alloc = rt.alloc();
    let (mut network, closing, _) = begun(&rt, alloc, 7)?;
    assert!(rt; network.make_hierarchy(alloc, usize::MAX));
    let closed = network.changed(alloc, &closing.ends, &[])?;
    assert!(rt; !closed.was_contracted() && !closed.has_hierarchy());
    Ok(())
}
