//! Two searches, each over a graph of its own, worked by hand.

use crate::plain::build;
use csr_graph::Csr;
use near_labels::SearchSpace;
use route_walks::{ArcRec, INF, arcs};
use std::process::Abort;
use std::test::Fail;

/// Leads from 0 to 2 at 5 and to 3 at 9, or to 3 at 11 over 1.
const UP: [ArcRec; 4] = arcs![(0, 2, 5), (0, 1, 4), (1, 3, 7), (0, 3, 9)];

/// Leads from 1 to 2 at 8 and to 3 at 1, and from 4 nowhere.
const DOWN: [ArcRec; 2] = arcs![(1, 2, 8), (1, 3, 1)];

/// The least cost of two walks from `u` and `v` that meet, if it is at most this.
fn above(
    rt: &impl Abort,
    (up, down): (&Csr, &Csr),
    (forward, backward): (&mut SearchSpace, &mut SearchSpace),
    (u, v): (u32, u32),
    most: u64,
) -> Option<u64> {
    let n = up.n();
    assert!(rt; down.n() == n && u < n && v < n);
    assert!(rt; forward.vertices() == n as usize && backward.vertices() == n as usize);
    forward.cost_above(backward, up, down, u, v, most)
}

#[test]
fn walks_that_meet(rt: HostRuntime) -> Result<(), Fail> {
    let alloc = rt.alloc();
    let (up, down) = (build(&rt, alloc, 5, &UP)?, build(&rt, alloc, 5, &DOWN)?);
    let (mut one, mut other) = (SearchSpace::new(alloc, 5)?, SearchSpace::new(alloc, 5)?);
    one.allow(100, 100);
    let ways = (&up, &down);
    // Over 3 at 9 + 1, over 1 at 4 + 0, and over 2 at 5 + 8.
    assert!(rt; above(&rt, ways, (&mut one, &mut other), (0, 1), INF) == Some(4));
    assert!(rt; above(&rt, ways, (&mut one, &mut other), (0, 3), INF) == Some(9));
    assert!(rt; above(&rt, ways, (&mut one, &mut other), (1, 1), 0) == Some(0));
    assert!(rt; above(&rt, ways, (&mut one, &mut other), (0, 4), INF) == Some(INF));
    assert!(rt; above(&rt, ways, (&mut one, &mut other), (0, 3), 3).is_none());
    one.allow(0, 100);
    assert!(rt; above(&rt, ways, (&mut one, &mut other), (0, 1), INF).is_none());
    Ok(())
}
