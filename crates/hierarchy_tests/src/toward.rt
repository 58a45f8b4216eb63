//! Costs to many targets by sweeps, beside the plain way.

ghost use Rattle.std.specs.Prelude.{◌≡◌, ◌<◌, true, All};

use crate::costs::{KINDS, Room, SEEDS, hierarchy_of, room_of};
use crate::plain::{build, costs_from, draw_arcs};
use csr_graph::Csr;
use hierarchy::{Hierarchy, TargetSweep};
use near_labels::SearchSpace;
use route_walks::{ArcRec, Memory};
use std::alloc::Global;
use std::process::Abort;
use std::test::Fail;

pub(crate) fn are_below(n: u32, vertices: &[u32]) -> bool
    ensures { result ≡ true → All (λ v. v < n) vertices.now }
{
    vertices.iter().all(|v| *v < n)
}

/// Tells if these are the costs of the targets, in their order.
pub(crate) fn are_those(found: &[u64], targets: &[u32], costs: &[u64]) -> bool {
    let mut each = found.iter().zip(targets);
    found.len() == targets.len()
        && each.all(|(cost, target)| costs.get(*target as usize) == Some(cost))
}

/// The costs from a vertex by a sweep.
pub(crate) fn row_from(
    rt: &impl Abort,
    alloc: Global,
    hierarchy: &Hierarchy,
    sweep: &TargetSweep,
    space: &mut SearchSpace,
    n: u32,
    s: u32,
) -> Option<Vec<u64>>
    requires of { sweep.now.hierarchy ≡ hierarchy.now }
    requires vertices { n ≡ hierarchy.now.graph.n }
{
    assert!(rt; s < n && space.vertices() == n as usize);
    sweep.costs_from(alloc, hierarchy, space, s)
}

/// Tells if the costs from all vertices to the targets are those of the plain way.
fn are_least_to(
    rt: &impl Abort,
    alloc: Global,
    csr: &Csr,
    hierarchy: &Hierarchy,
    targets: &[u32],
) -> Result<bool, Memory>
    requires { hierarchy.now.graph ≡ csr.now }
{
    let n = csr.n();
    let mut space = SearchSpace::new(alloc, n)?;
    space.allow(1000, usize::MAX);
    assert!(rt; are_below(n, targets));
    let Some(sweep) = TargetSweep::new(alloc, hierarchy, targets.to_vec(alloc)?) else {
        return Ok(false);
    };
    for s in 0..n {
        let costs = costs_from(alloc, csr, s)?;
        match row_from(rt, alloc, hierarchy, &sweep, &mut space, n, s) {
            Some(found) if are_those(&found, targets, &costs) => {}
            _ => return Ok(false),
        }
    }
    Ok(true)
}

/// The costs from a vertex to a list.
pub(crate) fn list_from(
    rt: &impl Abort,
    alloc: Global,
    csr: &Csr,
    hierarchy: &Hierarchy,
    room: &mut Room,
    s: u32,
    targets: &[u32],
) -> Option<Vec<u64>>
    requires { hierarchy.now.graph ≡ csr.now }
{
    let n = csr.n();
    assert!(rt; s < n && are_below(n, targets) && room.forward.vertices() == n as usize);
    assert!(rt; room.backward.vertices() == n as usize);
    hierarchy.costs_to(alloc, &mut room.forward, &mut room.backward, s, targets)
}

/// Tells if the costs from a vertex to each list are those of the plain way.
fn are_least_from(
    rt: &impl Abort,
    alloc: Global,
    csr: &Csr,
    hierarchy: &Hierarchy,
    room: &mut Room,
    s: u32,
    lists: &[Vec<u32>],
) -> Result<bool, Memory>
    requires { hierarchy.now.graph ≡ csr.now }
{
    assert!(rt; s < csr.n());
    let costs = costs_from(alloc, csr, s)?;
    for list in lists {
        match list_from(rt, alloc, csr, hierarchy, room, s, list) {
            Some(found) if are_those(&found, list, &costs) => {}
            _ => return Ok(false),
        }
    }
    Ok(true)
}

/// Tells if the costs in a graph are right from each vertex to each list.
fn are_right_to(
    rt: &impl Abort,
    alloc: Global,
    n: u32,
    arcs: &[ArcRec],
    lists: &[Vec<u32>],
) -> Result<bool, Fail> {
    let csr = build(rt, alloc, n, arcs)?;
    let mut room = room_of(alloc, n)?;
    let Some(hierarchy) = hierarchy_of(alloc, &csr)? else {
        return Ok(false);
    };
    for s in 0..n {
        if !are_least_from(rt, alloc, &csr, &hierarchy, &mut room, s, lists)? {
            return Ok(false);
        }
    }
    Ok(true)
}

// Lists for which a sweep is made, a short one, and none.
#[test]
fn to_lists(rt: HostRuntime) -> Result<(), Fail> {
    let alloc = rt.alloc();
    let kind = KINDS[9];
    let mut lists = Vec::new(alloc);
    lists.push((0..kind.n).collect(alloc)?)?;
    lists.push((0..kind.n).rev().collect(alloc)?)?;
    lists.push((0..kind.n).filter(|v| *v % 5 == 1).collect(alloc)?)?;
    lists.push(Vec::new(alloc))?;
    for seed in 0..SEEDS {
        let arcs = draw_arcs(alloc, kind, seed)?;
        assert!(rt;
            are_right_to(&rt, alloc, kind.n, &arcs, &lists)?,
            "seed {seed}"
        );
    }
    Ok(())
}

/// Tells if all costs in a graph are right, to all vertices, to one of three, to one twice, and to none.
fn is_right(rt: &impl Abort, alloc: Global, n: u32, arcs: &[ArcRec]) -> Result<bool, Fail> {
    let csr = build(rt, alloc, n, arcs)?;
    let Some(hierarchy) = hierarchy_of(alloc, &csr)? else {
        return Ok(false);
    };
    let all: Vec<u32> = (0..n).collect(alloc)?;
    let some: Vec<u32> = (0..n).filter(|v| *v % 3 == 1).collect(alloc)?;
    let twice: Vec<u32> = (0..n).map(|v| v / 2).collect(alloc)?;
    Ok(
        are_least_to(rt, alloc, &csr, &hierarchy, &all)?
            && are_least_to(rt, alloc, &csr, &hierarchy, &some)?
            && are_least_to(rt, alloc, &csr, &hierarchy, &twice)?
            && are_least_to(rt, alloc, &csr, &hierarchy, &[])?,
    )
}

#[test]
fn in_drawn_graphs(rt: HostRuntime) -> Result<(), Fail> {
    let alloc = rt.alloc();
    for kind in KINDS {
        for seed in 0..SEEDS {
            let arcs = draw_arcs(alloc, kind, seed)?;
            let right = is_right(&rt, alloc, kind.n, &arcs)?;
            assert!(rt; right, "{} vertices, seed {seed}", kind.n);
        }
    }
    Ok(())
}
