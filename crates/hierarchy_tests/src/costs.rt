//! Costs by a hierarchy beside the plain way, between all pairs of small graphs of many kinds.

ghost use Rattle.std.specs.Prelude.{◌≡◌, ◌<◌, IfOk, IfSome};

mod refusals;

use crate::makers::{MAKERS, Maker, parts_by};
use crate::plain::{Kind, build, costs_from, draw_arcs};
use csr_graph::Csr;
use hierarchy::{Hierarchy, parts_of};
use near_labels::SearchSpace;
use route_walks::{ArcRec, INF, Memory, arcs};
use std::alloc::Global;
use std::process::Abort;
use std::test::Fail;

/// Of none and one vertex, sparse and dense, of weight 0 alone, with many ties, and of great weights.
pub(crate) const KINDS: [Kind; 12] = [
    Kind {
        n: 0,
        arcs: 0,
        weights: 1,
    },
    Kind {
        n: 1,
        arcs: 3,
        weights: 2,
    },
    Kind {
        n: 2,
        arcs: 3,
        weights: 3,
    },
    Kind {
        n: 5,
        arcs: 4,
        weights: 9,
    },
    Kind {
        n: 6,
        arcs: 20,
        weights: 2,
    },
    Kind {
        n: 7,
        arcs: 14,
        weights: 1,
    },
    Kind {
        n: 8,
        arcs: 60,
        weights: 1000,
    },
    Kind {
        n: 9,
        arcs: 12,
        weights: 3,
    },
    Kind {
        n: 12,
        arcs: 30,
        weights: 5,
    },
    Kind {
        n: 20,
        arcs: 30,
        weights: 100,
    },
    Kind {
        n: 20,
        arcs: 60,
        weights: 10,
    },
    Kind {
        n: 9,
        arcs: 18,
        weights: 1 << 29,
    },
];

/// The graphs of a kind that are drawn.
pub(crate) const SEEDS: u64 = 8;

/// Room for searches from both ends.
#[derive(Drop)]
pub(crate) struct Room {
    pub forward: SearchSpace,
    pub backward: SearchSpace,
}

pub(crate) fn room_of(alloc: Global, n: u32) -> Result<Room, Memory> {
    let mut room = Room {
        forward: SearchSpace::new(alloc, n)?,
        backward: SearchSpace::new(alloc, n)?,
    };
    room.forward.allow(1000, usize::MAX);
    Ok(room)
}

/// The cost by a hierarchy of a graph.
pub(crate) fn cost_of(
    rt: &impl Abort,
    csr: &Csr,
    hierarchy: &Hierarchy,
    room: &mut Room,
    s: u32,
    t: u32,
) -> Option<u64>
    requires { hierarchy.now.graph ≡ csr.now }
{
    let n = csr.n();
    assert!(rt; s < n && t < n && room.forward.vertices() == n as usize);
    assert!(rt; room.backward.vertices() == n as usize);
    hierarchy.cost_between(&mut room.forward, &mut room.backward, s, t)
}

/// Tells if the costs from a vertex are these.
fn are_costs(
    rt: &impl Abort,
    csr: &Csr,
    hierarchy: &Hierarchy,
    room: &mut Room,
    s: u32,
    costs: &[u64],
) -> bool
    requires { hierarchy.now.graph ≡ csr.now }
{
    for t in 0..csr.n() {
        if cost_of(rt, csr, hierarchy, room, s, t) != costs.get(t as usize).copied() {
            return false;
        }
    }
    true
}

/// Tells if the costs between all pairs are those of the plain way.
pub(crate) fn are_all_least(
    rt: &impl Abort,
    alloc: Global,
    csr: &Csr,
    hierarchy: &Hierarchy,
    room: &mut Room,
) -> Result<bool, Memory>
    requires { hierarchy.now.graph ≡ csr.now }
{
    for s in 0..csr.n() {
        let costs = costs_from(alloc, csr, s)?;
        if !are_costs(rt, csr, hierarchy, room, s, &costs) {
            return Ok(false);
        }
    }
    Ok(true)
}

/// The hierarchy of a graph, if it has one.
pub(crate) fn hierarchy_of(alloc: Global, csr: &Csr) -> Result<Option<Hierarchy>, Memory>
    ensures { IfOk result (λ made. IfSome made (λ hierarchy. hierarchy.graph ≡ csr.now)) }
{
    match parts_of(alloc, csr, usize::MAX)? {
        Some(parts) => Ok(Hierarchy::checked(alloc, csr, parts)),
        None => Ok(None),
    }
}

/// Tells if a hierarchy of a graph tells all least costs; `None` if no parts of one are made.
pub(crate) fn is_right(
    rt: &impl Abort,
    alloc: Global,
    maker: Maker,
    n: u32,
    arcs: &[ArcRec],
) -> Result<Option<bool>, Fail> {
    let csr = build(rt, alloc, n, arcs)?;
    let mut room = room_of(alloc, n)?;
    let Some(parts) = parts_by(alloc, &csr, maker, usize::MAX)? else {
        return Ok(None);
    };
    match Hierarchy::checked(alloc, &csr, parts) {
        Some(hierarchy) => {
            let right = are_all_least(rt, alloc, &csr, &hierarchy, &mut room)?;
            Ok(Some(right))
        }
        None => Ok(Some(false)),
    }
}

#[test]
fn of_drawn_graphs(rt: HostRuntime) -> Result<(), Fail> {
    let alloc = rt.alloc();
    for kind in KINDS {
        for seed in 0..SEEDS {
            let arcs = draw_arcs(alloc, kind, seed)?;
            assert_right(&rt, alloc, kind.n, &arcs)?;
        }
    }
    Ok(())
}

/// Asserts that each maker's hierarchy of a graph tells all least costs.
pub(crate) fn assert_right(
    rt: &impl Abort,
    alloc: Global,
    n: u32,
    arcs: &[ArcRec],
) -> Result<(), Fail> {
    for maker in MAKERS {
        let right = is_right(rt, alloc, maker, n, arcs)?;
        assert!(rt; right == Some(true), "{maker:?}: {n} vertices, {arcs:?}");
    }
    Ok(())
}

/// Ways of the greatest weights over one vertex, which comes last.
const STAR: [ArcRec; 4] = arcs![
    (1, 0, 4294967295),
    (0, 2, 4294967295),
    (3, 0, 4294967295),
    (0, 4, 4294967295),
];

/// A circle of the greatest weights: whatever comes first, an arc over it is too great.
const CIRCLE: [ArcRec; 3] = arcs![(0, 1, 4294967295), (1, 2, 4294967295), (2, 0, 4294967295),];

#[test]
fn of_great_weights(rt: HostRuntime) -> Result<(), Fail> {
    let alloc = rt.alloc();
    for maker in MAKERS {
        assert!(rt; is_right(&rt, alloc, maker, 3, &CIRCLE)?.is_none());
    }
    assert_right(&rt, alloc, 5, &STAR)
}

/// A graph in which more and more arcs are added.
pub(crate) const DENSE: Kind = Kind {
    n: 600,
    arcs: 3600,
    weights: 1000,
};

#[test]
fn dense_graphs_are_given_up(rt: HostRuntime) -> Result<(), Fail> {
    let alloc = rt.alloc();
    let csr = build(&rt, alloc, DENSE.n, &draw_arcs(alloc, DENSE, 1)?)?;
    for maker in MAKERS {
        assert!(rt; parts_by(alloc, &csr, maker, usize::MAX)?.is_none());
    }
    Ok(())
}

// The example at the root of `hierarchy`: 0 to 1 costs 7, 1 to 2 costs 5, and 0 to 2 costs 20.
#[test]
fn example(rt: HostRuntime) -> Result<(), Fail> {
    let alloc = rt.alloc();
    let csr = build(&rt, alloc, 3, &arcs![(0, 1, 7), (1, 2, 5), (0, 2, 20)])?;
    let mut room = room_of(alloc, 3)?;
    let hierarchy = hierarchy_of(alloc, &csr)?;
    assert!(rt; hierarchy.is_some());
    if let Some(hierarchy) = &hierarchy {
        assert!(rt; cost_of(&rt, &csr, hierarchy, &mut room, 0, 2) == Some(12));
        assert!(rt; cost_of(&rt, &csr, hierarchy, &mut room, 2, 0) == Some(INF));
        room.forward.allow(0, 0);
        assert!(rt; cost_of(&rt, &csr, hierarchy, &mut room, 0, 2).is_none());
    }
    Ok(())
}
