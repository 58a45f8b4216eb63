//! Parts made on streets, with great weights, within a budget, and by one maker for another.

use crate::costs::{DENSE, assert_right, is_right};
use crate::makers::{MAKERS, Maker, parts_by};
use crate::plain::{Kind, build, draw_arcs, draw_streets};
use hierarchy::{Hierarchy, eliminated, parts_of};
use route_walks::{ArcRec, Memory};
use std::alloc::Global;
use std::test::Fail;

/// Sides of towns, and what their weights are below.
const TOWNS: [(u32, u32); 4] = [(2, 3), (3, 1), (5, 2), (7, 10)];

#[test]
fn on_streets(rt: HostRuntime) -> Result<(), Fail> {
    let alloc = rt.alloc();
    for (side, weights) in TOWNS {
        for seed in 0..3 {
            let arcs = draw_streets(alloc, side, weights, seed)?;
            assert_right(&rt, alloc, side * side, &arcs)?;
        }
    }
    Ok(())
}

/// Sparse graphs in which two arcs often weigh 2^32 or more.
const GREAT: Kind = Kind {
    n: 9,
    arcs: 14,
    weights: 1 << 31,
};

// Elimination gives up if such a sum is needed, and leaves it out if not.
#[test]
fn great_sums_are_left_out(rt: HostRuntime) -> Result<(), Fail> {
    let alloc = rt.alloc();
    let (mut made, mut given_up) = (0_u32, 0_u32);
    for seed in 0..40 {
        let mut arcs = draw_arcs(alloc, GREAT, seed)?;
        for arc in arcs.iter_mut() {
            arc.weight = arc.weight.saturating_mul(2);
        }
        match is_right(&rt, alloc, Maker::Elimination, GREAT.n, &arcs)? {
            Some(right) => {
                assert!(rt; right, "seed {seed}");
                made = made.saturating_add(1);
            }
            None => given_up = given_up.saturating_add(1),
        }
    }
    assert!(rt; made > 0 && given_up > 0);
    Ok(())
}

#[test]
fn few_steps_are_too_few(rt: HostRuntime) -> Result<(), Fail> {
    let alloc = rt.alloc();
    let csr = build(&rt, alloc, 64, &draw_streets(alloc, 8, 10, 1)?)?;
    for maker in MAKERS {
        assert!(rt; parts_by(alloc, &csr, maker, 20)?.is_none());
    }
    assert!(rt; parts_of(alloc, &csr, 20)?.is_none());
    Ok(())
}

/// A dense graph, and a vertex over which any way is shorter.
fn draw_hub(alloc: Global) -> Result<Vec<ArcRec>, Memory> {
    let mut arcs = draw_arcs(alloc, DENSE, 1)?;
    for arc in arcs.iter_mut() {
        arc.weight = arc.weight.saturating_add(10);
    }
    for v in 0..DENSE.n {
        arcs.push(ArcRec::new(v, DENSE.n, 1))?;
        arcs.push(ArcRec::new(DENSE.n, v, 1))?;
    }
    Ok(arcs)
}

// Elimination doesn't look at weights.
#[test]
fn contraction_for_elimination(rt: HostRuntime) -> Result<(), Fail> {
    let alloc = rt.alloc();
    let csr = build(&rt, alloc, DENSE.n + 1, &draw_hub(alloc)?)?;
    assert!(rt; eliminated(alloc, &csr, usize::MAX)?.is_none());
    let Some(parts) = parts_of(alloc, &csr, usize::MAX)? else {
        assert!(rt; false);
        return Ok(());
    };
    assert!(rt; Hierarchy::checked(alloc, &csr, parts).is_some());
    Ok(())
}
