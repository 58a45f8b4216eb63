//! Hops, parents and walks worked by hand.

ghost use Rattle.std.specs.Prelude.{◌≡◌, ◌<◌, true, All, IfOk};
ghost use Rattle.route_walks.specs.Label.{AreLeastLabels};
ghost use Rattle.route_walks.specs.Limit.{AreLeastLabelsUpTo};
ghost use Rattle.route_walks.specs.Operators.{seeds_from};
ghost use Rattle.walk_report.specs.Hop.{AreFromOneSource};

mod refusals;
mod spaces;

use csr_graph::{Csr, MAX_ARCS, MAX_VERTICES};
use route_walks::laws::least_up_to_a_limit;
use route_walks::{
    ArcRec, EXAMPLE_ARCS, INF, Memory, arcs, is_graph, plain_labels, seeds_from, unit_weights,
};
use std::alloc::Global;
use std::process::Abort;
use std::test::Fail;
use walk_report::{NONE, hops, hops_below, parents, walk_to};

/// The least distances from `s`.
pub(crate) fn distances(alloc: Global, csr: &Csr, s: u32) -> Result<Vec<u64>, Memory>
    requires { s < csr.now.n }
    ensures { IfOk result (λ labels.
        AreLeastLabels csr.now.n csr.now.arcs (seeds_from s) labels.items) }
{
    let arcs = csr.arcs(alloc)?;
    let seeds = seeds_from(alloc, s)?;
    plain_labels(alloc, csr.n(), &arcs, &seeds)
}

/// The least distances below a limit, and `INF` for the others, as a run that stops early gives.
fn distances_below(alloc: Global, csr: &Csr, s: u32, limit: u64) -> Result<Vec<u64>, Memory>
    requires { s < csr.now.n }
    ensures { IfOk result (λ labels.
        AreLeastLabelsUpTo limit csr.now.n csr.now.arcs (seeds_from s) labels.items) }
{
    least_up_to_a_limit();
    let mut labels = distances(alloc, csr, s)?;
    for v in 0..labels.len() {
        if labels[v] >= limit {
            labels[v] = INF;
        }
    }
    Ok(labels)
}

pub(crate) fn are_below(n: u32, targets: &[u32]) -> bool
    ensures { result ≡ true → All (λ t. t < n) targets.now }
{
    targets.iter().all(|t| *t < n)
}

/// The expected hop, parent and walk of each vertex; empty for no walk.
#[derive(Clone, Copy)]
struct Want<'a> {
    hops: &'a [u32],
    parents: &'a [u32],
    walks: &'a [&'a [u32]],
}

pub(crate) fn build(rt: &impl Abort, alloc: Global, n: u32, arcs: &[ArcRec]) -> Result<Csr, Fail>
    ensures { IfOk result (λ csr. csr.n ≡ n) }
{
    let graph = is_graph(n, arcs);
    assert!(rt; graph && n <= MAX_VERTICES && arcs.len() <= MAX_ARCS);
    Ok(Csr::build(alloc, n, arcs)?)
}

fn expect_walks(
    rt: &impl Abort,
    alloc: Global,
    arcs: &[ArcRec],
    s: u32,
    want: &Want,
) -> Result<(), Fail> {
    let n = want.hops.len();
    assert!(rt; n <= MAX_VERTICES as usize && (s as usize) < n);
    let csr = build(rt, alloc, n as u32, arcs)?;
    let labels = distances(alloc, &csr, s)?;
    let hops = hops(alloc, &csr, &labels, s)?;
    expect_told(rt, alloc, &csr, &labels, &hops, want)
}

fn expect_walks_below(
    rt: &impl Abort,
    alloc: Global,
    arcs: &[ArcRec],
    s: u32,
    limit: u64,
    want: &Want,
) -> Result<(), Fail> {
    let n = want.hops.len();
    assert!(rt; n <= MAX_VERTICES as usize && (s as usize) < n);
    let csr = build(rt, alloc, n as u32, arcs)?;
    let labels = distances_below(alloc, &csr, s, limit)?;
    let hops = hops_below(alloc, &csr, &labels, s, limit)?;
    expect_told(rt, alloc, &csr, &labels, &hops, want)
}

fn expect_told(
    rt: &impl Abort,
    alloc: Global,
    csr: &Csr,
    labels: &[u64],
    hops: &[u32],
    want: &Want,
) -> Result<(), Fail>
    requires { AreFromOneSource csr.now.n csr.now.arcs labels.now hops.now }
{
    assert!(rt; hops.len() <= MAX_VERTICES as usize);
    expect_numbers(rt, hops, want.hops);
    let parents = parents(alloc, csr, labels, hops)?;
    expect_numbers(rt, &parents, want.parents);
    assert_eq!(rt; want.walks.len(), hops.len());
    for (v, walk) in want.walks.iter().enumerate() {
        assert!(rt; v < hops.len());
        let found = walk_to(alloc, hops, &parents, v as u32)?;
        assert_eq!(rt; found.is_none(), walk.is_empty(), "to {v}");
        expect_numbers(rt, found.as_deref().unwrap_or(&[]), walk);
    }
    Ok(())
}

fn expect_numbers(rt: &impl Abort, found: &[u32], want: &[u32]) {
    assert_eq!(rt; found, want);
}

const FROM_0: Want<'static> = Want {
    hops: &[0, 3, 1, 4, 2, 5],
    parents: &[NONE, 4, 0, 1, 2, 3],
    walks: &[
        &[0],
        &[0, 2, 4, 1],
        &[0, 2],
        &[0, 2, 4, 1, 3],
        &[0, 2, 4],
        &[0, 2, 4, 1, 3, 5],
    ],
};

const FROM_2: Want<'static> = Want {
    hops: &[NONE, 2, 0, 3, 1, 4],
    parents: &[NONE, 4, NONE, 1, 2, 3],
    walks: &[
        &[],
        &[2, 4, 1],
        &[2],
        &[2, 4, 1, 3],
        &[2, 4],
        &[2, 4, 1, 3, 5],
    ],
};

const BY_UNITS: Want<'static> = Want {
    hops: &[0, 1, 1, 2, 2, 3],
    parents: &[NONE, 0, 0, 1, 2, 3],
    walks: &[
        &[0],
        &[0, 1],
        &[0, 2],
        &[0, 1, 3],
        &[0, 2, 4],
        &[0, 1, 3, 5],
    ],
};

#[test]
fn walks_of_six_vertices(rt: HostRuntime) -> Result<(), Fail> {
    let alloc = rt.alloc();
    expect_walks(&rt, alloc, &EXAMPLE_ARCS, 0, &FROM_0)?;
    expect_walks(&rt, alloc, &EXAMPLE_ARCS, 2, &FROM_2)?;
    expect_walks(
        &rt,
        alloc,
        &unit_weights(alloc, &EXAMPLE_ARCS)?,
        0,
        &BY_UNITS,
    )
}

const FREE_CIRCLE: [ArcRec; 3] = arcs![(2, 1, 5), (0, 1, 0), (1, 0, 0)];

const BACK: Want<'static> = Want {
    hops: &[2, 1, 0],
    parents: &[1, 2, NONE],
    walks: &[&[2, 1, 0], &[2, 1], &[2]],
};

const FAR_TAIL: [ArcRec; 4] = arcs![(3, 1, 1), (1, 0, 0), (0, 2, 0), (1, 2, 0)];

const PAST: Want<'static> = Want {
    hops: &[2, 1, 2, 0],
    parents: &[1, 3, 1, NONE],
    walks: &[&[3, 1, 0], &[3, 1], &[3, 1, 2], &[3]],
};

#[test]
fn walks_past_the_least_tight_tail(rt: HostRuntime) -> Result<(), Fail> {
    expect_walks(&rt, rt.alloc(), &FREE_CIRCLE, 2, &BACK)?;
    expect_walks(&rt, rt.alloc(), &FAR_TAIL, 3, &PAST)
}

const FROM_0_BELOW_12: Want<'static> = Want {
    hops: &[0, 3, 1, NONE, 2, NONE],
    parents: &[NONE, 4, 0, NONE, 2, NONE],
    walks: &[&[0], &[0, 2, 4, 1], &[0, 2], &[], &[0, 2, 4], &[]],
};

// Of two walks of cost 2 from 0 to 1 the shorter one goes through 4 and 5, whose labels are 2 as well.
const SHORT_CUT: [ArcRec; 7] = arcs![
    (0, 2, 1),
    (2, 3, 1),
    (3, 6, 0),
    (6, 1, 0),
    (0, 4, 2),
    (4, 5, 0),
    (5, 1, 0),
];

const BELOW_3: Want<'static> = Want {
    hops: &[0, 3, 1, 2, 1, 2, 3],
    parents: &[NONE, 5, 0, 2, 0, 4, 3],
    walks: &[
        &[0],
        &[0, 4, 5, 1],
        &[0, 2],
        &[0, 2, 3],
        &[0, 4],
        &[0, 4, 5],
        &[0, 2, 3, 6],
    ],
};

const BELOW_2: Want<'static> = Want {
    hops: &[0, NONE, 1, NONE, NONE, NONE, NONE],
    parents: &[NONE, NONE, 0, NONE, NONE, NONE, NONE],
    walks: &[&[0], &[], &[0, 2], &[], &[], &[], &[]],
};

const BELOW_0: Want<'static> = Want {
    hops: &[NONE, NONE, NONE],
    parents: &[NONE, NONE, NONE],
    walks: &[&[], &[], &[]],
};

#[test]
fn walks_below_a_limit(rt: HostRuntime) -> Result<(), Fail> {
    let alloc = rt.alloc();
    expect_walks_below(&rt, alloc, &EXAMPLE_ARCS, 0, 12, &FROM_0_BELOW_12)?;
    expect_walks_below(&rt, alloc, &EXAMPLE_ARCS, 0, INF, &FROM_0)?;
    expect_walks_below(&rt, alloc, &SHORT_CUT, 0, 3, &BELOW_3)?;
    expect_walks_below(&rt, alloc, &SHORT_CUT, 0, 2, &BELOW_2)?;
    expect_walks_below(&rt, alloc, &FREE_CIRCLE, 2, 0, &BELOW_0)
}
