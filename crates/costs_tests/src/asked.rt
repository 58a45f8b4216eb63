//! Tables of networks with their costs, random ones beside the plain way, sources side by side, landmarks, changes, and
//! what is kept between calls.

mod changes;
mod choices;
mod draws;
mod hierarchies;
mod kept;
mod landmarks;
mod near_walks;
mod networks;
mod refusals;
mod sources;

ghost use Rattle.std.specs.Prelude.{◌≡◌, IfOk};

use least_costs::{Cost, Costs, CostsWithin, Network};
use route_walks::{ArcRec, EXAMPLE_ARCS};
use std::alloc::Global;
use std::process::Abort;
use std::test::Fail;
use std::thread::Threads;

fn network_of<H: Threads + Abort + Sync>(
    rt: &H,
    alloc: Global,
    n: u32,
    arcs: &[ArcRec],
    cost: Cost,
) -> Result<Network, Fail>
    ensures { IfOk result (λ network. network.n ≡ n) }
{
    Ok(Network::new(rt, alloc, n, arcs.to_vec(alloc)?, cost, 2)?)
}

pub(crate) fn six<H: Threads + Abort + Sync>(rt: &H, alloc: Global) -> Result<Network, Fail>
    ensures { IfOk result (λ network. network.n ≡ 6) }
{
    network_of(rt, alloc, 6, &EXAMPLE_ARCS, Cost::Weight)
}

/// A chain of 3,000 vertices.
fn path<H: Threads + Abort + Sync>(rt: &H, alloc: Global) -> Result<Network, Fail>
    ensures { IfOk result (λ network. network.n ≡ 3000) }
{
    let mut arcs = Vec::with_capacity(alloc, 2_999)?;
    for v in 0..2_999_u32 {
        arcs.push(ArcRec::new(v, v + 1, 1))?;
    }
    network_of(rt, alloc, 3_000, &arcs, Cost::Weight)
}

/// A binary tree of 3,000 vertices, with arcs away from its root.
fn tree<H: Threads + Abort + Sync>(rt: &H, alloc: Global) -> Result<Network, Fail>
    ensures { IfOk result (λ network. network.n ≡ 3000) }
{
    let mut arcs = Vec::with_capacity(alloc, 2_999)?;
    for v in 1..3_000_u32 {
        arcs.push(ArcRec::new((v - 1) / 2, v, 1))?;
    }
    network_of(rt, alloc, 3_000, &arcs, Cost::Weight)
}

fn expect_costs(rt: &impl Abort, row: usize, network: &Network, costs: &Costs, want: &[Option<u64>])
    requires { costs.now.net ≡ network.now }
{
    assert!(rt; want.len() == network.n() as usize, "row {row}");
    for v in 0..network.n() {
        assert!(rt;
            want.get(v as usize) == Some(&costs.to(v)),
            "row {row}, vertex {v}"
        );
    }
}

fn expect_within(
    rt: &impl Abort,
    row: usize,
    network: &Network,
    costs: &CostsWithin,
    want: &[Option<u64>],
)
    requires { costs.now.net ≡ network.now }
{
    assert!(rt; want.len() == network.n() as usize, "row {row}");
    for v in 0..network.n() {
        assert!(rt;
            want.get(v as usize) == Some(&costs.to(v)),
            "row {row}, vertex {v}"
        );
    }
}
