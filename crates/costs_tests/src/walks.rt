//! The vertices of least walks.

mod refusals;

use crate::asked::six;
use least_costs::{Network, Plan, Solver};
use std::alloc::Global;
use std::process::Abort;
use std::sync::Wait;
use std::test::Fail;
use std::thread::Threads;
use std::time::Clock;

const WALKS: [(u32, u32, Option<&[u32]>); 4] = [
    (0, 5, Some(&[0, 2, 4, 1, 3, 5])),
    (0, 0, Some(&[0])),
    (3, 1, Some(&[3, 2, 4, 1])),
    (2, 0, None),
];

fn expect_walk<H: Threads + Wait + Clock + Abort + Sync>(
    rt: &H,
    alloc: Global,
    network: &Network,
    (source, target, want): (u32, u32, Option<&[u32]>),
) -> Result<(), Fail> {
    assert!(rt; source < network.n() && target < network.n());
    let costs = Solver::new(network, Plan::usual(2)).from(rt, alloc, source)?;
    let walk = costs.walks(alloc, network)?.to(alloc, target)?;
    let found = walk.as_ref().map(|walk| walk.as_slice());
    assert!(rt; found == want, "from {source} to {target}");
    Ok(())
}

#[test]
fn walks_to_vertices(rt: HostRuntime) -> Result<(), Fail> {
    let network = six(&rt, rt.alloc())?;
    for row in WALKS {
        expect_walk(&rt, rt.alloc(), &network, row)?;
    }
    Ok(())
}
