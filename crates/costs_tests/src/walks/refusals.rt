//! Each call with one allocation refused: `Memory`, and made once more the walk.

ghost use Rattle.std.specs.Prelude.{◌≡◌, IfOk};
ghost use Rattle.least_costs.specs.Costs.{IsFrom};

use crate::asked::six;
use least_costs::{Costs, Network, Plan, Solver};
use route_walks::{Memory, refusable};
use std::alloc::Global;
use std::process::Abort;
use std::sync::Wait;
use std::test::Fail;
use std::thread::Threads;
use std::time::Clock;

fn walk_by(alloc: Global, network: &Network, costs: &Costs) -> Result<Option<Vec<u32>>, Memory>
    requires { IsFrom network.now 0 costs.now × (network.now.n ≡ 6) }
{
    costs.walks(alloc, network)?.to(alloc, 4)
}

fn walk_again(alloc: Global, network: &Network, costs: &Costs) -> Result<Option<Vec<u32>>, Memory>
    requires { IsFrom network.now 0 costs.now × (network.now.n ≡ 6) }
{
    match refusable!(alloc, walk_by(alloc, network, costs)) {
        Ok(walk) => Ok(walk),
        Err(Memory) => walk_by(alloc, network, costs),
    }
}

fn costs_from_0<H: Threads + Wait + Clock + Sync>(
    rt: &H,
    alloc: Global,
    network: &Network,
) -> Result<Costs, Memory>
    requires { network.now.n ≡ 6 }
    ensures { IfOk result (IsFrom network.now 0) }
{
    Solver::new(network, Plan::usual(1)).from(rt, alloc, 0)
}

fn expect_walk<H: Threads + Wait + Clock + Abort + Sync>(
    rt: &H,
    alloc: Global,
) -> Result<(), Fail> {
    let network = six(rt, alloc)?;
    let costs = costs_from_0(rt, alloc, &network)?;
    let walk = walk_again(alloc, &network, &costs)?;
    assert!(rt; walk.as_ref().map(|walk| walk.as_slice()) == Some([0, 2, 4].as_slice()));
    Ok(())
}

#[test]
fn of_costs_walks(rt: HostRuntime) -> Result<(), Fail> {
    expect_walk(&rt, rt.alloc())
}

#[test]
fn of_walks_to(rt: HostRuntime) -> Result<(), Fail> {
    expect_walk(&rt, rt.alloc())
}
