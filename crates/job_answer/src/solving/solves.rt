//! The solves that an answer needs, and the queries that each one answers.

ghost use Rattle.std.specs.Prelude.{◌≡◌, ◌<◌, length, IfOk};
ghost use Rattle.obim_engine.specs.Goal.{IsGoalWithin};
ghost use Rattle.least_costs.specs.Network.{GrowsTo, IsStartWithin};
ghost use Rattle.job_answer.specs.Solves.{AreCostsFor, EndsWithSource, IsForQueries};

use crate::question::env::Env;
use crate::watch::{Phase, Watch};
use least_costs::{CostsBelow, Network, NetworkGrowth, Start, Workers};
use obim_engine::{Gate, Goal};
use route_walks::Memory;
use std::sync::Wait;
use std::thread::Threads;
use std::time::Clock;

/// The costs from a start, as far as the goal.
pub fn costs_from<H: Threads + Wait + Clock + Sync, G: Gate + Sync>(
    env: &Env<'_, H>,
    network: &Network,
    start: Start,
    goal: Goal<'_>,
    workers: &mut Workers<'_, G>,
    watch: &mut impl Watch,
) -> Result<CostsBelow, Memory>
    requires start { IsStartWithin network.now.n start }
    requires goal { IsGoalWithin network.now.n goal }
    ensures costs { IfOk result (AreCostsFor network.now start goal.entry) }
{
    let costs = workers.costs_for(env.rt, env.alloc, network, start, goal)?;
    // In what costs are least, and up to which limit, is known of each.
    let _ = costs.start();
    watch.see_solves(1);
    watch.end(env.rt, Phase::Solving);
    Ok(costs)
}

/// The costs of the grown network from the same start, by what the run before left.
pub fn costs_after<H: Threads + Wait + Clock + Sync, G: Gate + Sync>(
    env: &Env<'_, H>,
    growth: &NetworkGrowth<'_>,
    costs: CostsBelow,
    goal: Goal<'_>,
    workers: &mut Workers<'_, G>,
    watch: &mut impl Watch,
) -> Result<CostsBelow, Memory>
    requires net { costs.net ≡ growth.now.network.now }
    requires grown { GrowsTo growth.now.network.now growth.now.grown.now }
    requires goal { IsGoalWithin growth.now.grown.now.n goal }
    ensures costs { IfOk result (AreCostsFor growth.now.grown.now costs.start goal.entry) }
{
    let (rt, alloc) = (env.rt, env.alloc);
    let costs = workers.costs_for_after(rt, alloc, growth, costs, goal)?;
    // Up to which limit they are least.
    let _ = costs.start();
    watch.see_solves(1);
    watch.end(rt, Phase::Solving);
    Ok(costs)
}

/// One solve, for the queries from `first` up to `end`.
#[derive(Clone, Copy, Debug)]
pub struct Solve {
    pub start: Start,
    pub first: usize,
    pub end: usize,
}

impl Solve {
    /// The solve for the query at a place and those after it with the same source.
    pub fn of_queries(queries: &[(u32, u32)], first: usize) -> Solve
        requires { first < length queries.now }
        ensures queries { IsForQueries queries.now result }
        ensures first { result.first ≡ first }
        ensures all { EndsWithSource queries.now result }
    {
        let source = queries[first].0;
        let mut end = first + 1;
        while end < queries.len() && queries[end].0 == source {
            end += 1;
        }
        Solve {
            start: Start::At(source),
            first,
            end,
        }
    }
}

/// The place of the next query with another source.
pub fn next_source(queries: &[(u32, u32)], place: usize) -> usize {
    if place >= queries.len() {
        return place.saturating_add(1);
    }
    Solve::of_queries(queries, place).end
}
