//! Workers that solve one start after another.

pub(crate) mod task_queue;
pub(crate) mod teams;
pub(crate) mod warm_pool;
pub(crate) mod workspace;

ghost use Rattle.std.specs.Prelude.{◌≡◌, ◌<◌, All, IfOk, IfSome};
ghost use Rattle.route_walks.specs.declared.graph.TheConstants.{INF};
ghost use Rattle.label_words.specs.Closed.{IsEnd, closed_labels};
ghost use Rattle.obim_engine.specs.Goal.{HasReached, IsGoalWithin, IsServedBy};
ghost use Rattle.near_labels.specs.Found.{AreWalksFound};
ghost use Rattle.route_walks.specs.Operators.{seeds_from};
ghost use Rattle.least_costs.specs.Costs.{AreLeastAt};
ghost use Rattle.least_costs.specs.declared.start.Start.TheVariants.{At};
ghost use Rattle.least_costs.specs.Near.{AreCostsWithin};
ghost use Rattle.least_costs.specs.Network.{GrowsTo, IsStartWithin, graph_of, seeds_at};

use crate::costs::Costs;
use crate::costs::below::CostsBelow;
use crate::near::MAX_TARGETS_ONE_BY_ONE;
use crate::network::Network;
use crate::network::growth::NetworkGrowth;
use crate::network::landmarks::Landmarks;
use crate::start::Start;
use crate::workers::warm_pool::{Search, WarmPool, pause_after};
use crate::workers::workspace::Workspace;
use near_labels::WalksFound;
use obim_engine::{Closed, Gate, Goal, GoalResult, Settings};
use route_walks::Memory;
use std::alloc::Global;
use std::sync::Wait;
use std::thread::Threads;
use std::time::Clock;

/// The start of a run that ended, and what it left.
#[derive(Drop)]
pub(crate) struct Ended {
    pub start: Start,
    pub closed: Closed,
}

/// The workers that solve one start after another, and keep their pool and room for searches from one to the next.
#[derive(Drop)]
pub struct Workers<'a, G> {
    /// The number of workers, and what they share.
    pub settings: Settings,
    /// Watches them.
    pub gate: &'a G,
    pub(crate) workspace: Workspace,
}

impl<'a, G: Gate + Sync> Workers<'a, G> {
    /// Takes what others kept, and of that the pool if it is for as many workers.
    pub fn new(settings: Settings, gate: &'a G, workspace: Option<Workspace>) -> Workers<'a, G>
        ensures settings { result.settings ≡ settings }
        ensures gate { result.gate.now ≡ gate.now }
    {
        let workspace = match workspace {
            Some(workspace) => workspace,
            None => Workspace::new().searching(false),
        };
        Workers {
            settings,
            gate,
            workspace,
        }
    }

    /// Returns what they kept, for others after them.
    pub fn into_workspace(self) -> Workspace {
        self.workspace
    }

    /// The least costs of a network from a start.
    pub(crate) fn costs_from<H: Threads + Wait + Clock + Sync>(
        &mut self,
        rt: &H,
        alloc: Global,
        network: &Network,
        start: Start,
    ) -> Result<Costs, Memory>
        requires { IsStartWithin network.now.n start }
        ensures net { IfOk result (λ costs. costs.net ≡ network.now) }
        ensures start { IfOk result (λ costs. costs.start ≡ start) }
    {
        let mut warm_pool = self.warm_pool(alloc, network)?;
        let costs = warm_pool.costs_from(rt, alloc, network, start, self.gate)?;
        self.workspace.pool = Some(warm_pool);
        Ok(costs)
    }

    /// Does what `Solver::costs_after` does.
    pub(crate) fn costs_after<H: Threads + Wait + Clock + Sync>(
        &mut self,
        rt: &H,
        alloc: Global,
        growth: &NetworkGrowth<'_>,
        costs: Costs,
    ) -> Result<Costs, Memory>
        requires net { costs.net ≡ growth.now.network.now }
        requires grown { GrowsTo growth.now.network.now growth.now.grown.now }
        ensures net { IfOk result (λ after. after.net ≡ growth.now.grown.now) }
        ensures start { IfOk result (λ after. after.start ≡ costs.start) }
    {
        let start = costs.start();
        let ended = Ended {
            start,
            closed: Closed::Settled(costs.into_labels()),
        };
        let reached = self.reach_after(rt, alloc, growth, ended, Goal::EachVertex)?;
        Ok(Costs::new(growth.grown, start, reached.closed.into_labels()))
    }

    /// The costs from a start that serve a goal. Workers go no further, so labels past the limit may be too high.
    pub fn costs_for<H: Threads + Wait + Clock + Sync>(
        &mut self,
        rt: &H,
        alloc: Global,
        network: &Network,
        start: Start,
        goal: Goal<'_>,
    ) -> Result<CostsBelow, Memory>
        requires start { IsStartWithin network.now.n start }
        requires goal { IsGoalWithin network.now.n goal }
        ensures net { IfOk result (λ costs. costs.net ≡ network.now) }
        ensures start { IfOk result (λ costs. costs.start ≡ start) }
        ensures served { IfOk result (λ costs. IsServedBy goal.entry costs.labels costs.limit) }
    {
        let reached = self.reach(rt, alloc, network, start, goal)?;
        if let Goal::WalksTo(targets) = goal {
            self.see_far_run(network, targets, &reached);
        }
        Ok(CostsBelow::new(network, start, reached))
    }

    /// The costs in a grown network, from the same start, that serve a goal. Workers go on from what a run in the network
    /// before left, whichever goal it had: they visit what the added arcs change, and what the goal wants.
    pub fn costs_for_after<H: Threads + Wait + Clock + Sync>(
        &mut self,
        rt: &H,
        alloc: Global,
        growth: &NetworkGrowth<'_>,
        costs: CostsBelow,
        goal: Goal<'_>,
    ) -> Result<CostsBelow, Memory>
        requires net { costs.net ≡ growth.now.network.now }
        requires grown { GrowsTo growth.now.network.now growth.now.grown.now }
        requires goal { IsGoalWithin growth.now.grown.now.n goal }
        ensures net { IfOk result (λ after. after.net ≡ growth.now.grown.now) }
        ensures start { IfOk result (λ after. after.start ≡ costs.start) }
        ensures served { IfOk result (λ after. IsServedBy goal.entry after.labels after.limit) }
    {
        let start = costs.start();
        let ended = Ended {
            start,
            closed: costs.into_closed(),
        };
        let reached = self.reach_after(rt, alloc, growth, ended, goal)?;
        Ok(CostsBelow::new(growth.grown, start, reached))
    }

    /// Returns the least labels of these targets from a source and the walks to them, found by the thread that asks.
    /// `None` if it doesn't search, they aren't near, or memory is refused.
    pub fn near_walks(
        &mut self,
        alloc: Global,
        network: &Network,
        source: u32,
        targets: &[u32],
    ) -> Option<WalksFound>
        requires source { source < network.now.n }
        requires targets { All (λ t. t < network.now.n) targets.now }
        ensures { IfSome result (AreWalksFound network.now.n network.now.arcs source targets.now) }
    {
        if self.workspace.searches {
            self.workspace
                .near
                .walks_to(alloc, network, source, targets)
        } else {
            None
        }
    }

    /// Returns the vertices that cost at most a bound from a source, in rising order, each with its cost. `None` as
    /// for `near_walks`.
    pub fn near_within(
        &mut self,
        alloc: Global,
        network: &Network,
        source: u32,
        bound: u64,
    ) -> Option<Vec<(u32, u64)>>
        requires source { source < network.now.n }
        requires bound { bound < INF }
        ensures { IfSome result (AreCostsWithin network.now source bound) }
    {
        if self.workspace.searches {
            self.workspace.near.within(alloc, network, source, bound)
        } else {
            None
        }
    }

    /// Runs from a start, no further than the goal wants.
    pub(crate) fn reach<H: Threads + Wait + Clock + Sync>(
        &mut self,
        rt: &H,
        alloc: Global,
        network: &Network,
        start: Start,
        goal: Goal<'_>,
    ) -> Result<GoalResult, Memory>
        requires start { IsStartWithin network.now.n start }
        requires goal { IsGoalWithin network.now.n goal }
        ensures { IfOk result (HasReached goal.entry (graph_of network.now) (seeds_at network.now.n start)) }
    {
        let mut warm_pool = self.warm_pool(alloc, network)?;
        let search = Search {
            network,
            start,
            rest: None,
            goal,
        };
        let reached = warm_pool.reach(rt, alloc, search, self.gate)?;
        self.workspace.pool = Some(warm_pool);
        Ok(reached)
    }

    /// Runs from a source to these targets, and leaves vertices alone that are too far from them by landmarks.
    pub(crate) fn reach_by<H: Threads + Wait + Clock + Sync>(
        &mut self,
        rt: &H,
        alloc: Global,
        network: &Network,
        landmarks: &Landmarks,
        source: u32,
        targets: &[u32],
    ) -> Result<Closed, Memory>
        requires landmarks { landmarks.now.graph ≡ graph_of network.now }
        requires source { source < network.now.n }
        requires targets { All (λ t. t < network.now.n) targets.now }
        ensures end { IfOk result (IsEnd (graph_of network.now) (seeds_from source)) }
        ensures least { IfOk result (λ closed.
            AreLeastAt network.now (At source) (closed_labels closed) targets.now) }
    {
        let low = landmarks.low(alloc, targets)?;
        let high = landmarks.high(alloc, targets)?;
        let bounds = landmarks.toward(source, targets, &low, &high);
        let goal = Goal::Toward(&bounds);
        let reached = self.reach(rt, alloc, network, Start::At(source), goal)?;
        let far = &mut self.workspace.near.far;
        far.see_guided_run(reached.closed.labels(), &bounds);
        Ok(reached.closed)
    }

    /// Counts a run to targets that aren't near, by which landmarks are chosen. To more targets workers mostly run without
    /// landmarks, even if there are some.
    pub(crate) fn see_far_run(&mut self, network: &Network, targets: &[u32], reached: &GoalResult) {
        if network.landmark_count() == 0 && targets.len() <= MAX_TARGETS_ONE_BY_ONE {
            let far = &mut self.workspace.near.far;
            far.see_run(reached.closed.labels(), reached.limit);
        }
    }

    /// Goes on in a grown network, from what a run left before.
    pub(crate) fn reach_after<H: Threads + Wait + Clock + Sync>(
        &mut self,
        rt: &H,
        alloc: Global,
        growth: &NetworkGrowth<'_>,
        ended: Ended,
        goal: Goal<'_>,
    ) -> Result<GoalResult, Memory>
        requires start { IsStartWithin growth.now.network.now.n ended.start }
        requires grown { GrowsTo growth.now.network.now growth.now.grown.now }
        requires closed { IsEnd (graph_of growth.now.network.now)
            (seeds_at growth.now.network.now.n ended.start) ended.closed }
        requires goal { IsGoalWithin growth.now.grown.now.n goal }
        ensures { IfOk result (HasReached goal.entry (graph_of growth.now.grown.now)
            (seeds_at growth.now.grown.now.n ended.start)) }
    {
        let network = growth.grown;
        let Ended { start, closed } = ended;
        let mut warm_pool = self.warm_pool(alloc, network)?;
        let rest = Some(pause_after(alloc, growth, start, closed)?);
        let search = Search {
            network,
            start,
            rest,
            goal,
        };
        let reached = warm_pool.reach(rt, alloc, search, self.gate)?;
        self.workspace.pool = Some(warm_pool);
        Ok(reached)
    }

    /// The pool that they kept, or another one.
    fn warm_pool(&mut self, alloc: Global, network: &Network) -> Result<WarmPool, Memory> {
        match self.workspace.pool.take() {
            Some(warm_pool) if warm_pool.workers() == self.settings.workers => Ok(warm_pool),
            _ => WarmPool::open(alloc, network, &self.settings),
        }
    }
}
