//! A network that is asked for costs, by a plan.

ghost use Rattle.std.specs.Prelude.{◌≡◌, ◌<◌, IfOk};
ghost use Rattle.least_costs.specs.Costs.{IsFrom};
ghost use Rattle.least_costs.specs.Network.{GrowsTo, IsStartWithin};

use crate::costs::Costs;
use crate::costs::within::CostsWithin;
use crate::network::Network;
use crate::network::growth::NetworkGrowth;
use crate::plan::Plan;
use crate::start::Start;
use crate::workers::Workers;
use obim_engine::{Gate, Goal, OpenGate};
use route_walks::Memory;
use std::alloc::Global;
use std::sync::Wait;
use std::thread::Threads;
use std::time::Clock;

/// Asks a network by a plan. The gate watches workers.
#[derive(Drop)]
pub struct Solver<'a, G = OpenGate> {
    pub network: &'a Network,
    pub plan: Plan,
    pub gate: G,
}

impl<'a> Solver<'a, OpenGate> {
    /// Asks this network, unwatched.
    pub fn new(network: &'a Network, plan: Plan) -> Solver<'a, OpenGate>
        ensures network { result.network.now ≡ network.now }
        ensures plan { result.plan ≡ plan }
    {
        Solver {
            network,
            plan,
            gate: OpenGate,
        }
    }
}

impl<'a, G: Gate + Sync> Solver<'a, G> {
    /// The least costs from a source.
    pub fn from<H: Threads + Wait + Clock + Sync>(
        &self,
        rt: &H,
        alloc: Global,
        source: u32,
    ) -> Result<Costs, Memory>
        requires { source < self.now.network.now.n }
        ensures { IfOk result (IsFrom self.now.network.now source) }
    {
        self.costs_from(rt, alloc, Start::At(source))
    }

    /// The least costs from a source that are at most a bound. Workers go no further.
    pub fn within<H: Threads + Wait + Clock + Sync>(
        &self,
        rt: &H,
        alloc: Global,
        source: u32,
        bound: u64,
    ) -> Result<CostsWithin, Memory>
        requires { source < self.now.network.now.n }
        ensures { IfOk result (λ costs. costs
            ≡ record { net = self.now.network.now; source = source; bound = bound }) }
    {
        let mut workers = Workers::new(self.plan.settings, &self.gate, None);
        let (network, start) = (self.network, Start::At(source));
        let reached = workers.reach(rt, alloc, network, start, Goal::Within(bound))?;
        Ok(CostsWithin::new(network, source, bound, reached))
    }

    /// The least costs from a start.
    pub fn costs_from<H: Threads + Wait + Clock + Sync>(
        &self,
        rt: &H,
        alloc: Global,
        start: Start,
    ) -> Result<Costs, Memory>
        requires { IsStartWithin self.now.network.now.n start }
        ensures net { IfOk result (λ costs. costs.net ≡ self.now.network.now) }
        ensures start { IfOk result (λ costs. costs.start ≡ start) }
    {
        let mut workers = Workers::new(self.plan.settings, &self.gate, None);
        workers.costs_from(rt, alloc, self.network, start)
    }

    /// The least costs from the same start in a network that this one grew to by `with_arcs`, from the costs here.
    /// Visits only what the added arcs change.
    pub fn costs_after<H: Threads + Wait + Clock + Sync>(
        &self,
        rt: &H,
        alloc: Global,
        grown: &Network,
        costs: Costs,
    ) -> Result<Costs, Memory>
        requires net { costs.net ≡ self.now.network.now }
        requires grown { GrowsTo self.now.network.now grown.now }
        ensures net { IfOk result (λ after. after.net ≡ grown.now) }
        ensures start { IfOk result (λ after. after.start ≡ costs.start) }
    {
        let mut workers = Workers::new(self.plan.settings, &self.gate, None);
        let growth = NetworkGrowth {
            network: self.network,
            grown,
        };
        workers.costs_after(rt, alloc, &growth, costs)
    }
}
