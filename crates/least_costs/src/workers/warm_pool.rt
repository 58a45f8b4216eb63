//! A pool that serves one source after another.

ghost use Rattle.std.specs.Prelude.{◌≡◌, All, IfOk, IfSome, length};
ghost use Rattle.route_walks.specs.Walk.{AreSeeds};
ghost use Rattle.label_words.specs.Closed.{IsEnd};
ghost use Rattle.label_words.specs.Paused.{IsPause};
ghost use Rattle.obim_pool.specs.Sides.{IsSideOf};
ghost use Rattle.obim_engine.specs.Goal.{HasReached};
ghost use Rattle.least_costs.specs.Searches.{IsSearchWithin, IsTaskWithin};
ghost use Rattle.least_costs.specs.Network.{GrowsTo, IsStartWithin, graph_of, seeds_at};

use crate::costs::Costs;
use crate::network::Network;
use crate::network::growth::NetworkGrowth;
use crate::start::Start;
use csr_graph::Csr;
use obim_engine::{
    Buckets, Closed, Gate, Goal, GoalResult, MAX_SHIFT, Paused, RunFault, Settings, Setup,
    Worklist, grow, resume_until, run_until, widths_of,
};
use obim_pool::{ObimPool, ObimSide, WideningPool, WorkPool};
use route_walks::{Memory, Seed, seeds_all, seeds_from};
use std::alloc::Global;
use std::sync::Wait;
use std::thread::Threads;
use std::time::Clock;

/// A pool whose buckets are all as wide, by a shift.
#[derive(Drop)]
struct Even {
    settings: Settings,
    pool: ObimPool,
    sides: Vec<ObimSide>,
    ghost own: { All (IsSideOf pool) sides.items },
    ghost workers: { length sides.items ≡ settings.workers },
}

/// A pool whose buckets fit a network.
#[derive(Drop)]
struct Fitted {
    settings: Settings,
    pool: WideningPool,
    sides: Vec<ObimSide>,
    ghost own: { All (IsSideOf pool.log) sides.items },
    ghost workers: { length sides.items ≡ settings.workers },
}

/// A run that is asked for: from a start in a network, or on from a pause there, as far as a goal.
#[derive(Drop)]
pub(crate) struct Search<'a> {
    pub network: &'a Network,
    pub start: Start,
    pub rest: Option<Paused>,
    pub goal: Goal<'a>,
}

/// Such a run over rows, from seeds or from a pause of theirs.
#[derive(Drop)]
struct Task<'a> {
    rows: &'a Csr,
    seeds: &'a [Seed],
    rest: Option<Paused>,
    goal: Goal<'a>,
}

#[derive(Drop)]
enum Kind {
    Even(Even),
    Fitted(Fitted),
}

/// A pool of workers, kept from one source to the next so that its bags are made once. What a source leaves in it the
/// next one draws and ignores. It serves any network, and best the one it was opened for.
#[derive(Drop)]
pub struct WarmPool {
    kind: Kind,
}

impl WarmPool {
    /// Opens a pool for this network and these settings.
    pub fn open(alloc: Global, network: &Network, settings: &Settings) -> Result<WarmPool, Memory> {
        let kind = match settings.buckets {
            Buckets::Widening => Kind::Fitted(open_fitted(alloc, &network.rows, settings)?),
            Buckets::Even(_) => Kind::Even(open_even(alloc, settings)?),
        };
        Ok(WarmPool { kind })
    }

    /// The number of its workers.
    pub fn workers(&self) -> u32 {
        match &self.kind {
            Kind::Even(even) => even.settings.workers,
            Kind::Fitted(fitted) => fitted.settings.workers,
        }
    }

    /// The least costs of a network from a start.
    pub fn costs_from<H: Threads + Wait + Clock + Sync, G: Gate + Sync>(
        &mut self,
        rt: &H,
        alloc: Global,
        network: &Network,
        start: Start,
        gate: &G,
    ) -> Result<Costs, Memory>
        requires { IsStartWithin network.now.n start }
        ensures net { IfOk result (λ costs. costs.net ≡ network.now) }
        ensures start { IfOk result (λ costs. costs.start ≡ start) }
    {
        let search = Search {
            network,
            start,
            rest: None,
            goal: Goal::EachVertex,
        };
        let reached = self.reach(rt, alloc, search, gate)?;
        Ok(Costs::new(network, start, reached.closed.into_labels()))
    }

    /// Runs from a start, or on from a pause, no further than the goal wants. From a pause only what the arcs that leave
    /// marked vertices change is visited.
    pub(crate) fn reach<H: Threads + Wait + Clock + Sync, G: Gate + Sync>(
        &mut self,
        rt: &H,
        alloc: Global,
        search: Search<'_>,
        gate: &G,
    ) -> Result<GoalResult, Memory>
        requires { IsSearchWithin search }
        ensures { IfOk result (HasReached search.entry.goal (graph_of search.entry.network.now)
            (seeds_at search.entry.network.now.n search.entry.start)) }
    {
        let Search {
            network,
            start,
            rest,
            goal,
        } = search;
        let seeds = seeds_of(alloc, network, start)?;
        let task = Task {
            rows: &network.rows,
            seeds: &seeds,
            rest,
            goal,
        };
        self.run(rt, alloc, task, gate)
    }

    fn run<H: Threads + Wait + Clock + Sync, G: Gate + Sync>(
        &mut self,
        rt: &H,
        alloc: Global,
        task: Task<'_>,
        gate: &G,
    ) -> Result<GoalResult, Memory>
        requires { IsTaskWithin task }
        ensures { IfOk result (HasReached task.entry.goal task.entry.rows.now task.entry.seeds.now) }
    {
        let reached = match &mut self.kind {
            Kind::Even(even) => run_even(rt, alloc, task, even, gate),
            Kind::Fitted(fitted) => run_fitted(rt, alloc, task, fitted, gate),
        };
        match reached {
            Ok(reached) => Ok(reached),
            Err(_) => Err(Memory),
        }
    }
}

/// Makes a pause in the grown network of what a run left before. It marks the tails of the added arcs.
pub(crate) fn pause_after(
    alloc: Global,
    growth: &NetworkGrowth<'_>,
    start: Start,
    closed: Closed,
) -> Result<Paused, Memory>
    requires start { IsStartWithin growth.now.network.now.n start }
    requires grown { GrowsTo growth.now.network.now growth.now.grown.now }
    requires closed { IsEnd (graph_of growth.now.network.now) (seeds_at growth.now.network.now.n start) closed }
    ensures { IfOk result (IsPause (graph_of growth.now.grown.now) (seeds_at growth.now.grown.now.n start)) }
{
    let (network, grown) = (growth.network, growth.grown);
    // The rows are by tail, so that labels which are least along them are a pause of their graph. The start is for the
    // contract alone.
    let _ = (network.rows.n(), start);
    match closed {
        Closed::Settled(labels) => Ok(grow(Paused::settled(alloc, labels)?, &grown.added)),
        Closed::Paused(rest) => Ok(grow(rest, &grown.added)),
    }
}

fn seeds_of(alloc: Global, network: &Network, start: Start) -> Result<Vec<Seed>, Memory>
    requires { IsStartWithin network.now.n start }
    ensures exact { IfOk result (λ seeds. seeds.items ≡ seeds_at network.now.n start) }
    ensures within { IfOk result (λ seeds. AreSeeds network.now.n seeds.items) }
{
    match start {
        Start::At(source) => seeds_from(alloc, source),
        Start::Everywhere => seeds_all(alloc, network.n()),
    }
}

/// Runs from the seeds of a task, or goes on from its pause.
fn run_on<H: Threads + Wait + Clock + Sync, P: WorkPool + Sync, G: Gate + Sync>(
    rt: &H,
    alloc: Global,
    task: Task<'_>,
    setup: &Setup<'_, P, G>,
    sides: &mut [P::Side],
) -> Result<GoalResult, RunFault>
where
    P::Side: Send,
    requires task { IsTaskWithin task }
    requires workers { length sides.old ≡ setup.now.settings.now.workers }
    requires sides { All (P.is_side setup.now.pool.now) sides.old }
    ensures reached { IfOk result (HasReached task.entry.goal task.entry.rows.now task.entry.seeds.now) }
    ensures sides { All (P.is_side setup.now.pool.now) sides.new }
{
    let Task {
        rows,
        seeds,
        rest,
        goal,
    } = task;
    match rest {
        None => run_until(rt, alloc, rows, seeds, goal, setup, sides),
        Some(rest) => resume_until(rt, alloc, rows, rest, goal, setup, sides),
    }
}

fn open_even(alloc: Global, settings: &Settings) -> Result<Even, Memory> {
    let (pool, sides) = ObimPool::open(alloc, settings.workers, settings.chunk)?;
    Ok(Even {
        settings: *settings,
        pool,
        sides,
    })
}

fn open_fitted(alloc: Global, rows: &Csr, settings: &Settings) -> Result<Fitted, Memory> {
    let widths = widths_of(rows);
    let settings = Settings {
        workers: settings.workers,
        buckets: Buckets::Even(widths.shift.min(MAX_SHIFT)),
        chunk: settings.chunk,
    };
    let (pool, sides) = WideningPool::open(alloc, settings.workers, settings.chunk, widths.scale)?;
    Ok(Fitted {
        settings,
        pool,
        sides,
    })
}

fn run_even<H: Threads + Wait + Clock + Sync, G: Gate + Sync>(
    rt: &H,
    alloc: Global,
    task: Task<'_>,
    even: &mut Even,
    gate: &G,
) -> Result<GoalResult, RunFault>
    requires { IsTaskWithin task }
    ensures { IfOk result (HasReached task.entry.goal task.entry.rows.now task.entry.seeds.now) }
{
    let before = Worklist::of(&even.sides);
    let setup = Setup {
        settings: &even.settings,
        pool: &even.pool,
        gate,
    };
    let reached = run_on(rt, alloc, task, &setup, &mut even.sides)?;
    gate.end(rt, worklist_since(before, &even.sides));
    Ok(reached)
}

fn run_fitted<H: Threads + Wait + Clock + Sync, G: Gate + Sync>(
    rt: &H,
    alloc: Global,
    task: Task<'_>,
    fitted: &mut Fitted,
    gate: &G,
) -> Result<GoalResult, RunFault>
    requires { IsTaskWithin task }
    ensures { IfOk result (HasReached task.entry.goal task.entry.rows.now task.entry.seeds.now) }
{
    let before = Worklist::of(&fitted.sides);
    let setup = Setup {
        settings: &fitted.settings,
        pool: &fitted.pool,
        gate,
    };
    let reached = run_on(rt, alloc, task, &setup, &mut fitted.sides)?;
    gate.end(rt, worklist_since(before, &fitted.sides));
    Ok(reached)
}

/// The counts of the sides since then, and all buckets that there are.
fn worklist_since(before: Worklist, sides: &[ObimSide]) -> Worklist {
    let now = Worklist::of(sides);
    Worklist {
        buckets: now.buckets,
        looks: now.looks.saturating_sub(before.looks),
        chunks: now.chunks.saturating_sub(before.chunks),
    }
}
