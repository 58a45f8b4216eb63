//! Runs that may stop early.
//!
//! When workers leave is a hint. Their pause shows if the wanted labels are least: no vertex below the limit is marked.
//! If one is, since the pool lost it, the run goes on to its end.

ghost use Rattle.std.specs.Prelude.{◌≡◌, ◌≤◌, length, None, All, IfOk, List};
ghost use Rattle.route_walks.specs.Walk.{AreSeeds};
ghost use Rattle.route_walks.specs.declared.graph.Seed.{Seed};
ghost use Rattle.label_words.specs.Paused.{CanGoOn, IsPause};
ghost use Rattle.obim_engine.specs.Goal.{HasReached, HasStopped, IsGoalWithin};
ghost use Rattle.obim_engine.specs.Workers.{CanLead};

use crate::gate::Gate;
use crate::goal::{Goal, GoalResult};
use crate::opened::Opened;
use crate::runs::{RunFault, run_workers, solve};
use crate::settings::{MAX_WORKERS, Setup};
use crate::shared::Run;
use csr_graph::Csr;
use label_words::{Closed, Paused};
use obim_pool::WorkPool;
use route_walks::{INF, Seed};
use std::alloc::Global;
use std::sync::Wait;
use std::thread::Threads;
use std::time::Clock;

/// Runs, and may stop once the wanted labels are least. They are then least up to the least limit that serves the goal,
/// or `INF` if the run came to its end.
///
/// It visits about the vertices below the limit, and takes some passes over all vertices.
pub fn run_until<H: Threads + Wait + Clock + Sync, P: WorkPool + Sync, G: Gate + Sync>(
    rt: &H,
    alloc: Global,
    csr: &Csr,
    seeds: &[Seed],
    goal: Goal<'_>,
    setup: &Setup<'_, P, G>,
    sides: &mut [P::Side],
) -> Result<GoalResult, RunFault>
where
    P::Side: Send,
    requires seeds { AreSeeds csr.now.n seeds.now }
    requires goal { IsGoalWithin csr.now.n goal }
    requires workers { length sides.old ≡ setup.now.settings.now.workers }
    requires sides { All (P.is_side setup.now.pool.now) sides.old }
    ensures reached { IfOk result (HasReached goal.entry csr.now seeds.now) }
    ensures sides { All (P.is_side setup.now.pool.now) sides.new }
{
    let opened = Opened::from_seeds(alloc, csr, seeds)?;
    reach(rt, alloc, opened, &Run::of(csr, goal, setup), sides)
}

/// Goes on from a pause, as `run_until` from any seeds of which it is a pause. After a fault the pause is gone.
pub fn resume_until<H: Threads + Wait + Clock + Sync, P: WorkPool + Sync, G: Gate + Sync>(
    rt: &H,
    alloc: Global,
    csr: &Csr,
    rest: Paused,
    goal: Goal<'_>,
    setup: &Setup<'_, P, G>,
    sides: &mut [P::Side],
) -> Result<GoalResult, RunFault>
where
    P::Side: Send,
    requires pause { CanGoOn csr.now rest }
    requires goal { IsGoalWithin csr.now.n goal }
    requires workers { length sides.old ≡ setup.now.settings.now.workers }
    requires sides { All (P.is_side setup.now.pool.now) sides.old }
    ensures reached { (seeds : List Seed)
        → AreSeeds csr.now.n seeds
        → IsPause csr.now seeds rest
        → IfOk result (HasReached goal.entry csr.now seeds) }
    ensures sides { All (P.is_side setup.now.pool.now) sides.new }
{
    let opened = Opened::from_pause(alloc, csr, rest)?;
    // The words have the labels as their seeds, and what is least from these is least from the others.
    label_words::laws::resumed_runs_end_alike();
    reach(rt, alloc, opened, &Run::of(csr, goal, setup), sides)
}

/// Runs on open words until the goal is reached. If the pause doesn't show that, the run goes on to its end.
pub(crate) fn reach<H: Threads + Wait + Clock + Sync, P: WorkPool + Sync, G: Gate + Sync>(
    rt: &H,
    alloc: Global,
    opened: Opened,
    run: &Run<'_, P, G>,
    sides: &mut [P::Side],
) -> Result<GoalResult, RunFault>
where
    P::Side: Send,
    requires seat { CanLead run.now.csr.now MAX_WORKERS opened.seat }
    requires goal { IsGoalWithin run.now.csr.now.n run.now.goal }
    requires some { 1 ≤ length sides.old }
    requires few { length sides.old ≤ MAX_WORKERS }
    requires sides { All (P.is_side run.now.pool.now) sides.old }
    ensures stopped { IfOk result (HasStopped run.now.goal run.now.csr.now opened.seat.known.seeds) }
    ensures sides { All (P.is_side run.now.pool.now) sides.new }
{
    // That the graph is in rows tells what its pauses are worth.
    let n = run.csr.n();
    let rest = match run_workers(rt, alloc, opened, run, sides)? {
        Closed::Settled(labels) => return Ok(settled(labels)),
        Closed::Paused(rest) => rest,
    };
    let limit = run.goal.limit_of(rest.labels());
    if run.goal.has_none_left(&rest, n, limit) {
        let closed = Closed::Paused(rest);
        let limit = run.goal.limit_for_all(limit);
        return Ok(GoalResult { closed, limit });
    }
    let opened = Opened::from_pause(alloc, run.csr, rest)?;
    label_words::laws::resumed_runs_end_alike();
    let labels = solve(rt, alloc, opened, &run.to_end(), sides)?;
    Ok(settled(labels))
}

fn settled(labels: Vec<u64>) -> GoalResult
    ensures { result ≡ record { closed = Closed.Settled labels; limit = INF } }
{
    GoalResult {
        closed: Closed::Settled(labels),
        limit: INF,
    }
}
