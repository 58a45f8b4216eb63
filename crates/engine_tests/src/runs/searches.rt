//! Searches over a pool that the settings choose, as the operators make it.

ghost use Rattle.std.specs.Prelude.{◌≡◌, length, All, IfSome};
ghost use Rattle.route_walks.specs.Walk.{AreSeeds};
ghost use Rattle.label_words.specs.Paused.{IsPause};
ghost use Rattle.obim_engine.specs.Goal.{IsGoalWithin};

use csr_graph::Csr;
use obim_engine::{
    Buckets, Gate, Goal, GoalResult, MAX_SHIFT, Paused, RunFault, Settings, Setup, Worklist,
    resume_until, run_until, widths_of,
};
use obim_pool::{ObimPool, WideningPool, WorkPool};
use route_walks::EXAMPLE_SEEDS;
use std::alloc::Global;
use std::sync::Wait;
use std::thread::Threads;
use std::time::Clock;

/// A run from vertex 0, or on from a pause, as far as a goal.
#[derive(Drop)]
pub(crate) struct Search<'a> {
    pub rest: Option<Paused>,
    pub goal: Goal<'a>,
}

/// Runs over a new pool, and shows the gate its worklist.
pub(crate) fn reach<H: Threads + Wait + Clock + Sync, G: Gate + Sync>(
    rt: &H,
    alloc: Global,
    csr: &Csr,
    search: Search<'_>,
    settings: &Settings,
    gate: &G,
) -> Result<GoalResult, RunFault>
    requires seeds { AreSeeds csr.now.n EXAMPLE_SEEDS }
    requires rest { IfSome search.rest (IsPause csr.now EXAMPLE_SEEDS) }
    requires goal { IsGoalWithin csr.now.n search.goal }
{
    let (workers, chunk) = (settings.workers, settings.chunk);
    match settings.buckets {
        Buckets::Even(_) => {
            let (pool, mut sides) = ObimPool::open(alloc, workers, chunk)?;
            let even = *settings;
            let setup = Setup {
                settings: &even,
                pool: &pool,
                gate,
            };
            let reached = reach_over(rt, alloc, csr, search, &setup, &mut sides)?;
            gate.end(rt, Worklist::of(&sides));
            Ok(reached)
        }
        Buckets::Widening => {
            let widths = widths_of(csr);
            let (pool, mut sides) = WideningPool::open(alloc, workers, chunk, widths.scale)?;
            let even = Settings {
                workers,
                buckets: Buckets::Even(widths.shift.min(MAX_SHIFT)),
                chunk,
            };
            let setup = Setup {
                settings: &even,
                pool: &pool,
                gate,
            };
            let reached = reach_over(rt, alloc, csr, search, &setup, &mut sides)?;
            gate.end(rt, Worklist::of(&sides));
            Ok(reached)
        }
    }
}

fn reach_over<H: Threads + Wait + Clock + Sync, P: WorkPool + Sync, G: Gate + Sync>(
    rt: &H,
    alloc: Global,
    csr: &Csr,
    search: Search<'_>,
    setup: &Setup<'_, P, G>,
    sides: &mut [P::Side],
) -> Result<GoalResult, RunFault>
where
    P::Side: Send,
    requires seeds { AreSeeds csr.now.n EXAMPLE_SEEDS }
    requires rest { IfSome search.rest (IsPause csr.now EXAMPLE_SEEDS) }
    requires goal { IsGoalWithin csr.now.n search.goal }
    requires workers { length sides.old ≡ setup.now.settings.now.workers }
    requires sides { All (P.is_side setup.now.pool.now) sides.old }
{
    let Search { rest, goal } = search;
    match rest {
        None => run_until(rt, alloc, csr, &EXAMPLE_SEEDS, goal, setup, sides),
        Some(rest) => resume_until(rt, alloc, csr, rest, goal, setup, sides),
    }
}
