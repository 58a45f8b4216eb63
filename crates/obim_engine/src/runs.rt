//! A run, from open words to labels.

ghost use Rattle.std.specs.Prelude.{◌≡◌, ◌≤◌, length, None, All, IfOk, IfSome};
ghost use Rattle.route_walks.specs.Label.{AreLeastLabels};
ghost use Rattle.route_walks.specs.Walk.{AreSeeds};
ghost use Rattle.label_words.specs.Paused.{IsPause};
ghost use Rattle.label_words.specs.Closed.{IsEnd, HasSettled, AreNoHigher, closed_labels};
ghost use Rattle.obim_engine.specs.Workers.{CanLead};
ghost use Rattle.obim_engine.specs.declared.runs.RunFault.TheVariants as fault;

use crate::gate::Gate;
use crate::goal::Goal;
use crate::group::run_group;
use crate::hints::pace::Pace;
use crate::opened::Opened;
use crate::settings::{MAX_WORKERS, Settings, Setup};
use crate::shared::{Run, Shared};
use csr_graph::Csr;
use label_words::{Closed, Paused, WorkSeat};
use obim_pool::WorkPool;
use route_walks::Seed;
use std::alloc::Global;
use std::error::Error;
use std::fmt;
use std::sync::Wait;
use std::thread::Threads;
use std::time::Clock;

/// The reason why a run gives no labels. Sides stay sides of the pool.
#[derive(Clone, Copy, Debug, PartialEq, Eq)]
pub enum RunFault {
    /// The system refused memory, before workers started or at the end.
    Memory,
    /// The system refused a thread. No run returns it: workers without a thread run on the one that wanted it.
    Spawn,
}

impl fmt::Display for RunFault {
    fn fmt<W: fmt::Write>(&self, f: &mut fmt::Formatter<W>) -> fmt::Result {
        f.write_str(match self {
            RunFault::Memory => "out of memory",
            RunFault::Spawn => "cannot start a thread",
        })
    }
}

impl Error for RunFault {}

impl From<route_walks::Memory> for RunFault {
    ghost from_gives = { λ _ given. given ≡ fault.Memory };

    fn from(_refused: route_walks::Memory) -> RunFault {
        RunFault::Memory
    }
}

/// The least label of each vertex, by a worker for each side of the pool. Marked vertices are pushed first, in rising
/// order, at their labels shifted right.
///
/// A pool that loses vertices does not keep a run from its end. If the pool gives low labels first, each vertex is
/// visited about once, in the time of its arcs.
pub fn run<H: Threads + Wait + Clock + Sync, P: WorkPool + Sync, G: Gate + Sync>(
    rt: &H,
    alloc: Global,
    csr: &Csr,
    seeds: &[Seed],
    settings: &Settings,
    pool: &P,
    sides: &mut [P::Side],
    gate: &G,
) -> Result<Vec<u64>, RunFault>
where
    P::Side: Send,
    requires seeds { AreSeeds csr.now.n seeds.now }
    requires workers { length sides.old ≡ settings.now.workers }
    requires sides { All (P.is_side pool.now) sides.old }
    ensures labels { IfOk result
        (λ labels. AreLeastLabels csr.now.n csr.now.arcs seeds.now labels.items) }
    ensures sides { All (P.is_side pool.now) sides.new }
{
    let opened = Opened::from_seeds(alloc, csr, seeds)?;
    let setup = Setup {
        settings,
        pool,
        gate,
    };
    let run = Run::whole(csr, &setup, None);
    solve(rt, alloc, opened, &run, sides)
}

/// Runs until each worker has visited `budget` vertices or all is settled. Returns least labels or a pause, from which
/// `resume` goes on. Visits of a sweep count.
pub fn run_for<H: Threads + Wait + Clock + Sync, P: WorkPool + Sync, G: Gate + Sync>(
    rt: &H,
    alloc: Global,
    csr: &Csr,
    seeds: &[Seed],
    settings: &Settings,
    pool: &P,
    sides: &mut [P::Side],
    gate: &G,
    budget: u64,
) -> Result<Closed, RunFault>
where
    P::Side: Send,
    requires seeds { AreSeeds csr.now.n seeds.now }
    requires workers { length sides.old ≡ settings.now.workers }
    requires sides { All (P.is_side pool.now) sides.old }
    ensures end { IfOk result (λ closed. IsEnd csr.now seeds.now closed) }
    ensures sides { All (P.is_side pool.now) sides.new }
{
    let opened = Opened::from_seeds(alloc, csr, seeds)?;
    let setup = Setup {
        settings,
        pool,
        gate,
    };
    let run = Run::whole(csr, &setup, Some(budget));
    run_workers(rt, alloc, opened, &run, sides)
}

/// Goes on from a pause of this graph and these seeds, as `run_for`. Pool, sides and settings may be others than
/// before. After a fault the pause is gone.
pub fn resume<H: Threads + Wait + Clock + Sync, P: WorkPool + Sync, G: Gate + Sync>(
    rt: &H,
    alloc: Global,
    csr: &Csr,
    seeds: &[Seed],
    rest: Paused,
    settings: &Settings,
    pool: &P,
    sides: &mut [P::Side],
    gate: &G,
    budget: u64,
) -> Result<Closed, RunFault>
where
    P::Side: Send,
    requires seeds { AreSeeds csr.now.n seeds.now }
    requires pause { IsPause csr.now seeds.now rest }
    requires workers { length sides.old ≡ settings.now.workers }
    requires sides { All (P.is_side pool.now) sides.old }
    ensures end { IfOk result (λ closed. IsEnd csr.now seeds.now closed) }
    ensures lower { IfOk result (λ closed. AreNoHigher (closed_labels closed) rest.labels) }
    ensures sides { All (P.is_side pool.now) sides.new }
{
    // The words have the labels as their seeds; the caller's seeds are for the contract alone.
    let _ = seeds;
    let opened = Opened::from_pause(alloc, csr, rest)?;
    label_words::laws::resumed_runs_end_alike();
    let setup = Setup {
        settings,
        pool,
        gate,
    };
    let run = Run::whole(csr, &setup, Some(budget));
    run_workers(rt, alloc, opened, &run, sides)
}

pub(crate) fn solve<H: Threads + Wait + Clock + Sync, P: WorkPool + Sync, G: Gate + Sync>(
    rt: &H,
    alloc: Global,
    opened: Opened,
    run: &Run<'_, P, G>,
    sides: &mut [P::Side],
) -> Result<Vec<u64>, RunFault>
where
    P::Side: Send,
    requires seat { CanLead run.now.csr.now MAX_WORKERS opened.seat }
    requires limit { run.now.budget ≡ None }
    requires goal { run.now.goal ≡ Goal.EachVertex }
    requires some { 1 ≤ length sides.old }
    requires few { length sides.old ≤ MAX_WORKERS }
    requires sides { All (P.is_side run.now.pool.now) sides.old }
    ensures labels { IfOk result
        (λ labels. AreLeastLabels run.now.csr.now.n run.now.csr.now.arcs opened.seat.known.seeds labels.items) }
    ensures sides { All (P.is_side run.now.pool.now) sides.new }
{
    match run_workers(rt, alloc, opened, run, sides)? {
        Closed::Settled(labels) => Ok(labels),
        // If all labels are wanted, without a budget, the seat saw the total at 0.
        Closed::Paused(_) => unreachable!(),
    }
}

/// Runs a worker for each side, and closes the words.
pub(crate) fn run_workers<H: Threads + Wait + Clock + Sync, P: WorkPool + Sync, G: Gate + Sync>(
    rt: &H,
    alloc: Global,
    opened: Opened,
    run: &Run<'_, P, G>,
    sides: &mut [P::Side],
) -> Result<Closed, RunFault>
where
    P::Side: Send,
    requires seat { CanLead run.now.csr.now MAX_WORKERS opened.seat }
    requires some { 1 ≤ length sides.old }
    requires few { length sides.old ≤ MAX_WORKERS }
    requires sides { All (P.is_side run.now.pool.now) sides.old }
    ensures end { IfOk result (λ closed. IsEnd run.now.csr.now opened.seat.known.seeds closed) }
    ensures settled { run.now.budget ≡ None → run.now.goal ≡ Goal.EachVertex → IfOk result HasSettled }
    ensures sides { All (P.is_side run.now.pool.now) sides.new }
{
    let pace = Pace::open(alloc, sides.len() as u32)?;
    let Opened { words, seat, only } = opened;
    let shared = Shared {
        run: run.again(),
        words: &words,
        pace: &pace,
    };
    push_marked(rt, &shared, &seat, only, &mut sides[0]);
    let seat = run_group(rt, &shared, 0, seat, sides);
    Ok(words.close(alloc, seat)?)
}

/// Pushes each marked vertex, in rising order, or the `only` one.
fn push_marked<H: Wait, P: WorkPool, G>(
    rt: &H,
    shared: &Shared<'_, P, G>,
    seat: &WorkSeat,
    only: Option<u32>,
    side: &mut P::Side,
)
    requires words { seat.now.words ≡ shared.now.words.now }
    requires graph { shared.now.run.csr.now ≡ seat.now.known.graph }
    requires only { IfSome only (λ v. All (λ seed. seed.vertex ≡ v) seat.now.known.seeds) }
    requires side { P.is_side shared.now.run.pool.now side.old }
    ensures { P.is_side shared.now.run.pool.now side.new }
{
    let run = &shared.run;
    let n = run.csr.n();
    let (first, end) = match only {
        Some(v) if v < n => (v, v + 1),
        _ => (0, n),
    };
    for v in first..end {
        if let Some(label) = shared.words.marked_label(seat, v) {
            // If the pool refuses the vertex, it stays marked all the same.
            if !run.pool.push(rt, side, v, run.metric_of(label)) {
                shared.pace.request_sweep();
            }
        }
    }
}
