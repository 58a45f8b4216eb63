//! Runs in pieces, each with its own settings, pool and budget.

ghost use Rattle.std.specs.Prelude.{◌≡◌, length, All, IfOk, IfSome};
ghost use Rattle.route_walks.specs.Label.{AreLeastLabels};
ghost use Rattle.route_walks.specs.Walk.{AreSeeds};
ghost use Rattle.label_words.specs.Closed.{IsEnd};
ghost use Rattle.label_words.specs.Paused.{IsPause};

use crate::runs::draws::Draws;
use crate::runs::hostile::Hostile;
use crate::runs::pools::{Misleading, Useless};
use csr_graph::Csr;
use obim_engine::{Closed, OpenGate, Paused, RunFault, Settings, resume, run_for};
use obim_pool::{LockedPool, ObimPool, Scale, WideningPool, WorkPool};
use route_walks::Seed;
use std::alloc::Global;
use std::process::Abort;
use std::sync::Wait;
use std::thread::Threads;
use std::time::Clock;

/// A pool of `obim_pool` or of a caller.
#[derive(Clone, Copy)]
pub(crate) enum Kind {
    Locked,
    Obim,
    Widening,
    Misleading,
    Hostile(Draws),
    /// A pool that keeps nothing: true if it says it does, and the vertex that it gives.
    Useless(bool, Option<u32>),
}

impl Kind {
    fn drawn(draws: &mut Draws) -> Kind {
        match draws.below(31) {
            0..=5 => Kind::Locked,
            6..=10 => Kind::Obim,
            11..=14 => Kind::Widening,
            15..=19 => Kind::Misleading,
            // Rarely, since workers look for long before they sweep.
            20 => Kind::Useless(false, None),
            _ => Kind::Hostile(draws.other()),
        }
    }
}

/// A part of a run.
#[derive(Clone, Copy)]
pub(crate) struct Piece {
    pub settings: Settings,
    pub kind: Kind,
    pub budget: u64,
}

impl Piece {
    /// Draws a piece: 1 to 8 workers, any shift and chunks, over a pool of any kind.
    fn drawn(rt: &impl Abort, draws: &mut Draws) -> Piece {
        let (workers, shift) = (1 + draws.below(8) % 8, draws.below(16));
        let chunk = 1 + draws.below(64) as usize % 64;
        let settings = Settings::new(workers, shift, chunk);
        Piece {
            settings: settings.expect(rt, "settings within their limits"),
            kind: Kind::drawn(draws),
            budget: 1 << (draws.below(16) % 16),
        }
    }
}

/// The pieces of a run: one kind again and again, or drawn ones.
#[derive(Clone, Copy)]
pub(crate) enum Plan {
    Same(Piece),
    Drawn(Draws),
}

impl Plan {
    pub fn next(&mut self, rt: &impl Abort) -> Piece {
        match self {
            Plan::Same(piece) => *piece,
            Plan::Drawn(draws) => Piece::drawn(rt, draws),
        }
    }
}

const MOST_PIECES: u32 = 100_000;

/// A graph, and what a piece begins with.
#[derive(Drop)]
struct Start<'a> {
    csr: &'a Csr,
    seeds: &'a [Seed],
    rest: Option<Paused>,
    ghost seeds_are: { AreSeeds csr.now.n seeds.now },
}

/// Goes on from a pause for a piece, or begins.
fn go_on_over<H: Threads + Wait + Clock + Sync, P: WorkPool + Sync>(
    rt: &H,
    alloc: Global,
    start: Start<'_>,
    piece: &Piece,
    pool: &P,
    sides: &mut [P::Side],
) -> Result<Closed, RunFault>
where
    P::Side: Send,
    requires pause { IfSome start.rest (IsPause start.csr.now start.seeds.now) }
    requires workers { length sides.old ≡ piece.now.settings.workers }
    requires sides { All (P.is_side pool.now) sides.old }
    ensures { IfOk result (λ closed. IsEnd start.entry.csr.now start.entry.seeds.now closed) }
{
    let Piece {
        settings,
        budget,
        ..
    } = *piece;
    let Start { csr, seeds, rest } = start;
    match rest {
        None => run_for(
            rt, alloc, csr, seeds, &settings, pool, sides, &OpenGate, budget,
        ),
        Some(rest) => resume(
            rt, alloc, csr, seeds, rest, &settings, pool, sides, &OpenGate, budget,
        ),
    }
}

/// Goes on from a pause for a piece, or begins, over a new pool of the piece's kind.
pub(crate) fn go_on<H: Threads + Wait + Clock + Sync>(
    rt: &H,
    alloc: Global,
    csr: &Csr,
    seeds: &[Seed],
    rest: Option<Paused>,
    piece: &Piece,
) -> Result<Closed, RunFault>
    requires seeds { AreSeeds csr.now.n seeds.now }
    requires pause { IfSome rest (λ rest. IsPause csr.now seeds.now rest) }
    ensures { IfOk result (λ closed. IsEnd csr.now seeds.now closed) }
{
    let Settings { workers, chunk, .. } = piece.settings;
    let start = Start { csr, seeds, rest };
    match piece.kind {
        Kind::Locked => {
            let (pool, mut sides) = LockedPool::open(alloc, workers)?;
            go_on_over(rt, alloc, start, piece, &pool, &mut sides)
        }
        Kind::Obim => {
            let (pool, mut sides) = ObimPool::open(alloc, workers, chunk)?;
            go_on_over(rt, alloc, start, piece, &pool, &mut sides)
        }
        Kind::Widening => {
            let scale = Scale::new(2, 8);
            let (pool, mut sides) = WideningPool::open(alloc, workers, chunk, scale)?;
            go_on_over(rt, alloc, start, piece, &pool, &mut sides)
        }
        Kind::Misleading => {
            let (pool, mut sides) = Misleading::open(alloc, workers)?;
            go_on_over(rt, alloc, start, piece, &pool, &mut sides)
        }
        Kind::Hostile(draws) => {
            let (pool, mut sides) = Hostile::open(alloc, workers, draws)?;
            go_on_over(rt, alloc, start, piece, &pool, &mut sides)
        }
        Kind::Useless(accepts, gives) => {
            let pool = Useless { accepts, gives };
            let mut sides = Useless::sides(alloc, workers)?;
            go_on_over(rt, alloc, start, piece, &pool, &mut sides)
        }
    }
}

pub(crate) fn pause_after<H: Threads + Wait + Clock + Abort + Sync>(
    rt: &H,
    alloc: Global,
    csr: &Csr,
    seeds: &[Seed],
    rest: Option<Paused>,
    piece: &Piece,
) -> Result<Paused, RunFault>
    requires seeds { AreSeeds csr.now.n seeds.now }
    requires pause { IfSome rest (λ rest. IsPause csr.now seeds.now rest) }
    ensures { IfOk result (λ rest. IsPause csr.now seeds.now rest) }
{
    match go_on(rt, alloc, csr, seeds, rest, piece)? {
        Closed::Paused(rest) => Ok(rest),
        Closed::Settled(_) => panic!(rt; "settled"),
    }
}

pub(crate) fn settle<H: Threads + Wait + Clock + Abort + Sync>(
    rt: &H,
    alloc: Global,
    csr: &Csr,
    seeds: &[Seed],
    mut rest: Option<Paused>,
    plan: &mut Plan,
) -> Result<Vec<u64>, RunFault>
    requires seeds { AreSeeds csr.now.n seeds.now }
    requires pause { IfSome rest (λ rest. IsPause csr.now seeds.now rest) }
    ensures { IfOk result
        (λ labels. AreLeastLabels csr.now.n csr.now.arcs seeds.now labels.items) }
{
    for _ in 0..MOST_PIECES {
        let piece = plan.next(rt);
        match go_on(rt, alloc, csr, seeds, rest, &piece)? {
            Closed::Settled(labels) => return Ok(labels),
            Closed::Paused(left) => rest = Some(left),
        }
    }
    panic!(rt; "not settled after {MOST_PIECES} pieces")
}
