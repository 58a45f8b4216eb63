//! Each call with one allocation refused, also inside a worker's push: `RunFault::Memory`, and made once more it gives
//! the labels worked by hand.

ghost use Rattle.std.specs.Prelude.{◌≡◌, IfOk};
ghost use Rattle.route_walks.specs.Walk.{AreSeeds};
ghost use Rattle.label_words.specs.Paused.{IsPause};

use crate::runs::graphs::{SIX_LABELS, same_labels, six};
use crate::runs::growths::{ONE_VISIT, expect_pause};
use crate::runs::operators::Ask::{
    self, Components, Distances, Levels, ResumeUntil, Run, RunUntil,
};
use crate::runs::operators::{FARTHEST, labels_of};
use crate::runs::pieces::{Kind, Piece, Plan, go_on, pause_after, settle};
use crate::runs::settings;
use csr_graph::Csr;
use obim_engine::{Closed, Paused, Recorder, RunFault, Settings};
use route_walks::{EXAMPLE_SEEDS, Seed, refusable};
use std::alloc::Global;
use std::process::Abort;
use std::sync::Wait;
use std::test::Fail;
use std::thread::Threads;
use std::time::Clock;

// The workers, and true if buckets widen.
const SETTINGS: &[(u32, bool)] = &[(1, false), (2, false), (1, true), (2, true)];

fn asked_again<H: Threads + Wait + Clock + Abort + Sync>(
    rt: &H,
    alloc: Global,
    csr: &Csr,
    ask: Ask,
    settings: &Settings,
) -> Result<Vec<u64>, Fail> {
    match refusable!(alloc, labels_of(rt, alloc, csr, ask, settings)) {
        Ok(labels) => Ok(labels),
        Err(fault) => {
            assert!(rt; fault == RunFault::Memory);
            Ok(labels_of(rt, alloc, csr, ask, settings)?)
        }
    }
}

fn expect_labels<H: Threads + Wait + Clock + Abort + Sync>(
    rt: &H,
    alloc: Global,
    ask: Ask,
    want: &[u64],
) -> Result<(), Fail> {
    let csr = six(alloc)?;
    for (row, &(workers, widening)) in SETTINGS.iter().enumerate() {
        let settings = settings(rt, workers, 4, widening);
        let labels = asked_again(rt, alloc, &csr, ask, &settings)?;
        same_labels(rt, row, &labels, want);
    }
    Ok(())
}

#[test]
fn of_run(rt: HostRuntime) -> Result<(), Fail> {
    expect_labels(&rt, rt.alloc(), Run(&EXAMPLE_SEEDS), &SIX_LABELS)
}

#[test]
fn of_distances(rt: HostRuntime) -> Result<(), Fail> {
    expect_labels(&rt, rt.alloc(), Distances(0), &SIX_LABELS)
}

#[test]
fn of_levels(rt: HostRuntime) -> Result<(), Fail> {
    expect_labels(&rt, rt.alloc(), Levels(0), &[0, 1, 1, 2, 2, 3])
}

#[test]
fn of_components(rt: HostRuntime) -> Result<(), Fail> {
    expect_labels(&rt, rt.alloc(), Components, &[0; 6])
}

#[test]
fn of_run_until(rt: HostRuntime) -> Result<(), Fail> {
    let ask = RunUntil(&EXAMPLE_SEEDS, FARTHEST);
    expect_labels(&rt, rt.alloc(), ask, &SIX_LABELS)
}

#[test]
fn of_resume_until(rt: HostRuntime) -> Result<(), Fail> {
    let ask = ResumeUntil(&EXAMPLE_SEEDS, FARTHEST);
    expect_labels(&rt, rt.alloc(), ask, &SIX_LABELS)
}

// A pool, and the workers.
const POOLS: &[(Kind, u32)] = &[
    (Kind::Locked, 1),
    (Kind::Locked, 2),
    (Kind::Obim, 1),
    (Kind::Obim, 2),
];

// The pause after a piece, made once more if memory was refused.
fn begun_again<H: Threads + Wait + Clock + Abort + Sync>(
    rt: &H,
    alloc: Global,
    csr: &Csr,
    seeds: &[Seed],
    piece: &Piece,
) -> Result<Paused, Fail>
    requires { AreSeeds csr.now.n seeds.now }
    ensures { IfOk result (λ rest. IsPause csr.now seeds.now rest) }
{
    match refusable!(alloc, pause_after(rt, alloc, csr, seeds, None, piece)) {
        Ok(rest) => Ok(rest),
        Err(fault) => {
            assert!(rt; fault == RunFault::Memory);
            Ok(pause_after(rt, alloc, csr, seeds, None, piece)?)
        }
    }
}

// The outcome of the first of two equal pauses. After a refusal it is gone, and the run goes on from the other.
fn gone_on_again<H: Threads + Wait + Clock + Abort + Sync>(
    rt: &H,
    alloc: Global,
    csr: &Csr,
    rests: (Paused, Paused),
    piece: &Piece,
) -> Result<Closed, Fail>
    requires seeds { AreSeeds csr.now.n EXAMPLE_SEEDS }
    requires rest { IsPause csr.now EXAMPLE_SEEDS rests.0 }
    requires same { IsPause csr.now EXAMPLE_SEEDS rests.1 }
{
    let (seeds, (rest, same)) = (EXAMPLE_SEEDS, rests);
    match refusable!(alloc, go_on(rt, alloc, csr, &seeds, Some(rest), piece)) {
        Ok(closed) => Ok(closed),
        Err(fault) => {
            assert!(rt; fault == RunFault::Memory);
            Ok(go_on(rt, alloc, csr, &seeds, Some(same), piece)?)
        }
    }
}

fn piece_of(rt: &impl Abort, kind: Kind, workers: u32, budget: u64) -> Piece {
    Piece {
        settings: settings(rt, workers, 4, false),
        kind,
        budget,
    }
}

fn expect_begun<H: Threads + Wait + Clock + Abort + Sync>(
    rt: &H,
    alloc: Global,
    row: usize,
    csr: &Csr,
    kind: Kind,
    workers: u32,
) -> Result<(), Fail>
    requires { csr.now.n ≡ 6 }
{
    let seeds = EXAMPLE_SEEDS;
    let piece = piece_of(rt, kind, workers, 1);
    let rest = begun_again(rt, alloc, csr, &seeds, &piece)?;
    if workers == 1 {
        expect_pause(rt, row, &rest, &ONE_VISIT, &[1, 2]);
    }
    let labels = settle(rt, alloc, csr, &seeds, Some(rest), &mut Plan::Same(piece))?;
    same_labels(rt, row, &labels, &SIX_LABELS);
    Ok(())
}

// A run leaves what one visit leaves.
#[test]
fn of_run_for(rt: HostRuntime) -> Result<(), Fail> {
    let csr = six(rt.alloc())?;
    for (row, &(kind, workers)) in POOLS.iter().enumerate() {
        expect_begun(&rt, rt.alloc(), row, &csr, kind, workers)?;
    }
    Ok(())
}

fn resumed_again<H: Threads + Wait + Clock + Abort + Sync>(
    rt: &H,
    alloc: Global,
    csr: &Csr,
    kind: Kind,
    workers: u32,
) -> Result<Closed, Fail>
    requires { csr.now.n ≡ 6 }
{
    let (seeds, piece) = (EXAMPLE_SEEDS, piece_of(rt, kind, workers, 1));
    let rest = pause_after(rt, alloc, csr, &seeds, None, &piece)?;
    let same = pause_after(rt, alloc, csr, &seeds, None, &piece)?;
    let whole = piece_of(rt, kind, workers, u64::MAX);
    gone_on_again(rt, alloc, csr, (rest, same), &whole)
}

#[test]
fn of_resume(rt: HostRuntime) -> Result<(), Fail> {
    let csr = six(rt.alloc())?;
    for (row, &(kind, workers)) in POOLS.iter().enumerate() {
        match resumed_again(&rt, rt.alloc(), &csr, kind, workers)? {
            Closed::Settled(labels) => same_labels(&rt, row, &labels, &SIX_LABELS),
            Closed::Paused(_) => assert!(rt; false, "row {row}: paused"),
        }
    }
    Ok(())
}

#[test]
fn of_recorder_new(rt: HostRuntime) {
    let alloc = rt.alloc();
    let gate = refusable!(alloc, Recorder::new(alloc));
    assert!(rt; gate.into_passed().is_empty());
}
