//! Each call on a pool with one allocation refused: no vertex is lost or comes twice, and a refused push leaves the
//! current metric.

ghost use Rattle.std.specs.Prelude.{◌≤◌, All, IfOk};
ghost use Rattle.obim_pool.specs.Sides.{IsSideOf};

use crate::pools::calls::expect_calls;
use crate::pools::obim::{LEFT, PUSHES, expect_left, open_pool};
use obim_bags::SettleFault;
use obim_pool::{LockedPool, ObimPool, ObimSide, Scale, WideningPool, WorkPool};
use route_walks::{Memory, refusable};
use std::alloc::Global;
use std::process::Abort;
use std::sync::Wait;

// The first vertices have a metric each, the last one the lowest. All others have that one, with more chunks than a
// block of a queue has.
const METRICS: u32 = 12;

const VERTICES: u32 = 52;

fn metric_of(v: u32) -> u64 {
    u64::from(METRICS.saturating_sub(v).max(1))
}

// Pushes a vertex. A refused push leaves the current metric: the vertex pushed last comes out then.
fn push_again<P: WorkPool, R: Wait + Abort>(
    rt: &R,
    alloc: Global,
    pool: &P,
    side: &mut P::Side,
    v: u32,
)
    requires { P.is_side pool.now side.old }
    ensures { P.is_side pool.now side.new }
{
    if refusable!(alloc, pool.push(rt, side, v, metric_of(v))) {
        return;
    }
    if v > 0 && v < METRICS {
        let last = v.saturating_sub(1);
        assert!(rt; pool.pop(rt, side) == Some(last));
        assert!(rt; pool.push(rt, side, last, metric_of(last)));
    }
    assert!(rt; pool.push(rt, side, v, metric_of(v)));
}

// Notes a vertex that was popped for the first time.
fn note(rt: &impl Abort, popped: &mut u64, v: u32) {
    assert!(rt; v < VERTICES);
    let bit = 1_u64 << v;
    assert!(rt; *popped & bit == 0, "vertex {v} comes twice");
    *popped |= bit;
}

// A side pushes all vertices and pops them, each once, by rising metric.
fn expect_pushes<P: WorkPool, R: Wait + Abort>(
    rt: &R,
    alloc: Global,
    pool: &P,
    sides: &mut [P::Side],
)
    requires { All (P.is_side pool.now) sides.old }
{
    assert!(rt; sides.len() == 1);
    let side = &mut sides[0];
    for v in 0..VERTICES {
        push_again(rt, alloc, pool, side, v);
    }
    expect_rising(rt, pool, side);
}

fn expect_rising<P: WorkPool, R: Wait + Abort>(rt: &R, pool: &P, side: &mut P::Side)
    requires { P.is_side pool.now side.old }
{
    let (mut popped, mut metric) = (0, 0);
    for _ in 0..VERTICES {
        let v = pool.pop(rt, side).expect(rt, "a vertex that was pushed");
        note(rt, &mut popped, v);
        assert!(rt; metric <= metric_of(v), "vertex {v} comes late");
        metric = metric_of(v);
    }
    assert!(rt; pool.pop(rt, side).is_none());
}

// One side pushes all vertices, and the other pops them.
fn expect_pops<P: WorkPool, R: Wait + Abort>(rt: &R, alloc: Global, pool: &P, sides: &mut [P::Side])
    requires { All (P.is_side pool.now) sides.old }
{
    assert!(rt; sides.len() == 2);
    push_plainly(rt, pool, &mut sides[0]);
    pop_again(rt, alloc, pool, &mut sides[1]);
    assert!(rt; pool.pop(rt, &mut sides[0]).is_none());
}

fn push_plainly<P: WorkPool, R: Wait + Abort>(rt: &R, pool: &P, side: &mut P::Side)
    requires { P.is_side pool.now side.old }
    ensures { P.is_side pool.now side.new }
{
    for v in 0..VERTICES {
        assert!(rt; pool.push(rt, side, v, metric_of(v)));
    }
}

// A refused pop goes on with the bags that its side has, or gives none once.
fn pop_again<P: WorkPool, R: Wait + Abort>(rt: &R, alloc: Global, pool: &P, side: &mut P::Side)
    requires { P.is_side pool.now side.old }
    ensures { P.is_side pool.now side.new }
{
    let mut popped = 0;
    for _ in 0..=VERTICES {
        if let Some(v) = refusable!(alloc, pool.pop(rt, side)) {
            note(rt, &mut popped, v);
        }
    }
    assert!(rt; popped == (1 << VERTICES) - 1 && pool.pop(rt, side).is_none());
}

// A kind of pool.
#[derive(Clone, Copy)]
enum Kind {
    Locked,
    Obim,
    Widening,
}

fn opens(alloc: Global, kind: Kind) -> bool {
    match kind {
        Kind::Locked => LockedPool::open(alloc, 2).is_ok(),
        Kind::Obim => ObimPool::open(alloc, 2, 1).is_ok(),
        Kind::Widening => open_widening(alloc, 2).is_ok(),
    }
}

fn open_again(rt: &impl Abort, alloc: Global, kind: Kind) {
    let opened = refusable!(alloc, opens(alloc, kind));
    assert!(rt; opened || opens(alloc, kind));
}

#[test]
fn of_locked_pool_open(rt: HostRuntime) {
    open_again(&rt, rt.alloc(), Kind::Locked);
}

#[test]
fn of_locked_pool_push(rt: HostRuntime) {
    let (pool, mut sides) = LockedPool::open(rt.alloc(), 1).expect(&rt, "memory for a pool");
    expect_pushes(&rt, rt.alloc(), &pool, &mut sides);
}

#[test]
fn of_locked_pool_pop(rt: HostRuntime) {
    let (pool, mut sides) = LockedPool::open(rt.alloc(), 2).expect(&rt, "memory for a pool");
    expect_pops(&rt, rt.alloc(), &pool, &mut sides);
}

#[test]
fn of_obim_pool_open(rt: HostRuntime) {
    open_again(&rt, rt.alloc(), Kind::Obim);
}

#[test]
fn of_obim_pool_push(rt: HostRuntime) {
    let (pool, mut sides) = open_pool(&rt, rt.alloc(), 1, 1);
    expect_pushes(&rt, rt.alloc(), &pool, &mut sides);
}

#[test]
fn of_obim_pool_pop(rt: HostRuntime) {
    let (pool, mut sides) = open_pool(&rt, rt.alloc(), 2, 1);
    expect_pops(&rt, rt.alloc(), &pool, &mut sides);
}

fn settle<R: Wait + Abort>(rt: &R, alloc: Global) -> bool {
    let (pool, mut sides) = open_pool(rt, alloc, 1, 2);
    expect_calls(rt, &pool, &mut sides, 0, &[(0, PUSHES)]);
    let settled = refusable!(alloc, pool.settle(rt, alloc, sides));
    if let Err(SettleFault::Memory) = settled {
        return false;
    }
    expect_left(rt, 0, settled, LEFT);
    true
}

#[test]
fn of_obim_pool_settle(rt: HostRuntime) {
    assert!(rt; settle(&rt, rt.alloc()) || settle(&rt, rt.alloc()));
}

fn open_widening(alloc: Global, workers: u32) -> Result<(WideningPool, Vec<ObimSide>), Memory>
    requires { 1 ≤ workers }
    ensures { IfOk result (λ opened. All (IsSideOf opened.0.log) opened.1.items) }
{
    WideningPool::open(alloc, workers, 1, Scale::widening())
}

#[test]
fn of_widening_pool_open(rt: HostRuntime) {
    open_again(&rt, rt.alloc(), Kind::Widening);
}

#[test]
fn of_widening_pool_push(rt: HostRuntime) {
    let (pool, mut sides) = open_widening(rt.alloc(), 1).expect(&rt, "memory for a pool");
    expect_pushes(&rt, rt.alloc(), &pool, &mut sides);
}

#[test]
fn of_widening_pool_pop(rt: HostRuntime) {
    let (pool, mut sides) = open_widening(rt.alloc(), 2).expect(&rt, "memory for a pool");
    expect_pops(&rt, rt.alloc(), &pool, &mut sides);
}
