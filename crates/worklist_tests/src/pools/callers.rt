//! The facts that callers of a pool learn, each proved from its contract.

ghost use Rattle.std.specs.Prelude.{◌≡◌, ◌<◌, ◌⊎◌, ℕ, [], ◌∷◌, None, Some, IfNone, IfOk, IfSome, length, get_or};
ghost use Rattle.std.specs.Bool.{OnFalse, OnTrue};
ghost use Rattle.obim_pool.specs.Accounts.{FindsMore, OnlyLooks, Puts};
ghost use Rattle.obim_pool.specs.Sides.{HasLowered, IsOwn, IsSideOf, PushesNone, account_at, new_side};

use crate::pools::obim::open_pool;
use obim_bags::SettleFault;
use obim_pool::{ObimPool, ObimSide};
use std::alloc::Global;
use std::process::Abort;
use std::sync::Wait;

// Tries a push twice. If one is accepted, the vertex is in the bag of its metric once, and the lower metric is current.
fn push_stubbornly<R: Wait>(
    rt: &R,
    pool: &ObimPool,
    side: &mut ObimSide,
    v: u32,
    metric: u64,
) -> bool
    requires { IsSideOf pool.now side.old }
    ensures side { IsSideOf pool.now side.new }
    ensures pushed { OnTrue result ((place : ℕ) × IsOwn place metric side.new
        × Puts (v ∷ []) (account_at place side.old) (account_at place side.new)) }
    ensures current { OnTrue result (HasLowered metric side.old.current side.new.current) }
    ensures refused { OnFalse result (PushesNone side.old side.new) }
    ensures unchanged { OnFalse result (side.new.current ≡ side.old.current) }
{
    if pool.push(rt, side, v, metric) {
        return true;
    }
    pool.push(rt, side, v, metric)
}

// A pop that goes on to a higher metric leaves nothing that the side holds of the current one.
fn pop_onwards<R: Wait>(rt: &R, pool: &ObimPool, side: &mut ObimSide) -> Option<u32>
    requires { IsSideOf pool.now side.old }
    ensures side { IsSideOf pool.now side.new }
    ensures bare { IfSome result (λ v. (place metric higher : ℕ) → IsOwn place metric side.old
        → side.old.current ≡ Some metric → side.new.current ≡ Some higher → metric < higher
        → get_or side.new.held place [] ≡ []) }
{
    pool.pop(rt, side)
}

// Pops until there is none, `most` times at most: the side then holds no vertex.
fn pop_to_end<R: Wait>(rt: &R, pool: &ObimPool, side: &mut ObimSide, most: u32) -> bool
    requires { IsSideOf pool.now side.old }
    ensures side { IsSideOf pool.now side.new }
    ensures bare { OnTrue result ((place : ℕ) → place < length side.new.held → get_or side.new.held place [] ≡ []) }
    ensures current { OnTrue result (side.new.current ≡ None) }
{
    for _ in 0..most {
        match pool.pop(rt, side) {
            None => return true,
            Some(_) => {}
        }
    }
    false
}

// A pop that gives none found each bag of the side empty, and counted it.
fn pop_in_vain<R: Wait>(rt: &R, pool: &ObimPool, side: &mut ObimSide) -> Option<u32>
    requires { IsSideOf pool.now side.old }
    ensures side { IsSideOf pool.now side.new }
    ensures counted { IfNone result ((place : ℕ) → place < length side.new.held
        → FindsMore 1 (account_at place side.old) (account_at place side.new)
        ⊎ FindsMore 2 (account_at place side.old) (account_at place side.new)) }
{
    pool.pop(rt, side)
}

// Two pops that give none change no bag.
fn pop_twice_in_vain<R: Wait>(rt: &R, pool: &ObimPool, side: &mut ObimSide) -> bool
    requires { IsSideOf pool.now side.old }
    ensures side { IsSideOf pool.now side.new }
    ensures looks { OnTrue result ((place : ℕ) → OnlyLooks (account_at place side.old) (account_at place side.new)) }
{
    match pool.pop(rt, side) {
        Some(_) => false,
        None => match pool.pop(rt, side) {
            Some(_) => false,
            None => true,
        },
    }
}

// A vertex that one side pushes and another pops is the very one, if the pool can be settled.
fn pass_on<R: Wait>(
    rt: &R,
    alloc: Global,
    pool: ObimPool,
    mut from: ObimSide,
    mut to: ObimSide,
    v: u32,
    metric: u64,
) -> Result<Option<u32>, SettleFault>
    requires from { from ≡ new_side pool }
    requires to { to ≡ new_side pool }
    ensures { IfOk result (λ popped. IfSome popped (λ vertex. vertex ≡ v)) }
{
    if pool.push(rt, &mut from, v, metric) {
        let popped = pool.pop(rt, &mut to);
        let sides = vec![in alloc; from, to]?;
        let _left = pool.settle(rt, alloc, sides)?;
        return Ok(popped);
    }
    Ok(None)
}

fn expect_alone<R: Wait + Abort>(rt: &R, pool: &ObimPool, side: &mut ObimSide)
    requires { IsSideOf pool.now side.old }
{
    assert!(rt; push_stubbornly(rt, pool, side, 50, 5));
    assert!(rt; push_stubbornly(rt, pool, side, 20, 2));
    assert!(rt; pop_onwards(rt, pool, side) == Some(20));
    assert!(rt; !pop_to_end(rt, pool, side, 1));
    assert!(rt; pop_to_end(rt, pool, side, 1));
    assert!(rt; pop_in_vain(rt, pool, side).is_none());
    assert!(rt; pop_twice_in_vain(rt, pool, side));
}

#[test]
fn a_side_that_is_alone(rt: HostRuntime) {
    let (pool, mut sides) = open_pool(&rt, rt.alloc(), 1, 16);
    assert!(rt; sides.len() == 1);
    expect_alone(&rt, &pool, &mut sides[0]);
}

#[test]
fn two_sides(rt: HostRuntime) {
    let opened = ObimPool::open(rt.alloc(), 2, 1);
    let (pool, mut sides) = opened.expect(&rt, "memory for a pool");
    let to = sides.pop().expect(&rt, "two sides");
    let from = sides.pop().expect(&rt, "two sides");
    let passed = pass_on(&rt, rt.alloc(), pool, from, to, 7, 3);
    assert!(rt; passed == Ok(Some(7)));
}
