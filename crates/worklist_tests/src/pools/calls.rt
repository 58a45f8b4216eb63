//! Calls on a pool through its trait, and their results.

ghost use Rattle.std.specs.Prelude.{All};

use obim_pool::WorkPool;
use std::process::Abort;
use std::sync::Wait;

// Calls by one side of a pool, and their results.
#[derive(Clone, Copy)]
pub(crate) enum Call {
    // Pushes of these vertices at these metrics.
    Push(&'static [(u32, u64)]),
    Pop(&'static [Option<u32>]),
    // The vertex that the pop of this number gives.
    Ahead(usize, Option<u32>),
    // Pushes of each vertex below a count, in the order of multiples of a step, at itself times a factor.
    PushAll(u32, u32, u64),
    // Pops of the vertices from the first up to the end: rising or falling.
    PopRising(u32, u32),
    PopFalling(u32, u32),
    // So many pushes, each popped.
    PushAndPop(u32),
}

// Makes each call by the side of its number, and asserts its result.
pub(crate) fn expect_calls<P: WorkPool, R: Wait + Abort>(
    rt: &R,
    pool: &P,
    sides: &mut [P::Side],
    row: usize,
    calls: &[(usize, Call)],
)
    requires { All (P.is_side pool.now) sides.old }
    ensures { All (P.is_side pool.now) sides.new }
{
    for (at, &(number, call)) in calls.iter().enumerate() {
        let gives = number < sides.len() && is_right(rt, pool, &mut sides[number], call);
        assert!(rt; gives, "row {row}, call {at}");
    }
}

fn is_right<P: WorkPool, R: Wait>(rt: &R, pool: &P, side: &mut P::Side, call: Call) -> bool
    requires { P.is_side pool.now side.old }
    ensures { P.is_side pool.now side.new }
{
    match call {
        Call::Push(vertices) => takes(rt, pool, side, vertices),
        Call::Pop(wants) => gives(rt, pool, side, wants),
        Call::Ahead(by, want) => pool.ahead(side, by) == want,
        Call::PushAll(count, step, factor) => takes_all(rt, pool, side, count, step, factor),
        Call::PopRising(first, end) => gives_all(rt, pool, side, first, end, false),
        Call::PopFalling(first, end) => gives_all(rt, pool, side, first, end, true),
        Call::PushAndPop(times) => gives_back(rt, pool, side, times),
    }
}

fn takes<P: WorkPool, R: Wait>(
    rt: &R,
    pool: &P,
    side: &mut P::Side,
    vertices: &[(u32, u64)],
) -> bool
    requires { P.is_side pool.now side.old }
    ensures { P.is_side pool.now side.new }
{
    for &(v, metric) in vertices {
        if !pool.push(rt, side, v, metric) {
            return false;
        }
    }
    true
}

fn gives<P: WorkPool, R: Wait>(rt: &R, pool: &P, side: &mut P::Side, wants: &[Option<u32>]) -> bool
    requires { P.is_side pool.now side.old }
    ensures { P.is_side pool.now side.new }
{
    for &want in wants {
        if pool.pop(rt, side) != want {
            return false;
        }
    }
    true
}

fn takes_all<P: WorkPool, R: Wait>(
    rt: &R,
    pool: &P,
    side: &mut P::Side,
    count: u32,
    step: u32,
    factor: u64,
) -> bool
    requires { P.is_side pool.now side.old }
    ensures { P.is_side pool.now side.new }
{
    for at in 0..count {
        let v = at.wrapping_mul(step) % count;
        if !pool.push(rt, side, v, u64::from(v).wrapping_mul(factor)) {
            return false;
        }
    }
    true
}

fn gives_all<P: WorkPool, R: Wait>(
    rt: &R,
    pool: &P,
    side: &mut P::Side,
    first: u32,
    end: u32,
    falls: bool,
) -> bool
    requires { P.is_side pool.now side.old }
    ensures { P.is_side pool.now side.new }
{
    for at in first..end {
        let v = if falls { end - 1 - at + first } else { at };
        if pool.pop(rt, side) != Some(v) {
            return false;
        }
    }
    true
}

fn gives_back<P: WorkPool, R: Wait>(rt: &R, pool: &P, side: &mut P::Side, times: u32) -> bool
    requires { P.is_side pool.now side.old }
    ensures { P.is_side pool.now side.new }
{
    for v in 0..times {
        if !pool.push(rt, side, v, 7) || pool.pop(rt, side) != Some(v) {
            return false;
        }
    }
    true
}
