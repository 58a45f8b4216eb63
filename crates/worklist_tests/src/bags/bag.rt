//! A bag gives first what was put first, and all of it in the end.

ghost use Rattle.std.specs.Prelude.{◌≢◌, [], All, IfSome};
ghost use Rattle.obim_bags.specs.Bags.{IsPassOf};

use crate::bags::helpers::{METRIC, chunk_of, expect_left, holds, open_bag};
use obim_bags::{Bag, BagPass, Chunk, SettleFault};
use std::alloc::Global;
use std::process::Abort;
use std::sync::Wait;

// A call on a bag, with a chunk's serial and vertices, and its result.
#[derive(Clone, Copy)]
pub(crate) enum Call {
    Put(u64, &'static [u32]),
    PutBoxed(u64, &'static [u32]),
    Get(u64, &'static [u32]),
    GetBoxed(u64, &'static [u32]),
    // No look finds anything.
    FindNone,
    // A look finds something.
    FindSome,
}

// A chunk in its box.
pub(crate) fn boxed<R: Abort>(
    rt: &R,
    alloc: Global,
    serial: u64,
    vertices: &[u32],
) -> Option<Box<Chunk>>
    ensures { IfSome result (λ chunk. chunk.value.vertices ≢ []) }
{
    Box::new(alloc, chunk_of(rt, 0, serial, vertices)).ok()
}

pub(crate) fn is_right<R: Wait + Abort>(
    rt: &R,
    alloc: Global,
    bag: &Bag,
    pass: &mut BagPass,
    call: Call,
) -> bool
    requires { IsPassOf bag.now pass.old }
    ensures { IsPassOf bag.now pass.new }
{
    match call {
        Call::Put(serial, vertices) => {
            bag.put(rt, pass, chunk_of(rt, 0, serial, vertices)).is_ok()
        }
        Call::PutBoxed(serial, vertices) => match boxed(rt, alloc, serial, vertices) {
            Some(chunk) => bag.put_boxed(rt, pass, chunk).is_ok(),
            None => false,
        },
        Call::Get(serial, vertices) => holds(bag.get(rt, pass), serial, vertices),
        Call::GetBoxed(serial, vertices) => {
            holds(
                bag.get_boxed(rt, pass).map(Box::into_inner),
                serial,
                vertices,
            )
        }
        Call::FindNone => {
            bag.finds_empty(pass)
                && bag.get(rt, pass).is_none()
                && bag.get_boxed(rt, pass).is_none()
        }
        Call::FindSome => !bag.finds_empty(pass),
    }
}

// Makes each call by the pass of its number, and asserts its result.
pub(crate) fn expect_calls<R: Wait + Abort>(
    rt: &R,
    alloc: Global,
    bag: &Bag,
    passes: &mut [BagPass],
    row: usize,
    calls: &[(usize, Call)],
)
    requires { All (IsPassOf bag.now) passes.old }
    ensures { All (IsPassOf bag.now) passes.new }
{
    for (at, &(number, call)) in calls.iter().enumerate() {
        let gives = number < passes.len() && is_right(rt, alloc, bag, &mut passes[number], call);
        assert!(rt; gives, "row {row}, call {at}");
    }
}

const HANDED_OVER: &[(usize, Call)] = &[
    (0, Call::Put(0, &[4, 5])),
    (0, Call::Put(1, &[6])),
    (1, Call::Get(0, &[4, 5])),
];

const TWO_PUT: &[(usize, Call)] = &[(0, Call::Put(0, &[4])), (0, Call::Put(1, &[5]))];

// One pass puts a box, the other gets it, and then neither finds anything.
const A_BOX_COMES_BACK: &[(usize, Call)] = &[
    (0, Call::PutBoxed(1, &[7])),
    (1, Call::FindSome),
    (1, Call::GetBoxed(1, &[7])),
    (0, Call::FindNone),
    (1, Call::FindNone),
];

// The workers of a bag, the calls, the number of last passes that are handed in, and what is left.
const ROWS: [(u32, &[(usize, Call)], usize, Result<&[u64], SettleFault>); 5] = [
    (2, HANDED_OVER, 2, Ok(&[1])),
    (2, HANDED_OVER, 1, Err(SettleFault::Missing)),
    (2, &[(0, Call::FindNone)], 0, Err(SettleFault::Missing)),
    (1, TWO_PUT, 1, Ok(&[0, 1])),
    (2, A_BOX_COMES_BACK, 2, Ok(&[])),
];

fn expect_row<R: Wait + Abort>(
    rt: &R,
    alloc: Global,
    row: usize,
    (workers, calls, handed, left): (u32, &[(usize, Call)], usize, Result<&[u64], SettleFault>),
) {
    assert!(rt; workers > 0);
    let (bag, mut passes) = open_bag(rt, alloc, workers);
    assert!(rt; bag.metric() == METRIC);
    expect_calls(rt, alloc, &bag, &mut passes, row, calls);
    let first = passes
        .len()
        .checked_sub(handed)
        .expect(rt, "so many passes");
    let last = passes.split_off(first).expect(rt, "memory for passes");
    expect_left(rt, row, bag.drain(rt, alloc, last), left);
}

#[test]
fn rows_of_calls(rt: HostRuntime) {
    for (row, &row_of_calls) in ROWS.iter().enumerate() {
        expect_row(&rt, rt.alloc(), row, row_of_calls);
    }
}
