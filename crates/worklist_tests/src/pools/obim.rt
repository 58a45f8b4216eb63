//! Pools of bags: the order of vertices, and what is left.

ghost use Rattle.std.specs.Prelude.{◌≡◌, ◌≤◌, All, vec_len};
ghost use Rattle.obim_bags.specs.declared.chunk.TheConstants.{MAX_SIZE};
ghost use Rattle.obim_pool.specs.Sides.{IsSideOf};

use crate::pools::calls::{Call, expect_calls};
use obim_bags::{Chunk, ChunkId, MAX_SIZE, SettleFault};
use obim_pool::{ObimPool, ObimSide};
use std::alloc::Global;
use std::process::Abort;
use std::sync::Wait;

pub(crate) const PUSHES: Call = Call::Push(&[(10, 3), (11, 1), (12, 3), (13, 1)]);

// The pops after them.
pub(crate) const POPS: Call = Call::Pop(&[Some(13), Some(11), Some(12), Some(10), None]);

const NONE: Call = Call::Pop(&[None]);

// The lowest metric comes first, and the last vertex of a chunk.
const IN_ORDER: &[(usize, Call)] = &[(0, PUSHES), (0, POPS)];

// Looking ahead ends with the chunk that is drained.
const AHEAD: &[(usize, Call)] = &[
    (0, Call::Ahead(1, None)),
    (0, Call::Push(&[(4, 1), (5, 1), (6, 1), (7, 1)])),
    (0, Call::Ahead(1, None)),
    (0, Call::Pop(&[Some(6)])),
    (0, Call::Ahead(1, Some(5))),
    (0, Call::Ahead(2, Some(4))),
    (0, Call::Ahead(3, None)),
    (0, Call::Pop(&[Some(5), Some(4), Some(7), None])),
    (0, Call::Ahead(1, None)),
];

// One side pushes, the other pops.
const HANDED_OVER: &[(usize, Call)] = &[
    (0, Call::Push(&[(7, 0)])),
    (1, Call::Pop(&[Some(7)])),
    (0, NONE),
];

// A vertex lies in a bag that no side handed in knows.
const UNKNOWN: &[(usize, Call)] = &[(1, Call::Push(&[(7, 0)]))];

const A_LOWER_METRIC_COMES_NEXT: &[(usize, Call)] = &[
    (0, Call::Push(&[(50, 5), (20, 2), (21, 2)])),
    (0, Call::Pop(&[Some(21)])),
    (0, Call::Push(&[(70, 7), (22, 2)])),
    (0, Call::Pop(&[Some(20), Some(22), Some(50)])),
    (0, Call::Push(&[(40, 4), (30, 3), (90, 9)])),
    (
        0,
        Call::Pop(&[Some(30), Some(40), Some(70), Some(90), None]),
    ),
];

// A side goes on with its current bag, and learns of lower ones when that is empty.
const AFTER_AN_EMPTY_BAG_COMES_THE_LOWEST: &[(usize, Call)] = &[
    (0, Call::Push(&[(50, 5), (51, 5), (90, 9)])),
    (1, Call::Push(&[(20, 2), (70, 7)])),
    (0, Call::Pop(&[Some(50), Some(51), Some(20)])),
    (0, Call::Pop(&[Some(70), Some(90), None])),
    (1, NONE),
];

// A prime: multiples of a smaller number, modulo this, are each of the lower numbers once.
const METRICS: u32 = 1009;

const BY_METRIC: (usize, Call) = (0, Call::PopRising(0, METRICS));

const RISING: &[(usize, Call)] = &[(0, Call::PushAll(METRICS, 1, 1)), BY_METRIC, (0, NONE)];

const FALLING: &[(usize, Call)] = &[
    (0, Call::PushAll(METRICS, METRICS - 1, 1)),
    BY_METRIC,
    (0, NONE),
];

// At the second pushes all bags are there, and empty.
const SCRAMBLED: &[(usize, Call)] = &[
    (0, Call::PushAll(METRICS, 389, 1)),
    BY_METRIC,
    (0, Call::PushAll(METRICS, 601, 1)),
    BY_METRIC,
    (0, NONE),
];

// Of a bag the first chunk comes first.
const CHUNKS_OF_A_BAG: &[(usize, Call)] = &[
    (0, Call::PushAll(40, 1, 0)),
    (0, Call::PopFalling(0, 16)),
    (0, Call::PopFalling(16, 32)),
    (0, Call::PopFalling(32, 40)),
    (0, NONE),
];

// A side is more bags behind than a mirror claims at a time.
const MANY_BAGS_BEHIND: &[(usize, Call)] = &[
    (0, Call::PushAll(100, 1, 1 << 57)),
    (1, Call::PopRising(0, 100)),
    (1, NONE),
];

const MANY_BAGS: &[(usize, Call)] = &[
    (0, Call::PushAll(3_000, 1, 3)),
    (0, Call::PopRising(0, 3_000)),
    (0, NONE),
];

const TIMES: u32 = 1_100_000;

// Chunks are named by side and serial, also in used boxes.
const NAMED: &[(usize, Call)] = &[
    (0, Call::PushAndPop(TIMES)),
    (0, Call::Push(&[(8, 7)])),
    (1, Call::Push(&[(9, 7)])),
];

const MANY_CHUNKS: &[(usize, Call)] = &[(0, Call::PushAll(110_000, 1, 0))];

// What a settled pool gives.
#[derive(Clone, Copy)]
pub(crate) enum Left {
    // So many chunks.
    Count(usize),
    // Chunks of these workers, serials and vertices.
    Chunks(&'static [(u32, u64, &'static [u32])]),
    // Nothing: the last side is withheld.
    Missing,
}

// The full chunks that are left of the first pushes.
pub(crate) const LEFT: Left = Left::Chunks(&[(0, 0, &[10, 12]), (0, 1, &[11, 13])]);

// The workers of a pool, the size of chunks, the calls and what is left.
const ROWS: [(u32, usize, &[(usize, Call)], Left); 16] = [
    (1, 2, IN_ORDER, Left::Count(0)),
    (1, 3, AHEAD, Left::Count(0)),
    (1, 2, &[(0, PUSHES)], LEFT),
    // What a side still holds is dropped.
    (1, 256, &[(0, PUSHES)], Left::Count(0)),
    (2, 1, HANDED_OVER, Left::Count(0)),
    (2, 1, HANDED_OVER, Left::Missing),
    (2, 1, UNKNOWN, Left::Missing),
    (1, 16, A_LOWER_METRIC_COMES_NEXT, Left::Count(0)),
    (2, 1, AFTER_AN_EMPTY_BAG_COMES_THE_LOWEST, Left::Count(0)),
    (1, 16, RISING, Left::Count(0)),
    (1, 16, FALLING, Left::Count(0)),
    (1, 16, SCRAMBLED, Left::Count(0)),
    (1, 16, CHUNKS_OF_A_BAG, Left::Count(0)),
    (2, 1, MANY_BAGS_BEHIND, Left::Count(0)),
    (1, 1, MANY_BAGS, Left::Count(0)),
    (1, 1, MANY_CHUNKS, Left::Count(110_000)),
];

pub(crate) fn open_pool<R: Abort>(
    rt: &R,
    alloc: Global,
    workers: u32,
    chunk: usize,
) -> (ObimPool, Vec<ObimSide>)
    ensures { All (IsSideOf result.0) result.1.items }
{
    assert!(rt; workers > 0 && chunk > 0 && chunk <= MAX_SIZE);
    ObimPool::open(alloc, workers, chunk).expect(rt, "memory for a pool")
}

fn is_chunk(mut chunk: Chunk, (worker, serial, vertices): (u32, u64, &[u32])) -> bool {
    for &v in vertices.iter().rev() {
        if chunk.pop() != Some(v) {
            return false;
        }
    }
    chunk.id() == ChunkId { worker, serial } && chunk.len() == 0
}

fn are_chunks(left: &mut Vec<Chunk>, wants: &[(u32, u64, &[u32])]) -> bool {
    for &want in wants.iter().rev() {
        let right = left.pop().is_some_and(|chunk| is_chunk(chunk, want));
        if !right {
            return false;
        }
    }
    left.is_empty()
}

pub(crate) fn expect_left<R: Abort>(
    rt: &R,
    row: usize,
    settled: Result<Vec<Chunk>, SettleFault>,
    want: Left,
) {
    let right = match (settled, want) {
        (Err(SettleFault::Missing), Left::Missing) => true,
        (Ok(left), Left::Count(count)) => left.len() == count,
        (Ok(mut left), Left::Chunks(wants)) => are_chunks(&mut left, wants),
        _ => false,
    };
    assert!(rt; right, "row {row}");
}

fn expect_row<R: Wait + Abort>(
    rt: &R,
    alloc: Global,
    row: usize,
    (workers, chunk, calls, left): (u32, usize, &[(usize, Call)], Left),
) {
    let (pool, mut sides) = open_pool(rt, alloc, workers, chunk);
    expect_calls(rt, &pool, &mut sides, row, calls);
    if let Left::Missing = left {
        sides.pop();
    }
    expect_left(rt, row, pool.settle(rt, alloc, sides), left);
}

#[test]
fn rows_of_calls(rt: HostRuntime) {
    for (row, &row_of_calls) in ROWS.iter().enumerate() {
        expect_row(&rt, rt.alloc(), row, row_of_calls);
    }
}

#[test]
fn chunks_are_named_in_turn(rt: HostRuntime) {
    let left = Left::Chunks(&[(0, TIMES as u64, &[8]), (1, 0, &[9])]);
    expect_row(&rt, rt.alloc(), 0, (2, 1, NAMED, left));
}
