//! Bags and logs with their passes and mirrors, and chunks of size 2.

ghost use Rattle.std.specs.Prelude.{◌≡◌, ◌≢◌, ◌≤◌, [], All, IfSome};
ghost use Rattle.obim_bags.specs.Bags.{IsPassOf, after_put};
ghost use Rattle.obim_bags.specs.Logs.{IsMirrorOf};

use obim_bags::{Bag, BagLog, BagPass, Chunk, ChunkId, LogFault, Mirror, SettleFault};
use std::alloc::Global;
use std::process::Abort;
use std::sync::Wait;

pub(crate) const METRIC: u64 = 3;

pub(crate) fn open_bag<R: Wait + Abort>(rt: &R, alloc: Global, workers: u32) -> (Bag, Vec<BagPass>)
    requires { 1 ≤ workers }
    ensures { All (IsPassOf result.0) result.1.items }
{
    Bag::open(rt, alloc, METRIC, workers).expect(rt, "memory for a bag")
}

pub(crate) fn take_pass<R: Abort>(rt: &R, bag: &Bag, passes: &mut Vec<BagPass>) -> BagPass
    requires { All (IsPassOf bag.now) passes.old.items }
    ensures pass { IsPassOf bag.now result }
    ensures rest { All (IsPassOf bag.now) passes.new.items }
{
    let _bag = bag;
    passes.pop().expect(rt, "a pass for each worker")
}

pub(crate) fn open_two<R: Wait + Abort>(rt: &R, alloc: Global) -> (Bag, BagPass, BagPass)
    ensures first { IsPassOf result.0 result.1 }
    ensures second { IsPassOf result.0 result.2 }
{
    let (bag, mut passes) = open_bag(rt, alloc, 2);
    let second = take_pass(rt, &bag, &mut passes);
    let first = take_pass(rt, &bag, &mut passes);
    (bag, first, second)
}

pub(crate) fn list_of<T: Drop, const N: usize>(
    rt: &impl Abort,
    alloc: Global,
    items: [T; N],
) -> Vec<T>
    ensures { result.items ≡ items }
{
    Vec::from_array(alloc, items).expect(rt, "memory for a list")
}

pub(crate) fn chunk_of<R: Abort>(rt: &R, worker: u32, serial: u64, vertices: &[u32]) -> Chunk
    ensures { result.vertices ≢ [] }
{
    let mut chunk = Chunk::new(ChunkId { worker, serial }, 2);
    for &v in vertices {
        assert!(rt; chunk.push(v).is_ok());
    }
    assert!(rt; chunk.len() > 0);
    chunk
}

pub(crate) fn put<R: Wait + Abort>(rt: &R, bag: &Bag, pass: &mut BagPass, chunk: Chunk)
    requires pass { IsPassOf bag.now pass.old }
    requires filled { chunk.vertices ≢ [] }
    ensures pass { IsPassOf bag.now pass.new }
    ensures put { pass.new ≡ after_put chunk pass.old }
{
    assert!(rt; bag.put(rt, pass, chunk).is_ok());
}

// Tells if it is worker 0's chunk of this serial, with these vertices.
pub(crate) fn holds(chunk: Option<Chunk>, serial: u64, vertices: &[u32]) -> bool {
    let Some(mut chunk) = chunk else {
        return false;
    };
    for &v in vertices.iter().rev() {
        if chunk.pop() != Some(v) {
            return false;
        }
    }
    chunk.id() == ChunkId { worker: 0, serial } && chunk.pop().is_none()
}

fn are_serials(left: &[Chunk], serials: &[u64]) -> bool {
    for (chunk, &serial) in left.iter().zip(serials) {
        if chunk.id() != (ChunkId { worker: 0, serial }) {
            return false;
        }
    }
    left.len() == serials.len()
}

// Asserts that a drained bag or log gives chunks of these serials, or this fault.
pub(crate) fn expect_left(
    rt: &impl Abort,
    row: usize,
    drained: Result<Vec<Chunk>, SettleFault>,
    want: Result<&[u64], SettleFault>,
) {
    let right = match (drained, want) {
        (Ok(left), Ok(serials)) => are_serials(&left, serials),
        (Err(fault), Err(other)) => fault == other,
        _ => false,
    };
    assert!(rt; right, "row {row}");
}

pub(crate) fn open_log(rt: &impl Abort, alloc: Global, workers: u32) -> (BagLog, Vec<Mirror>)
    requires { 1 ≤ workers }
    ensures { All (IsMirrorOf result.0) result.1.items }
{
    BagLog::open(alloc, workers).expect(rt, "memory for a log")
}

pub(crate) fn take_mirror<R: Abort>(rt: &R, log: &BagLog, mirrors: &mut Vec<Mirror>) -> Mirror
    requires { All (IsMirrorOf log.now) mirrors.old.items }
    ensures mirror { IsMirrorOf log.now result }
    ensures rest { All (IsMirrorOf log.now) mirrors.new.items }
{
    let _log = log;
    mirrors.pop().expect(rt, "a mirror for each worker")
}

pub(crate) fn put_by_metric<R: Wait + Abort>(
    rt: &R,
    alloc: Global,
    log: &BagLog,
    mirror: &mut Mirror,
    metric: u64,
    chunk: Chunk,
)
    requires log { mirror.old.log ≡ log.now }
    requires filled { chunk.vertices ≢ [] }
    ensures { mirror.new.log ≡ log.now }
{
    let found = log.find_or_append(rt, alloc, mirror, metric);
    let place = found.expect(rt, "the place of a bag");
    assert!(rt; place < mirror.len());
    assert!(rt; log.put_at(rt, mirror, place, chunk).is_ok());
}
