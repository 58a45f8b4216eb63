//! The facts that callers of bags and logs learn, each proved from the contracts.

ghost use Rattle.std.specs.Prelude.{◌≡◌, ◌≢◌, ◌+◌, ◌<◌, ℕ, [], ◌∷◌, Some, length, slice_get};
ghost use Rattle.std.specs.Prelude.{All, IfErr, IfNone, IfOk, IfSome, OnErr};
ghost use Rattle.obim_bags.specs.declared.fault.SettleFault.TheVariants.{Memory};
ghost use Rattle.obim_bags.specs.Chunks.{ChunkSeen};
ghost use Rattle.obim_bags.specs.BagRule.{weight_of};
ghost use Rattle.obim_bags.specs.Bags.{new_pass};
ghost use Rattle.obim_bags.specs.Logs.{AccessSeen, ChangesAt, Gains, IsLogSettled, IsNew, metrics_in, new_mirror};
ghost use Rattle.obim_bags.specs.Logs.{access_after_put, access_after_get, access_after_empty_find};

use crate::bags::helpers::{chunk_of, list_of, open_log, put};
use obim_bags::{Bag, BagLog, BagPass, Chunk, LogFault, Mirror, SettleFault};
use std::alloc::Global;
use std::process::Abort;
use std::sync::Wait;

fn take_new(rt: &impl Abort, bag: &Bag, passes: &mut Vec<BagPass>) -> BagPass
    requires { All (λ pass. pass ≡ new_pass bag.now) passes.old.items }
    ensures pass { result ≡ new_pass bag.now }
    ensures rest { All (λ pass. pass ≡ new_pass bag.now) passes.new.items }
{
    let _bag = bag;
    passes.pop().expect(rt, "a pass for each worker")
}

// Two chunks are put by one pass and the other gets: what it got and what is left are these two. No pass is missing.
fn hand_over<R: Wait + Abort>(
    rt: &R,
    alloc: Global,
    first: Chunk,
    second: Chunk,
) -> Result<(Option<Chunk>, Vec<Chunk>), SettleFault>
    requires first { first.vertices ≢ [] }
    requires second { second.vertices ≢ [] }
    ensures some { IfOk result (λ done. IfSome done.0 (λ got. (weight : ChunkSeen → ℕ)
        → weight first + weight second ≡ weight got + weight_of weight done.1.items)) }
    ensures none { IfOk result (λ done. IfNone done.0 ((weight : ChunkSeen → ℕ)
        → weight first + weight second ≡ weight_of weight done.1.items)) }
    ensures none_missing { IfErr result (λ fault. fault ≡ Memory) }
{
    let (bag, mut passes) = Bag::open(rt, alloc, 3, 2)?;
    let mut puts = take_new(rt, &bag, &mut passes);
    let mut gets = take_new(rt, &bag, &mut passes);
    put(rt, &bag, &mut puts, first);
    put(rt, &bag, &mut puts, second);
    let got = bag.get(rt, &mut gets);
    let left = bag.drain(rt, alloc, list_of(rt, alloc, [puts, gets]))?;
    Ok((got, left))
}

#[test]
fn two_chunks_come_once_each(rt: HostRuntime) {
    let (first, second) = (chunk_of(&rt, 0, 0, &[4, 5]), chunk_of(&rt, 0, 1, &[6]));
    let done = hand_over(&rt, rt.alloc(), first, second);
    let (got, left) = done.expect(&rt, "both passes");
    assert!(rt; got.is_some() && left.len() == 1);
}

// A metric that is asked for twice has one place.
fn ask_twice<R: Wait>(
    rt: &R,
    alloc: Global,
    log: &BagLog,
    mirror: &mut Mirror,
    metric: u64,
) -> Result<(usize, usize), LogFault>
    requires { mirror.old.log ≡ log.now }
    ensures log { mirror.new.log ≡ log.now }
    ensures same { IfOk result (λ accesses. accesses.0 ≡ accesses.1) }
{
    let first = log.find_or_append(rt, alloc, mirror, metric)?;
    let second = log.find_or_append(rt, alloc, mirror, metric)?;
    Ok((first, second))
}

fn place_in<R: Wait + Abort>(
    rt: &R,
    alloc: Global,
    log: &BagLog,
    mirror: &mut Mirror,
    metric: u64,
) -> usize
    requires { mirror.old.log ≡ log.now }
    ensures gains { Gains mirror.old mirror.new }
    ensures place { slice_get (metrics_in mirror.new.accesses) result ≡ Some metric }
{
    let found = log.find_or_append(rt, alloc, mirror, metric);
    found.expect(rt, "the place of a bag")
}

fn drain_by<R: Wait + Abort>(
    rt: &R,
    alloc: Global,
    log: &BagLog,
    first: Mirror,
    second: Mirror,
) -> Result<Vec<Chunk>, SettleFault>
    requires first { first.log ≡ log.now }
    requires second { second.log ≡ log.now }
    ensures settled { IfOk result (λ left. IsLogSettled (first ∷ second ∷ []) left.items) }
{
    log.drain(rt, alloc, list_of(rt, alloc, [first, second]))
}

// A metric that two mirrors ask for has one place, if their log can be drained.
fn ask_by_two<R: Wait + Abort>(
    rt: &R,
    alloc: Global,
    log: &BagLog,
    mut first: Mirror,
    mut second: Mirror,
    metric: u64,
) -> Result<(usize, usize), SettleFault>
    requires first { first.log ≡ log.now }
    requires second { second.log ≡ log.now }
    ensures { IfOk result (λ accesses. accesses.0 ≡ accesses.1) }
{
    let place = place_in(rt, alloc, log, &mut first, metric);
    let other = place_in(rt, alloc, log, &mut second, metric);
    drain_by(rt, alloc, log, first, second)?;
    Ok((place, other))
}

fn open_new(rt: &impl Abort, alloc: Global) -> (BagLog, Mirror, Mirror)
    ensures first { result.1 ≡ new_mirror result.0 }
    ensures second { result.2 ≡ new_mirror result.0 }
{
    let (log, mut mirrors) = BagLog::open(alloc, 2).expect(rt, "memory for a log");
    let second = mirrors.pop().expect(rt, "two mirrors");
    let first = mirrors.pop().expect(rt, "two mirrors");
    (log, first, second)
}

#[test]
fn a_metric_has_one_place(rt: HostRuntime) {
    let alloc = rt.alloc();
    let (log, mut first, second) = open_new(&rt, alloc);
    assert!(rt; ask_twice(&rt, alloc, &log, &mut first, 9) == Ok((0, 0)));
    assert!(rt; ask_by_two(&rt, alloc, &log, first, second, 5) == Ok((1, 1)));
}

// A chunk is put and one is got at a place, and nothing else of the mirror changes. A worker that is alone finds the
// chunk that it put, if nothing was put before. A refused chunk comes back.
fn put_and_get_at<R: Wait>(
    rt: &R,
    log: &BagLog,
    mirror: &mut Mirror,
    place: usize,
    chunk: Chunk,
) -> Result<Option<Chunk>, Chunk>
    requires log { mirror.old.log ≡ log.now }
    requires place { place < length mirror.old.accesses }
    requires filled { chunk.vertices ≢ [] }
    ensures log { mirror.new.log ≡ log.now }
    ensures got { IfOk result (λ found. IfSome found (λ got.
        ChangesAt place (λ was. access_after_get got (access_after_put chunk was)) mirror.old mirror.new)) }
    ensures filled { IfOk result (λ found. IfSome found (λ got. got.vertices ≢ [])) }
    ensures none { IfOk result (λ found. IfNone found
        (ChangesAt place (λ was. access_after_empty_find (access_after_put chunk was)) mirror.old mirror.new)) }
    ensures found { (was : AccessSeen) → slice_get mirror.old.accesses place ≡ Some was → IsNew was
        → was.bag.workers ≡ 1 → IfOk result (λ found. IfNone found ⊥) }
    ensures returned { IfErr result (λ back. back ≡ chunk) }
    ensures refused { OnErr result (mirror.new ≡ mirror.old) }
{
    log.put_at(rt, mirror, place, chunk)?;
    Ok(log.get_at(rt, mirror, place))
}

// Nothing is left in a log into which nothing was put.
fn drain_unused<R: Wait + Abort>(
    rt: &R,
    alloc: Global,
    log: &BagLog,
    mut first: Mirror,
    second: Mirror,
    metric: u64,
) -> Result<Vec<Chunk>, SettleFault>
    requires first { first ≡ new_mirror log.now }
    requires second { second ≡ new_mirror log.now }
    ensures { IfOk result (λ left. left.items ≡ []) }
{
    place_in(rt, alloc, log, &mut first, metric);
    let left = drain_by(rt, alloc, log, first, second)?;
    Ok(left)
}

fn expect_back<R: Wait + Abort>(
    rt: &R,
    alloc: Global,
    log: &BagLog,
    mirror: &mut Mirror,
    chunk: Chunk,
)
    requires log { mirror.old.log ≡ log.now }
    requires filled { chunk.vertices ≢ [] }
{
    let place = place_in(rt, alloc, log, mirror, 9);
    let found = put_and_get_at(rt, log, mirror, place, chunk);
    assert!(rt; matches!(found, Ok(Some(_))));
}

#[test]
fn what_is_put_at_a_place(rt: HostRuntime) {
    let (log, mut mirrors) = open_log(&rt, rt.alloc(), 1);
    assert!(rt; mirrors.len() == 1);
    let chunk = chunk_of(&rt, 0, 0, &[4, 5]);
    expect_back(&rt, rt.alloc(), &log, &mut mirrors[0], chunk);
}

fn expect_none(rt: &impl Abort, left: Result<Vec<Chunk>, SettleFault>) {
    assert!(rt; left.expect(rt, "both mirrors").is_empty());
}

#[test]
fn what_is_left_of_nothing(rt: HostRuntime) {
    let alloc = rt.alloc();
    let (log, first, second) = open_new(&rt, alloc);
    expect_none(&rt, drain_unused(&rt, alloc, &log, first, second, 9));
}
