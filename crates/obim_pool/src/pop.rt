//! The way of a vertex out of a bag.

ghost use Rattle.std.specs.Prelude.{◌≡◌, ◌≤◌, ◌<◌, [], length, IfNone, IfSome};
ghost use Rattle.std.specs.Bool.{OnFalse, OnTrue};
ghost use Rattle.obim_bags.specs.Logs.{IsMirrorOf, metrics_in};
ghost use Rattle.obim_pool.specs.Accounts.{Gets};
ghost use Rattle.obim_pool.specs.Orders.{IsOrder};
ghost use Rattle.obim_pool.specs.Held.{vertices_in};
ghost use Rattle.obim_pool.specs.Steps.{AreBare, Draws, FindsEmpty, OneBag};

use crate::chunk_maker::ChunkMaker;
use crate::chunks::BagChunks;
use crate::order::OwnBag;
use obim_bags::{BagLog, Mirror};
use std::sync::Wait;

/// Tells, without a wait, if a bag has nothing for the side, as most have: no chunks, and two loads.
#[inline(always)]
fn is_bare(log: &BagLog, mirror: &mut Mirror, place: usize, chunks: &BagChunks) -> bool
    requires log { IsMirrorOf log.now mirror.old }
    requires place { place < length mirror.old.accesses }
    ensures bare { OnTrue result (FindsEmpty place mirror.old chunks.now mirror.new chunks.now) }
    ensures unchanged { OnFalse result (mirror.new ≡ mirror.old) }
{
    if !chunks.are_absent() {
        return false;
    }
    log.finds_empty_at(mirror, place)
}

/// Takes a vertex out of the draining chunk, a chunk of the bag, or the filling one.
#[inline(always)]
pub(crate) fn pop_at<R: Wait>(
    rt: &R,
    log: &BagLog,
    maker: &mut ChunkMaker,
    mirror: &mut Mirror,
    place: usize,
    chunks: &mut BagChunks,
) -> Option<u32>
    requires log { IsMirrorOf log.now mirror.old }
    requires place { place < length mirror.old.accesses }
    ensures popped { IfSome result (λ v. OneBag (Gets v) place mirror.old chunks.old mirror.new chunks.new) }
    ensures none { IfNone result (FindsEmpty place mirror.old chunks.old mirror.new chunks.new) }
{
    match chunks.take_last(maker) {
        Some(v) => Some(v),
        None => refill(rt, log, maker, mirror, place, chunks),
    }
}

/// Does as `pop_at` if the draining chunk has no vertex.
#[inline(never)]
fn refill<R: Wait>(
    rt: &R,
    log: &BagLog,
    maker: &mut ChunkMaker,
    mirror: &mut Mirror,
    place: usize,
    chunks: &mut BagChunks,
) -> Option<u32>
    requires log { IsMirrorOf log.now mirror.old }
    requires place { place < length mirror.old.accesses }
    requires empty { vertices_in chunks.old.draining ≡ [] }
    ensures popped { IfSome result (λ v. OneBag (Gets v) place mirror.old chunks.old mirror.new chunks.new) }
    ensures none { IfNone result (FindsEmpty place mirror.old chunks.old mirror.new chunks.new) }
{
    match log.get_boxed_at(rt, mirror, place) {
        Some(chunk) => chunks.drain(maker, chunk),
        None => chunks.drain_filling(maker),
    }
    chunks.take_last(maker)
}

/// Returns the first bag of the order that gives a vertex, and the vertex.
pub(crate) fn scan<R: Wait>(
    rt: &R,
    log: &BagLog,
    maker: &mut ChunkMaker,
    mirror: &mut Mirror,
    chunks: &mut Vec<BagChunks>,
    order: &[OwnBag],
) -> Option<(OwnBag, u32)>
    requires log { IsMirrorOf log.now mirror.old }
    requires fits { length chunks.old.items ≤ length mirror.old.accesses }
    requires order { IsOrder order.now (length chunks.old.items) (metrics_in mirror.old.accesses) }
    ensures log { mirror.new.log ≡ mirror.old.log }
    ensures bags { metrics_in mirror.new.accesses ≡ metrics_in mirror.old.accesses }
    ensures own { length chunks.new.items ≡ length chunks.old.items }
    ensures popped { IfSome result
        (λ found. Draws found.0 found.1 order.now mirror.old chunks.old.items mirror.new chunks.new.items) }
    ensures none { IfNone result (AreBare order.now mirror.old chunks.old.items mirror.new chunks.new.items) }
{
    for at in order {
        let place = at.place;
        if is_bare(log, mirror, place, &chunks[place]) {
            continue;
        }
        match pop_at(rt, log, maker, mirror, place, &mut chunks[place]) {
            Some(v) => return Some((*at, v)),
            None => {}
        }
    }
    None
}
