//! The way of a vertex into a bag.

ghost use Rattle.std.specs.Prelude.{◌≡◌, ◌<◌, [], ◌∷◌, length};
ghost use Rattle.std.specs.Bool.{OnFalse, OnTrue};
ghost use Rattle.obim_bags.specs.Logs.{IsMirrorOf};
ghost use Rattle.obim_pool.specs.Accounts.{Puts};
ghost use Rattle.obim_pool.specs.Held.{held_of};
ghost use Rattle.obim_pool.specs.Steps.{OneBag};

use crate::chunk_maker::ChunkMaker;
use crate::chunks::BagChunks;
use obim_bags::{BagLog, Mirror};
use std::sync::Wait;

/// Puts `v` into the bag at a place. Returns false if memory or a serial was refused.
pub(crate) fn push_at<R: Wait>(
    rt: &R,
    log: &BagLog,
    maker: &mut ChunkMaker,
    mirror: &mut Mirror,
    place: usize,
    chunks: &mut BagChunks,
    v: u32,
) -> bool
    requires log { IsMirrorOf log.now mirror.old }
    requires place { place < length mirror.old.accesses }
    ensures pushed { OnTrue result (OneBag (Puts (v ∷ [])) place mirror.old chunks.old mirror.new chunks.new) }
    ensures refused { OnFalse result (OneBag (Puts []) place mirror.old chunks.old mirror.new chunks.new) }
{
    start_chunk(rt, log, maker, mirror, place, chunks);
    if !chunks.add(v) {
        return false;
    }
    if chunks.filled() == maker.size() {
        put_filling(rt, log, mirror, place, chunks);
    }
    true
}

/// Opens a filling chunk if it is absent, or puts it first if it is full. What is refused stays.
fn start_chunk<R: Wait>(
    rt: &R,
    log: &BagLog,
    maker: &mut ChunkMaker,
    mirror: &mut Mirror,
    place: usize,
    chunks: &mut BagChunks,
)
    requires log { IsMirrorOf log.now mirror.old }
    requires place { place < length mirror.old.accesses }
    ensures { OneBag (Puts []) place mirror.old chunks.old mirror.new chunks.new }
{
    if chunks.has_room(maker.size()) {
        return;
    }
    put_filling(rt, log, mirror, place, chunks);
    open(maker, chunks);
}

fn open(maker: &mut ChunkMaker, chunks: &mut BagChunks)
    ensures { held_of chunks.new ≡ held_of chunks.old }
{
    if chunks.filling.is_none() {
        chunks.filling = maker.open();
    }
}

/// Puts the filling chunk into the bag, if it has a vertex. If that is refused, it stays.
#[inline(never)]
fn put_filling<R: Wait>(
    rt: &R,
    log: &BagLog,
    mirror: &mut Mirror,
    place: usize,
    chunks: &mut BagChunks,
)
    requires log { IsMirrorOf log.now mirror.old }
    requires place { place < length mirror.old.accesses }
    ensures { OneBag (Puts []) place mirror.old chunks.old mirror.new chunks.new }
{
    let Some(chunk) = chunks.filling.take() else {
        return;
    };
    if chunk.len() == 0 {
        chunks.filling = Some(chunk);
        return;
    }
    match log.put_boxed_at(rt, mirror, place, chunk) {
        Ok(()) => chunks.waiting = chunks.waiting.saturating_add(1),
        Err(back) => chunks.filling = Some(back),
    }
}
