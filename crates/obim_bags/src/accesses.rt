//! A mirror's accesses to bags, and an index of their metrics.

ghost use Rattle.std.specs.Prelude.{◌≡◌, ◌≢◌, ◌≤◌, ◌<◌, [], Some, length, slice_get};
ghost use Rattle.std.specs.Prelude.{IfErr, IfNone, IfOk, IfSome, OnErr, OnOk};
ghost use Rattle.std.specs.Bool.{OnFalse, OnTrue};
ghost use mathlib.Core.List.{IsPrefix};
ghost use Rattle.obim_bags.specs.Indexes.{AreDistinct, IsAlone, Lacks};
ghost use Rattle.obim_bags.specs.Logs.{ChangesAccess, WasEmptyIfAloneIn, bags_in, metrics_in, metrics_of};
ghost use Rattle.obim_bags.specs.Logs.{access_after_put, access_after_get, access_after_empty_find};
ghost use Rattle.obim_bags.specs.Entries.{bags_of, HasAccessesFrom};
ghost use Rattle.obim_bags.specs.Accesses.{AreGained};

use crate::access::Access;
use crate::chunk::Chunk;
use crate::entries::Entries;
use crate::fault::LogFault;
use crate::index::Index;
use route_walks::Memory;
use std::alloc::Global;
use std::marker::Model;
use std::sync::Wait;

/// A worker's accesses, and an index that may be ahead of them: a refused growth needs no way back.
#[derive(Drop)]
pub(crate) struct Accesses {
    worker: u32,
    pub(crate) list: Vec<Access>,
    index: Index,
}

impl Model for Accesses {
    ghost use mathlib.Core.List.{IsPrefix};
    ghost use Rattle.obim_bags.specs.Logs.{metrics_in};
    ghost use Rattle.obim_bags.specs.Accesses.{AccessesSeen};

    ghost Value = { AccessesSeen };

    ghost view = { λ p. record { list = p.list.items; index = p.index } };

    ghost invariant = { λ p. IsPrefix (metrics_in p.list.items) p.index };
}

impl Accesses {
    pub(crate) fn new(alloc: Global, worker: u32) -> Accesses
        ensures { result ≡ record { list = []; index = [] } }
    {
        Accesses {
            worker,
            list: Vec::new(alloc),
            index: Index::new(alloc),
        }
    }

    pub(crate) fn len(&self) -> usize
        ensures { result ≡ length self.now.list }
    {
        self.list.len()
    }

    #[inline(always)]
    pub(crate) fn place_of(&self, metric: u64) -> Option<usize>
        ensures at { IfSome result (λ place. IsAlone metric place (metrics_in self.now.list)) }
        ensures none { IfNone result (Lacks metric (metrics_in self.now.list)) }
    {
        match self.index.place_of(metric) {
            Some(place) if place < self.list.len() => Some(place),
            _ => None,
        }
    }

    pub(crate) fn metric_at(&self, place: usize) -> u64
        requires { place < length self.now.list }
        ensures { slice_get (metrics_in self.now.list) place ≡ Some result }
    {
        self.index.metric_at(place)
    }

    pub(crate) fn empty_finds_at(&self, place: usize) -> u64
        requires { place < length self.now.list }
        ensures { IfSome (slice_get self.now.list place) (λ seen. seen.pass.empties ≡ result) }
    {
        self.list[place].empty_finds()
    }

    /// The place of the metric's bag, which is appended if it is missing.
    pub(crate) fn find_or_append<R: Wait>(
        &mut self,
        rt: &R,
        alloc: Global,
        entries: &mut Entries,
        metric: u64,
        workers: u32,
    ) -> Result<usize, LogFault>
        requires workers { 1 ≤ workers }
        requires list { IsPrefix (bags_in self.old.list) (bags_of entries.old) }
        requires index { IsPrefix self.old.index (metrics_of (bags_of entries.old)) }
        ensures entries { IsPrefix (bags_of entries.old) (bags_of entries.new) }
        ensures index { IsPrefix self.new.index (metrics_of (bags_of entries.new)) }
        ensures gained { OnOk result (AreGained self.old.list self.new.list) }
        ensures bags { OnOk result (bags_in self.new.list ≡ bags_of entries.new) }
        ensures distinct { AreDistinct (metrics_of (bags_of entries.new)) }
        ensures place { IfOk result (λ place. slice_get (metrics_in self.new.list) place ≡ Some metric) }
        ensures refused { OnErr result (self.new.list ≡ self.old.list) }
    {
        let place = locate(rt, alloc, &mut self.index, entries, metric, workers)?;
        claim(&mut self.list, self.worker, entries)?;
        Ok(place)
    }

    pub(crate) fn catch_up(&mut self, entries: &mut Entries) -> Result<usize, LogFault>
        requires list { IsPrefix (bags_in self.old.list) (bags_of entries.old) }
        requires index { IsPrefix self.old.index (metrics_of (bags_of entries.old)) }
        ensures entries { bags_of entries.new ≡ bags_of entries.old }
        ensures index { IsPrefix self.new.index (metrics_of (bags_of entries.new)) }
        ensures gained { OnOk result (AreGained self.old.list self.new.list) }
        ensures bags { OnOk result (bags_in self.new.list ≡ bags_of entries.new) }
        ensures distinct { AreDistinct (metrics_of (bags_of entries.new)) }
        ensures len { IfOk result (λ len. len ≡ length self.new.list) }
        ensures refused { OnErr result (self.new.list ≡ self.old.list) }
    {
        learn(&mut self.index, entries)?;
        claim(&mut self.list, self.worker, entries)?;
        Ok(self.list.len())
    }

    #[inline(always)]
    pub(crate) fn put_boxed<R: Wait>(
        &mut self,
        rt: &R,
        place: usize,
        chunk: Box<Chunk>,
    ) -> Result<(), Box<Chunk>>
        requires place { place < length self.old.list }
        requires filled { chunk.value.vertices ≢ [] }
        ensures put { OnOk result (ChangesAccess place (access_after_put chunk.value) self.old.list self.new.list) }
        ensures returned { IfErr result (λ back. back ≡ chunk) }
        ensures refused { OnErr result (self.new.list ≡ self.old.list) }
        ensures bags { bags_in self.new.list ≡ bags_in self.old.list }
        ensures index { self.new.index ≡ self.old.index }
    {
        self.list[place].put_boxed(rt, chunk)
    }

    #[inline(always)]
    pub(crate) fn get_boxed<R: Wait>(&mut self, rt: &R, place: usize) -> Option<Box<Chunk>>
        requires { place < length self.old.list }
        ensures got { IfSome result (λ chunk.
            ChangesAccess place (access_after_get chunk.value) self.old.list self.new.list) }
        ensures filled { IfSome result (λ chunk. chunk.value.vertices ≢ []) }
        ensures found_empty { IfNone result (ChangesAccess place access_after_empty_find self.old.list self.new.list) }
        ensures alone { IfNone result (WasEmptyIfAloneIn place self.old.list) }
        ensures bags { bags_in self.new.list ≡ bags_in self.old.list }
        ensures index { self.new.index ≡ self.old.index }
    {
        self.list[place].get_boxed(rt)
    }

    #[inline(always)]
    pub(crate) fn finds_empty(&mut self, place: usize) -> bool
        requires { place < length self.old.list }
        ensures found_empty { OnTrue result (ChangesAccess place access_after_empty_find self.old.list self.new.list) }
        ensures alone { OnTrue result (WasEmptyIfAloneIn place self.old.list) }
        ensures unchanged { OnFalse result (self.new ≡ self.old) }
        ensures index { self.new.index ≡ self.old.index }
        ensures bags { bags_in self.new.list ≡ bags_in self.old.list }
    {
        self.list[place].finds_empty()
    }
}

// The place of the metric's entry, which is appended if it is missing. The index learns all metrics.
fn locate<R: Wait>(
    rt: &R,
    alloc: Global,
    index: &mut Index,
    entries: &mut Entries,
    metric: u64,
    workers: u32,
) -> Result<usize, LogFault>
    requires workers { 1 ≤ workers }
    requires index { IsPrefix index.old (metrics_of (bags_of entries.old)) }
    ensures entries { IsPrefix (bags_of entries.old) (bags_of entries.new) }
    ensures grown { IsPrefix index.old index.new }
    ensures some { IsPrefix index.new (metrics_of (bags_of entries.new)) }
    ensures all { OnOk result (index.new ≡ metrics_of (bags_of entries.new)) }
    ensures distinct { AreDistinct (metrics_of (bags_of entries.new)) }
    ensures place { IfOk result (λ place. slice_get index.new place ≡ Some metric) }
{
    learn(index, entries)?;
    if let Some(place) = index.place_of(metric) {
        return Ok(place);
    }
    let place = index.len();
    entries.append(rt, alloc, metric, workers)?;
    learn(index, entries)?;
    Ok(place)
}

// The index learns the metrics of the entries that it lacks.
fn learn(index: &mut Index, entries: &Entries) -> Result<(), Memory>
    requires { IsPrefix index.old (metrics_of (bags_of entries.now)) }
    ensures grown { IsPrefix index.old index.new }
    ensures some { IsPrefix index.new (metrics_of (bags_of entries.now)) }
    ensures all { OnOk result (index.new ≡ metrics_of (bags_of entries.now)) }
    ensures distinct { AreDistinct (metrics_of (bags_of entries.now)) }
{
    while index.len() < entries.len() {
        index.push(entries.metric_at(index.len()))?;
    }
    Ok(())
}

// Claims the worker's place of each entry that the list lacks: all are there and have room before one moves.
fn claim(list: &mut Vec<Access>, worker: u32, entries: &mut Entries) -> Result<(), LogFault>
    requires { IsPrefix (bags_in list.old.items) (bags_of entries.old) }
    ensures entries { bags_of entries.new ≡ bags_of entries.old }
    ensures gained { OnOk result (AreGained list.old.items list.new.items) }
    ensures bags { OnOk result (bags_in list.new.items ≡ bags_of entries.new) }
    ensures distinct { AreDistinct (metrics_of (bags_of entries.new)) }
    ensures refused { OnErr result (list.new.items ≡ list.old.items) }
{
    let count = entries.len();
    if !entries.has_from(worker, list.len()) {
        return Err(LogFault::Taken);
    }
    list.reserve(count - list.len())?;
    claim_rest(list, worker, entries);
    Ok(())
}

// Claims the accesses that are there, and for which there is room.
fn claim_rest(list: &mut Vec<Access>, worker: u32, entries: &mut Entries)
    requires list { IsPrefix (bags_in list.old.items) (bags_of entries.old) }
    requires there { HasAccessesFrom worker (length list.old.items) entries.old }
    requires room { length entries.old.list ≤ list.old.cap }
    ensures entries { bags_of entries.new ≡ bags_of entries.old }
    ensures gained { AreGained list.old.items list.new.items }
    ensures bags { bags_in list.new.items ≡ bags_of entries.new }
{
    while list.len() < entries.len() {
        let Some(place) = entries.claim_at(worker, list.len()) else {
            unreachable!()
        };
        list.push_reserved(place);
    }
}
