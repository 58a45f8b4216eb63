//! The log of bags.

ghost use Rattle.std.specs.Prelude.{◌≡◌, ◌≢◌, ◌≤◌, ◌<◌, [], ◌∷◌, Some, length, replicate, slice_get};
ghost use Rattle.std.specs.Prelude.{IfErr, IfNone, IfOk, IfSome, OnErr, OnOk};
ghost use Rattle.std.specs.Prelude.{true};
ghost use Rattle.std.specs.Bool.{OnFalse, OnTrue};
ghost use mathlib.Core.List.{IsPrefix};
ghost use Rattle.obim_bags.specs.Bags.{after_put};
ghost use Rattle.obim_bags.specs.Entries.{bags_of};
ghost use Rattle.obim_bags.specs.LogRule.{IsWithin, HoldsSlot, with_slot, without_slot};
ghost use Rattle.obim_bags.specs.Logs.{Gains, ChangesAt, WasEmptyIfAloneAt, metrics_in, new_mirror};
ghost use Rattle.obim_bags.specs.Logs.{access_after_put, access_after_get, access_after_empty_find};

use crate::accesses::Accesses;
use crate::chunk::Chunk;
use crate::entries::Entries;
use crate::fault::LogFault;
use crate::log_rule::{Acquires, LogSeat, LogTable, OpensSeat, Releases};
use crate::mirror::Mirror;
use crossbeam_utils::Backoff;
use route_walks::Memory;
use std::alloc::Global;
use std::fmt;
use std::marker::Model;
use std::sync::Wait;

// The one word of the table is 1 while a seat holds its one slot.
const LOCK_WORD: usize = 0;

const ENTRIES_SLOT: usize = 0;

/// A log of bags, one for each metric that was asked for. Threads share it through a `&`, each with its mirror.
#[derive(Drop)]
pub struct BagLog {
    pub(crate) workers: u32,
    pub(crate) alloc: Global,
    pub(crate) table: LogTable,
}

impl Model for BagLog {
    ghost use Rattle.std.specs.Prelude.{◌≡◌, ◌≤◌};
    ghost use Rattle.atomic_table.specs.Seated.{TableId};

    ghost Value = { TableId };

    ghost view = { λ l. l.table.shared.table_id };

    ghost invariant = { λ l. (1 ≤ l.workers) × (l.table.shared.table_id.words ≡ 1)
        × (l.table.shared.table_id.slots ≡ 1) };
}

impl fmt::Debug for BagLog {
    fn fmt<W: fmt::Write>(&self, f: &mut fmt::Formatter<W>) -> fmt::Result {
        f.debug_struct("BagLog")
            .field("workers", &self.workers)
            .finish_non_exhaustive()
    }
}

impl BagLog {
    /// A log without bags, and an empty mirror for each worker.
    pub fn open(alloc: Global, workers: u32) -> Result<(BagLog, Vec<Mirror>), Memory>
        requires { 1 ≤ workers }
        ensures { IfOk result (λ opened. opened.1.items ≡ replicate workers (new_mirror opened.0)) }
    {
        let mut mirrors = Vec::with_capacity(alloc, workers as usize)?;
        let slots = vec![in alloc; Entries::none(alloc)]?;
        let Ok((table, seat)) = LogTable::new(alloc, &[0], slots, &()) else {
            return Err(Memory);
        };
        mirrors.push_reserved(Mirror {
            seat,
            accesses: Accesses::new(alloc, 0),
        });
        for worker in 1..workers {
            let (_, seat) = table.shared.load_new_seat::<OpensSeat>(LOCK_WORD);
            mirrors.push_reserved(Mirror {
                seat,
                accesses: Accesses::new(alloc, worker),
            });
        }
        let log = BagLog {
            workers,
            alloc,
            table,
        };
        Ok((log, mirrors))
    }

    /// The place of the metric's bag. If the mirror has it, there is no wait. Otherwise the mirror catches up, and a
    /// missing bag is appended. It is refused without memory, or once a drain took this worker's passes.
    pub fn find_or_append<R: Wait>(
        &self,
        rt: &R,
        alloc: Global,
        mirror: &mut Mirror,
        metric: u64,
    ) -> Result<usize, LogFault>
        requires { mirror.old.log ≡ self.now }
        ensures gains { OnOk result (Gains mirror.old mirror.new) }
        ensures place { IfOk result (λ place. slice_get (metrics_in mirror.new.accesses) place ≡ Some metric) }
        ensures refused { OnErr result (mirror.new ≡ mirror.old) }
    {
        if let Some(place) = mirror.place_of(metric) {
            return Ok(place);
        }
        let mut entries = self.take(rt, &mut mirror.seat);
        let found = mirror
            .accesses
            .find_or_append(rt, alloc, &mut entries, metric, self.workers);
        self.give(&mut mirror.seat, entries);
        found
    }

    /// Gains what others appended, and returns the number of bags of the mirror.
    pub fn catch_up<R: Wait>(
        &self,
        rt: &R,
        _alloc: Global,
        mirror: &mut Mirror,
    ) -> Result<usize, LogFault>
        requires { mirror.old.log ≡ self.now }
        ensures gains { OnOk result (Gains mirror.old mirror.new) }
        ensures len { IfOk result (λ len. len ≡ length mirror.new.accesses) }
        ensures refused { OnErr result (mirror.new ≡ mirror.old) }
    {
        let mut entries = self.take(rt, &mut mirror.seat);
        let caught = mirror.accesses.catch_up(&mut entries);
        self.give(&mut mirror.seat, entries);
        caught
    }

    /// Does as `Bag::put` on the bag at a place.
    pub fn put_at<R: Wait>(
        &self,
        rt: &R,
        mirror: &mut Mirror,
        place: usize,
        chunk: Chunk,
    ) -> Result<(), Chunk>
        requires log { mirror.old.log ≡ self.now }
        requires place { place < length mirror.old.accesses }
        requires filled { chunk.vertices ≢ [] }
        ensures put { OnOk result (ChangesAt place (access_after_put chunk) mirror.old mirror.new) }
        ensures returned { IfErr result (λ back. back ≡ chunk) }
        ensures refused { OnErr result (mirror.new ≡ mirror.old) }
    {
        match Box::new(self.alloc, chunk) {
            Ok(boxed) => match self.put_boxed_at(rt, mirror, place, boxed) {
                Ok(()) => Ok(()),
                Err(back) => Err(Box::into_inner(back)),
            },
            Err(refused) => Err(refused.value),
        }
    }

    /// Does as `Bag::put_boxed` on the bag at a place.
    #[inline(always)]
    pub fn put_boxed_at<R: Wait>(
        &self,
        rt: &R,
        mirror: &mut Mirror,
        place: usize,
        chunk: Box<Chunk>,
    ) -> Result<(), Box<Chunk>>
        requires log { mirror.old.log ≡ self.now }
        requires place { place < length mirror.old.accesses }
        requires filled { chunk.value.vertices ≢ [] }
        ensures put { OnOk result (ChangesAt place (access_after_put chunk.value) mirror.old mirror.new) }
        ensures returned { IfErr result (λ back. back ≡ chunk) }
        ensures refused { OnErr result (mirror.new ≡ mirror.old) }
    {
        mirror.accesses.put_boxed(rt, place, chunk)
    }

    /// Does as `Bag::get` on the bag at a place.
    pub fn get_at<R: Wait>(&self, rt: &R, mirror: &mut Mirror, place: usize) -> Option<Chunk>
        requires log { mirror.old.log ≡ self.now }
        requires place { place < length mirror.old.accesses }
        ensures got { IfSome result (λ chunk. ChangesAt place (access_after_get chunk) mirror.old mirror.new) }
        ensures filled { IfSome result (λ chunk. chunk.vertices ≢ []) }
        ensures found_empty { IfNone result (ChangesAt place access_after_empty_find mirror.old mirror.new) }
        ensures alone { IfNone result (WasEmptyIfAloneAt place mirror.old) }
    {
        Some(Box::into_inner(self.get_boxed_at(rt, mirror, place)?))
    }

    /// Does as `Bag::get_boxed` on the bag at a place.
    #[inline(always)]
    pub fn get_boxed_at<R: Wait>(
        &self,
        rt: &R,
        mirror: &mut Mirror,
        place: usize,
    ) -> Option<Box<Chunk>>
        requires log { mirror.old.log ≡ self.now }
        requires place { place < length mirror.old.accesses }
        ensures got { IfSome result (λ chunk. ChangesAt place (access_after_get chunk.value) mirror.old mirror.new) }
        ensures filled { IfSome result (λ chunk. chunk.value.vertices ≢ []) }
        ensures found_empty { IfNone result (ChangesAt place access_after_empty_find mirror.old mirror.new) }
        ensures alone { IfNone result (WasEmptyIfAloneAt place mirror.old) }
    {
        mirror.accesses.get_boxed(rt, place)
    }

    /// Does as `Bag::finds_empty` on the bag at a place.
    #[inline(always)]
    pub fn finds_empty_at(&self, mirror: &mut Mirror, place: usize) -> bool
        requires log { mirror.old.log ≡ self.now }
        requires place { place < length mirror.old.accesses }
        ensures found_empty { OnTrue result (ChangesAt place access_after_empty_find mirror.old mirror.new) }
        ensures alone { OnTrue result (WasEmptyIfAloneAt place mirror.old) }
        ensures unchanged { OnFalse result (mirror.new ≡ mirror.old) }
    {
        mirror.accesses.finds_empty(place)
    }

    // Swaps the word to 1 until it was 0; then the seat holds the slot, and the entries are taken out of it.
    pub(crate) fn take<R: Wait>(&self, rt: &R, seat: &mut LogSeat) -> Entries
        requires table { seat.old.table_id ≡ self.now }
        requires slots { seat.old.me.1 ≡ [] }
        ensures table { seat.new.table_id ≡ seat.old.table_id }
        ensures known { seat.new.me.0 ≡ with_slot (bags_of result) seat.old.me.0 }
        ensures within { IsWithin (bags_of result) seat.old.me.0 }
        ensures slot { HoldsSlot seat.new.me }
    {
        let backoff = Backoff::new();
        for _ in rt.forever() {
            if self.table.shared.swap::<Acquires>(seat, LOCK_WORD, 1) == 0 {
                break;
            }
            backoff.snooze();
        }
        self.table
            .shared
            .exchange(seat, ENTRIES_SLOT, Entries::none(self.alloc))
    }

    // Puts the entries back into the slot and gives it back.
    pub(crate) fn give(&self, seat: &mut LogSeat, entries: Entries)
        requires table { seat.old.table_id ≡ self.now }
        requires slot { HoldsSlot seat.old.me }
        requires holds { seat.old.me.0.holds ≡ true }
        requires longer { IsPrefix seat.old.me.0.list (bags_of entries) }
        ensures table { seat.new.table_id ≡ seat.old.table_id }
        ensures me { seat.new.me ≡ (without_slot (bags_of entries) seat.old.me.0, []) }
    {
        drop(self.table.shared.exchange(seat, ENTRIES_SLOT, entries));
        self.table.shared.swap::<Releases>(seat, LOCK_WORD, 0);
    }
}
