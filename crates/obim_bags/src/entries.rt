//! The entries of a log.

ghost use Rattle.std.specs.Prelude.{◌≡◌, ◌≢◌, ◌≤◌, ◌<◌, ◌++◌, ◌∷◌, ℕ, [], Some, length, map, slice_get};
ghost use Rattle.std.specs.Prelude.{All, IsTrue, IfNone, IfOk, IfSome, OnErr, OnOk};
ghost use mathlib.Core.List.{IsPrefix};
ghost use Rattle.obim_bags.specs.BagRule.{shares_of};
ghost use Rattle.obim_bags.specs.Bags.{AreAdded, AreAllPasses, BagSeen, tallies_of};
ghost use Rattle.obim_bags.specs.Indexes.{AreDistinct, Lacks};
ghost use Rattle.obim_bags.specs.Logs.{IsNew, metrics_of, pass_in};
ghost use Rattle.obim_bags.specs.Entries.{bags_of, AreAllOf, IsEntry, IsUnclaimed, unclaimed_of};
ghost use Rattle.obim_bags.specs.Entries.{HasAccessOf, HasAccessAt, HasAccessesFrom};

use crate::access::Access;
use crate::bag::Bag;
use crate::passes::BagPass;
use route_walks::Memory;
use std::alloc::Global;
use std::marker::Model;
use std::sync::{Arc, Wait};

/// A bag of the log, and by worker the place that its mirror hasn't claimed yet.
#[derive(Drop)]
pub(crate) struct LogEntry {
    bag: Arc<Bag>,
    unclaimed: Vec<Option<Access>>,
}

impl Model for LogEntry {
    ghost use Rattle.std.specs.Prelude.{All};
    ghost use Rattle.obim_bags.specs.Entries.{EntrySeen, IsUnclaimed};

    ghost Value = { EntrySeen };

    ghost view = { λ e. record { bag = e.bag.value; unclaimed = e.unclaimed.items } };

    ghost invariant = { λ e. All (IsUnclaimed e.bag.value) e.unclaimed.items };
}

impl LogEntry {
    /// A new bag with a place for each worker. All room is made before the bag is shared.
    pub(crate) fn open<R: Wait>(
        rt: &R,
        alloc: Global,
        metric: u64,
        workers: u32,
    ) -> Result<LogEntry, Memory>
        requires { 1 ≤ workers }
        ensures { IfOk result (λ entry. entry.bag.metric ≡ metric) }
    {
        let mut unclaimed = Vec::with_capacity(alloc, workers as usize)?;
        let (bag, mut passes) = Bag::open(rt, alloc, metric, workers)?;
        let bag = Arc::new(alloc, bag)?;
        while let Some(pass) = passes.pop() {
            let bag = Arc::try_clone(&bag)?;
            unclaimed.push(Some(Access::new(bag, pass)))?;
        }
        Ok(LogEntry { bag, unclaimed })
    }

    pub(crate) fn bag(&self) -> &Bag
        ensures { result.now ≡ self.now.bag }
    {
        &self.bag
    }

    pub(crate) fn metric(&self) -> u64
        ensures { result ≡ self.now.bag.metric }
    {
        self.bag.metric()
    }

    pub(crate) fn has(&self, worker: u32) -> bool
        ensures { IsTrue result → HasAccessOf worker self.now }
    {
        match self.unclaimed.get(worker as usize) {
            Some(place) => place.is_some(),
            None => false,
        }
    }

    pub(crate) fn claim(&mut self, worker: u32) -> Option<Access>
        ensures bag { self.new.bag ≡ self.old.bag }
        ensures place { IfSome result (λ place. (place.bag ≡ self.old.bag) × IsNew place) }
        ensures none { IfNone result (HasAccessOf worker self.old → ⊥) }
    {
        match self.unclaimed.get_mut(worker as usize) {
            Some(place) => place.take(),
            None => None,
        }
    }

    pub(crate) fn claim_all(&mut self, passes: &mut Vec<BagPass>) -> Result<(), Memory>
        ensures bag { self.new.bag ≡ self.old.bag }
        ensures added { OnOk result (AreAdded self.old.bag passes.old.items passes.new.items) }
        ensures all { OnOk result (AreAllOf self.old passes.old.items → AreAllPasses self.old.bag passes.new.items) }
        ensures only { OnOk result (AreAllPasses self.old.bag passes.new.items → AreAllOf self.old passes.old.items) }
        ensures entry { IsEntry self.old }
    {
        keep_all(&mut self.unclaimed, passes)
    }
}

// The passes of all accesses, put last.
fn keep_all(unclaimed: &mut Vec<Option<Access>>, passes: &mut Vec<BagPass>) -> Result<(), Memory>
    ensures rest { (bag : BagSeen) → All (IsUnclaimed bag) unclaimed.old.items
        → All (IsUnclaimed bag) unclaimed.new.items }
    ensures added { OnOk result
        ((bag : BagSeen) → All (IsUnclaimed bag) unclaimed.old.items → AreAdded bag passes.old.items passes.new.items) }
    ensures shares { OnOk result (shares_of (tallies_of passes.new.items)
        ≡ shares_of (tallies_of (passes.old.items ++ unclaimed_of unclaimed.old.items))) }
{
    while let Some(place) = unclaimed.pop() {
        keep(place, passes)?;
    }
    Ok(())
}

// The pass of a place, if there is one, put last.
fn keep(place: Option<Access>, passes: &mut Vec<BagPass>) -> Result<(), Memory>
    ensures added { OnOk result ((bag : BagSeen) → IsUnclaimed bag place
        → AreAdded bag passes.old.items passes.new.items) }
    ensures pass { OnOk result (passes.new.items ≡ passes.old.items ++ pass_in place) }
{
    if let Some(place) = place {
        passes.push(place.into_pass())?;
    }
    Ok(())
}

/// The entries of a log, at most one for each metric.
#[derive(Drop)]
pub(crate) struct Entries {
    pub(crate) list: Vec<LogEntry>,
}

impl Model for Entries {
    ghost use Rattle.obim_bags.specs.Entries.{EntriesSeen, AreEntries};

    ghost Value = { EntriesSeen };

    ghost view = { λ e. record { list = e.list.items } };

    ghost invariant = { λ e. AreEntries e.list.items };
}

impl Entries {
    /// Returns an empty list. Takes no memory.
    pub(crate) fn none(alloc: Global) -> Entries
        ensures { result ≡ record { list = [] } }
    {
        Entries {
            list: Vec::new(alloc),
        }
    }

    pub(crate) fn len(&self) -> usize
        ensures len { result ≡ length self.now.list }
        ensures distinct { AreDistinct (metrics_of (bags_of self.now)) }
    {
        self.list.len()
    }

    pub(crate) fn metric_at(&self, place: usize) -> u64
        requires { place < length self.now.list }
        ensures metric { slice_get (metrics_of (bags_of self.now)) place ≡ Some result }
        ensures distinct { AreDistinct (metrics_of (bags_of self.now)) }
    {
        self.list[place].metric()
    }

    /// Opens a bag of a new metric and puts its entry last.
    pub(crate) fn append<R: Wait>(
        &mut self,
        rt: &R,
        alloc: Global,
        metric: u64,
        workers: u32,
    ) -> Result<(), Memory>
        requires workers { 1 ≤ workers }
        requires new { Lacks metric (metrics_of (bags_of self.old)) }
        ensures longer { IsPrefix (bags_of self.old) (bags_of self.new) }
        ensures last { OnOk result (metrics_of (bags_of self.new) ≡ metrics_of (bags_of self.old) ++ metric ∷ []) }
        ensures refused { OnErr result (self.new ≡ self.old) }
        ensures distinct { AreDistinct (metrics_of (bags_of self.new)) }
    {
        self.list.reserve(1)?;
        self.list
            .push_reserved(LogEntry::open(rt, alloc, metric, workers)?);
        Ok(())
    }

    /// Tells if the worker's place is still here in each entry from `first` on.
    pub(crate) fn has_from(&self, worker: u32, first: usize) -> bool
        ensures { IsTrue result → HasAccessesFrom worker first self.now }
    {
        let mut place = first;
        while place < self.list.len() {
            if !self.list[place].has(worker) {
                return false;
            }
            place += 1;
        }
        true
    }

    pub(crate) fn claim_at(&mut self, worker: u32, place: usize) -> Option<Access>
        requires { place < length self.old.list }
        ensures bags { bags_of self.new ≡ bags_of self.old }
        ensures others { (other : ℕ) → other ≢ place → slice_get self.new.list other ≡ slice_get self.old.list other }
        ensures found { IfSome result (λ found. slice_get (bags_of self.old) place ≡ Some found.bag) }
        ensures new { IfSome result (λ found. IsNew found) }
        ensures none { IfNone result (HasAccessAt worker place self.old → ⊥) }
    {
        self.list[place].claim(worker)
    }
}
