//! The end of a log.

ghost use Rattle.std.specs.Prelude.{◌≡◌, ◌≢◌, ◌+◌, ◌++◌, ◌<◌, ◌≤◌, ℕ, List, [], Some, length, map, reverse, slice_get};
ghost use Rattle.std.specs.Prelude.{take};
ghost use Rattle.std.specs.Prelude.{All, IfErr, IfOk, OnOk};
ghost use mathlib.Core.List.{IsPrefix};
ghost use Rattle.obim_bags.specs.declared.fault.SettleFault.TheVariants.{Memory, Missing};
ghost use Rattle.obim_bags.specs.Bags.{AreSettled, BagSeen, IsPassOf};
ghost use Rattle.obim_bags.specs.Indexes.{AreDistinct};
ghost use Rattle.obim_bags.specs.Logs.{IsLogSettled, IsMirrorOf, AccessSeen};
ghost use Rattle.obim_bags.specs.Logs.{all_of, bags_in, metrics_of, pass_in};
ghost use Rattle.obim_bags.specs.Entries.{AreAllOf, EntrySeen, IsEntry, bags_of};
ghost use Rattle.obim_bags.specs.Settling.{AreDrainedFrom, AreOf, AreWholeFrom, KnowsAllOf, LackSome};
ghost use Rattle.obim_bags.specs.Settling.{lists_of, passes_in, accesses_of};

use crate::access::Access;
use crate::chunk::Chunk;
use crate::entries::{Entries, LogEntry};
use crate::fault::SettleFault;
use crate::log::BagLog;
use crate::log_rule::{JoinsSeats, LogSeat};
use crate::mirror::Mirror;
use crate::passes::BagPass;
use std::alloc::Global;
use std::sync::Wait;

impl BagLog {
    /// Returns what is left in each bag, by place and then in order. `Missing` if no mirror is handed in or some pass
    /// is missing, as tests show. The mirrors are gone after a fault.
    pub fn drain<R: Wait>(
        &self,
        rt: &R,
        alloc: Global,
        mirrors: Vec<Mirror>,
    ) -> Result<Vec<Chunk>, SettleFault>
        requires { All (IsMirrorOf self.now) mirrors.items }
        ensures handed { OnOk result (mirrors.items ≢ []) }
        ensures settled { IfOk result (λ left. IsLogSettled mirrors.items left.items) }
    {
        let (mut seat, held) = self.join(alloc, mirrors)?;
        let mut entries = self.take(rt, &mut seat);
        let parts = drain_all(rt, alloc, &mut entries, held);
        self.give(&mut seat, entries);
        flatten(alloc, parts?)
    }

    // Joins the seats of these mirrors, and keeps their accesses, the last mirror's first.
    fn join(
        &self,
        alloc: Global,
        mut mirrors: Vec<Mirror>,
    ) -> Result<(LogSeat, Vec<Vec<Access>>), SettleFault>
        requires { All (IsMirrorOf self.now) mirrors.items }
        ensures some { OnOk result (mirrors.items ≢ []) }
        ensures none { IfErr result (λ fault. fault ≡ Missing → mirrors.items ≡ []) }
        ensures log { IfOk result (λ joined. joined.0.table_id ≡ self.now) }
        ensures slots { IfOk result (λ joined. joined.0.me.1 ≡ []) }
        ensures known { IfOk result (λ joined. KnowsAllOf joined.0.me.0 (lists_of joined.1.items)) }
        ensures held { IfOk result (λ joined. lists_of joined.1.items ≡ reverse (accesses_of mirrors.items)) }
    {
        let mut held = Vec::new(alloc);
        let Some(mirror) = mirrors.pop() else {
            return Err(SettleFault::Missing);
        };
        let (mut seat, accesses) = mirror.into_parts();
        held.push(accesses)?;
        while let Some(mirror) = mirrors.pop() {
            let (other, accesses) = mirror.into_parts();
            self.table.shared.join_seat::<JoinsSeats>(&mut seat, other);
            held.push(accesses)?;
        }
        Ok((seat, held))
    }
}

impl LogEntry {
    // What is left in the bag, whose passes are these and those that are still here.
    fn drain<R: Wait>(
        &mut self,
        rt: &R,
        alloc: Global,
        mut passes: Vec<BagPass>,
    ) -> Result<Vec<Chunk>, SettleFault>
        requires { All (IsPassOf self.old.bag) passes.items }
        ensures bag { self.new.bag ≡ self.old.bag }
        ensures settled { IfOk result (λ left. AreSettled passes.items left.items) }
        ensures entry { IsEntry self.old }
        ensures all { OnOk result (AreAllOf self.old passes.items) }
        ensures missing { IfErr result (λ fault. fault ≡ Missing → AreAllOf self.old passes.items → ⊥) }
    {
        self.claim_all(&mut passes)?;
        self.bag().drain(rt, alloc, passes)
    }
}

impl Entries {
    // What is left in the bag at a place.
    fn drain_at<R: Wait>(
        &mut self,
        rt: &R,
        alloc: Global,
        place: usize,
        passes: Vec<BagPass>,
    ) -> Result<Vec<Chunk>, SettleFault>
        requires place { place < length self.old.list }
        requires passes { (bag : BagSeen) → slice_get (bags_of self.old) place ≡ Some bag
            → All (IsPassOf bag) passes.items }
        ensures bags { bags_of self.new ≡ bags_of self.old }
        ensures others { (other : ℕ) → other ≢ place → slice_get self.new.list other ≡ slice_get self.old.list other }
        ensures settled { IfOk result (λ left. AreSettled passes.items left.items) }
        ensures entry { (entry : EntrySeen) → slice_get self.old.list place ≡ Some entry → IsEntry entry }
        ensures all { OnOk result ((entry : EntrySeen) → slice_get self.old.list place ≡ Some entry
            → AreAllOf entry passes.items) }
        ensures missing { IfErr result (λ fault. fault ≡ Missing
            → (entry : EntrySeen) → slice_get self.old.list place ≡ Some entry → AreAllOf entry passes.items → ⊥) }
    {
        self.list[place].drain(rt, alloc, passes)
    }
}

// What is left in each bag, from the last place to the first.
fn drain_all<R: Wait>(
    rt: &R,
    alloc: Global,
    entries: &mut Entries,
    mut held: Vec<Vec<Access>>,
) -> Result<Vec<Vec<Chunk>>, SettleFault>
    requires { AreOf (bags_of entries.old) (lists_of held.items) }
    ensures bags { bags_of entries.new ≡ bags_of entries.old }
    ensures distinct { AreDistinct (metrics_of (bags_of entries.new)) }
    ensures count { IfOk result (λ parts. length parts.items ≡ length (bags_of entries.old)) }
    ensures drained { IfOk result (λ parts. AreDrainedFrom 0 (lists_of held.items) (reverse (lists_of parts.items))) }
    ensures whole { OnOk result (AreWholeFrom 0 (lists_of held.items) entries.old) }
    ensures missing { IfErr result (λ fault. fault ≡ Missing → LackSome (lists_of held.items) entries.old) }
{
    let mut parts = Vec::new(alloc);
    let mut place = entries.len();
    while place > 0 {
        place -= 1;
        let passes = claimed(alloc, &mut held, place)?;
        parts.push(entries.drain_at(rt, alloc, place, passes)?)?;
    }
    Ok(parts)
}

// The passes at a place, which is the last of the longest lists.
fn claimed(
    alloc: Global,
    held: &mut Vec<Vec<Access>>,
    place: usize,
) -> Result<Vec<BagPass>, SettleFault>
    requires { All (λ (accesses : List AccessSeen). length accesses ≤ place + 1) (lists_of held.old.items) }
    ensures held { OnOk result (lists_of held.new.items ≡ map (take place) (lists_of held.old.items)) }
    ensures passes { IfOk result (λ passes. passes.items ≡ passes_in place (lists_of held.old.items)) }
    ensures of_bag { IfOk result (λ passes. (bags : List BagSeen) (bag : BagSeen)
        → AreOf bags (lists_of held.old.items) → slice_get bags place ≡ Some bag → All (IsPassOf bag) passes.items) }
    ensures refused { IfErr result (λ fault. fault ≡ Memory) }
{
    let mut passes = Vec::new(alloc);
    for at in 0..held.len() {
        move_last(&mut held[at], place, &mut passes)?;
    }
    Ok(passes)
}

// The pass at a place, if the list is so long, put last.
fn move_last(
    accesses: &mut Vec<Access>,
    place: usize,
    passes: &mut Vec<BagPass>,
) -> Result<(), SettleFault>
    requires { length accesses.old.items ≤ place + 1 }
    ensures rest { OnOk result (accesses.new.items ≡ take place accesses.old.items) }
    ensures added { OnOk result (passes.new.items ≡ passes.old.items ++ pass_in (slice_get accesses.old.items place)) }
    ensures of_bag { OnOk result ((bags : List BagSeen) (bag : BagSeen)
        → IsPrefix (bags_in accesses.old.items) bags → slice_get bags place ≡ Some bag
        → All (IsPassOf bag) passes.old.items → All (IsPassOf bag) passes.new.items) }
    ensures refused { IfErr result (λ fault. fault ≡ Memory) }
{
    if accesses.len() <= place {
        return Ok(());
    }
    if let Some(last) = accesses.pop() {
        passes.push(last.into_pass())?;
    }
    Ok(())
}

// The parts joined, the last first.
fn flatten(alloc: Global, mut parts: Vec<Vec<Chunk>>) -> Result<Vec<Chunk>, SettleFault>
    ensures parts { IfOk result (λ left. left.items ≡ all_of (reverse (lists_of parts.items))) }
    ensures refused { IfErr result (λ fault. fault ≡ Memory) }
{
    let mut left = Vec::new(alloc);
    while let Some(mut part) = parts.pop() {
        left.append(&mut part)?;
    }
    Ok(left)
}
