//! Rows without the arcs between some pairs of vertices, and with others.

ghost use Rattle.std.specs.Prelude.{◌≡◌, ◌≤◌, ◌<◌, ◌+◌, ◌++◌, ◌^◌, ℕ, List, All, length, map};
ghost use Rattle.std.specs.Prelude.{IfOk, OnOk, slice_index_or, true, false};
ghost use Rattle.std.specs.List.Sorted.{IsNonDecreasing};
ghost use Rattle.route_walks.specs.declared.graph.ArcRec.{ArcRec};
ghost use Rattle.route_walks.specs.Walk.{IsGraph, HaveSameArcs};
ghost use Rattle.csr_graph.specs.Changes.{without};
ghost use Rattle.csr_graph.specs.Graph.{HaveSameRows, IsInRows, first_place, targets_of};
ghost use Rattle.csr_graph.specs.Removal.{AreFirsts, AreJoined, AreKeysOf, AreTouched, HasMark, HaveRowsBetween};
ghost use Rattle.csr_graph.specs.Removal.{has_key, key_of, unkeyed};

use crate::csr::{Csr, first_of};
use crate::target::Target;
use route_walks::{ArcRec, MAX_ARCS, Memory};
use std::alloc::Global;

impl Csr {
    /// Returns the graph without the arcs that lead from the first vertex of a pair to the second, and with the added
    /// arcs, last in each row. All other arcs keep their order. Takes 8 bytes a pair and an added arc, and 9 a vertex,
    /// for a while.
    pub fn changed(
        &self,
        alloc: Global,
        removed: &[(u32, u32)],
        added: &[ArcRec],
    ) -> Result<Csr, Memory>
        requires ends { IsGraph self.now.n added.now }
        requires places { length self.now.arcs + length added.now ≤ MAX_ARCS }
        ensures vertices { IfOk result (λ csr. csr.n ≡ self.now.n) }
        ensures rows { IfOk result
            (λ csr. HaveSameRows self.now.n csr.arcs (without removed.now self.now.arcs ++ added.now)) }
        ensures in_rows { IfOk result (λ csr. IsInRows csr) }
        ensures arcs { IfOk result (λ csr. HaveSameArcs csr.arcs (without removed.now self.now.arcs ++ added.now)) }
    {
        let n = self.n();
        let touched = Touched::new(alloc, n, removed, added)?;
        let others = Csr::build(alloc, n, added)?;
        let mut firsts = Vec::with_capacity(alloc, n as usize + 1)?;
        let mut targets = Vec::with_capacity(alloc, self.arc_count() + added.len())?;
        let mut from = 0;
        for tail in 0..n {
            if touched.marks[tail as usize] {
                put_rows(self, from, tail, &mut firsts, &mut targets)?;
                firsts.push(targets.len())?;
                put_left(&touched.keys, self, tail, &mut targets)?;
                targets.extend_from_slice(others.row(tail))?;
                from = tail + 1;
            }
        }
        put_rows(self, from, n, &mut firsts, &mut targets)?;
        firsts.push(targets.len())?;
        Ok(Csr::of_lists(firsts, targets))
    }
}

/// The rows that are changed, and the arcs that are removed: those between some pairs.
#[derive(Drop)]
struct Touched {
    /// The keys of the pairs, from the smallest on.
    keys: Vec<u64>,
    /// By vertex, true if a pair or an added arc begins there. Other rows stay.
    marks: Vec<bool>,
}

impl Touched {
    fn new(
        alloc: Global,
        n: u32,
        removed: &[(u32, u32)],
        added: &[ArcRec],
    ) -> Result<Touched, Memory>
        ensures vertices { IfOk result (λ touched. length touched.marks.items ≡ n) }
        ensures touched { IfOk result (λ touched. AreTouched removed.now added.now touched.keys.items touched.marks.items) }
    {
        let keys = sorted_keys(alloc, removed)?;
        let mut marks = vec![in alloc; false; n as usize]?;
        mark_removed(&mut marks, removed);
        mark_added(&mut marks, added);
        Ok(Touched { keys, marks })
    }
}

/// Marks the vertices at which pairs begin.
fn mark_removed(marks: &mut [bool], pairs: &[(u32, u32)])
    ensures places { length marks.new ≡ length marks.old }
    ensures marked { All (λ pair. HasMark marks.new pair.0) pairs.now }
{
    for (tail, _) in pairs {
        let place = *tail as usize;
        if place < marks.len() {
            marks[place] = true;
        }
    }
}

/// Marks the tails of arcs, and keeps all other marks.
fn mark_added(marks: &mut [bool], arcs: &[ArcRec])
    ensures places { length marks.new ≡ length marks.old }
    ensures kept { (u : ℕ) → slice_index_or marks.old u false ≡ true → slice_index_or marks.new u false ≡ true }
    ensures marked { All (λ arc. HasMark marks.new arc.tail) arcs.now }
{
    for arc in arcs {
        let place = arc.tail as usize;
        if place < marks.len() {
            marks[place] = true;
        }
    }
}

/// Appends the rows from one vertex on and before another, as they are.
fn put_rows(
    rows: &Csr,
    from: u32,
    to: u32,
    firsts: &mut Vec<usize>,
    targets: &mut Vec<Target>,
) -> Result<(), Memory>
    requires order { from ≤ to }
    requires vertices { to ≤ rows.now.n }
    requires few { length targets.old.items ≤ MAX_ARCS }
    ensures { (arcs : List ArcRec) → HaveRowsBetween from to arcs rows.now.arcs
        → AreJoined from arcs firsts.old.items targets.old.items
        → OnOk result (AreJoined to arcs firsts.new.items targets.new.items) }
{
    put_firsts(rows, from, to, targets.len(), firsts)?;
    targets.extend_from_slice(rows.targets_between(from, to))?;
    Ok(())
}

/// Appends where the rows from one vertex on and before another begin, if the first begins at `base`.
fn put_firsts(
    rows: &Csr,
    from: u32,
    to: u32,
    base: usize,
    firsts: &mut Vec<usize>,
) -> Result<(), Memory>
    requires order { from ≤ to }
    requires vertices { to ≤ rows.now.n }
    requires few { base ≤ MAX_ARCS }
    ensures { (arcs : List ArcRec) → HaveRowsBetween from to arcs rows.now.arcs → base ≡ first_place arcs from
        → AreFirsts from arcs firsts.old.items
        → OnOk result (AreFirsts to arcs firsts.new.items) }
{
    let first = first_of(rows, from);
    for u in from..to {
        firsts.push(base + (rows.first(u) - first))?;
    }
    Ok(())
}

/// Appends what the arcs of a row lead to whose pair has none of these keys.
fn put_left(keys: &[u64], rows: &Csr, tail: u32, targets: &mut Vec<Target>) -> Result<(), Memory>
    requires { tail < rows.now.n }
    ensures { (pairs : List (ℕ × ℕ)) → AreKeysOf pairs keys.now
        → OnOk result (targets.new.items ≡ targets.old.items ++ targets_of (without pairs rows.now.arcs) tail) }
{
    put_unkeyed(keys, tail, rows.row(tail), targets)
}

/// Appends the targets of a row to which no arc leads that has one of these keys.
fn put_unkeyed(
    keys: &[u64],
    tail: u32,
    row: &[Target],
    targets: &mut Vec<Target>,
) -> Result<(), Memory>
    ensures { IsNonDecreasing keys.now
        → OnOk result (targets.new.items ≡ targets.old.items ++ unkeyed keys.now tail row.now) }
{
    for target in row {
        if !is_keyed(keys, tail, target.head) {
            targets.push(*target)?;
        }
    }
    Ok(())
}

/// Tells if the key of two vertices is among these.
fn is_keyed(keys: &[u64], tail: u32, head: u32) -> bool
    ensures { IsNonDecreasing keys.now → (weight : ℕ)
        → result ≡ has_key keys.now (record { tail = tail; head = head; weight = weight }) }
{
    keys.binary_search(&key_of(tail, head)).is_ok()
}

/// Returns the keys of these pairs, from the smallest on.
fn sorted_keys(alloc: Global, pairs: &[(u32, u32)]) -> Result<Vec<u64>, Memory>
    ensures { IfOk result (λ keys. AreKeysOf pairs.now keys.items) }
{
    let mut keys = keys_of(alloc, pairs)?;
    keys.sort_unstable();
    Ok(keys)
}

/// Returns the keys of these pairs, in their order.
fn keys_of(alloc: Global, pairs: &[(u32, u32)]) -> Result<Vec<u64>, Memory>
    ensures keys { IfOk result (λ keys. keys.items ≡ map key_of pairs.now) }
    ensures heads { OnOk result (All (λ pair. pair.1 < 2 ^ 32) pairs.now) }
{
    let mut keys = Vec::with_capacity(alloc, pairs.len())?;
    for &(tail, head) in pairs {
        keys.push(key_of(tail, head))?;
    }
    Ok(keys)
}

/// Returns one number for the two vertices of a pair.
fn key_of(tail: u32, head: u32) -> u64
    ensures key { result ≡ key_of (tail, head) }
    ensures head { head < 2 ^ 32 }
{
    u64::from(tail) * (1 << 32) + u64::from(head)
}
