//! Landmarks, whose costs tell how far vertices are from each other at least.

ghost use Rattle.std.specs.Prelude.{◌≡◌, ◌≢◌, ◌+◌, ◌*◌, ◌++◌, ◌<◌, ◌≤◌, ℕ, List, true, All, IfOk, IfSome, length, slice_index};
ghost use Rattle.csr_graph.specs.Changes.{without};
ghost use Rattle.route_walks.specs.declared.graph.ArcRec.{ArcRec};
ghost use Rattle.route_walks.specs.declared.graph.TheConstants.{INF};
ghost use Rattle.route_walks.specs.Bounds.{IsRelaxedBackward};
ghost use Rattle.route_walks.specs.Label.{IsRelaxed};
ghost use Rattle.route_walks.specs.Walk.{HaveSameArcs};
ghost use Rattle.csr_graph.specs.Bounds.{AreBounds};
ghost use Rattle.csr_graph.specs.declared.bounds.TheConstants.{FINITE_CELLS};
ghost use Rattle.least_costs.specs.Landmarks.{AreAmong, AreCovered, AreHighest, AreLowest, HasCheaper, IsCell, IsLightGraph, column, counted_in};

use crate::network::between::list_between;
use csr_graph::Csr;
use obim_engine::{Bounds, FINITE_CELLS};
use route_walks::{ArcRec, INF, Memory};
use std::alloc::Global;
use std::fmt;
use std::marker::Model;
use std::snapshot::Snapshot;
use std::sync::Arc;

/// The most landmarks.
pub const MAX_LANDMARKS: usize = 64;

/// The most labels that share a cell: 2^45, so that cells count costs of up to 2^60.
pub const MAX_UNIT: u64 = 1 << 45;

/// The most arcs that the cells of landmarks count in though the graph has them no more. A change past them
/// leaves no landmarks.
const MAX_GONE: usize = 1 << 12;

/// The most pairs, or added arcs, of a change that landmarks outlive. Each is compared with the arcs that are gone.
const MAX_CHANGES: usize = 1 << 10;

/// Vertices of a network from which it was solved. The costs from them tell how far any two vertices are from each other
/// at least, and so pairs are answered with fewer visits. No cost depends on which vertices they are.
///
/// Contracts see the rows of the network, of which nothing is kept. Takes 2 bytes a vertex for each landmark. Networks that
/// changes made of one another share them.
#[derive(Drop)]
pub struct Landmarks {
    cells: Arc<Vec<u16>>,
    count: usize,
    used: usize,
    unit: u64,
    is_two_way: bool,
    // Arcs that cells count in, though the graph has them no more. Once one is back, the same cells serve.
    gone: Vec<ArcRec>,
    of: Snapshot<Csr>,
}

impl Model for Landmarks {
    ghost use Rattle.least_costs.specs.Landmarks.{AreLandmarks, LandmarksSeen};

    ghost Value = { LandmarksSeen };

    ghost view = { λ l. record {
      graph = l.of.value;
      count = l.count;
      cells = l.cells.value.items;
      unit = l.unit;
      is_two_way = l.is_two_way;
      gone = l.gone.items;
    } };

    ghost invariant = { λ l. AreLandmarks (record {
      graph = l.of.value;
      count = l.count;
      cells = l.cells.value.items;
      unit = l.unit;
      is_two_way = l.is_two_way;
      gone = l.gone.items;
    }) };
}

/// Says how many there are.
impl fmt::Debug for Landmarks {
    fn fmt<W: fmt::Write>(&self, f: &mut fmt::Formatter<W>) -> fmt::Result {
        write!(f, "Landmarks({})", self.used)
    }
}

impl Landmarks {
    /// Room for so many landmarks, which tell nothing yet.
    pub(crate) fn blank(
        alloc: Global,
        rows: &Csr,
        count: usize,
        unit: u64,
    ) -> Result<Landmarks, Memory>
        requires light { IsLightGraph rows.now }
        requires count { count ≤ MAX_LANDMARKS }
        requires unit { unit ≤ MAX_UNIT }
        ensures { IfOk result (λ landmarks. landmarks.graph ≡ rows.now) }
    {
        let n = rows.n() as usize;
        let cells = vec![in alloc; 0_u16; count * n]?;
        let Ok(cells) = Arc::new(alloc, cells) else {
            return Err(Memory);
        };
        Ok(Landmarks {
            cells,
            count,
            used: 0,
            unit,
            is_two_way: true,
            gone: Vec::new(alloc),
            of: Snapshot::of(rows),
        })
    }

    /// The landmarks of the graph after a change, with the same cells. None if these may not tell of it: an arc is added
    /// that takes the place of no cheaper one between its ends, too much is changed, or memory is refused.
    pub(crate) fn after(
        &self,
        alloc: Global,
        before: &Csr,
        after: &Csr,
        removed: &[(u32, u32)],
        added: &[ArcRec],
    ) -> Option<Landmarks>
        requires before { self.now.graph ≡ before.now }
        requires light { IsLightGraph after.now }
        requires vertices { after.now.n ≡ before.now.n }
        requires arcs { HaveSameArcs after.now.arcs (without removed.now before.now.arcs ++ added.now) }
        ensures { IfSome result (λ landmarks. landmarks.graph ≡ after.now) }
    {
        if removed.len().max(added.len()) > MAX_CHANGES {
            return None;
        }
        let Ok(gone) = self.gone_after(alloc, before, removed) else {
            return None;
        };
        if gone.len() > MAX_GONE || !are_covered(added, &gone) {
            return None;
        }
        let Ok(cells) = Arc::try_clone(&self.cells) else {
            return None;
        };
        Some(Landmarks {
            cells,
            count: self.count,
            used: self.used,
            unit: self.unit,
            is_two_way: self.is_two_way,
            gone,
            of: Snapshot::of(after),
        })
    }

    /// The arcs that are gone once those between some pairs are removed. One is left out if another is as cheap.
    fn gone_after(
        &self,
        alloc: Global,
        rows: &Csr,
        removed: &[(u32, u32)],
    ) -> Result<Vec<ArcRec>, Memory>
        requires { self.now.graph ≡ rows.now }
        ensures { IfOk result (λ gone. AreAmong (counted_in self.now) gone.items) }
    {
        let mut gone = self.gone.to_vec(alloc)?;
        for pair in removed {
            note_between(alloc, rows, *pair, &mut gone)?;
        }
        Ok(gone)
    }

    /// The cells, vertex by vertex.
    fn cells(&self) -> &[u16]
        ensures { result.now ≡ self.now.cells }
    {
        let cells: &Vec<u16> = &self.cells;
        cells
    }

    /// The number of landmarks: fewer than were asked for if no others reach much.
    pub fn len(&self) -> usize {
        self.used
    }

    /// Tells if there is no room for another landmark.
    pub(crate) fn is_full(&self) -> bool {
        self.used >= self.count
    }

    /// Adds a landmark with these labels, of which `farthest` is the greatest, unless they don't fit into cells.
    pub(crate) fn add(&mut self, labels: &[u64], farthest: u64, is_two_way: bool)
        requires count { length labels.now ≡ self.old.graph.n }
        requires relaxed { All (IsRelaxed (slice_index labels.now)) self.old.graph.arcs }
        requires farthest { All (λ label. label < INF → label ≤ farthest) labels.now }
        requires two_way { is_two_way ≡ true →
            All (IsRelaxedBackward (slice_index labels.now)) self.old.graph.arcs }
        ensures { self.new.graph ≡ self.old.graph }
    {
        let at = self.used;
        let unit = self.unit;
        if at >= self.count || unit == 0 || farthest / unit >= u64::from(FINITE_CELLS) {
            return;
        }
        if !self.gone.is_empty() {
            return;
        }
        // Once they are shared none is added.
        let Some(cells) = Arc::get_mut(&mut self.cells) else {
            return;
        };
        put_column(cells, labels, self.count, at, unit, farthest);
        self.used = at + 1;
        self.is_two_way = self.is_two_way && is_two_way;
    }

    /// Tells if bounds of the way to all of these targets at once tell about as much as those to the farthest. A hint.
    pub(crate) fn serves(&self, source: u32, targets: &[u32]) -> bool {
        if self.used == 0 {
            return false;
        }
        let to_all = u64::from(self.units_to(source, targets));
        for target in targets {
            if to_all * 4 < u64::from(self.units_to(source, &[*target])) * 3 {
                return false;
            }
        }
        true
    }

    /// The most units by which cells of a vertex differ from those of all targets. A hint.
    fn units_to(&self, source: u32, targets: &[u32]) -> u16 {
        let mut most = 0_u16;
        for i in 0..self.count {
            let from = cell_at(self.cells(), self.count, i, source);
            let low = lowest(self.cells(), self.count, i, targets);
            most = low.saturating_sub(from).max(most);
            if self.is_two_way {
                let high = highest(self.cells(), self.count, i, targets);
                most = from.saturating_sub(high).max(most);
            }
        }
        most
    }

    /// The least cell of these targets, by landmark.
    pub(crate) fn low(&self, alloc: Global, targets: &[u32]) -> Result<Vec<u16>, Memory>
        ensures { IfOk result (λ low. AreLowest self.now targets.now low.items) }
    {
        let mut low = Vec::with_capacity(alloc, self.count)?;
        for i in 0..self.count {
            low.push(lowest(self.cells(), self.count, i, targets))?;
        }
        Ok(low)
    }

    /// The greatest cell of these targets, by landmark, if costs are told both ways.
    pub(crate) fn high(&self, alloc: Global, targets: &[u32]) -> Result<Vec<u16>, Memory>
        ensures { IfOk result (λ high. AreHighest self.now targets.now high.items) }
    {
        if self.is_two_way {
            greatest_cells(alloc, self.cells(), self.count, targets)
        } else {
            Ok(vec![in alloc; u16::MAX; self.count]?)
        }
    }

    /// Bounds of the way to these targets, whose least and greatest cells these are.
    pub(crate) fn toward<'a>(
        &'a self,
        source: u32,
        targets: &'a [u32],
        low: &'a [u16],
        high: &'a [u16],
    ) -> Bounds<'a>
        requires targets { All (λ t. t < self.now.graph.n) targets.now }
        requires low { AreLowest self.now targets.now low.now }
        requires high { AreHighest self.now targets.now high.now }
        ensures bounds { AreBounds self.now.graph result }
        ensures targets { result.targets.now ≡ targets.now }
    {
        let (cells, unit) = (self.cells(), self.unit);
        let bounds = Bounds {
            targets,
            cells,
            low,
            high,
            unit,
            base: 0,
        };
        let base = bounds.bound(source);
        Bounds { base, ..bounds }
    }
}

/// Notes the arcs from the first vertex of a pair to the second, if none of the noted ones is as cheap.
fn note_between(
    alloc: Global,
    rows: &Csr,
    pair: (u32, u32),
    noted: &mut Vec<ArcRec>,
) -> Result<(), Memory>
    ensures { (arcs : List ArcRec) → AreAmong arcs rows.now.arcs → AreAmong arcs noted.old.items
        → AreAmong arcs noted.new.items }
{
    let (tail, head) = pair;
    if tail >= rows.n() {
        return Ok(());
    }
    let found = list_between(alloc, rows, tail, head)?;
    for arc in &found {
        if !is_covered(arc, noted) {
            noted.push(*arc)?;
        }
    }
    Ok(())
}

/// Tells if each of these arcs has one among others between the same vertices that weighs no more.
fn are_covered(arcs: &[ArcRec], others: &[ArcRec]) -> bool
    ensures { result ≡ true → AreCovered arcs.now others.now }
{
    for arc in arcs {
        if !is_covered(arc, others) {
            return false;
        }
    }
    true
}

/// Tells if an arc has one among others between the same vertices that weighs no more.
fn is_covered(arc: &ArcRec, others: &[ArcRec]) -> bool
    ensures { result ≡ true → HasCheaper others.now arc.now }
{
    for other in others {
        if other.tail == arc.tail && other.head == arc.head && other.weight <= arc.weight {
            return true;
        }
    }
    false
}

/// The cell of a vertex for a landmark; 0 if there is none.
#[inline(always)]
fn cell_at(cells: &[u16], count: usize, i: usize, v: u32) -> u16
    ensures { result ≡ column count cells.now i v }
{
    let place = (v as usize).saturating_mul(count).saturating_add(i);
    if place < cells.len() { cells[place] } else { 0 }
}

/// The least cell of these vertices for a landmark.
fn lowest(cells: &[u16], count: usize, i: usize, vertices: &[u32]) -> u16
    ensures { All (λ t. result ≤ column count cells.now i t) vertices.now }
{
    let mut least = u16::MAX;
    for vertex in vertices {
        least = cell_at(cells, count, i, *vertex).min(least);
    }
    least
}

/// The greatest cell of these vertices for a landmark.
fn highest(cells: &[u16], count: usize, i: usize, vertices: &[u32]) -> u16
    ensures { All (λ t. column count cells.now i t ≤ result) vertices.now }
{
    let mut most = 0_u16;
    for vertex in vertices {
        most = cell_at(cells, count, i, *vertex).max(most);
    }
    most
}

/// The greatest cell of these vertices, by landmark.
fn greatest_cells(
    alloc: Global,
    cells: &[u16],
    count: usize,
    vertices: &[u32],
) -> Result<Vec<u16>, Memory>
    ensures count { IfOk result (λ high. length high.items ≡ count) }
    ensures each { IfOk result (λ high. (i : ℕ) → i < count
        → All (λ t. column count cells.now i t ≤ slice_index high.items i) vertices.now) }
{
    let mut high = Vec::with_capacity(alloc, count)?;
    for i in 0..count {
        high.push(highest(cells, count, i, vertices))?;
    }
    Ok(high)
}

/// Puts the cells of labels, none of which is above `farthest` but `INF`, into the column of a landmark.
fn put_column(cells: &mut [u16], labels: &[u64], count: usize, at: usize, unit: u64, farthest: u64)
    requires place { at < count }
    requires room { length cells.old ≡ count * length labels.now }
    requires unit { 0 < unit }
    requires fit { farthest < FINITE_CELLS * unit }
    requires farthest { All (λ label. label < INF → label ≤ farthest) labels.now }
    ensures room { length cells.new ≡ length cells.old }
    ensures put { (v : ℕ) → v < length labels.now
        → IsCell unit (column count cells.new at v) (slice_index labels.now v) }
    ensures others { (i v : ℕ) → i < count → i ≢ at → column count cells.new i v ≡ column count cells.old i v }
{
    // The greatest label is for the contract alone.
    let _ = farthest;
    for v in 0..labels.len() {
        cells[v * count + at] = cell_of(labels[v], unit);
    }
}

/// The cell of a label.
fn cell_of(label: u64, unit: u64) -> u16
    requires unit { 0 < unit }
    requires fit { label < INF → label < FINITE_CELLS * unit }
    ensures { IsCell unit result label }
{
    if label == INF {
        u16::MAX
    } else {
        (label / unit) as u16
    }
}
