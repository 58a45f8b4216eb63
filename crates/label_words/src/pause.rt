//! The rest of a run that is paused.

ghost use Rattle.std.specs.Prelude.{◌≡◌, ◌<◌, ℕ, List, true, false, length, slice_set, All, IfOk};
ghost use Rattle.route_walks.specs.declared.graph.Seed.{Seed};
ghost use Rattle.route_walks.specs.Walk.{AreSeeds};
ghost use Rattle.route_walks.specs.Label.{AreLeastLabels};
ghost use Rattle.csr_graph.specs.Graph.{Graph, IsInRows};
ghost use Rattle.relax_core.specs.State.{mark_of};
ghost use Rattle.label_words.specs.Paused.{IsPause, AreMarkedFar, AreUnmarkedBelow, IsMarkedBelow};

use csr_graph::Bounds;
use route_walks::Memory;
use std::alloc::Global;
use std::marker::Model;

/// Labels and marks as a run left them before it was done, or settled labels of a graph that is to get more arcs.
#[derive(Debug, Drop)]
pub struct Paused {
    pub(crate) labels: Vec<u64>,
    pub(crate) marks: Vec<bool>,
}

impl Model for Paused {
    ghost use Rattle.label_words.specs.Paused.{Rest};

    ghost Value = { Rest };

    ghost view = { λ p. record { labels = p.labels.items; marks = p.marks.items } };
}

impl Paused {
    /// Returns a pause of these labels and no mark, from which a run visits only vertices that are marked since. Takes
    /// a byte a vertex; at `Memory` the labels are gone.
    pub fn settled(alloc: Global, labels: Vec<u64>) -> Result<Paused, Memory>
        ensures labels { IfOk result (λ rest. rest.labels ≡ labels.items) }
        ensures marks { IfOk result (λ rest. length rest.marks ≡ length labels.items) }
        ensures unmarked { IfOk result (λ rest. All (λ mark. mark ≡ false) rest.marks) }
        ensures pause { (graph : Graph) (seeds : List Seed)
            → IsInRows graph
            → AreSeeds graph.n seeds
            → AreLeastLabels graph.n graph.arcs seeds labels.items
            → IfOk result (λ rest. IsPause graph seeds rest) }
    {
        let marks = vec![in alloc; false; labels.len()]?;
        Ok(Paused { labels, marks })
    }

    /// The label of each vertex, `INF` if no walk was found yet.
    pub fn labels(&self) -> &[u64]
        ensures { result.now ≡ self.now.labels }
    {
        &self.labels
    }

    /// The labels alone.
    pub fn into_labels(self) -> Vec<u64>
        ensures { result.items ≡ self.labels }
    {
        self.labels
    }

    /// Tells if no vertex with a label below the limit is marked. Labels of a pause are then least up to the limit.
    /// Looks at every mark.
    pub fn is_unmarked_below(&self, limit: u64) -> bool
        requires { length self.now.labels ≡ length self.now.marks }
        ensures unmarked { result ≡ true → AreUnmarkedBelow limit self.now }
        ensures marked { result ≡ false → IsMarkedBelow limit self.now }
    {
        for v in 0..self.marks.len() {
            if self.marks[v] && self.labels[v] < limit {
                return false;
            }
        }
        true
    }

    /// Tells if each marked one of `n` vertices is so far from the targets of these bounds that each walk there costs at
    /// least the limit. Looks at every mark.
    pub fn is_marked_far(&self, bounds: &Bounds<'_>, n: u32, limit: u64) -> bool
        requires labels { length self.now.labels ≡ n }
        requires marks { length self.now.marks ≡ n }
        ensures { result ≡ true → AreMarkedFar limit bounds.now self.now }
    {
        for v in 0..n {
            let place = v as usize;
            if self.marks[place] && !bounds.is_past(v, self.labels[place], limit) {
                return false;
            }
        }
        true
    }

    /// Tells if the arcs of a vertex are to be relaxed again.
    pub fn marked(&self, v: u32) -> bool
        requires { v < length self.now.marks }
        ensures { result ≡ mark_of self.now.marks v }
    {
        self.marks[v as usize]
    }

    /// Marks a vertex. A pause stays one: a mark too many costs a visit.
    pub fn mark(&mut self, v: u32)
        requires { v < length self.old.marks }
        ensures { self.new ≡ record self.old { marks = slice_set self.old.marks v true } }
    {
        let place = v as usize;
        self.marks[place] = true;
    }
}
