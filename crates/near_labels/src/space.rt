//! Room for one search after another.

ghost use Rattle.std.specs.Prelude.{◌≡◌, ◌+◌, ◌<◌, ◌≤◌, ℕ, [], ◌∷◌, All, Contains, IfOk, IfSome, length, min, slice_index};
ghost use Rattle.route_walks.specs.declared.graph.TheConstants.{INF};
ghost use Rattle.route_walks.specs.Label.{IsLeast};
ghost use Rattle.route_walks.specs.Limit.{AreLeastLabelsUpTo};
ghost use Rattle.route_walks.specs.Operators.{seeds_from};
ghost use Rattle.csr_graph.specs.Bounds.{AreBounds};
ghost use Rattle.near_labels.specs.Found.{AreWalksFound};
ghost use Rattle.near_labels.specs.Meeting.{AreBothWays};
ghost use Rattle.near_labels.specs.Noted.{AreLeastOf, AreNoted, AreThoseWithin};
ghost use Rattle.near_labels.specs.Sweep.{AreLeastUpDowns, IsUpward};
ghost use Rattle.near_labels.specs.UpDown.{IsLeastUpDown};

use crate::aim::SearchAim;
use crate::both_ends::{cost_from_both, way_from_both};
use crate::both_ways::BothWays;
use crate::climb::cost_above;
use crate::listing::{labels_of, listed};
use crate::search::{search, search_toward, search_way_toward};
use crate::state::State;
use crate::sweep::sweep;
use crate::walks::{WalksFound, walks_by_labels};
use csr_graph::{Bounds, Csr};
use route_walks::{INF, Memory};
use std::alloc::Global;
use std::marker::Model;
use walk_report::{LabelsBelow, WalkSpace};

/// Room for searches in graphs of this many vertices, one after another. Takes 9 bytes a vertex, and about 30 for each
/// vertex that a search reaches.
#[derive(Drop)]
pub struct SearchSpace {
    state: State,
}

impl Model for SearchSpace {
    ghost use Rattle.std.specs.Prelude.{◌≡◌, ℕ, [], length};
    ghost use Rattle.near_labels.specs.Noted.{IsBlank};

    ghost Value = { ℕ };

    ghost view = { λ s. length s.state.labels.items };

    ghost invariant = { λ s. IsBlank s.state.labels.items s.state.marks.items × (s.state.noted.items ≡ []) };
}

impl SearchSpace {
    /// Makes room for searches in graphs of `n` vertices, in time proportional to `n`.
    pub fn new(alloc: Global, n: u32) -> Result<SearchSpace, Memory>
        ensures { IfOk result (λ space. space ≡ n) }
    {
        let state = State::new(alloc, n)?;
        Ok(SearchSpace { state })
    }

    /// The number of vertices of its graphs.
    pub fn vertices(&self) -> usize
        ensures { result ≡ self.now }
    {
        self.state.labels.len()
    }

    /// Sets how many vertices the next search visits, and how many arcs it relaxes, before it gives up; 0 at first. No
    /// contract says which searches give up.
    pub fn allow(&mut self, visits: u32, arcs: usize)
        ensures { self.new ≡ self.old }
    {
        self.state.visits = visits;
        self.state.arcs = arcs;
        self.state.made = 0;
    }

    /// The number of visits since `allow` was called.
    pub fn visits(&self) -> u32 {
        self.state.made
    }

    /// The number of vertices that the last search from its source reached.
    pub fn reached(&self) -> usize {
        self.state.reached
    }

    /// Returns the least labels of these targets, in their order; `None` if the allowed visits don't do, or memory is
    /// refused. Takes the time of the vertices that are nearer than the farthest target.
    pub fn labels_to(
        &mut self,
        alloc: Global,
        csr: &Csr,
        source: u32,
        targets: &[u32],
    ) -> Option<Vec<u64>>
        requires vertices { self.old ≡ csr.now.n }
        requires source { source < csr.now.n }
        requires targets { All (λ t. t < csr.now.n) targets.now }
        ensures vertices { self.new ≡ self.old }
        ensures least { IfSome result (λ labels.
            AreLeastOf csr.now.arcs (seeds_from source) targets.now labels.items) }
    {
        let reached = search(&mut self.state, csr, source, SearchAim::Costs(targets));
        let labels = match reached {
            Some(limit) => least_of(alloc, csr, source, &self.state.labels, limit, targets),
            None => None,
        };
        self.state.wipe();
        labels
    }

    /// Returns the labels of the targets of bounds, in their order; `None` as for `labels_to`. They are least if these are
    /// bounds of the graph. Takes the time of the vertices by way of which a target may be nearer than the farthest one.
    pub fn labels_toward(
        &mut self,
        alloc: Global,
        csr: &Csr,
        source: u32,
        bounds: &Bounds<'_>,
    ) -> Option<Vec<u64>>
        requires vertices { self.old ≡ csr.now.n }
        requires source { source < csr.now.n }
        requires targets { All (λ t. t < csr.now.n) bounds.now.targets.now }
        ensures vertices { self.new ≡ self.old }
        ensures least { AreBounds csr.now bounds.now → IfSome result (λ labels.
            AreLeastOf csr.now.arcs (seeds_from source) bounds.now.targets.now labels.items) }
    {
        let labels = if search_toward(&mut self.state, csr, source, bounds) {
            labels_of(alloc, &self.state.labels, bounds.targets)
        } else {
            None
        };
        self.state.wipe();
        labels
    }

    /// Returns the least labels of these targets and the walks that `walk_report` prints; `None` as for `labels_to`.
    /// Takes some three times as long.
    pub fn walks_to(
        &mut self,
        walks: &mut WalkSpace,
        alloc: Global,
        csr: &Csr,
        source: u32,
        targets: &[u32],
    ) -> Option<WalksFound>
        requires vertices { self.old ≡ csr.now.n }
        requires vertices_of_walks { walks.old ≡ csr.now.n }
        requires source { source < csr.now.n }
        requires targets { All (λ t. t < csr.now.n) targets.now }
        ensures vertices { self.new ≡ self.old }
        ensures vertices_of_walks { walks.new ≡ walks.old }
        ensures walks { IfSome result (AreWalksFound csr.now.n csr.now.arcs source targets.now) }
    {
        let reached = search(&mut self.state, csr, source, SearchAim::Walks(targets));
        let found = match reached {
            Some(limit) => {
                let from = LabelsBelow {
                    labels: &self.state.labels,
                    source,
                    limit,
                };
                walks_by_labels(walks, alloc, csr, from, targets)
            }
            None => None,
        };
        self.state.wipe();
        found
    }

    /// Returns the labels of the targets of bounds and the walks that `walk_report` prints; `None` as for `labels_to`. They
    /// are least if these are bounds of the graph. Takes the time of the vertices by way of which a walk to a target may be
    /// as short as the farthest one's, and of their arcs.
    pub fn walks_toward(
        &mut self,
        walks: &mut WalkSpace,
        alloc: Global,
        csr: &Csr,
        source: u32,
        bounds: &Bounds<'_>,
    ) -> Option<WalksFound>
        requires vertices { self.old ≡ csr.now.n }
        requires vertices_of_walks { walks.old ≡ csr.now.n }
        requires source { source < csr.now.n }
        requires targets { All (λ t. t < csr.now.n) bounds.now.targets.now }
        ensures vertices { self.new ≡ self.old }
        ensures vertices_of_walks { walks.new ≡ walks.old }
        ensures walks { AreBounds csr.now bounds.now →
            IfSome result (AreWalksFound csr.now.n csr.now.arcs source bounds.now.targets.now) }
    {
        let found = match search_way_toward(&mut self.state, csr, source, bounds) {
            Some(limit) => {
                let from = LabelsBelow {
                    labels: &self.state.labels,
                    source,
                    limit,
                };
                walks_by_labels(walks, alloc, csr, from, bounds.targets)
            }
            None => None,
        };
        self.state.wipe();
        found
    }

    /// Returns the vertices within the bound, in rising order, each with its label; `None` as for `labels_to`. Takes
    /// the time of these vertices.
    pub fn within(
        &mut self,
        alloc: Global,
        csr: &Csr,
        source: u32,
        bound: u64,
    ) -> Option<Vec<(u32, u64)>>
        requires vertices { self.old ≡ csr.now.n }
        requires source { source < csr.now.n }
        requires bound { bound < INF }
        ensures vertices { self.new ≡ self.old }
        ensures within { IfSome result (λ found.
            AreThoseWithin bound csr.now.n csr.now.arcs (seeds_from source) found.items) }
    {
        let reached = search(&mut self.state, csr, source, SearchAim::Within(bound));
        let list = match reached {
            Some(limit) => list_within(&mut self.state, alloc, csr, source, limit, bound),
            None => None,
        };
        self.state.wipe();
        list
    }

    /// Returns the least cost from the source to the target, `INF` if there is no walk; `None` as for `labels_to`. The
    /// other space searches from the target, over the reversed graph.
    pub fn cost_between(
        &mut self,
        backward: &mut SearchSpace,
        ways: &BothWays<'_>,
        source: u32,
        target: u32,
    ) -> Option<u64>
        requires ways { AreBothWays ways.now }
        requires vertices { self.old ≡ ways.now.csr.now.n }
        requires vertices_backward { backward.old ≡ ways.now.csr.now.n }
        requires source { source < ways.now.csr.now.n }
        requires target { target < ways.now.csr.now.n }
        ensures vertices { self.new ≡ self.old }
        ensures vertices_backward { backward.new ≡ backward.old }
        ensures least { IfSome result (λ cost. IsLeast ways.now.csr.now.arcs (seeds_from source) target cost) }
    {
        let (forward, back) = (&mut self.state, &mut backward.state);
        let cost = cost_from_both(forward, back, ways, source, target);
        self.state.wipe();
        backward.state.wipe();
        cost
    }

    /// Returns the least label of the target and the walk that `walk_report` prints; `None` as for `labels_to`. The other
    /// space searches from the target, over the reversed graph. Takes the time of `cost_between`, of the vertices on least
    /// walks to the target, and of what the search reached.
    pub fn walk_between(
        &mut self,
        backward: &mut SearchSpace,
        walks: &mut WalkSpace,
        alloc: Global,
        ways: &BothWays<'_>,
        source: u32,
        target: u32,
    ) -> Option<WalksFound>
        requires ways { AreBothWays ways.now }
        requires vertices { self.old ≡ ways.now.csr.now.n }
        requires vertices_backward { backward.old ≡ ways.now.csr.now.n }
        requires vertices_of_walks { walks.old ≡ ways.now.csr.now.n }
        requires source { source < ways.now.csr.now.n }
        requires target { target < ways.now.csr.now.n }
        ensures vertices { self.new ≡ self.old }
        ensures vertices_backward { backward.new ≡ backward.old }
        ensures vertices_of_walks { walks.new ≡ walks.old }
        ensures walks { IfSome result
            (AreWalksFound ways.now.csr.now.n ways.now.csr.now.arcs source (target ∷ [])) }
    {
        let (forward, back) = (&mut self.state, &mut backward.state);
        let found = match way_from_both(forward, back, ways, source, target) {
            Some(limit) => {
                let from = LabelsBelow {
                    labels: &forward.labels,
                    source,
                    limit,
                };
                walks_by_labels(walks, alloc, ways.csr, from, &[target])
            }
            None => None,
        };
        forward.wipe();
        back.wipe();
        found
    }

    /// Returns the least that a walk from the source over `up` and one from the target over `down` cost together if they end
    /// at the same vertex; `INF` if there are none. `None` as for `labels_to`, and perhaps if that is more than `most`. The
    /// other space searches from the target. Visits all vertices of lower labels on both sides, so it serves graphs that lead
    /// to few vertices.
    pub fn cost_above(
        &mut self,
        backward: &mut SearchSpace,
        up: &Csr,
        down: &Csr,
        source: u32,
        target: u32,
        most: u64,
    ) -> Option<u64>
        requires vertices { self.old ≡ up.now.n }
        requires vertices_backward { backward.old ≡ up.now.n }
        requires same { down.now.n ≡ up.now.n }
        requires source { source < up.now.n }
        requires target { target < up.now.n }
        ensures vertices { self.new ≡ self.old }
        ensures vertices_backward { backward.new ≡ backward.old }
        ensures least { IfSome result (IsLeastUpDown up.now.arcs down.now.arcs source target) }
    {
        let (state, other) = (&mut self.state, &mut backward.state);
        // A search ends once no label waits that is less than the least sum that it has met.
        state.met = most.saturating_add(1);
        let cost = cost_above(state, other, up, down, source, target);
        state.wipe();
        other.wipe();
        cost
    }

    /// Returns for each target, in their order, what `cost_above` does; `None` as for `labels_to`. In `order` each vertex comes
    /// after those to which its arcs of `down` lead. Takes the time of a search over `up`, and of these arcs.
    pub fn costs_above(
        &mut self,
        alloc: Global,
        up: &Csr,
        down: &Csr,
        source: u32,
        order: &[u32],
        targets: &[u32],
    ) -> Option<Vec<u64>>
        requires vertices { self.old ≡ up.now.n }
        requires same { down.now.n ≡ up.now.n }
        requires source { source < up.now.n }
        requires order { All (λ v. v < up.now.n) order.now }
        requires upward { IsUpward down.now.arcs order.now }
        requires targets { All (Contains order.now) targets.now }
        ensures vertices { self.new ≡ self.old }
        ensures least { IfSome result (λ costs.
            AreLeastUpDowns up.now.arcs down.now.arcs source targets.now costs.items) }
    {
        let state = &mut self.state;
        let swept = match search(state, up, source, SearchAim::Within(INF)) {
            Some(limit) => sweep(state, up, down, source, limit, order),
            None => false,
        };
        let costs = if swept {
            labels_above(alloc, up, down, source, &state.labels, order, targets)
        } else {
            None
        };
        state.wipe();
        costs
    }
}

/// The labels of targets, which are least.
fn labels_above(
    alloc: Global,
    up: &Csr,
    down: &Csr,
    source: u32,
    labels: &[u64],
    order: &[u32],
    targets: &[u32],
) -> Option<Vec<u64>>
    requires count { length labels.now ≡ down.now.n }
    requires order { All (λ v. v < down.now.n) order.now }
    requires targets { All (Contains order.now) targets.now }
    requires least { (v : ℕ) → v < down.now.n → Contains order.now v
        → IsLeastUpDown up.now.arcs down.now.arcs source v (slice_index labels.now v) }
    ensures { IfSome result (λ costs.
        AreLeastUpDowns up.now.arcs down.now.arcs source targets.now costs.items) }
{
    // Whose labels they are is for the contract alone.
    let _ = (up.n(), down.n(), source, order.len());
    labels_of(alloc, labels, targets)
}

/// The labels of these vertices, which are below the limit up to which all are least.
fn least_of(
    alloc: Global,
    csr: &Csr,
    source: u32,
    labels: &[u64],
    limit: u64,
    vertices: &[u32],
) -> Option<Vec<u64>>
    requires vertices { All (λ v. v < csr.now.n) vertices.now }
    requires least { AreLeastLabelsUpTo limit csr.now.n csr.now.arcs (seeds_from source) labels.now }
    requires near { All (λ v. slice_index labels.now v ≤ limit) vertices.now }
    ensures { IfSome result (λ found. AreLeastOf csr.now.arcs (seeds_from source) vertices.now found.items) }
{
    route_walks::laws::least_up_to_a_limit();
    // Whose labels they are, and up to where they are least, is for the contract alone.
    let _ = (csr.n(), source, limit);
    labels_of(alloc, labels, vertices)
}

fn list_within(
    state: &mut State,
    alloc: Global,
    csr: &Csr,
    source: u32,
    limit: u64,
    bound: u64,
) -> Option<Vec<(u32, u64)>>
    requires noted { AreNoted state.old.labels.items state.old.marks.items state.old.noted.items }
    requires least { AreLeastLabelsUpTo limit csr.now.n csr.now.arcs (seeds_from source) state.old.labels.items }
    requires past { min (bound + 1) INF ≤ limit }
    requires bound { bound < INF }
    ensures count { length state.new.labels.items ≡ length state.old.labels.items }
    ensures noted { AreNoted state.new.labels.items state.new.marks.items state.new.noted.items }
    ensures within { IfSome result (λ found.
        AreThoseWithin bound csr.now.n csr.now.arcs (seeds_from source) found.items) }
{
    route_walks::laws::least_up_to_a_limit();
    let _ = (csr.n(), source, limit);
    if !state.sort_noted() {
        return None;
    }
    listed(alloc, &state.labels, &state.noted, bound)
}
