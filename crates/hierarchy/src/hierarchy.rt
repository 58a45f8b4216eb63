//! Two graphs of arcs to higher places that tell the least costs of a graph.

ghost use Rattle.std.specs.Prelude.{◌≡◌, ◌<◌, true, IfSome, slice_index};
ghost use Rattle.route_walks.specs.Label.{IsLeast};
ghost use Rattle.route_walks.specs.Operators.{seeds_from};
ghost use Rattle.near_labels.specs.Noted.{AreLeastOf};
ghost use Rattle.hierarchy.specs.Hierarchy.{IsHierarchyOf};
ghost use Rattle.hierarchy.specs.Toward.{IsOrderFor};

use crate::bridges::{are_bridged, are_kept};
use crate::laws;
use crate::made::{are_made_down, are_made_up};
use crate::probe::Probe;
use crate::rising::{are_placed, are_rising};
use contraction::HierarchyParts;
use csr_graph::Csr;
use near_labels::SearchSpace;
use route_walks::INF;
use std::alloc::Global;
use std::fmt;
use std::marker::Model;
use std::snapshot::Snapshot;

/// A hierarchy of a graph, of which it keeps nothing: 12 bytes a vertex more than the rows of its arcs.
#[derive(Drop)]
pub struct Hierarchy {
    places: Vec<u32>,
    up: Csr,
    down: Csr,
    of: Snapshot<Csr>,
}

impl Model for Hierarchy {
    ghost use Rattle.hierarchy.specs.Hierarchy.{HierarchySeen, IsHierarchyOf};

    ghost Value = { HierarchySeen };

    ghost view = { λ h. record {
      graph = h.of.value;
      places = h.places.items;
      up = h.up;
      down = h.down;
    } };

    ghost invariant = { λ h. IsHierarchyOf h.of.value h.places.items h.up h.down };
}

/// Says how many arcs it has.
impl fmt::Debug for Hierarchy {
    fn fmt<W: fmt::Write>(&self, f: &mut fmt::Formatter<W>) -> fmt::Result {
        write!(f, "Hierarchy({})", self.arc_count())
    }
}

impl Hierarchy {
    /// Checks these parts, and returns a hierarchy if they are one of the graph. Returns `None` too if a search gives up, or
    /// memory is refused. Takes 18 bytes a vertex for a while.
    pub fn checked(alloc: Global, csr: &Csr, parts: HierarchyParts) -> Option<Hierarchy>
        ensures of { IfSome result (λ hierarchy. hierarchy.graph ≡ csr.now) }
    {
        let mut probe = Probe::new(alloc, csr.n()).ok()?;
        if !is_hierarchy(&mut probe, csr, &parts) {
            return None;
        }
        Some(Hierarchy {
            places: parts.places,
            up: parts.up,
            down: parts.down,
            of: Snapshot::of(csr),
        })
    }

    /// Returns the least cost from the source to the target, `INF` if there is no walk, by two searches upward. Returns
    /// `None` if the visits that the first space allows don't do, or memory is refused.
    pub fn cost_between(
        &self,
        forward: &mut SearchSpace,
        backward: &mut SearchSpace,
        source: u32,
        target: u32,
    ) -> Option<u64>
        requires vertices { forward.old ≡ self.now.graph.n }
        requires vertices_backward { backward.old ≡ self.now.graph.n }
        requires source { source < self.now.graph.n }
        requires target { target < self.now.graph.n }
        ensures vertices { forward.new ≡ forward.old }
        ensures vertices_backward { backward.new ≡ backward.old }
        ensures least { IfSome result (λ cost. IsLeast self.now.graph.arcs (seeds_from source) target cost) }
    {
        laws::hierarchies_are_exact();
        let (from, to) = (self.places[source as usize], self.places[target as usize]);
        forward.cost_above(backward, &self.up, &self.down, from, to, INF)
    }

    /// The number of its arcs, up and down.
    pub fn arc_count(&self) -> usize {
        self.up.arc_count().saturating_add(self.down.arc_count())
    }

    /// The arcs from higher places, turned round.
    pub(crate) fn down(&self) -> &Csr
        ensures down { result.now ≡ self.now.down }
        ensures vertices { result.now.n ≡ self.now.graph.n }
    {
        &self.down
    }

    /// The place of a vertex.
    pub(crate) fn place(&self, v: u32) -> u32
        requires { v < self.now.graph.n }
        ensures { result ≡ slice_index self.now.places v }
    {
        self.places[v as usize]
    }

    /// Returns the least costs from the source to the targets, in their order, by a sweep over the places of `order` to those of
    /// the targets, `ends`. Returns `None` if the visits that the space allows don't do, or memory is refused.
    pub(crate) fn costs_above(
        &self,
        alloc: Global,
        space: &mut SearchSpace,
        source: u32,
        order: &[u32],
        targets: &[u32],
        ends: &[u32],
    ) -> Option<Vec<u64>>
        requires vertices { space.old ≡ self.now.graph.n }
        requires source { source < self.now.graph.n }
        requires order { IsOrderFor self.now targets.now ends.now order.now }
        ensures vertices { space.new ≡ space.old }
        ensures least { IfSome result (λ costs.
            AreLeastOf self.now.graph.arcs (seeds_from source) targets.now costs.items) }
    {
        laws::hierarchies_are_exact();
        // What the ends are is for the contract alone.
        let _ = targets.len();
        let from = self.places[source as usize];
        space.costs_above(alloc, &self.up, &self.down, from, order, ends)
    }
}

/// Tells if the parts are a hierarchy of the graph.
fn is_hierarchy(probe: &mut Probe, csr: &Csr, parts: &HierarchyParts) -> bool
    requires { probe.old ≡ csr.now.n }
    ensures { result ≡ true → IsHierarchyOf csr.now parts.now.places.items parts.now.up parts.now.down }
{
    laws::checked_is_hierarchy();
    let n = csr.n();
    if parts.up.n() != n || parts.down.n() != n || parts.places.len() != n as usize {
        return false;
    }
    if !are_placed(&parts.vertices, &parts.places) {
        return false;
    }
    if !are_rising(&parts.up) || !are_rising(&parts.down) {
        return false;
    }
    if !are_made_up(csr, parts) || !are_made_down(csr, parts) {
        return false;
    }
    are_kept(probe, csr, parts) && are_bridged(probe, parts)
}
