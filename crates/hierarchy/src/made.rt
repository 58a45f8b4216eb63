//! Tests that each arc is one of the graph, or leads over a lower place.

ghost use Rattle.std.specs.Prelude.{◌≡◌, ◌<◌, true, All, slice_index};
ghost use Rattle.csr_graph.specs.Graph.{targets_of};
ghost use Rattle.hierarchy.specs.Checked.{HasArc, HaveRoom, IsMade, IsOver};

use crate::rows::{is_target, weight_to};
use contraction::HierarchyParts;
use csr_graph::Csr;

/// Tells if each arc up costs no less than an arc of the graph, or than two arcs over a lower place.
pub(crate) fn are_made_up(csr: &Csr, parts: &HierarchyParts) -> bool
    requires { HaveRoom csr.now.n parts.now.up parts.now.down }
    ensures { result ≡ true → All (λ arc. IsMade (slice_index parts.now.vertices.items) csr.now.arcs
        parts.now.up.arcs parts.now.down.arcs arc.tail arc.head arc.weight) parts.now.up.arcs }
{
    for u in 0..parts.up.n() {
        if !is_row_made_up(csr, parts, u) {
            return false;
        }
    }
    true
}

/// Tells if each arc up from a place is made.
fn is_row_made_up(csr: &Csr, parts: &HierarchyParts, u: u32) -> bool
    requires room { HaveRoom csr.now.n parts.now.up parts.now.down }
    requires place { u < parts.now.up.n }
    ensures { result ≡ true → All (λ target. IsMade (slice_index parts.now.vertices.items) csr.now.arcs
        parts.now.up.arcs parts.now.down.arcs u target.head target.weight) (targets_of parts.now.up.arcs u) }
{
    let mut place = parts.up.first(u);
    for target in parts.up.row(u) {
        let origin = origin_at(&parts.origins_up, place);
        if !is_made(csr, parts, origin, u, target.head, target.weight) {
            return false;
        }
        place = place.saturating_add(1);
    }
    true
}

/// Tells if each arc down is made, as `are_made_up`.
pub(crate) fn are_made_down(csr: &Csr, parts: &HierarchyParts) -> bool
    requires { HaveRoom csr.now.n parts.now.up parts.now.down }
    ensures { result ≡ true → All (λ arc. IsMade (slice_index parts.now.vertices.items) csr.now.arcs
        parts.now.up.arcs parts.now.down.arcs arc.head arc.tail arc.weight) parts.now.down.arcs }
{
    for u in 0..parts.down.n() {
        if !is_row_made_down(csr, parts, u) {
            return false;
        }
    }
    true
}

/// Tells if each arc down from a place is made, the other way round.
fn is_row_made_down(csr: &Csr, parts: &HierarchyParts, u: u32) -> bool
    requires room { HaveRoom csr.now.n parts.now.up parts.now.down }
    requires place { u < parts.now.down.n }
    ensures { result ≡ true → All (λ target. IsMade (slice_index parts.now.vertices.items) csr.now.arcs
        parts.now.up.arcs parts.now.down.arcs target.head u target.weight) (targets_of parts.now.down.arcs u) }
{
    let mut place = parts.down.first(u);
    for target in parts.down.row(u) {
        let origin = origin_at(&parts.origins_down, place);
        if !is_made(csr, parts, origin, target.head, u, target.weight) {
            return false;
        }
        place = place.saturating_add(1);
    }
    true
}

/// The origin at a place; `u32::MAX` if there is none.
fn origin_at(origins: &[u32], place: usize) -> u32 {
    match origins.get(place) {
        Some(origin) => *origin,
        None => u32::MAX,
    }
}

/// Tells if what an arc from place `u` to `v` is made of costs no more than `most`, by its origin.
fn is_made(csr: &Csr, parts: &HierarchyParts, origin: u32, u: u32, v: u32, most: u32) -> bool
    requires { HaveRoom csr.now.n parts.now.up parts.now.down }
    ensures { result ≡ true → IsMade (slice_index parts.now.vertices.items) csr.now.arcs
        parts.now.up.arcs parts.now.down.arcs u v most }
{
    let n = csr.n();
    if origin < n {
        is_over(parts, origin, u, v, most)
    } else {
        is_arc(csr, &parts.vertices, origin - n, u, v, most)
    }
}

/// Tells if an arc of the graph from place `u` to `v` costs no more than `most`, by its index in the row of its tail.
fn is_arc(csr: &Csr, vertices: &[u32], index: u32, u: u32, v: u32, most: u32) -> bool
    ensures { result ≡ true → HasArc csr.now.arcs (slice_index vertices.now u) (slice_index vertices.now v) most }
{
    if u as usize >= vertices.len() || v as usize >= vertices.len() {
        return false;
    }
    let (tail, head) = (vertices[u as usize], vertices[v as usize]);
    if tail >= csr.n() {
        return false;
    }
    is_target(csr.row(tail), index as usize, head, most)
}

/// Tells if two arcs over a place cost no more than `most`.
fn is_over(parts: &HierarchyParts, middle: u32, u: u32, v: u32, most: u32) -> bool
    requires up { middle < parts.now.up.n }
    requires down { middle < parts.now.down.n }
    ensures { result ≡ true → IsOver parts.now.up.arcs parts.now.down.arcs u v most }
{
    let Some(from) = weight_to(parts.down.row(middle), u) else {
        return false;
    };
    let Some(onto) = weight_to(parts.up.row(middle), v) else {
        return false;
    };
    u64::from(from) + u64::from(onto) <= u64::from(most)
}
