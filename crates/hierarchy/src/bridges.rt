//! Tests that no arc of the graph, and no way over a lower place, is cheaper than a way above.

ghost use Rattle.std.specs.Prelude.{◌≡◌, ◌+◌, ◌<◌, true, All, slice_index};
ghost use Rattle.near_labels.specs.UpDown.{HasUpDown};
ghost use Rattle.csr_graph.specs.Graph.{targets_of};
ghost use Rattle.hierarchy.specs.Checked.{AreBridged, AreKept, AreMet, HaveRoom};

use crate::probe::Probe;
use crate::rows::leads;
use contraction::HierarchyParts;
use csr_graph::{Csr, Target};

/// Tells if walks that meet above cost no more than each arc of the graph.
pub(crate) fn are_kept(probe: &mut Probe, csr: &Csr, parts: &HierarchyParts) -> bool
    requires { HaveRoom probe.old parts.now.up parts.now.down }
    ensures probe { probe.new ≡ probe.old }
    ensures kept { result ≡ true → AreKept (slice_index parts.now.places.items) csr.now.arcs
        parts.now.up.arcs parts.now.down.arcs }
{
    for u in 0..csr.n() {
        if !is_row_kept(probe, parts, u, csr.row(u)) {
            return false;
        }
    }
    true
}

/// Tells if walks that meet above lead from the place of `u` to that of each target, at no more than its weight.
fn is_row_kept(probe: &mut Probe, parts: &HierarchyParts, u: u32, row: &[Target]) -> bool
    requires { HaveRoom probe.old parts.now.up parts.now.down }
    ensures probe { probe.new ≡ probe.old }
    ensures kept { result ≡ true → All (λ target. HasUpDown parts.now.up.arcs parts.now.down.arcs
        (slice_index parts.now.places.items u) (slice_index parts.now.places.items target.head) target.weight) row.now }
{
    for target in row {
        if !is_arc_kept(probe, parts, u, target.head, target.weight) {
            return false;
        }
    }
    true
}

/// Tells if walks that meet above lead from the place of `u` to that of `v`, at no more than `most`.
fn is_arc_kept(probe: &mut Probe, parts: &HierarchyParts, u: u32, v: u32, most: u32) -> bool
    requires { HaveRoom probe.old parts.now.up parts.now.down }
    ensures probe { probe.new ≡ probe.old }
    ensures kept { result ≡ true → HasUpDown parts.now.up.arcs parts.now.down.arcs
        (slice_index parts.now.places.items u) (slice_index parts.now.places.items v) most }
{
    let places = &parts.places;
    if u as usize >= places.len() || v as usize >= places.len() {
        return false;
    }
    let (from, to) = (places[u as usize], places[v as usize]);
    if from >= parts.up.n() || to >= parts.up.n() {
        return false;
    }
    is_met(probe, parts, from, to, u64::from(most))
}

/// Tells if walks that meet above cost no more than each way over a lower place.
pub(crate) fn are_bridged(probe: &mut Probe, parts: &HierarchyParts) -> bool
    requires { HaveRoom probe.old parts.now.up parts.now.down }
    ensures probe { probe.new ≡ probe.old }
    ensures bridged { result ≡ true → AreBridged parts.now.up.arcs parts.now.down.arcs }
{
    // That the graph is in rows tells what its ends are.
    let _ = parts.down.n();
    for v in 0..parts.up.n() {
        if !is_valley_bridged(probe, parts, parts.down.row(v), parts.up.row(v)) {
            return false;
        }
    }
    true
}

/// Tells if walks that meet above cost no more than each way over the place of these two rows.
fn is_valley_bridged(
    probe: &mut Probe,
    parts: &HierarchyParts,
    falls: &[Target],
    rises: &[Target],
) -> bool
    requires room { HaveRoom probe.old parts.now.up parts.now.down }
    requires falls { All (λ target. target.head < probe.old) falls.now }
    requires rises { All (λ target. target.head < probe.old) rises.now }
    ensures probe { probe.new ≡ probe.old }
    ensures met { result ≡ true
        → All (λ from. AreMet parts.now.up.arcs parts.now.down.arcs from.head from.weight rises.now) falls.now }
{
    for from in falls {
        if !is_row_met(probe, parts, from.head, from.weight, rises) {
            return false;
        }
    }
    true
}

/// Tells if walks from `u` that meet above lead to each target, at no more than its weight and what is added.
fn is_row_met(probe: &mut Probe, parts: &HierarchyParts, u: u32, add: u32, row: &[Target]) -> bool
    requires room { HaveRoom probe.old parts.now.up parts.now.down }
    requires place { u < probe.old }
    requires heads { All (λ target. target.head < probe.old) row.now }
    ensures probe { probe.new ≡ probe.old }
    ensures met { result ≡ true → AreMet parts.now.up.arcs parts.now.down.arcs u add row.now }
{
    for target in row {
        let most = u64::from(add) + u64::from(target.weight);
        if !is_met(probe, parts, u, target.head, most) {
            return false;
        }
    }
    true
}

/// Tells if walks from `u` and to `v` that meet above cost no more than `most`: none, one arc, two, or more.
fn is_met(probe: &mut Probe, parts: &HierarchyParts, u: u32, v: u32, most: u64) -> bool
    requires room { HaveRoom probe.old parts.now.up parts.now.down }
    requires place { u < probe.old }
    requires other { v < probe.old }
    ensures probe { probe.new ≡ probe.old }
    ensures met { result ≡ true → HasUpDown parts.now.up.arcs parts.now.down.arcs u v most }
{
    is_near(&parts.up, &parts.down, u, v, most)
        || is_over_top(&parts.up, &parts.down, u, v, most)
        || probe.finds(&parts.up, &parts.down, u, v, most)
}

/// Tells if `u` is `v`, or one arc leads up from `u` to `v` or down, at no more than `most`.
fn is_near(up: &Csr, down: &Csr, u: u32, v: u32, most: u64) -> bool
    requires vertices { down.now.n ≡ up.now.n }
    requires place { u < up.now.n }
    requires other { v < up.now.n }
    ensures { result ≡ true → HasUpDown up.now.arcs down.now.arcs u v most }
{
    if u == v {
        return true;
    }
    if u < v {
        return leads(up.row(u), v, most);
    }
    leads(down.row(v), u, most)
}

/// Tells if an arc up from `u` and one down to `v` meet, at no more than `most`.
fn is_over_top(up: &Csr, down: &Csr, u: u32, v: u32, most: u64) -> bool
    requires vertices { down.now.n ≡ up.now.n }
    requires place { u < up.now.n }
    requires other { v < up.now.n }
    ensures { result ≡ true → HasUpDown up.now.arcs down.now.arcs u v most }
{
    let falls = down.row(v);
    for target in up.row(u) {
        let weight = u64::from(target.weight);
        if weight <= most && leads(falls, target.head, most - weight) {
            return true;
        }
    }
    false
}
