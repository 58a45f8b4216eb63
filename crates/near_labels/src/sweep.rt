//! A sweep: labels that a search left are lowered along a list of vertices, each of which leads to earlier ones alone.

ghost use Rattle.std.specs.Prelude.{◌≡◌, ◌+◌, ◌<◌, ◌≤◌, ◌⊎◌, true, ℕ, All, Contains, length, slice_index};
ghost use Rattle.route_walks.specs.declared.graph.TheConstants.{INF};
ghost use Rattle.route_walks.specs.Limit.{AreLeastLabelsUpTo};
ghost use Rattle.route_walks.specs.Operators.{seeds_from};
ghost use Rattle.near_labels.specs.Noted.{AreNoted};
ghost use Rattle.near_labels.specs.Sweep.{IsLoweredAlong, IsOffered, IsUpward};
ghost use Rattle.near_labels.specs.UpDown.{IsLeastUpDown};

use crate::state::State;
use csr_graph::{Csr, Target};
use route_walks::offer;

/// Lowers the labels of these vertices, in turn, along the arcs of `down`. Returns false if memory is refused.
pub(crate) fn sweep(
    state: &mut State,
    up: &Csr,
    down: &Csr,
    source: u32,
    limit: u64,
    order: &[u32],
) -> bool
    requires noted { AreNoted state.old.labels.items state.old.marks.items state.old.noted.items }
    requires least { AreLeastLabelsUpTo limit down.now.n up.now.arcs (seeds_from source) state.old.labels.items }
    requires limit { INF ≤ limit }
    requires order { All (λ v. v < down.now.n) order.now }
    requires upward { IsUpward down.now.arcs order.now }
    ensures count { length state.new.labels.items ≡ length state.old.labels.items }
    ensures noted { AreNoted state.new.labels.items state.new.marks.items state.new.noted.items }
    ensures least { result ≡ true → (v : ℕ) → v < down.now.n → Contains order.now v
        → IsLeastUpDown up.now.arcs down.now.arcs source v (slice_index state.new.labels.items v) }
{
    // That the graph is in rows tells what its ends are.
    let _ = (up.n(), down.n(), source, limit);
    for v in order {
        if !lower_along(state, down, *v) {
            return false;
        }
    }
    true
}

/// Lowers the label of a vertex to the least that the arcs that leave it allow. Returns false if memory is refused.
fn lower_along(state: &mut State, down: &Csr, v: u32) -> bool
    requires noted { AreNoted state.old.labels.items state.old.marks.items state.old.noted.items }
    requires count { length state.old.labels.items ≡ down.now.n }
    requires vertex { v < down.now.n }
    requires capped { slice_index state.old.labels.items v ≤ INF }
    ensures count { length state.new.labels.items ≡ length state.old.labels.items }
    ensures noted { AreNoted state.new.labels.items state.new.marks.items state.new.noted.items }
    ensures lowered { result ≡ true →
        IsLoweredAlong down.now.arcs v state.old.labels.items state.new.labels.items }
{
    let label = state.labels[v as usize];
    let least = least_along(&state.labels, down.row(v), label);
    if least == label {
        return true;
    }
    state.put(v, least)
}

/// The least of a label and what the arcs of a row offer backwards.
fn least_along(labels: &[u64], row: &[Target], label: u64) -> u64
    requires heads { All (λ target. target.head < length labels.now) row.now }
    requires capped { label ≤ INF }
    ensures falls { result ≤ label }
    ensures low { All (λ target. result ≤ slice_index labels.now target.head + target.weight) row.now }
    ensures met { (result ≡ label) ⊎ IsOffered row.now (slice_index labels.now) result }
{
    let mut least = label;
    for &Target { head, weight } in row {
        least = offer(labels[head as usize], weight).min(least);
    }
    least
}
