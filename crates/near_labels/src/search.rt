//! A search from one end, the lowest label first.

ghost use Rattle.std.specs.Prelude.{◌≡◌, ◌+◌, ◌<◌, ◌≤◌, true, [], All, IfSome, length, min, slice_index};
ghost use Rattle.route_walks.specs.declared.graph.TheConstants.{INF};
ghost use Rattle.route_walks.specs.Label.{IsLeast};
ghost use Rattle.route_walks.specs.Limit.{AreLeastLabelsUpTo, AreLeastToward};
ghost use Rattle.csr_graph.specs.Bounds.{AreBounds};
ghost use Rattle.route_walks.specs.Operators.{seeds_from};
ghost use Rattle.label_words.specs.Paused.{IsPause};
ghost use Rattle.near_labels.specs.Aim.{IsServedBy, targets_of};
ghost use Rattle.near_labels.specs.Noted.{AreNoted, IsBlank, rest_of};

use crate::aim::{SearchAim, farthest};
use crate::guide::Guide;
use crate::state::State;
use csr_graph::{Bounds, Csr};
use std::cmp::Reverse;

/// Searches from the source of a blank state until labels serve the aim. Returns the limit up to which they are least;
/// `None` if the allowed visits don't do, or memory is refused.
pub(crate) fn search(state: &mut State, csr: &Csr, source: u32, aim: SearchAim<'_>) -> Option<u64>
    requires count { length state.old.labels.items ≡ csr.now.n }
    requires blank { IsBlank state.old.labels.items state.old.marks.items }
    requires none { state.old.noted.items ≡ [] }
    requires source { source < csr.now.n }
    requires targets { All (λ t. t < csr.now.n) (targets_of aim) }
    ensures count { length state.new.labels.items ≡ csr.now.n }
    ensures noted { AreNoted state.new.labels.items state.new.marks.items state.new.noted.items }
    ensures start { IfSome result (λ limit. slice_index state.new.labels.items source ≡ 0) }
    ensures least { IfSome result (λ limit.
        AreLeastLabelsUpTo limit csr.now.n csr.now.arcs (seeds_from source) state.new.labels.items) }
    ensures served { IfSome result (IsServedBy aim.entry state.new.labels.items) }
{
    let guide = Guide::Labels;
    if !begin(state, csr, source, guide) || !go_on(state, csr, source, &aim, guide) {
        return None;
    }
    limit_reached(state, csr, source, &aim)
}

/// Searches from the source of a blank state, the vertex first that is nearest by bounds, until the labels of their
/// targets are least. Returns false if the allowed visits don't do, or memory is refused.
pub(crate) fn search_toward(state: &mut State, csr: &Csr, source: u32, bounds: &Bounds<'_>) -> bool
    requires count { length state.old.labels.items ≡ csr.now.n }
    requires blank { IsBlank state.old.labels.items state.old.marks.items }
    requires none { state.old.noted.items ≡ [] }
    requires source { source < csr.now.n }
    requires targets { All (λ t. t < csr.now.n) bounds.now.targets.now }
    ensures count { length state.new.labels.items ≡ csr.now.n }
    ensures noted { AreNoted state.new.labels.items state.new.marks.items state.new.noted.items }
    ensures least { result ≡ true → AreBounds csr.now bounds.now →
        All (λ t. IsLeast csr.now.arcs (seeds_from source) t (slice_index state.new.labels.items t))
        bounds.now.targets.now }
{
    let (aim, guide) = (SearchAim::Costs(bounds.targets), Guide::Bounds(bounds));
    if !begin(state, csr, source, guide) || !go_on(state, csr, source, &aim, guide) {
        return false;
    }
    is_done_toward(state, csr, source, bounds)
}

/// Searches as `search_toward`, until each vertex on a least walk to a target has its least label. Returns the limit up to
/// which labels are least on these ways, which is above the label of each target that is reached.
pub(crate) fn search_way_toward(
    state: &mut State,
    csr: &Csr,
    source: u32,
    bounds: &Bounds<'_>,
) -> Option<u64>
    requires count { length state.old.labels.items ≡ csr.now.n }
    requires blank { IsBlank state.old.labels.items state.old.marks.items }
    requires none { state.old.noted.items ≡ [] }
    requires source { source < csr.now.n }
    requires targets { All (λ t. t < csr.now.n) bounds.now.targets.now }
    ensures count { length state.new.labels.items ≡ csr.now.n }
    ensures noted { AreNoted state.new.labels.items state.new.marks.items state.new.noted.items }
    ensures start { IfSome result (λ limit. slice_index state.new.labels.items source ≡ 0) }
    ensures least { AreBounds csr.now bounds.now →
        IfSome result (λ limit. All (λ t. AreLeastToward limit csr.now.n csr.now.arcs (seeds_from source) t
        (slice_index state.new.labels.items)) bounds.now.targets.now) }
    ensures past { IfSome result (λ limit.
        All (λ t. min (slice_index state.new.labels.items t + 1) INF ≤ limit) bounds.now.targets.now) }
{
    let (aim, guide) = (SearchAim::Walks(bounds.targets), Guide::Bounds(bounds));
    if !begin(state, csr, source, guide) || !go_on(state, csr, source, &aim, guide) {
        return None;
    }
    way_reached(state, csr, source, bounds)
}

/// Lets the source wait at label 0.
pub(crate) fn begin(state: &mut State, csr: &Csr, source: u32, guide: Guide<'_>) -> bool
    requires count { length state.old.labels.items ≡ csr.now.n }
    requires blank { IsBlank state.old.labels.items state.old.marks.items }
    requires none { state.old.noted.items ≡ [] }
    requires source { source < csr.now.n }
    ensures count { length state.new.labels.items ≡ csr.now.n }
    ensures noted { AreNoted state.new.labels.items state.new.marks.items state.new.noted.items }
    ensures pause { result ≡ true →
        IsPause csr.now (seeds_from source) (rest_of state.new.labels.items state.new.marks.items) }
{
    // That the graph is in rows tells what its ends are.
    let _vertices = csr.n();
    state.lower(source, 0, guide)
}

/// Visits vertices until no lower label is asked for than the sum by which the next one waits.
fn go_on(state: &mut State, csr: &Csr, source: u32, aim: &SearchAim<'_>, guide: Guide<'_>) -> bool
    requires noted { AreNoted state.old.labels.items state.old.marks.items state.old.noted.items }
    requires pause { IsPause csr.now (seeds_from source) (rest_of state.old.labels.items state.old.marks.items) }
    requires targets { All (λ t. t < csr.now.n) (targets_of aim.now) }
    ensures count { length state.new.labels.items ≡ length state.old.labels.items }
    ensures noted { AreNoted state.new.labels.items state.new.marks.items state.new.noted.items }
    ensures pause { result ≡ true →
        IsPause csr.now (seeds_from source) (rest_of state.new.labels.items state.new.marks.items) }
{
    let n = csr.n();
    let mut seen = 0;
    for _ in 0..state.visits {
        if state.relaxed > state.arcs {
            return true;
        }
        let Some(Reverse(next)) = state.queue.pop() else {
            return true;
        };
        if aim.is_reached(&state.labels, &mut seen, next.sum) {
            return true;
        }
        let u = next.vertex;
        if u < n && state.marks[u as usize] && !state.visit(csr, source, u, guide) {
            return false;
        }
    }
    true
}

/// The limit up to which labels are least, if it serves the aim.
fn limit_reached(state: &State, csr: &Csr, source: u32, aim: &SearchAim<'_>) -> Option<u64>
    requires noted { AreNoted state.now.labels.items state.now.marks.items state.now.noted.items }
    requires pause { IsPause csr.now (seeds_from source) (rest_of state.now.labels.items state.now.marks.items) }
    requires targets { All (λ t. t < csr.now.n) (targets_of aim.now) }
    ensures start { IfSome result (λ limit. slice_index state.now.labels.items source ≡ 0) }
    ensures least { IfSome result (λ limit.
        AreLeastLabelsUpTo limit csr.now.n csr.now.arcs (seeds_from source) state.now.labels.items) }
    ensures served { IfSome result (IsServedBy aim.now state.now.labels.items) }
{
    label_words::laws::pauses_are_least_up_to();
    let _ = (csr.n(), source);
    let limit = aim.limit_of(&state.labels);
    if state.is_unmarked_below(limit) {
        Some(limit)
    } else {
        None
    }
}

/// Tells if what waits is too far from the targets of bounds to lower their labels.
fn is_done_toward(state: &State, csr: &Csr, source: u32, bounds: &Bounds<'_>) -> bool
    requires noted { AreNoted state.now.labels.items state.now.marks.items state.now.noted.items }
    requires pause { IsPause csr.now (seeds_from source) (rest_of state.now.labels.items state.now.marks.items) }
    requires targets { All (λ t. t < csr.now.n) bounds.now.targets.now }
    ensures { result ≡ true → AreBounds csr.now bounds.now →
        All (λ t. IsLeast csr.now.arcs (seeds_from source) t (slice_index state.now.labels.items t))
        bounds.now.targets.now }
{
    label_words::laws::far_pauses_are_least();
    let _ = (csr.n(), source);
    let limit = farthest(&state.labels, bounds.targets);
    state.is_marked_far(bounds, limit)
}

/// The number after the greatest label of the targets of bounds, if labels are least up to it on the way to each.
fn way_reached(state: &State, csr: &Csr, source: u32, bounds: &Bounds<'_>) -> Option<u64>
    requires noted { AreNoted state.now.labels.items state.now.marks.items state.now.noted.items }
    requires pause { IsPause csr.now (seeds_from source) (rest_of state.now.labels.items state.now.marks.items) }
    requires targets { All (λ t. t < csr.now.n) bounds.now.targets.now }
    ensures start { IfSome result (λ limit. slice_index state.now.labels.items source ≡ 0) }
    ensures least { AreBounds csr.now bounds.now →
        IfSome result (λ limit. All (λ t. AreLeastToward limit csr.now.n csr.now.arcs (seeds_from source) t
        (slice_index state.now.labels.items)) bounds.now.targets.now) }
    ensures past { IfSome result (λ limit.
        All (λ t. min (slice_index state.now.labels.items t + 1) INF ≤ limit) bounds.now.targets.now) }
{
    label_words::laws::pauses_are_least_toward();
    let _ = (csr.n(), source);
    let limit = farthest(&state.labels, bounds.targets).saturating_add(1);
    if state.is_marked_far(bounds, limit) {
        Some(limit)
    } else {
        None
    }
}
