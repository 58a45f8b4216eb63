//! A search from both ends, until what waits on both sides has no lower sum than the labels of a vertex where they met.

ghost use Rattle.std.specs.Prelude.{◌≡◌, ◌+◌, ◌<◌, ◌≤◌, true, [], length, min, IfSome, slice_index};
ghost use Rattle.route_walks.specs.declared.graph.TheConstants.{INF};
ghost use Rattle.route_walks.specs.Label.{IsLeast};
ghost use Rattle.route_walks.specs.Limit.{AreLeastToward};
ghost use Rattle.route_walks.specs.Operators.{seeds_from};
ghost use Rattle.label_words.specs.Paused.{IsPause};
ghost use Rattle.near_labels.specs.Noted.{AreNoted, IsBlank, rest_of};
ghost use Rattle.near_labels.specs.Meeting.{AreBothWays, IsToldOf};

use crate::both_ways::BothWays;
use crate::guide::Guide;
use crate::laws;
use crate::search::begin;
use crate::side::TargetSide;
use crate::state::State;
use csr_graph::Csr;
use route_walks::INF;

/// Returns the least cost from the source to the target, by blank states over the graph and over the reversed graph.
/// `None` if the allowed visits don't do, or memory is refused.
pub(crate) fn cost_from_both(
    forward: &mut State,
    backward: &mut State,
    ways: &BothWays<'_>,
    source: u32,
    target: u32,
) -> Option<u64>
    requires ways { AreBothWays ways.now }
    requires count { length forward.old.labels.items ≡ ways.now.csr.now.n }
    requires count_backward { length backward.old.labels.items ≡ ways.now.csr.now.n }
    requires blank { IsBlank forward.old.labels.items forward.old.marks.items }
    requires blank_backward { IsBlank backward.old.labels.items backward.old.marks.items }
    requires none { forward.old.noted.items ≡ [] }
    requires none_backward { backward.old.noted.items ≡ [] }
    requires source { source < ways.now.csr.now.n }
    requires target { target < ways.now.csr.now.n }
    ensures count { length forward.new.labels.items ≡ ways.now.csr.now.n }
    ensures count_backward { length backward.new.labels.items ≡ ways.now.csr.now.n }
    ensures noted { AreNoted forward.new.labels.items forward.new.marks.items forward.new.noted.items }
    ensures noted_backward { AreNoted backward.new.labels.items backward.new.marks.items backward.new.noted.items }
    ensures least { IfSome result (λ cost. IsLeast ways.now.csr.now.arcs (seeds_from source) target cost) }
{
    if !come_near(forward, backward, ways, source, target) {
        return None;
    }
    cost_seen(forward, backward, ways, source, target)
}

/// Begins at both ends of blank states, and visits vertices on the side where fewer wait until the search is over. Returns
/// false if memory is refused.
fn come_near(
    forward: &mut State,
    backward: &mut State,
    ways: &BothWays<'_>,
    source: u32,
    target: u32,
) -> bool
    requires ways { AreBothWays ways.now }
    requires count { length forward.old.labels.items ≡ ways.now.csr.now.n }
    requires count_backward { length backward.old.labels.items ≡ ways.now.csr.now.n }
    requires blank { IsBlank forward.old.labels.items forward.old.marks.items }
    requires blank_backward { IsBlank backward.old.labels.items backward.old.marks.items }
    requires none { forward.old.noted.items ≡ [] }
    requires none_backward { backward.old.noted.items ≡ [] }
    requires source { source < ways.now.csr.now.n }
    requires target { target < ways.now.csr.now.n }
    ensures count { length forward.new.labels.items ≡ ways.now.csr.now.n }
    ensures count_backward { length backward.new.labels.items ≡ ways.now.csr.now.n }
    ensures noted { AreNoted forward.new.labels.items forward.new.marks.items forward.new.noted.items }
    ensures noted_backward { AreNoted backward.new.labels.items backward.new.marks.items backward.new.noted.items }
    ensures pause { result ≡ true →
        IsPause ways.now.csr.now (seeds_from source) (rest_of forward.new.labels.items forward.new.marks.items) }
    ensures pause_backward { result ≡ true →
        IsPause ways.now.reversed.now (seeds_from target) (rest_of backward.new.labels.items backward.new.marks.items) }
{
    let (csr, reversed) = (ways.csr, ways.reversed);
    if !begin(forward, csr, source, Guide::OtherEnd(&backward.labels)) {
        return false;
    }
    if !begin(backward, reversed, target, Guide::OtherEnd(&forward.labels)) {
        return false;
    }
    for _ in 0..forward.visits {
        if is_over(forward, backward, ways) {
            return true;
        }
        let went = if forward.queue.len() <= backward.queue.len() {
            forward.step(csr, source, Guide::OtherEnd(&backward.labels))
        } else {
            backward.step(reversed, target, Guide::OtherEnd(&forward.labels))
        };
        if !went {
            return false;
        }
    }
    true
}

/// Tells if the sides have met, or too many arcs were relaxed. A hint.
fn is_over(forward: &State, backward: &State, ways: &BothWays<'_>) -> bool {
    let relaxed = forward.relaxed.saturating_add(backward.relaxed);
    relaxed > forward.arcs || have_met(forward, backward, ways)
}

/// Tells if what waits makes no lower sum than where the sides met. A hint.
fn have_met(forward: &State, backward: &State, ways: &BothWays<'_>) -> bool {
    let waits = forward
        .next_label()
        .saturating_add(backward.next_label())
        .saturating_add(u64::from(ways.least_weight));
    waits >= forward.met.min(backward.met)
}

/// The least sum where the sides meet, if what is marked has no lower one.
fn cost_seen(
    forward: &State,
    backward: &State,
    ways: &BothWays<'_>,
    source: u32,
    target: u32,
) -> Option<u64>
    requires ways { AreBothWays ways.now }
    requires noted { AreNoted forward.now.labels.items forward.now.marks.items forward.now.noted.items }
    requires noted_backward { AreNoted backward.now.labels.items backward.now.marks.items backward.now.noted.items }
    requires pause { IsPause ways.now.csr.now (seeds_from source) (rest_of forward.now.labels.items forward.now.marks.items) }
    requires pause_backward { IsPause ways.now.reversed.now (seeds_from target) (rest_of backward.now.labels.items backward.now.marks.items) }
    requires source { source < ways.now.csr.now.n }
    requires target { target < ways.now.csr.now.n }
    ensures { IfSome result (λ cost. IsLeast ways.now.csr.now.arcs (seeds_from source) target cost) }
{
    laws::meeting_is_least();
    let _ = (ways.csr.n(), ways.reversed.n(), source, target);
    let cost = forward.least_meeting(&backward.labels);
    let waits = forward
        .lowest_marked()
        .saturating_add(backward.lowest_marked())
        .saturating_add(u64::from(ways.least_weight));
    if cost <= waits { Some(cost) } else { None }
}

/// Searches as `cost_from_both`, and then on from the source until each vertex on a least walk to the target has its least
/// label. Returns the limit up to which labels are least on that way, which is above the target's label if it is reached.
/// `None` if the allowed visits don't do, or memory is refused.
pub(crate) fn way_from_both(
    forward: &mut State,
    backward: &mut State,
    ways: &BothWays<'_>,
    source: u32,
    target: u32,
) -> Option<u64>
    requires ways { AreBothWays ways.now }
    requires count { length forward.old.labels.items ≡ ways.now.csr.now.n }
    requires count_backward { length backward.old.labels.items ≡ ways.now.csr.now.n }
    requires blank { IsBlank forward.old.labels.items forward.old.marks.items }
    requires blank_backward { IsBlank backward.old.labels.items backward.old.marks.items }
    requires none { forward.old.noted.items ≡ [] }
    requires none_backward { backward.old.noted.items ≡ [] }
    requires source { source < ways.now.csr.now.n }
    requires target { target < ways.now.csr.now.n }
    ensures count { length forward.new.labels.items ≡ ways.now.csr.now.n }
    ensures count_backward { length backward.new.labels.items ≡ ways.now.csr.now.n }
    ensures noted { AreNoted forward.new.labels.items forward.new.marks.items forward.new.noted.items }
    ensures noted_backward { AreNoted backward.new.labels.items backward.new.marks.items backward.new.noted.items }
    ensures start { IfSome result (λ limit. slice_index forward.new.labels.items source ≡ 0) }
    ensures least { IfSome result (λ limit.
        AreLeastToward limit ways.now.csr.now.n ways.now.csr.now.arcs (seeds_from source) target
        (slice_index forward.new.labels.items)) }
    ensures past { IfSome result (λ limit. min (slice_index forward.new.labels.items target + 1) INF ≤ limit) }
{
    if !come_near(forward, backward, ways, source, target) {
        return None;
    }
    if !have_met(forward, backward, ways) {
        return None;
    }
    // The least sum where the sides met is the target's label.
    let limit = forward.met.min(backward.met).saturating_add(1).min(INF);
    let side = side_of(backward, ways, target);
    if !go_on_toward(forward, ways.csr, source, Guide::Toward(&side, limit)) {
        return None;
    }
    way_seen(forward, ways.csr, source, target, &side)
}

/// Hands over the labels of the search from the target.
fn side_of<'a>(backward: &'a State, ways: &BothWays<'_>, target: u32) -> TargetSide<'a>
    requires ways { AreBothWays ways.now }
    requires noted { AreNoted backward.now.labels.items backward.now.marks.items backward.now.noted.items }
    requires pause { IsPause ways.now.reversed.now (seeds_from target) (rest_of backward.now.labels.items backward.now.marks.items) }
    ensures told { IsToldOf ways.now.csr.now target result.labels.now result.low }
{
    laws::far_by_labels_is_past();
    let _ = (ways.reversed.n(), target);
    let low = backward
        .lowest_marked()
        .saturating_add(u64::from(ways.least_weight));
    TargetSide {
        labels: &backward.labels,
        low,
    }
}

/// Visits the marked vertices that are wanted, and no others, in the guide's order. Returns false if memory is refused.
fn go_on_toward(forward: &mut State, csr: &Csr, source: u32, guide: Guide<'_>) -> bool
    requires noted { AreNoted forward.old.labels.items forward.old.marks.items forward.old.noted.items }
    requires pause { IsPause csr.now (seeds_from source) (rest_of forward.old.labels.items forward.old.marks.items) }
    ensures count { length forward.new.labels.items ≡ length forward.old.labels.items }
    ensures noted { AreNoted forward.new.labels.items forward.new.marks.items forward.new.noted.items }
    ensures pause { result ≡ true →
        IsPause csr.now (seeds_from source) (rest_of forward.new.labels.items forward.new.marks.items) }
{
    if !forward.wait_anew(guide) {
        return false;
    }
    let most = forward.relaxed.saturating_add(forward.arcs);
    for _ in 0..forward.visits {
        if forward.queue.is_empty() || forward.relaxed > most {
            return true;
        }
        if !forward.step(csr, source, guide) {
            return false;
        }
    }
    true
}

/// The number after the target's label, if labels are least up to it on the way to the target. Labels past it are dropped, so
/// that they take no time when hops are counted.
fn way_seen(
    forward: &mut State,
    csr: &Csr,
    source: u32,
    target: u32,
    side: &TargetSide<'_>,
) -> Option<u64>
    requires noted { AreNoted forward.old.labels.items forward.old.marks.items forward.old.noted.items }
    requires pause { IsPause csr.now (seeds_from source) (rest_of forward.old.labels.items forward.old.marks.items) }
    requires told { IsToldOf csr.now target side.now.labels.now side.now.low }
    requires target { target < csr.now.n }
    ensures count { length forward.new.labels.items ≡ length forward.old.labels.items }
    ensures noted { AreNoted forward.new.labels.items forward.new.marks.items forward.new.noted.items }
    ensures start { IfSome result (λ limit. slice_index forward.new.labels.items source ≡ 0) }
    ensures least { IfSome result (λ limit. AreLeastToward limit csr.now.n csr.now.arcs (seeds_from source) target
        (slice_index forward.new.labels.items)) }
    ensures past { IfSome result (λ limit. min (slice_index forward.new.labels.items target + 1) INF ≤ limit) }
{
    label_words::laws::pauses_are_least_toward();
    let _ = csr.n();
    let limit = forward.labels[target as usize].saturating_add(1).min(INF);
    if forward.drop_past(source, side, limit) {
        Some(limit)
    } else {
        None
    }
}
