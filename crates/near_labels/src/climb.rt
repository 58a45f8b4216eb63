//! A search from both ends, each over a graph of its own, until no lower label waits than the least sum where they met.

ghost use Rattle.std.specs.Prelude.{◌≡◌, ◌<◌, true, [], length, IfSome, slice_index};
ghost use Rattle.route_walks.specs.Operators.{seeds_from};
ghost use Rattle.label_words.specs.Paused.{IsPause};
ghost use Rattle.near_labels.specs.Noted.{AreNoted, IsBlank, rest_of};
ghost use Rattle.near_labels.specs.UpDown.{IsLeastUpDown};

use crate::guide::Guide;
use crate::laws;
use crate::search::begin;
use crate::state::State;
use csr_graph::Csr;

/// Returns the least cost of two walks that end at the same vertex, from the source over one graph and from the target over
/// the other, by blank states. `None` if the allowed visits don't do, or memory is refused.
pub(crate) fn cost_above(
    forward: &mut State,
    backward: &mut State,
    up: &Csr,
    down: &Csr,
    source: u32,
    target: u32,
) -> Option<u64>
    requires count { length forward.old.labels.items ≡ up.now.n }
    requires count_backward { length backward.old.labels.items ≡ up.now.n }
    requires vertices { down.now.n ≡ up.now.n }
    requires blank { IsBlank forward.old.labels.items forward.old.marks.items }
    requires blank_backward { IsBlank backward.old.labels.items backward.old.marks.items }
    requires none { forward.old.noted.items ≡ [] }
    requires none_backward { backward.old.noted.items ≡ [] }
    requires source { source < up.now.n }
    requires target { target < up.now.n }
    ensures count { length forward.new.labels.items ≡ up.now.n }
    ensures count_backward { length backward.new.labels.items ≡ up.now.n }
    ensures noted { AreNoted forward.new.labels.items forward.new.marks.items forward.new.noted.items }
    ensures noted_backward { AreNoted backward.new.labels.items backward.new.marks.items backward.new.noted.items }
    ensures least { IfSome result (IsLeastUpDown up.now.arcs down.now.arcs source target) }
{
    if !begin(forward, up, source, Guide::OtherEnd(&backward.labels)) {
        return None;
    }
    if !begin(backward, down, target, Guide::OtherEnd(&forward.labels)) {
        return None;
    }
    if !climb(forward, backward, up, down, source, target) {
        return None;
    }
    sum_above(forward, backward, up, down, source, target)
}

/// Visits vertices on the side where the lowest label waits, until none waits that could make a lower sum. Returns false
/// if memory is refused.
fn climb(
    forward: &mut State,
    backward: &mut State,
    up: &Csr,
    down: &Csr,
    source: u32,
    target: u32,
) -> bool
    requires noted { AreNoted forward.old.labels.items forward.old.marks.items forward.old.noted.items }
    requires noted_backward { AreNoted backward.old.labels.items backward.old.marks.items backward.old.noted.items }
    requires pause { IsPause up.now (seeds_from source) (rest_of forward.old.labels.items forward.old.marks.items) }
    requires pause_backward { IsPause down.now (seeds_from target) (rest_of backward.old.labels.items backward.old.marks.items) }
    ensures count { length forward.new.labels.items ≡ length forward.old.labels.items }
    ensures count_backward { length backward.new.labels.items ≡ length backward.old.labels.items }
    ensures noted { AreNoted forward.new.labels.items forward.new.marks.items forward.new.noted.items }
    ensures noted_backward { AreNoted backward.new.labels.items backward.new.marks.items backward.new.noted.items }
    ensures pause { result ≡ true →
        IsPause up.now (seeds_from source) (rest_of forward.new.labels.items forward.new.marks.items) }
    ensures pause_backward { result ≡ true →
        IsPause down.now (seeds_from target) (rest_of backward.new.labels.items backward.new.marks.items) }
{
    for _ in 0..forward.visits {
        if is_high(forward, backward) {
            return true;
        }
        let went = if forward.next_label() <= backward.next_label() {
            forward.step(up, source, Guide::OtherEnd(&backward.labels))
        } else {
            backward.step(down, target, Guide::OtherEnd(&forward.labels))
        };
        if !went {
            return false;
        }
    }
    true
}

/// Tells if no label waits that could make a lower sum, or too many arcs were relaxed. A hint.
fn is_high(forward: &State, backward: &State) -> bool {
    let waits = forward.next_label().min(backward.next_label());
    let relaxed = forward.relaxed.saturating_add(backward.relaxed);
    waits >= forward.met.min(backward.met) || relaxed > forward.arcs
}

/// The least sum where the sides meet, if nothing lower is marked.
fn sum_above(
    forward: &State,
    backward: &State,
    up: &Csr,
    down: &Csr,
    source: u32,
    target: u32,
) -> Option<u64>
    requires noted { AreNoted forward.now.labels.items forward.now.marks.items forward.now.noted.items }
    requires noted_backward { AreNoted backward.now.labels.items backward.now.marks.items backward.now.noted.items }
    requires pause { IsPause up.now (seeds_from source) (rest_of forward.now.labels.items forward.now.marks.items) }
    requires pause_backward { IsPause down.now (seeds_from target) (rest_of backward.now.labels.items backward.now.marks.items) }
    requires vertices { down.now.n ≡ up.now.n }
    requires source { source < up.now.n }
    requires target { target < up.now.n }
    ensures { IfSome result (IsLeastUpDown up.now.arcs down.now.arcs source target) }
{
    laws::meeting_above_is_least();
    let _ = (up.n(), down.n(), source, target);
    let sum = forward.least_meeting(&backward.labels);
    let waits = forward.lowest_marked().min(backward.lowest_marked());
    if sum <= waits { Some(sum) } else { None }
}
