//! Callers that know the words by the contracts of the calls.

ghost use Rattle.std.specs.Prelude.{◌≡◌, true, false, ◌<◌, ◌≤◌, ◌+◌, ◌∷◌, All, Contains};
ghost use Rattle.std.specs.Prelude.{IfOk, IfSome, slice_index};
ghost use Rattle.relax_core.specs.declared.views.Hand.TheVariants.{Idle};
ghost use Rattle.route_walks.specs.Label.{AreLeast};
ghost use Rattle.route_walks.specs.Walk.{AreSeeds};
ghost use Rattle.csr_graph.specs.Graph.{end_place};
ghost use Rattle.label_words.specs.Known.{IsIdle};
ghost use Rattle.label_words.specs.Callers.{Stays, HasRowOpen};
ghost use Rattle.relax_core.specs.Views.{place_of};
ghost use Rattle.relax_core.specs.declared.views.TheConstants.{SHARES};

use crate::words::graph;
use csr_graph::Csr;
use label_words::{Closed, Step, Words, WorkSeat};
use route_walks::{EXAMPLE_ARCS, EXAMPLE_SEEDS, Memory, Seed};
use std::alloc::Global;
use std::process::Abort;
use std::test::Fail;
use std::thread::{self, Threads};

// Relaxes the next arc of `u` and sets the mark that is owed. Returns false at the row's end.
fn relax_next(words: &Words, seat: &mut WorkSeat, csr: &Csr, u: u32) -> bool
    requires words { seat.old.words ≡ words.now }
    requires graph { csr.now ≡ seat.old.known.graph }
    requires row { HasRowOpen u seat.old.known.view }
    ensures stays { Stays seat.old seat.new }
    ensures row { HasRowOpen u seat.new.known.view }
    ensures more { result ≡ true
        → place_of seat.new.known.view.hand ≡ place_of seat.old.known.view.hand + 1 }
    ensures arc { result ≡ true → place_of seat.old.known.view.hand < end_place csr.now.arcs u }
    ensures end { result ≡ false → place_of seat.new.known.view.hand ≡ end_place csr.now.arcs u }
{
    match words.relax(seat, csr) {
        Step::RowEnd => return false,
        Step::Kept => {}
        Step::Lowered { .. } => {
            if seat.credits() == 1 {
                words.raise(seat);
            }
            words.set_mark(seat);
        }
    }
    true
}

// Relaxes the row of u to its end and finishes it.
fn relax_row(words: &Words, seat: &mut WorkSeat, csr: &Csr, u: u32)
    requires words { seat.old.words ≡ words.now }
    requires graph { csr.now ≡ seat.old.known.graph }
    requires row { HasRowOpen u seat.old.known.view }
    ensures stays { Stays seat.old seat.new }
    ensures idle { seat.new.known.view.hand ≡ Idle }
{
    while relax_next(words, seat, csr, u) {}
    words.finish(seat, csr);
}

// Visits a vertex if it is marked.
fn visit(words: &Words, seat: &mut WorkSeat, csr: &Csr, u: u32)
    requires words { seat.old.words ≡ words.now }
    requires graph { csr.now ≡ seat.old.known.graph }
    requires idle { seat.old.known.view.hand ≡ Idle }
    requires vertex { u < csr.now.n }
    ensures stays { Stays seat.old seat.new }
    ensures idle { seat.new.known.view.hand ≡ Idle }
{
    if words.take(seat, u) {
        words.read(seat, csr);
        relax_row(words, seat, csr, u);
    }
}

// Visits every vertex in order.
fn sweep(words: &Words, seat: &mut WorkSeat, csr: &Csr)
    requires words { seat.old.words ≡ words.now }
    requires graph { csr.now ≡ seat.old.known.graph }
    requires idle { seat.old.known.view.hand ≡ Idle }
    ensures stays { Stays seat.old seat.new }
    ensures idle { seat.new.known.view.hand ≡ Idle }
{
    for u in 0..csr.n() {
        visit(words, seat, csr, u);
    }
}

// Sweeps until the seat sees the total at 0, at most a thousand times.
fn sweep_until_seen(words: &Words, seat: &mut WorkSeat, csr: &Csr)
    requires words { seat.old.words ≡ words.now }
    requires graph { csr.now ≡ seat.old.known.graph }
    requires idle { seat.old.known.view.hand ≡ Idle }
    ensures stays { Stays seat.old seat.new }
    ensures idle { seat.new.known.view.hand ≡ Idle }
{
    for _ in 0..1000_u32 {
        sweep(words, seat, csr);
        if words.see(seat) {
            return;
        }
    }
}

// Reads the label of a marked vertex without arcs, and leaves it.
fn read_leaf(words: &Words, seat: &mut WorkSeat, csr: &Csr, u: u32) -> Option<u64>
    requires words { seat.old.words ≡ words.now }
    requires graph { csr.now ≡ seat.old.known.graph }
    requires idle { IsIdle seat.old }
    requires vertex { u < csr.now.n }
    ensures stays { Stays seat.old seat.new }
    ensures known { IfSome result (λ label. seat.new.known.labels ≡ (u, label) ∷ seat.old.known.labels) }
    ensures lowest { IfSome result (λ label. All (λ entry. entry.0 ≡ u → label ≤ entry.1) seat.old.known.labels) }
    ensures idle { IfSome result (λ label. IsIdle seat.new) }
{
    if !words.take(seat, u) {
        return None;
    }
    let label = words.read(seat, csr);
    let Step::RowEnd = words.relax(seat, csr) else {
        return None;
    };
    words.finish(seat, csr);
    Some(label)
}

// Reads such a label by a seat that is split off, and joins one that was split off that one. It knows the label too.
fn read_by_others(words: &Words, seat: &mut WorkSeat, csr: &Csr, u: u32) -> Option<u64>
    requires words { seat.old.words ≡ words.now }
    requires graph { csr.now ≡ seat.old.known.graph }
    requires idle { IsIdle seat.old }
    requires share { seat.old.known.view.share ≡ SHARES }
    requires vertex { u < csr.now.n }
    ensures words { seat.new.words ≡ seat.old.words }
    ensures idle { IsIdle seat.new }
    ensures known { IfSome result (λ label. Contains seat.new.known.labels (u, label)) }
{
    let mut other = words.split(seat);
    let label = read_leaf(words, &mut other, csr, u)?;
    let last = words.split(&mut other);
    words.join(seat, last);
    Some(label)
}

// A label that was read is no less than the one at the end.
fn read_and_closed(
    alloc: Global,
    csr: &Csr,
    seeds: &[Seed],
    u: u32,
) -> Result<Option<(u64, u64)>, Memory>
    requires seeds { AreSeeds csr.now.n seeds.now }
    requires vertex { u < csr.now.n }
    ensures { IfOk result (λ found. IfSome found (λ both. both.1 ≤ both.0)) }
{
    let (words, mut seat) = Words::open(alloc, csr, seeds)?;
    let read = read_by_others(&words, &mut seat, csr, u);
    if !words.see(&mut seat) {
        return Ok(None);
    }
    let closed = words.close(alloc, seat)?;
    match (read, closed) {
        (Some(read), Closed::Settled(labels)) => Ok(Some((read, labels[u as usize]))),
        _ => Ok(None),
    }
}

fn sweep_thrice(words: &Words, mut seat: WorkSeat, csr: &Csr) -> WorkSeat
    requires words { seat.words ≡ words.now }
    requires graph { csr.now ≡ seat.known.graph }
    requires idle { seat.known.view.hand ≡ Idle }
    ensures stays { Stays seat result }
    ensures idle { result.known.view.hand ≡ Idle }
{
    for _ in 0..3_u32 {
        sweep(words, &mut seat, csr);
    }
    seat
}

// Three sweeps by each of two threads.
fn sweep_by_two<R: Threads + Sync>(rt: &R, words: &Words, mut seat: WorkSeat, csr: &Csr) -> WorkSeat
    requires words { seat.words ≡ words.now }
    requires graph { csr.now ≡ seat.known.graph }
    requires idle { IsIdle seat }
    requires share { 2 ≤ seat.known.view.share }
    ensures words { result.words ≡ seat.words }
    ensures graph { result.known.graph ≡ seat.known.graph }
    ensures seeds { result.known.seeds ≡ seat.known.seeds }
    ensures idle { IsIdle result }
{
    let other = words.split(&mut seat);
    let (mut left, right) = thread::join(
        rt,
        || sweep_thrice(words, seat, csr),
        || sweep_thrice(words, other, csr),
    );
    words.join(&mut left, right);
    left
}

// The least labels by two threads.
fn settle<R: Threads + Abort + Sync>(
    rt: &R,
    alloc: Global,
    csr: &Csr,
    seeds: &[Seed],
) -> Result<Vec<u64>, Memory>
    requires { AreSeeds csr.now.n seeds.now }
    ensures { IfOk result
        (λ labels. AreLeast csr.now.n csr.now.arcs seeds.now (slice_index labels.items)) }
{
    let (words, seat) = Words::open(alloc, csr, seeds)?;
    let mut seat = sweep_by_two(rt, &words, seat, csr);
    sweep_until_seen(&words, &mut seat, csr);
    assert!(rt; seat.saw());
    match words.close(alloc, seat)? {
        Closed::Settled(labels) => Ok(labels),
        Closed::Paused(_) => unreachable!(),
    }
}

#[test]
fn two_callers(rt: HostRuntime) -> Result<(), Fail> {
    let csr = Csr::build(rt.alloc(), 6, &EXAMPLE_ARCS)?;
    for _ in 0..500_u32 {
        let labels = settle(&rt, rt.alloc(), &csr, &EXAMPLE_SEEDS)?;
        assert!(rt; labels.as_slice() == [0, 10, 10, 12, 10, 15].as_slice());
    }
    Ok(())
}

// No arc leaves vertex 3.
#[test]
fn what_was_read_is_not_exceeded(rt: HostRuntime) -> Result<(), Fail> {
    let csr = graph(rt.alloc())?;
    let found = read_and_closed(rt.alloc(), &csr, &[Seed::new(3, 7)], 3)?;
    assert!(rt; found == Some((7, 7)));
    Ok(())
}
