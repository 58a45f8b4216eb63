//! Scripts of calls on the words, worked by hand.

ghost use Rattle.std.specs.Prelude.{◌≡◌, IfOk};
ghost use Rattle.relax_core.specs.declared.views.TheConstants.{SHARES};
ghost use Rattle.relax_core.specs.Views.{IsOpen};
ghost use Rattle.label_words.specs.Callers.{Stays};
ghost use Rattle.label_words.specs.Closed.{IsEnd};
ghost use Rattle.label_words.specs.Known.{IsIdle, hand_of};
ghost use Rattle.label_words.specs.Paused.{IsPause};
ghost use Rattle.route_walks.specs.Walk.{AreSeeds};

mod callers;
mod refusals;

use csr_graph::Csr;
use label_words::{Closed, Paused, Step, Words, WorkSeat};
use relax_core::{Hand, SHARES};
use route_walks::{ArcRec, EXAMPLE_SEEDS, INF, Memory, Seed, arcs, are_seeds};
use std::alloc::Global;
use std::process::Abort;
use std::test::Fail;

const ARCS: [ArcRec; 4] = arcs![(0, 1, 10), (0, 2, 1), (2, 1, 1), (1, 3, 1)];

const SEVERAL: [Seed; 3] = [
    Seed {
        vertex: 2,
        start: 5,
    },
    Seed {
        vertex: 0,
        start: 3,
    },
    Seed {
        vertex: 2,
        start: 4,
    },
];

// A call, and its result.
#[derive(Clone, Copy)]
enum Call {
    Take(u32, bool),
    Read(u64),
    Lowers(u32, u64),
    Raise,
    RaiseBy(u8),
    SetMark(bool),
    Finish,
    Keep,
    GiveBack(u8),
    See(bool),
}

use Call::{Finish, GiveBack, Keep, Lowers, Raise, RaiseBy, Read, See, SetMark, Take};

// The calls of two seats on words of four vertices, and what is left: settled if no vertex is marked.
struct Script {
    seeds: &'static [Seed],
    // The seat that calls, its call, and its credits then.
    calls: &'static [(u8, Call, u8)],
    labels: [u64; 4],
    marked: &'static [u32],
}

const OPENED: Script = Script {
    seeds: &EXAMPLE_SEEDS,
    calls: &[(0, Take(1, false), 0), (1, See(false), 0)],
    labels: [0, INF, INF, INF],
    marked: &[0],
};

const TO_THE_END: Script = Script {
    seeds: &EXAMPLE_SEEDS,
    calls: &[
        (0, Take(0, true), 1),
        (0, Read(0), 1),
        (0, Lowers(1, 10), 1),
        (0, Raise, 2),
        (0, SetMark(true), 1),
        (1, Take(1, true), 1),
        (1, Read(10), 1),
        (0, Lowers(2, 1), 1),
        (0, Raise, 2),
        (0, SetMark(true), 1),
        (0, Finish, 0),
        (0, Take(2, true), 1),
        (0, Read(1), 1),
        (0, Lowers(1, 2), 1),
        (0, Raise, 2),
        (0, SetMark(true), 1),
        (0, Finish, 0),
        (1, Lowers(3, 11), 1),
        (1, Raise, 2),
        (1, SetMark(true), 1),
        (1, Finish, 0),
        (0, Take(1, true), 1),
        (0, Read(2), 1),
        (0, Lowers(3, 3), 1),
        (0, Raise, 2),
        (0, SetMark(false), 2),
        (0, Finish, 0),
        (1, Take(3, true), 1),
        (1, Read(3), 1),
        (1, Finish, 0),
        (0, See(true), 0),
    ],
    labels: [0, 2, 1, 3],
    marked: &[],
};

// The first seat raises three credits at once and lives on them; while the second keeps one, the first sees no 0.
const KEPT: Script = Script {
    seeds: &EXAMPLE_SEEDS,
    calls: &[
        (0, Take(0, true), 1),
        (0, Read(0), 1),
        (0, Lowers(1, 10), 1),
        (0, RaiseBy(3), 4),
        (0, SetMark(true), 3),
        (0, Lowers(2, 1), 3),
        (0, SetMark(true), 2),
        (0, Keep, 2),
        (0, Take(3, false), 2),
        (1, Take(2, true), 1),
        (1, Read(1), 1),
        (1, Lowers(1, 2), 1),
        (1, RaiseBy(1), 2),
        (1, SetMark(false), 2),
        (1, Keep, 2),
        (1, GiveBack(1), 1),
        (0, Take(1, true), 3),
        (0, Read(2), 3),
        (0, Lowers(3, 3), 3),
        (0, SetMark(true), 2),
        (0, Keep, 2),
        (0, Take(3, true), 3),
        (0, Read(3), 3),
        (0, Keep, 3),
        (0, GiveBack(3), 0),
        (0, See(false), 0),
        (1, GiveBack(1), 0),
        (0, See(true), 0),
    ],
    labels: [0, 2, 1, 3],
    marked: &[],
};

// A run that is closed with a mark that kept credits paid for.
const KEPT_AND_PAUSED: Script = Script {
    seeds: &EXAMPLE_SEEDS,
    calls: &[
        (1, Take(0, true), 1),
        (1, Read(0), 1),
        (1, Lowers(1, 10), 1),
        (1, RaiseBy(254), 255),
        (1, SetMark(true), 254),
        (1, Lowers(2, 1), 254),
        (1, RaiseBy(1), 255),
        (1, SetMark(true), 254),
        (1, Keep, 254),
        (1, Take(1, true), 255),
        (1, Read(10), 255),
        (1, Lowers(3, 11), 255),
        (1, SetMark(true), 254),
        (1, Keep, 254),
        (1, GiveBack(254), 0),
        (1, See(false), 0),
    ],
    labels: [0, 10, 1, 11],
    marked: &[2, 3],
};

const SEVERAL_SEEDS: Script = Script {
    seeds: &SEVERAL,
    calls: &[],
    labels: [3, INF, 4, INF],
    marked: &[0, 2],
};

const NO_SEEDS: Script = Script {
    seeds: &[],
    calls: &[(0, See(true), 0)],
    labels: [INF; 4],
    marked: &[],
};

fn graph(alloc: Global) -> Result<Csr, Memory>
    ensures { IfOk result (λ csr. csr.n ≡ 4) }
{
    Csr::build(alloc, 4, &ARCS)
}

// Tells if the row is at its end, where the seat leaves it and gives back or keeps its credits.
fn ends_row(words: &Words, seat: &mut WorkSeat, csr: &Csr, keeps: bool) -> bool
    requires words { seat.old.words ≡ words.now }
    requires graph { csr.now ≡ seat.old.known.graph }
    requires open { IsOpen (hand_of seat.old) }
    ensures stays { Stays seat.old seat.new }
{
    let Step::RowEnd = words.relax(seat, csr) else {
        return false;
    };
    if !keeps {
        words.finish(seat, csr);
    } else if seat.credits() < 255 {
        words.keep(seat, csr);
    }
    true
}

// Tells if the seat is as the call needs, and result and credits are those of the script.
fn goes(words: &Words, seat: &mut WorkSeat, csr: &Csr, call: Call, credits: u8) -> bool
    requires words { seat.old.words ≡ words.now }
    requires graph { csr.now ≡ seat.old.known.graph }
    ensures stays { Stays seat.old seat.new }
{
    let answers = match (call, seat.hand()) {
        (Take(u, taken), Hand::Idle | Hand::Kept) if u < csr.n() => words.take(seat, u) == taken,
        (Read(label), Hand::Fresh { .. }) => words.read(seat, csr) == label,
        (Lowers(head, label), Hand::Open { .. }) => {
            words.relax(seat, csr) == Step::Lowered { head, label }
        }
        (Raise, Hand::Owe { .. }) if seat.credits() == 1 => {
            words.raise(seat);
            true
        }
        (RaiseBy(count), Hand::Owe { .. }) if count <= 255 - seat.credits() => {
            words.raise_by(seat, count);
            true
        }
        (SetMark(new), Hand::Owe { .. }) if seat.credits() >= 2 => words.set_mark(seat) == new,
        (Finish, Hand::Open { .. }) => ends_row(words, seat, csr, false),
        (Keep, Hand::Open { .. }) => ends_row(words, seat, csr, true),
        (GiveBack(count), Hand::Kept) if count <= seat.credits() => {
            words.give_back(seat, count);
            true
        }
        (See(zero), Hand::Idle) => words.see(seat) == zero,
        _ => false,
    };
    answers && seat.credits() == credits
}

fn expect(rt: &impl Abort, holds: bool, what: &str, number: usize) {
    assert!(rt; holds, "{what} {number}");
}

fn go_along(
    rt: &impl Abort,
    words: &Words,
    left: &mut WorkSeat,
    right: &mut WorkSeat,
    csr: &Csr,
    script: &Script,
)
    requires words { (left.old.words ≡ words.now) × (right.old.words ≡ words.now) }
    requires graph { (csr.now ≡ left.old.known.graph) × (csr.now ≡ right.old.known.graph) }
    ensures left { Stays left.old left.new }
    ensures right { Stays right.old right.new }
{
    for i in 0..script.calls.len() {
        let (seat, call, credits) = script.calls[i];
        let went = if seat == 0 {
            goes(words, left, csr, call, credits)
        } else {
            goes(words, right, csr, call, credits)
        };
        expect(rt, went, "call", i);
    }
}

// Plays a script with this seat and one that is split off and joined again.
fn play(rt: &impl Abort, words: &Words, seat: &mut WorkSeat, csr: &Csr, script: &Script)
    requires words { seat.old.words ≡ words.now }
    requires graph { csr.now ≡ seat.old.known.graph }
    requires idle { IsIdle seat.old }
    requires share { seat.old.known.view.share ≡ SHARES }
    ensures words { seat.new.words ≡ words.now }
    ensures graph { seat.new.known.graph ≡ csr.now }
    ensures seeds { seat.new.known.seeds ≡ seat.old.known.seeds }
    ensures idle { IsIdle seat.new }
    ensures share { seat.new.known.view.share ≡ SHARES }
{
    let mut right = words.split(seat);
    go_along(rt, words, seat, &mut right, csr, script);
    assert!(rt; seat.hand() == Hand::Idle && right.hand() == Hand::Idle);
    words.join(seat, right);
    assert!(rt; seat.share() == SHARES);
}

// Asserts the labels of marked vertices, and that no others have one.
fn expect_marked_labels(rt: &impl Abort, words: &Words, seat: &WorkSeat, script: &Script)
    requires words { seat.now.words ≡ words.now }
    requires vertices { seat.now.known.graph.n ≡ 4 }
{
    for v in 0..4_u32 {
        let place = v as usize;
        let holds = match words.marked_label(seat, v) {
            Some(label) => script.marked.contains(&v) && label == script.labels[place],
            None => !script.marked.contains(&v),
        };
        let hint = words.label_hint(seat, v);
        let same = hint == script.labels[place];
        expect(rt, holds && same, "label of", place);
    }
}

fn close(
    rt: &impl Abort,
    alloc: Global,
    words: Words,
    seat: WorkSeat,
    script: &Script,
) -> Result<Closed, Memory>
    requires words { seat.words ≡ words }
    requires vertices { seat.known.graph.n ≡ 4 }
    requires idle { IsIdle seat }
    requires share { seat.known.view.share ≡ SHARES }
    ensures { IfOk result (λ closed. IsEnd seat.known.graph seat.known.seeds closed) }
{
    expect_marked_labels(rt, &words, &seat, script);
    let closed = words.close(alloc, seat)?;
    for v in 0..4_u32 {
        let place = v as usize;
        let (label, marked) = match &closed {
            Closed::Settled(labels) => (labels[place], false),
            Closed::Paused(rest) => (rest.labels()[place], rest.marked(v)),
        };
        let holds = label == script.labels[place] && marked == script.marked.contains(&v);
        expect(rt, holds, "vertex", place);
    }
    Ok(closed)
}

fn pause_of(alloc: Global, csr: &Csr, seeds: &[Seed], closed: Closed) -> Result<Paused, Memory>
    requires seeds { AreSeeds csr.now.n seeds.now }
    requires end { IsEnd csr.now seeds.now closed }
    ensures { IfOk result (λ rest. IsPause csr.now seeds.now rest) }
{
    let _ = seeds;
    let _n = csr.n();
    match closed {
        Closed::Paused(rest) => Ok(rest),
        Closed::Settled(labels) => Paused::settled(alloc, labels),
    }
}

// Plays a script from opening to closing. What is left comes back from a pause as it was.
fn open_and_close(rt: &impl Abort, alloc: Global, csr: &Csr, script: &Script) -> Result<(), Memory>
    requires { csr.now.n ≡ 4 }
{
    let sown = are_seeds(csr.n(), script.seeds);
    assert!(rt; sown);
    let (words, mut seat) = Words::open(alloc, csr, script.seeds)?;
    play(rt, &words, &mut seat, csr, script);
    let closed = close(rt, alloc, words, seat, script)?;
    let rest = pause_of(alloc, csr, script.seeds, closed)?;
    let (words, mut seat) = Words::reopen(alloc, csr, &rest)?;
    words.see(&mut seat);
    close(rt, alloc, words, seat, script)?;
    Ok(())
}

#[test]
fn credits_are_kept(rt: HostRuntime) -> Result<(), Fail> {
    let csr = graph(rt.alloc())?;
    open_and_close(&rt, rt.alloc(), &csr, &KEPT)?;
    Ok(open_and_close(&rt, rt.alloc(), &csr, &KEPT_AND_PAUSED)?)
}
