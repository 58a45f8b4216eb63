//! Two schedules over four vertices, worked by hand, one of which keeps credits, and short lists of events.

ghost use Rattle.std.specs.Prelude.{◌≡◌, ◌<◌, IfOk};
ghost use Rattle.relax_core.specs.State.{IsOf};

mod refusals;

use csr_graph::Csr;
use relax_core::Event::{
    Finish, Join, Keep, Raise, RaiseBy, Read, Relax, Return, See, SetMark, Split, Take,
};
use relax_core::Hand::{Fresh, Idle, Kept, Open, Owe};
use relax_core::{Core, Event, Hand, ReplayFault, SHARES, View, apply, open_core, replay};
use route_walks::{ArcRec, EXAMPLE_SEEDS, INF, Seed, arcs, are_seeds};
use std::alloc::Global;
use std::process::Abort;
use std::test::Fail;

const ARCS: [ArcRec; 4] = arcs![(0, 1, 10), (0, 2, 1), (2, 1, 1), (1, 3, 1)];

// An event, and what follows it: the seat's hand and credits, the total, the labels, and the marks.
type Row = (Event, Hand, u8, u64, [u64; 4], [u8; 4]);

// The rows of a schedule: event => hand, credits, total, labels, marks.
macro_rules! rows {
    ($($event:expr => $hand:expr, $credits:expr, $total:expr, $labels:expr, $marks:expr;)*) => {
        [$(($event, $hand, $credits, $total, $labels, $marks)),*]
    };
}

const SCHEDULE: [Row; 33] = rows![
    Split(0) => Idle, 0, 1, [0, INF, INF, INF], [1, 0, 0, 0];
    Take(0, 0) => Fresh { u: 0 }, 1, 1, [0, INF, INF, INF], [0, 0, 0, 0];
    Read(0) => Open { u: 0, d: 0, k: 0 }, 1, 1, [0, INF, INF, INF], [0, 0, 0, 0];
    Relax(0) => Owe { u: 0, d: 0, k: 1, head: 1 }, 1, 1, [0, 10, INF, INF], [0, 0, 0, 0];
    Raise(0) => Owe { u: 0, d: 0, k: 1, head: 1 }, 2, 2, [0, 10, INF, INF], [0, 0, 0, 0];
    SetMark(0) => Open { u: 0, d: 0, k: 1 }, 1, 2, [0, 10, INF, INF], [0, 1, 0, 0];
    Take(1, 1) => Fresh { u: 1 }, 1, 2, [0, 10, INF, INF], [0, 0, 0, 0];
    Read(1) => Open { u: 1, d: 10, k: 2 }, 1, 2, [0, 10, INF, INF], [0, 0, 0, 0];
    Relax(0) => Owe { u: 0, d: 0, k: 2, head: 2 }, 1, 2, [0, 10, 1, INF], [0, 0, 0, 0];
    Raise(0) => Owe { u: 0, d: 0, k: 2, head: 2 }, 2, 3, [0, 10, 1, INF], [0, 0, 0, 0];
    SetMark(0) => Open { u: 0, d: 0, k: 2 }, 1, 3, [0, 10, 1, INF], [0, 0, 1, 0];
    Finish(0) => Idle, 0, 2, [0, 10, 1, INF], [0, 0, 1, 0];
    Take(0, 2) => Fresh { u: 2 }, 1, 2, [0, 10, 1, INF], [0, 0, 0, 0];
    Read(0) => Open { u: 2, d: 1, k: 3 }, 1, 2, [0, 10, 1, INF], [0, 0, 0, 0];
    Relax(0) => Owe { u: 2, d: 1, k: 4, head: 1 }, 1, 2, [0, 2, 1, INF], [0, 0, 0, 0];
    Raise(0) => Owe { u: 2, d: 1, k: 4, head: 1 }, 2, 3, [0, 2, 1, INF], [0, 0, 0, 0];
    SetMark(0) => Open { u: 2, d: 1, k: 4 }, 1, 3, [0, 2, 1, INF], [0, 1, 0, 0];
    Finish(0) => Idle, 0, 2, [0, 2, 1, INF], [0, 1, 0, 0];
    Relax(1) => Owe { u: 1, d: 10, k: 3, head: 3 }, 1, 2, [0, 2, 1, 11], [0, 1, 0, 0];
    Raise(1) => Owe { u: 1, d: 10, k: 3, head: 3 }, 2, 3, [0, 2, 1, 11], [0, 1, 0, 0];
    SetMark(1) => Open { u: 1, d: 10, k: 3 }, 1, 3, [0, 2, 1, 11], [0, 1, 0, 1];
    Finish(1) => Idle, 0, 2, [0, 2, 1, 11], [0, 1, 0, 1];
    Take(0, 1) => Fresh { u: 1 }, 1, 2, [0, 2, 1, 11], [0, 0, 0, 1];
    Read(0) => Open { u: 1, d: 2, k: 2 }, 1, 2, [0, 2, 1, 11], [0, 0, 0, 1];
    Relax(0) => Owe { u: 1, d: 2, k: 3, head: 3 }, 1, 2, [0, 2, 1, 3], [0, 0, 0, 1];
    Raise(0) => Owe { u: 1, d: 2, k: 3, head: 3 }, 2, 3, [0, 2, 1, 3], [0, 0, 0, 1];
    SetMark(0) => Open { u: 1, d: 2, k: 3 }, 2, 3, [0, 2, 1, 3], [0, 0, 0, 1];
    Finish(0) => Idle, 0, 1, [0, 2, 1, 3], [0, 0, 0, 1];
    Take(1, 3) => Fresh { u: 3 }, 1, 1, [0, 2, 1, 3], [0, 0, 0, 0];
    Read(1) => Open { u: 3, d: 3, k: 4 }, 1, 1, [0, 2, 1, 3], [0, 0, 0, 0];
    Finish(1) => Idle, 0, 0, [0, 2, 1, 3], [0, 0, 0, 0];
    See(0) => Idle, 0, 0, [0, 2, 1, 3], [0, 0, 0, 0];
    Join(0, 1) => Idle, 0, 0, [0, 2, 1, 3], [0, 0, 0, 0];
];

// One seat that raises three credits at once and keeps them from vertex to vertex.
const KEPT_SCHEDULE: [Row; 25] = rows![
    Take(0, 0) => Fresh { u: 0 }, 1, 1, [0, INF, INF, INF], [0, 0, 0, 0];
    Read(0) => Open { u: 0, d: 0, k: 0 }, 1, 1, [0, INF, INF, INF], [0, 0, 0, 0];
    Relax(0) => Owe { u: 0, d: 0, k: 1, head: 1 }, 1, 1, [0, 10, INF, INF], [0, 0, 0, 0];
    RaiseBy(0, 3) => Owe { u: 0, d: 0, k: 1, head: 1 }, 4, 4, [0, 10, INF, INF], [0, 0, 0, 0];
    SetMark(0) => Open { u: 0, d: 0, k: 1 }, 3, 4, [0, 10, INF, INF], [0, 1, 0, 0];
    Relax(0) => Owe { u: 0, d: 0, k: 2, head: 2 }, 3, 4, [0, 10, 1, INF], [0, 1, 0, 0];
    SetMark(0) => Open { u: 0, d: 0, k: 2 }, 2, 4, [0, 10, 1, INF], [0, 1, 1, 0];
    Keep(0) => Kept, 2, 4, [0, 10, 1, INF], [0, 1, 1, 0];
    Take(0, 3) => Kept, 2, 4, [0, 10, 1, INF], [0, 1, 1, 0];
    Take(0, 2) => Fresh { u: 2 }, 3, 4, [0, 10, 1, INF], [0, 1, 0, 0];
    Read(0) => Open { u: 2, d: 1, k: 3 }, 3, 4, [0, 10, 1, INF], [0, 1, 0, 0];
    Relax(0) => Owe { u: 2, d: 1, k: 4, head: 1 }, 3, 4, [0, 2, 1, INF], [0, 1, 0, 0];
    SetMark(0) => Open { u: 2, d: 1, k: 4 }, 3, 4, [0, 2, 1, INF], [0, 1, 0, 0];
    Keep(0) => Kept, 3, 4, [0, 2, 1, INF], [0, 1, 0, 0];
    Return(0, 1) => Kept, 2, 3, [0, 2, 1, INF], [0, 1, 0, 0];
    Take(0, 1) => Fresh { u: 1 }, 3, 3, [0, 2, 1, INF], [0, 0, 0, 0];
    Read(0) => Open { u: 1, d: 2, k: 2 }, 3, 3, [0, 2, 1, INF], [0, 0, 0, 0];
    Relax(0) => Owe { u: 1, d: 2, k: 3, head: 3 }, 3, 3, [0, 2, 1, 3], [0, 0, 0, 0];
    SetMark(0) => Open { u: 1, d: 2, k: 3 }, 2, 3, [0, 2, 1, 3], [0, 0, 0, 1];
    Keep(0) => Kept, 2, 3, [0, 2, 1, 3], [0, 0, 0, 1];
    Take(0, 3) => Fresh { u: 3 }, 3, 3, [0, 2, 1, 3], [0, 0, 0, 0];
    Read(0) => Open { u: 3, d: 3, k: 4 }, 3, 3, [0, 2, 1, 3], [0, 0, 0, 0];
    Keep(0) => Kept, 3, 3, [0, 2, 1, 3], [0, 0, 0, 0];
    Return(0, 3) => Idle, 0, 0, [0, 2, 1, 3], [0, 0, 0, 0];
    See(0) => Idle, 0, 0, [0, 2, 1, 3], [0, 0, 0, 0];
];

fn row(i: usize) -> Row
    requires { i < 33 }
{
    // By a reference, since the table is long to copy.
    let rows = &SCHEDULE;
    rows[i]
}

fn graph(alloc: Global) -> Result<Csr, Fail>
    ensures { IfOk result (λ csr. csr.n ≡ 4) }
{
    Ok(Csr::build(alloc, 4, &ARCS)?)
}

fn events(alloc: Global) -> Result<Vec<Event>, Fail> {
    Ok(SCHEDULE.iter().map(|row| row.0).collect(alloc)?)
}

fn seat_of(event: Event) -> usize {
    match event {
        Take(seat, _) | RaiseBy(seat, _) | Return(seat, _) | Join(seat, _) => seat,
        Read(seat) | Relax(seat) | Raise(seat) | SetMark(seat) => seat,
        Finish(seat) | Keep(seat) | See(seat) | Split(seat) => seat,
    }
}

fn expect_vertex(rt: &impl Abort, v: u32, said: (u64, u8), want: (u64, u8), i: usize) {
    assert_eq!(rt; said, want, "label and mark of {v} after event {i}");
}

fn expect_seat(rt: &impl Abort, view: Option<&View>, (hand, credits): (Hand, u8), i: usize) {
    let said = view.map(|view| (view.hand, view.credits));
    assert_eq!(rt; said, Some((hand, credits)), "after event {i}");
}

fn expect_pending(rt: &impl Abort, core: &Core, total: u64, i: usize) {
    assert_eq!(rt; core.pending(), total, "after event {i}");
}

fn stands_as(rt: &impl Abort, core: &Core, csr: &Csr, row: &Row, i: usize)
    requires vertices { csr.now.n ≡ 4 }
    requires belongs { IsOf csr.now core.now }
{
    let (event, hand, credits, total, labels, marks) = *row;
    for v in 0..4_u32 {
        let said = (core.label(v), u8::from(core.mark(v)));
        expect_vertex(rt, v, said, (labels[v as usize], marks[v as usize]), i);
    }
    expect_pending(rt, core, total, i);
    expect_seat(rt, core.views().get(seat_of(event)), (hand, credits), i);
}

fn stands(rt: &impl Abort, core: &Core, csr: &Csr, i: usize)
    requires vertices { csr.now.n ≡ 4 }
    requires belongs { IsOf csr.now core.now }
    requires place { i < 33 }
{
    stands_as(rt, core, csr, &row(i), i);
}

// Plays a schedule on an open core, and looks at it after each event.
fn play(
    rt: &impl Abort,
    alloc: Global,
    core: &mut Core,
    csr: &Csr,
    rows: &[Row],
) -> Result<(), Fail>
    requires vertices { csr.now.n ≡ 4 }
    requires belongs { IsOf csr.now core.old }
{
    for (i, row) in rows.iter().enumerate() {
        apply(alloc, core, csr, row.0)?;
        stands_as(rt, core, csr, row, i);
    }
    Ok(())
}

fn expect_views(rt: &impl Abort, core: &Core, want: &[View]) {
    assert!(rt; core.views() == want);
}

#[test]
fn the_schedule_event_by_event(rt: HostRuntime) -> Result<(), Fail> {
    let csr = graph(rt.alloc())?;
    let mut core = open_core(rt.alloc(), &csr, &EXAMPLE_SEEDS)?;
    expect_pending(&rt, &core, 1, 0);
    play(&rt, rt.alloc(), &mut core, &csr, &SCHEDULE)?;
    let all = View {
        hand: Idle,
        credits: 0,
        saw: true,
        share: SHARES,
    };
    let spent = View {
        hand: Idle,
        credits: 0,
        saw: false,
        share: 0,
    };
    expect_views(&rt, &core, &[all, spent]);
    Ok(())
}

#[test]
fn the_schedule_of_kept_credits(rt: HostRuntime) -> Result<(), Fail> {
    let csr = graph(rt.alloc())?;
    let mut core = open_core(rt.alloc(), &csr, &EXAMPLE_SEEDS)?;
    play(&rt, rt.alloc(), &mut core, &csr, &KEPT_SCHEDULE)?;
    let all = View {
        hand: Idle,
        credits: 0,
        saw: true,
        share: SHARES,
    };
    expect_views(&rt, &core, &[all]);
    Ok(())
}

#[test]
fn the_schedule_by_replay(rt: HostRuntime) -> Result<(), Fail> {
    let csr = graph(rt.alloc())?;
    let events = events(rt.alloc())?;
    for i in 0..33_usize {
        assert!(rt; i < events.len());
        let core = replay(rt.alloc(), &csr, &EXAMPLE_SEEDS, &events[..i + 1])?;
        stands(&rt, &core, &csr, i);
    }
    Ok(())
}

// Asserts where a list of events stops, or that it is a run.
fn expect_stop(
    rt: &impl Abort,
    alloc: Global,
    csr: &Csr,
    events: &[Event],
    want: Option<usize>,
) -> Result<(), Fail>
    requires { csr.now.n ≡ 4 }
{
    let stop = match replay(alloc, csr, &EXAMPLE_SEEDS, events) {
        Ok(_core) => None,
        Err(ReplayFault::At(i)) => Some(i),
        Err(ReplayFault::Memory) => return Err(ReplayFault::Memory.into()),
    };
    assert_eq!(rt; stop, want);
    Ok(())
}

// A seat with 255 credits at a row's end, which it can't keep.
const TOO_MANY: [Event; 17] = [
    Take(0, 0),
    Read(0),
    Relax(0),
    RaiseBy(0, 254),
    SetMark(0),
    Relax(0),
    RaiseBy(0, 1),
    SetMark(0),
    Keep(0),
    Take(0, 1),
    Read(0),
    Relax(0),
    SetMark(0),
    Keep(0),
    Take(0, 3),
    Read(0),
    Keep(0),
];

const STOPS: [(&[Event], Option<usize>); 6] = [
    (&[], None),
    (&[See(0)], None),
    (&TOO_MANY, Some(16)),
    (&[Join(0, 0)], Some(0)),
    (&[Split(0); 17], Some(16)),
    (&[Split(0), Take(0, 0), Relax(0)], Some(2)),
];

// Events that aren't enabled after this many events of the schedule with kept credits.
const NOT_ENABLED: [(usize, Event); 12] = [
    (0, RaiseBy(0, 1)),
    (0, Keep(0)),
    (0, Return(0, 0)),
    (3, RaiseBy(0, 255)),
    (3, Keep(0)),
    (4, Raise(0)),
    (5, Keep(0)),
    (5, Return(0, 1)),
    (8, See(0)),
    (8, Split(0)),
    (8, Finish(0)),
    (8, Return(0, 3)),
];

#[test]
fn what_kept_credits_do_not_allow(rt: HostRuntime) -> Result<(), Fail> {
    let alloc = rt.alloc();
    let csr = graph(alloc)?;
    for (count, event) in NOT_ENABLED {
        let before = KEPT_SCHEDULE.iter().take(count);
        let mut events: Vec<Event> = before.map(|row| row.0).collect(alloc)?;
        events.push(event)?;
        expect_stop(&rt, alloc, &csr, &events, Some(count))?;
    }
    Ok(())
}

// The schedule without events that raise credits or look at the total.
fn events_without_credits(alloc: Global) -> Result<Vec<Event>, Fail> {
    let mut events = events(alloc)?;
    events.retain(|event| !matches!(event, Raise(_) | See(_)));
    Ok(events)
}

#[test]
fn where_lists_stop(rt: HostRuntime) -> Result<(), Fail> {
    let alloc = rt.alloc();
    let csr = graph(alloc)?;
    for (events, want) in STOPS {
        expect_stop(&rt, alloc, &csr, events, want)?;
    }
    let mut longer = events(alloc)?;
    longer.push(See(1))?;
    expect_stop(&rt, alloc, &csr, &longer, Some(33))?;
    let without_credits = events_without_credits(alloc)?;
    assert!(rt; without_credits.len() == 27);
    expect_stop(&rt, alloc, &csr, &without_credits, Some(4))
}

fn expect_first_look(
    rt: &impl Abort,
    alloc: Global,
    seeds: &[Seed],
    saw: bool,
    pending: u64,
) -> Result<(), Fail> {
    let csr = graph(alloc)?;
    let sown = are_seeds(csr.n(), seeds);
    assert!(rt; sown);
    let core = replay(alloc, &csr, seeds, &[See(0)])?;
    let view = View {
        hand: Idle,
        credits: 0,
        saw,
        share: SHARES,
    };
    expect_views(rt, &core, &[view]);
    expect_pending(rt, &core, pending, 0);
    Ok(())
}

#[test]
fn what_a_first_look_sees(rt: HostRuntime) -> Result<(), Fail> {
    expect_first_look(&rt, rt.alloc(), &EXAMPLE_SEEDS, false, 1)?;
    expect_first_look(&rt, rt.alloc(), &[], true, 0)
}
