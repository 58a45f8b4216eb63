//! One worker: it draws a vertex, takes it, relaxes its arcs, and begins again.
//!
//! A worker keeps its credits from visit to visit, and raises many at once, since all would step on the pending total
//! at each mark. It gives all back before it looks at the total, naps, sweeps or leaves.

ghost use Rattle.std.specs.Prelude.{◌≡◌, ◌≢◌, ◌≤◌, ◌<◌, true, false, IfNone, IfSome};
ghost use Rattle.relax_core.specs.declared.views.Hand.TheVariants.{Idle, Fresh};
ghost use Rattle.csr_graph.specs.Graph.{end_place};
ghost use Rattle.label_words.specs.Callers.{Stays, HasRowOpen};
ghost use Rattle.label_words.specs.Known.{HasNoVertex};
ghost use Rattle.relax_core.specs.Views.{place_of};
ghost use Rattle.obim_engine.specs.Workers.{CanLead, AreDone, OwesMark};
ghost use Rattle.obim_engine.specs.declared.goal.Goal.TheVariants as goal;

use crate::budget::Budget;
use crate::gate::Gate;
use crate::goal::Goal;
use crate::hints::aim::{Aim, FindTargets, GoToward, RunToEnd, StopAtLimit, first_look, next_look};
use crate::hints::pace::LeadMonitor;
use crate::hints::patience::Patience;
use crate::hints::pauses::Pauses;
use crate::hints::prefetch::prefetch;
use crate::shared::Shared;
use csr_graph::Csr;
use label_words::{Step, Words, WorkSeat};
use obim_pool::WorkPool;
use relax_core::Hand;
use route_walks::INF;
use std::sync::Wait;
use std::time::Clock;

/// The credits that a worker raises at once, if it has none for a mark.
const RAISED_CREDITS: u8 = 64;

/// The most credits that a worker keeps after a visit; with more it gives all back.
const MAX_KEPT_CREDITS: u8 = 128;

/// Works until the seat sees the total at 0, the budget is spent, or nothing wanted is left to do.
pub(crate) fn work<H: Wait + Clock, P: WorkPool, G: Gate>(
    rt: &H,
    shared: &Shared<'_, P, G>,
    worker: u32,
    seat: WorkSeat,
    side: &mut P::Side,
) -> WorkSeat
    requires words { seat.words ≡ shared.now.words.now }
    requires seat { CanLead shared.now.run.csr.now 1 seat }
    requires side { P.is_side shared.now.run.pool.now side.old }
    ensures seat { AreDone shared.now.run.budget shared.now.run.goal seat result }
    ensures side { P.is_side shared.now.run.pool.now side.new }
{
    match shared.run.goal {
        Goal::EachVertex => work_with(rt, shared, worker, seat, side, &mut RunToEnd),
        Goal::Toward(bounds) => {
            let mut aim = GoToward::new(bounds, shared, &seat);
            work_with(rt, shared, worker, seat, side, &mut aim)
        }
        _ => work_until(rt, shared, worker, seat, side),
    }
}

/// Works without a limit until each target has a label, and then with one. If it finds them late, it goes on to the
/// end.
fn work_until<H: Wait + Clock, P: WorkPool, G: Gate>(
    rt: &H,
    shared: &Shared<'_, P, G>,
    worker: u32,
    seat: WorkSeat,
    side: &mut P::Side,
) -> WorkSeat
    requires words { seat.words ≡ shared.now.words.now }
    requires seat { CanLead shared.now.run.csr.now 1 seat }
    requires goal { shared.now.run.goal ≢ goal.EachVertex }
    requires side { P.is_side shared.now.run.pool.now side.old }
    ensures seat { AreDone shared.now.run.budget shared.now.run.goal seat result }
    ensures side { P.is_side shared.now.run.pool.now side.new }
{
    let mut search = FindTargets::new();
    let mut seat = seat;
    if !search.has_reached_all(&shared.run.goal) {
        seat = work_with(rt, shared, worker, seat, side, &mut search);
        if !search.has_reached_all(&shared.run.goal) {
            return seat;
        }
    }
    if search.is_near_end(shared) {
        return work_with(rt, shared, worker, seat, side, &mut RunToEnd);
    }
    let mut stop = StopAtLimit::new(shared, &seat);
    work_with(rt, shared, worker, seat, side, &mut stop)
}

/// Works as `work` for one aim, or until another is due. The seat goes by value, so that it lies in registers.
fn work_with<H: Wait + Clock, P: WorkPool, G: Gate, A: Aim>(
    rt: &H,
    shared: &Shared<'_, P, G>,
    worker: u32,
    mut seat: WorkSeat,
    side: &mut P::Side,
    aim: &mut A,
) -> WorkSeat
    requires words { seat.words ≡ shared.now.words.now }
    requires seat { CanLead shared.now.run.csr.now 1 seat }
    requires side { P.is_side shared.now.run.pool.now side.old }
    ensures seat { AreDone shared.now.run.budget shared.now.run.goal seat result }
    ensures side { P.is_side shared.now.run.pool.now side.new }
{
    let near = shared.again();
    let n = near.run.csr.n();
    let is_alone = near.pace.is_alone();
    let mut pauses = Pauses::new();
    let mut monitor = LeadMonitor::new(worker, first_look(&near.run.goal));
    let mut budget = Budget::new(near.run.budget);
    let mut patience = Patience::new(n, budget.left());
    for _ in rt.forever() {
        if budget.is_spent() {
            near.pace.worker_left(worker);
            // The run may be over all the same.
            is_over(near.words, &mut seat);
            return seat;
        }
        let popped = match near.run.pool.pop_now(side) {
            Some(v) => Some(v),
            None => near.run.pool.pop(rt, side),
        };
        if !is_alone {
            show(&near, worker, &seat, popped, aim);
        }
        match popped {
            Some(u) if u < n && take_below(&near, &mut seat, aim, u) => {
                prefetch(&near, n, &seat, side);
                visit(rt, &near, worker, &mut seat, side, u, aim);
                budget.spend();
                if monitor.visited() {
                    seat = look(rt, &near, &mut monitor, aim, seat, budget.made());
                    if aim.should_switch(&near) {
                        give_all_back(near.words, &mut seat);
                        return seat;
                    }
                }
            }
            _ => {
                if patience.had_work(budget.left()) {
                    pauses.reset();
                    aim.note_visit();
                }
                let ends = patience.ends(popped);
                // A pool that gave a vertex isn't empty: the next one may be marked.
                if popped.is_some() && !ends {
                    pauses.reset();
                    continue;
                }
                if is_over(near.words, &mut seat) {
                    return seat;
                }
                if aim.should_stop(shared, &seat, worker, popped) {
                    return seat;
                }
                if ends {
                    (seat, budget) = sweep(rt, shared, worker, seat, side, budget, aim);
                    patience.renew();
                }
                pauses.wait(rt, near.pace.needs_sweep());
            }
        }
    }
    unreachable!()
}

/// Takes the mark of `u`, unless its label is past what is wanted.
#[inline(always)]
fn take_below<P, G, A: Aim>(shared: &Shared<'_, P, G>, seat: &mut WorkSeat, aim: &A, u: u32) -> bool
    requires words { seat.old.words ≡ shared.now.words.now }
    requires graph { shared.now.run.csr.now ≡ seat.old.known.graph }
    requires no_vertex { HasNoVertex seat.old }
    requires vertex { u < shared.now.run.csr.now.n }
    ensures stays { Stays seat.old seat.new }
    ensures fresh { result ≡ true → seat.new.known.view.hand ≡ Fresh u }
    ensures credit { result ≡ true → 1 ≤ seat.new.known.view.credits }
    ensures no_vertex { result ≡ false → HasNoVertex seat.new }
{
    !aim.skips(shared, seat, u) && shared.words.take(seat, u)
}

#[inline(always)]
fn give_all_back(words: &Words, seat: &mut WorkSeat)
    requires words { seat.old.words ≡ words.now }
    requires no_vertex { HasNoVertex seat.old }
    ensures stays { Stays seat.old seat.new }
    ensures idle { seat.new.known.view.hand ≡ Idle }
{
    match seat.hand() {
        Hand::Idle => {}
        Hand::Kept => {
            let credits = seat.credits();
            words.give_back(seat, credits);
        }
        _ => unreachable!(),
    }
}

/// Tells if the pending total is 0, after all credits were given back.
#[inline(always)]
fn is_over(words: &Words, seat: &mut WorkSeat) -> bool
    requires words { seat.old.words ≡ words.now }
    requires no_vertex { HasNoVertex seat.old }
    ensures stays { Stays seat.old seat.new }
    ensures idle { seat.new.known.view.hand ≡ Idle }
    ensures saw { result ≡ true → seat.new.known.view.saw ≡ true }
{
    give_all_back(words, seat);
    words.see(seat)
}

/// Looks at the targets and the other workers, and naps, without credits, if it is far ahead.
#[inline(never)]
fn look<C: Clock, P, G, A: Aim>(
    clock: &C,
    shared: &Shared<'_, P, G>,
    monitor: &mut LeadMonitor,
    aim: &mut A,
    mut seat: WorkSeat,
    visits: u64,
) -> WorkSeat
    requires words { seat.words ≡ shared.now.words.now }
    requires graph { shared.now.run.csr.now ≡ seat.known.graph }
    requires no_vertex { HasNoVertex seat }
    ensures stays { Stays seat result }
    ensures no_vertex { HasNoVertex result }
    ensures left { 0 < monitor.new.left }
{
    aim.look(shared, &seat, visits);
    let naps = monitor.is_far_ahead(shared.pace);
    if naps {
        give_all_back(shared.words, &mut seat);
    }
    monitor.look(clock, shared.pace, naps);
    monitor.look_within(next_look(&shared.run.goal));
    seat
}

/// Shows others the metric of the vertex that it is about to take, or `INF`.
fn show<P, G, A: Aim>(
    shared: &Shared<'_, P, G>,
    worker: u32,
    seat: &WorkSeat,
    vertex: Option<u32>,
    aim: &A,
)
    requires words { seat.now.words ≡ shared.now.words.now }
    requires graph { shared.now.run.csr.now ≡ seat.now.known.graph }
{
    let Some(v) = vertex else {
        shared.pace.show(worker, INF);
        return;
    };
    if v < shared.run.csr.n() {
        if let Some(label) = shared.words.marked_label(seat, v) {
            let key = aim.key(v, label);
            shared.pace.show(worker, shared.run.metric_of(key));
        }
    }
}

/// Visits each marked vertex below the limit, in rising order, also those that the pool lost. Returns the seat and the
/// rest of the budget.
#[inline(never)]
fn sweep<H: Wait, P: WorkPool, G: Gate, A: Aim>(
    rt: &H,
    shared: &Shared<'_, P, G>,
    worker: u32,
    mut seat: WorkSeat,
    side: &mut P::Side,
    mut budget: Budget,
    aim: &mut A,
) -> (WorkSeat, Budget)
    requires words { seat.words ≡ shared.now.words.now }
    requires graph { shared.now.run.csr.now ≡ seat.known.graph }
    requires idle { seat.known.view.hand ≡ Idle }
    requires side { P.is_side shared.now.run.pool.now side.old }
    ensures stays { Stays seat result.0 }
    ensures idle { result.0.known.view.hand ≡ Idle }
    ensures side { P.is_side shared.now.run.pool.now side.new }
    ensures limit { result.1.has_limit ≡ budget.has_limit }
{
    shared.pace.sweep_started();
    let before = budget.left();
    for v in 0..shared.run.csr.n() {
        if budget.is_spent() {
            break;
        }
        if !shared.pace.is_alone() {
            show(shared, worker, &seat, Some(v), aim);
        }
        if take_below(shared, &mut seat, aim, v) {
            visit(rt, shared, worker, &mut seat, side, v, aim);
            budget.spend();
        }
    }
    give_all_back(shared.words, &mut seat);
    aim.note_sweep(budget.left() != before);
    (seat, budget)
}

/// Relaxes the row of the taken vertex, and keeps the credits. A head whose label fell is marked, and pushed if it is
/// below the limit.
#[inline(always)]
fn visit<H: Wait, P: WorkPool, G: Gate, A: Aim>(
    rt: &H,
    shared: &Shared<'_, P, G>,
    worker: u32,
    seat: &mut WorkSeat,
    side: &mut P::Side,
    u: u32,
    aim: &A,
)
    requires words { seat.old.words ≡ shared.now.words.now }
    requires graph { shared.now.run.csr.now ≡ seat.old.known.graph }
    requires fresh { seat.old.known.view.hand ≡ Fresh u }
    requires credit { 1 ≤ seat.old.known.view.credits }
    requires vertex { u < shared.now.run.csr.now.n }
    requires side { P.is_side shared.now.run.pool.now side.old }
    ensures stays { Stays seat.old seat.new }
    ensures no_vertex { HasNoVertex seat.new }
    ensures side { P.is_side shared.now.run.pool.now side.new }
{
    let run = &shared.run;
    run.gate.pass(rt, worker, u);
    let (words, csr) = (shared.words, run.csr);
    words.read(seat, csr);
    let end = csr.end(u);
    words.prefetch_labels(seat, csr, u);
    while let Some((head, label)) = next_lowered(words, csr, seat, u, end) {
        mark(words, seat, u);
        let key = aim.key(head, label);
        if aim.is_past(key) {
            continue;
        }
        let metric = run.metric_of(key);
        let pushed = run.pool.push_now(side, head, metric) || run.pool.push(rt, side, head, metric);
        // If the pool refuses the head, it stays marked all the same.
        if !pushed {
            shared.pace.request_sweep();
        }
    }
    if seat.credits() > MAX_KEPT_CREDITS {
        words.finish(seat, csr);
    } else {
        words.keep(seat, csr);
    }
}

/// Relaxes arcs of `u` until the label of a head falls: the head, which is owed a mark, and its label; `None` at the
/// row's end. It never waits.
#[inline(always)]
fn next_lowered(
    words: &Words,
    csr: &Csr,
    seat: &mut WorkSeat,
    u: u32,
    end: usize,
) -> Option<(u32, u64)>
    requires words { seat.old.words ≡ words.now }
    requires graph { csr.now ≡ seat.old.known.graph }
    requires row { HasRowOpen u seat.old.known.view }
    requires end { end ≡ end_place csr.now.arcs u }
    ensures stays { Stays seat.old seat.new }
    ensures owes { IfSome result (λ lowered. OwesMark u seat.new.known.view) }
    ensures arc { IfSome result (λ lowered. place_of seat.old.known.view.hand < place_of seat.new.known.view.hand) }
    ensures within { IfSome result (λ lowered. place_of seat.new.known.view.hand ≤ end) }
    ensures row { IfNone result (HasRowOpen u seat.new.known.view) }
    ensures end { IfNone result (place_of seat.new.known.view.hand ≡ end) }
{
    loop {
        match words.relax_before(seat, csr, end) {
            Step::RowEnd => return None,
            Step::Kept => {}
            Step::Lowered { head, label } => return Some((head, label)),
        }
    }
}

/// Sets the owed mark, with a credit other than that of the worker's vertex.
#[inline(always)]
fn mark(words: &Words, seat: &mut WorkSeat, u: u32)
    requires words { seat.old.words ≡ words.now }
    requires owes { OwesMark u seat.old.known.view }
    ensures stays { Stays seat.old seat.new }
    ensures row { HasRowOpen u seat.new.known.view }
    ensures place { place_of seat.new.known.view.hand ≡ place_of seat.old.known.view.hand }
{
    if seat.credits() == 1 {
        words.raise_by(seat, RAISED_CREDITS);
    }
    words.set_mark(seat);
}
