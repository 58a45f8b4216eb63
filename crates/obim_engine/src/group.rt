//! Any number of workers: one, or two groups side by side.

ghost use Rattle.std.specs.Prelude.{◌≡◌, ◌+◌, ◌≤◌, None, length, All, IfNone, IfSome};
ghost use Rattle.std.specs.Thread.{IsSync};
ghost use Rattle.obim_engine.specs.Workers.{CanLead, AreDone};

use crate::gate::Gate;
use crate::settings::MAX_WORKERS;
use crate::shared::Shared;
use crate::worker::work;
use label_words::WorkSeat;
use obim_pool::WorkPool;
use std::sync::Wait;
use std::thread::{Threads, join_mut};
use std::time::Clock;

/// Runs a worker for each side, numbered from `first`, until each is done. The seat goes by value, so that it lies in
/// registers. If no thread can be started, workers run one after another on this thread.
#[cycle(group)]
pub(crate) fn run_group<H, S, P, G>(
    rt: &H,
    shared: &Shared<'_, P, G>,
    first: u32,
    mut seat: WorkSeat,
    sides: &mut [S],
) -> WorkSeat
where
    H: Threads + Wait + Clock + Sync,
    S: Send,
    P: WorkPool<Side = S> + Sync,
    G: Gate + Sync,
    requires some { 1 ≤ length sides.old }
    requires words { seat.words ≡ shared.now.words.now }
    requires seat { CanLead shared.now.run.csr.now (length sides.old) seat }
    requires workers { first + length sides.old ≤ MAX_WORKERS }
    requires sides { All (P.is_side shared.now.run.pool.now) sides.old }
    ensures seat { AreDone shared.now.run.budget shared.now.run.goal seat result }
    ensures sides { All (P.is_side shared.now.run.pool.now) sides.new }
{
    if sides.len() == 1 {
        return work(rt, shared, first, seat, &mut sides[0]);
    }
    // The split-off seat has half of the share rounded down, so this one takes the larger half.
    let half = sides.len() - sides.len() / 2;
    let middle = first + half as u32;
    let (front, back) = sides.split_at_mut(half);
    let other = shared.words.split(&mut seat);
    let mut near = Some(seat);
    let mut far = Some(other);
    let (near_done, far_done) = join_mut(
        rt,
        &mut || -> Option<WorkSeat>
            requires sync { IsSync H.row }
            requires some { 1 ≤ length front.now }
            requires words { IfSome near (λ seat. seat.words ≡ shared.now.words.now) }
            requires seat { IfSome near (CanLead shared.now.run.csr.now (length front.now)) }
            requires workers { first + length front.now ≤ MAX_WORKERS }
            requires sides { All (P.is_side shared.now.run.pool.now) front.now }
            ensures seat { IfSome near.entry (λ seat. IfSome result
                (λ done. AreDone shared.entry.now.run.budget shared.entry.now.run.goal seat done)) }
            ensures none { IfNone result (near.entry ≡ None) }
            ensures sides { All (P.is_side shared.entry.now.run.pool.now) front.exit.now }
        {
            match near.take() {
                Some(seat) => Some(run_group(rt, shared, first, seat, front)),
                None => None,
            }
        },
        &mut || -> Option<WorkSeat>
            requires sync { IsSync H.row }
            requires some { 1 ≤ length back.now }
            requires words { IfSome far (λ seat. seat.words ≡ shared.now.words.now) }
            requires seat { IfSome far (CanLead shared.now.run.csr.now (length back.now)) }
            requires workers { middle + length back.now ≤ MAX_WORKERS }
            requires sides { All (P.is_side shared.now.run.pool.now) back.now }
            ensures seat { IfSome far.entry (λ seat. IfSome result
                (λ done. AreDone shared.entry.now.run.budget shared.entry.now.run.goal seat done)) }
            ensures none { IfNone result (far.entry ≡ None) }
            ensures sides { All (P.is_side shared.entry.now.run.pool.now) back.exit.now }
        {
            match far.take() {
                Some(seat) => Some(run_group(rt, shared, middle, seat, back)),
                None => None,
            }
        },
    );
    match (near_done, far_done) {
        (Some(mut seat), Some(other)) => {
            shared.words.join(&mut seat, other);
            seat
        }
        _ => unreachable!(),
    }
}
