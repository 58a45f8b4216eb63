//! The costs from each of many sources.

ghost use Rattle.std.specs.Prelude.{◌≡◌, ◌<◌, [], drop, length, slice_index};
ghost use Rattle.std.specs.Prelude.{IfNone, IfOk, IfSome, OnSome};
ghost use Rattle.std.specs.Thread.{IsSync};
ghost use Rattle.least_costs.specs.Costs.{IsFrom};
ghost use Rattle.least_costs.specs.Each.{AreSources, AreWithin, IsFromPlace};
ghost use Rattle.least_costs.specs.TaskQueue.{AreFinished};

use crate::costs::Costs;
use crate::network::Network;
use crate::solver::Solver;
use crate::start::Start;
use crate::workers::Workers;
use crate::workers::task_queue::{TaskQueue, Tasks};
use crate::workers::teams::TeamGate;
use obim_engine::Gate;
use route_walks::Memory;
use std::alloc::Global;
use std::marker::Model;
use std::sync::Wait;
use std::thread::Threads;
use std::time::Clock;

/// A network, and the sources whose costs are asked for, in this order.
#[derive(Drop)]
pub struct Sources<'a> {
    pub network: &'a Network,
    pub sources: &'a [u32],
}

impl<'a> Tasks<Costs> for Sources<'a> {
    ghost is_part = { IsFromPlace };
}

/// Hands over the least costs from each of many sources, in their order. Costs that wait for their turn take 8 bytes a
/// vertex, up to two for each team.
#[derive(Drop)]
pub struct Each<'a, G> {
    asked: Sources<'a>,
    queue: TaskQueue<'a, Costs, G>,
    next: usize,
}

impl<'a, G> Model for Each<'a, G> {
    ghost use Rattle.std.specs.Prelude.{drop};
    ghost use Rattle.least_costs.specs.Each.{EachSeen, IsTurn};

    ghost Value = { EachSeen };

    ghost view = { λ e. record { net = e.asked.network.now; left = drop e.next e.asked.sources.now } };

    ghost invariant = { λ e. IsTurn e.asked e.next e.queue.made.items };
}

impl<'a, G: Gate + Sync> Solver<'a, G> {
    /// The least costs from each of these sources, one after another by `Each::next`. The plan says how many are
    /// solved at the same time.
    pub fn each<'b>(&'b self, alloc: Global, sources: &'b [u32]) -> Each<'b, G>
        requires { AreWithin self.now.network.now sources.now }
        ensures { result ≡ record { net = self.now.network.now; left = sources.now } }
    {
        let network = self.network;
        let teams = self.plan.teams(network);
        let workers = Workers::new(self.plan.settings, &self.gate, None);
        Each {
            asked: Sources { network, sources },
            queue: TaskQueue::new(alloc, sources.len(), teams, workers),
            next: 0,
        }
    }
}

impl<'a, G: Gate + Sync> Each<'a, G> {
    /// The costs from the next source; `None` after the last one. If memory is refused to a team, all workers try its
    /// source again in its turn. After an `Err` the next source comes.
    pub fn next<H: Threads + Wait + Clock + Sync>(
        &mut self,
        rt: &H,
        alloc: Global,
    ) -> Option<Result<Costs, Memory>>
        ensures net { self.new.net ≡ self.old.net }
        ensures some { OnSome result (0 < length self.old.left) }
        ensures left { OnSome result (self.new.left ≡ drop 1 self.old.left) }
        ensures costs { IfSome result (λ found.
            IfOk found (IsFrom self.old.net (slice_index self.old.left 0))) }
        ensures none { IfNone result (self.old.left ≡ []) }
    {
        let place = self.next;
        if place >= self.asked.sources.len() {
            return None;
        }
        let (network, sources) = (self.asked.network, self.asked.sources);
        let asked = Sources { network, sources };
        let queue = &mut self.queue;
        let found = match take_ahead(rt, alloc, queue, &asked, place) {
            Some(costs) => Ok(costs),
            None => {
                let start = Start::At(sources[place]);
                let workers = &mut queue.workers;
                workers.costs_from(rt, alloc, network, start)
            }
        };
        self.next = place + 1;
        Some(found)
    }
}

/// The costs from the source at a place, if made before their turn.
fn take_ahead<H: Threads + Wait + Clock + Sync, G: Gate + Sync>(
    rt: &H,
    alloc: Global,
    queue: &mut TaskQueue<'_, Costs, G>,
    asked: &Sources<'_>,
    place: usize,
) -> Option<Costs>
    requires sources { AreSources asked.now }
    requires made { AreFinished (IsFromPlace asked.now) queue.old.made.items }
    ensures left { AreFinished (IsFromPlace asked.now) queue.new.made.items }
    ensures costs { IfSome result (IsFromPlace asked.now place) }
{
    queue.take(
        rt,
        alloc,
        asked,
        &|place: usize, workers: &mut Workers<'_, TeamGate<'_, G>>| -> Option<Costs>
            requires sync { IsSync H.row × IsSync G.row }
            requires sources { AreSources asked.now }
            ensures { IfSome result (IsFromPlace asked.entry.now place) }
        { solved_by(rt, alloc, asked, place, workers) },
        place,
    )
}

/// The costs from the source at a place.
fn solved_by<H: Threads + Wait + Clock + Sync, G: Gate + Sync>(
    rt: &H,
    alloc: Global,
    asked: &Sources<'_>,
    place: usize,
    workers: &mut Workers<'_, G>,
) -> Option<Costs>
    requires sources { AreSources asked.now }
    ensures { IfSome result (IsFromPlace asked.now place) }
{
    if place >= asked.sources.len() {
        return None;
    }
    let start = Start::At(asked.sources[place]);
    workers.costs_from(rt, alloc, asked.network, start).ok()
}
