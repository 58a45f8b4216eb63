//! The costs of pairs.

pub(crate) mod order;

ghost use Rattle.std.specs.Prelude.{◌≡◌, ◌+◌, ◌<◌, ◌≤◌, ◌^◌, ℕ, List, All, IfOk, IfSome, OnOk, length};
ghost use Rattle.std.specs.Thread.{IsSync};
ghost use Rattle.label_words.specs.Closed.{IsEnd, closed_labels};
ghost use Rattle.least_costs.specs.Costs.{AreCostsTo, AreLeastAt};
ghost use Rattle.least_costs.specs.declared.start.Start.TheVariants.{At};
ghost use Rattle.route_walks.specs.Operators.{seeds_from};
ghost use Rattle.least_costs.specs.Network.{IsStartWithin, NetworkSeen, graph_of, seeds_at};
ghost use Rattle.least_costs.specs.Pairs.{AreAsked, AreBySource, AreCostsAfter, AreCostsAt, AreCostsFrom, AreFilled};
ghost use Rattle.least_costs.specs.Pairs.{AreFilledAfter, AreGrownCostsTo, ArePairCosts, ArePairsWithin, AreTargets};
ghost use Rattle.least_costs.specs.Pairs.{AreSharedIn, GrowsInto, IsRun};
ghost use Rattle.least_costs.specs.TaskQueue.{AreFinished};
ghost use Rattle.least_costs.specs.declared.pairs.Pairs.{Pairs};

use crate::costs::costs_at;
use crate::near::Near;
use crate::near::above::{MAX_SHORT_TARGETS, SharedTargets};
use crate::network::Network;
use crate::network::growth::NetworkGrowth;
use crate::network::landmarks::Landmarks;
use crate::pairs::order::{by_source, fill, next_source, run_end};
use crate::progress::{Progress, Unwatched};
use crate::solver::Solver;
use crate::start::Start;
use crate::workers::task_queue::{TaskQueue, Tasks};
use crate::workers::teams::TeamGate;
use crate::workers::workspace::Workspace;
use crate::workers::{Ended, Workers};
use hierarchy::TargetSweep;
use obim_engine::{Closed, Gate, Goal};
use route_walks::Memory;
use std::alloc::Global;
use std::sync::Wait;
use std::thread::Threads;
use std::time::Clock;

/// The pairs asked for. `order` has their sources in rising order, each with the place of its pair.
#[derive(Drop)]
pub struct Pairs<'a> {
    pub network: &'a Network,
    pub landmarks: Option<&'a Landmarks>,
    pub grown: Option<&'a Network>,
    /// The targets of the first source, if there are many and other sources may have the same.
    pub shared: Option<&'a SharedTargets<'a>>,
    pub pairs: &'a [(u32, u32)],
    pub order: &'a [(u32, u32)],
}

/// The costs of pairs; `None` if there is no walk.
#[derive(Drop)]
pub struct PairCosts {
    pub costs: Vec<Option<u64>>,
    /// Those in the grown network, if there is one.
    pub after: Vec<Option<u64>>,
}

/// Pairs that threads share. A function that takes them by this bound is given that they may, and the search for that need
/// not go through two networks there.
trait SharedPairs: Sync {
    ghost seen: { Self → Pairs };

    fn pairs(&self) -> &Pairs<'_>
        ensures { result.now ≡ seen self.now };
}

impl<'a> SharedPairs for Pairs<'a> {
    ghost seen = { λ pairs. pairs };

    fn pairs(&self) -> &Pairs<'_> {
        self
    }
}

impl<'a> Tasks<PairCosts> for Pairs<'a> {
    ghost is_part = { AreCostsFrom };

    /// The place of the first pair of the next source.
    fn after(&self, place: usize) -> usize {
        next_source(self.order, place)
    }
}

impl<'a, G: Gate + Sync> Solver<'a, G> {
    /// The least cost from the source of each pair to its target; `None` if there is no walk. Each source is solved
    /// once, and as many at the same time as the plan says. If the network has landmarks, they tell which vertices are
    /// too far from the target, and these are left alone.
    pub fn between<H: Threads + Wait + Clock + Sync>(
        &self,
        rt: &H,
        alloc: Global,
        pairs: &[(u32, u32)],
    ) -> Result<Vec<Option<u64>>, Memory>
        requires few { length pairs.now < 2 ^ 32 }
        requires within { ArePairsWithin self.now.network.now.n pairs.now }
        ensures { IfOk result (λ costs. ArePairCosts self.now.network.now pairs.now costs.items) }
    {
        let mut kept = Some(Workspace::new());
        let found = self.between_grown(rt, alloc, pairs, None, &mut kept, &mut Unwatched)?;
        Ok(found.costs)
    }

    /// Does what `between` does, and gives the costs in a network that this one grew to by `with_arcs`, if there is
    /// one. Each source is solved once in each network; in the second only what the added arcs change is visited.
    ///
    /// Takes what `kept` has, and gives it back unless memory is refused. Targets near their source are found without
    /// workers, if it searches.
    pub fn between_grown<H: Threads + Wait + Clock + Sync>(
        &self,
        rt: &H,
        alloc: Global,
        pairs: &[(u32, u32)],
        grown: Option<&Network>,
        kept: &mut Option<Workspace>,
        progress: &mut impl Progress,
    ) -> Result<PairCosts, Memory>
        requires few { length pairs.now < 2 ^ 32 }
        requires within { ArePairsWithin self.now.network.now.n pairs.now }
        requires grown { GrowsInto self.now.network.now grown }
        ensures costs { IfOk result (λ found. ArePairCosts self.now.network.now pairs.now found.costs.items) }
        ensures after { IfOk result (λ found. AreCostsAfter grown.entry pairs.now found.after.items) }
    {
        let order = by_source(alloc, pairs)?;
        let (network, landmarks) = (self.network, self.network.landmarks());
        let asked = Pairs {
            network,
            landmarks,
            grown,
            shared: None,
            pairs,
            order: &order,
        };
        let shared = shared_targets(alloc, &asked);
        let asked = Pairs {
            network,
            landmarks,
            grown,
            shared: shared.as_ref(),
            pairs,
            order: &order,
        };
        self.found(rt, alloc, &asked, kept, progress)
    }

    /// The costs of all that is asked.
    fn found<H: Threads + Wait + Clock + Sync>(
        &self,
        rt: &H,
        alloc: Global,
        asked: &Pairs<'_>,
        kept: &mut Option<Workspace>,
        progress: &mut impl Progress,
    ) -> Result<PairCosts, Memory>
        requires { AreAsked asked.now }
        ensures costs { IfOk result (λ found. ArePairCosts asked.now.network.now asked.now.pairs.now found.costs.items) }
        ensures after { IfOk result (λ found. AreCostsAfter asked.now.grown asked.now.pairs.now found.after.items) }
    {
        let mut costs = vec![in alloc; None; asked.pairs.len()]?;
        let mut after = room_after(alloc, asked)?;
        let teams = self.plan.teams(self.network);
        let workers = Workers::new(self.plan.settings, &self.gate, kept.take());
        let mut queue = TaskQueue::new(alloc, asked.order.len(), teams, workers);
        fill_all(
            rt, alloc, asked, &mut queue, &mut costs, &mut after, progress,
        )?;
        *kept = Some(queue.into_workspace());
        Ok(PairCosts { costs, after })
    }
}

/// The places of a hierarchy above the targets of the first source, if these are many and other sources may share them.
fn shared_targets<'a>(alloc: Global, asked: &Pairs<'a>) -> Option<SharedTargets<'a>>
    requires { AreAsked asked.now }
    ensures { IfSome result (AreSharedIn asked.now.network.now) }
{
    let hierarchy = asked.network.hierarchy()?;
    if asked.order.is_empty() {
        return None;
    }
    let end = run_end(asked.order, 0);
    if end <= MAX_SHORT_TARGETS || end == asked.order.len() {
        return None;
    }
    let targets = targets_of(alloc, asked, 0, end).ok()?;
    let sweep = TargetSweep::new(alloc, hierarchy, targets)?;
    Some(SharedTargets { hierarchy, sweep })
}

/// Makes room for the costs in the grown network.
fn room_after(alloc: Global, asked: &Pairs<'_>) -> Result<Vec<Option<u64>>, Memory>
    ensures { IfOk result (λ after.
        IfSome asked.now.grown (λ _. length after.items ≡ length asked.now.pairs.now)) }
{
    match asked.grown {
        None => Ok(Vec::new(alloc)),
        Some(_) => Ok(vec![in alloc; None; asked.pairs.len()]?),
    }
}

/// Fills in the cost of each pair, and that in the grown network.
fn fill_all<H: Threads + Wait + Clock + Sync, G: Gate + Sync>(
    rt: &H,
    alloc: Global,
    asked: &Pairs<'_>,
    queue: &mut TaskQueue<'_, PairCosts, G>,
    costs: &mut [Option<u64>],
    after: &mut [Option<u64>],
    progress: &mut impl Progress,
) -> Result<(), Memory>
    requires asked { AreAsked asked.now }
    requires made { AreFinished (AreCostsFrom asked.now) queue.old.made.items }
    requires places { length costs.old ≡ length asked.now.pairs.now }
    requires after { IfSome asked.now.grown (λ _. length after.old ≡ length asked.now.pairs.now) }
    ensures costs { OnOk result (ArePairCosts asked.now.network.now asked.now.pairs.now costs.new) }
    ensures after { OnOk result (AreCostsAfter asked.now.grown asked.now.pairs.now after.new) }
{
    let order = asked.order;
    let solves = if asked.grown.is_some() { 2 } else { 1 };
    let mut first = 0;
    while first < order.len() {
        let found = costs_next(rt, alloc, asked, queue, first)?;
        let own: &[Option<u64>] = &found.costs;
        fill(costs, order, first, own);
        fill_after(after, asked, first, &found);
        first += own.len();
        progress.see(rt, first, order.len(), solves, queue.at_once());
    }
    Ok(())
}

/// The costs of the source at a place: by the thread that asks if near, else as made before their turn, and else by
/// all workers. After a long search by landmarks those that are made before their turn come first.
fn costs_next<H: Threads + Wait + Clock + Sync, G: Gate + Sync>(
    rt: &H,
    alloc: Global,
    asked: &Pairs<'_>,
    queue: &mut TaskQueue<'_, PairCosts, G>,
    first: usize,
) -> Result<PairCosts, Memory>
    requires asked { AreAsked asked.now }
    requires place { first < length asked.now.order.now }
    requires made { AreFinished (AreCostsFrom asked.now) queue.old.made.items }
    ensures costs { IfOk result (AreCostsFrom asked.now first) }
    ensures left { AreFinished (AreCostsFrom asked.now) queue.new.made.items }
{
    if queue.workers.workspace.near.was_long()
        && let Some(found) = take_ahead(rt, alloc, queue, asked, first)
    {
        return Ok(found);
    }
    if !queue.was_tried(first)
        && let Some(found) = costs_near(alloc, asked, first, &mut queue.workers.workspace)
    {
        return Ok(found);
    }
    match take_ahead(rt, alloc, queue, asked, first) {
        Some(found) => Ok(found),
        None => costs_of(rt, alloc, asked, first, &mut queue.workers),
    }
}

/// The costs of the source at a place, if made before their turn.
fn take_ahead<H: Threads + Wait + Clock + Sync, G: Gate + Sync, S: SharedPairs>(
    rt: &H,
    alloc: Global,
    queue: &mut TaskQueue<'_, PairCosts, G>,
    shared: &S,
    first: usize,
) -> Option<PairCosts>
    requires asked { AreAsked (S.seen shared.now) }
    requires made { AreFinished (AreCostsFrom (S.seen shared.now)) queue.old.made.items }
    ensures left { AreFinished (AreCostsFrom (S.seen shared.now)) queue.new.made.items }
    ensures costs { IfSome result (AreCostsFrom (S.seen shared.now) first) }
{
    queue.take(
        rt,
        alloc,
        shared.pairs(),
        &|place: usize, workers: &mut Workers<'_, TeamGate<'_, G>>| -> Option<PairCosts>
            requires sync { IsSync H.row × IsSync G.row × IsSync S.row }
            requires asked { AreAsked (S.seen shared.now) }
            ensures { IfSome result (AreCostsFrom (S.seen shared.entry.now) place) }
        { costs_by(rt, alloc, shared.pairs(), place, workers) },
        first,
    )
}

/// The costs of the source at a place: by the thread that asks if near, and else by workers.
fn costs_by<H: Threads + Wait + Clock + Sync, G: Gate + Sync>(
    rt: &H,
    alloc: Global,
    asked: &Pairs<'_>,
    place: usize,
    workers: &mut Workers<'_, G>,
) -> Option<PairCosts>
    requires { AreAsked asked.now }
    ensures { IfSome result (AreCostsFrom asked.now place) }
{
    if place >= asked.order.len() {
        return None;
    }
    match costs_near(alloc, asked, place, &mut workers.workspace) {
        Some(costs) => Some(costs),
        None => costs_of(rt, alloc, asked, place, workers).ok(),
    }
}

/// The costs of the source at a place, if near and no arcs are added.
fn costs_near(
    alloc: Global,
    asked: &Pairs<'_>,
    first: usize,
    kept: &mut Workspace,
) -> Option<PairCosts>
    requires asked { AreAsked asked.now }
    requires place { first < length asked.now.order.now }
    ensures { IfSome result (AreCostsFrom asked.now first) }
{
    let None = asked.grown else {
        return None;
    };
    if !kept.searches {
        return None;
    }
    let end = run_end(asked.order, first);
    let Ok(targets) = targets_of(alloc, asked, first, end) else {
        return None;
    };
    let source = asked.order[first].0;
    let Some(costs) = search_targets(alloc, asked, source, &targets, &mut kept.near) else {
        return None;
    };
    let after = Vec::new(alloc);
    Some(PairCosts { costs, after })
}

/// The costs of these targets, if a search finds them: by a hierarchy, by landmarks, or by neither.
fn search_targets(
    alloc: Global,
    asked: &Pairs<'_>,
    source: u32,
    targets: &[u32],
    near: &mut Near,
) -> Option<Vec<Option<u64>>>
    requires landmarks { IfSome asked.now.landmarks (λ l. l.now.graph ≡ graph_of asked.now.network.now) }
    requires shared { IfSome asked.now.shared (λ s. AreSharedIn asked.now.network.now s.now) }
    requires source { source < asked.now.network.now.n }
    requires targets { All (λ t. t < asked.now.network.now.n) targets.now }
    ensures { IfSome result (λ costs. AreCostsTo asked.now.network.now (At source) targets.now costs.items) }
{
    let network = asked.network;
    if let Some(shared) = asked.shared
        && shared.sweep.targets() == targets
    {
        return near.costs_over(alloc, network, shared, source);
    }
    if let Some(hierarchy) = network.hierarchy() {
        return near.costs_above(alloc, network, hierarchy, source, targets);
    }
    match asked.landmarks {
        Some(landmarks) if landmarks.len() > 0 => {
            near.costs_by(alloc, network, landmarks, source, targets)
        }
        _ => near.costs_to(alloc, network, source, targets),
    }
}

/// The costs of the source at a place, by workers.
fn costs_of<H: Threads + Wait + Clock + Sync, G: Gate + Sync>(
    rt: &H,
    alloc: Global,
    asked: &Pairs<'_>,
    first: usize,
    workers: &mut Workers<'_, G>,
) -> Result<PairCosts, Memory>
    requires asked { AreAsked asked.now }
    requires place { first < length asked.now.order.now }
    ensures { IfOk result (AreCostsFrom asked.now first) }
{
    let end = run_end(asked.order, first);
    let targets = targets_of(alloc, asked, first, end)?;
    let (network, start) = (asked.network, Start::At(asked.order[first].0));
    let closed = reach_targets(rt, alloc, asked, asked.order[first].0, &targets, workers)?;
    let costs = costs_at(alloc, network, start, &targets, closed.labels())?;
    let ended = Ended { start, closed };
    let after = costs_grown(rt, alloc, asked, ended, &targets, workers)?;
    Ok(PairCosts { costs, after })
}

/// Runs from a source no further than to these targets, by landmarks if there are some.
fn reach_targets<H: Threads + Wait + Clock + Sync, G: Gate + Sync>(
    rt: &H,
    alloc: Global,
    asked: &Pairs<'_>,
    source: u32,
    targets: &[u32],
    workers: &mut Workers<'_, G>,
) -> Result<Closed, Memory>
    requires landmarks { IfSome asked.now.landmarks (λ l. l.now.graph ≡ graph_of asked.now.network.now) }
    requires source { source < asked.now.network.now.n }
    requires targets { All (λ t. t < asked.now.network.now.n) targets.now }
    ensures end { IfOk result (IsEnd (graph_of asked.now.network.now) (seeds_from source)) }
    ensures least { IfOk result (λ closed.
        AreLeastAt asked.now.network.now (At source) (closed_labels closed) targets.now) }
{
    let network = asked.network;
    match asked.landmarks {
        Some(landmarks) if landmarks.serves(source, targets) => {
            workers.reach_by(rt, alloc, network, landmarks, source, targets)
        }
        _ => {
            let goal = Goal::Targets(targets);
            let reached = workers.reach(rt, alloc, network, Start::At(source), goal)?;
            workers.see_far_run(network, targets, &reached);
            Ok(reached.closed)
        }
    }
}

/// The costs in the grown network, from what the run before it left.
fn costs_grown<H: Threads + Wait + Clock + Sync, G: Gate + Sync>(
    rt: &H,
    alloc: Global,
    asked: &Pairs<'_>,
    ended: Ended,
    targets: &[u32],
    workers: &mut Workers<'_, G>,
) -> Result<Vec<Option<u64>>, Memory>
    requires grows { GrowsInto asked.now.network.now asked.now.grown }
    requires start { IsStartWithin asked.now.network.now.n ended.start }
    requires targets { All (λ t. t < asked.now.network.now.n) targets.now }
    requires closed { IsEnd (graph_of asked.now.network.now) (seeds_at asked.now.network.now.n ended.start) ended.closed }
    ensures { IfOk result (λ after. AreGrownCostsTo asked.now.grown ended.start targets.now after.items) }
{
    let Some(grown) = asked.grown else {
        return Ok(Vec::new(alloc));
    };
    let growth = NetworkGrowth {
        network: asked.network,
        grown,
    };
    let (start, goal) = (ended.start, Goal::Targets(targets));
    let after = workers.reach_after(rt, alloc, &growth, ended, goal)?;
    costs_at(alloc, grown, start, targets, after.closed.labels())
}

/// The targets at these places of the order.
fn targets_of(
    alloc: Global,
    asked: &Pairs<'_>,
    first: usize,
    end: usize,
) -> Result<Vec<u32>, Memory>
    requires asked { AreAsked asked.now }
    requires run { IsRun asked.now.order.now first end }
    ensures { IfOk result (λ targets. AreTargets asked.now first end targets.items) }
{
    let mut targets = Vec::with_capacity(alloc, end - first)?;
    for at in first..end {
        let place = asked.order[at].1 as usize;
        targets.push(asked.pairs[place].1)?;
    }
    Ok(targets)
}

/// Fills in those in the grown network, if there is one.
fn fill_after(filled: &mut [Option<u64>], asked: &Pairs<'_>, first: usize, found: &PairCosts)
    requires asked { AreAsked asked.now }
    requires found { AreCostsFrom asked.now first found.now }
    requires before { AreFilledAfter asked.now.grown asked.now.pairs.now asked.now.order.now first filled.old }
    ensures { AreFilledAfter asked.now.grown asked.now.pairs.now asked.now.order.now
        (first + length found.now.costs.items) filled.new }
{
    if let Some(_) = asked.grown {
        fill(filled, asked.order, first, &found.after);
    }
}
