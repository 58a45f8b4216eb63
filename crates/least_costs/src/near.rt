//! Costs to vertices near the source, found before workers are asked.

pub(crate) mod above;
pub(crate) mod budget;
pub(crate) mod room;
pub(crate) mod visits;

ghost use Rattle.std.specs.Prelude.{◌≡◌, ◌<◌, ◌++◌, true, All, IfSome, length};
ghost use Rattle.route_walks.specs.declared.graph.TheConstants.{INF};
ghost use Rattle.near_labels.specs.Found.{AreWalksFound};
ghost use Rattle.least_costs.specs.Costs.{AreCostsTo};
ghost use Rattle.least_costs.specs.Near.{AreCostsWithin, AreLabelsTo};
ghost use Rattle.least_costs.specs.Network.{graph_of};
ghost use Rattle.least_costs.specs.Pairs.{ArePairsWithin};
ghost use Rattle.least_costs.specs.declared.start.Start.TheVariants.{At};

use crate::costs::costs_in_order;
use crate::near::budget::SearchBudget;
use crate::near::room::{
    fit, fit_walks, label_by_both, labels_by, labels_toward, walk_by_both, walks_by, walks_toward,
    within_by,
};
use crate::near::visits::FarVisits;
use crate::network::Network;
use crate::network::landmarks::Landmarks;
use crate::start::Start;
use near_labels::{SearchSpace, WalksFound};
use std::alloc::Global;
use walk_report::WalkSpace;

/// The rows are worth reversing once searches to one target have visited as many vertices as this part of the network.
const SPENT_IN: u64 = 4;

/// A search that finds nothing counts as so much of the network if its frontier is wide. Searches from both ends meet
/// after few visits then, where workers visit much of the network.
const VAIN_IN: u64 = 8;

/// A frontier is wide if it has one vertex for so many visited. On a map it has far fewer, and searches from both ends
/// gain little there for far targets.
const VISITED_A_VERTEX: usize = 2;

/// By landmarks so few targets that lie apart are searched one by one.
pub(crate) const MAX_TARGETS_ONE_BY_ONE: usize = 8;

/// A search by landmarks of more visits is worth a team of its own.
const MAX_SHORT_VISITS: u32 = 2048;

/// Visits so few are never worth it.
const MIN_SPENT_VISITS: u64 = 4096;

/// The room for searches by the thread that asks. They take the time of what they visit, without a pass over all
/// vertices.
#[derive(Drop)]
pub(crate) struct Near {
    forward: Option<SearchSpace>,
    backward: Option<SearchSpace>,
    walks: Option<WalkSpace>,
    one_end: SearchBudget,
    both_ends: SearchBudget,
    by_landmarks: SearchBudget,
    /// The visits of all searches.
    visits: u64,
    /// Those from one end to one target since the rows were reversed last.
    spent: u64,
    /// The visits for sources whose targets weren't near.
    pub(crate) far: FarVisits,
    /// True if the last search by landmarks was long.
    was_long: bool,
}

impl Near {
    /// Makes no room yet.
    pub(crate) fn new() -> Near {
        Near {
            forward: None,
            backward: None,
            walks: None,
            one_end: SearchBudget::of(0),
            both_ends: SearchBudget::of(0),
            by_landmarks: SearchBudget::by_landmarks(0),
            visits: 0,
            spent: 0,
            far: FarVisits::none(),
            was_long: false,
        }
    }

    /// The visits of all searches so far.
    pub(crate) fn visits(&self) -> u64 {
        self.visits
    }

    /// Counts what searches of others visited too, after the same choice of landmarks.
    pub(crate) fn add(&mut self, others: &Near) {
        self.visits = self.visits.saturating_add(others.visits);
        self.far.add(others.far);
    }

    /// Tells if the rows are worth reversing.
    pub(crate) fn wants_reversed(&self, network: &Network) -> bool {
        self.spent >= MIN_SPENT_VISITS.max(u64::from(network.n()) / SPENT_IN)
    }

    /// Counts anew what searches from one end visit.
    pub(crate) fn forget_spent(&mut self) {
        self.spent = 0;
    }

    /// Tells if the last search by landmarks was so long that several are better made side by side.
    pub(crate) fn was_long(&self) -> bool {
        self.was_long
    }

    /// Searches a sample of pairs, and counts those that aren't near.
    pub(crate) fn count_far(
        &mut self,
        alloc: Global,
        network: &Network,
        pairs: &[(u32, u32)],
        sample: usize,
    ) -> usize
        requires { ArePairsWithin network.now.n pairs.now }
    {
        let mut far: usize = 0;
        let step = pairs.len() / sample.max(1);
        for place in 0..sample {
            let Some((source, target)) = pairs.get(place.saturating_mul(step)) else {
                break;
            };
            if self.costs_to(alloc, network, *source, &[*target]).is_none() {
                far = far.saturating_add(1);
            }
        }
        far
    }

    /// The costs of these targets, if near: from both ends if there is one target and the rows were reversed.
    pub(crate) fn costs_to(
        &mut self,
        alloc: Global,
        network: &Network,
        source: u32,
        targets: &[u32],
    ) -> Option<Vec<Option<u64>>>
        requires source { source < network.now.n }
        requires targets { All (λ t. t < network.now.n) targets.now }
        ensures { IfSome result (λ costs. AreCostsTo network.now (At source) targets.now costs.items) }
    {
        let labels = if targets.len() == 1 && network.has_reversed() {
            self.label_between(alloc, network, source, targets)
        } else {
            self.labels_to(alloc, network, source, targets)
        };
        costs_in_order(alloc, network, Start::At(source), targets, &labels?).ok()
    }

    /// The costs of these targets by landmarks, if not much of the network has to be searched: of all at once if they lie
    /// together, and of each by itself if there are few.
    pub(crate) fn costs_by(
        &mut self,
        alloc: Global,
        network: &Network,
        landmarks: &Landmarks,
        source: u32,
        targets: &[u32],
    ) -> Option<Vec<Option<u64>>>
        requires landmarks { landmarks.now.graph ≡ graph_of network.now }
        requires source { source < network.now.n }
        requires targets { All (λ t. t < network.now.n) targets.now }
        ensures { IfSome result (λ costs. AreCostsTo network.now (At source) targets.now costs.items) }
    {
        if landmarks.serves(source, targets) {
            self.costs_toward(alloc, network, landmarks, source, targets)
        } else if targets.len() <= MAX_TARGETS_ONE_BY_ONE {
            self.costs_one_by_one(alloc, network, landmarks, source, targets)
        } else {
            self.costs_to(alloc, network, source, targets)
        }
    }

    /// The costs of these targets, each by itself.
    fn costs_one_by_one(
        &mut self,
        alloc: Global,
        network: &Network,
        landmarks: &Landmarks,
        source: u32,
        targets: &[u32],
    ) -> Option<Vec<Option<u64>>>
        requires landmarks { landmarks.now.graph ≡ graph_of network.now }
        requires source { source < network.now.n }
        requires targets { All (λ t. t < network.now.n) targets.now }
        ensures { IfSome result (λ costs. AreCostsTo network.now (At source) targets.now costs.items) }
    {
        let mut costs = Vec::with_capacity(alloc, targets.len()).ok()?;
        for target in targets {
            let one = [*target];
            let Some(found) = self.costs_toward(alloc, network, landmarks, source, &one) else {
                return None;
            };
            match costs.push(found[0]) {
                Ok(()) => {}
                Err(_) => return None,
            }
        }
        Some(costs)
    }

    /// The costs of these targets by bounds of the way to all of them.
    fn costs_toward(
        &mut self,
        alloc: Global,
        network: &Network,
        landmarks: &Landmarks,
        source: u32,
        targets: &[u32],
    ) -> Option<Vec<Option<u64>>>
        requires landmarks { landmarks.now.graph ≡ graph_of network.now }
        requires source { source < network.now.n }
        requires targets { All (λ t. t < network.now.n) targets.now }
        ensures { IfSome result (λ costs. AreCostsTo network.now (At source) targets.now costs.items) }
    {
        self.prepare(alloc, network);
        let limit = self.by_landmarks.limit(network);
        let low = landmarks.low(alloc, targets).ok()?;
        let high = landmarks.high(alloc, targets).ok()?;
        let bounds = landmarks.toward(source, targets, &low, &high);
        let labels = labels_toward(&mut self.forward, alloc, network, source, &bounds, limit);
        self.see_guided(labels.is_some());
        costs_in_order(alloc, network, Start::At(source), targets, &labels?).ok()
    }

    /// The least labels of these targets and the walks to them, if near: by landmarks, of all at once if they lie together
    /// and of each by itself if there are few; from both ends if there is one target and the rows were reversed; and else
    /// from the source.
    pub(crate) fn walks_to(
        &mut self,
        alloc: Global,
        network: &Network,
        source: u32,
        targets: &[u32],
    ) -> Option<WalksFound>
        requires source { source < network.now.n }
        requires targets { All (λ t. t < network.now.n) targets.now }
        ensures { IfSome result (AreWalksFound network.now.n network.now.arcs source targets.now) }
    {
        self.prepare(alloc, network);
        fit_walks(&mut self.walks, alloc, network.n());
        match network.landmarks() {
            Some(landmarks) if landmarks.serves(source, targets) => {
                self.walks_by_landmarks(alloc, network, landmarks, source, targets)
            }
            Some(landmarks) if landmarks.len() > 0 && targets.len() <= MAX_TARGETS_ONE_BY_ONE => {
                self.walks_one_by_one(alloc, network, landmarks, source, targets)
            }
            _ if targets.len() == 1 && network.has_reversed() => {
                self.walk_between(alloc, network, source, targets)
            }
            _ => self.walks_from(alloc, network, source, targets),
        }
    }

    /// The walks to these targets, by a search from the source.
    fn walks_from(
        &mut self,
        alloc: Global,
        network: &Network,
        source: u32,
        targets: &[u32],
    ) -> Option<WalksFound>
        requires source { source < network.now.n }
        requires targets { All (λ t. t < network.now.n) targets.now }
        ensures { IfSome result (AreWalksFound network.now.n network.now.arcs source targets.now) }
    {
        let (forward, walks) = (&mut self.forward, &mut self.walks);
        let limit = self.one_end.limit(network);
        let found = walks_by(forward, walks, alloc, network, source, targets, limit);
        self.one_end.learn(found.is_some());
        self.count_visits();
        if targets.len() == 1 {
            self.spend(network, found.is_some());
        }
        found
    }

    /// The walk to one target, by a search from both ends.
    fn walk_between(
        &mut self,
        alloc: Global,
        network: &Network,
        source: u32,
        targets: &[u32],
    ) -> Option<WalksFound>
        requires source { source < network.now.n }
        requires targets { All (λ t. t < network.now.n) targets.now }
        requires one { length targets.now ≡ 1 }
        ensures { IfSome result (AreWalksFound network.now.n network.now.arcs source targets.now) }
    {
        fit(&mut self.backward, alloc, network.n());
        let (forward, backward, walks) = (&mut self.forward, &mut self.backward, &mut self.walks);
        let limit = self.both_ends.limit(network);
        let pair = (source, targets[0]);
        let found = walk_by_both(forward, backward, walks, alloc, network, pair, limit);
        self.both_ends.learn(found.is_some());
        self.count_visits();
        self.count_backward_visits();
        found
    }

    /// The walks to these targets by bounds of the way to all of them.
    fn walks_by_landmarks(
        &mut self,
        alloc: Global,
        network: &Network,
        landmarks: &Landmarks,
        source: u32,
        targets: &[u32],
    ) -> Option<WalksFound>
        requires landmarks { landmarks.now.graph ≡ graph_of network.now }
        requires source { source < network.now.n }
        requires targets { All (λ t. t < network.now.n) targets.now }
        ensures { IfSome result (AreWalksFound network.now.n network.now.arcs source targets.now) }
    {
        let limit = self.by_landmarks.limit(network);
        let low = landmarks.low(alloc, targets).ok()?;
        let high = landmarks.high(alloc, targets).ok()?;
        let bounds = landmarks.toward(source, targets, &low, &high);
        let (forward, walks) = (&mut self.forward, &mut self.walks);
        let found = walks_toward(forward, walks, alloc, network, source, &bounds, limit);
        self.see_guided(found.is_some());
        found
    }

    /// The walks to these targets by bounds of the way to each.
    fn walks_one_by_one(
        &mut self,
        alloc: Global,
        network: &Network,
        landmarks: &Landmarks,
        source: u32,
        targets: &[u32],
    ) -> Option<WalksFound>
        requires landmarks { landmarks.now.graph ≡ graph_of network.now }
        requires source { source < network.now.n }
        requires targets { All (λ t. t < network.now.n) targets.now }
        ensures { IfSome result (AreWalksFound network.now.n network.now.arcs source targets.now) }
    {
        let mut found = WalksFound {
            labels: Vec::new(alloc),
            walks: Vec::new(alloc),
        };
        for target in targets {
            let one = [*target];
            let Some(mut next) = self.walks_by_landmarks(alloc, network, landmarks, source, &one)
            else {
                return None;
            };
            if !append(&mut found, &mut next) {
                return None;
            }
        }
        Some(found)
    }

    /// The vertices that cost at most a bound, in rising order, each with its cost, if near.
    pub(crate) fn within(
        &mut self,
        alloc: Global,
        network: &Network,
        source: u32,
        bound: u64,
    ) -> Option<Vec<(u32, u64)>>
        requires source { source < network.now.n }
        requires bound { bound < INF }
        ensures { IfSome result (AreCostsWithin network.now source bound) }
    {
        self.prepare(alloc, network);
        let limit = self.one_end.limit(network);
        let found = within_by(&mut self.forward, alloc, network, source, bound, limit);
        self.one_end.learn(found.is_some());
        self.count_visits();
        found
    }

    /// The least labels of these targets, by a search from the source.
    fn labels_to(
        &mut self,
        alloc: Global,
        network: &Network,
        source: u32,
        targets: &[u32],
    ) -> Option<Vec<u64>>
        requires source { source < network.now.n }
        requires targets { All (λ t. t < network.now.n) targets.now }
        ensures { IfSome result (AreLabelsTo network.now.arcs source targets.now) }
    {
        self.prepare(alloc, network);
        let limit = self.one_end.limit(network);
        let labels = labels_by(&mut self.forward, alloc, network, source, targets, limit);
        self.one_end.learn(labels.is_some());
        self.count_visits();
        if targets.len() == 1 {
            self.spend(network, labels.is_some());
        }
        labels
    }

    /// The least label of one target, by a search from both ends.
    fn label_between(
        &mut self,
        alloc: Global,
        network: &Network,
        source: u32,
        targets: &[u32],
    ) -> Option<Vec<u64>>
        requires source { source < network.now.n }
        requires targets { All (λ t. t < network.now.n) targets.now }
        requires one { length targets.now ≡ 1 }
        ensures { IfSome result (AreLabelsTo network.now.arcs source targets.now) }
    {
        self.prepare(alloc, network);
        fit(&mut self.backward, alloc, network.n());
        let (forward, backward) = (&mut self.forward, &mut self.backward);
        let limit = self.both_ends.limit(network);
        let label = label_by_both(forward, backward, network, source, targets[0], limit);
        self.both_ends.learn(label.is_some());
        self.count_visits();
        self.count_backward_visits();
        match label {
            Some(label) => vec![in alloc; label; 1].ok(),
            None => None,
        }
    }

    /// Takes note of the last search by landmarks.
    fn see_guided(&mut self, found: bool) {
        let visits = self.count_visits();
        self.by_landmarks.learn(found);
        self.was_long = visits > MAX_SHORT_VISITS;
        self.far.see_search(visits);
    }

    /// Counts the visits that the last search made from the source, and returns them.
    fn count_visits(&mut self) -> u32 {
        let visits = match &self.forward {
            Some(space) => space.visits(),
            None => 0,
        };
        self.visits = self.visits.saturating_add(u64::from(visits));
        visits
    }

    /// Counts those that it made from the target.
    fn count_backward_visits(&mut self) {
        let visits = match &self.backward {
            Some(space) => space.visits(),
            None => 0,
        };
        self.visits = self.visits.saturating_add(u64::from(visits));
    }

    /// Counts what searches from both ends might have saved of the last search from one end.
    fn spend(&mut self, network: &Network, found: bool) {
        let saved = match &self.forward {
            Some(space) if found => u64::from(space.visits()),
            Some(space) if has_wide_frontier(space) => u64::from(network.n()) / VAIN_IN,
            _ => 0,
        };
        self.spent = self.spent.saturating_add(saved);
    }

    /// Makes room for this network, unless it has room for as many vertices.
    fn prepare(&mut self, alloc: Global, network: &Network) {
        let n = network.n();
        if fit(&mut self.forward, alloc, n) {
            self.one_end = SearchBudget::of(n);
            self.both_ends = SearchBudget::of(n);
            self.by_landmarks = SearchBudget::by_landmarks(n);
        }
    }
}

fn has_wide_frontier(space: &SearchSpace) -> bool {
    let visited = space.visits() as usize;
    space.reached().saturating_sub(visited) >= visited / VISITED_A_VERTEX
}

/// Appends labels and walks. Returns false if memory is refused.
fn append(found: &mut WalksFound, next: &mut WalksFound) -> bool
    ensures labels { result ≡ true → found.new.labels.items ≡ found.old.labels.items ++ next.old.labels.items }
    ensures walks { result ≡ true → found.new.walks.items ≡ found.old.walks.items ++ next.old.walks.items }
{
    found.labels.append(&mut next.labels).is_ok() && found.walks.append(&mut next.walks).is_ok()
}
