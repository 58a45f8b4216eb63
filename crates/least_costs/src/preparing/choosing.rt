//! The choice of landmarks: each is far from those before it. A hint.

ghost use Rattle.std.specs.Prelude.{◌≡◌, ◌<◌, ◌≤◌, true, All, IfOk, IfSome, length, slice_index};
ghost use Rattle.route_walks.specs.declared.graph.TheConstants.{INF};
ghost use Rattle.route_walks.specs.Bounds.{IsRelaxedBackward};
ghost use Rattle.route_walks.specs.Walk.{IsGraph};
ghost use Rattle.least_costs.specs.Network.{graph_of};
ghost use Rattle.least_costs.specs.declared.network.landmarks.TheConstants.{MAX_UNIT};

use crate::costs::Costs;
use crate::network::Network;
use crate::network::landmarks::{Landmarks, MAX_LANDMARKS, MAX_UNIT};
use crate::plan::Plan;
use crate::solver::Solver;
use obim_engine::{FINITE_CELLS, Gate, OpenGate};
use route_walks::{ArcRec, INF, Memory, offer};
use std::alloc::Global;
use std::sync::Wait;
use std::thread::Threads;
use std::time::Clock;

/// The solves that may give no landmark, before the first one and after it.
const SPARE_SOLVES: usize = 8;

/// Cells have room for costs so many times as great as the first ones.
const ROOM_OF_CELLS: u64 = 2;

impl Network {
    /// Chooses landmarks by a plan, and keeps their costs in place of those that the network had. Each is as far as can be
    /// from those before it; one that reaches less than half of what another one does is left out. Returns their number.
    ///
    /// Takes the time of a run for each, that of up to 16 more, and a list of all arcs for a while. Frees the reversed
    /// rows. No cost depends on which vertices they are.
    ///
    /// # Errors
    ///
    /// Memory was refused. The network is as it was.
    pub fn choose_landmarks<H: Threads + Wait + Clock + Sync>(
        &mut self,
        rt: &H,
        alloc: Global,
        plan: Plan,
    ) -> Result<usize, Memory>
        ensures { self.new ≡ self.old }
    {
        self.choose_watched(rt, alloc, plan, &OpenGate)
    }

    /// Does what `choose_landmarks` does, and the gate watches the workers.
    pub(crate) fn choose_watched<H: Threads + Wait + Clock + Sync, G: Gate + Sync>(
        &mut self,
        rt: &H,
        alloc: Global,
        plan: Plan,
        gate: &G,
    ) -> Result<usize, Memory>
        ensures { self.new ≡ self.old }
    {
        let landmarks = chosen(rt, alloc, self, plan, gate)?;
        let count = landmarks.len();
        self.keep(landmarks);
        Ok(count)
    }
}

impl Network {
    /// Keeps no landmark in place of those that it had. A choice of none is not the first.
    pub(crate) fn give_up_landmarks(&mut self, alloc: Global)
        ensures { self.new ≡ self.old }
    {
        if let Ok(none) = Landmarks::blank(alloc, &self.rows, 0, 0) {
            self.keep(none);
        }
    }
}

/// Chooses landmarks of a network.
fn chosen<H: Threads + Wait + Clock + Sync, G: Gate + Sync>(
    rt: &H,
    alloc: Global,
    network: &Network,
    plan: Plan,
    gate: &G,
) -> Result<Landmarks, Memory>
    ensures { IfOk result (λ landmarks. landmarks.graph ≡ graph_of network.now) }
{
    let solver = Solver {
        network,
        plan,
        gate,
    };
    let count = (plan.landmarks as usize).min(MAX_LANDMARKS);
    let arcs = network.rows.arcs(alloc)?;
    let mut choice = Choice::new(alloc, network)?;
    let unit = choice.look_around(rt, alloc, &solver)?;
    let mut landmarks = Landmarks::blank(alloc, network.rows(), count, unit)?;
    for _ in 0..count + SPARE_SOLVES {
        let Some(vertex) = choice.next(network) else {
            break;
        };
        if landmarks.is_full() {
            break;
        }
        let costs = solver.from(rt, alloc, vertex)?;
        let labels = costs.labels();
        if choice.takes(vertex, labels) {
            let is_two_way = are_relaxed_backward(&arcs, labels);
            add_costs(&mut landmarks, &costs, is_two_way);
        }
    }
    Ok(landmarks)
}

/// Adds a landmark with these costs.
fn add_costs(landmarks: &mut Landmarks, costs: &Costs, is_two_way: bool)
    requires graph { landmarks.old.graph ≡ graph_of costs.now.net }
    requires two_way { is_two_way ≡ true →
        All (IsRelaxedBackward (slice_index costs.now.labels)) costs.now.net.arcs }
    ensures { landmarks.new.graph ≡ landmarks.old.graph }
{
    // Labels that are least are relaxed along each arc.
    let _ = costs.start();
    let labels = costs.labels();
    landmarks.add(labels, greatest(labels), is_two_way);
}

/// The vertices that may be landmarks, and how near they are to those that were chosen.
#[derive(Drop)]
struct Choice {
    /// The cost of each vertex from the nearest landmark, or from where the choice began.
    nearest: Vec<u64>,
    /// The most vertices that one of them reaches.
    reached: usize,
    has_landmark: bool,
}

impl Choice {
    fn new(alloc: Global, network: &Network) -> Result<Choice, Memory> {
        Ok(Choice {
            nearest: vec![in alloc; INF; network.n() as usize]?,
            reached: 0,
            has_landmark: false,
        })
    }

    /// Solves vertices until one reaches half of all. Returns how many labels are to share a cell.
    fn look_around<H: Threads + Wait + Clock + Sync, G: Gate + Sync>(
        &mut self,
        rt: &H,
        alloc: Global,
        solver: &Solver<'_, G>,
    ) -> Result<u64, Memory>
        ensures { IfOk result (λ unit. unit ≤ MAX_UNIT) }
    {
        let mut farthest = 0;
        let mut from = 0;
        for _ in 0..SPARE_SOLVES {
            let Some(vertex) = first_with_arcs(solver.network, &self.nearest, from) else {
                break;
            };
            let costs = solver.from(rt, alloc, vertex)?;
            let labels = costs.labels();
            farthest = greatest(labels).max(farthest);
            self.begin(labels);
            if self.reached >= labels.len() / 2 {
                break;
            }
            from = vertex;
        }
        Ok(unit_for(farthest))
    }

    /// Takes note of what a vertex reaches with which the choice may begin.
    fn begin(&mut self, labels: &[u64]) {
        let reached = count_reached(labels);
        if reached > self.reached {
            self.reached = reached;
            self.approach(labels);
        }
    }

    /// The vertex with arcs that is farthest from all landmarks, if one isn't at cost 0.
    fn next(&self, network: &Network) -> Option<u32>
        ensures { IfSome result (λ v. v < network.now.n) }
    {
        let mut most = 0;
        let mut farthest = None;
        for v in 0..network.n() {
            let cost = match self.nearest.get(v as usize) {
                Some(cost) => *cost,
                None => 0,
            };
            if cost > most && cost < INF && has_arcs(network, v) {
                most = cost;
                farthest = Some(v);
            }
        }
        farthest
    }

    /// Tells if a vertex with these labels reaches enough, and takes note of it.
    fn takes(&mut self, vertex: u32, labels: &[u64]) -> bool {
        let reached = count_reached(labels);
        if reached < self.reached / 2 {
            if let Some(cost) = self.nearest.get_mut(vertex as usize) {
                *cost = 0;
            }
            return false;
        }
        if !self.has_landmark {
            self.has_landmark = true;
            self.forget();
        }
        self.reached = reached.max(self.reached);
        self.approach(labels);
        true
    }

    /// Lets no vertex be near.
    fn forget(&mut self) {
        for cost in self.nearest.iter_mut() {
            *cost = INF;
        }
    }

    /// Lowers what vertices cost from the nearest landmark.
    fn approach(&mut self, labels: &[u64]) {
        for (cost, label) in self.nearest.iter_mut().zip(labels) {
            *cost = (*label).min(*cost);
        }
    }
}

fn has_arcs(network: &Network, v: u32) -> bool
    requires { v < network.now.n }
{
    !network.rows.row(v).is_empty()
}

/// The first vertex from a place on that has arcs and wasn't reached.
fn first_with_arcs(network: &Network, nearest: &[u64], from: u32) -> Option<u32>
    ensures { IfSome result (λ v. v < network.now.n) }
{
    for v in from..network.n() {
        let is_new = match nearest.get(v as usize) {
            Some(cost) => *cost == INF,
            None => false,
        };
        if is_new && has_arcs(network, v) {
            return Some(v);
        }
    }
    None
}

/// The number of labels that are to share a cell, if the greatest is this one.
fn unit_for(farthest: u64) -> u64
    ensures { result ≤ MAX_UNIT }
{
    let units = farthest.saturating_mul(ROOM_OF_CELLS) / u64::from(FINITE_CELLS);
    units.saturating_add(1).min(MAX_UNIT)
}

fn count_reached(labels: &[u64]) -> usize {
    let mut reached = 0_usize;
    for label in labels {
        if *label < INF {
            reached = reached.saturating_add(1);
        }
    }
    reached
}

/// The greatest label below `INF`.
fn greatest(labels: &[u64]) -> u64
    ensures { All (λ label. label < INF → label ≤ result) labels.now }
{
    let mut most = 0;
    for label in labels {
        if *label < INF {
            most = (*label).max(most);
        }
    }
    most
}

/// Tells if each arc is relaxed backwards by these labels, as if it has its twin.
fn are_relaxed_backward(arcs: &[ArcRec], labels: &[u64]) -> bool
    requires { IsGraph (length labels.now) arcs.now }
    ensures { result ≡ true → All (IsRelaxedBackward (slice_index labels.now)) arcs.now }
{
    for arc in arcs {
        if labels[arc.tail as usize] > offer(labels[arc.head as usize], arc.weight) {
            return false;
        }
    }
    true
}
