//! The arcs along which costs are least.

pub(crate) mod between;
pub(crate) mod growth;
pub(crate) mod landmarks;
pub(crate) mod reversed;
pub(crate) mod shortcuts;

ghost use Rattle.std.specs.Prelude.{◌≡◌, ◌+◌, ◌≤◌, ◌<◌, ◌^◌, ◌↔◌, ◌++◌, length, filter, All};
ghost use Rattle.std.specs.Prelude.{IfErr, IfNone, IfOk, IfSome, IsTrue, List, ℕ};
ghost use Rattle.route_walks.specs.declared.graph.ArcRec.{ArcRec};
ghost use Rattle.least_costs.specs.declared.cost.Cost.TheVariants.{Weight};
ghost use Rattle.csr_graph.specs.Graph.{HaveSameRows, IsInRows};
ghost use Rattle.near_labels.specs.Meeting.{AreBothWays};
ghost use Rattle.route_walks.specs.Operators.{unit_weights};
ghost use Rattle.route_walks.specs.Walk.{IsArcBelow, IsGraph, HaveSameArcs};
ghost use Rattle.least_costs.specs.Faults.{IsFirstOutside, IsNetworkFault, IsGrowthFault};
ghost use Rattle.least_costs.specs.Network.{AreLight, GrowsTo, HasArcs, IsNetwork, IsNetworkOf, arcs_of, graph_of};
ghost use Rattle.csr_graph.specs.Changes.{leads_between, without};

use crate::cost::Cost;
use crate::fault::NetworkFault;
use crate::network::between::list_between;
use crate::network::landmarks::Landmarks;
use crate::network::reversed::Reversed;
use crate::network::shortcuts::Shortcuts;
use csr_graph::Csr;
use hierarchy::Hierarchy;
use near_labels::BothWays;
use route_walks::{ArcRec, MAX_ARCS, MAX_VERTICES, Memory, both_ways, unit_weights};
use std::alloc::Global;
use std::marker::Model;
use std::thread::Threads;

/// A network is made of at most this many arcs: 2^30.
pub const MOST_ARCS: usize = 1 << 30;

/// A directed graph along whose arcs costs are least. It keeps 8 bytes a vertex and 8 an arc, 16 if arcs are free both
/// ways, and as much again once its rows are reversed. A landmark takes 2 bytes a vertex, and a hierarchy 28 bytes a vertex
/// and 8 for each of its arcs.
#[derive(Debug, Drop)]
pub struct Network {
    pub(crate) rows: Csr,
    reversed: Option<Reversed>,
    landmarks: Option<Landmarks>,
    shortcuts: Option<Shortcuts>,
    cost: Cost,
    // Of the rows' arcs those that `with_arcs` added last.
    pub(crate) added: Vec<ArcRec>,
}

impl Model for Network {
    ghost use Rattle.least_costs.specs.Network.{NetworkSeen};
    ghost use Rattle.least_costs.specs.Rows.{AreRowsOf};

    ghost Value = { NetworkSeen };

    ghost view = { λ w. record { n = w.rows.n; cost = w.cost; arcs = w.rows.arcs; added = w.added.items } };

    ghost invariant = { λ w. AreRowsOf
        (record { n = w.rows.n; cost = w.cost; arcs = w.rows.arcs; added = w.added.items })
        w.reversed w.landmarks w.shortcuts };
}

impl Network {
    /// The network of these arcs among `n` vertices, each of which costs what `cost` says. The list is given back on
    /// the way. Up to `threads` threads make the rows.
    pub fn new<H: Threads + Sync>(
        rt: &H,
        alloc: Global,
        n: u32,
        arcs: Vec<ArcRec>,
        cost: Cost,
        threads: usize,
    ) -> Result<Network, NetworkFault>
        ensures network { IfOk result (IsNetworkOf n cost arcs.items) }
        ensures arcs { IfOk result (HasArcs (arcs_of cost arcs.items)) }
        ensures fault { IfErr result (IsNetworkFault n arcs.items) }
    {
        if n > MAX_VERTICES {
            return Err(NetworkFault::Vertices);
        }
        if arcs.len() > MOST_ARCS {
            return Err(NetworkFault::Arcs);
        }
        match first_outside(n, &arcs) {
            Some(place) => return Err(NetworkFault::Outside(place)),
            None => {}
        }
        Ok(Network::of_graph(rt, alloc, n, arcs, cost, threads)?)
    }

    /// Makes the network of `new` of arcs whose ends are known to be vertices, without a look at them.
    pub fn of_graph<H: Threads + Sync>(
        rt: &H,
        alloc: Global,
        n: u32,
        arcs: Vec<ArcRec>,
        cost: Cost,
        threads: usize,
    ) -> Result<Network, Memory>
        requires vertices { n ≤ MAX_VERTICES }
        requires count { length arcs.items ≤ MOST_ARCS }
        requires ends { IsGraph n arcs.items }
        requires weights { AreLight arcs.items }
        ensures network { IfOk result (IsNetworkOf n cost arcs.items) }
        ensures arcs { IfOk result (HasArcs (arcs_of cost arcs.items)) }
    {
        let rows = rows_of(rt, alloc, n, arcs, cost, threads)?;
        Ok(Network {
            rows,
            reversed: None,
            landmarks: None,
            shortcuts: None,
            cost,
            added: Vec::new(alloc),
        })
    }

    /// The network with more arcs, by the same cost. Shares nothing with this one. Keeps the list of the added arcs.
    pub fn with_arcs(&self, alloc: Global, added: &[ArcRec]) -> Result<Network, NetworkFault>
        ensures grown { IfOk result (GrowsTo self.now) }
        ensures kind { IfOk result (λ grown. grown.cost ≡ self.now.cost) }
        ensures added { IfOk result (λ grown. grown.added ≡ arcs_of self.now.cost added.now) }
        ensures fault { IfErr result (IsGrowthFault self.now added.now) }
    {
        let added = self.along(alloc, added)?;
        let rows = self.rows.changed(alloc, &[], &added)?;
        Ok(Network {
            rows,
            reversed: None,
            landmarks: None,
            shortcuts: None,
            cost: self.cost,
            added,
        })
    }

    /// Makes the network without the arcs that lead from the first vertex of a pair to the second, and with more arcs,
    /// by the same cost. All other arcs stay. The added arcs come last in each row. Shares landmarks with this one, if each
    /// added arc takes the place of a cheaper one that led between its ends as they were chosen, and else has none. Has no
    /// hierarchy.
    ///
    /// # Errors
    ///
    /// An end of an added arc is no vertex, there are too many arcs before any is removed, or memory was refused.
    pub fn changed(
        &self,
        alloc: Global,
        removed: &[(u32, u32)],
        added: &[ArcRec],
    ) -> Result<Network, NetworkFault>
        ensures arcs { (arcs : List ArcRec) → HasArcs arcs self.now
            → IfOk result (HasArcs (without removed.now arcs ++ arcs_of self.now.cost added.now)) }
        ensures network { (n : ℕ) (arcs : List ArcRec) → IsNetworkOf n Weight arcs self.now
            → IfOk result (IsNetworkOf n Weight (without removed.now arcs ++ added.now)) }
        ensures vertices { IfOk result (λ net. net.n ≡ self.now.n) }
        ensures fault { IfErr result (IsGrowthFault self.now added.now) }
    {
        let added = self.along(alloc, added)?;
        let rows = self.rows.changed(alloc, removed, &added)?;
        // Its bounds stay if no walk has become cheaper.
        let landmarks = match &self.landmarks {
            Some(told) => told.after(alloc, &self.rows, &rows, removed, &added),
            None => None,
        };
        let changes = removed.len().max(added.len());
        Ok(Network {
            rows,
            reversed: None,
            landmarks,
            shortcuts: Shortcuts::after(&self.shortcuts, changes),
            cost: self.cost,
            added: Vec::new(alloc),
        })
    }

    /// Returns the arcs that lead from one vertex to another, in the order in which they were given.
    pub fn arcs_between(&self, alloc: Global, tail: u32, head: u32) -> Result<Vec<ArcRec>, Memory>
        requires { tail < self.now.n }
        ensures arcs { (arcs : List ArcRec) → HasArcs arcs self.now
            → IfOk result (λ found. found.items ≡ filter (λ arc. leads_between arc (tail, head)) arcs) }
        ensures ends { IfOk result (λ found. IsGraph self.now.n found.items) }
    {
        let found = list_between(alloc, &self.rows, tail, head)?;
        Ok(found)
    }

    /// Returns the arcs along which costs are least of some that are to be added.
    fn along(&self, alloc: Global, added: &[ArcRec]) -> Result<Vec<ArcRec>, NetworkFault>
        ensures exact { IfOk result (λ along. along.items ≡ arcs_of self.now.cost added.now) }
        ensures ends { IfOk result (λ along. IsGraph self.now.n along.items) }
        ensures light { IfOk result (λ along. AreLight along.items) }
        ensures count { IfOk result (λ along. length self.now.arcs + length along.items ≤ MAX_ARCS) }
        ensures fault { IfErr result (IsGrowthFault self.now added.now) }
    {
        match first_outside(self.rows.n(), added) {
            Some(place) => return Err(NetworkFault::Outside(place)),
            None => {}
        }
        let along = arcs_along(alloc, self.cost, added)?;
        if self.rows.arc_count().saturating_add(along.len()) > MAX_ARCS {
            return Err(NetworkFault::Arcs);
        }
        Ok(along)
    }

    /// Makes the network of the same arcs, each of which costs what `cost` says: for a network in which each costs its
    /// weight. Shares nothing with this one. Needs a list of all arcs for a while if they cost their weights, and else
    /// none.
    ///
    /// # Errors
    ///
    /// Memory was refused, or there are more arcs than a network takes.
    pub fn by_cost<H: Threads + Sync>(
        &self,
        rt: &H,
        alloc: Global,
        cost: Cost,
        threads: usize,
    ) -> Result<Network, Memory>
        ensures network { (n : ℕ) (arcs : List ArcRec) → IsNetworkOf n Weight arcs self.now
            → IfOk result (IsNetworkOf n cost arcs) }
        ensures vertices { IfOk result (λ net. net.n ≡ self.now.n) }
    {
        if self.rows.arc_count() > MOST_ARCS {
            return Err(Memory);
        }
        let rows = rows_by(rt, alloc, &self.rows, cost, threads)?;
        Ok(Network {
            rows,
            reversed: None,
            landmarks: None,
            shortcuts: None,
            cost,
            added: Vec::new(alloc),
        })
    }

    /// The number of vertices.
    pub fn n(&self) -> u32
        ensures vertices { result ≡ self.now.n }
        ensures network { IsNetwork self.now }
    {
        self.rows.n()
    }

    /// The rows of the arcs along which costs are least.
    pub fn rows(&self) -> &Csr
        ensures { result.now ≡ graph_of self.now }
    {
        &self.rows
    }

    /// Makes the rows of the reversed arcs, so that pairs are searched from both ends. Takes the time and memory of
    /// the rows, and 12 bytes an arc for a while. Without them, as after a refusal of memory, the network serves as
    /// well.
    pub fn reverse(&mut self, alloc: Global)
        ensures { self.new ≡ self.old }
    {
        if self.reversed.is_none() {
            self.reversed = match Reversed::of(alloc, &self.rows) {
                Ok(reversed) => Some(reversed),
                Err(_) => None,
            };
        }
    }

    /// Tells if the rows of the reversed arcs were made.
    pub fn has_reversed(&self) -> bool {
        self.reversed.is_some()
    }

    /// Keeps landmarks of this network in place of those that it had, and frees the reversed rows.
    pub(crate) fn keep(&mut self, landmarks: Landmarks)
        requires { landmarks.graph ≡ graph_of self.old }
        ensures { self.new ≡ self.old }
    {
        self.reversed = None;
        self.landmarks = Some(landmarks);
    }

    /// Tells if landmarks were chosen.
    pub fn has_landmarks(&self) -> bool {
        self.landmarks.is_some()
    }

    /// The number of landmarks that it keeps.
    pub fn landmark_count(&self) -> usize {
        match &self.landmarks {
            Some(landmarks) => landmarks.len(),
            None => 0,
        }
    }

    /// The landmarks, if some were chosen.
    pub(crate) fn landmarks(&self) -> Option<&Landmarks>
        ensures { IfSome result (λ landmarks. landmarks.now.graph ≡ graph_of self.now) }
    {
        self.landmarks.as_ref()
    }

    /// Keeps a hierarchy of this network, if one could be made.
    pub(crate) fn keep_hierarchy(&mut self, hierarchy: Option<Hierarchy>)
        requires { IfSome hierarchy (λ h. h.graph ≡ graph_of self.old) }
        ensures { self.new ≡ self.old }
    {
        self.shortcuts = Some(Shortcuts { hierarchy });
    }

    /// Tells if a hierarchy was made, or given up.
    pub fn was_contracted(&self) -> bool {
        self.shortcuts.is_some()
    }

    /// Tells if it has a hierarchy.
    pub fn has_hierarchy(&self) -> bool {
        self.hierarchy().is_some()
    }

    /// The number of arcs of the hierarchy; 0 without one.
    pub fn hierarchy_arc_count(&self) -> usize {
        match self.hierarchy() {
            Some(hierarchy) => hierarchy.arc_count(),
            None => 0,
        }
    }

    /// The hierarchy, if one was made.
    pub(crate) fn hierarchy(&self) -> Option<&Hierarchy>
        ensures { IfSome result (λ hierarchy. hierarchy.now.graph ≡ graph_of self.now) }
    {
        match &self.shortcuts {
            Some(shortcuts) => shortcuts.hierarchy.as_ref(),
            None => None,
        }
    }

    /// The rows and those of the reversed arcs, if these were made.
    pub(crate) fn both_ways(&self) -> Option<BothWays<'_>>
        ensures ways { IfSome result AreBothWays }
        ensures graph { IfSome result (λ ways. ways.csr.now ≡ graph_of self.now) }
    {
        match &self.reversed {
            Some(reversed) => Some(BothWays {
                csr: &self.rows,
                reversed: &reversed.rows,
                least_weight: reversed.least_weight,
            }),
            None => None,
        }
    }
}

fn first_outside(n: u32, arcs: &[ArcRec]) -> Option<usize>
    ensures none { IfNone result (IsGraph n arcs.now) }
    ensures light { IfNone result (AreLight arcs.now) }
    ensures some { IfSome result (IsFirstOutside n arcs.now) }
{
    for (place, arc) in arcs.iter().enumerate() {
        if !is_within(n, *arc) {
            return Some(place);
        }
    }
    None
}

fn is_within(n: u32, arc: ArcRec) -> bool
    ensures within { IsTrue result ↔ IsArcBelow n arc }
    ensures light { arc.weight < 2 ^ 32 }
{
    arc.tail < n && arc.head < n
}

/// The rows of these arcs by this cost. The list is given back.
fn rows_of<H: Threads + Sync>(
    rt: &H,
    alloc: Global,
    n: u32,
    mut arcs: Vec<ArcRec>,
    cost: Cost,
    threads: usize,
) -> Result<Csr, Memory>
    requires vertices { n ≤ MAX_VERTICES }
    requires count { length arcs.items ≤ MOST_ARCS }
    requires graph { IsGraph n arcs.items }
    ensures vertices { IfOk result (λ rows. rows.n ≡ n) }
    ensures in_rows { IfOk result IsInRows }
    ensures arcs { IfOk result (λ rows. HaveSameArcs rows.arcs (arcs_of cost arcs.items)) }
    ensures rows { IfOk result (λ rows. HaveSameRows n rows.arcs (arcs_of cost arcs.items)) }
    ensures count { IfOk result (λ rows. length rows.arcs ≡ length (arcs_of cost arcs.items)) }
{
    match cost {
        Cost::Weight => Csr::build_from(rt, alloc, n, arcs, threads),
        Cost::One => {
            set_unit_weights(&mut arcs);
            Csr::build_from(rt, alloc, n, arcs, threads)
        }
        Cost::FreeBothWays => Csr::build_both_ways(rt, alloc, n, arcs, threads),
    }
}

/// Returns the rows by this cost of rows in which each arc costs its weight.
fn rows_by<H: Threads + Sync>(
    rt: &H,
    alloc: Global,
    rows: &Csr,
    cost: Cost,
    threads: usize,
) -> Result<Csr, Memory>
    requires count { length rows.now.arcs ≤ MOST_ARCS }
    ensures vertices { IfOk result (λ by. by.n ≡ rows.now.n) }
    ensures in_rows { IfOk result IsInRows }
    ensures arcs { IfOk result (λ by. HaveSameArcs by.arcs (arcs_of cost rows.now.arcs)) }
{
    // Whatever rows they are, their ends are vertices.
    let n = rows.n();
    match cost {
        Cost::Weight => {
            let arcs = rows.arcs(alloc)?;
            Csr::build_from(rt, alloc, n, arcs, threads)
        }
        Cost::One => {
            let rows = rows.with_unit_weights(alloc)?;
            let _ = rows.n();
            Ok(rows)
        }
        Cost::FreeBothWays => rows.with_both_ways(alloc),
    }
}

/// Sets the weight of each arc to 1. A list of all arcs is too long to be copied.
fn set_unit_weights(arcs: &mut [ArcRec])
    ensures { arcs.new ≡ unit_weights arcs.old }
{
    for arc in arcs.iter_mut() {
        *arc = ArcRec { weight: 1, ..*arc };
    }
}

/// The arcs along which costs are least.
fn arcs_along(alloc: Global, cost: Cost, arcs: &[ArcRec]) -> Result<Vec<ArcRec>, Memory>
    ensures exact { IfOk result (λ along. along.items ≡ arcs_of cost arcs.now) }
{
    match cost {
        Cost::Weight => Ok(arcs.to_vec(alloc)?),
        Cost::One => unit_weights(alloc, arcs),
        Cost::FreeBothWays => both_ways(alloc, arcs),
    }
}
