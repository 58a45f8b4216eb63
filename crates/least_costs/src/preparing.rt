//! The reversed rows, landmarks and the hierarchy that a network is given before pairs are asked for. No cost depends on them.

pub(crate) mod choosing;
pub(crate) mod contracting;

ghost use Rattle.std.specs.Prelude.{◌≡◌};
ghost use Rattle.least_costs.specs.Pairs.{ArePairsWithin};

use crate::network::Network;
use crate::network::landmarks::MAX_LANDMARKS;
use crate::plan::{HierarchyUse, Plan};
use crate::workers::workspace::Workspace;
use obim_engine::Gate;
use std::alloc::Global;
use std::sync::Wait;
use std::thread::Threads;
use std::time::Clock;

/// The landmarks of a first choice. They gain most of what more do.
const FIRST_LANDMARKS: u32 = 4;

/// Landmarks are chosen at once if the pairs have so many sources for each of them, and most of a sample are far.
const SOURCES_A_LANDMARK: usize = 4;

/// A hierarchy is made once far pairs took the visits of so many runs.
const HIERARCHY_RUNS: u32 = 16;

/// A hierarchy is made at once if the pairs have so many sources, and most of a sample are far.
const SOURCES_OF_A_HIERARCHY: usize = 64;

/// The steps that may be taken to make a hierarchy, for each vertex and each arc. A map takes half of them or less, and a
/// random graph twice as many before it is given up by itself.
const STEPS_A_PART: usize = 12;

/// The steps that may be taken whatever the network is: some hundredths of a second.
const MIN_STEPS: usize = 1 << 22;

/// The pairs of a sample.
const SAMPLE_PAIRS: usize = 16;

impl Workspace {
    /// Makes a network ready for pairs, if searches serve them. Its rows are reversed once searches have visited so much
    /// of it that this saves time. It is given landmarks once far pairs took more visits than a choice does: first a few,
    /// and then those of the plan; or all at once, if these pairs are many and far. Landmarks that gain little are given
    /// up. A hierarchy is tried in place of all landmarks, if the plan has one, and no landmarks are chosen beside it.
    pub fn prepare<H: Threads + Wait + Clock + Sync, G: Gate + Sync>(
        &mut self,
        rt: &H,
        alloc: Global,
        network: &mut Network,
        plan: Plan,
        gate: &G,
        pairs: &[(u32, u32)],
    )
        requires { ArePairsWithin network.old.n pairs.now }
        ensures { network.new ≡ network.old }
    {
        if !self.searches {
            return;
        }
        self.change_means(alloc, network);
        if self.is_hierarchy_worth(alloc, network, plan, pairs)
            && network.make_hierarchy(alloc, most_steps(network, plan))
        {
            self.near.far.begin_choice();
        }
        if network.has_hierarchy() && plan.hierarchy != HierarchyUse::Never {
            return;
        }
        let landmarks = self.worth_choosing(alloc, network, plan, pairs);
        if landmarks > 0 {
            self.near.far.begin_choice();
            let plan = Plan { landmarks, ..plan };
            // Without them, as after a refusal of memory, the network serves as well.
            let _ = network.choose_watched(rt, alloc, plan, gate);
        }
    }

    /// Gives landmarks up if they gain little, and reverses the rows of a network without if that is worth it.
    fn change_means(&mut self, alloc: Global, network: &mut Network)
        ensures { network.new ≡ network.old }
    {
        if network.landmark_count() > 0 {
            if self.near.far.gain_little() {
                self.near.far.forget();
                network.give_up_landmarks(alloc);
            }
        } else if self.near.wants_reversed(network) {
            network.reverse(alloc);
            self.near.forget_spent();
            self.near.far.forget();
        }
    }

    /// The number of landmarks that are likely to save more time than choosing them takes; 0 if none are.
    fn worth_choosing(
        &mut self,
        alloc: Global,
        network: &Network,
        plan: Plan,
        pairs: &[(u32, u32)],
    ) -> u32
        requires { ArePairsWithin network.now.n pairs.now }
    {
        let most = plan.landmarks.min(MAX_LANDMARKS as u32);
        let next = next_choice(network, most);
        let has_some = network.landmark_count() > 0;
        if next == 0 || self.near.far.exceed(has_some, next, network.n()) {
            return next;
        }
        let sources = (most as usize).saturating_mul(SOURCES_A_LANDMARK);
        if self.are_many_far(alloc, network, sources, pairs) {
            most
        } else {
            0
        }
    }

    /// Tells if a hierarchy is likely to save more time than making it takes, or is asked for, and none was tried.
    fn is_hierarchy_worth(
        &mut self,
        alloc: Global,
        network: &Network,
        plan: Plan,
        pairs: &[(u32, u32)],
    ) -> bool
        requires { ArePairsWithin network.now.n pairs.now }
    {
        if network.was_contracted() {
            return false;
        }
        let has_some = network.landmark_count() > 0;
        match plan.hierarchy {
            HierarchyUse::Never => false,
            HierarchyUse::Now => true,
            HierarchyUse::Auto => {
                self.near.far.exceed(has_some, HIERARCHY_RUNS, network.n())
                    || self.are_many_far(alloc, network, SOURCES_OF_A_HIERARCHY, pairs)
            }
        }
    }

    /// Tells if these pairs have at least so many sources, and most of a sample are far.
    fn are_many_far(
        &mut self,
        alloc: Global,
        network: &Network,
        sources: usize,
        pairs: &[(u32, u32)],
    ) -> bool
        requires { ArePairsWithin network.now.n pairs.now }
    {
        count_sources(pairs) >= sources
            && self.near.count_far(alloc, network, pairs, SAMPLE_PAIRS) > SAMPLE_PAIRS / 2
    }
}

/// The edges that may be looked at to make a hierarchy: as many as it takes if it is asked for.
fn most_steps(network: &Network, plan: Plan) -> usize {
    match plan.hierarchy {
        HierarchyUse::Now => usize::MAX,
        HierarchyUse::Auto | HierarchyUse::Never => {
            let size = (network.n() as usize).saturating_add(network.rows().arc_count());
            size.saturating_mul(STEPS_A_PART).max(MIN_STEPS)
        }
    }
}

/// The number of landmarks of the next choice, if there are to be `most` in the end: a few at first, all after these or
/// after some were given up, and else 0.
fn next_choice(network: &Network, most: u32) -> u32 {
    match network.landmarks() {
        None => most.min(FIRST_LANDMARKS),
        Some(first) if first.is_full() && first.len() < most as usize => most,
        Some(_) => 0,
    }
}

/// Counts the sources of pairs, one for all that stand side by side with the same.
pub fn count_sources(pairs: &[(u32, u32)]) -> usize {
    let mut count: usize = 0;
    let mut last = u32::MAX;
    for (source, _) in pairs {
        if *source != last {
            count = count.saturating_add(1);
            last = *source;
        }
    }
    count
}
