//! Settings, the numbers of sources at a time and of landmarks, and when a hierarchy is made.

ghost use Rattle.std.specs.Prelude.{◌≡◌, ◌≤◌, max, min};
ghost use Rattle.least_costs.specs.Teams.{IsAtMost};
ghost use Rattle.least_costs.specs.declared.plan.AtOnce.TheVariants as at_once;
ghost use Rattle.obim_engine.specs.declared.settings.Buckets.TheVariants as buckets;
ghost use Rattle.obim_engine.specs.declared.settings.TheConstants.{MAX_WORKERS};

use crate::network::Network;
use csr_graph::Csr;
use obim_engine::{Buckets, MAX_CHUNK, MAX_WORKERS, Settings};

/// The usual vertices of a chunk of two workers, which gain more by sharing seldom.
pub const CHUNK_OF_TWO: usize = 128;

/// The usual vertices of a chunk of more workers.
pub const SHARED_CHUNK: usize = 64;

/// A graph of so many vertices, and so many arcs a vertex, is faster with all workers at one source: the labels of
/// several don't fit into the processors' caches.
const MANY_VERTICES: u32 = 1 << 17;

const MANY_ARCS_A_VERTEX: usize = 8;

/// The landmarks of the usual plan. A vertex has a line of the processor's cache for so many.
pub const USUAL_LANDMARKS: u32 = 16;

/// The number of sources that are solved at the same time, each by its own share of the workers.
#[derive(Clone, Copy, Debug, PartialEq, Eq)]
pub enum AtOnce {
    /// As many as there are workers, and one in a large graph whose vertices have many arcs.
    Auto,
    /// At most this number, and never more than there are workers.
    Most(u32),
}

impl AtOnce {
    /// The number of sources that so many workers solve at the same time in this graph.
    pub fn teams(self, rows: &Csr, workers: u32) -> usize
        ensures workers { result ≤ workers }
        ensures most { IsAtMost self result }
    {
        let most = match self {
            AtOnce::Most(count) => count,
            AtOnce::Auto if is_large(rows) => 1,
            AtOnce::Auto => workers,
        };
        most.min(workers) as usize
    }
}

fn is_large(rows: &Csr) -> bool {
    rows.n() >= MANY_VERTICES && rows.arc_count() / MANY_ARCS_A_VERTEX >= rows.n() as usize
}

/// The pairs for which a network is given a hierarchy.
#[derive(Clone, Copy, Debug, PartialEq, Eq)]
pub enum HierarchyUse {
    /// Those that come once far pairs took about as long as making one does.
    Auto,
    /// None.
    Never,
    /// The first ones already.
    Now,
}

/// The settings by which costs are worked out. No cost depends on them.
#[derive(Clone, Copy, Debug, PartialEq, Eq)]
pub struct Plan {
    /// The number of workers, and what they share.
    pub settings: Settings,
    pub at_once: AtOnce,
    /// The landmarks that a network is given at most; 0 for none. More than `MAX_LANDMARKS` are as many.
    pub landmarks: u32,
    /// The pairs without walks for which a network is given a hierarchy.
    pub hierarchy: HierarchyUse,
}

impl Plan {
    /// The plan that serves every network that was tried, with `workers` or the nearest number from 1 to
    /// `MAX_WORKERS`.
    pub fn usual(workers: u32) -> Plan
        ensures workers { result.settings.workers ≡ min (max workers 1) MAX_WORKERS }
        ensures buckets { result.settings.buckets ≡ buckets.Widening }
        ensures teams { result.at_once ≡ at_once.Auto }
    {
        let workers = workers.max(1).min(MAX_WORKERS);
        // One worker shares nothing, and its chunks take the same room at any size.
        let chunk = match workers {
            1 => MAX_CHUNK,
            2 => CHUNK_OF_TWO,
            _ => SHARED_CHUNK,
        };
        Plan {
            settings: Settings {
                workers,
                buckets: Buckets::Widening,
                chunk,
            },
            at_once: AtOnce::Auto,
            landmarks: USUAL_LANDMARKS,
            hierarchy: HierarchyUse::Auto,
        }
    }

    /// The number of sources that are solved at the same time in this network.
    pub fn teams(&self, network: &Network) -> usize
        ensures workers { result ≤ self.now.settings.workers }
        ensures most { IsAtMost self.now.at_once result }
    {
        self.at_once.teams(&network.rows, self.settings.workers)
    }
}
