//! The limit of a search, past which workers are asked. No cost depends on it.

use crate::network::Network;

/// A search visits at most one vertex for so many of the network: some hundredths of the time of a whole run.
const VERTICES_A_VISIT: u32 = 32;

/// The first search visits at most one for so many.
const VERTICES_A_FIRST_VISIT: u32 = 64;

/// A search of so few visits takes next to no time.
const CHEAP_VISITS: u32 = 512;

/// A network of more vertices is searched less far after several vain searches.
const SMALL_VERTICES: u32 = 4096;

/// A search then visits one vertex for so many, and at most `CHEAP_VISITS`.
const VERTICES_A_LAST_VISIT: u32 = 512;

/// By landmarks a search visits at most one vertex for so many.
const VERTICES_A_GUIDED_VISIT: u32 = 4;

/// The fewest visits that a search is given.
const MIN_VISITS: u32 = 64;

/// The limit of one search.
#[derive(Clone, Copy, Debug)]
pub(crate) struct SearchLimit {
    pub(crate) visits: u32,
    pub(crate) arcs: usize,
}

/// The number of visits of a search: half as many after one that finds nothing, and twice after one that finds.
#[derive(Clone, Copy, Debug)]
pub(crate) struct SearchBudget {
    visits: u32,
    least: u32,
    most: u32,
}

impl SearchBudget {
    /// The budget in a network of `n` vertices.
    pub(crate) fn of(n: u32) -> SearchBudget {
        SearchBudget {
            visits: (n / VERTICES_A_FIRST_VISIT).max(CHEAP_VISITS),
            least: least_visits(n),
            most: (n / VERTICES_A_VISIT).max(CHEAP_VISITS),
        }
    }

    /// The budget in a network of `n` vertices if landmarks tell the way. A search is then worth a fair part of a run.
    pub(crate) fn by_landmarks(n: u32) -> SearchBudget {
        let most = (n / VERTICES_A_GUIDED_VISIT).max(CHEAP_VISITS);
        SearchBudget {
            visits: most,
            least: (most / 8).max(CHEAP_VISITS),
            most,
        }
    }

    /// The limit of the next search: twice as many arcs as so many vertices have.
    pub(crate) fn limit(self, network: &Network) -> SearchLimit {
        let rows = network.rows();
        let each = rows.arc_count() / (rows.n() as usize).max(1);
        let arcs = each
            .saturating_add(1)
            .saturating_mul(2)
            .saturating_mul(self.visits as usize);
        SearchLimit {
            visits: self.visits,
            arcs,
        }
    }

    /// Takes note of whether a search found what it was asked for.
    pub(crate) fn learn(&mut self, found: bool) {
        self.visits = if found {
            self.visits.saturating_mul(2).min(self.most)
        } else {
            (self.visits / 2).max(self.least)
        };
    }
}

/// The fewest visits of a search, after several vain ones.
fn least_visits(n: u32) -> u32 {
    if n > SMALL_VERTICES {
        (n / VERTICES_A_LAST_VISIT)
            .max(MIN_VISITS)
            .min(CHEAP_VISITS)
    } else {
        CHEAP_VISITS
    }
}
