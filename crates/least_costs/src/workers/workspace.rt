//! Room that is kept between questions.

use crate::near::Near;
use crate::workers::warm_pool::WarmPool;

/// The workers' pool, and room for searches by the thread that asks, kept from one question to the next. Both are made
/// when first used. No cost depends on it.
///
/// Searches take 9 bytes a vertex, 9 more from both ends, and 8 more for walks.
#[derive(Drop)]
pub struct Workspace {
    pub(crate) pool: Option<WarmPool>,
    pub(crate) near: Near,
    pub(crate) searches: bool,
}

impl Workspace {
    /// Keeps nothing yet. The thread that asks searches before it asks workers.
    pub fn new() -> Workspace {
        Workspace {
            pool: None,
            near: Near::new(),
            searches: true,
        }
    }

    /// Sets if the thread that asks searches, or asks workers at once.
    pub fn searching(self, searches: bool) -> Workspace {
        Workspace {
            pool: self.pool,
            near: self.near,
            searches,
        }
    }

    /// Tells if the thread that asks searches before it asks workers.
    pub fn searches(&self) -> bool {
        self.searches
    }

    /// The number of vertices visited by searches so far. No gate sees these visits.
    pub fn search_visits(&self) -> u64 {
        self.near.visits()
    }
}
