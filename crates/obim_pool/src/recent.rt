//! The places where bags were found last.

const RECENT_PLACES: usize = 16;

/// By a metric's lowest bits, the place where such a bag was found last: a hint, since most pushes go to a few buckets.
#[derive(Clone, Copy, Drop)]
pub(crate) struct Recent {
    places: [usize; RECENT_PLACES],
}

impl Recent {
    pub(crate) fn new() -> Recent {
        Recent {
            places: [0; RECENT_PLACES],
        }
    }

    #[inline(always)]
    pub(crate) fn place_of(&self, metric: u64) -> usize {
        self.places[metric as usize % RECENT_PLACES]
    }

    #[inline(always)]
    pub(crate) fn note(&mut self, metric: u64, place: usize) {
        self.places[metric as usize % RECENT_PLACES] = place;
    }
}
