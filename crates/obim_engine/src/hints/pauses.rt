//! The waits of a worker that has nothing to do.

use crossbeam_utils::Backoff;
use std::thread::sleep;
use std::time::{Clock, Duration};

/// The first sleep, in microseconds, the growth of each next one, and the longest. So 1,024 fruitless pops in a row
/// sleep for some 0.3 seconds: a worker that the system held back with all the work comes back before. And a worker
/// sleeps no more than a small part of the time that it had no work.
const FIRST_SLEEP_MICROS: u64 = 50;

const SLEEP_GROWTH_MICROS: u64 = 1;

const LONGEST_SLEEP_MICROS: u64 = 400;

/// The pauses after fruitless pops in a row: turns of a loop, then yields, then growing sleeps.
#[derive(Drop)]
pub(crate) struct Pauses {
    backoff: Backoff,
    micros: u64,
    /// True if there was a pause since there was work.
    has_waited: bool,
}

impl Pauses {
    pub(crate) fn new() -> Pauses {
        Pauses {
            backoff: Backoff::new(),
            micros: FIRST_SLEEP_MICROS,
            has_waited: false,
        }
    }

    /// Makes the next pause short again.
    #[inline(always)]
    pub(crate) fn reset(&mut self) {
        if self.has_waited {
            *self = Pauses::new();
        }
    }

    /// Waits after a fruitless pop, and keeps the processor if a sweep is due. The clock only sleeps.
    pub(crate) fn wait<C: Clock>(&mut self, clock: &C, due: bool) {
        if due {
            self.reset();
            self.backoff.spin();
        } else if self.backoff.is_completed() {
            sleep(clock, Duration::from_micros(self.micros));
            self.micros = self
                .micros
                .saturating_add(SLEEP_GROWTH_MICROS)
                .min(LONGEST_SLEEP_MICROS);
        } else {
            self.backoff.snooze();
        }
        self.has_waited = true;
    }
}
