//! The number of threads that read the next piece of a text.

ghost use Rattle.std.specs.Prelude.{◌<◌, ◌≤◌, ◌^◌};
ghost use Rattle.job_reader.specs.declared.readers.TheConstants.{MOST_THREADS};

use std::time::Duration;

/// The bytes of a piece that one thread reads. Three of these fit into a second-level cache.
pub(crate) const PIECE_BYTES: usize = 1 << 16;

/// The bytes of a piece for each of several threads, so that their start costs little.
const PART_BYTES_A_THREAD: usize = 1 << 20;

/// More threads read no faster.
const MOST_THREADS: usize = 16;

const FIRST_BYTES_ALONE: usize = 8 * PIECE_BYTES;

/// The bytes that one thread reads after several were slower twice in a row; twice as many each further time.
const NEXT_BYTES_ALONE: usize = 1 << 24;

/// Several are slower if a piece takes them longer by more than this part: less is chance.
const TOLERANCE: u128 = 4;

/// Has several threads read as long as that is faster. On a busy machine it isn't: a thread without a processor is
/// waited for.
#[derive(Clone, Copy, Debug)]
pub(crate) struct Readers {
    threads: usize,
    /// The bytes that one thread still reads.
    alone: usize,
    /// The bytes for one thread once several are slower again.
    next_alone: usize,
    /// The bytes that one thread last read, and the nanoseconds.
    read_alone: u128,
    spent_alone: u128,
    were_slower: bool,
    ghost within: { threads ≤ MOST_THREADS },
}

impl Readers {
    pub(crate) fn new(threads: usize) -> Readers {
        Readers {
            threads: threads.min(MOST_THREADS),
            alone: FIRST_BYTES_ALONE,
            next_alone: NEXT_BYTES_ALONE,
            read_alone: 0,
            spent_alone: 0,
            were_slower: false,
        }
    }

    pub(crate) fn threads(&self) -> usize
        ensures some { 1 ≤ result }
        ensures few { result ≤ MOST_THREADS }
    {
        if self.alone > 0 {
            1
        } else {
            self.threads.max(1)
        }
    }

    pub(crate) fn piece(&self) -> usize
        ensures some { 0 < result }
        ensures few { result ≤ 2 ^ 24 }
    {
        match self.threads() {
            1 => PIECE_BYTES,
            threads => PART_BYTES_A_THREAD * threads,
        }
    }

    /// Notes that `threads` threads took `spent` for a piece of `count` bytes.
    pub(crate) fn see(&mut self, threads: usize, count: usize, spent: Duration) {
        // A piece that was taken for another number of threads says nothing.
        if count == 0 || (threads > 1) != (count > PIECE_BYTES) {
            return;
        }
        let count = count as u128;
        if threads < 2 {
            self.alone = self.alone.saturating_sub(count as usize);
            self.read_alone = self.read_alone.saturating_add(count);
            self.spent_alone = self.spent_alone.saturating_add(spent.as_nanos());
            return;
        }
        let usual = self.spent_alone.saturating_mul(count) / self.read_alone.max(1);
        let slower = spent.as_nanos() > usual.saturating_add(usual / TOLERANCE);
        if slower && self.were_slower {
            self.begin_alone();
        }
        self.were_slower = slower && !self.were_slower;
    }

    /// Lets one thread read for a while, and measures its pace anew.
    fn begin_alone(&mut self) {
        self.alone = self.next_alone;
        self.next_alone = self.next_alone.saturating_mul(2);
        self.read_alone = 0;
        self.spent_alone = 0;
    }
}
