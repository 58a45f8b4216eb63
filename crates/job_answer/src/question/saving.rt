//! The number of workers that answer a question.
//!
//! No answer depends on it.

ghost use Rattle.std.specs.Prelude.{◌≡◌};

use crate::question::asked::{Answer, Asked};
use crate::question::graphs::Graphs;
use dimacs_text::Ask;
use obim_engine::{MAX_CHUNK, Settings};

/// The vertices and arcs at which a second worker gains what its start costs, some 100 microseconds. Those of each of
/// several sources or pairs count.
const SERIAL_MAX_SIZE: usize = 1 << 14;

/// The number in place of `SERIAL_MAX_SIZE` for a single source or pair, which workers share: each step takes longer
/// there.
const SERIAL_MAX_SIZE_SHARED: usize = 1 << 17;

/// The number in place of `SERIAL_MAX_SIZE_SHARED` for two workers, which gain the least.
const SERIAL_MAX_SIZE_SHARED_BY_TWO: usize = 3 << 18;

/// Returns the question with one worker, if workers are saved and there is too little to do for another.
pub(crate) fn asked_for(asked: &Asked, graphs: &Graphs, ask: &Ask) -> Asked
    ensures answer { result.answer ≡ asked.now.answer }
{
    if asked.saves && is_little(asked, graphs, ask) {
        return asked.with_settings(alone(asked.settings));
    }
    *asked
}

fn is_little(asked: &Asked, graphs: &Graphs, ask: &Ask) -> bool {
    let rows = graphs.network.rows();
    let size = rows.arc_count().saturating_add(rows.n() as usize);
    let count = count_of(asked.answer, ask);
    size.saturating_mul(count) <= few_for(count, asked.settings.workers)
}

/// The most sources for which a graph is solved.
fn count_of(answer: Answer, ask: &Ask) -> usize {
    match (answer, ask) {
        (Answer::Components, _) | (_, Ask::Absent) => 1,
        (_, Ask::Sources(sources)) => sources.len(),
        (_, Ask::Pairs(pairs)) => pairs.len(),
    }
}

/// The vertices and arcs up to which one worker answers alone.
fn few_for(count: usize, workers: u32) -> usize {
    if count > 1 {
        SERIAL_MAX_SIZE
    } else if workers > 2 {
        SERIAL_MAX_SIZE_SHARED
    } else {
        SERIAL_MAX_SIZE_SHARED_BY_TWO
    }
}

/// The settings with one worker, and chunks as large as they can be: it shares nothing.
fn alone(settings: Settings) -> Settings {
    Settings {
        workers: 1,
        buckets: settings.buckets,
        chunk: MAX_CHUNK,
    }
}
