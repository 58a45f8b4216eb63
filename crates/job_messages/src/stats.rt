//! Lines that `--stats` prints on standard error after the answer.

use crate::counter::Counter;
use crate::figures::Figures;
use job_answer::Asked;
use obim_engine::{Buckets, Settings};

/// More buckets cost time: each is looked into again as workers go on.
const MANY_BUCKETS: u64 = 4000;

/// With fewer buckets labels may fall again and again, if vertices are visited more often than `OFTEN_HUNDREDTHS`.
const FEW_BUCKETS: u64 = 20;

const OFTEN_HUNDREDTHS: u64 = 200;

/// Prints a line for each figure and for each worker's visits, and a hint if the default shift would serve better.
pub fn print_stats<H: Eprint>(rt: &H, asked: &Asked, figures: &Figures, counter: &Counter) {
    // If standard error is closed, nobody reads them.
    let _ = eprintln!(rt; "vertices: {}", figures.vertices);
    let _ = eprintln!(rt; "arcs: {}", figures.arcs);
    let _ = eprintln!(rt; "solves: {}", figures.solves);
    let _ = eprintln!(rt; "sources at once: {}", figures.at_once);
    let _ = eprintln!(rt; "landmarks: {}", figures.landmarks);
    let _ = eprintln!(rt; "arcs of the hierarchy: {}", figures.hierarchy_arcs);
    let _ = eprintln!(rt; "reading: {} ms", figures.reading.as_millis());
    let _ = eprintln!(rt; "rows: {} ms", figures.rows.as_millis());
    let _ = eprintln!(rt; "preparing: {} ms", figures.preparing.as_millis());
    let _ = eprintln!(rt; "solving: {} ms", figures.solving.as_millis());
    let _ = eprintln!(rt; "writing: {} ms", figures.writing.as_millis());
    match asked.settings.buckets {
        Buckets::Widening => {
            let _ = eprintln!(rt; "shift: auto");
        }
        Buckets::Even(shift) => {
            let _ = eprintln!(rt; "shift: {shift}");
        }
    }
    print_worklist(rt, &asked.settings, figures, counter);
}

fn print_worklist<H: Eprint>(rt: &H, settings: &Settings, figures: &Figures, counter: &Counter) {
    let worklist = counter.worklist();
    let _ = eprintln!(rt; "buckets: {}", worklist.buckets);
    let _ = eprintln!(rt; "looks into empty buckets: {}", worklist.looks);
    let _ = eprintln!(rt; "chunks: {}", worklist.chunks);
    let mut visits = 0_u64;
    for worker in 0..settings.workers {
        let count = counter.visits_of(worker);
        visits = visits.saturating_add(count);
        let _ = eprintln!(rt; "visits of worker {worker}: {count}");
    }
    let _ = eprintln!(rt; "visits of searches: {}", figures.search_visits);
    let rate = hundredths(visits, figures);
    let _ = eprintln!(rt; "visits a vertex: {}.{:02}", rate / 100, rate % 100);
    if misfits(settings, worklist.buckets, rate) {
        let _ = eprintln!(rt; "hint: without --shift it may be faster");
    }
}

/// Visits a vertex and source, in hundredths.
fn hundredths(visits: u64, figures: &Figures) -> u64 {
    let each = u64::from(figures.vertices).saturating_mul(figures.solves as u64);
    visits.saturating_mul(100) / each.max(1)
}

/// Tells if the given shift makes too many buckets, or so few that vertices are visited again and again.
fn misfits(settings: &Settings, buckets: u64, rate: u64) -> bool {
    settings.buckets != Buckets::Widening
        && (buckets > MANY_BUCKETS || buckets < FEW_BUCKETS && rate > OFTEN_HUNDREDTHS)
}
