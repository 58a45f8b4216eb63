//! The visits for far targets, by which landmarks are chosen. No cost depends on them.

use obim_engine::Bounds;

/// The most labels that are looked at to tell how far a run went.
const SAMPLE_LABELS: usize = 4096;

/// Landmarks gain little if a search by them visits more than one vertex for so many before.
const VISITS_A_GUIDED_VISIT: u64 = 2;

/// The searches by landmarks after which their gain is known.
const TOLD_BY: u64 = 8;

/// The visits for sources whose targets weren't near, and how many these sources are.
#[derive(Clone, Copy, Debug)]
struct VisitCount {
    visits: u64,
    sources: u64,
}

impl VisitCount {
    fn none() -> VisitCount {
        VisitCount {
            visits: 0,
            sources: 0,
        }
    }

    /// Counts other sources too.
    fn add(&mut self, visits: u64, sources: u64) {
        self.visits = self.visits.saturating_add(visits);
        self.sources = self.sources.saturating_add(sources);
    }

    /// The visits for one source; 0 if there was none.
    fn mean(self) -> u64 {
        self.visits / self.sources.max(1)
    }
}

/// The visits for far targets since landmarks were chosen last.
#[derive(Clone, Copy, Debug)]
pub(crate) struct FarVisits {
    /// Those of workers, without landmarks.
    plain: VisitCount,
    /// Those by landmarks.
    guided: VisitCount,
    /// The visits for one source before landmarks were chosen; 0 if none was counted.
    before: u64,
}

impl FarVisits {
    /// Nothing was visited yet.
    pub(crate) fn none() -> FarVisits {
        FarVisits {
            plain: VisitCount::none(),
            guided: VisitCount::none(),
            before: 0,
        }
    }

    /// Counts a run without landmarks, which left these labels and stopped at a limit.
    pub(crate) fn see_run(&mut self, labels: &[u64], limit: u64) {
        self.plain.add(count_below(labels, limit), 1);
    }

    /// Counts a search by landmarks.
    pub(crate) fn see_search(&mut self, visits: u32) {
        self.guided.add(u64::from(visits), 1);
    }

    /// Counts a run by bounds, which left these labels, after a search in vain.
    pub(crate) fn see_guided_run(&mut self, labels: &[u64], bounds: &Bounds<'_>) {
        self.guided.add(count_toward(labels, bounds), 0);
    }

    /// Counts what others counted, after the same choice.
    pub(crate) fn add(&mut self, others: FarVisits) {
        self.plain.add(others.plain.visits, others.plain.sources);
        self.guided.add(others.guided.visits, others.guided.sources);
    }

    /// Counts anew, as landmarks are chosen.
    pub(crate) fn begin_choice(&mut self) {
        if self.plain.sources > 0 {
            self.before = self.plain.mean();
        }
        self.plain = VisitCount::none();
        self.guided = VisitCount::none();
    }

    /// Counts anew, and forgets what was visited before landmarks were chosen.
    pub(crate) fn forget(&mut self) {
        *self = FarVisits::none();
    }

    /// Tells if those of this kind are more than so many runs over `n` vertices.
    pub(crate) fn exceed(&self, is_guided: bool, runs: u32, n: u32) -> bool {
        let count = if is_guided { self.guided } else { self.plain };
        count.visits > u64::from(n).saturating_mul(u64::from(runs))
    }

    /// Tells if landmarks save too few visits to be worth their bounds.
    pub(crate) fn gain_little(&self) -> bool {
        self.before > 0
            && self.guided.sources >= TOLD_BY
            && self.guided.mean() > self.before / VISITS_A_GUIDED_VISIT
    }
}

/// About how many labels are below a limit: all that were visited are. Looks at some of many labels, at odd distances, so
/// that rows of a map share no column.
fn count_below(labels: &[u64], limit: u64) -> u64 {
    let step = sample_step(labels.len());
    let mut below = 0_u64;
    for at in 0..SAMPLE_LABELS {
        match labels.get(at.saturating_mul(step)) {
            Some(label) if *label < limit => below = below.saturating_add(1),
            Some(_) => {}
            None => break,
        }
    }
    below.saturating_mul(step as u64)
}

/// About how many labels with their bounds are below the greatest label of the targets.
fn count_toward(labels: &[u64], bounds: &Bounds<'_>) -> u64 {
    let limit = farthest(labels, bounds.targets);
    let step = sample_step(labels.len());
    let mut below = 0_u64;
    for at in 0..SAMPLE_LABELS {
        let Ok(vertex) = u32::try_from(at.saturating_mul(step)) else {
            break;
        };
        let Some(label) = labels.get(vertex as usize) else {
            break;
        };
        if label.saturating_add(bounds.bound(vertex)) < limit {
            below = below.saturating_add(1);
        }
    }
    below.saturating_mul(step as u64)
}

/// The distance of the labels of a sample.
fn sample_step(labels: usize) -> usize {
    (labels / SAMPLE_LABELS).saturating_add(1) | 1
}

fn farthest(labels: &[u64], targets: &[u32]) -> u64 {
    let mut most = 0;
    for target in targets {
        if let Some(label) = labels.get(*target as usize) {
            most = (*label).max(most);
        }
    }
    most
}
