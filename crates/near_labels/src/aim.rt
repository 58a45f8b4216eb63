//! The labels that a search is asked for.

ghost use Rattle.std.specs.Prelude.{◌≡◌, ◌<◌, ◌≤◌, All, length, slice_index};
ghost use Rattle.near_labels.specs.Aim.{IsServedBy, targets_of};

#[derive(Clone, Copy, Debug)]
pub(crate) enum SearchAim<'a> {
    /// Those of these vertices.
    Costs(&'a [u32]),
    /// Those of these vertices and of all on a least walk to one of them.
    Walks(&'a [u32]),
    /// All that are at most this bound.
    Within(u64),
}

impl<'a> SearchAim<'a> {
    pub(crate) fn targets(&self) -> &'a [u32]
        ensures { result.now ≡ targets_of self.now }
    {
        match *self {
            SearchAim::Costs(targets) => targets,
            SearchAim::Walks(targets) => targets,
            SearchAim::Within(_) => &[],
        }
    }

    /// The least limit up to which labels must be least to serve.
    pub(crate) fn limit_of(&self, labels: &[u64]) -> u64
        requires { All (λ t. t < length labels.now) (targets_of self.now) }
        ensures { IsServedBy self.now labels.now result }
    {
        match *self {
            SearchAim::Costs(targets) => farthest(labels, targets),
            SearchAim::Walks(targets) => farthest(labels, targets).saturating_add(1),
            SearchAim::Within(bound) => bound.saturating_add(1),
        }
    }

    /// Tells if what is asked for is known, if no lower sum than `next` waits. The targets before the place `seen` are
    /// known. A hint.
    pub(crate) fn is_reached(&self, labels: &[u64], seen: &mut usize, next: u64) -> bool
        requires { All (λ t. t < length labels.now) (targets_of self.now) }
    {
        let (targets, known) = match *self {
            SearchAim::Within(bound) => return next > bound,
            SearchAim::Costs(targets) => (targets, next),
            // One that has just the label of the next vertex may have a walk of fewer arcs.
            SearchAim::Walks(_) if next == 0 => return false,
            SearchAim::Walks(targets) => (targets, next - 1),
        };
        *seen = first_above(labels, targets, *seen, known);
        *seen >= targets.len()
    }
}

/// The first target from place `from` on whose label is above this one.
fn first_above(labels: &[u64], targets: &[u32], from: usize, label: u64) -> usize
    requires { All (λ t. t < length labels.now) targets.now }
{
    let mut place = from;
    while place < targets.len() {
        if labels[targets[place] as usize] > label {
            break;
        }
        place += 1;
    }
    place
}

/// The greatest label of the targets.
pub(crate) fn farthest(labels: &[u64], targets: &[u32]) -> u64
    requires { All (λ t. t < length labels.now) targets.now }
    ensures { All (λ t. slice_index labels.now t ≤ result) targets.now }
{
    let mut most = 0;
    for target in targets {
        most = labels[*target as usize].max(most);
    }
    most
}
