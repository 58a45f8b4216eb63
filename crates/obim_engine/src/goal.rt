//! The labels that are wanted of a run.

ghost use Rattle.std.specs.Prelude.{◌≡◌, ◌↔◌, ◌<◌, ◌≤◌, true, IsTrue, length, slice_index, All};
ghost use Rattle.obim_engine.specs.Goal.{HasNoneLeft, IsGoalWithin, IsNear, IsServedBy};
ghost use Rattle.obim_engine.specs.Goal.{limit_for_all, limit_past, targets_of};

use csr_graph::Bounds;
use label_words::{Closed, Paused};
use route_walks::INF;

/// The labels that are wanted. The run may stop when it has them.
#[derive(Clone, Copy, Debug)]
pub enum Goal<'a> {
    /// Those of all vertices.
    EachVertex,
    /// Those of these vertices. The run goes as far as the greatest, and to its end if one can't be reached.
    Targets(&'a [u32]),
    /// Those of these vertices and of each vertex on a least walk to one of them, for `walk_report`. The run goes a
    /// little further than for `Targets`.
    WalksTo(&'a [u32]),
    /// All that are at most this bound.
    Within(u64),
    /// Those of the targets of these bounds, which are least if they are bounds of the graph. The run leaves a vertex alone
    /// if its label and its bound are at least the greatest of them.
    Toward(&'a Bounds<'a>),
}

impl<'a> Goal<'a> {
    /// Tells if the vertices named are below `n`: for goals from outside.
    pub fn is_within(&self, n: u32) -> bool
        ensures { IsTrue result ↔ IsGoalWithin n self.now }
    {
        self.targets().iter().all(|target| *target < n)
    }

    pub(crate) fn targets(&self) -> &'a [u32]
        ensures { result.now ≡ targets_of self.now }
    {
        match *self {
            Goal::Targets(targets) => targets,
            Goal::WalksTo(targets) => targets,
            Goal::Toward(bounds) => bounds.targets,
            _ => &[],
        }
    }

    /// The least limit that serves, by the greatest label of the targets.
    pub(crate) fn limit_past(&self, farthest: u64) -> u64
        ensures { result ≡ limit_past self.now farthest }
    {
        match *self {
            Goal::EachVertex => INF,
            Goal::Targets(_) => farthest,
            Goal::WalksTo(_) => farthest.saturating_add(1),
            Goal::Within(bound) => bound.saturating_add(1),
            Goal::Toward(_) => farthest,
        }
    }

    /// The limit up to which the labels of all vertices are least, if the run stopped at this one.
    pub(crate) fn limit_for_all(&self, limit: u64) -> u64
        ensures { result ≡ limit_for_all self.now limit }
    {
        match self {
            Goal::Toward(_) => 0,
            _ => limit,
        }
    }

    /// Tells if no marked vertex of a pause is needed, if this limit serves its labels.
    pub(crate) fn has_none_left(&self, rest: &Paused, n: u32, limit: u64) -> bool
        requires labels { length rest.now.labels ≡ n }
        requires marks { length rest.now.marks ≡ n }
        ensures { result ≡ true → HasNoneLeft self.now limit rest.now }
    {
        match *self {
            Goal::Toward(bounds) => rest.is_marked_far(bounds, n, limit),
            _ => rest.is_unmarked_below(limit),
        }
    }

    /// The least limit up to which labels must be least to serve.
    pub(crate) fn limit_of(&self, labels: &[u64]) -> u64
        requires { IsGoalWithin (length labels.now) self.now }
        ensures served { IsServedBy self.now labels.now (limit_for_all self.now result) }
        ensures near { IsNear self.now labels.now result }
    {
        self.limit_past(farthest(labels, self.targets()))
    }
}

/// The result of a run that may stop once its goal is reached.
#[derive(Debug, Drop)]
pub struct GoalResult {
    /// Least labels if the run came to its end, or else a pause.
    pub closed: Closed,
    /// The limit up to which labels are least: `INF` if all are.
    pub limit: u64,
}

fn farthest(labels: &[u64], targets: &[u32]) -> u64
    requires { All (λ t. t < length labels.now) targets.now }
    ensures { All (λ t. slice_index labels.now t ≤ result) targets.now }
{
    let mut most = 0;
    for target in targets {
        most = labels[*target as usize].max(most);
    }
    most
}
