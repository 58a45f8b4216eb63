//! Laws of walks, labels and components.

ghost use Rattle.route_walks.specs.Walk.{WalksCanBeCut};
ghost use Rattle.route_walks.specs.Label.{SettledAndSoundAreLeast, LeastLabelsAreSettled};
ghost use Rattle.route_walks.specs.Label.{LeastLabelsAreUnique};
ghost use Rattle.route_walks.specs.Label.{LeastLabelsFollowTheArcs, InfMeansNoWalk, LabelsServeAsSeeds};
ghost use Rattle.route_walks.specs.Limit.{SettledUpToIsLeastUpTo, LeastUpToIsLeast, LeastIsLeastUpTo};
ghost use Rattle.route_walks.specs.Limit.{LeastUpToAgrees, WithinIsExact, WalksBelowAreTight};
ghost use Rattle.route_walks.specs.Limit.{SettledTowardIsLeastToward, LeastTowardIsLeastUpTo};
ghost use Rattle.route_walks.specs.Limit.{LeastUpToIsLeastToward, WalksTowardAreTight};
ghost use Rattle.route_walks.specs.Bounds.{BackwardLabelsAreBounds, BoundsArePast, RelaxedLabelsAreBounds};
ghost use Rattle.route_walks.specs.Component.{LeastLabelsAreComponents};
ghost use Rattle.route_walks.specs.Existence.{LeastLabelsExist};

/// Each walk can be cut to at most `n - 1` arcs, at no more cost.
pub fn walks_can_be_cut()
    ensures { WalksCanBeCut }
{}

/// Labels that no seed and no arc can lower, each attained or `INF`, are least. So an engine may lower labels in any
/// order.
pub fn settled_and_sound_are_least()
    ensures { SettledAndSoundAreLeast }
{}

/// No seed and no arc can lower a least label.
pub fn least_labels_are_settled()
    ensures { LeastLabelsAreSettled }
{}

/// A vertex has only one least label.
pub fn least_labels_are_unique()
    ensures { LeastLabelsAreUnique }
{}

/// Each vertex has a least label: rounds over all arcs give it.
pub fn least_labels_exist()
    ensures { LeastLabelsExist }
{}

/// Neither the order nor the number of equal arcs changes least labels.
pub fn least_labels_follow_the_arcs()
    ensures { LeastLabelsFollowTheArcs }
{}

/// A least label of `INF` means that no walk from a seed ends there: a walk that is cut costs less than 2^60.
pub fn inf_means_no_walk()
    ensures { InfMeansNoWalk }
{}

/// States that least labels are components if each vertex is a seed that starts at its own number, and each arc is
/// taken both ways at no cost.
pub fn least_labels_are_components()
    ensures { LeastLabelsAreComponents }
{}

/// States that labels serve as seeds if they are attained or `INF`, and no seed can lower one. So a paused run goes on
/// from its labels alone.
pub fn labels_serve_as_seeds()
    ensures { LabelsServeAsSeeds }
{}

/// Labels are least up to a limit if each is attained or `INF`, no seed can lower one, and no arc can lower one below
/// the limit. So an engine may stop early.
pub fn settled_up_to_a_limit_is_least()
    ensures { SettledUpToIsLeastUpTo }
{}

/// States that labels that are least up to a limit are exact below it, and that one of just the limit is least. Least
/// labels are least up to each limit.
pub fn least_up_to_a_limit()
    ensures least { LeastUpToIsLeast }
    ensures all { LeastIsLeastUpTo }
    ensures agrees { LeastUpToAgrees }
    ensures within { WithinIsExact }
{}

/// States that each vertex on a least walk below a limit has its least label, if labels are least up to the limit. A
/// label of just the limit may have a walk through one that isn't least, if arcs are free.
pub fn walks_below_a_limit_are_tight()
    ensures { WalksBelowAreTight }
{}

/// States that labels are least up to a limit on the way to a vertex if each seed is met and each label is attained or
/// `INF`. From what an arc offers that can lower one, each walk to that vertex has to cost at least the limit.
pub fn settled_toward_a_vertex_is_least()
    ensures settled { SettledTowardIsLeastToward }
    ensures there { LeastTowardIsLeastUpTo }
    ensures special { LeastUpToIsLeastToward }
    ensures past { BoundsArePast }
{}

/// States that each vertex on a least walk to a vertex has its least label. Labels have to be least up to a limit on the
/// way there, and that of the vertex below it.
pub fn walks_toward_a_vertex_are_tight()
    ensures { WalksTowardAreTight }
{}

/// States that labels tell what walks cost at least if all arcs are relaxed, as for the least labels from a landmark.
/// They rise along a walk by no more than its cost. If arcs are relaxed backwards, they fall by no more.
pub fn relaxed_labels_are_bounds()
    ensures forward { RelaxedLabelsAreBounds }
    ensures backward { BackwardLabelsAreBounds }
{}
